// The largest remainder rule, and what is proved of it: in specs/ and proofs/. No code.

#![tactic(auto)]
