// What is proved of every file, and examples: in specs/ and proofs/. No code.

#![tactic(auto)]
