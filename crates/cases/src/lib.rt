// The figures of document 01 that are to be proved: in specs/ and proofs/. No code.

#![tactic(auto)]
