// What is demanded of the exports, as statements about what they promise, in specs and proofs alone: there is no code. Assumes nothing.
#![tactic(auto)]
