// 01's whole table, in specs and proofs alone: there is no code. Assumes nothing.
#![tactic(auto)]
