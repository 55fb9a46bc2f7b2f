// What follows from the promises of calls and reads, of one and over a run of them, in specs and proofs alone: there is no code. Assumes nothing.
#![tactic(auto)]
