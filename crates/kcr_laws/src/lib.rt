//! What holds of every register, and of the machine: the laws are lemmas in `proofs/Laws.antt`. There is no code.
#![tactic(auto)]
