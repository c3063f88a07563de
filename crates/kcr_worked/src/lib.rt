//! Worked examples, in `proofs/`: what definitions give for a history that is written out. They are of definitions that
//! no code computes, and of a few that a reader looks at first. There is no code.
#![tactic(auto)]
