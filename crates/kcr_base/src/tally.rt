//! A number that only clauses read.
ghost use Rattle.std.specs.Prelude.{◌≡◌, ℕ, ◌+◌};
ghost use Rattle.std.specs.Borrow.{ftrue};

use std::marker::Model;

/// A count that takes no bytes at run time: only clauses can read it.
#[derive(Drop)]
pub struct Tally {
    pub ghost count: { ℕ },
}

impl Model for Tally {
    ghost also_owns = { λ _. ftrue };
}

impl Tally {
    /// A count of nothing.
    pub fn new() -> Tally
        ensures { result.count ≡ 0 }
    {
        Tally {}
    }

    /// One more than `before`.
    pub fn after(_before: &Tally) -> Tally
        ensures { result.count ≡ _before.now.count + 1 }
    {
        Tally {}
    }
}
