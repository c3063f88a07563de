//! What a search counts. The counters take no bytes.
ghost use Rattle.std.specs.Prelude.{◌≡◌, ℕ, ◌+◌, ◌<◌, ◌≤◌};

use std::marker::Model;
use std::sync::ledger::{Blank, Book, Ledger, Share};

/// All steps of a search so far.
#[derive(Drop)]
pub(crate) struct StepCounter<L: Ledger> {
    book: Book<L>,
    share: Share<L>,
}

impl<L: Ledger> Model for StepCounter<L> {
    ghost Value = { ℕ };

    ghost view = { λ turns. turns.book.total };

    ghost invariant = { λ turns. 0 < turns.share.parts };
}

impl<L: Ledger> StepCounter<L> {
    /// Counts a step.
    pub fn tick(&mut self)
        ensures { self.new ≡ self.old + 1 }
    {
        self.book.add(&mut self.share, 1);
    }

    /// Counts a step that the other share counts too.
    fn tick_with(&mut self, other: &mut Share<L>)
        requires { 0 < other.old.parts }
        ensures total { self.new ≡ self.old + 1 }
        ensures amount { other.new.amount ≡ other.old.amount + 1 }
        ensures parts { other.new.parts ≡ other.old.parts }
    {
        self.book.add(other, 1);
    }
}

/// How many steps a search took, `all`, and how many of them were calls of `Fits::fits`, `asks`.
///
/// A step is a call of `Fits::fits` or a turn of a loop. The counters take no bytes.
#[derive(Drop)]
pub struct Steps<L: Ledger> {
    pub(crate) counter: StepCounter<L>,
    fits_calls: Share<L>,
}

impl<L: Ledger> Model for Steps<L> {
    ghost use Rattle.std.specs.Prelude.{◌<◌};
    ghost use Rattle.kcr_seats.specs.Count.{Count};

    ghost Value = { Count };

    ghost view = { λ steps. record { all = steps.counter; fits_calls = steps.fits_calls.amount } };

    ghost invariant = { λ steps. 0 < steps.fits_calls.parts };
}

impl<L: Ledger> Steps<L> {
    /// No step yet. The ledger has two parts or more: one of them is for the calls of `Fits::fits`.
    pub fn new(blank: Blank) -> Self
        requires name { blank.name ≡ L.name }
        requires parts { blank.parts ≡ L.parts }
        requires two { 2 ≤ blank.parts }
        ensures all { result.all ≡ 0 }
        ensures asks { result.fits_calls ≡ 0 }
    {
        let (book, mut share) = blank.open::<L>();
        let asked = share.split_off(1, 0);
        Steps {
            counter: StepCounter { book, share },
            fits_calls: asked,
        }
    }

    /// Counts a turn of a loop.
    pub(crate) fn tick(&mut self)
        ensures all { self.new.all ≡ self.old.all + 1 }
        ensures asks { self.new.fits_calls ≡ self.old.fits_calls }
    {
        self.counter.tick();
    }

    /// Counts a call of `Fits::fits`.
    pub(crate) fn tick_fits_call(&mut self)
        ensures all { self.new.all ≡ self.old.all + 1 }
        ensures asks { self.new.fits_calls ≡ self.old.fits_calls + 1 }
    {
        self.counter.tick_with(&mut self.fits_calls);
    }
}
