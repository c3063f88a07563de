//! Values that a column stores as a whole number.

ghost use Rattle.std.specs.Prelude.{⊤, ◌≡◌, ◌<◌, ◌^◌, ℕ, pos, IfSome, Some};
ghost use Rattle.std.proofs.Common.{arith};
ghost use Rattle.kcr_base.specs.{Day.IsDay, Moment.IsMoment, declared.limits.TheConstants.MAX_COMMANDS, declared.limits.TheConstants.MAX_EXCEPTIONS};
ghost use Rattle.kcr_rows.specs.Values.{truth_number};
ghost use Rattle.kcr_rows.specs.States.{safe_digit, way_number, ceremony_number, step_number};

use kcr_base::number::Numbered;
use kcr_base::{Day, MAX_COMMANDS, MAX_EXCEPTIONS, Moment};
use kcr_custody::SafeNumber;
use kcr_history::{CeremonyState, StepState};
use kcr_room::Way;

/// A value that a column stores as a whole number.
pub trait AsNumber: Copy {
    /// What is known of each value.
    ghost is_value: { Self → Type 0 };

    /// The number of a value.
    ghost number: { Self → ℕ };

    /// The value with this number, or `None` if there is none.
    fn from_number(given: i64) -> Option<Self>
        ensures found { IfSome result (λ v. given ≡ pos (number v)) }
        ensures only { (v : Self) → is_value v → given ≡ pos (number v) → result ≡ Some v };

    /// The number of this value.
    fn number(self) -> i64
        ensures { result ≡ pos (number self) };
}

impl AsNumber for u32 {
    ghost is_value = { λ n. n < 2 ^ 32 };

    ghost number = { λ n. n };

    fn from_number(given: i64) -> Option<u32> {
        if given >= 0 && given <= 4_294_967_295 {
            Some(given as u32)
        } else {
            None
        }
    }

    fn number(self) -> i64 {
        i64::from(self)
    }
}

impl AsNumber for Day {
    ghost is_value = { IsDay };

    ghost number = { λ n. n };

    fn from_number(given: i64) -> Option<Day> {
        if given >= 0 && given < 1 << 16 {
            Day::from_number(given as u16)
        } else {
            None
        }
    }

    fn number(self) -> i64 {
        i64::from(self.number())
    }
}

impl AsNumber for Moment {
    ghost is_value = { IsMoment };

    ghost number = { λ n. n };

    fn from_number(given: i64) -> Option<Moment> {
        if given >= 0 {
            Moment::from_number(given as u64)
        } else {
            None
        }
    }

    fn number(self) -> i64 {
        self.number() as i64
    }
}

/// The number of a truth value, 0 or 1.
impl AsNumber for bool {
    ghost is_value = { λ _. ⊤ };

    ghost number = { truth_number };

    fn from_number(given: i64) -> Option<bool> {
        match given {
            0 => Some(false),
            1 => Some(true),
            _ => None,
        }
    }

    fn number(self) -> i64 {
        i64::from(self)
    }
}

/// The number of a safe, 1 or 2.
impl AsNumber for SafeNumber {
    ghost is_value = { λ _. ⊤ };

    ghost number = { safe_digit };

    fn from_number(given: i64) -> Option<SafeNumber> {
        match given {
            1 => Some(SafeNumber::One),
            2 => Some(SafeNumber::Two),
            _ => None,
        }
    }

    fn number(self) -> i64 {
        match self {
            SafeNumber::One => 1,
            SafeNumber::Two => 2,
        }
    }
}

/// The way of a row of the sheet: 1 for in and 0 for out.
impl AsNumber for Way {
    ghost is_value = { λ _. ⊤ };

    ghost number = { way_number };

    fn from_number(given: i64) -> Option<Way> {
        match given {
            0 => Some(Way::Leave),
            1 => Some(Way::Enter),
            _ => None,
        }
    }

    fn number(self) -> i64 {
        match self {
            Way::Leave => 0,
            Way::Enter => 1,
        }
    }
}

/// The state of a ceremony: 0 planned, 1 open, 2 closed.
impl AsNumber for CeremonyState {
    ghost is_value = { λ _. ⊤ };

    ghost number = { ceremony_number };

    fn from_number(given: i64) -> Option<CeremonyState> {
        match given {
            0 => Some(CeremonyState::Planned),
            1 => Some(CeremonyState::Open),
            2 => Some(CeremonyState::Closed),
            _ => None,
        }
    }

    fn number(self) -> i64 {
        match self {
            CeremonyState::Planned => 0,
            CeremonyState::Open => 1,
            CeremonyState::Closed => 2,
        }
    }
}

/// The state of a step: 0 while it is undone, 1 signed, 2 passed.
impl AsNumber for StepState {
    ghost is_value = { λ _. ⊤ };

    ghost number = { step_number };

    fn from_number(given: i64) -> Option<StepState> {
        match given {
            0 => Some(StepState::Undone),
            1 => Some(StepState::Signed),
            2 => Some(StepState::Passed),
            _ => None,
        }
    }

    fn number(self) -> i64 {
        match self {
            StepState::Undone => 0,
            StepState::Signed => 1,
            StepState::Passed => 2,
        }
    }
}

/// That a number is a seat's position among those of its step.
pub struct OfSeat;

impl Numbered for OfSeat {
    ghost limit = { 16 };

    fn limit() -> u32 {
        16
    }

    ghost fits = { omega arith };
}

/// That a number is an exception's, of `MAX_EXCEPTIONS` in a ceremony at most.
pub struct OfException;

impl Numbered for OfException {
    ghost limit = { MAX_EXCEPTIONS };

    fn limit() -> u32 {
        MAX_EXCEPTIONS
    }

    ghost fits = { omega arith };
}

/// That a number is an accepted command's.
pub struct OfCommand;

impl Numbered for OfCommand {
    ghost limit = { MAX_COMMANDS };

    fn limit() -> u32 {
        MAX_COMMANDS
    }

    ghost fits = { omega arith };
}
