//! The seats of a step.
ghost use Rattle.std.specs.Prelude.{◌≡◌, Some, true};
ghost use Rattle.kcr_base.specs.Reads.{HasText, ReadsText};
ghost use Rattle.kcr_script.specs.Seat.{seat_text, IsSeat, can_repeat};

use kcr_base::{PlaceNumber, Role, strip_prefix};

/// A seat of a step: what one person in the room has to be, so that the step may be signed.
#[derive(Clone, Copy, PartialEq, Eq)]
pub enum Seat {
    /// Trained for this role on the day.
    Staff(Role),
    /// The holder of some Crypto Officer's place of the ceremony's facility: `CO`.
    AnyCo,
    /// The holder of some Recovery Key Share Holder's place: `RKSH`.
    AnyRksh,
    /// The holder of the facility's Crypto Officer's place with this number, 1 to 7: `CO/3`.
    Co(u8),
    /// The holder of the Recovery Key Share Holder's place with this number, 1 to 7: `RKSH/3`.
    Rksh(u8),
}

impl Seat {
    /// The seat with this text: a role, `CO`, `RKSH`, `CO/n` or `RKSH/n` with n from 1 to 7; None for every other
    /// text.
    pub fn read(bytes: &[u8]) -> Option<Seat>
        ensures found { HasText IsSeat seat_text bytes.now result }
        ensures only { ReadsText IsSeat seat_text bytes.now result }
    {
        if let Some(rest) = strip_prefix(bytes, b"CO/") {
            return Some(Seat::Co(PlaceNumber::read(rest)?.get()));
        }
        if let Some(rest) = strip_prefix(bytes, b"RKSH/") {
            return Some(Seat::Rksh(PlaceNumber::read(rest)?.get()));
        }
        match bytes {
            b"CO" => Some(Seat::AnyCo),
            b"RKSH" => Some(Seat::AnyRksh),
            _ => Some(Seat::Staff(Role::read(bytes)?)),
        }
    }

    /// Whether `*m` may follow it in a seat text: it may if the seat has no number.
    pub fn can_repeat(self) -> bool
        ensures { result ≡ can_repeat self }
    {
        match self {
            Seat::Staff(_) | Seat::AnyCo | Seat::AnyRksh => true,
            Seat::Co(_) | Seat::Rksh(_) => false,
        }
    }
}
