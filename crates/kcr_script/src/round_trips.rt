//! What is written is read again.
ghost use Rattle.std.specs.Prelude.{◌≡◌, Some, IfOk};

use crate::seats::{Seats, read_seats, write_seats};
use std::alloc::{AllocError, Global};

/// Writes the seats and reads what was written: the same seats, for every list of 1 to 16 seats whose numbers are 1 to
/// 7. The error is out of memory.
pub fn round_trip(alloc: Global, seats: &Seats) -> Result<Option<Seats>, AllocError>
    ensures { IfOk result (λ read. read ≡ Some seats.now) }
{
    let text = write_seats(alloc, seats)?;
    read_seats(alloc, text.as_bytes())
}
