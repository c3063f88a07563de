//! Whether two texts are the same, and which of two people or days comes first, as tests that compute.
ghost use Rattle.std.specs.Prelude.{◌≡◌, nat_lt};
ghost use Rattle.kcr_base.specs.Same;

use crate::day::Day;
use crate::initials::Initials;
use std::cmp::Ordering;

/// Whether two texts are the same bytes.
pub fn same_text(text: &[u8], other: &[u8]) -> bool
    ensures { result ≡ Same.same_text text.now other.now }
{
    text == other
}

/// Whether the first initials come before the second in byte order.
pub fn is_before(who: Initials, other: Initials) -> bool
    ensures { result ≡ Same.is_before who other }
{
    match who.cmp(&other) {
        Ordering::Less => true,
        Ordering::Equal => false,
        Ordering::Greater => false,
    }
}

/// Whether the first day is earlier than the second.
pub fn is_earlier(day: Day, other: Day) -> bool
    ensures { result ≡ nat_lt day other }
{
    day < other
}
