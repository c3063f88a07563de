//! The texts of destinations, which members of commands have.
ghost use Rattle.std.specs.Prelude.{◌≡◌, false};
ghost use Rattle.kcr_base.specs.Reads.{HasText, ReadsText};
ghost use Rattle.kcr_custody.specs.Destinations.{IsDestination, destination_text, destination_of};

use crate::Destination;
use kcr_base::{BoxNumber, Written};
use std::alloc::{AllocError, Global};

/// Where a bag is put: `safe1`, or the number of a box.
#[tactic(auto, using(kcr_base::proofs::ValueLemmas::value_readings), unfolding(crate::specs::Destinations::destination_of))]
fn read_destination(bytes: &[u8]) -> Option<Destination>
    ensures form { result ≡ destination_of bytes.now }
    ensures found { HasText IsDestination destination_text bytes.now result }
    ensures only { ReadsText IsDestination destination_text bytes.now result }
{
    if bytes == b"safe1".as_slice() {
        Some(Destination::SafeOne)
    } else {
        BoxNumber::read(bytes).map(Destination::DepositBox)
    }
}

impl Written for Destination {
    ghost is_value = { IsDestination };

    ghost text = { destination_text };

    ghost form = { destination_of };

    ghost allocates = { false };

    fn from_text(_alloc: Global, bytes: &[u8]) -> Result<Option<Self>, AllocError> {
        Ok(read_destination(bytes))
    }
}
