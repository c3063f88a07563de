//! The paths that take a command.
use kcr_base::{CeremonyNumber, Initials, Place, Serial, StepNumber};
use kcr_custody::SafeNumber;

/// A collection that a command adds to.
#[derive(Clone, Copy)]
pub enum CollectionPath {
    People,
    Custodians,
    Boxes,
    Items,
    Ceremonies,
}

/// What a command gives a person.
#[derive(Clone, Copy)]
pub enum PersonPath {
    Roles,
    Withdrawals,
}

/// What a command does with a custodian's place.
#[derive(Clone, Copy)]
pub enum PlacePath {
    Replacement,
    Release,
}

/// What a command does in a ceremony.
#[derive(Clone, Copy)]
pub enum CeremonyPath {
    Opening,
    Closing,
    Sheet,
    Exceptions,
}

/// What a command does with a bag in a ceremony.
#[derive(Clone, Copy)]
pub enum BagPath {
    Seal,
    Take,
    Put,
    Cut,
}

/// A path that takes a command, with its parts read, in their order.
#[derive(Clone, Copy)]
pub enum Post {
    Collection(CollectionPath),
    Person(Initials, PersonPath),
    Place(Place, PlacePath),
    Ceremony(CeremonyNumber, CeremonyPath),
    Signature(CeremonyNumber, StepNumber),
    Safe(CeremonyNumber, SafeNumber),
    Bag(CeremonyNumber, Serial, BagPath),
}
