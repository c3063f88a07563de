//! What the cells of a column are.

/// What the cells of a column are.
#[derive(Clone, Copy)]
pub enum Kind {
    Initials,
    Key,
    /// A bag's serial or an item's code.
    Serial,
    Name,
    Activity,
    Remark,
    Text,
    Day,
    DayOrNull,
    Moment,
    MomentOrNull,
    Ceremony,
    Box,
    Step,
    StepOrNull,
    Seat,
    Exception,
    Command,
    /// The number of a schema.
    Version,
    Facility,
    Role,
    Place,
    /// A Crypto Officer's place of the facility in column 0.
    Officer,
    Safe,
    Truth,
    Way,
    CeremonyState,
    StepState,
    Spot,
    Seats,
    /// The facility where an item is, or NULL if column 2 is not NULL.
    Loose,
    /// The bag that an item is in, or NULL if column 1 is not NULL.
    Within,
}
