//! The limits of the register, each with its name. Definitions read them from here too.

/// The greatest number of a ceremony. The least is 1.
pub const MAX_CEREMONY: u32 = 9_999;

/// The greatest number of a box in safe 2 of a facility. The least is 1.
pub const MAX_BOX: u32 = 9_999;

/// The most steps that a script has. They are numbered from 1.
pub const MAX_STEPS: u32 = 400;

/// The most exceptions of a ceremony. They are numbered from 1.
pub const MAX_EXCEPTIONS: u32 = 200;

/// The most people who are in a ceremony's room at once.
pub const MAX_PRESENT: usize = 128;

/// The most entries into a ceremony's room. A person who comes in twice counts twice.
pub const MAX_ENTRIES: usize = 1_000;

/// The most bytes of a remark.
pub const MAX_REMARK: usize = 1_000;

/// The most commands that a register accepts. They are numbered from 1.
pub const MAX_COMMANDS: u32 = 4_000_000_000;
