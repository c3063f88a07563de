//! The rows of ceremonies, of their steps and of accepted commands.
use kcr_base::{Activity, Day, Facility, Initials, Key, Moment, Remark, Text};
use kcr_script::Seats;

/// How far a ceremony is.
#[derive(Clone, Copy, PartialEq, Eq)]
pub enum CeremonyState {
    Planned,
    Open,
    Closed,
}

/// A ceremony, under its number.
#[derive(Clone, Copy, PartialEq, Eq)]
pub struct CeremonyRow {
    pub number: u32,
    pub facility: Facility,
    /// The day from which it may be opened.
    pub day: Day,
    pub state: CeremonyState,
    /// When it was opened, or None while it was not.
    pub opened: Option<Moment>,
    /// When it was closed, or None while it was not.
    pub closed: Option<Moment>,
}

/// The mark of a ceremony, there once it was opened: the greatest moment of its opening, signatures, exceptions and
/// custody commands.
#[derive(Clone, Copy, PartialEq, Eq)]
pub struct MarkRow {
    pub ceremony: u32,
    pub at: Moment,
}

/// What became of a step.
#[derive(Clone, Copy, PartialEq, Eq)]
pub enum StepState {
    /// Neither signed nor passed.
    Undone,
    Signed,
    /// Passed over by an exception.
    Passed,
}

/// A step of a ceremony's script, under the ceremony and the step's number, counted from 1.
#[derive(Drop)]
pub struct StepRow {
    pub ceremony: u32,
    pub step: u32,
    pub activity: Activity,
    pub seats: Seats,
    pub state: StepState,
    /// When it was signed or passed, or None while it was not.
    pub at: Option<Moment>,
}

/// Who filled a seat of a step, under the ceremony, the step and the seat's position, both counted from 1.
#[derive(Clone, Copy, PartialEq, Eq)]
pub struct SeatingRow {
    pub ceremony: u32,
    pub step: u32,
    pub seat: u32,
    pub who: Initials,
}

/// A script exception, under the ceremony and its number there, counted from 1.
#[derive(Drop)]
pub struct ExceptionRow {
    pub ceremony: u32,
    pub exception: u32,
    pub text: Remark,
    pub at: Moment,
    /// The step that it passed, or `None` if it passed none.
    pub passed: Option<u32>,
}

/// The row of an accepted command: its key, its number counted from 1, the text by which it is compared with another
/// command of the same key, and the reply that every repeat of it gets.
#[derive(Drop)]
pub struct KeyRow {
    pub key: Key,
    pub accepted: u32,
    pub command: Text,
    pub reply: Text,
}
