//! The lines of an annotated script.

ghost use Rattle.std.specs.Prelude.{◌≡◌, ◌++◌, All, OnOk, IfErr};
ghost use Rattle.kcr_script.specs.Seat.{seat_text, IsSeat};
ghost use Rattle.kcr_history.specs.Prints as report;
ghost use Rattle.kcr_tables.specs.Refusals.{IsFault};
ghost use Rattle.kcr_print.specs.Lines.{head_lines, foot_lines, done_lines, seated_lines};

use crate::line::{push_inner_line, push_line, push_moment};
use crate::print_lines::PrintLines;
use itoa::Buffer;
use kcr_base::{Code, Initials, Refusal, Role};
use kcr_history::{CeremonyRow, CeremonyState, ExceptionRow, SeatedStep, StepRow, StepState};
use kcr_script::{Seat, write_seats};
use std::alloc::{AllocError, Global};

fn state_text(state: CeremonyState) -> &'static str
    ensures { result.now ≡ report.state_text state }
{
    match state {
        CeremonyState::Planned => "planned",
        CeremonyState::Open => "open",
        CeremonyState::Closed => "closed",
    }
}

/// Adds the first line: the ceremony's number, facility, day and state.
fn push_title(out: &mut Vec<u8>, row: &CeremonyRow) -> Result<(), AllocError>
    ensures { OnOk result (out.new.items ≡ out.old.items ++ report.head_line row.now) }
{
    let mut number = Buffer::new();
    let day = row.day.code();
    push_line(
        out,
        &[
            "Ceremony",
            number.format(row.number),
            row.facility.text(),
            day.as_str(),
            state_text(row.state),
        ],
    )
}

/// What stands above the steps: the first line, and when the ceremony was opened.
#[derive(Clone, Copy)]
pub(crate) struct Head<'a> {
    pub(crate) row: &'a CeremonyRow,
}

impl PrintLines for Head<'_> {
    ghost lines = { λ head. head_lines head.row.now };

    fn print_lines(&self, _alloc: Global, out: &mut Vec<u8>) -> Result<(), Refusal> {
        push_title(out, self.row)?;
        push_moment(out, "Opened", self.row.opened)?;
        Ok(())
    }
}

/// What stands under the exceptions: when the ceremony was closed.
#[derive(Clone, Copy)]
pub(crate) struct Foot<'a> {
    pub(crate) row: &'a CeremonyRow,
}

impl PrintLines for Foot<'_> {
    ghost lines = { λ foot. foot_lines foot.row.now };

    fn print_lines(&self, _alloc: Global, out: &mut Vec<u8>) -> Result<(), Refusal> {
        Ok(push_moment(out, "Closed", self.row.closed)?)
    }
}

/// The text of a seat, which takes no memory.
fn seat_code(seat: Seat) -> Code<6>
    requires { IsSeat seat }
    ensures { result ≡ seat_text seat }
{
    match seat {
        Seat::Staff(role) => Code::new(role.text().as_bytes()),
        Seat::AnyCo => Code::new(b"CO"),
        Seat::AnyRksh => Code::new(b"RKSH"),
        Seat::Co(number) => Code::new(&[b'C', b'O', b'/', b'0' + number]),
        Seat::Rksh(number) => Code::new(&[b'R', b'K', b'S', b'H', b'/', b'0' + number]),
    }
}

/// Adds a line for each seat, with the person who filled it.
fn push_seats(out: &mut Vec<u8>, seats: &[Seat], people: &[Initials]) -> Result<(), AllocError>
    requires { All IsSeat seats.now }
    ensures { OnOk result (out.new.items ≡ out.old.items ++ report.seat_lines seats.now people.now) }
{
    for (seat, who) in seats.iter().zip(people) {
        let seat = seat_code(*seat);
        push_inner_line(out, &[seat.as_str(), who.as_str()])?;
    }
    Ok(())
}

/// Adds the lines of a step that is done, with the word for how. A step without a moment is refused as `Disk`.
fn push_done(
    out: &mut Vec<u8>,
    word: &str,
    step: &StepRow,
    seats: &[Seat],
    people: &[Initials],
) -> Result<(), Refusal>
    requires { All IsSeat seats.now }
    ensures lines { OnOk result (out.new.items ≡ out.old.items ++ done_lines word.now step.now seats.now people.now) }
    ensures cause { IfErr result IsFault }
{
    let Some(at) = step.at else {
        return Err(Refusal::Disk);
    };
    let mut number = Buffer::new();
    let at = at.code();
    push_line(
        out,
        &[
            number.format(step.step),
            word,
            at.as_str(),
            step.activity.as_str(),
        ],
    )?;
    push_seats(out, seats, people)?;
    Ok(())
}

/// Adds the lines of a step that is not done.
fn push_open(alloc: Global, out: &mut Vec<u8>, step: &StepRow) -> Result<(), AllocError>
    ensures { OnOk result (out.new.items ≡ out.old.items ++ report.open_lines step.now) }
{
    let mut number = Buffer::new();
    let seats = write_seats(alloc, &step.seats)?;
    push_line(
        out,
        &[number.format(step.step), "open", step.activity.as_str()],
    )?;
    push_inner_line(out, &["seats", seats.as_str()])
}

impl PrintLines for SeatedStep {
    ghost lines = { seated_lines };

    fn print_lines(&self, alloc: Global, out: &mut Vec<u8>) -> Result<(), Refusal> {
        let step = &self.step;
        let people = self.seated.as_slice();
        match step.state {
            StepState::Undone => Ok(push_open(alloc, out, step)?),
            StepState::Signed => push_done(out, "signed", step, step.seats.as_slice(), people),
            StepState::Passed => {
                let seats = [Seat::Staff(Role::Ca), Seat::Staff(Role::Iw)];
                push_done(out, "passed", step, &seats, people)
            }
        }
    }
}

/// Adds the line of an exception.
fn push_exception(out: &mut Vec<u8>, row: &ExceptionRow) -> Result<(), AllocError>
    ensures { OnOk result (out.new.items ≡ out.old.items ++ report.exception_line row.now) }
{
    let mut number = Buffer::new();
    let mut passed = Buffer::new();
    let exception = number.format(row.exception);
    let at = row.at.code();
    let text = row.text.as_str();
    match row.passed {
        None => push_line(out, &["Exception", exception, at.as_str(), text]),
        Some(step) => {
            let step = passed.format(step);
            push_line(
                out,
                &["Exception", exception, at.as_str(), "step", step, text],
            )
        }
    }
}

impl PrintLines for ExceptionRow {
    ghost lines = { report.exception_line };

    fn print_lines(&self, _alloc: Global, out: &mut Vec<u8>) -> Result<(), Refusal> {
        Ok(push_exception(out, self)?)
    }
}
