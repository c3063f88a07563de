//! A line of the journal.
ghost use Rattle.std.specs.Prelude.{◌≡◌, ◌++◌, OnOk};
ghost use Rattle.kcr_journal.specs.Lines as said;

use crate::comma_lists::people_text;
use crate::sentence::push_sentence;
use crate::when::push_when;
use itoa::Buffer;
use kcr_history::Act;
use kcr_people::Person;
use std::alloc::{AllocError, Global};

/// Adds a number at the right of six columns.
fn push_number(out: &mut Vec<u8>, number: u32) -> Result<(), AllocError>
    ensures { OnOk result (out.new.items ≡ out.old.items ++ said.number_column number) }
{
    let mut buffer = Buffer::new();
    let digits = buffer.format(number);
    let blanks = b"      ";
    out.extend_from_slice(&blanks[..6_usize.saturating_sub(digits.len())])?;
    out.extend_from_slice(digits.as_bytes())
}

/// Adds the line of a command with this number: `people` are those whom the command names, or who fill the seats;
/// `exception` and `passes` are the numbers of an exception and of the step that it passes. The error is out of memory.
pub fn push_line(
    alloc: Global,
    out: &mut Vec<u8>,
    number: u32,
    act: &Act,
    people: &[Person],
    exception: &str,
    passes: &str,
) -> Result<(), AllocError>
    ensures { OnOk result (out.new.items ≡ out.old.items
        ++ said.line number act.now people.now exception.now passes.now) }
{
    let people = people_text(alloc, people)?;
    push_number(out, number)?;
    out.extend_from_slice(b"  ")?;
    push_when(out, act)?;
    out.extend_from_slice(b"  ")?;
    push_sentence(alloc, out, act, people.as_str(), exception, passes)?;
    out.extend_from_slice(b"\n")
}
