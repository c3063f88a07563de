//! The pieces that the program's lines are made of.
ghost use Rattle.std.specs.Prelude.{◌≡◌, ◌++◌, ◌||◌, if◌then◌else◌, IfOk, OnOk, nat_eq, nat_lt, string_bytes};
ghost use Rattle.kcr_fault.specs.Lines.{in_a_line, judged_line, numbered as numbered_text};

use itoa::Buffer;
use std::alloc::{AllocError, Global};

/// A text with one before it and one behind it. The error is out of memory.
pub fn around(alloc: Global, before: &str, text: &str, after: &str) -> Result<String, AllocError>
    ensures { IfOk result (λ whole. string_bytes whole ≡ before.now ++ (text.now ++ after.now)) }
{
    let mut whole = String::from_str(alloc, before)?;
    whole.push_str(text)?;
    whole.push_str(after)?;
    Ok(whole)
}

/// A number in decimal, and a text behind a space. The error is out of memory.
pub fn numbered(alloc: Global, number: u32, text: &str) -> Result<String, AllocError>
    ensures { IfOk result (λ whole. string_bytes whole ≡ numbered_text number text.now) }
{
    around(alloc, Buffer::new().format(number), " ", text)
}

/// A byte of a text, or a blank for a control character.
fn blank_if_control(byte: u8) -> u8
    ensures { result ≡ if nat_lt byte 32 || nat_eq byte 127 then 32 else byte }
{
    if byte < 32 || byte == 127 { b' ' } else { byte }
}

/// A text in one line: each line break and other control character is a blank. The error is out of memory.
pub(crate) fn in_a_line(alloc: Global, text: &str) -> Result<Vec<u8>, AllocError>
    ensures { IfOk result (λ line. line.items ≡ in_a_line text.now) }
{
    text.as_bytes()
        .iter()
        .map(|byte| blank_if_control(*byte))
        .collect(alloc)
}

/// Adds a line with what was expected, what was found, which is put in one line, and a word on it. The error is out of
/// memory.
pub fn push_expected(
    alloc: Global,
    lines: &mut Vec<u8>,
    head: &str,
    expected: &str,
    found: &str,
    word: &str,
) -> Result<(), AllocError>
    ensures { OnOk result
        (lines.new.items ≡ lines.old.items ++ judged_line head.now expected.now found.now word.now) }
{
    let found = in_a_line(alloc, found)?;
    lines.extend_from_slice(head.as_bytes())?;
    lines.extend_from_slice(expected.as_bytes())?;
    lines.extend_from_slice(b"; found ")?;
    lines.extend_from_slice(&found)?;
    lines.extend_from_slice(word.as_bytes())?;
    lines.push(b'\n')?;
    Ok(())
}
