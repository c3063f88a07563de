//! Lines of words, and rows of comma separated fields.

ghost use Rattle.std.specs.Prelude.{◌≡◌, ◌≤◌, ◌++◌, codes, length, map, OnOk, IfOk, IfErr};
ghost use Rattle.csv.specs.Writing.{default_writer, row_text};
ghost use Rattle.kcr_base.specs.declared.refusal.Refusal.TheVariants.{Memory};
ghost use Rattle.kcr_history.specs.Prints as report;

use csv::WriterBuilder;
use kcr_base::{Moment, Refusal};
use std::alloc::{AllocError, Global};

/// Adds words with a blank between each two.
fn push_words(out: &mut Vec<u8>, words: &[&str]) -> Result<(), AllocError>
    ensures { OnOk result (out.new.items ≡ out.old.items ++ report.words (map (λ word. word.now) words.now)) }
{
    let mut separator = "";
    for word in words {
        out.extend_from_slice(separator.as_bytes())?;
        out.extend_from_slice(word.as_bytes())?;
        separator = " ";
    }
    Ok(())
}

/// Adds a line of words.
pub(crate) fn push_line(out: &mut Vec<u8>, words: &[&str]) -> Result<(), AllocError>
    ensures { OnOk result (out.new.items ≡ out.old.items ++ report.line_of (map (λ word. word.now) words.now)) }
{
    push_words(out, words)?;
    out.extend_from_slice(b"\n")
}

/// Adds a line that belongs to the one above it: two blanks, then the words.
pub(crate) fn push_inner_line(out: &mut Vec<u8>, words: &[&str]) -> Result<(), AllocError>
    ensures { OnOk result (out.new.items ≡ out.old.items
        ++ report.ends_line (codes "  " ++ report.words (map (λ word. word.now) words.now))) }
{
    out.extend_from_slice(b"  ")?;
    push_line(out, words)
}

/// Adds a line of a word and a moment, if there is one.
pub(crate) fn push_moment(
    out: &mut Vec<u8>,
    word: &str,
    at: Option<Moment>,
) -> Result<(), AllocError>
    ensures { OnOk result (out.new.items ≡ out.old.items ++ report.moment_line word.now at) }
{
    match at {
        Some(at) => {
            let code = at.code();
            push_line(out, &[word, code.as_str()])
        }
        None => Ok(()),
    }
}

/// A row of comma separated values, as the default writer of `csv` has it. Of the errors that the writer can meet
/// over memory there is only the want of it.
fn row_of(alloc: Global, fields: &[&[u8]]) -> Result<Vec<u8>, Refusal>
    ensures text { IfOk result (λ row. row.items ≡ row_text default_writer (map (λ field. field.now) fields.now)) }
    ensures cause { IfErr result (λ refusal. refusal ≡ Memory) }
{
    let mut writer = WriterBuilder::new().from_writer(Vec::new(alloc));
    if writer.write_fields(fields).is_err() {
        return Err(Refusal::Memory);
    }
    match writer.into_inner() {
        Ok(row) => Ok(row),
        Err(_) => Err(Refusal::Memory),
    }
}

/// Adds a row of comma separated values, of which there are some. The refusal is `Memory`.
pub(crate) fn push_row(alloc: Global, out: &mut Vec<u8>, fields: &[&[u8]]) -> Result<(), Refusal>
    requires { 2 ≤ length fields.now }
    ensures row { OnOk result (out.new.items ≡ out.old.items ++ report.csv_line (map (λ field. field.now) fields.now)) }
    ensures cause { IfErr result (λ refusal. refusal ≡ Memory) }
{
    let row = row_of(alloc, fields)?;
    out.extend_from_slice(row.as_slice())?;
    Ok(())
}
