//! What the text of a reply tells beside the command's number.
ghost use Rattle.std.specs.Prelude.{◌≡◌, ◌==◌, ◌||◌, map, IfOk, IfErr};
ghost use Rattle.std.specs.List.{position, filter_map, slice_split};
ghost use Rattle.kcr_tables.specs.Refusals.{IsFault};
ghost use Rattle.kcr_forms.specs.Forms.{initials_of};
ghost use Rattle.kcr_journal.specs.Replies as told;

use kcr_base::{Initials, Refusal};
use std::alloc::{AllocError, Global};
use std::str;

/// The index of the first such byte.
fn first_at(byte: u8, text: &[u8]) -> Option<usize>
    ensures { result ≡ position (λ b. b == byte) text.now }
{
    text.iter().position(|b| *b == byte)
}

/// What comes after the first such byte, nothing if there is none.
#[tactic(auto, unfolding(crate::specs::Replies::after_byte))]
fn after_byte(byte: u8, text: &[u8]) -> &[u8]
    ensures { result.now ≡ told.after_byte byte text.now }
{
    match first_at(byte, text) {
        Some(at) => &text[at + 1..],
        None => b"",
    }
}

/// What comes after two colons.
fn after_two(text: &[u8]) -> &[u8]
    ensures { result.now ≡ told.after_two text.now }
{
    after_byte(b':', after_byte(b':', text))
}

/// The index of the first comma or brace.
fn value_end(text: &[u8]) -> Option<usize>
    ensures { result ≡ position (λ b. b == 44 || b == 125) text.now }
{
    text.iter().position(|b| *b == b',' || *b == b'}')
}

/// A member's value: what comes before the next comma or brace.
#[tactic(auto, unfolding(crate::specs::Replies::value_in))]
fn value_in(text: &[u8]) -> &[u8]
    ensures { result.now ≡ told.value_in text.now }
{
    match value_end(text) {
        Some(at) => &text[..at],
        None => text,
    }
}

/// The bytes as a text; `Disk` if they are none.
fn as_text(bytes: &[u8]) -> Result<&str, Refusal>
    ensures same { IfOk result (λ text. text.now ≡ bytes.now) }
    ensures cause { IfErr result IsFault }
{
    match str::from_utf8(bytes) {
        Ok(text) => Ok(text),
        Err(_) => Err(Refusal::Disk),
    }
}

/// The number of an exception. The error is `Disk` if the reply is no text.
pub(crate) fn exception_in(reply: &[u8]) -> Result<&str, Refusal>
    ensures number { IfOk result (λ text. text.now ≡ told.exception_in reply.now) }
    ensures cause { IfErr result IsFault }
{
    as_text(value_in(after_two(reply)))
}

/// The step that an exception passes. The error is `Disk` if the reply is no text.
pub(crate) fn passed_in(reply: &[u8]) -> Result<&str, Refusal>
    ensures number { IfOk result (λ text. text.now ≡ told.passed_in reply.now) }
    ensures cause { IfErr result IsFault }
{
    as_text(value_in(after_two(after_two(reply))))
}

/// The texts between quotes.
fn between_quotes(alloc: Global, reply: &[u8]) -> Result<Vec<&[u8]>, AllocError>
    ensures { IfOk result (λ texts. map (λ text. text.now) texts.items ≡ slice_split (λ b. b == 34) reply.now) }
{
    reply.split(|b| *b == b'"').collect(alloc)
}

/// The initials that a text is.
#[tactic(auto, using(kcr_base::proofs::FormLemmas::form_readings))]
fn read_initials(text: &[u8]) -> Option<Initials>
    ensures { result ≡ initials_of text.now }
{
    Initials::read(text)
}

/// Those of the texts that are initials.
fn initials_among(alloc: Global, texts: &[&[u8]]) -> Result<Vec<Initials>, AllocError>
    ensures { IfOk result (λ people. people.items ≡ filter_map initials_of (map (λ text. text.now) texts.now)) }
{
    let mut people = Vec::new(alloc);
    for text in texts {
        if let Some(who) = read_initials(text) {
            people.push(who)?;
        }
    }
    Ok(people)
}

/// Who fills the seats: the initials between quotes. The error is out of memory.
#[tactic(auto, unfolding(crate::specs::Replies::seated_in))]
pub fn seated_in(alloc: Global, reply: &[u8]) -> Result<Vec<Initials>, AllocError>
    ensures { IfOk result (λ people. people.items ≡ told.seated_in reply.now) }
{
    let texts = between_quotes(alloc, reply)?;
    initials_among(alloc, &texts)
}
