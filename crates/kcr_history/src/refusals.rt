//! The texts of refusals.
ghost use Rattle.std.specs.Prelude.{◌≡◌, [], ◌∷◌, ◌++◌, codes, IfOk, OnOk, MatchOption, IsTrue, false, map, string_bytes};
ghost use Rattle.std.specs.{Fmt.decimal, List.join_with_byte};
ghost use Rattle.kcr_base.specs.Refusal.{number_of, word_of};
ghost use Rattle.kcr_history.specs.Json as json;
ghost use Rattle.kcr_history.specs.Refusals;

use arrayvec::ArrayString;
use itoa::Buffer;
use kcr_base::{Positions, Refusal, Text};
use std::alloc::{AllocError, Global};

/// Room for the text of a refusal that carries nothing, in bytes.
const FIXED_TEXT_SIZE: usize = 48;

/// The text of a refusal that carries nothing. It lies in the value itself.
pub type FixedText = ArrayString<FIXED_TEXT_SIZE>;

/// The JSON text of a refusal that carries nothing, as `{"number":11,"refusal":"key"}`, or `None` if the refusal
/// carries something. It takes no memory, so out of memory itself (33), an I/O error (34) and a broken
/// register (35) can always be answered.
pub fn fixed_text(refusal: &Refusal) -> Option<FixedText>
    ensures { MatchOption result
        (IsTrue (Refusals.carries refusal.now)) (λ text. text.bytes ≡ Refusals.refusal_text refusal.now) }
{
    match refusal {
        Refusal::Form { .. }
        | Refusal::Unknown { .. }
        | Refusal::Settled { .. }
        | Refusal::Script { .. }
        | Refusal::Late { .. }
        | Refusal::Order { .. }
        | Refusal::Turn { .. }
        | Refusal::Lone { .. }
        | Refusal::Absent { .. }
        | Refusal::Unfinished { .. }
        | Refusal::Short { .. } => None,
        _ => Some(bare_text(refusal)),
    }
}

/// The text of a refusal that carries nothing.
#[tactic(auto, using(crate::proofs::Refused::word_short))]
fn bare_text(refusal: &Refusal) -> FixedText
    requires { Refusals.carries refusal.now ≡ false }
    ensures { result.bytes ≡ Refusals.refusal_text refusal.now }
{
    let mut text = FixedText::new();
    text.push_str("{\"number\":");
    text.push_str(Buffer::new().format(refusal.number()));
    text.push_str(",\"refusal\":\"");
    text.push_str(refusal.word());
    text.push_str("\"}");
    text
}

/// The JSON text of a refusal: its number, its word and what it carries, members in byte order, as
/// `{"mark":"2025-02-13T20:10:00Z","number":22,"refusal":"late"}`. The error is out of memory.
pub fn refusal_text(alloc: Global, refusal: &Refusal) -> Result<Text, AllocError>
    ensures { IfOk result (λ text. text ≡ Refusals.refusal_text refusal.now) }
{
    if let Some(text) = fixed_text(refusal) {
        return Text::copy_of(alloc, text.as_str());
    }
    carried_text(alloc, refusal)
}

/// The text of a refusal that carries something.
fn carried_text(alloc: Global, refusal: &Refusal) -> Result<Text, AllocError>
    requires { IsTrue (Refusals.carries refusal.now) }
    ensures { IfOk result (λ text. text ≡ Refusals.refusal_text refusal.now) }
{
    match refusal {
        Refusal::Form { member } => led_by_text(alloc, "member", member.text(), refusal),
        Refusal::Unknown { thing } => {
            let thing = thing.text(alloc)?;
            followed_by_text(alloc, refusal, "thing", thing.as_str())
        }
        Refusal::Settled { day } => led_by_text(alloc, "day", day.code().as_str(), refusal),
        Refusal::Script { row } => followed_by(alloc, refusal, "row", Buffer::new().format(*row)),
        Refusal::Late { mark } => led_by_text(alloc, "mark", mark.code().as_str(), refusal),
        Refusal::Order { next } => led_by(alloc, "next", Buffer::new().format(*next), refusal),
        Refusal::Turn { who } => followed_by_text(alloc, refusal, "who", who.as_str()),
        Refusal::Lone { moment } => led_by_text(alloc, "moment", moment.code().as_str(), refusal),
        Refusal::Absent { who } => followed_by_text(alloc, refusal, "who", who.text().as_str()),
        Refusal::Unfinished { part } => parted_by_text(alloc, refusal, "part", part.text()),
        Refusal::Short { seats } => {
            let list = listed(alloc, *seats)?;
            followed_by(
                alloc,
                refusal,
                "seats",
                bracketed(alloc, list.as_str())?.as_str(),
            )
        }
        _ => unreachable!(),
    }
}

/// A text in quotes.
fn quoted(alloc: Global, text: &str) -> Result<String, AllocError>
    ensures { IfOk result (λ whole. string_bytes whole ≡ json.quoted text.now) }
{
    ["\"", text, "\""].concat(alloc)
}

/// A list's texts in brackets.
fn bracketed(alloc: Global, list: &str) -> Result<String, AllocError>
    ensures { IfOk result (λ whole. string_bytes whole ≡ codes "[" ++ (list.now ++ codes "]")) }
{
    ["[", list, "]"].concat(alloc)
}

/// A member of an object: its name, and the JSON text of its value.
fn member(alloc: Global, name: &str, value: &str) -> Result<String, AllocError>
    ensures { IfOk result (λ text. string_bytes text ≡ json.member name.now value.now) }
{
    let mut text = ["\"", name, "\":"].concat(alloc)?;
    text.push_str(value)?;
    Ok(text)
}

/// The text of a refusal with this member before its number.
fn led_by(alloc: Global, name: &str, value: &str, refusal: &Refusal) -> Result<Text, AllocError>
    ensures { IfOk result (λ text.
        text ≡ Refusals.refused_with (json.member name.now value.now ∷ []) refusal.now [] []) }
{
    let carried = member(alloc, name, value)?;
    let mut digits = Buffer::new();
    let number = digits.format(refusal.number());
    let word = refusal.word();
    let text = [
        "{",
        carried.as_str(),
        ",\"number\":",
        number,
        ",\"refusal\":\"",
        word,
        "\"}",
    ]
    .concat(alloc)?;
    Ok(Text::from_string(text))
}

/// The text of a refusal with this text, in quotes, before its number.
fn led_by_text(
    alloc: Global,
    name: &str,
    before: &str,
    refusal: &Refusal,
) -> Result<Text, AllocError>
    ensures { IfOk result (λ text.
        text ≡ Refusals.refused_with (json.member name.now (json.quoted before.now) ∷ []) refusal.now [] []) }
{
    led_by(alloc, name, quoted(alloc, before)?.as_str(), refusal)
}

/// The text of a refusal with this member between its number and its word.
fn parted_by(alloc: Global, refusal: &Refusal, name: &str, value: &str) -> Result<Text, AllocError>
    ensures { IfOk result (λ text.
        text ≡ Refusals.refused_with [] refusal.now (json.member name.now value.now ∷ []) []) }
{
    let carried = member(alloc, name, value)?;
    let mut digits = Buffer::new();
    let number = digits.format(refusal.number());
    let word = refusal.word();
    let text = [
        "{\"number\":",
        number,
        ",",
        carried.as_str(),
        ",\"refusal\":\"",
        word,
        "\"}",
    ]
    .concat(alloc)?;
    Ok(Text::from_string(text))
}

/// The text of a refusal with this text, in quotes, between its number and its word.
fn parted_by_text(
    alloc: Global,
    refusal: &Refusal,
    name: &str,
    part: &str,
) -> Result<Text, AllocError>
    ensures { IfOk result (λ text.
        text ≡ Refusals.refused_with [] refusal.now (json.member name.now (json.quoted part.now) ∷ []) []) }
{
    parted_by(alloc, refusal, name, quoted(alloc, part)?.as_str())
}

/// The text of a refusal with this member behind its word.
fn followed_by(
    alloc: Global,
    refusal: &Refusal,
    name: &str,
    value: &str,
) -> Result<Text, AllocError>
    ensures { IfOk result (λ text.
        text ≡ Refusals.refused_with [] refusal.now [] (json.member name.now value.now ∷ [])) }
{
    let carried = member(alloc, name, value)?;
    let mut digits = Buffer::new();
    let number = digits.format(refusal.number());
    let word = refusal.word();
    let text = [
        "{\"number\":",
        number,
        ",\"refusal\":\"",
        word,
        "\",",
        carried.as_str(),
        "}",
    ]
    .concat(alloc)?;
    Ok(Text::from_string(text))
}

/// The text of a refusal with this text, in quotes, behind its word.
fn followed_by_text(
    alloc: Global,
    refusal: &Refusal,
    name: &str,
    behind: &str,
) -> Result<Text, AllocError>
    ensures { IfOk result (λ text.
        text ≡ Refusals.refused_with [] refusal.now [] (json.member name.now (json.quoted behind.now) ∷ [])) }
{
    followed_by(alloc, refusal, name, quoted(alloc, behind)?.as_str())
}

/// Positions in decimal, parted by commas.
fn listed(alloc: Global, seats: Positions) -> Result<String, AllocError>
    ensures { IfOk result (λ text. string_bytes text ≡ join_with_byte 44 (map decimal seats)) }
{
    let mut text = String::new(alloc);
    for (i, seat) in seats.as_slice().iter().enumerate() {
        if i > 0 {
            text.push_str(",")?;
        }
        text.push_str(Buffer::new().format(*seat))?;
    }
    Ok(text)
}
