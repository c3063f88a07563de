//! The texts of replies to accepted commands.
ghost use Rattle.std.specs.Prelude.{◌≡◌, ◌++◌, IfOk, codes, string_bytes};
ghost use Rattle.std.specs.{Fmt.decimal, List.flat_map, Option.option_map};
ghost use Rattle.kcr_history.specs.Json;
ghost use Rattle.kcr_history.specs.Texts;

use crate::commands::ReplyData;
use crate::lists::InitialsList;
use itoa::Buffer;
use kcr_base::Text;
use std::alloc::{AllocError, Global};

/// The JSON text of the reply to an accepted command: its number, then, if there are such, an exception's number,
/// who sits in each seat, and the step, members in byte order, as
/// `{"accepted":31,"exception":1,"seating":["BB","AA"],"step":4}`. The error is out of memory.
pub fn reply_text(alloc: Global, reply: &ReplyData) -> Result<Text, AllocError>
    ensures { IfOk result (λ text. text ≡ Texts.reply_text reply.now) }
{
    let mut number = Buffer::new();
    let mut text = String::from_str(alloc, "{\"accepted\":")?;
    text.push_str(number.format(reply.accepted))?;
    let text = with_count(text, "exception", reply.exception)?;
    let text = with_seating(alloc, text, &reply.seating)?;
    let mut text = with_count(text, "step", reply.step)?;
    text.push_str("}")?;
    Ok(Text::from_string(text))
}

/// The text with a comma and a number of this name, as `,"step":4`, if there is one.
fn with_count(text: String, name: &str, count: Option<u32>) -> Result<String, AllocError>
    ensures { IfOk result (λ longer.
        string_bytes longer ≡ string_bytes text
        ++ flat_map (λ member. codes "," ++ member)
        (Texts.member_if name.now (option_map decimal count))) }
{
    match count {
        Some(count) => {
            let mut number = Buffer::new();
            with_member(text, name, number.format(count))
        }
        None => Ok(text),
    }
}

/// The text with a comma and the seating, as `,"seating":["BB","AA"]`, if there is one.
fn with_seating(
    alloc: Global,
    text: String,
    seating: &Option<InitialsList>,
) -> Result<String, AllocError>
    ensures { IfOk result (λ longer.
        string_bytes longer ≡ string_bytes text
        ++ flat_map (λ member. codes "," ++ member)
        (Texts.member_if (codes "seating") (option_map Texts.people_array seating.now))) }
{
    match seating {
        Some(people) => {
            let people = people_array(alloc, people)?;
            with_member(text, "seating", people.as_str())
        }
        None => Ok(text),
    }
}

/// The text with a comma and a member of an object, its value a JSON text.
fn with_member(text: String, name: &str, value: &str) -> Result<String, AllocError>
    ensures { IfOk result (λ longer.
        string_bytes longer ≡ string_bytes text ++ (codes "," ++ Json.member name.now value.now)) }
{
    let mut text = text;
    text.push_str(",\"")?;
    text.push_str(name)?;
    text.push_str("\":")?;
    text.push_str(value)?;
    Ok(text)
}

/// The JSON text of a list of people, as `["BB","AA"]`.
fn people_array(alloc: Global, people: &InitialsList) -> Result<String, AllocError>
    ensures { IfOk result (λ text. string_bytes text ≡ Texts.people_array people.now) }
{
    let mut text = String::from_str(alloc, "[")?;
    let mut separator = "";
    for who in people.as_slice() {
        text.push_str(separator)?;
        text.push_str("\"")?;
        text.push_str(who.as_str())?;
        text.push_str("\"")?;
        separator = ",";
    }
    text.push_str("]")?;
    Ok(text)
}
