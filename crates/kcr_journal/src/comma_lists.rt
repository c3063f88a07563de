//! People and items with commas between them.
ghost use Rattle.std.specs.Prelude.{◌≡◌, IfOk, string_bytes};
ghost use Rattle.kcr_journal.specs.Sentences as said;

use kcr_base::ItemCode;
use kcr_people::Person;
use std::alloc::{AllocError, Global};

/// People by name and initials, as `Ann Abel (AA), Bob Berg (BB)`.
pub(crate) fn people_text(alloc: Global, people: &[Person]) -> Result<String, AllocError>
    ensures { IfOk result (λ text. string_bytes text ≡ said.people_text people.now) }
{
    let mut text = String::new(alloc);
    let mut separator = "";
    for person in people {
        text.push_str(separator)?;
        text.push_str(person.name.as_str())?;
        text.push_str(" (")?;
        text.push_str(person.who.as_str())?;
        text.push_str(")")?;
        separator = ", ";
    }
    Ok(text)
}

/// The codes of items, as `CARD1, CARD2`.
pub(crate) fn items_text(alloc: Global, items: &[ItemCode]) -> Result<String, AllocError>
    ensures { IfOk result (λ text. string_bytes text ≡ said.comma_list items.now) }
{
    let mut text = String::new(alloc);
    let mut separator = "";
    for item in items {
        text.push_str(separator)?;
        text.push_str(item.as_str())?;
        separator = ", ";
    }
    Ok(text)
}
