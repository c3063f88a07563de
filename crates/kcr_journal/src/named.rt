//! What a command names: its ceremony and its people.
ghost use Rattle.std.specs.Prelude.{◌≡◌, [], ◌∷◌, IfOk};
ghost use Rattle.kcr_journal.specs.Replies.{seated_in};
ghost use Rattle.kcr_journal.specs.Journal as said;

use crate::reply::seated_in;
use kcr_base::{CeremonyNumber, Initials};
use kcr_history::{Act, Deed};
use std::alloc::{AllocError, Global};

/// The ceremony that a command names.
fn ceremony_of(act: &Act) -> Option<CeremonyNumber>
    ensures { result ≡ said.ceremony_of act.now }
{
    match act {
        Act::Plan {
            number: ceremony,
            ..
        }
        | Act::Ceremony { ceremony, .. } => Some(*ceremony),
        Act::Enter { .. }
        | Act::Train { .. }
        | Act::Withdraw { .. }
        | Act::Appoint { .. }
        | Act::Replace { .. }
        | Act::Release { .. }
        | Act::AddBox { .. } => None,
    }
}

/// Whether the command names the ceremony that is asked for; if none is asked for, every command passes.
pub(crate) fn is_of_ceremony(asked: Option<CeremonyNumber>, act: &Act) -> bool
    ensures { result ≡ said.is_of_ceremony asked act.now }
{
    match asked {
        None => true,
        Some(asked) => match ceremony_of(act) {
            Some(ceremony) => ceremony.get() == asked.get(),
            None => false,
        },
    }
}

/// One person.
fn one_person(alloc: Global, who: Initials) -> Result<Vec<Initials>, AllocError>
    ensures { IfOk result (λ people. people.items ≡ who ∷ []) }
{
    let mut people = Vec::new(alloc);
    people.push(who)?;
    Ok(people)
}

/// Whom the command names, in its order; of a signature or an exception, who fills the seats by this reply. The error
/// is out of memory.
pub(crate) fn named_people(
    alloc: Global,
    act: &Act,
    reply: &[u8],
) -> Result<Vec<Initials>, AllocError>
    ensures { IfOk result (λ people. people.items ≡ said.named_people act.now (seated_in reply.now)) }
{
    match act {
        Act::Enter { who, .. }
        | Act::Train { who, .. }
        | Act::Withdraw { who, .. }
        | Act::Appoint { who, .. }
        | Act::Replace { who, .. } => one_person(alloc, *who),
        Act::Ceremony { deed, .. } => match deed {
            Deed::RecordSheet { who, .. } => who.as_slice().to_vec(alloc),
            Deed::Sign { .. } | Deed::RecordException { .. } => seated_in(alloc, reply),
            Deed::SetSafe { by, .. } => one_person(alloc, *by),
            _ => Ok(Vec::new(alloc)),
        },
        Act::Release { .. } | Act::AddBox { .. } | Act::Plan { .. } => Ok(Vec::new(alloc)),
    }
}
