//! The sentence of an act.
ghost use Rattle.std.specs.Prelude.{◌≡◌, ◌++◌, OnOk};
ghost use Rattle.kcr_journal.specs.Sentences.{sentence, sentence_of_deed};

use crate::ceremony_sentences::{
    push_closed, push_moved, push_opened, push_planned, push_signed, push_stated,
};
use crate::custody_sentences::{
    push_cut_open, push_item_added, push_put_away, push_sealed, push_taken, push_turned,
};
use crate::people_sentences::{
    push_appointed, push_box_added, push_entered, push_released, push_replaced, push_trained,
    push_withdrawn,
};
use kcr_base::CeremonyNumber;
use kcr_history::{Act, Deed};
use std::alloc::{AllocError, Global};

/// Adds the sentence of an act in a ceremony.
fn push_deed(
    alloc: Global,
    out: &mut Vec<u8>,
    ceremony: CeremonyNumber,
    deed: &Deed,
    people: &str,
    exception: &str,
    passes: &str,
) -> Result<(), AllocError>
    ensures { OnOk result (out.new.items
        ≡ out.old.items ++ sentence_of_deed ceremony deed.now people.now exception.now passes.now) }
{
    match deed {
        Deed::Open => push_opened(out, ceremony),
        Deed::Close => push_closed(out, ceremony),
        Deed::RecordSheet { way, .. } => push_moved(out, ceremony, *way, people),
        Deed::Sign { step } => push_signed(out, ceremony, *step, people),
        Deed::RecordException { text, pass } => {
            push_stated(out, ceremony, text, *pass, people, exception, passes)
        }
        Deed::AddItem { item } => push_item_added(out, ceremony, *item),
        Deed::SetSafe { safe, is_open, .. } => push_turned(out, ceremony, *safe, *is_open, people),
        Deed::Seal { serial, items } => push_sealed(alloc, out, ceremony, *serial, items),
        Deed::Take { serial } => push_taken(out, ceremony, *serial),
        Deed::Put { serial, to } => push_put_away(alloc, out, ceremony, *serial, *to),
        Deed::Cut { serial } => push_cut_open(out, ceremony, *serial),
    }
}

/// Adds the sentence of an act. `people` is who the command names, or who fills the seats; `exception` and `passes` are
/// the numbers of an exception and of the step that it passes.
pub(crate) fn push_sentence(
    alloc: Global,
    out: &mut Vec<u8>,
    act: &Act,
    people: &str,
    exception: &str,
    passes: &str,
) -> Result<(), AllocError>
    ensures { OnOk result (out.new.items ≡ out.old.items ++ sentence act.now people.now exception.now passes.now) }
{
    match act {
        Act::Enter { .. } => push_entered(out, people),
        Act::Train {
            role,
            since,
            until,
            ..
        } => push_trained(out, people, *role, *since, *until),
        Act::Withdraw { role, day, .. } => push_withdrawn(out, people, *role, *day),
        Act::Appoint { place, day, .. } => push_appointed(out, *place, people, *day),
        Act::Replace { place, day, .. } => push_replaced(out, *place, people, *day),
        Act::Release { place, day } => push_released(out, *place, *day),
        Act::AddBox {
            facility,
            number,
            place,
        } => push_box_added(out, *facility, *number, *place),
        Act::Plan {
            number,
            facility,
            day,
            ..
        } => push_planned(out, *number, *facility, *day),
        Act::Ceremony { ceremony, deed, .. } => {
            push_deed(alloc, out, *ceremony, deed, people, exception, passes)
        }
    }
}
