//! The first stage: what refuses an act whoever is in the room, over the rows of a view. No stay, training, withdrawal or
//! appointment is looked at.
ghost use Rattle.std.specs.Prelude.{IfErr, IsTrue};
ghost use Rattle.kcr_history.specs.declared.commands.Act.TheVariants.{Ceremony};
ghost use Rattle.kcr_rules.specs.{ByRows.IsCheckResult, Refusals.may_refuse};

use crate::context::DecisionContext;
use kcr_base::{Moment, Refusal};
use kcr_history::{Act, Deed, View};
use kcr_room::SheetRequest;
use std::alloc::Global;

impl DecisionContext<'_> {
    /// An act in a ceremony.
    fn check_deed(&self, ceremony: u32, at: Moment, deed: &Deed) -> Result<(), Refusal>
        ensures told { IsCheckResult self.now.view.now self.now.is_full (Ceremony ceremony at deed.now) result }
        ensures kind { IfErr result (λ refusal. IsTrue (may_refuse (Ceremony ceremony at deed.now) refusal)) }
    {
        match deed {
            Deed::Open => Ok(()),
            Deed::Close => self.check_close(ceremony, at),
            Deed::RecordSheet { way, who } => {
                let request = SheetRequest {
                    ceremony,
                    way: *way,
                    people: who.as_slice(),
                    at,
                };
                self.check_request(&request)
            }
            Deed::Sign { step } => self.check_sign(ceremony, step.get(), at),
            Deed::RecordException { text: _, pass } => self.check_exception(ceremony, *pass, at),
            Deed::AddItem { item } => self.check_add_item(ceremony, *item, at),
            Deed::SetSafe { safe, is_open, by } => {
                self.check_set_safe(ceremony, *by, *safe, *is_open, at)
            }
            Deed::Seal { serial, items } => self.check_seal(ceremony, *serial, items, at),
            Deed::Take { serial } => self.check_take(ceremony, *serial, at),
            Deed::Put { serial, to } => self.check_put(ceremony, *serial, *to, at),
            Deed::Cut { serial } => self.check_cut(ceremony, *serial, at),
        }
    }
}

/// An act may be decided by the people in the room, or its first refusal: the act then has it whoever is there.
///
/// An opening, and an act that has no ceremony, are not refused here. The refusal is 34 if the rows have more steps done
/// than a script has.
pub fn check(alloc: Global, view: &View, full: bool, act: &Act) -> Result<(), Refusal>
    ensures told { IsCheckResult view.now full act.now result }

    // Whatever the rows are, a refusal is one that acts of this kind may get.
    ensures kind { IfErr result (λ refusal. IsTrue (may_refuse act.now refusal)) }
{
    let premises = DecisionContext {
        alloc,
        view,
        is_full: full,
    };
    match act {
        Act::Ceremony { ceremony, at, deed } => premises.check_deed(ceremony.get(), *at, deed),
        Act::Enter { .. }
        | Act::Train { .. }
        | Act::Withdraw { .. }
        | Act::Appoint { .. }
        | Act::Replace { .. }
        | Act::Release { .. }
        | Act::AddBox { .. }
        | Act::Plan { .. } => Ok(()),
    }
}
