//! Deciding an act by its premises: one method for each kind of act, and the choice among them.
ghost use Rattle.std.specs.Prelude.{◌≡◌, false, IfErr, IsTrue, OnOk};
ghost use Rattle.kcr_history.specs.declared.commands.Act.TheVariants.{Ceremony};
ghost use Rattle.kcr_rules.specs.{ByRows.IsCleared, ByRows.IsEffectResult, ByRows.alone, Refusals.may_refuse};

use crate::context::DecisionContext;
use kcr_base::{Moment, Refusal};
use kcr_history::{Act, Change, Deed, InitialsList, View};
use kcr_room::SheetRequest;
use std::alloc::Global;

/// The result of an accepted act: the rows that it puts, and what its answer contains beside the number.
#[derive(Drop)]
pub struct Effect {
    /// The rows to put, in this order.
    pub changes: Vec<Change>,
    /// The number of an exception in its ceremony.
    pub exception: Option<u32>,
    /// Who sits in each seat, in the seats' order.
    pub seating: Option<InitialsList>,
    /// The step that is signed or passed.
    pub step: Option<u32>,
}

/// What an act comes to that needs no seats and states no exception: its changes alone, or its refusal.
fn plain(changes: Result<Vec<Change>, Refusal>) -> Result<Effect, Refusal>
    ensures { result ≡ alone changes }
{
    match changes {
        Ok(changes) => Ok(Effect {
            changes,
            exception: None,
            seating: None,
            step: None,
        }),
        Err(refusal) => Err(refusal),
    }
}

impl DecisionContext<'_> {
    /// The effect of an act in a ceremony, or its first refusal.
    fn deed_effect(&self, ceremony: u32, at: Moment, deed: &Deed) -> Result<Effect, Refusal>
        requires cleared { IsCleared self.now.view.now self.now.is_full (Ceremony ceremony at deed.now) }
        ensures { IsEffectResult self.now.view.now self.now.is_full (Ceremony ceremony at deed.now) result }
    {
        match deed {
            Deed::Open => plain(self.open(ceremony, at)),
            Deed::Close => plain(self.close(ceremony, at)),
            Deed::RecordSheet { way, who } => {
                let request = SheetRequest {
                    ceremony,
                    way: *way,
                    people: who.as_slice(),
                    at,
                };
                plain(self.record_sheet(&request))
            }
            Deed::Sign { step } => self.sign(ceremony, step.get(), at),
            Deed::RecordException { text, pass } => {
                self.record_exception(ceremony, text, *pass, at)
            }
            Deed::AddItem { item } => plain(self.add_item(ceremony, *item, at)),
            Deed::SetSafe { safe, is_open, by } => {
                plain(self.set_safe(ceremony, *by, *safe, *is_open, at))
            }
            Deed::Seal { serial, items } => plain(self.seal(ceremony, *serial, items, at)),
            Deed::Take { serial } => plain(self.take(ceremony, *serial, at)),
            Deed::Put { serial, to } => plain(self.put(ceremony, *serial, *to, at)),
            Deed::Cut { serial } => plain(self.cut(ceremony, *serial, at)),
        }
    }

    /// The effect of an act, or its first refusal.
    fn effect(&self, act: &Act) -> Result<Effect, Refusal>
        requires cleared { IsCleared self.now.view.now self.now.is_full act.now }
        ensures { IsEffectResult self.now.view.now self.now.is_full act.now result }
    {
        match act {
            Act::Enter { who, name } => plain(self.enter(*who, name)),
            Act::Train {
                who,
                role,
                since,
                until,
            } => plain(self.train(*who, *role, *since, *until)),
            Act::Withdraw { who, role, day } => plain(self.withdraw(*who, *role, *day)),
            Act::Appoint { place, who, day } => plain(self.appoint(*place, *who, *day)),
            Act::Replace { place, who, day } => plain(self.replace(*place, *who, *day)),
            Act::Release { place, day } => plain(self.release(*place, *day)),
            Act::AddBox {
                facility,
                number,
                place,
            } => plain(self.add_box(*facility, number.get(), *place)),
            Act::Plan {
                number,
                facility,
                day,
                script,
            } => plain(self.plan(number.get(), *facility, *day, script)),
            Act::Ceremony { ceremony, at, deed } => self.deed_effect(ceremony.get(), *at, deed),
        }
    }
}

/// Decides an act that is cleared (`check`) by the rows of a view. Errors: its first refusal.
///
/// The refusals come in the order of their numbers; `full` tells that `MAX_COMMANDS` have been accepted (27),
/// and then no act is accepted. A signature, and an exception that passes a step, come with the first seating of the
/// people in the room, or are refused (32) with a least shortage. Out of memory (33) may be answered in place of all
/// of these.
pub fn evaluate(alloc: Global, view: &View, full: bool, act: &Act) -> Result<Effect, Refusal>
    requires cleared { IsCleared view.now full act.now }
    ensures by_rows { IsEffectResult view.now full act.now result }
    ensures not_full { OnOk result (full ≡ false) }

    // Whatever the rows are, a refusal is one that acts of this kind may get.
    ensures kind { IfErr result (λ refusal. IsTrue (may_refuse act.now refusal)) }
{
    let premises = DecisionContext {
        alloc,
        view,
        is_full: full,
    };
    premises.effect(act)
}
