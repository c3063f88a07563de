//! Acts in the room of a ceremony, over the rows of a view: a safe opened or shut, an item added.
ghost use Rattle.std.specs.Prelude.{◌≡◌, IfOk};
ghost use Rattle.kcr_history.specs.declared.commands.Act.TheVariants as Kinds;
ghost use Rattle.kcr_history.specs.declared.commands.Deed.TheVariants as Deeds;
ghost use Rattle.kcr_rules.specs.RoomRows;
ghost use Rattle.kcr_rules.specs.ByRows.{IsChangesResult, IsCheckResult};

use crate::ceremony_status::is_trained;
use crate::changes::with_mark;
use crate::context::DecisionContext;
use kcr_base::{Initials, ItemCode, Moment, Refusal, Role};
use kcr_custody::{Item, Rest, SafeNumber, SafeOperator, SafeRow};
use kcr_history::Change;
use std::alloc::AllocError;

impl DecisionContext<'_> {
    /// A safe may be opened or shut. Refused: 12 without the ceremony or the person, 20, 22, 27, 28.
    pub fn check_set_safe(
        &self,
        ceremony: u32,
        by: Initials,
        safe: SafeNumber,
        is_open: bool,
        at: Moment,
    ) -> Result<(), Refusal>
        ensures { IsCheckResult self.now.view.now self.now.is_full (Kinds.Ceremony ceremony at (Deeds.SetSafe safe is_open by)) result }
    {
        let status = self.ceremony_status(ceremony, at);
        let is_known = kcr_people::queries::is_person(&self.view.people, by);
        kcr_custody::check_set_safe(&status, &self.view.safes, safe, is_open, is_known, by)
    }

    /// Who opens or shuts a safe.
    fn safe_operator(
        &self,
        by: Initials,
        ceremony: u32,
        at: Moment,
    ) -> Result<SafeOperator, AllocError>
        ensures { IfOk result (λ keeper. keeper ≡ RoomRows.safe_operator_by self.now.view.now by ceremony at) }
    {
        let day = at.day();
        Ok(SafeOperator {
            who: by,
            is_present: self.is_in(by, ceremony, at)?,
            has_ssc1: is_trained(self.view, by, Role::Ssc1, day),
            has_ssc2: is_trained(self.view, by, Role::Ssc2, day),
        })
    }

    /// Opens or shuts a safe.
    pub fn set_safe(
        &self,
        ceremony: u32,
        by: Initials,
        safe: SafeNumber,
        is_open: bool,
        at: Moment,
    ) -> Result<Vec<Change>, Refusal>
        ensures { IsChangesResult self.now (Kinds.Ceremony ceremony at (Deeds.SetSafe safe is_open by)) result }
    {
        let keeper = self.safe_operator(by, ceremony, at)?;
        kcr_custody::check_operator(safe, &keeper)?;
        let row = SafeRow {
            facility: self.facility(ceremony),
            safe,
            is_open,
        };
        Ok(with_mark(self.alloc, Change::PutSafe(row), ceremony, at)?)
    }

    /// An item may be added. Refused: 12 without the ceremony, 13, 20, 22, 27.
    pub fn check_add_item(&self, ceremony: u32, item: ItemCode, at: Moment) -> Result<(), Refusal>
        ensures { IsCheckResult self.now.view.now self.now.is_full (Kinds.Ceremony ceremony at (Deeds.AddItem item)) result }
    {
        let status = self.ceremony_status(ceremony, at);
        kcr_custody::check_add_item(&status, &self.view.items, item)
    }

    /// Adds an item, loose at the ceremony's facility.
    pub fn add_item(
        &self,
        ceremony: u32,
        item: ItemCode,
        at: Moment,
    ) -> Result<Vec<Change>, Refusal>
        ensures { IsChangesResult self.now (Kinds.Ceremony ceremony at (Deeds.AddItem item)) result }
    {
        self.check_ca(ceremony, at)?;
        let row = Item {
            code: item,
            rest: Rest::Loose(self.facility(ceremony)),
        };
        Ok(with_mark(self.alloc, Change::PutItem(row), ceremony, at)?)
    }
}
