//! Acts on bags, over the rows of a view.
ghost use Rattle.std.specs.Prelude.{◌≡◌, ◌∷◌, IfOk, map};
ghost use Rattle.kcr_base.specs.{Refuse.first_of, declared.place.Role.TheVariants.Ca};
ghost use Rattle.kcr_custody.specs.Custody;
ghost use Rattle.kcr_history.specs.declared.commands.Act.TheVariants as Kinds;
ghost use Rattle.kcr_history.specs.declared.commands.Deed.TheVariants as Deeds;
ghost use Rattle.kcr_history.specs.declared.views.{Change.TheVariants.PutBag, Change.TheVariants.PutItem, Change.TheVariants.PutMark, View.View};
ghost use Rattle.kcr_rules.specs.ByRows.{IsChangesResult, IsCheckResult, IsTested};
ghost use Rattle.kcr_rules.specs.CeremonyStatus.{has_trained_present_by, is_holder_present_by};
ghost use Rattle.kcr_rules.specs.CustodyRows;

use crate::changes::with_mark;
use crate::context::DecisionContext;
use kcr_base::{Items, Moment, Place, Refusal, Role, Serial};
use kcr_custody::queries::spot_of_destination;
use kcr_custody::{Bag, BagChange, Destination, Item, Spot};
use kcr_history::Change;
use std::alloc::{AllocError, Global};

/// Items as changes.
fn item_changes(alloc: Global, items: &[Item]) -> Result<Vec<Change>, AllocError>
    ensures { IfOk result (λ changes. changes.items ≡ map PutItem items.now) }
{
    let items = items.iter();
    items.map(|item| Change::PutItem(*item)).collect(alloc)
}

/// The rows of a bag, of its ceremony's mark and of the items that are moved with it, as changes.
fn moved_changes(
    alloc: Global,
    moved: &BagChange,
    ceremony: u32,
    at: Moment,
) -> Result<Vec<Change>, AllocError>
    ensures { IfOk result (λ changes. changes.items ≡ PutBag moved.now.bag
        ∷ PutMark (record { ceremony = ceremony; at = at }) ∷ map PutItem moved.now.items) }
{
    let mut changes = with_mark(alloc, Change::PutBag(moved.bag), ceremony, at)?;
    changes.append(&mut item_changes(alloc, moved.items.as_slice())?)?;
    Ok(changes)
}

impl DecisionContext<'_> {
    /// Somebody in the room is trained as CA.
    pub fn check_ca(&self, ceremony: u32, at: Moment) -> Result<(), Refusal>
        ensures { IsTested (Custody.no_ca_refusal (has_trained_present_by self.now.view.now Ca ceremony at)) result }
    {
        let has_ca = self.has_trained_present(Role::Ca, ceremony, at)?;
        kcr_custody::check_ca(has_ca)
    }

    /// Whether the holder of a place is in the room; false if no place is meant.
    fn is_box_holder_present(
        &self,
        ceremony: u32,
        at: Moment,
        place: &Option<Place>,
    ) -> Result<bool, AllocError>
        ensures { IfOk result (λ answer. answer ≡ CustodyRows.is_box_holder_present_by self.now.view.now ceremony at place.now) }
    {
        let Some(place) = place else {
            return Ok(false);
        };
        match kcr_people::holder(&self.view.appointments, *place, at.day()) {
            Some(who) => self.is_in(who, ceremony, at),
            None => Ok(false),
        }
    }

    /// Somebody in the room is trained as CA, and the holder of the place is there, if one is meant.
    fn check_keepers(&self, ceremony: u32, at: Moment, place: Option<Place>) -> Result<(), Refusal>
        ensures { let view : View = self.now.view.now in IsTested (first_of (Custody.keepers_conditions
            (has_trained_present_by view Ca ceremony at) (λ p. is_holder_present_by view p ceremony at) place)) result }
    {
        let has_ca = self.has_trained_present(Role::Ca, ceremony, at)?;
        let has_holder = self.is_box_holder_present(ceremony, at, &place)?;
        kcr_custody::check_keepers(has_ca, place, has_holder)
    }

    /// Items may be sealed into a new bag. Refused: 12 without the ceremony or an item, 13, 20, 22, 27, 29.
    pub fn check_seal(
        &self,
        ceremony: u32,
        serial: Serial,
        items: &Items,
        at: Moment,
    ) -> Result<(), Refusal>
        ensures { IsCheckResult self.now.view.now self.now.is_full (Kinds.Ceremony ceremony at (Deeds.Seal serial items.now)) result }
    {
        let status = self.ceremony_status(ceremony, at);
        let view = self.view;
        kcr_custody::check_seal(&status, &view.bags, &view.items, serial, items.as_slice())
    }

    /// Seals items into a new bag.
    pub fn seal(
        &self,
        ceremony: u32,
        serial: Serial,
        items: &Items,
        at: Moment,
    ) -> Result<Vec<Change>, Refusal>
        ensures { IsChangesResult self.now (Kinds.Ceremony ceremony at (Deeds.Seal serial items.now)) result }
    {
        self.check_ca(ceremony, at)?;
        let here = self.facility(ceremony);
        let moved = kcr_custody::sealed_rows(self.alloc, here, serial, items.as_slice())?;
        Ok(moved_changes(self.alloc, &moved, ceremony, at)?)
    }

    /// A bag may be taken out of a safe. Refused: 12 without the ceremony or the bag, 20, 22, 27, 28, 29.
    pub fn check_take(&self, ceremony: u32, serial: Serial, at: Moment) -> Result<(), Refusal>
        ensures { IsCheckResult self.now.view.now self.now.is_full (Kinds.Ceremony ceremony at (Deeds.Take serial)) result }
    {
        let status = self.ceremony_status(ceremony, at);
        kcr_custody::check_take(&status, &self.view.safes, &self.view.bags, serial)
    }

    /// Takes a bag out of a safe.
    pub fn take(&self, ceremony: u32, serial: Serial, at: Moment) -> Result<Vec<Change>, Refusal>
        ensures { IsChangesResult self.now (Kinds.Ceremony ceremony at (Deeds.Take serial)) result }
    {
        let here = self.facility(ceremony);
        let place = kcr_custody::place_for_take(&self.view.boxes, &self.view.bags, here, serial);
        self.check_keepers(ceremony, at, place)?;
        let bag = Bag {
            serial,
            spot: Spot::Table(here),
        };
        Ok(with_mark(self.alloc, Change::PutBag(bag), ceremony, at)?)
    }

    /// A bag may be put into safe 1 or into a box. Refused: 12 without the ceremony, the bag or the box, 20, 22, 27, 28,
    /// 29.
    pub fn check_put(
        &self,
        ceremony: u32,
        serial: Serial,
        to: Destination,
        at: Moment,
    ) -> Result<(), Refusal>
        ensures { IsCheckResult self.now.view.now self.now.is_full (Kinds.Ceremony ceremony at (Deeds.Put serial to)) result }
    {
        let status = self.ceremony_status(ceremony, at);
        let view = self.view;
        kcr_custody::check_put(&status, &view.safes, &view.boxes, &view.bags, serial, to)
    }

    /// Puts a bag into safe 1 or into a box.
    pub fn put(
        &self,
        ceremony: u32,
        serial: Serial,
        to: Destination,
        at: Moment,
    ) -> Result<Vec<Change>, Refusal>
        ensures { IsChangesResult self.now (Kinds.Ceremony ceremony at (Deeds.Put serial to)) result }
    {
        let here = self.facility(ceremony);
        let place = kcr_custody::place_for_put(&self.view.boxes, here, &to);
        self.check_keepers(ceremony, at, place)?;
        let bag = Bag {
            serial,
            spot: spot_of_destination(here, &to),
        };
        Ok(with_mark(self.alloc, Change::PutBag(bag), ceremony, at)?)
    }

    /// A bag may be cut open. Refused: 12 without the ceremony or the bag, 20, 22, 27, 29.
    pub fn check_cut(&self, ceremony: u32, serial: Serial, at: Moment) -> Result<(), Refusal>
        ensures { IsCheckResult self.now.view.now self.now.is_full (Kinds.Ceremony ceremony at (Deeds.Cut serial)) result }
    {
        let status = self.ceremony_status(ceremony, at);
        kcr_custody::check_cut(&status, &self.view.bags, serial)
    }

    /// Cuts a bag open.
    pub fn cut(&self, ceremony: u32, serial: Serial, at: Moment) -> Result<Vec<Change>, Refusal>
        ensures { IsChangesResult self.now (Kinds.Ceremony ceremony at (Deeds.Cut serial)) result }
    {
        self.check_ca(ceremony, at)?;
        let here = self.facility(ceremony);
        let moved = kcr_custody::cut_rows(self.alloc, here, &self.view.items, serial)?;
        Ok(moved_changes(self.alloc, &moved, ceremony, at)?)
    }
}
