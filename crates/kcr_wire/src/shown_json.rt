//! Answers as JSON: compact, with the members of an object in byte order.
ghost use Rattle.std.specs.Prelude.{◌≡◌, IfOk, OnOk, map};
ghost use Rattle.serde_json.specs.{Data.string, Data.put as with_member, View.view, View.members_view};
ghost use Rattle.kcr_history.specs.Refusals.{refusal_text};
ghost use Rattle.kcr_wire.specs.ShownJson.{shown_text};

use crate::body_members::text_value;
use kcr_base::{Initials, ItemCode, Refusal, Text};
use kcr_history::{
    BagShown, CustodiansShown, HolderShown, PersonShown, RoleShown, RoomShown, Shown, refusal_text,
};
use serde_json::{Map, Value, json, put};
use std::alloc::{AllocError, Global};

/// What is shown as JSON.
trait ToJson {
    ghost use Rattle.std.specs.Prelude.{◌≡◌, IfOk};
    ghost use Rattle.serde_json.specs.{Data.Data, View.view};

    /// The data that it is shown as.
    ghost json: { Self → Data };

    /// It as JSON. The error is out of memory.
    fn to_json(&self, alloc: Global) -> Result<Value, AllocError>
        ensures { IfOk result (λ v. view v ≡ json self.now) };
}

// Things as JSON, in their order.
fn values<T: ToJson>(alloc: Global, things: &[T]) -> Result<Vec<Value>, AllocError>
    ensures { IfOk result (λ v. map view v.items ≡ map T.json things.now) }
{
    let mut values = Vec::new(alloc);
    for thing in things {
        values.push(thing.to_json(alloc)?)?;
    }
    Ok(values)
}

// Puts a member that is a text.
fn put_text(
    members: &mut Map<String, Value>,
    alloc: Global,
    name: &str,
    text: &str,
) -> Result<(), AllocError>
    ensures { OnOk result (members_view members.new.entries
        ≡ with_member name.now (string text.now) (members_view members.old.entries)) }
{
    put(members, alloc, name, text_value(alloc, text)?)
}

impl ToJson for Initials {
    ghost use Rattle.serde_json.specs.Data.{string};

    ghost json = { string };

    fn to_json(&self, alloc: Global) -> Result<Value, AllocError> {
        text_value(alloc, self.as_str())
    }
}

impl ToJson for ItemCode {
    ghost use Rattle.serde_json.specs.Data.{string};

    ghost json = { string };

    fn to_json(&self, alloc: Global) -> Result<Value, AllocError> {
        text_value(alloc, self.as_str())
    }
}

impl ToJson for RoleShown {
    ghost use Rattle.kcr_wire.specs.ShownJson.{role_json};

    ghost json = { role_json };

    fn to_json(&self, alloc: Global) -> Result<Value, AllocError> {
        let (since, until) = (self.since.code(), self.until.code());
        let mut members = Map::new(alloc);
        put_text(&mut members, alloc, "from", since.as_str())?;
        put_text(&mut members, alloc, "role", self.role.text())?;
        put_text(&mut members, alloc, "until", until.as_str())?;
        if let Some(day) = self.withdrawn {
            put_text(&mut members, alloc, "withdrawn", day.code().as_str())?;
        }
        Ok(Value::Object(members))
    }
}

impl ToJson for PersonShown {
    ghost use Rattle.kcr_wire.specs.ShownJson.{person_json};

    ghost json = { person_json };

    fn to_json(&self, alloc: Global) -> Result<Value, AllocError> {
        let roles = values(alloc, &self.roles)?;
        let (name, who) = (self.name.as_str(), self.who.as_str());
        json!(in alloc; {"name": name, "roles": roles, "who": who})
    }
}

impl ToJson for HolderShown {
    ghost use Rattle.kcr_wire.specs.ShownJson.{holder_json};

    ghost json = { holder_json };

    fn to_json(&self, alloc: Global) -> Result<Value, AllocError> {
        let place = self.place.text();
        json!(in alloc; {"place": place.as_str(), "who": self.who.as_str()})
    }
}

impl ToJson for CustodiansShown {
    ghost use Rattle.kcr_wire.specs.ShownJson.{custodians_json};

    ghost json = { custodians_json };

    fn to_json(&self, alloc: Global) -> Result<Value, AllocError> {
        let day = self.day.code();
        let places = values(alloc, &self.holders)?;
        json!(in alloc; {"day": day.as_str(), "places": places})
    }
}

impl ToJson for BagShown {
    ghost use Rattle.kcr_wire.specs.ShownJson.{bag_json};

    ghost json = { bag_json };

    fn to_json(&self, alloc: Global) -> Result<Value, AllocError> {
        let items = values(alloc, &self.items)?;
        let spot = self.spot.text(alloc)?;
        json!(in alloc; {"items": items, "serial": self.serial.as_str(), "spot": spot})
    }
}

impl ToJson for RoomShown {
    ghost use Rattle.kcr_wire.specs.ShownJson.{room_json};

    ghost json = { room_json };

    fn to_json(&self, alloc: Global) -> Result<Value, AllocError> {
        let at = self.at.code();
        let people = values(alloc, &self.people)?;
        json!(in alloc; {"at": at.as_str(), "in": people})
    }
}

impl ToJson for Shown {
    ghost use Rattle.kcr_wire.specs.ShownJson.{shown_json};

    ghost json = { shown_json };

    fn to_json(&self, alloc: Global) -> Result<Value, AllocError> {
        match self {
            Shown::People(people) => json!(in alloc; {"people": values(alloc, people)?}),
            Shown::Custodians(custodians) => custodians.to_json(alloc),
            Shown::Bag(bag) => bag.to_json(alloc),
            Shown::Room(room) => room.to_json(alloc),
            Shown::Steps(_) | Shown::Sheet(_) | Shown::Custody(_) | Shown::All(_) => {
                json!(in alloc; {})
            }
        }
    }
}

/// The answer to a question, as JSON. No request asks for steps, a sheet, custody or all rows, so these are an empty
/// object. The error is out of memory.
pub fn write_shown(alloc: Global, shown: &Shown) -> Result<Text, AllocError>
    ensures { IfOk result (λ text. text ≡ shown_text shown.now) }
{
    let text = shown.to_json(alloc)?.to_string(alloc)?;
    Ok(Text::from_string(text))
}

/// A refusal as JSON: its number, its word and what it carries. The error is out of memory.
pub fn write_refusal(alloc: Global, refusal: &Refusal) -> Result<Text, AllocError>
    ensures { IfOk result (λ text. text ≡ refusal_text refusal.now) }
{
    refusal_text(alloc, refusal)
}
