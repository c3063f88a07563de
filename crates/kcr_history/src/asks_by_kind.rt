//! Which rows a command asks for.
ghost use Rattle.std.specs.Prelude.{◌≡◌, [], ◌∷◌, IfOk};
ghost use Rattle.kcr_history.specs.AsksByKind;

use crate::commands::{Act, Command, Deed};
use crate::lists::{InitialsList, ItemList};
use crate::views::{
    AppointmentFilter, Asks, ItemFilter, Selection, StayFilter, StepFilter, TrainingFilter,
};
use kcr_base::{
    CeremonyNumber, Initials, ItemCode, Items, Moment, People, Place, Serial, StepNumber,
};
use kcr_room::Way;
use std::alloc::{AllocError, Global};

/// No rows.
fn asks_nothing() -> Asks
    ensures { result ≡ AsksByKind.asks_nothing }
{
    Asks {
        people: Selection::Nothing,
        trainings: Selection::Nothing,
        withdrawals: Selection::Nothing,
        appointments: Selection::Nothing,
        boxes: false,
        safes: false,
        bags: Selection::Nothing,
        items: Selection::Nothing,
        ceremonies: Selection::Nothing,
        marks: Selection::Nothing,
        steps: None,
        exceptions: Selection::Nothing,
        stays: Selection::Nothing,
        stay_count: None,
    }
}

/// One person as a list.
fn only(alloc: Global, who: Initials) -> Result<InitialsList, AllocError>
    ensures { IfOk result (λ people. people ≡ who ∷ []) }
{
    let mut list = Vec::new(alloc);
    list.push(who)?;
    Ok(InitialsList::new(list))
}

/// One item as a list.
fn only_item(alloc: Global, item: ItemCode) -> Result<ItemList, AllocError>
    ensures { IfOk result (λ items. items ≡ item ∷ []) }
{
    let mut list = Vec::new(alloc);
    list.push(item)?;
    Ok(ItemList::new(list))
}

/// The ceremony with its mark, the stays in its room that last to the moment, and of these people the last stay
/// anywhere.
fn asks_room(ceremony: CeremonyNumber, people: InitialsList, at: Moment) -> Asks
    ensures { result ≡ AsksByKind.asks_room ceremony people at }
{
    let mut asks = asks_nothing();
    asks.ceremonies = Selection::Matching(ceremony.get());
    asks.marks = Selection::Matching(ceremony.get());
    asks.stays = Selection::Matching(StayFilter {
        ceremony: ceremony.get(),
        at,
        people,
    });
    asks
}

/// The same of nobody in particular.
fn asks_bare_room(alloc: Global, ceremony: CeremonyNumber, at: Moment) -> Asks
    ensures { result ≡ AsksByKind.asks_room ceremony [] at }
{
    asks_room(ceremony, InitialsList::new(Vec::new(alloc)), at)
}

/// The same of nobody in particular, and whatever tells who in the room is trained at the moment: the trainings that
/// last to its day, and all withdrawals.
fn asks_trained(alloc: Global, ceremony: CeremonyNumber, at: Moment) -> Asks
    ensures { result ≡ AsksByKind.asks_trained ceremony at }
{
    let mut asks = asks_bare_room(alloc, ceremony, at);
    asks.trainings = Selection::Matching(TrainingFilter::EndingOnOrAfter(at.day()));
    asks.withdrawals = Selection::All;
    asks
}

/// The bag, the safes, the boxes and the holders of their places.
fn asks_bag(alloc: Global, ceremony: CeremonyNumber, serial: Serial, at: Moment) -> Asks
    ensures { result ≡ AsksByKind.asks_bag ceremony serial at }
{
    let mut asks = asks_trained(alloc, ceremony, at);
    asks.bags = Selection::Matching(serial);
    asks.safes = true;
    asks.boxes = true;
    asks.appointments = Selection::Matching(AppointmentFilter::EndingAfter(at.day()));
    asks
}

/// The person.
fn asks_person(alloc: Global, who: Initials) -> Result<Asks, AllocError>
    ensures { IfOk result (λ asks. asks ≡ AsksByKind.asks_person who) }
{
    let people = only(alloc, who)?;
    let mut asks = asks_nothing();
    asks.people = Selection::Matching(people);
    Ok(asks)
}

/// The person, their trainings and their last appointment.
fn asks_to_train(alloc: Global, who: Initials) -> Result<Asks, AllocError>
    ensures { IfOk result (λ asks. asks ≡ AsksByKind.asks_to_train who) }
{
    let mut asks = asks_person(alloc, who)?;
    asks.trainings = Selection::Matching(TrainingFilter::Person(who));
    asks.appointments = Selection::Matching(AppointmentFilter::Person(who));
    Ok(asks)
}

/// The person, their trainings and withdrawals, and the marks, which settle days.
fn asks_to_withdraw(alloc: Global, who: Initials) -> Result<Asks, AllocError>
    ensures { IfOk result (λ asks. asks ≡ AsksByKind.asks_to_withdraw who) }
{
    let mut asks = asks_person(alloc, who)?;
    asks.trainings = Selection::Matching(TrainingFilter::Person(who));
    asks.withdrawals = Selection::Matching(who);
    asks.marks = Selection::All;
    Ok(asks)
}

/// The person and their trainings, the last appointment to the place and that of the person, and the marks.
fn asks_to_appoint(alloc: Global, place: Place, who: Initials) -> Result<Asks, AllocError>
    ensures { IfOk result (λ asks. asks ≡ AsksByKind.asks_to_appoint place who) }
{
    let mut asks = asks_person(alloc, who)?;
    asks.trainings = Selection::Matching(TrainingFilter::Person(who));
    asks.appointments = Selection::Matching(AppointmentFilter::LastToPlaceAndOfPerson(place, who));
    asks.marks = Selection::All;
    Ok(asks)
}

/// The last appointment to the place, and the marks.
fn asks_to_release(place: Place) -> Asks
    ensures { result ≡ AsksByKind.asks_to_release place }
{
    let mut asks = asks_nothing();
    asks.appointments = Selection::Matching(AppointmentFilter::Place(place));
    asks.marks = Selection::All;
    asks
}

/// All boxes.
fn asks_boxes() -> Asks
    ensures { result ≡ AsksByKind.asks_boxes }
{
    let mut asks = asks_nothing();
    asks.boxes = true;
    asks
}

/// The item, beside who in the room is trained.
fn asks_to_add(
    alloc: Global,
    ceremony: CeremonyNumber,
    item: ItemCode,
    at: Moment,
) -> Result<Asks, AllocError>
    ensures { IfOk result (λ asks. asks ≡ AsksByKind.asks_to_add ceremony item at) }
{
    let items = only_item(alloc, item)?;
    let mut asks = asks_trained(alloc, ceremony, at);
    asks.items = Selection::Matching(ItemFilter::Codes(items));
    Ok(asks)
}

/// The ceremonies that are asked for, alone.
fn asks_ceremonies(ceremonies: Selection<u32>) -> Asks
    ensures { result ≡ AsksByKind.asks_ceremonies ceremonies }
{
    let mut asks = asks_nothing();
    asks.ceremonies = ceremonies;
    asks
}

/// The room, the next step, the safes and the bags.
fn asks_to_close(alloc: Global, ceremony: CeremonyNumber, at: Moment) -> Asks
    ensures { result ≡ AsksByKind.asks_to_close ceremony at }
{
    let mut asks = asks_bare_room(alloc, ceremony, at);
    asks.steps = Some(StepFilter {
        ceremony: ceremony.get(),
        step: None,
    });
    asks.safes = true;
    asks.bags = Selection::All;
    asks
}

/// Of whom it is asked how many stays there are: of a ceremony whose room people come into.
fn stay_count_asked(way: Way, ceremony: CeremonyNumber) -> Option<u32>
    ensures { result ≡ AsksByKind.stay_count_asked way ceremony }
{
    match way {
        Way::Enter => Some(ceremony.get()),
        Way::Leave => None,
    }
}

/// The people, with the room and their last stays anywhere, and if they come in how many stays the ceremony has.
fn asks_sheet(
    alloc: Global,
    ceremony: CeremonyNumber,
    way: Way,
    people: &People,
    at: Moment,
) -> Result<Asks, AllocError>
    ensures { IfOk result (λ asks. asks ≡ AsksByKind.asks_sheet ceremony way people.now at) }
{
    let known = InitialsList::copy_of(alloc, people.as_slice())?;
    let present = InitialsList::copy_of(alloc, people.as_slice())?;
    let mut asks = asks_room(ceremony, present, at);
    asks.people = Selection::Matching(known);
    asks.stay_count = stay_count_asked(way, ceremony);
    Ok(asks)
}

/// The step and the appointments that last beyond the day, beside who in the room is trained.
fn asks_to_sign(alloc: Global, ceremony: CeremonyNumber, step: StepNumber, at: Moment) -> Asks
    ensures { result ≡ AsksByKind.asks_to_sign ceremony step at }
{
    let mut asks = asks_trained(alloc, ceremony, at);
    asks.steps = Some(StepFilter {
        ceremony: ceremony.get(),
        step: Some(step.get()),
    });
    asks.appointments = Selection::Matching(AppointmentFilter::EndingAfter(at.day()));
    asks
}

/// The next step and the exceptions, beside who in the room is trained.
fn asks_to_except(alloc: Global, ceremony: CeremonyNumber, at: Moment) -> Asks
    ensures { result ≡ AsksByKind.asks_to_except ceremony at }
{
    let mut asks = asks_trained(alloc, ceremony, at);
    asks.steps = Some(StepFilter {
        ceremony: ceremony.get(),
        step: None,
    });
    asks.exceptions = Selection::Matching(ceremony.get());
    asks
}

/// Who opens or shuts a safe, with their trainings, the room and the safes.
fn asks_to_turn(
    alloc: Global,
    ceremony: CeremonyNumber,
    by: Initials,
    at: Moment,
) -> Result<Asks, AllocError>
    ensures { IfOk result (λ asks. asks ≡ AsksByKind.asks_to_turn ceremony by at) }
{
    let people = only(alloc, by)?;
    let mut asks = asks_bare_room(alloc, ceremony, at);
    asks.people = Selection::Matching(people);
    asks.trainings = Selection::Matching(TrainingFilter::Person(by));
    asks.withdrawals = Selection::Matching(by);
    asks.safes = true;
    Ok(asks)
}

/// The bag and the items asked for, beside who in the room is trained.
fn asks_items(
    alloc: Global,
    ceremony: CeremonyNumber,
    serial: Serial,
    items: ItemFilter,
    at: Moment,
) -> Asks
    ensures { result ≡ AsksByKind.asks_items ceremony serial items at }
{
    let mut asks = asks_trained(alloc, ceremony, at);
    asks.bags = Selection::Matching(serial);
    asks.items = Selection::Matching(items);
    asks
}

/// The same with these items.
fn asks_sealed(
    alloc: Global,
    ceremony: CeremonyNumber,
    serial: Serial,
    items: &Items,
    at: Moment,
) -> Result<Asks, AllocError>
    ensures { IfOk result (λ asks. asks ≡ AsksByKind.asks_sealed ceremony serial items.now at) }
{
    let codes = ItemFilter::Codes(ItemList::copy_of(alloc, items.as_slice())?);
    Ok(asks_items(alloc, ceremony, serial, codes, at))
}

/// What an act in a ceremony asks for.
fn asks_of_deed(
    alloc: Global,
    ceremony: CeremonyNumber,
    at: Moment,
    deed: &Deed,
) -> Result<Asks, AllocError>
    ensures { IfOk result (λ asks. asks ≡ AsksByKind.asks_of_deed ceremony at deed.now) }
{
    match deed {
        Deed::Open => Ok(asks_ceremonies(Selection::All)),
        Deed::Close => Ok(asks_to_close(alloc, ceremony, at)),
        Deed::RecordSheet { way, who } => asks_sheet(alloc, ceremony, *way, who, at),
        Deed::Sign { step } => Ok(asks_to_sign(alloc, ceremony, *step, at)),
        Deed::RecordException { .. } => Ok(asks_to_except(alloc, ceremony, at)),
        Deed::AddItem { item } => asks_to_add(alloc, ceremony, *item, at),
        Deed::SetSafe { by, .. } => asks_to_turn(alloc, ceremony, *by, at),
        Deed::Seal { serial, items } => asks_sealed(alloc, ceremony, *serial, items, at),
        Deed::Take { serial } | Deed::Put { serial, .. } => {
            Ok(asks_bag(alloc, ceremony, *serial, at))
        }
        Deed::Cut { serial } => {
            Ok(asks_items(alloc, ceremony, *serial, ItemFilter::Bag(*serial), at))
        }
    }
}

/// What an act asks for.
fn asks_of_act(alloc: Global, act: &Act) -> Result<Asks, AllocError>
    ensures { IfOk result (λ asks. asks ≡ AsksByKind.asks_of_act act.now) }
{
    match act {
        Act::Enter { who, .. } => asks_person(alloc, *who),
        Act::Train { who, .. } => asks_to_train(alloc, *who),
        Act::Withdraw { who, .. } => asks_to_withdraw(alloc, *who),
        Act::Appoint { place, who, .. } => asks_to_appoint(alloc, *place, *who),
        Act::Replace { place, who, .. } => asks_to_appoint(alloc, *place, *who),
        Act::Release { place, .. } => Ok(asks_to_release(*place)),
        Act::AddBox { .. } => Ok(asks_boxes()),
        Act::Plan { number, .. } => Ok(asks_ceremonies(Selection::Matching(number.get()))),
        Act::Ceremony { ceremony, at, deed } => asks_of_deed(alloc, *ceremony, *at, deed),
    }
}

/// The rows that the decision of this command reads: those under the keys, of the people, of the place or of the
/// ceremony that it names; of a place's and a person's appointments the last one alone, of a ceremony's steps one. Of a
/// ceremony's stays those that last to the moment of the command; how many it has in all if people come in. Where
/// anybody in a room may be the one who is needed, the trainings and the appointments are those that last to the day of
/// the command. All rows are asked for only of tables that do not grow with each command: withdrawals if anybody in
/// a room may be the one who is needed, marks, boxes and safes; of the ceremonies to open one, and of the bags to close
/// one. The error is out of memory.
pub fn asks(alloc: Global, command: &Command) -> Result<Asks, AllocError>
    ensures { IfOk result (λ asks. asks ≡ AsksByKind.asks_of command.now) }
{
    asks_of_act(alloc, &command.act)
}
