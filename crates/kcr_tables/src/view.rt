//! The rows that a decision reads, in two parts.

ghost use Rattle.std.specs.Prelude.{◌≡◌, IfOk};
ghost use Rattle.kcr_history.specs.Early.{early_asks, Completes};
ghost use Rattle.kcr_history.specs.Views.{IsViewOf, Includes, is_training_asked, is_withdrawal_of, IncludesStep, is_exception_of};
ghost use Rattle.kcr_history.specs.Views.{IncludesAppointments, is_of_serial, is_item_of, is_of_number, is_mark_of};
ghost use Rattle.kcr_tables.specs.Selected.{asked_of, asked_all};
ghost use Rattle.kcr_tables.specs.Exact.{StaffIsShown, CustodyIsShown, CeremoniesAreShown, HasNoInvalidRow};
ghost use Rattle.kcr_tables.specs.Frame.{OfTables, OfMachineTables, OfTrees, Reads};

use crate::select_appointments::select_appointments;
use crate::select_by_keys::{select_items, select_people};
use crate::select_stays::{select_stay_count, select_stays};
use crate::select_steps::select_steps;
use crate::select_trainings::select_trainings;
use crate::table::{select_all, select_rows};
use kcr_base::Refusal;
use kcr_custody::{Bag, BoxRow, Item, SafeRow};
use kcr_history::{Asks, CeremonyRow, ExceptionRow, MarkRow, SeatingRow, StepRow, View};
use kcr_people::{Appointment, Person, Training, Withdrawal};
use kcr_room::Stay;
use sqlite::{Alter, Transaction};
use std::alloc::Global;

/// Rows of people's offices.
#[derive(Drop)]
struct StaffRows {
    trainings: Vec<Training>,
    withdrawals: Vec<Withdrawal>,
    appointments: Vec<Appointment>,
}

/// Rows of what is kept in the safes.
#[derive(Drop)]
struct CustodyRows {
    boxes: Vec<BoxRow>,
    safes: Vec<SafeRow>,
    bags: Vec<Bag>,
    items: Vec<Item>,
}

/// Rows of ceremonies.
#[derive(Drop)]
struct CeremonyRows {
    ceremonies: Vec<CeremonyRow>,
    marks: Vec<MarkRow>,
    steps: Vec<StepRow>,
    seatings: Vec<SeatingRow>,
    exceptions: Vec<ExceptionRow>,
}

/// The rows asked for of people's offices.
fn staff_rows<S: Alter>(
    alloc: Global,
    tx: &mut Transaction<'_, S>,
    asks: &Asks,
) -> Result<StaffRows, Refusal>
    ensures trainings { OfTables S.Store tx.old tx.new result
        (λ t rows. Includes is_training_asked asks.now.trainings t.rows.trainings rows.trainings.items) }
    ensures withdrawals { OfTables S.Store tx.old tx.new result
        (λ t rows. rows.withdrawals.items ≡ asked_of is_withdrawal_of asks.now.withdrawals t.rows.withdrawals) }
    ensures appointments { OfTables S.Store tx.old tx.new result
        (λ t rows. IncludesAppointments asks.now.appointments t.rows.appointments rows.appointments.items) }
    ensures exact { OfTrees S.Store tx.old tx.new result (StaffIsShown asks.now) }
    ensures frame { Reads S.Store tx.old tx.new result }
{
    let trainings = select_trainings(alloc, tx, &asks.trainings)?;
    let withdrawals = select_rows(alloc, tx, &asks.withdrawals)?;
    let appointments = select_appointments(alloc, tx, &asks.appointments)?;
    Ok(StaffRows {
        trainings,
        withdrawals,
        appointments,
    })
}

/// The rows asked for of what is kept in the safes.
fn custody_rows<S: Alter>(
    alloc: Global,
    tx: &mut Transaction<'_, S>,
    asks: &Asks,
) -> Result<CustodyRows, Refusal>
    ensures boxes { OfTables S.Store tx.old tx.new result
        (λ t rows. rows.boxes.items ≡ asked_all asks.now.boxes t.rows.boxes) }
    ensures safes { OfTables S.Store tx.old tx.new result
        (λ t rows. rows.safes.items ≡ asked_all asks.now.safes t.rows.safes) }
    ensures bags { OfTables S.Store tx.old tx.new result
        (λ t rows. rows.bags.items ≡ asked_of is_of_serial asks.now.bags t.rows.bags) }
    ensures items { OfTables S.Store tx.old tx.new result
        (λ t rows. Includes is_item_of asks.now.items t.rows.items rows.items.items) }
    ensures exact { OfTrees S.Store tx.old tx.new result (CustodyIsShown asks.now) }
    ensures frame { Reads S.Store tx.old tx.new result }
{
    let boxes = select_all(alloc, tx, asks.boxes)?;
    let safes = select_all(alloc, tx, asks.safes)?;
    let bags = select_rows(alloc, tx, &asks.bags)?;
    let items = select_items(alloc, tx, &asks.items)?;
    Ok(CustodyRows {
        boxes,
        safes,
        bags,
        items,
    })
}

/// The rows asked for of ceremonies.
fn ceremony_rows<S: Alter>(
    alloc: Global,
    tx: &mut Transaction<'_, S>,
    asks: &Asks,
) -> Result<CeremonyRows, Refusal>
    ensures ceremonies { OfTables S.Store tx.old tx.new result
        (λ t rows. rows.ceremonies.items ≡ asked_of is_of_number asks.now.ceremonies t.rows.ceremonies) }
    ensures marks { OfTables S.Store tx.old tx.new result
        (λ t rows. rows.marks.items ≡ asked_of is_mark_of asks.now.marks t.rows.marks) }
    ensures steps { OfTables S.Store tx.old tx.new result
        (λ t rows. IncludesStep asks.now.steps t.rows.seatings rows.seatings.items t.rows.steps rows.steps.items) }
    ensures exceptions { OfTables S.Store tx.old tx.new result
        (λ t rows. rows.exceptions.items ≡ asked_of is_exception_of asks.now.exceptions t.rows.exceptions) }
    ensures exact { OfTrees S.Store tx.old tx.new result (CeremoniesAreShown asks.now) }
    ensures frame { Reads S.Store tx.old tx.new result }
{
    let ceremonies = select_rows(alloc, tx, &asks.ceremonies)?;
    let marks = select_rows(alloc, tx, &asks.marks)?;
    let script = select_steps(alloc, tx, &asks.steps)?;
    let exceptions = select_rows(alloc, tx, &asks.exceptions)?;
    Ok(CeremonyRows {
        ceremonies,
        marks,
        steps: script.steps,
        seatings: script.seatings,
        exceptions,
    })
}

/// The rows asked for, but for trainings, withdrawals, appointments and stays, of which the view has none. Of a table
/// that is not asked for nothing is read. Nothing is changed. The error is `Memory` when out of memory, and else
/// `Disk`: the device failed, or a row asked for is invalid.
pub fn read_early_rows<S: Alter>(
    alloc: Global,
    tx: &mut Transaction<'_, S>,
    asks: &Asks,
) -> Result<View, Refusal>
    ensures view { OfMachineTables S.Store tx.old tx.new result (IsViewOf (early_asks asks.now)) }
    ensures exact { OfTrees S.Store tx.old tx.new result (HasNoInvalidRow (early_asks asks.now)) }
    ensures frame { Reads S.Store tx.old tx.new result }
{
    let people = select_people(alloc, tx, &asks.people)?;
    let custody = custody_rows(alloc, tx, asks)?;
    let ceremony = ceremony_rows(alloc, tx, asks)?;
    Ok(View {
        people,
        trainings: Vec::new(alloc),
        withdrawals: Vec::new(alloc),
        appointments: Vec::new(alloc),
        boxes: custody.boxes,
        safes: custody.safes,
        bags: custody.bags,
        items: custody.items,
        ceremonies: ceremony.ceremonies,
        marks: ceremony.marks,
        steps: ceremony.steps,
        seatings: ceremony.seatings,
        stays: Vec::new(alloc),
        stay_count: 0,
        exceptions: ceremony.exceptions,
    })
}

/// All rows asked for, of each table, if `front` has those of `read_early_rows`, which are not read again. As there,
/// nothing is changed, and the error is `Memory` or `Disk`.
pub fn read_remaining_rows<S: Alter>(
    alloc: Global,
    tx: &mut Transaction<'_, S>,
    asks: &Asks,
    front: View,
) -> Result<View, Refusal>
    ensures view { OfMachineTables S.Store tx.old tx.new result
        (λ m view. IsViewOf (early_asks asks.now) m front → IsViewOf asks.now m view) }
    ensures completes { IfOk result (Completes front) }
    ensures exact { OfTrees S.Store tx.old tx.new result
        (λ db view. HasNoInvalidRow (early_asks asks.now) db front → HasNoInvalidRow asks.now db view) }
    ensures frame { Reads S.Store tx.old tx.new result }
{
    let staff = staff_rows(alloc, tx, asks)?;
    let stays = select_stays(alloc, tx, &asks.stays)?;
    let entries = select_stay_count(alloc, tx, &asks.stay_count)?;
    Ok(View {
        trainings: staff.trainings,
        withdrawals: staff.withdrawals,
        appointments: staff.appointments,
        stays,
        stay_count: entries,
        ..front
    })
}

/// All rows asked for, of each table: what `read_early_rows` and `read_remaining_rows` read, in one call. Of a table that is not asked
/// for nothing is read, nor of the table of keys. Nothing is changed. The error is `Memory` when out of memory, and
/// else `Disk`: the device failed, or a row asked for is invalid.
pub fn rows_of<S: Alter>(
    alloc: Global,
    tx: &mut Transaction<'_, S>,
    asks: &Asks,
) -> Result<View, Refusal>
    ensures view { OfMachineTables S.Store tx.old tx.new result (IsViewOf asks.now) }
    ensures exact { OfTrees S.Store tx.old tx.new result (HasNoInvalidRow asks.now) }
    ensures frame { Reads S.Store tx.old tx.new result }
{
    let front = read_early_rows(alloc, tx, asks)?;
    read_remaining_rows(alloc, tx, asks, front)
}
