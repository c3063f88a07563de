//! Rows that no register stores.
ghost use Rattle.std.specs.Prelude.{◌≡◌};

use crate::asserts::holds;
use kcr_base::Refusal;
use kcr_history::{Asks, KeyRow, SeatingRow, Selection, StepFilter, StepRow, View};
use kcr_room::SheetRow;
use kcr_tables::{Version, all_rows, make, read_early_rows, read_remaining_rows};
use sqlite::{Alter, Connection, MemStore, Transaction};
use std::alloc::Global;
use std::rt::HostRuntime;
use std::test::Fail;

/// Statements after which a table of an empty register has an invalid row.
const INVALID_ROWS: [&str; 60] = [
    "INSERT INTO people VALUES ('A', 'Ann')",
    "INSERT INTO people VALUES ('aa', 'Ann')",
    "INSERT INTO people VALUES ('AA', '')",
    "INSERT INTO trainings VALUES ('AA', 'XX', 10957, 10957)",
    "INSERT INTO trainings VALUES ('AA', 'CA', 10956, 10957)",
    "INSERT INTO trainings VALUES ('AA', 'CA', 10957, 47482)",
    "INSERT INTO appointments VALUES ('CO-EAST-8', 10957, 'AA', NULL)",
    "INSERT INTO appointments VALUES ('RKSH-1', 10957, 'AA', 10956)",
    "INSERT INTO boxes VALUES ('NORTH', 1, 'CO-EAST-1')",
    "INSERT INTO boxes VALUES ('EAST', -1, 'CO-EAST-1')",
    "INSERT INTO boxes VALUES ('EAST', 4294967296, 'CO-EAST-1')",
    "INSERT INTO boxes VALUES ('EAST', 0, 'CO-EAST-1')",
    "INSERT INTO boxes VALUES ('EAST', 10000, 'CO-EAST-1')",
    "INSERT INTO boxes VALUES ('EAST', 1, 'CO-WEST-3')",
    "INSERT INTO boxes VALUES ('EAST', 1, 'RKSH-1')",
    "UPDATE safes SET state = 2",
    "INSERT INTO safes VALUES ('EAST', 3, 0)",
    "INSERT INTO bags VALUES ('SER1', 'box 0 EAST')",
    "INSERT INTO bags VALUES ('SER1', 'box 10000 EAST')",
    "INSERT INTO bags VALUES ('ser1', 'spent')",
    "INSERT INTO items VALUES ('CODE', 'EAST', 'SER1')",
    "INSERT INTO items VALUES ('CODE', NULL, NULL)",
    "INSERT INTO ceremonies VALUES (1, 'EAST', 10957, 3, NULL, NULL)",
    "INSERT INTO ceremonies VALUES (1, 'EAST', 10957, 1, 946684799, NULL)",
    "INSERT INTO ceremonies VALUES (0, 'EAST', 10957, 0, NULL, NULL)",
    "INSERT INTO ceremonies VALUES (70000, 'EAST', 10957, 0, NULL, NULL)",
    "INSERT INTO ceremonies VALUES (1, 'EAST', 10957, 2, 946684800, 946684799)",
    "INSERT INTO marks VALUES (1, 4102444800)",
    "INSERT INTO marks VALUES (10000, 946684800)",
    "INSERT INTO steps VALUES (1, 1, '', 'CA', 0, NULL)",
    "INSERT INTO steps VALUES (1, 1, 'a', 'CO;CO', 0, NULL)",
    "INSERT INTO steps VALUES (1, 1, 'a', 'XX', 0, NULL)",
    "INSERT INTO steps VALUES (1, 1, 'a', 'CA', 3, NULL)",
    "INSERT INTO steps VALUES (1, 1, 'a', 'CA', 1, 946684799)",
    "INSERT INTO steps VALUES (10000, 1, 'a', 'CA', 0, NULL)",
    "INSERT INTO steps VALUES (1, 401, 'a', 'CA', 0, NULL)",
    "INSERT INTO seatings VALUES (1, 1, 1, 'a')",
    "INSERT INTO seatings VALUES (10000, 1, 1, 'AA')",
    "INSERT INTO seatings VALUES (1, 0, 1, 'AA')",
    "INSERT INTO seatings VALUES (1, 5000, 1, 'AA')",
    "INSERT INTO seatings VALUES (1, 1, 0, 'AA')",
    "INSERT INTO seatings VALUES (1, 1, 17, 'AA')",
    "INSERT INTO sheet VALUES ('AA', 946684800, 1, 2)",
    "INSERT INTO sheet VALUES ('AA', 946684799, 1, 1)",
    "INSERT INTO sheet VALUES ('AA', 946684800, 0, 1)",
    "INSERT INTO exceptions VALUES (1, 1, '', 946684800, NULL)",
    "INSERT INTO exceptions VALUES (1, 1, 'a', 946684800, -1)",
    "INSERT INTO exceptions VALUES (1, 1, 'a', 946684800, 401)",
    "INSERT INTO exceptions VALUES (1, 0, 'a', 946684800, NULL)",
    "INSERT INTO exceptions VALUES (1, 201, 'a', 946684800, NULL)",
    "INSERT INTO exceptions VALUES (10000, 1, 'a', 946684800, NULL)",
    "INSERT INTO keys VALUES ('a b', 1, 'c', 'r')",
    "INSERT INTO keys VALUES ('k', -1, 'c', 'r')",
    "INSERT INTO keys VALUES ('k', 0, 'c', 'r')",
    "INSERT INTO keys VALUES ('k', 4000000001, 'c', 'r')",
    "INSERT INTO stays VALUES ('AA', 946684800, 1, 946684799)",
    "INSERT INTO stays VALUES ('AA', 946684800, 10000, NULL)",
    "INSERT INTO stays VALUES ('AA', 4102444800, 1, NULL)",
    "INSERT INTO withdrawals VALUES ('AA', 'CA', 10957, 10957, 10956)",
    "INSERT INTO versions VALUES (-1)",
];

/// All rows of the tables of which a command may ask for all, and the step that the statements spoil.
fn every_row() -> Asks {
    Asks {
        people: Selection::All,
        trainings: Selection::All,
        withdrawals: Selection::All,
        appointments: Selection::All,
        boxes: true,
        safes: true,
        bags: Selection::All,
        items: Selection::All,
        ceremonies: Selection::All,
        marks: Selection::All,
        steps: Some(StepFilter {
            ceremony: 1,
            step: Some(1),
        }),
        exceptions: Selection::All,
        stays: Selection::All,
        stay_count: None,
    }
}

/// Whether the reading met an invalid row, which it tells as an I/O error.
fn is_refused<T>(read: &Result<T, Refusal>) -> bool {
    matches!(read, Err(Refusal::Disk))
}

/// The rows asked for, in the two parts that they are read in.
fn view_of<S: Alter>(
    alloc: Global,
    tx: &mut Transaction<'_, S>,
    asks: &Asks,
) -> Result<View, Refusal>
    ensures same_reference { tx.new.conn.ghost_name ≡ tx.old.conn.ghost_name }
{
    let front = read_early_rows(alloc, tx, asks)?;
    read_remaining_rows(alloc, tx, asks, front)
}

/// Whether a reading of all tables meets such a row.
fn has_fault<S: Alter>(alloc: Global, tx: &mut Transaction<'_, S>, asks: &Asks) -> bool
    ensures same_reference { tx.new.conn.ghost_name ≡ tx.old.conn.ghost_name }
{
    is_refused(&view_of(alloc, tx, asks))
        | is_refused(&all_rows::<_, StepRow>(alloc, tx))
        | is_refused(&all_rows::<_, SeatingRow>(alloc, tx))
        | is_refused(&all_rows::<_, SheetRow>(alloc, tx))
        | is_refused(&all_rows::<_, KeyRow>(alloc, tx))
        | is_refused(&all_rows::<_, Version>(alloc, tx))
}

/// Makes an empty register's tables and carries the statement out; whether both could be done.
fn is_made<S: Alter>(tx: &mut Transaction<'_, S>, text: &str) -> bool
    ensures same_reference { tx.new.conn.ghost_name ≡ tx.old.conn.ghost_name }
{
    make(tx).is_ok() && (text.is_empty() || tx.execute(text, &[]).is_ok())
}

/// Whether a reading meets such a row after the statement on a new register; none if it could not be carried out.
fn has_fault_after(alloc: Global, text: &str, asks: &Asks) -> Option<bool> {
    let mut conn: Connection<MemStore> = Connection::open_in_memory(alloc).ok()?;
    if !conn.is_autocommit() {
        return None;
    }
    let mut tx = conn.transaction();
    if is_made(&mut tx, text) {
        Some(has_fault(alloc, &mut tx, asks))
    } else {
        None
    }
}

#[test]
fn invalid_rows_are_refused(rt: HostRuntime) -> Result<(), Fail> {
    let asks = every_row();
    let empty = has_fault_after(rt.alloc(), "", &asks);
    holds(&rt, empty == Some(false), "an empty register");
    for text in INVALID_ROWS {
        let spoilt = has_fault_after(rt.alloc(), text, &asks);
        holds(&rt, spoilt == Some(true), text);
    }
    Ok(())
}
