//! A register whose files stop, one that is broken, and databases that are not its own.
use crate::asserts::{holds, same};
use crate::streams::{ACCEPTED, ANN, LIST, LISTED, answer};
use kcr_store::{OpenFault, Register};
use sqlite::{Alter, Connection, FileStore, Files, MemStore, Options};
use sqlite_disk::{Crash, Fuse, Memory};
use std::alloc::Global;
use std::process::Abort;
use std::rt::HostRuntime;
use std::test::Fail;

/// Bob is to enter.
const BOB: &[u8] =
    b"POST /people HTTP/1.1\r\nHost: l\r\nContent-Length: 41\r\n\r\n{\"key\":\"k2\",\"who\":\"BB\",\"name\":\"Bob Berg\"}";

/// The answer to the second command.
const SECOND: &[u8] =
    b"HTTP/1.1 200 OK\r\ncontent-type: application/json\r\ncontent-length: 14\r\n\r\n{\"accepted\":2}";

/// Ann and Bob are there.
const BOTH: &[u8] =
    b"HTTP/1.1 200 OK\r\ncontent-type: application/json\r\ncontent-length: 96\r\n\r\n{\"people\":[{\"name\":\"Ann Abel\",\"roles\":[],\"who\":\"AA\"},{\"name\":\"Bob Berg\",\"roles\":[],\"who\":\"BB\"}]}";

/// The device failed.
const DISK: &[u8] =
    b"HTTP/1.1 500 Internal Server Error\r\ncontent-type: application/json\r\ncontent-length: 30\r\n\r\n{\"number\":34,\"refusal\":\"disk\"}";

/// The device failed before.
const BROKEN: &[u8] =
    b"HTTP/1.1 500 Internal Server Error\r\ncontent-type: application/json\r\ncontent-length: 32\r\n\r\n{\"number\":35,\"refusal\":\"broken\"}";

/// A broken register answers commands and questions alike.
fn refuses_everything<S: Alter>(rt: &impl Abort, alloc: Global, register: &mut Register<S>) {
    same(rt, &answer(alloc, register, ANN), BROKEN);
    same(rt, &answer(alloc, register, LIST), BROKEN);
}

#[test]
fn a_broken_register(rt: HostRuntime) -> Result<(), Fail> {
    let mut register = Register::in_memory(rt.alloc()).ok().ok_or("a register")?;
    holds(&rt, !register.is_broken(), "no broken register");
    register.mark_broken();
    refuses_everything(&rt, rt.alloc(), &mut register);
    Ok(())
}

/// A database as it comes, of which no proof knows what it holds.
fn take<S: Alter + Drop>(
    alloc: Global,
    connection: Connection<S>,
) -> Result<Register<S>, Option<OpenFault>> {
    if !connection.is_autocommit() {
        return Err(None);
    }
    match Register::adopt(alloc, connection) {
        Ok(register) => Ok(register),
        Err((fault, _)) => Err(Some(fault)),
    }
}

/// Takes a database in memory that these statements made.
fn fault_over(alloc: Global, made: &str) -> Option<OpenFault> {
    let mut connection: Connection<MemStore> = Connection::open_in_memory(alloc).ok()?;
    if connection.execute_batch(made).is_err() {
        return None;
    }
    take(alloc, connection).err()?
}

#[test]
fn other_databases(rt: HostRuntime) {
    let foreign = fault_over(rt.alloc(), "CREATE TABLE t (a INT)");
    holds(&rt, foreign == Some(OpenFault::Foreign), "another's tables");
    let version = fault_over(
        rt.alloc(),
        "CREATE TABLE versions (number INT NOT NULL, PRIMARY KEY (number)) STRICT; INSERT INTO versions VALUES (9)",
    );
    holds(
        &rt,
        version == Some(OpenFault::Version),
        "a version to come",
    );
}

/// Opens the files; none if that fails.
fn open<D: Crash + Drop>(alloc: Global, files: Files<D>) -> Option<Register<FileStore<D>>> {
    if !files.may_be_used() {
        return None;
    }
    match Connection::open_files(alloc, files, Options::new(7)) {
        Ok(connection) => take(alloc, connection).ok(),
        Err(_) => None,
    }
}

/// What a crash leaves of the files.
fn crashed<D: Crash>(files: Files<D>) -> Files<D> {
    let Files { mut log, mut db } = files;
    log.crash();
    db.crash();
    Files { log, db }
}

/// The files as they are, with no copy of the log into the database.
fn files_of<D: Crash + Drop>(register: Register<FileStore<D>>) -> Files<D> {
    register.close().into_store().close()
}

/// The files of the register once Ann is entered.
fn with_ann<D: Crash + Drop>(
    rt: &impl Abort,
    alloc: Global,
    register: Register<FileStore<D>>,
) -> Files<D> {
    let mut register = register;
    same(rt, &answer(alloc, &mut register, ANN), ACCEPTED);
    files_of(register)
}

/// A register over empty files.
fn new_register(alloc: Global) -> Option<Register<FileStore<Memory>>> {
    let log = Memory::new(alloc);
    let db = Memory::new(alloc);
    open(alloc, Files { log, db })
}

/// The files, one of which fails after N calls.
fn fused(files: Files<Memory>, log: u64, db: u64) -> Files<Fuse<Memory>> {
    Files {
        log: Fuse::new(files.log, log),
        db: Fuse::new(files.db, db),
    }
}

/// Whether Bob is entered. Where he is not, the device failed, and the register is broken.
fn is_accepted<S: Alter>(rt: &impl Abort, alloc: Global, register: &mut Register<S>) -> bool {
    let told = answer(alloc, register, BOB);
    if told.as_slice() == SECOND {
        return true;
    }
    same(rt, &told, DISK);
    refuses_everything(rt, alloc, register);
    false
}

/// The tables are those before the command or after it, and sent again it gets the answer that it would have had.
fn is_whole<S: Alter>(
    rt: &impl Abort,
    alloc: Global,
    register: &mut Register<S>,
    was_accepted: bool,
) {
    let there = answer(alloc, register, LIST);
    if was_accepted || there.as_slice() != LISTED {
        same(rt, &there, BOTH);
    }
    same(rt, &answer(alloc, register, BOB), SECOND);
    same(rt, &answer(alloc, register, LIST), BOTH);
}

/// The files, opened again, have the whole register.
fn are_whole<D: Crash + Drop>(rt: &impl Abort, alloc: Global, files: Files<D>, was_accepted: bool) {
    match open(alloc, files) {
        Some(mut register) => is_whole(rt, alloc, &mut register, was_accepted),
        None => holds(rt, false, "the opening after the crash"),
    }
}

/// Whether Bob is entered. The register is whole after a crash.
fn outlives_a_crash<D: Crash + Drop>(
    rt: &impl Abort,
    alloc: Global,
    register: Register<FileStore<D>>,
) -> bool {
    let mut register = register;
    let was_accepted = is_accepted(rt, alloc, &mut register);
    are_whole(rt, alloc, crashed(files_of(register)), was_accepted);
    was_accepted
}

/// Whether Bob is entered if a file fails after N calls; `None` if the register cannot be opened.
fn one_stop(rt: &impl Abort, alloc: Global, log: u64, db: u64) -> Option<bool> {
    let files = with_ann(rt, alloc, new_register(alloc)?);
    let register = open(alloc, fused(files, log, db))?;
    Some(outlives_a_crash(rt, alloc, register))
}

/// The number of runs that a stop cut short, at every fifth call from the first on until a run meets none.
fn sweep(rt: &impl Abort, alloc: Global, is_log: bool) -> u64 {
    let mut stops = 0u64;
    for round in 0..400u64 {
        let calls = round.saturating_mul(5);
        let (log, db) = if is_log {
            (calls, u64::MAX)
        } else {
            (u64::MAX, calls)
        };
        match one_stop(rt, alloc, log, db) {
            None => {}
            Some(false) => stops = stops.saturating_add(1),
            Some(true) => return stops,
        }
    }
    holds(rt, false, "a run without a stop");
    stops
}

#[test]
fn stops_at_calls_of_the_log(rt: HostRuntime) {
    let stops = sweep(&rt, rt.alloc(), true);
    holds(&rt, stops > 0, "some stops of the log");
}

// The command writes to the log alone.
#[test]
fn stops_at_calls_of_the_database(rt: HostRuntime) {
    let stops = sweep(&rt, rt.alloc(), false);
    holds(&rt, stops == 0, "no stop of the database");
}
