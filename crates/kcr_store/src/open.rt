//! Taking a database over.
ghost use Rattle.std.specs.Prelude.{◌≡◌, ◌≢◌, ◌↔◌, ◌⊎◌, false, length, [], pos, IsTrue, is_some, IfOk, IfErr, OnOk};
ghost use Rattle.sqlite.specs.State.{HasCleanDisk, IsLive, IsUnchanged, Survives};
ghost use Rattle.sqlite.specs.{Files.file_state, Files.IsOpened as IsNewlyOpened, Held.state, Start.FindsIn, WalFiles.image_at};
ghost use Rattle.kcr_history.specs.{History.History, Tables.tables};
ghost use Rattle.kcr_rows.specs.Frame.{IfClean, ImpliesOpen, StaysInTransaction};
ghost use Rattle.kcr_tables.specs.{Frame.Reads, Refusals.IsFault, MachineTables.HoldsTables, StoredTables.StoredTables, StoredTables.Holds};
ghost use Rattle.kcr_older.specs.{OldFiles.HoldsHistoryAs, Versions.number_of, Migrated.migrated_tables};
ghost use Rattle.kcr_older.specs.Kind.{IsOfOtherVersion, IsOtherNumber, IsForeignSchema, IsOfKind, no_schema, numbered_table};
ghost use Rattle.kcr_store.specs.{Frame.IfCleanOver, Frame.StaysOutside, Stored.IsTables, Stored.OfStored, Register.IsSynced};
ghost use Rattle.kcr_store.specs.Opening.{IsGenuine, FilesHoldHistory, IsMigrated, IsOpeningOf, IsOpened, IsAnswer, IsAnswerBy};
ghost use Rattle.kcr_store.specs.Opening.{GoesByNumber, HoldsRowsAs, MigratesRows, ShowsRows};

use kcr_base::Refusal;
use kcr_older::{DatabaseKind, OldVersion, database_kind, migrate, version_in};
use kcr_tables::{last_key_row, make};
use sqlite::{Alter, Connection, Error, ErrorCode, FileFrom, FileStore, Start, Transaction};
use std::alloc::Global;

/// Why a database is not taken.
#[derive(Clone, Copy, PartialEq, Eq, Drop)]
pub enum OpenFault {
    /// Out of memory. The database is as it was.
    Memory,
    /// The device failed. The database is as it was, or as the opening makes it.
    Disk,
    /// It has something, and is neither a register of version 1, 2 or 3 nor of another version.
    Foreign,
    /// It has a table `versions` of the one column `number`, with exactly one row, and the whole number there is none
    /// of 1, 2 and 3.
    Version,
}

/// The version of the tables.
pub(crate) const VERSION: u32 = 3;

pub(crate) fn fault_of(refusal: Refusal) -> OpenFault
    ensures kind { (result ≡ OpenFault.Memory) ⊎ (result ≡ OpenFault.Disk) }
    ensures memory { (result ≡ OpenFault.Memory) ↔ (refusal ≡ Refusal.Memory) }
{
    match refusal {
        Refusal::Memory => OpenFault::Memory,
        _ => OpenFault::Disk,
    }
}

fn fault_of_error(error: Error) -> OpenFault
    ensures kind { (result ≡ OpenFault.Memory) ⊎ (result ≡ OpenFault.Disk) }
    ensures memory { (result ≡ OpenFault.Memory) ↔ (error ≡ Error.SqliteFailure ErrorCode.OutOfMemory) }
{
    match error {
        Error::SqliteFailure(ErrorCode::OutOfMemory) => OpenFault::Memory,
        _ => OpenFault::Disk,
    }
}

/// Connects to the file at the path and its log beside it; a file that is not there is made. `start` stands for what
/// the two held, which no code can read: if that was a history's tables, or nothing, so is what the connection
/// finds, and `Register::adopt` may be told so. `Disk` comes also if another process has the file open, if it is
/// no database, and for the name `:memory:`.
pub fn connect<S: Start>(
    rt: &HostRuntime,
    path: &str,
    start: S,
) -> Result<Connection<FileStore<FileFrom<S>>>, OpenFault>
    ensures autocommit { IfOk result (λ connection. connection.in_transaction ≡ false) }

    // The connection is a new one and shows what the two held.
    ensures opened { IfOk result (λ connection. HasCleanDisk (file_state connection) → IsNewlyOpened connection) }
    ensures found { IfOk result (λ connection. HasCleanDisk (file_state connection)
        → FindsIn (image_at S.Start) (file_state connection)) }

    // Where that was a history's tables, or nothing, so is what it finds.
    ensures founded { IfOk result (λ connection. (A : History) → FilesHoldHistory A (image_at S.Start)
        → IsGenuine A (file_state connection)) }
    ensures kind { IfErr result (λ e. (e ≡ OpenFault.Memory) ⊎ (e ≡ OpenFault.Disk)) }
{
    match Connection::open_from(rt, path, false, start) {
        Ok(connection) => Ok(connection),
        Err((error, _)) => Err(fault_of_error(error)),
    }
}

/// What the database is.
pub(crate) fn inspect<S: Alter>(
    alloc: Global,
    conn: &Connection<S>,
) -> Result<DatabaseKind, OpenFault>
    ensures stands { IfOk result (IsOfKind (state S.Store conn.now).now.schema) }
    ensures kind { IfErr result (λ e. (e ≡ OpenFault.Memory) ⊎ (e ≡ OpenFault.Disk)) }
    ensures live { IsLive (state S.Store conn.now) }
{
    match database_kind(alloc, conn.schema()) {
        Ok(standing) => Ok(standing),
        Err(refusal) => Err(fault_of(refusal)),
    }
}

/// What a commit that met out of memory is told as: `Memory` if the store is still open, so that nothing was
/// committed, and else `Disk`, since the commit may stand.
fn commit_fault<S: Alter>(conn: &mut Connection<S>) -> OpenFault
    requires autocommit { conn.old.in_transaction ≡ false }
    ensures kind { (result ≡ OpenFault.Memory) ⊎ (result ≡ OpenFault.Disk) }
    ensures same { IfCleanOver S.Store conn.old conn.new (λ old new. result ≡ OpenFault.Memory → IsUnchanged old new) }
    ensures frame { StaysOutside S.Store (λ _. ⊥) conn.old conn.new }
{
    match conn.prepare("COMMIT") {
        Ok(_) => OpenFault::Memory,
        Err(_) => OpenFault::Disk,
    }
}

/// Makes the tables of an empty register, in a transaction of its own; it has no command.
#[tactic(auto, using(crate::proofs::StoreLemmas::first_stores))]
fn create_tables<S: Alter>(conn: &mut Connection<S>) -> Result<(), OpenFault>
    requires autocommit { conn.old.in_transaction ≡ false }
    requires empty { (state S.Store conn.old).now.schema ≡ no_schema }
    ensures made { IfCleanOver S.Store conn.old conn.new
        (λ old new. OnOk result (IsSynced [] new × IsTrue new.is_open × IsTrue old.is_open)) }
    ensures kind { IfErr result (λ e. (e ≡ OpenFault.Memory) ⊎ (e ≡ OpenFault.Disk)) }
    ensures left { IfErr result (λ e. e ≡ OpenFault.Memory
        → Survives (state S.Store conn.old) (state S.Store conn.new) (λ _. ⊥)) }
    ensures frame { StaysOutside S.Store (IsTables []) conn.old conn.new }
{
    let mut tx = conn.transaction();
    if let Err(refusal) = make(&mut tx) {
        return Err(fault_of(refusal));
    }
    match tx.commit() {
        Ok(()) => Ok(()),
        Err(Error::SqliteFailure(ErrorCode::OutOfMemory)) => Err(commit_fault(conn)),
        Err(_) => Err(OpenFault::Disk),
    }
}

/// Whether the store still serves. It changes nothing.
fn probe<S: Alter>(conn: &mut Connection<S>) -> Result<(), OpenFault>
    requires autocommit { conn.old.in_transaction ≡ false }
    ensures same { IfCleanOver S.Store conn.old conn.new (λ old new. OnOk result (IsUnchanged old new)) }
    ensures kind { IfErr result (λ e. (e ≡ OpenFault.Memory) ⊎ (e ≡ OpenFault.Disk)) }
    ensures frame { StaysOutside S.Store (λ _. ⊥) conn.old conn.new }
{
    match conn.prepare("SELECT number FROM versions") {
        Ok(_) => Ok(()),
        Err(error) => Err(fault_of_error(error)),
    }
}

/// Why a database that is not taken is refused, by its number.
fn refused_by(number: Option<i64>) -> OpenFault
    ensures version { (result ≡ OpenFault.Version) ↔ IsOtherNumber number }
    ensures kind { (result ≡ OpenFault.Version) ⊎ (result ≡ OpenFault.Foreign) }
{
    match number {
        Some(1) | Some(2) | Some(3) | None => OpenFault::Foreign,
        Some(_) => OpenFault::Version,
    }
}

/// Goes on if this is the number of the database, and else tells why that is refused. Nothing is changed.
pub(crate) fn expect_number<S: Alter>(
    alloc: Global,
    tx: &mut Transaction<'_, S>,
    number: u32,
) -> Result<(), OpenFault>
    ensures answer { IfClean S.Store tx.old tx.new (λ old _. IsLive old
        → IsTrue (is_some (numbered_table old.now.schema)) → IsAnswerBy (pos number) old.now result) }
    ensures same { IfClean S.Store tx.old tx.new
        (λ old new. IsTrue (is_some (numbered_table old.now.schema)) → OnOk result (IsUnchanged old new)) }
    ensures opened { ImpliesOpen S.Store tx.old tx.new result }
    ensures frame { StaysInTransaction S.Store (λ _. Unit {0}) tx.old tx.new result }
{
    match version_in(alloc, tx) {
        Ok(Some(found)) if found == i64::from(number) => Ok(()),
        Ok(other) => Err(refused_by(other)),
        Err(refusal) => Err(fault_of(refusal)),
    }
}

/// The number of the last command, 0 if there is none. Nothing is changed.
fn last_number<S: Alter>(alloc: Global, tx: &mut Transaction<'_, S>) -> Result<u32, Refusal>
    ensures count { OfStored S.Store tx.old tx.new (λ A. IfOk result (λ count. count ≡ length A)) }
    ensures frame { Reads S.Store tx.old tx.new result }
{
    let last = last_key_row(alloc, tx)?;
    match last.first() {
        Some(row) => Ok(row.accepted),
        None => Ok(0),
    }
}

/// The number of the last command of a register of this version, if the database has its number. Nothing is changed.
fn count_in<S: Alter>(alloc: Global, tx: &mut Transaction<'_, S>) -> Result<u32, OpenFault>
    ensures answer { IfClean S.Store tx.old tx.new (GoesByNumber 3 result) }
    ensures count { OfStored S.Store tx.old tx.new (λ A. IfOk result (λ count. count ≡ length A)) }
    ensures frame { StaysInTransaction S.Store (λ _. Unit {0}) tx.old tx.new result }
{
    if let Err(fault) = expect_number(alloc, tx, VERSION) {
        return Err(fault);
    }
    match last_number(alloc, tx) {
        Ok(count) => Ok(count),
        Err(refusal) => Err(fault_of(refusal)),
    }
}

/// The same in a transaction that is rolled back.
fn read_count<S: Alter>(alloc: Global, conn: &mut Connection<S>) -> Result<u32, OpenFault>
    requires autocommit { conn.old.in_transaction ≡ false }
    ensures answer { IfCleanOver S.Store conn.old conn.new (GoesByNumber 3 result) }
    ensures count { IfCleanOver S.Store conn.old conn.new (λ old _. (A : History)
        → (IsTrue old.is_open → IsSynced A old) → IfOk result (λ count. count ≡ length A)) }
    ensures shows { IfCleanOver S.Store conn.old conn.new (λ old new. (A : History)
        → (IsTrue old.is_open → IsSynced A old) → IsTrue new.is_open → IsSynced A new) }
    ensures frame { StaysOutside S.Store (λ _. ⊥) conn.old conn.new }
{
    let mut tx = conn.transaction();
    let count = count_in(alloc, &mut tx);
    tx.rollback();
    count
}

/// Takes the database of a register of this version, and changes nothing: the number of its last command.
fn open_current<S: Alter>(alloc: Global, conn: &mut Connection<S>) -> Result<u32, OpenFault>
    requires autocommit { conn.old.in_transaction ≡ false }
    ensures shows { IfCleanOver S.Store conn.old conn.new (λ old new. (A : History)
        → (IsTrue old.is_open → IsSynced A old) → IfOk result (λ count. IsOpened A count new)) }
    ensures answer { IfCleanOver S.Store conn.old conn.new (GoesByNumber 3 result) }
    ensures frame { StaysOutside S.Store (λ _. ⊥) conn.old conn.new }
{
    let count = read_count(alloc, conn)?;
    probe(conn)?;
    Ok(count)
}

/// Brings the tables of a register of an older version to this one: the number of its last command. After an error the
/// caller has to roll back.
fn brought_count<S: Alter>(
    alloc: Global,
    tx: &mut Transaction<'_, S>,
    from: OldVersion,
) -> Result<u32, Refusal>
    ensures brought { IfClean S.Store tx.old tx.new (λ old new. (A : History)
        → HoldsHistoryAs (number_of from) A old.now
        → IfOk result (λ count. (count ≡ length A) × HoldsTables (tables A) new.now)) }

    // Whoever wrote the rows.
    ensures rows { IfClean S.Store tx.old tx.new (λ old new. (t : StoredTables) → HoldsRowsAs from t old.now
        → OnOk result (Holds new.now (migrated_tables from t))) }
    ensures frame { StaysInTransaction S.Store IsFault tx.old tx.new result }
{
    migrate(alloc, tx, from)?;
    last_number(alloc, tx)
}

/// The same if the database has the number of that version.
fn renewed_count<S: Alter>(
    alloc: Global,
    tx: &mut Transaction<'_, S>,
    from: OldVersion,
) -> Result<u32, OpenFault>
    ensures answer { IfClean S.Store tx.old tx.new (GoesByNumber (number_of from) result) }
    ensures brought { IfClean S.Store tx.old tx.new (λ old new. (A : History)
        → HoldsHistoryAs (number_of from) A old.now
        → IfOk result (λ count. (count ≡ length A) × HoldsTables (tables A) new.now)) }

    // Whoever wrote the rows.
    ensures rows { IfClean S.Store tx.old tx.new (λ old new. (t : StoredTables) → HoldsRowsAs from t old.now
        → OnOk result (Holds new.now (migrated_tables from t))) }
    ensures frame { StaysInTransaction S.Store (λ _. Unit {0}) tx.old tx.new result }
{
    if let Err(fault) = expect_number(alloc, tx, from.number()) {
        return Err(fault);
    }
    match brought_count(alloc, tx, from) {
        Ok(count) => Ok(count),
        Err(refusal) => Err(fault_of(refusal)),
    }
}

/// Brings a register of an older version to this one, in a transaction of its own: the number of its last command. A
/// crash leaves it as it was, or brought.
fn migrate_database<S: Alter>(
    alloc: Global,
    conn: &mut Connection<S>,
    from: OldVersion,
) -> Result<u32, OpenFault>
    requires autocommit { conn.old.in_transaction ≡ false }
    ensures shows { IfCleanOver S.Store conn.old conn.new (λ old new. (A : History)
        → HoldsHistoryAs (number_of from) A old.now → IfOk result (λ count. IsOpened A count new)) }

    // Whoever wrote the rows.
    ensures rows { IfCleanOver S.Store conn.old conn.new (λ old new. (t : StoredTables) → HoldsRowsAs from t old.now
        → OnOk result (ShowsRows (migrated_tables from t) new)) }
    ensures opened { IfCleanOver S.Store conn.old conn.new (λ old _. OnOk result (IsTrue old.is_open)) }
    ensures answer { IfCleanOver S.Store conn.old conn.new (GoesByNumber (number_of from) result) }
    ensures left { IfErr result (λ e. e ≢ OpenFault.Disk
        → Survives (state S.Store conn.old) (state S.Store conn.new) (λ _. ⊥)) }
    ensures frame { StaysOutside S.Store (IsMigrated from (state S.Store conn.old).now) conn.old conn.new }
{
    let mut tx = conn.transaction();
    let count = match renewed_count(alloc, &mut tx, from) {
        Ok(count) => count,
        Err(fault) => return Err(fault),
    };
    match tx.commit() {
        Ok(()) => Ok(count),
        Err(Error::SqliteFailure(ErrorCode::OutOfMemory)) => Err(commit_fault(conn)),
        Err(_) => Err(OpenFault::Disk),
    }
}

/// Why a database with a table `versions` of the one column `number`, whose schema is that of no version, is refused.
pub(crate) fn unknown_database_fault<S: Alter>(alloc: Global, conn: &mut Connection<S>) -> OpenFault
    requires autocommit { conn.old.in_transaction ≡ false }
    ensures answer { IfCleanOver S.Store conn.old conn.new (λ old _. IsLive old
        → IsTrue (is_some (numbered_table old.now.schema)) → ((result ≡ OpenFault.Version) → IsOfOtherVersion old.now)
        × ((result ≡ OpenFault.Foreign) → ¬ IsOfOtherVersion old.now)) }
    ensures frame { StaysOutside S.Store (λ _. ⊥) conn.old conn.new }
{
    let mut tx = conn.transaction();
    let number = version_in(alloc, &mut tx);
    tx.rollback();
    match number {
        Ok(number) => refused_by(number),
        Err(refusal) => fault_of(refusal),
    }
}

/// Makes the tables of an empty database, takes a register of this version, and brings an older one to it: the number
/// of its last command.
pub(crate) fn open_or_migrate<S: Alter>(
    alloc: Global,
    conn: &mut Connection<S>,
) -> Result<u32, OpenFault>
    requires autocommit { conn.old.in_transaction ≡ false }
    ensures found { IfCleanOver S.Store conn.old conn.new (λ old new. (A : History)
        → IsGenuine A old → IfOk result (λ count. IsOpened A count new)) }
    ensures taken { IfCleanOver S.Store conn.old conn.new (λ old _. IsTrue old.is_open → (A : History) → IsGenuine A old
        → IfErr result (λ e. (e ≡ OpenFault.Memory) ⊎ (e ≡ OpenFault.Disk))) }

    // Whoever wrote them, the rows of an older version become those that the migration makes of them.
    ensures older { IfCleanOver S.Store conn.old conn.new
        (λ old new. IfOk result (λ _. (from : OldVersion) → MigratesRows from old.now new)) }

    // What is taken, and each refusal, is what its name says, and no database is two of these.
    ensures answer { IfCleanOver S.Store conn.old conn.new (λ old _. IsAnswer old.now result) }
    ensures known { IfOk result (λ _. ¬ IsForeignSchema (state S.Store conn.old).now.schema) }

    // An opening that fails changes nothing, but after an I/O error it may have.
    ensures left { IfErr result (λ e. e ≢ OpenFault.Disk
        → Survives (state S.Store conn.old) (state S.Store conn.new) (λ _. ⊥)) }
    ensures frame { StaysOutside S.Store (IsOpeningOf (state S.Store conn.old).now) conn.old conn.new }
{
    let is_settled = conn.is_autocommit();
    prove!(is_settled);
    match inspect(alloc, conn)? {
        DatabaseKind::Empty => match create_tables(conn) {
            Ok(()) => Ok(0),
            Err(fault) => Err(fault),
        },
        DatabaseKind::Current => open_current(alloc, conn),
        DatabaseKind::Version2 => migrate_database(alloc, conn, OldVersion::V2),
        DatabaseKind::Version1 => migrate_database(alloc, conn, OldVersion::V1),
        DatabaseKind::Versioned => Err(unknown_database_fault(alloc, conn)),
        DatabaseKind::Foreign => Err(OpenFault::Foreign),
    }
}
