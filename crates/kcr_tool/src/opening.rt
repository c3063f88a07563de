//! The register in a file: opened to be written, or read into memory.
ghost use Rattle.std.specs.Prelude.{◌≡◌, false, IsTrue, IfOk, IfErr, IfSome};
ghost use Rattle.sqlite_std_file.specs.File.{file_is_usable};
ghost use Rattle.kcr_edges.specs.{Image.image, Unread.IsCause};
ghost use Rattle.kcr_fault.specs.Faults.{StopsOpening, IsUnfilled};
ghost use Rattle.sqlite.specs.Files.{file_state, over_files, IsOpened as IsNewlyOpened};
ghost use Rattle.sqlite.specs.{Held.state, Start.FindsIn, State.HasCleanDisk, WalFiles.image_at};
ghost use Rattle.kcr_history.specs.History.{History};
ghost use Rattle.kcr_store.specs.{Opening.FilesHoldHistory, Opening.IsGenuine, Register.StandsAt, Register.whole};

use kcr_edges::{Copied, CopyConnection, CopyFile, Unread, Watch, connect, copy_of, have_failed};
use kcr_fault::{Fault, Missing, Step};
use kcr_store::{FileRegister, OpenFault, Register};
use sqlite::{Alter, Connection, Error, ErrorCode, FileFrom, FileStore, Files, Start};
use sqlite_std_file::OpenError;
use std::alloc::Global;
use std::fs;
use std::io::ErrorKind;

/// A connection to the files at a path.
pub type FileConnection<F> = Connection<FileStore<FileFrom<F>>>;

/// The register in a copy of files.
pub type CopyRegister = Register<FileStore<CopyFile>>;

/// Why a file was not read, as the fault of a task.
pub fn fault_of_reading(unread: Unread) -> Fault
    requires { IsCause unread }
    ensures { StopsOpening result }
{
    match unread {
        Unread::Memory => Fault::Open(OpenFault::Memory),
        Unread::Closed => Fault::File(Step::Opening),
        Unread::Broken => Fault::File(Step::Reading),
        Unread::Damaged(log) => Fault::Log(log),
    }
}

/// Why a database was not taken, as the fault of a task.
pub fn fault_of_taking(fault: OpenFault) -> Fault
    ensures { StopsOpening result }
{
    match fault {
        OpenFault::Disk => Fault::File(Step::Reading),
        other => Fault::Open(other),
    }
}

/// At what a file failed, or none if there was no memory.
fn step_of(error: Error) -> Option<Step> {
    match error {
        Error::SqliteFailure(ErrorCode::OutOfMemory) => None,
        Error::SqliteFailure(ErrorCode::CannotOpen) => Some(Step::Opening),
        Error::SqliteFailure(ErrorCode::DatabaseBusy) => Some(Step::Locking),
        _ => Some(Step::Reading),
    }
}

/// Connects to the files at a path, which are made if they are missing. `start` stands for what the two held. An error
/// is the step that failed, or none if there was no memory.
pub fn connect_to<F: Start>(
    rt: &HostRuntime,
    path: &str,
    start: F,
) -> Result<FileConnection<F>, Option<Step>>
    ensures autocommit { IfOk result (λ connection. connection.in_transaction ≡ false) }

    // The connection is a new one and shows what the two held.
    ensures opened { IfOk result (λ connection. HasCleanDisk (file_state connection) → IsNewlyOpened connection) }
    ensures found { IfOk result (λ connection. HasCleanDisk (file_state connection)
        → FindsIn (image_at F.Start) (file_state connection)) }

    // Where that was a history's tables, or nothing, so is what it finds.
    ensures founded { IfOk result (λ connection. (A : History) → FilesHoldHistory A (image_at F.Start)
        → IsGenuine A (file_state connection)) }
{
    match Connection::open_from(rt, path, false, start) {
        Ok(connection) => Ok(connection),
        Err((error, _)) => Err(step_of(error)),
    }
}

/// Opens the file at a path and its log, which are made if they are missing, and locks them. An error is the step that
/// failed, or `None` if there was no memory. `start` stands for what the two held.
pub fn files_at<S: Start>(
    rt: &HostRuntime,
    path: &str,
    start: S,
) -> Result<Files<FileFrom<S>>, Option<Step>>
    ensures usable { IfOk result (λ files. IsTrue (file_is_usable S.Start files.log)
        × IsTrue (file_is_usable S.Start files.db)) }
{
    if path == ":memory:" || path.starts_with("file:") {
        return Err(Some(Step::Opening));
    }
    match sqlite_std_file::open(rt, path, start) {
        Ok(files) => Ok(files),
        Err(OpenError::OutOfMemory) => Err(None),
        Err(OpenError::Io(error)) if error.kind() == ErrorKind::OutOfMemory => Err(None),
        Err(OpenError::Busy) => Err(Some(Step::Locking)),
        Err(_) => Err(Some(Step::Opening)),
    }
}

/// Takes the register of a database: of whatever history that was, at that it stands.
pub fn take<S: Alter + Drop>(alloc: Global, connection: Connection<S>) -> Result<Register<S>, Fault>
    requires autocommit { connection.in_transaction ≡ false }
    ensures unbroken { IfOk result (λ r. r.is_broken ≡ false) }
    ensures stands { IfOk result (λ r. (A : History) → IsGenuine A (state S.Store connection)
        → StandsAt S.Store (whole A) r) }
    ensures cause { IfErr result StopsOpening }
{
    match Register::adopt(alloc, connection) {
        Ok(register) => Ok(register),
        Err((fault, _)) => Err(fault_of_taking(fault)),
    }
}

/// Whether memory ran out for the files of a copy, of which the engine tells a fault of the disk. The connection is of
/// no use any more.
pub fn has_run_out(connection: CopyConnection) -> bool {
    have_failed(&connection.into_store().close())
}

/// Why the database in a copy of files was not taken, as the fault of a task. The engine tells memory that ran out for
/// such a copy as a fault of its disk.
fn fault_of_copy(fault: OpenFault, connection: CopyConnection) -> Fault
    ensures { StopsOpening result }
{
    let has_run_out = has_run_out(connection);
    match fault {
        OpenFault::Disk if has_run_out => Fault::Open(OpenFault::Memory),
        other => fault_of_taking(other),
    }
}

/// As `take`, of a copy of files.
pub fn take_copied(alloc: Global, connection: CopyConnection) -> Result<CopyRegister, Fault>
    requires autocommit { connection.in_transaction ≡ false }
    ensures unbroken { IfOk result (λ r. r.is_broken ≡ false) }
    ensures stands { IfOk result (λ r. (A : History) → IsGenuine A (file_state connection)
        → StandsAt over_files (whole A) r) }
    ensures cause { IfErr result StopsOpening }
{
    match Register::adopt(alloc, connection) {
        Ok(register) => Ok(register),
        Err((fault, left)) => Err(fault_of_copy(fault, left)),
    }
}

/// Opens the register in a file, to be written; a missing file is created. First a copy of it is opened in memory: so
/// what is refused is refused before a byte is written, and before a log is created. `start` stands for what the file
/// and its log held, which no code can read: the register stands at each history of which that was the tables.
pub fn open_file<F: Start>(rt: &HostRuntime, path: &str, start: F) -> Result<FileRegister<F>, Fault>
    ensures unbroken { IfOk result (λ r. r.is_broken ≡ false) }
    ensures stands { IfOk result (λ r. (A : History) → FilesHoldHistory A (image_at F.Start)
        → StandsAt over_files (whole A) r) }
    ensures cause { IfErr result StopsOpening }
{
    let (copy, _) = connect_to_copy(rt, path)?;
    take_copied(rt.alloc(), copy)?;
    match connect_to(rt, path, start) {
        Ok(connection) => take(rt.alloc(), connection),
        Err(Some(step)) => Err(Fault::File(step)),
        Err(None) => Err(Fault::Open(OpenFault::Memory)),
    }
}

/// Watches the files of the register that was just opened at a path.
pub fn watch_over<'a>(rt: &'a HostRuntime, path: &str) -> Result<Watch<'a>, Fault>
    ensures cause { IfErr result StopsOpening }
{
    match Watch::over(rt, path) {
        Ok(watch) => Ok(watch),
        Err(error) if error.kind() == ErrorKind::OutOfMemory => Err(Fault::Open(OpenFault::Memory)),
        Err(_) => Err(Fault::File(Step::Opening)),
    }
}

/// A copy of the files at a path, in memory. The files stay as they are. One that is not there is a copy of nothing.
pub fn copy_at(rt: &HostRuntime, path: &str) -> Result<Copied, Fault>
    ensures cause { IfErr result StopsOpening }
{
    match copy_of(rt, path) {
        Ok(copy) => Ok(copy),
        Err(unread) => Err(fault_of_reading(unread)),
    }
}

/// As `copy_at`, of a file that must be there.
pub fn copy_named(rt: &HostRuntime, path: &str) -> Result<Copied, Fault>
    ensures cause { IfErr result StopsOpening }
{
    let copy = copy_at(rt, path)?;
    if copy.is_there {
        Ok(copy)
    } else {
        Err(Fault::File(Step::Missing))
    }
}

/// Refuses a path at which no file is. Whatever else is wrong with it is found when it is opened.
pub fn require_file(rt: &HostRuntime, path: &str) -> Result<(), Fault>
    ensures cause { IfErr result StopsOpening }
{
    match fs::metadata(rt, path) {
        Err(error) if error.kind() == ErrorKind::NotFound => Err(Fault::File(Step::Missing)),
        _ => Ok(()),
    }
}

/// Connects to a copy of the files at a path, and says whether the file is there. One that is not is a copy of nothing.
pub fn connect_to_copy(rt: &HostRuntime, path: &str) -> Result<(CopyConnection, bool), Fault>
    ensures autocommit { IfOk result (λ both. both.0.in_transaction ≡ false) }
    ensures cause { IfErr result StopsOpening }
{
    let copy = copy_at(rt, path)?;
    let is_there = copy.is_there;
    match connect(rt.alloc(), copy) {
        Ok(connection) => Ok((connection, is_there)),
        Err(unread) => Err(fault_of_reading(unread)),
    }
}

/// What is there in place of a register with commands, if anything is.
fn missing_of(is_there: bool, count: u32) -> Option<Missing>
    ensures { IfSome result IsUnfilled }
{
    if !is_there {
        return Some(Missing::Absent);
    }
    if count == 0 {
        Some(Missing::Empty)
    } else {
        None
    }
}

/// Opens the register in a copy of files, and says if no register or no command is there. A register of an older
/// version is migrated in memory only. It stands at each history of which the bytes that were read are the tables.
pub fn open_copied(alloc: Global, copy: Copied) -> Result<(CopyRegister, Option<Missing>), Fault>
    ensures unbroken { IfOk result (λ o. o.0.is_broken ≡ false) }
    ensures stands { IfOk result (λ o. (A : History) → FilesHoldHistory A (image copy.log.items copy.file.items)
        → StandsAt over_files (whole A) o.0) }
    ensures missing { IfOk result (λ o. IfSome o.1 IsUnfilled) }
    ensures cause { IfErr result StopsOpening }
{
    let is_there = copy.is_there;
    let connection = match connect(alloc, copy) {
        Ok(connection) => connection,
        Err(unread) => return Err(fault_of_reading(unread)),
    };
    let register = take_copied(alloc, connection)?;
    let missing = missing_of(is_there, register.last_number());
    Ok((register, missing))
}
