//! A database over the bytes of a file and its log.
ghost use Rattle.std.specs.Prelude.{◌≡◌, ◌⊎◌, false, IsTrue, IfOk, IfErr};
ghost use Rattle.sqlite.specs.{Files.file_state, Files.IsOpened, Start.FindsIn, State.HasCleanDisk};
ghost use Rattle.sqlite_disk.specs.Memory.{memory_bytes, memory_is_usable};
ghost use Rattle.kcr_edges.specs.{Image.image, Noted.file_of, Unread.IsCause};

use crate::{Copied, CopyFile, Unread};
use sqlite::{Connection, Error, ErrorCode, FileStore, Files, Options};
use sqlite_disk::{Disk, Memory};
use std::alloc::Global;
use std::io;

/// What the salts are made from that a log in memory gets.
const SEED: u64 = 7;

/// A connection to a copy of files.
pub type CopyConnection = Connection<FileStore<CopyFile>>;

/// A file in memory that has these bytes.
fn in_memory(alloc: Global, bytes: &[u8]) -> io::Result<CopyFile>
    ensures bytes { IfOk result (λ m. memory_bytes (file_of m) ≡ bytes.now) }
    ensures usable { IfOk result (λ m. IsTrue (memory_is_usable (file_of m))) }
{
    let mut memory = Memory::new(alloc);
    memory.write_at(0, bytes)?;
    Ok(CopyFile::new(memory))
}

/// Both files in memory. The bytes that were read are given up meanwhile.
fn files_of(alloc: Global, copy: Copied) -> io::Result<Files<CopyFile>>
    ensures log { IfOk result (λ files. (memory_bytes (file_of files.log) ≡ copy.log.items)
        × IsTrue (memory_is_usable (file_of files.log))) }
    ensures file { IfOk result (λ files. (memory_bytes (file_of files.db) ≡ copy.file.items)
        × IsTrue (memory_is_usable (file_of files.db))) }
{
    let log = in_memory(alloc, &copy.log)?;
    let db = in_memory(alloc, &copy.file)?;
    Ok(Files { log, db })
}

/// Why a copy was not opened or closed, by the error and by what became of its files: memory that a write to one of
/// them was refused is told as a fault of the disk.
pub(crate) fn unread(error: Error, files: &Files<CopyFile>) -> Unread
    ensures kind { (result ≡ Unread.Memory) ⊎ (result ≡ Unread.Broken) }
    ensures cause { IsCause result }
{
    match error {
        Error::SqliteFailure(ErrorCode::OutOfMemory) => Unread::Memory,
        _ if have_failed(files) => Unread::Memory,
        _ => Unread::Broken,
    }
}

/// Whether a write to one of the two has failed.
pub fn have_failed(files: &Files<CopyFile>) -> bool {
    files.log.has_failed() || files.db.has_failed()
}

/// Connects to the database that these bytes are, in memory: whatever is done to it, no file changes. Bytes of nothing
/// are a new database. `Broken` comes for bytes that are no database.
pub fn connect(alloc: Global, copy: Copied) -> Result<CopyConnection, Unread>
    ensures autocommit { IfOk result (λ connection. connection.in_transaction ≡ false) }

    // The connection is a new one and shows what the bytes hold.
    ensures opened { IfOk result (λ connection. HasCleanDisk (file_state connection) → IsOpened connection) }
    ensures found { IfOk result (λ connection. HasCleanDisk (file_state connection)
        → FindsIn (image copy.log.items copy.file.items) (file_state connection)) }
    ensures kind { IfErr result (λ e. (e ≡ Unread.Memory) ⊎ (e ≡ Unread.Broken)) }
    ensures cause { IfErr result IsCause }
{
    let Ok(files) = files_of(alloc, copy) else {
        return Err(Unread::Memory);
    };
    match Connection::open_files(alloc, files, Options::new(SEED)) {
        Ok(connection) => Ok(connection),
        Err((error, left)) => Err(unread(error, &left.into_files())),
    }
}
