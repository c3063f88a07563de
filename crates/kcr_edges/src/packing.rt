//! One file with everything that a register's file and its log hold.
ghost use Rattle.std.specs.Prelude.{◌≡◌, ◌⊎◌, [], IsTrue, IfOk, IfErr, OnOk};
ghost use Rattle.sqlite_wal.specs.{Files.outcomes, Reads.AreClean};
ghost use Rattle.sqlite_disk.specs.Memory.{memory_bytes};
ghost use Rattle.kcr_edges.specs.{Image.image, Unread.IsCause};
ghost use Rattle.kcr_edges.specs.Packed.{IsPacked, IsEmptied, LeavesOnly, Stays};

use crate::memory::{connect, unread};
use crate::{Copied, Unread};
use sqlite::Files;
use sqlite_disk::{Disk, Memory};
use std::alloc::Global;
use std::io;

/// Why a new file did not get its bytes.
#[derive(Clone, Copy)]
pub enum Unmade {
    /// It holds something, or the log beside it does. Both are as they were.
    Filled,
    /// A call on it failed.
    Failed,
}

/// Plays the log of a copy into its file: alone, with no log beside it, the file is then the database that the two were.
/// `Broken` comes for bytes that are no database.
pub fn play_in(alloc: Global, copy: Copied) -> Result<Files<Memory>, Unread>
    ensures packed { IfOk result (λ files. IsPacked (image copy.log.items copy.file.items) (memory_bytes files.db)) }
    ensures kind { IfErr result (λ e. (e ≡ Unread.Memory) ⊎ (e ≡ Unread.Broken)) }
    ensures cause { IfErr result IsCause }
{
    let connection = connect(alloc, copy)?;
    match connection.close_files() {
        Ok(files) => {
            let log = files.log.into_file();
            let db = files.db.into_file();
            Ok(Files { log, db })
        }
        Err((error, store)) => Err(unread(error, &store.close())),
    }
}

/// Whether neither the file nor its log has a byte. An error is that of the device.
fn are_empty<D: Disk>(files: &mut Files<D>) -> io::Result<bool>
    requires log { IsTrue (D.Disk.is_usable files.old.log) }
    requires file { IsTrue (D.Disk.is_usable files.old.db) }
    ensures empty { IfOk result (λ empty. IsTrue empty → AreClean D.Disk files.new.log files.new.db
        → IsEmptied D.Disk files.new) }
    ensures usable { IsTrue (D.Disk.is_usable files.new.log) × IsTrue (D.Disk.is_usable files.new.db) }
    ensures stays { Stays D.Disk files.old files.new }
{
    Ok(files.db.len()? == 0 && files.log.len()? == 0)
}

/// Writes the bytes of a new file, and waits until they are safe. On a disk that returns what was written, the file has
/// these bytes then, its log has none, and a crash leaves nothing else. After `Failed` the file may have a beginning of
/// them.
pub fn fill<D: Disk>(files: &mut Files<D>, bytes: &[u8]) -> Result<(), Unmade>
    requires log { IsTrue (D.Disk.is_usable files.old.log) }
    requires file { IsTrue (D.Disk.is_usable files.old.db) }
    ensures safe { OnOk result (AreClean D.Disk files.new.log files.new.db
        → LeavesOnly (outcomes D.Disk files.new.log files.new.db) (image [] bytes.now)) }
    ensures empty { OnOk result (AreClean D.Disk files.new.log files.new.db → IsEmptied D.Disk files.old) }
    ensures filled { IfErr result (λ e. e ≡ Unmade.Filled → Stays D.Disk files.old files.new) }
{
    match are_empty(files) {
        Ok(true) => match write(files, bytes) {
            Ok(()) => Ok(()),
            Err(_) => {
                clear(files);
                Err(Unmade::Failed)
            }
        },
        Ok(false) => Err(Unmade::Filled),
        Err(_) => Err(Unmade::Failed),
    }
}

/// Writes the bytes of a file that has none, beside a log that has none. An error is that of the device.
fn write<D: Disk>(files: &mut Files<D>, bytes: &[u8]) -> io::Result<()>
    requires log { IsTrue (D.Disk.is_usable files.old.log) }
    requires file { IsTrue (D.Disk.is_usable files.old.db) }
    requires empty { AreClean D.Disk files.old.log files.old.db → IsEmptied D.Disk files.old }
    ensures safe { OnOk result (AreClean D.Disk files.new.log files.new.db
        → LeavesOnly (outcomes D.Disk files.new.log files.new.db) (image [] bytes.now)) }
    ensures was { OnOk result (AreClean D.Disk files.new.log files.new.db → IsEmptied D.Disk files.old) }
{
    files.log.sync()?;
    files.db.write_at(0, bytes)?;
    files.db.sync()?;
    Ok(())
}

/// Takes away what was written, as far as the device lets it.
fn clear<D: Disk>(files: &mut Files<D>) {
    if files.db.may_be_used() {
        let _ = files.db.set_len(0);
    }
}
