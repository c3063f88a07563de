//! What breaks a register.
ghost use Rattle.std.specs.Prelude.{◌≡◌, ◌↔◌};
ghost use Rattle.sqlite.specs.declared.error.Error.TheVariants.{SqliteFailure};
ghost use Rattle.sqlite.specs.declared.error.ErrorCode.TheVariants.{DatabaseCorrupt, DiskFull, OutOfMemory};

use sqlite::{Error, ErrorCode};

/// What broke a register: what the request that was answered 34 met. A command is written to the files by its commit
/// alone, so whatever is met before that is a read.
#[derive(Clone, Copy)]
pub enum Breakage {
    /// A commit found no room on the disk, or in a quota.
    NoRoom,
    /// A write or a sync failed in a commit.
    Writing,
    /// A read failed or gave other bytes than were written, or a row is invalid.
    Reading,
    /// Memory ran out in a commit, and again when the store was asked whether it still serves.
    Memory,
}

/// What a commit met, by the error of the engine.
pub(crate) fn breakage_of(error: Error) -> Breakage
    ensures no_room { (result ≡ Breakage.NoRoom) ↔ (error ≡ SqliteFailure DiskFull) }
    ensures reading { (result ≡ Breakage.Reading) ↔ (error ≡ SqliteFailure DatabaseCorrupt) }
    ensures memory { (result ≡ Breakage.Memory) ↔ (error ≡ SqliteFailure OutOfMemory) }
{
    match error {
        Error::SqliteFailure(ErrorCode::DiskFull) => Breakage::NoRoom,
        Error::SqliteFailure(ErrorCode::DatabaseCorrupt) => Breakage::Reading,
        Error::SqliteFailure(ErrorCode::OutOfMemory) => Breakage::Memory,
        _ => Breakage::Writing,
    }
}
