//! A file in memory that notes whether a write to it has failed.
ghost use Rattle.std.specs.Prelude.{◌≡◌};
ghost use Rattle.std.proofs.Common.{inl, refl};
ghost use Rattle.kcr_edges.specs.Noted.{file_of};

use sqlite_disk::{Disk, Memory, Tally};
use std::io;

/// A file of a copy, in memory: it passes each call on, and notes if a write, a change of the length or a sync fails. The
/// engine tells each of these as the disk's fault; of a file in memory they fail only if memory ran out.
#[derive(Drop)]
pub struct CopyFile {
    file: Memory,
    has_failed: bool,
}

impl CopyFile {
    /// A file of which no call has failed yet.
    pub(crate) fn new(file: Memory) -> CopyFile
        ensures { file_of result ≡ file }
    {
        CopyFile {
            file,
            has_failed: false,
        }
    }

    /// The file itself.
    pub(crate) fn into_file(self) -> Memory
        ensures { result ≡ file_of self }
    {
        self.file
    }

    /// Whether a write has failed.
    pub(crate) fn has_failed(&self) -> bool {
        self.has_failed
    }
}

/// Notes that a call failed, if it did.
fn note(has_failed: &mut bool, outcome: &io::Result<()>) {
    *has_failed = *has_failed || outcome.is_err();
}

impl Disk for CopyFile {
    ghost seen = { λ n. ⟦<Memory as Disk>⟧.seen n.file };

    ghost may_leave = { λ n. ⟦<Memory as Disk>⟧.may_leave n.file };

    ghost is_usable = { λ n. ⟦<Memory as Disk>⟧.is_usable n.file };

    ghost faults = { λ n. ⟦<Memory as Disk>⟧.faults n.file };

    ghost tally_of = { λ n. ⟦<Memory as Disk>⟧.tally_of n.file };

    ghost is_rotten = { λ n. ⟦<Memory as Disk>⟧.is_rotten n.file };

    ghost is_frozen = { λ n. ⟦<Memory as Disk>⟧.is_frozen n.file };

    ghost is_clean = { λ n. ⟦<Memory as Disk>⟧.is_clean n.file };

    ghost key_of = { λ n. ⟦<Memory as Disk>⟧.key_of n.file };

    ghost is_fair = { λ n. ⟦<Memory as Disk>⟧.is_fair n.file };

    ghost fair_if_clean = { λ _ _ _. refl };

    ghost seen_may_stay = { λ _. inl refl };

    ghost is_mixing = { λ n. ⟦<Memory as Disk>⟧.is_mixing n.file };

    fn mixes(&self) -> bool {
        self.file.mixes()
    }

    fn key(&self) -> u64 {
        self.file.key()
    }

    fn tally(&self) -> Tally {
        self.file.tally()
    }

    fn may_be_used(&self) -> bool {
        self.file.may_be_used()
    }

    fn len(&mut self) -> io::Result<usize> {
        self.file.len()
    }

    fn read_at(&mut self, at: usize, buf: &mut [u8]) -> io::Result<()> {
        self.file.read_at(at, buf)
    }

    fn read_checked(&mut self, key: u64, want: u64, at: usize, buf: &mut [u8]) -> io::Result<()> {
        self.file.read_checked(key, want, at, buf)
    }

    fn write_at(&mut self, at: usize, bytes: &[u8]) -> io::Result<()> {
        let outcome = self.file.write_at(at, bytes);
        note(&mut self.has_failed, &outcome);
        outcome
    }

    fn set_len(&mut self, len: usize) -> io::Result<()> {
        let outcome = self.file.set_len(len);
        note(&mut self.has_failed, &outcome);
        outcome
    }

    fn sync(&mut self) -> io::Result<()> {
        let outcome = self.file.sync();
        note(&mut self.has_failed, &outcome);
        outcome
    }
}
