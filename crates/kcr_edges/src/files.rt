//! A register's file by its path, and those that lie beside it.

use std::fs::{self, File};
use std::io::{self, ErrorKind, Read};
use std::os::unix::fs::MetadataExt;

/// How many bytes are compared at a time.
const PIECE: usize = 65_536;

/// The first bytes of each database.
const MAGIC: &[u8; 16] = b"SQLite format 3\0";

/// The bytes of the largest page. A database that is still being made has no more.
const LARGEST_PAGE: u64 = 65_536;

/// The name of a file beside one, which ends in this.
pub(crate) fn beside(rt: &HostRuntime, path: &str, ending: &str) -> io::Result<String> {
    let mut name = String::from_str(rt.alloc(), path)?;
    name.push_str(ending)?;
    Ok(name)
}

/// Opens a regular file to be read. No other kind is opened, since a pipe would be waited for, and none that has a
/// second name, since its log lies beside one of them.
pub(crate) fn regular(rt: &HostRuntime, path: &str) -> io::Result<File> {
    let found = fs::symlink_metadata(rt, path)?;
    if !found.is_file() || found.nlink() != 1 {
        return Err(ErrorKind::Unsupported.into());
    }
    File::open(rt, path)
}

/// The result of a call on a file, or `None` if the file is missing.
pub(crate) fn unless_missing<T: Drop>(outcome: io::Result<T>) -> io::Result<Option<T>> {
    match outcome {
        Ok(value) => Ok(Some(value)),
        Err(error) if error.kind() == ErrorKind::NotFound => Ok(None),
        Err(error) => Err(error),
    }
}

/// All bytes of a file, or `None` if it is missing.
pub(crate) fn bytes_of(rt: &HostRuntime, path: &str) -> io::Result<Option<Vec<u8>>> {
    let Some(mut file) = unless_missing(regular(rt, path))? else {
        return Ok(None);
    };
    let mut bytes = Vec::new(rt.alloc());
    file.read_to_end(&mut bytes)?;
    Ok(Some(bytes))
}

/// All bytes of a database's file, or `None` if it is missing. A longer file than a page that does not begin as a
/// database is not read on: it is `InvalidData`.
pub(crate) fn database_of(rt: &HostRuntime, path: &str) -> io::Result<Option<Vec<u8>>> {
    let Some(mut file) = unless_missing(regular(rt, path))? else {
        return Ok(None);
    };
    let mut bytes = Vec::new(rt.alloc());
    if file.metadata()?.len() > LARGEST_PAGE {
        if !begins_with(&mut file, MAGIC)? {
            return Err(ErrorKind::InvalidData.into());
        }
        bytes.extend_from_slice(MAGIC)?;
    }
    file.read_to_end(&mut bytes)?;
    Ok(Some(bytes))
}

/// Whether the file begins with these bytes.
pub(crate) fn begins_with(file: &mut File, bytes: &[u8]) -> io::Result<bool> {
    let mut piece = [0u8; PIECE];
    let mut rest = bytes;
    while !rest.is_empty() {
        let most = rest.len().min(PIECE);
        let count = file.read(&mut piece[..most])?;
        if count == 0 || piece[..count] != rest[..count] {
            return Ok(false);
        }
        rest = &rest[count..];
    }
    Ok(true)
}

/// Whether the file has these bytes and no more. One that is missing has none.
pub(crate) fn is_still(rt: &HostRuntime, path: &str, bytes: &[u8]) -> io::Result<bool> {
    match unless_missing(regular(rt, path))? {
        Some(mut file) => {
            let mut more = [0];
            Ok(begins_with(&mut file, bytes)? && file.read(&mut more)? == 0)
        }
        None => Ok(bytes.is_empty()),
    }
}

/// Whether the first bytes of a file, as many as these, are these. One that is missing has none.
pub(crate) fn begins_still(rt: &HostRuntime, path: &str, front: &[u8]) -> io::Result<bool> {
    match unless_missing(regular(rt, path))? {
        Some(mut file) => begins_with(&mut file, front),
        None => Ok(front.is_empty()),
    }
}

/// Whether a rollback journal lies beside the file, which has to be played back first. One that is empty or begins
/// with a zero has nothing to play back.
pub(crate) fn has_journal(rt: &HostRuntime, path: &str) -> io::Result<bool> {
    let name = beside(rt, path, "-journal")?;
    match unless_missing(regular(rt, name.as_str()))? {
        Some(mut journal) => {
            let mut first = [0];
            Ok(journal.read(&mut first)? == 1 && first[0] != 0)
        }
        None => Ok(false),
    }
}
