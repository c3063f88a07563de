//! The place of a file that a task makes.
ghost use Rattle.std.specs.Prelude.{◌≡◌, ◌≢◌, false};
ghost use Rattle.kcr_tool.specs.Places.{removal_after};

use kcr_fault::{Fault, Step};
use std::alloc::AllocError;
use std::fs;
use std::io::{self, ErrorKind};

/// The path of the log beside a file.
fn log_of(rt: &HostRuntime, path: &str) -> Result<String, AllocError> {
    format!(in rt.alloc(); "{}-wal", path)
}

/// Whether nothing is at a path, not even a link.
fn is_absent(rt: &HostRuntime, path: &str) -> bool {
    match fs::symlink_metadata(rt, path) {
        Ok(_) => false,
        Err(error) => error.kind() == ErrorKind::NotFound,
    }
}

/// What is at the path of a file that a task is to make.
#[derive(Clone, Copy)]
pub struct Place {
    has_file: bool,
    has_log: bool,
}

/// What is at a path and at that of the log beside it. Both are said to be there if memory runs out.
pub fn place_at(rt: &HostRuntime, path: &str) -> Place {
    match log_of(rt, path) {
        Ok(log) => Place {
            has_file: !is_absent(rt, path),
            has_log: !is_absent(rt, log.as_str()),
        },
        Err(_) => Place {
            has_file: true,
            has_log: true,
        },
    }
}

/// Whether a file has a byte. One that cannot be looked at may have.
fn has_bytes(rt: &HostRuntime, path: &str) -> bool {
    match fs::symlink_metadata(rt, path) {
        Ok(found) => found.is_file() && found.len() > 0,
        Err(error) => error.kind() != ErrorKind::NotFound,
    }
}

/// Takes away the log beside a new file, which its opening has made, unless the log has a byte.
pub fn remove_log(rt: &HostRuntime, path: &str) -> io::Result<()> {
    let real = fs::canonicalize(rt, path)?;
    let log = log_of(rt, real.as_str())?;
    if !has_bytes(rt, log.as_str()) {
        fs::remove_file(rt, log.as_str())?;
    }
    Ok(())
}

/// What is taken away once a task that was to make a file has ended.
#[derive(Clone, Copy)]
enum Removal {
    Nothing,
    File,
    FileAndLog,
}

/// What is taken away, by what was there before, whether the file has a byte, and how the task ended.
fn removal_after(before: Place, has_bytes: bool, ended: &Result<u8, Fault>) -> Removal
    ensures value { result ≡ removal_after before has_bytes ended.now }

    // What was there before stays.
    ensures file { result ≢ Removal.Nothing → before.has_file ≡ false }
    ensures log { result ≡ Removal.FileAndLog → before.has_log ≡ false }
{
    match ended {
        Ok(_) | Err(Fault::IntoFile(Step::Locking)) => Removal::Nothing,
        Err(_) if has_bytes || before.has_file => Removal::Nothing,
        Err(_) if before.has_log => Removal::File,
        Err(_) => Removal::FileAndLog,
    }
}

/// Takes away a file that was not there before.
fn remove_new_file(rt: &HostRuntime, path: &str, before: Place)
    requires { before.has_file ≡ false }
{
    let _ = fs::remove_file(rt, path);
}

/// Takes away the log beside a file, which was not there before.
fn remove_new_log(rt: &HostRuntime, path: &str, before: Place)
    requires { before.has_log ≡ false }
{
    if let Ok(log) = log_of(rt, path) {
        let _ = fs::remove_file(rt, log.as_str());
    }
}

/// Takes away the file that a task has made, and the log that it made beside it, if the task failed before the file had a
/// byte. What was there before stays, as does a file that another process has open.
pub fn take_back(rt: &HostRuntime, path: &str, before: Place, ended: &Result<u8, Fault>) {
    match removal_after(before, has_bytes(rt, path), ended) {
        Removal::Nothing => {}
        Removal::File => remove_new_file(rt, path, before),
        Removal::FileAndLog => {
            remove_new_log(rt, path, before);
            remove_new_file(rt, path, before);
        }
    }
}
