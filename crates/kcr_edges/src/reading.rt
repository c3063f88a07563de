//! A register's file and its log, read into memory.
ghost use Rattle.std.specs.Prelude.{IfOk, IfErr};
ghost use Rattle.kcr_log.specs.Damage.{IsJudged};
ghost use Rattle.kcr_edges.specs.Unread.{IsCause};

use crate::files::{
    begins_still, beside, bytes_of, database_of, has_journal, is_still, unless_missing,
};
use kcr_log::{HEAD_SIZE, Log, judge};
use std::fs;
use std::io::{self, ErrorKind};

/// How often two files are read that change meanwhile.
const TIMES: u32 = 10;

/// Why a register's file is not read.
#[derive(Clone, Copy)]
pub enum Unread {
    /// Memory ran out.
    Memory,
    /// The file or its log could not be opened, or is no file that a register is in.
    Closed,
    /// One of them could not be read, changed at each of ten readings, or what it holds is no database.
    Broken,
    /// The log was damaged after it was safe, or its file is missing.
    Damaged(Log),
}

/// The bytes of a register's file and of the log beside it, as they were at one moment.
#[derive(Drop)]
pub struct Copied {
    /// The bytes of the file; empty if it is missing.
    pub file: Vec<u8>,
    /// The bytes of its log; empty if it is missing.
    pub log: Vec<u8>,
    /// Whether the file is there.
    pub is_there: bool,
}

/// Reads the file, then its log, then the file again and the head of the log: `None` if one of them differs.
///
/// Where none does, the file was the same while the log was read, and the log is one, since each emptying of it writes
/// another salt into its head. A log is only added to, behind the last transaction that is safe, and its reading stops
/// at the first frame that is not whole. So what was read is the register as it was after one of its commands.
fn read_once(rt: &HostRuntime, path: &str) -> io::Result<Option<Copied>> {
    let name = beside(rt, path, "-wal")?;
    let file = database_of(rt, path)?;
    let log = bytes_of(rt, name.as_str())?.unwrap_or(Vec::new(rt.alloc()));
    let is_there = file.is_some();
    let file = file.unwrap_or(Vec::new(rt.alloc()));
    let head = log.len().min(HEAD_SIZE);
    if !is_still(rt, path, &file)? || !begins_still(rt, name.as_str(), &log[..head])? {
        return Ok(None);
    }
    Ok(Some(Copied {
        file,
        log,
        is_there,
    }))
}

/// Reads until nothing changes meanwhile, up to ten times. Links are followed to the file; its log is beside it.
fn read_steadily(rt: &HostRuntime, path: &str) -> io::Result<Option<Copied>> {
    let real = unless_missing(fs::canonicalize(rt, path))?;
    let real = match &real {
        Some(real) => real.as_str(),
        None => path,
    };
    if has_journal(rt, real)? {
        return Err(ErrorKind::Unsupported.into());
    }
    for _ in 0..TIMES {
        if let Some(copy) = read_once(rt, real)? {
            return Ok(Some(copy));
        }
    }
    Ok(None)
}

/// Why nothing was read, by the error.
fn unread_by(error: io::Error) -> Unread
    ensures { IsCause result }
{
    match error.kind() {
        ErrorKind::OutOfMemory => Unread::Memory,
        ErrorKind::InvalidData => Unread::Broken,
        _ => Unread::Closed,
    }
}

/// Reads a register's file and its log, and says what the log is.
fn judged(rt: &HostRuntime, path: &str) -> Result<(Copied, Log), Unread>
    ensures judged { IfOk result (λ both. IsJudged both.0.file.items both.0.log.items both.1) }
    ensures cause { IfErr result IsCause }
{
    match read_steadily(rt, path) {
        Ok(Some(copy)) => {
            let log = judge(&copy.file, &copy.log);
            Ok((copy, log))
        }
        Ok(None) => Err(Unread::Broken),
        Err(error) => Err(unread_by(error)),
    }
}

/// Whether two readings found the same damage, whatever was written behind it between them.
fn is_same(one: Log, two: Log) -> bool {
    match (one, two) {
        (Log::WrongFrame { first: one, .. }, Log::WrongFrame { first: two, .. }) => one == two,
        (Log::WrongHead { .. }, Log::WrongHead { .. }) => true,
        (Log::NoFile { .. }, Log::NoFile { .. }) => true,
        _ => false,
    }
}

/// Reads a register's file and its log into memory, as they were at one moment, also while another process writes
/// them. Nothing is written, and nothing stays open. The memory is that of the bytes of both. A log that was damaged
/// after it was safe, and one whose file is missing, is refused if two readings in a row find the same damage: of a log
/// that is written meanwhile, one reading may have an old part before a newer one.
///
/// No clause says what a file gives.
pub fn copy_of(rt: &HostRuntime, path: &str) -> Result<Copied, Unread>
    ensures sound { IfOk result (λ copy. IsJudged copy.file.items copy.log.items Log.Sound) }
    ensures cause { IfErr result IsCause }
{
    if path.is_empty() || path == ":memory:" || path.starts_with("file:") {
        return Err(Unread::Closed);
    }
    let mut last = Log::Sound;
    for _ in 0..TIMES {
        let (copy, log) = judged(rt, path)?;
        if let Log::Sound = log {
            return Ok(copy);
        }
        if is_same(last, log) {
            return Err(Unread::Damaged(log));
        }
        last = log;
    }
    Err(Unread::Broken)
}
