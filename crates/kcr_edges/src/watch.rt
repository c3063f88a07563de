//! The files of an open register, as the system shows them.
ghost use Rattle.std.specs.Prelude.{◌≡◌, IfOk, string_bytes};

use crate::watched::Files;
use kcr_log::{FRAME_HEAD_SIZE, HEAD_SIZE, is_begun_anew, number_at};
use std::cell::Cell;
use std::fs::{self, File, Metadata};
use std::io::{self, ErrorKind};
use std::os::unix::fs::{FileExt, MetadataExt};

/// Which file it is: the numbers of its device and of its inode (`st_dev` and `st_ino` of POSIX).
type Identity = (u64, u64);

fn identity_of(found: &Metadata) -> Identity {
    (found.dev(), found.ino())
}

/// What was seen of a log: its head, and its last frame before the end of the last transaction.
#[derive(Clone, Copy)]
struct Seen {
    head: [u8; HEAD_SIZE],
    /// Where the frame begins, 0 if there is none.
    place: u64,
    frame: [u8; FRAME_HEAD_SIZE],
}

impl Seen {
    /// Where the next frame begins.
    fn next_place(&self) -> u64 {
        if self.place == 0 {
            return HEAD_SIZE as u64;
        }
        let page_size = number_at(&self.head, 8) as u64;
        self.place
            .saturating_add(FRAME_HEAD_SIZE as u64 + page_size)
    }

    /// Whether a frame has the salts of the head. One of an earlier log has others, and so has one of a transaction
    /// that has not ended.
    fn has_salts(&self, frame: &[u8; FRAME_HEAD_SIZE]) -> bool {
        frame[8..16] == self.head[16..24]
    }
}

/// The bytes at a place of a file, or `None` if the file ends before them.
fn bytes_at<const SIZE: usize>(file: &File, place: u64) -> io::Result<Option<[u8; SIZE]>> {
    let mut bytes = [0u8; SIZE];
    match file.read_exact_at(&mut bytes, place) {
        Ok(()) => Ok(Some(bytes)),
        Err(error) if error.kind() == ErrorKind::UnexpectedEof => Ok(None),
        Err(error) => Err(error),
    }
}

/// What is seen of a log whose head and first frames were seen already.
fn look_on(log: &File, seen: Seen) -> io::Result<Seen> {
    let mut last = seen;
    for _ in 0..u32::MAX {
        let place = last.next_place();
        match bytes_at::<FRAME_HEAD_SIZE>(log, place)? {
            Some(frame) if last.has_salts(&frame) => {
                last.place = place;
                last.frame = frame;
            }
            _ => break,
        }
    }
    Ok(last)
}

/// What is seen of a log that begins with a head.
fn look_anew(log: &File, head: [u8; HEAD_SIZE]) -> io::Result<Seen> {
    let first = Seen {
        head,
        place: 0,
        frame: [0; FRAME_HEAD_SIZE],
    };
    look_on(log, first)
}

/// What is seen of a log that is there for the first time. One without a head is `UnexpectedEof`.
fn first_seen(log: &File) -> io::Result<Seen> {
    match bytes_at::<HEAD_SIZE>(log, 0)? {
        Some(head) => look_anew(log, head),
        None => Err(ErrorKind::UnexpectedEof.into()),
    }
}

/// What is seen of a log now, or `None` if it is not the one that was seen: the head has changed as no checkpoint of
/// the register changes it, or the last frame that was seen is another one.
fn look_again(log: &File, seen: &Seen) -> io::Result<Option<Seen>> {
    let Some(head) = bytes_at::<HEAD_SIZE>(log, 0)? else {
        return Ok(None);
    };
    if head != seen.head {
        if is_begun_anew(&seen.head, &head) {
            return Ok(Some(look_anew(log, head)?));
        }
        return Ok(None);
    }
    if seen.place > 0 && bytes_at::<FRAME_HEAD_SIZE>(log, seen.place)? != Some(seen.frame) {
        return Ok(None);
    }
    Ok(Some(look_on(log, *seen)?))
}

/// A file by its path, as it was when it was last looked at.
#[derive(Drop)]
struct Sight {
    path: String,
    identity: Identity,
    /// Its length in bytes. An open register never makes it shorter.
    size: Cell<u64>,
}

impl Sight {
    /// The file of this path, of which the system tells this.
    fn new(path: String, found: &Metadata) -> Sight
        ensures { result.path ≡ path }
    {
        Sight {
            path,
            identity: identity_of(found),
            size: Cell::new(found.len()),
        }
    }

    /// Whether the path still leads to the same file, and it is no shorter.
    fn is_there(&self, rt: &HostRuntime) -> io::Result<bool> {
        let found = fs::metadata(rt, self.path.as_str())?;
        let is_whole = found.len() >= self.size.get();
        self.size.set(found.len());
        Ok(is_whole && identity_of(&found) == self.identity)
    }
}

/// The file of an open register and the log beside it.
#[derive(Drop)]
pub struct Watch<'a> {
    rt: &'a HostRuntime,
    /// The file by its path as it was named.
    file: Sight,
    /// The log. It is beside the file to which links lead.
    log: Sight,
    /// The log itself.
    opened: File,
    /// What was seen of the log when it was last looked at.
    seen: Cell<Seen>,
    is_lost: Cell<bool>,
}

impl<'a> Watch<'a> {
    /// Watches the files of the register that was just opened at this path. Errors: those of the system, and out of
    /// memory.
    pub fn over(rt: &'a HostRuntime, path: &str) -> io::Result<Watch<'a>>
        ensures { IfOk result (λ watch. string_bytes watch.file.path ≡ path.now) }
    {
        let file = String::from_str(rt.alloc(), path)?;
        let mut log = fs::canonicalize(rt, path)?.into_string();
        log.push_str("-wal")?;
        let file = Sight::new(file, &fs::metadata(rt, path)?);
        let opened = File::open(rt, log.as_str())?;
        let log = Sight::new(log, &opened.metadata()?);
        let seen = first_seen(&opened)?;
        Ok(Watch {
            rt,
            file,
            log,
            opened,
            seen: Cell::new(seen),
            is_lost: Cell::new(false),
        })
    }

    /// Whether both paths still lead to the files that were opened, and neither is shorter.
    fn has_files(&self) -> io::Result<bool> {
        Ok(self.file.is_there(self.rt)? && self.log.is_there(self.rt)?)
    }

    /// Whether the log has all transactions that it had, or was begun anew by the register since.
    fn has_log(&self) -> io::Result<bool> {
        match look_again(&self.opened, &self.seen.get())? {
            Some(seen) => {
                self.seen.set(seen);
                Ok(true)
            }
            None => Ok(false),
        }
    }

    /// Whether a file was missing, shorter or another one when an answer was to be written.
    pub fn is_lost(&self) -> bool {
        self.is_lost.get()
    }
}

impl Files for &Watch<'_> {
    fn are_there(&mut self) -> bool {
        let is_there = self.has_files().unwrap_or(false) && self.has_log().unwrap_or(false);
        if !is_there {
            self.is_lost.set(true);
        }
        is_there
    }
}
