//! Streams whose reader or writer fails.
use crate::asserts::{holds, same};
use kcr_base::Counted;
use kcr_desk::{DeskFault, serve};
use kcr_store::Register;
use sqlite::Alter;
use std::alloc::Global;
use std::io;
use std::io::{ErrorKind, Read, Write};
use std::process::Abort;
use std::rt::HostRuntime;
use std::test::Fail;

/// Ann is to enter.
pub(crate) const ANN: &[u8] =
    b"POST /people HTTP/1.1\r\nHost: l\r\nContent-Length: 41\r\n\r\n{\"key\":\"k1\",\"who\":\"AA\",\"name\":\"Ann Abel\"}";

/// Who is there?
pub(crate) const LIST: &[u8] = b"GET /people HTTP/1.1\r\nHost: l\r\n\r\n";

/// The answer to the first command.
pub(crate) const ACCEPTED: &[u8] =
    b"HTTP/1.1 200 OK\r\ncontent-type: application/json\r\ncontent-length: 14\r\n\r\n{\"accepted\":1}";

/// Ann is there.
pub(crate) const LISTED: &[u8] =
    b"HTTP/1.1 200 OK\r\ncontent-type: application/json\r\ncontent-length: 54\r\n\r\n{\"people\":[{\"name\":\"Ann Abel\",\"roles\":[],\"who\":\"AA\"}]}";

/// It gives these bytes, and then it ends or fails.
#[derive(Drop)]
struct Front<'a> {
    bytes: &'a [u8],
    fails: bool,
}

impl Read for Front<'_> {
    fn read(&mut self, buf: &mut [u8]) -> io::Result<usize> {
        if self.fails && self.bytes.is_empty() {
            return Err(ErrorKind::BrokenPipe.into());
        }
        self.bytes.read(buf)
    }
}

/// It takes at most `width` bytes a call, and fails after N calls.
#[derive(Drop)]
pub(crate) struct Narrow {
    pub(crate) bytes: Vec<u8>,
    pub(crate) width: usize,
    pub(crate) left: usize,
}

impl Write for Narrow {
    fn write(&mut self, buf: &[u8]) -> io::Result<usize> {
        if self.left == 0 {
            return Err(ErrorKind::BrokenPipe.into());
        }
        let count = buf.len().min(self.width);
        self.bytes.extend_from_slice(&buf[..count])?;
        self.left -= 1;
        Ok(count)
    }

    fn flush(&mut self) -> io::Result<()> {
        Ok(())
    }
}

/// What a stream leaves: the bytes that were written, and the fault, if there was one.
#[derive(Drop)]
struct Left {
    bytes: Vec<u8>,
    fault: Option<DeskFault>,
}

/// Has the register answer a stream.
fn served<S: Alter>(
    alloc: Global,
    register: &mut Register<S>,
    front: Front<'_>,
    writer: Narrow,
) -> Left {
    let mut reader = Counted::new(front);
    let mut writer = Counted::new(writer);
    let fault = serve(alloc, &mut reader, &mut writer, register).err();
    let Narrow {
        bytes,
        width: _,
        left: _,
    } = writer.into_inner();
    Left { bytes, fault }
}

/// Has the register answer these bytes, and then the end of the stream or a fault of the reader, by one write of any
/// length each.
fn serve_bytes<S: Alter>(
    alloc: Global,
    register: &mut Register<S>,
    bytes: &[u8],
    fails: bool,
) -> Left {
    let writer = Narrow {
        bytes: Vec::new(alloc),
        width: 4096,
        left: 1,
    };
    served(alloc, register, Front { bytes, fails }, writer)
}

/// The one answer to a message, which is written at once.
pub(crate) fn answer<S: Alter>(
    alloc: Global,
    register: &mut Register<S>,
    message: &[u8],
) -> Vec<u8> {
    serve_bytes(alloc, register, message, false).bytes
}

/// Ann is there, and her command, sent again, gets the answer that it had.
fn is_entered<S: Alter>(rt: &impl Abort, alloc: Global, register: &mut Register<S>) {
    same(rt, &answer(alloc, register, LIST), LISTED);
    same(rt, &answer(alloc, register, ANN), ACCEPTED);
}

/// Enters Ann while the first N writes of one byte succeed: what was written is a prefix of the answer.
fn is_cut_off<S: Alter>(rt: &impl Abort, alloc: Global, register: &mut Register<S>, left: usize) {
    let writer = Narrow {
        bytes: Vec::new(alloc),
        width: 1,
        left,
    };
    let front = Front {
        bytes: ANN,
        fails: false,
    };
    let Left { bytes, fault } = served(alloc, register, front, writer);
    holds(rt, fault == Some(DeskFault::Write), "a fault of the writer");
    holds(rt, bytes.len() == left, "each write that succeeds");
    holds(
        rt,
        ACCEPTED.starts_with(&bytes),
        "a beginning of the answer",
    );
}

#[test]
fn each_write_fails(rt: HostRuntime) -> Result<(), Fail> {
    for left in 0..ACCEPTED.len() {
        let mut register = Register::in_memory(rt.alloc()).ok().ok_or("a register")?;
        is_cut_off(&rt, rt.alloc(), &mut register, left);
        is_entered(&rt, rt.alloc(), &mut register);
    }
    Ok(())
}

/// What is told before the reader fails, behind these bytes.
fn answers_before_the_fault<S: Alter>(
    rt: &impl Abort,
    alloc: Global,
    register: &mut Register<S>,
    bytes: &[u8],
    wanted: &[u8],
) {
    let left = serve_bytes(alloc, register, bytes, true);
    same(rt, &left.bytes, wanted);
    holds(
        rt,
        left.fault == Some(DeskFault::Read),
        "a fault of the reader",
    );
}

#[test]
fn a_read_fails(rt: HostRuntime) -> Result<(), Fail> {
    let mut register = Register::in_memory(rt.alloc()).ok().ok_or("a register")?;
    answers_before_the_fault(&rt, rt.alloc(), &mut register, b"", b"");
    answers_before_the_fault(&rt, rt.alloc(), &mut register, ANN, ACCEPTED);
    is_entered(&rt, rt.alloc(), &mut register);
    Ok(())
}
