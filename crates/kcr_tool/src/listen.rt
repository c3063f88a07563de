//! Answering requests on a port.
ghost use Rattle.std.specs.Prelude.{◌≡◌, ◌⊎◌, IfOk, IfErr, OnOk, OnErr, false};
ghost use Rattle.sqlite.specs.{Files.over_files, Held.state, State.HasCleanDisk, WalFiles.image_at};
ghost use Rattle.kcr_desk.specs.Connections.{Connects};
ghost use Rattle.kcr_desk.specs.Streams.{WritesNothing, WritesPart, WritesText, writing};
ghost use Rattle.kcr_fault.specs.{Faults.StopsListening, Faults.StopsOpening, Faults.StopsServing, Lines.listening_line};
ghost use Rattle.kcr_history.specs.History.{History};
ghost use Rattle.kcr_store.specs.{Opening.FilesHoldHistory, Register.RegisterHistory, Register.StandsAt, Register.whole};
ghost use Rattle.kcr_tool.specs.Runs.{ConnectsUpTo, ServesTo};

use crate::opening::{open_file, watch_over};
use itoa::Buffer;
use kcr_arguments::Serving;
use kcr_base::{Counted, Refusal};
use kcr_desk::one;
use kcr_edges::{Accepted, Patience, TimedReader, TimedWriter, Watch, Watched};
use kcr_fault::{Call, Fault, around};
use kcr_print::write_whole;
use kcr_store::{FileRegister, Register};
use sqlite::{Alter, Start};
use std::alloc::Global;
use std::io::{Read, Write};
use std::net::{Ipv4Addr, TcpListener, TcpStream};
use std::os::fd::AsRawFd;

/// Whether the register's file was found to be gone. A register in memory has none.
fn is_lost(watch: Option<&Watch<'_>>) -> bool {
    match watch {
        Some(watch) => watch.is_lost(),
        None => false,
    }
}

/// Serves a connection by `one`, of whose bytes nothing is known.
fn serve_one<R: Read, W: Write, S: Alter>(
    alloc: Global,
    input: &mut Counted<R>,
    output: &mut Counted<W>,
    register: &mut Register<S>,
)
    ensures connects { Connects S.Store register.old register.new 1 }
{
    one(alloc, input, output, register);
}

/// Serves a connection that was accepted. Once the register's file is gone no answer is written. Without a
/// clock no connection is served.
fn serve_stream<S: Alter>(
    rt: &HostRuntime,
    stream: &TcpStream,
    serving: Serving,
    watch: Option<&Watch<'_>>,
    register: &mut Register<S>,
) -> Result<(), Fault>
    ensures connects { Connects S.Store register.old register.new 1 }
    ensures broken { IfErr result (StopsListening register.new) }
    ensures whole { register.old.is_broken ≡ false → OnOk result (register.new.is_broken ≡ false) }
{
    let Ok(socket) = Accepted::new(rt, stream) else {
        return Err(Fault::Net(Call::Accepting));
    };
    let patience = Patience::new(serving.idle, serving.longest);
    let mut input = Counted::new(TimedReader::new(socket, &patience));
    let writer = TimedWriter::new(socket, &patience);
    let mut output = Counted::new(Watched::new(writer, watch));
    serve_one(rt.alloc(), &mut input, &mut output, register);
    if is_lost(watch) {
        return Err(Fault::Lost);
    }
    match register.breakage() {
        Some(why) => Err(Fault::Broken(why)),
        None => Ok(()),
    }
}

/// Serves connections, one after the other, and returns how many were served.
fn serve_each<S: Alter>(
    rt: &HostRuntime,
    listener: &TcpListener,
    serving: Serving,
    watch: Option<&Watch<'_>>,
    register: &mut Register<S>,
) -> Result<u32, Fault>
    ensures served { IfOk result (λ served. served ≡ serving.connections) }
    ensures connects { ConnectsUpTo S.Store serving.connections register.old register.new result }
    ensures cause { IfErr result (StopsListening register.new) }
    ensures whole { register.old.is_broken ≡ false → OnOk result (register.new.is_broken ≡ false) }
{
    let mut served = 0;
    while served < serving.connections {
        let Ok((stream, _)) = listener.accept() else {
            return Err(Fault::Net(Call::Accepting));
        };
        serve_stream(rt, &stream, serving, watch, register)?;
        served += 1;
    }
    Ok(served)
}

/// Listens on a port of 127.0.0.1, says so in a line, and serves connections, one after the other. It ends once the
/// register's file is gone.
///
/// A register of the machine stays one over all connections: `leads_follow` of `kcr_desk`.
pub fn listen<S: Alter, W: Write>(
    rt: &HostRuntime,
    serving: Serving,
    watch: Option<&Watch<'_>>,
    register: &mut Register<S>,
    output: &mut Counted<W>,
) -> Result<u32, Fault>
    ensures served { IfOk result (λ served. (served ≡ serving.connections)
        × WritesText (writing W.contents output.old output.new) (listening_line serving.port)) }
    ensures part { OnErr result (WritesNothing (writing W.contents output.old output.new)
        ⊎ WritesPart (writing W.contents output.old output.new) (listening_line serving.port)) }

    // The register has the commands of the connections' messages, one connection after the other, and no other.
    ensures connects { ConnectsUpTo S.Store serving.connections register.old register.new result }
    ensures cause { IfErr result (StopsServing register.new (writing W.contents output.old output.new)) }
    ensures whole { register.old.is_broken ≡ false → OnOk result (register.new.is_broken ≡ false) }
{
    let Ok(listener) = TcpListener::bind(rt, (Ipv4Addr::LOCALHOST, serving.port)) else {
        return Err(Fault::Net(Call::Binding));
    };
    // The kit's listener lets 128 connections wait. Listening once more, it lets as many wait as the system allows.
    let _ = libc::net::listen(listener.as_raw_fd(), i32::MAX);
    let Ok(line) = around(
        rt.alloc(),
        "listening 127.0.0.1:",
        Buffer::new().format(serving.port),
        "\n",
    ) else {
        return Err(Fault::Refused(Refusal::Memory));
    };
    match write_whole(output, line.as_bytes()) {
        Ok(()) => serve_each(rt, &listener, serving, watch, register),
        Err(_) => Err(Fault::Unwritten),
    }
}

/// What connections to a register in a file came to: the register, and how many were served, or a fault.
pub type FileService<F> = (FileRegister<F>, Result<u32, Fault>);

/// Opens the register in a file, and serves connections to a port by it: see `listen`. `start` stands for what the
/// file and its log held, which no code can read. The register is handed out, since what its disk does is known at its
/// end only. The faults are those of an opening.
pub fn serve_file<B: Start, W: Write>(
    rt: &HostRuntime,
    path: &str,
    start: B,
    serving: Serving,
    output: &mut Counted<W>,
) -> Result<FileService<B>, Fault>
    // Of whatever history the two held the tables: as long as the disk returns what was written, some messages, a list
    // for each connection served, lead by a run of the machine from there to the history at which the register stands.
    ensures led { IfOk result (λ both. HasCleanDisk (state over_files both.0.conn) → (A : History)
        → FilesHoldHistory A (image_at B.Start)
        → (after : RegisterHistory) × StandsAt over_files after both.0
        × ServesTo (whole A) after serving.connections both.1) }

    // Whatever they held, the line of the port is written if all connections were served.
    ensures served { IfOk result (λ both. IfOk both.1 (λ served. (served ≡ serving.connections)
        × WritesText (writing W.contents output.old output.new) (listening_line serving.port))) }
    ensures part { IfOk result (λ both. OnErr both.1 (WritesNothing (writing W.contents output.old output.new)
        ⊎ WritesPart (writing W.contents output.old output.new) (listening_line serving.port))) }
    ensures cause { IfOk result (λ both. IfErr both.1
        (StopsServing both.0 (writing W.contents output.old output.new))) }
    ensures unopened { IfErr result (λ why. StopsOpening why × (output.new ≡ output.old)) }
{
    let mut register = open_file(rt, path, start)?;
    let watch = watch_over(rt, path)?;
    let served = listen(rt, serving, Some(&watch), &mut register, output);
    Ok((register, served))
}
