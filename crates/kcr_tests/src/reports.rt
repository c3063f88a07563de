//! Reports whose writer fails, and one of a broken register.
use crate::asserts::{holds, same};
use crate::streams::Narrow;
use kcr_base::{Counted, Refusal};
use kcr_print::{PrintFault, custody};
use kcr_store::Register;
use sqlite::Alter;
use std::alloc::Global;
use std::process::Abort;
use std::rt::HostRuntime;
use std::test::Fail;

/// Custody before anything happened.
const SHUT: &[u8] = b"safe 1 EAST shut\nsafe 2 EAST shut\nsafe 1 WEST shut\nsafe 2 WEST shut\n";

/// How long each line of it is, in bytes.
const LINE: usize = 17;

/// What a report leaves: the bytes that were written, and the fault, if there was one.
#[derive(Drop)]
struct Report {
    bytes: Vec<u8>,
    fault: Option<PrintFault>,
}

/// Prints custody while the first N writes succeed.
fn printed<S: Alter>(alloc: Global, register: &mut Register<S>, left: usize) -> Report {
    let mut writer = Counted::new(Narrow {
        bytes: Vec::new(alloc),
        width: 4096,
        left,
    });
    let fault = custody(alloc, register, &mut writer).err();
    let Narrow {
        bytes,
        width: _,
        left: _,
    } = writer.into_inner();
    Report { bytes, fault }
}

/// A report whose third line is not written leaves the two before it, and nothing else: the next one is whole.
#[test]
fn the_third_line_fails(rt: HostRuntime) -> Result<(), Fail> {
    let mut register = Register::in_memory(rt.alloc()).ok().ok_or("a register")?;
    let cut = printed(rt.alloc(), &mut register, 2);
    holds(
        &rt,
        matches!(cut.fault, Some(PrintFault::Write)),
        "a fault of the writer",
    );
    same(&rt, &cut.bytes, &SHUT[..2 * LINE]);
    let whole = printed(rt.alloc(), &mut register, 4);
    holds(&rt, whole.fault.is_none(), "no fault");
    same(&rt, &whole.bytes, SHUT);
    Ok(())
}

/// A broken register prints nothing.
#[test]
fn a_report_of_a_broken_register(rt: HostRuntime) -> Result<(), Fail> {
    let mut register = Register::in_memory(rt.alloc()).ok().ok_or("a register")?;
    register.mark_broken();
    let none = printed(rt.alloc(), &mut register, 4);
    holds(
        &rt,
        matches!(none.fault, Some(PrintFault::Refused(Refusal::Broken))),
        "a broken register",
    );
    same(&rt, &none.bytes, b"");
    Ok(())
}
