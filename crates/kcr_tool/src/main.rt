//! The program `kcr`: the register of root zone key ceremonies, answered over HTTP.
//!
//! `kcr run` answers the stream of requests on standard input on standard output, `kcr serve` those of connections to a
//! port; `print`, `attendance`, `custody`, `export`, `journal`, `audit` and `verify` tell of a register, `rebuild` makes
//! a new one of its commands, and `pack` one file of its files. Each works over a register in memory, which is empty at
//! first, or over a file.
#![tactic(auto)]

ghost use Rattle.std.specs.Prelude.{◌≡◌, ◌⊎◌, ◌≤◌};

mod act;
mod audit;
mod invalid;
mod listen;
mod opening;
mod pack;
mod place;
mod tasks;
mod verify;

use act::act;
use kcr_base::Counted;
use sqlite::Unknown;
use std::process::ExitCode;
use std::{env, io};

// The words of the command line, the first of which is the program's name.
fn words_of(rt: &HostRuntime) -> io::Result<Vec<String>> {
    let mut words = Vec::new(rt.alloc());
    for word in env::args(rt)? {
        words.push(word)?;
    }
    Ok(words)
}

// Does what the words say.
fn act_on(rt: &HostRuntime, words: &[String]) -> u8
    ensures { result ≤ 2 }
{
    let mut input = Counted::new(rt.stdin());
    let mut output = Counted::new(rt.stdout());
    let mut faults = Counted::new(rt.stderr());
    act(rt, Unknown, words, &mut input, &mut output, &mut faults)
}

// The status if the words could not be read: a word is not UTF-8, or memory ran out.
fn without_words(rt: &HostRuntime, error: io::Error) -> u8
    ensures { (result ≡ 1) ⊎ (result ≡ 2) }
{
    match error.kind() {
        io::ErrorKind::InvalidData => {
            let _ = eprintln!(rt; "error: a word is not UTF-8");
            2
        }
        _ => {
            let _ = eprintln!(rt; "fault: memory");
            1
        }
    }
}

fn main(rt: HostRuntime) -> ExitCode {
    let status = match words_of(&rt) {
        Ok(words) => act_on(&rt, &words),
        Err(error) => without_words(&rt, error),
    };
    ExitCode::from(status)
}
