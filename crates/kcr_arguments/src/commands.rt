//! The command line of the program, as `clap` takes it, with what its help says.
ghost use Rattle.std.specs.Prelude.{◌≡◌, false, fold, IfOk};
ghost use Rattle.clap.specs.{Words.app_of, declared.builder.command.Command.TheViews.out-Command};
ghost use Rattle.kcr_arguments.specs.Commands.{app_in, root_app, tool_app, with_option, with_sub};

use clap::builder::ValueParser;
use clap::{Arg, ArgAction, Command};
use kcr_base::{MAX_CEREMONY, MAX_COMMANDS};
use std::alloc::{AllocError, Global};

/// The version of the program, and the logic that it is proved by.
const VERSION: &str = "1.0.0 (rattle logic dac8208d650f15bf)";

/// An option of a subcommand.
#[derive(Clone, Copy)]
struct CommandOption {
    name: &'static str,
    /// What the help calls its value; a flag has none.
    values: &'static [&'static str],
    action: ArgAction,
    parser: ValueParser<'static>,
    is_required: bool,
    help: &'static str,
}

/// A subcommand over a register, and what its help says.
#[derive(Clone, Copy)]
struct Subcommand {
    name: &'static str,
    about: &'static str,
    example: &'static str,
    /// Its own options, which stand between `--file` and `--explain`.
    options: &'static [CommandOption],
}

/// What the flags have in common.
const FLAG: CommandOption = CommandOption {
    name: "",
    values: &[],
    action: ArgAction::SetTrue,
    parser: ValueParser::Bool,
    is_required: false,
    help: "",
};

/// What the options with a number have in common.
const NUMBER: CommandOption = CommandOption {
    values: &["N"],
    action: ArgAction::Set,
    ..FLAG
};

static FILE: CommandOption = CommandOption {
    name: "file",
    values: &["FILE"],
    action: ArgAction::Set,
    parser: ValueParser::String,
    is_required: false,
    help: "Names the register's file; without it the register is in memory, and empty at first",
};

const INTO: CommandOption = CommandOption {
    name: "into",
    values: &["FILE"],
    action: ArgAction::Set,
    parser: ValueParser::String,
    is_required: true,
    help: "Names the file of the new register, which must be missing or empty",
};

const EXISTING: CommandOption = CommandOption {
    name: "existing",
    help: "Opens the file only if it exists, and creates none",
    ..FLAG
};

static EXPLAIN: CommandOption = CommandOption {
    name: "explain",
    help: "Writes a second line that names what failed, and notes before a refusal",
    ..FLAG
};

const PORT: CommandOption = CommandOption {
    name: "port",
    parser: ValueParser::Unsigned(1, 65_535),
    is_required: true,
    help: "Names the port, 1 to 65535",
    ..NUMBER
};

const CONNECTIONS: CommandOption = CommandOption {
    name: "connections",
    parser: ValueParser::Unsigned(1, 1_000_000),
    is_required: true,
    help: "Ends the program after N connections, 1 to 1000000",
    ..NUMBER
};

const IDLE: CommandOption = CommandOption {
    name: "idle",
    values: &["SECONDS"],
    parser: ValueParser::Unsigned(1, 300),
    help: "Ends a connection that is silent for so long between two messages, 1 to 300 seconds; without it 5",
    ..NUMBER
};

const LONGEST: CommandOption = CommandOption {
    name: "longest",
    values: &["SECONDS"],
    parser: ValueParser::Unsigned(1, 86_400),
    help: "Ends a connection that lasts longer, 1 to 86400 seconds; without it 300",
    ..NUMBER
};

/// The ceremony that a report is about.
const CEREMONY: CommandOption = CommandOption {
    name: "ceremony",
    parser: ValueParser::Unsigned(1, MAX_CEREMONY as u64),
    is_required: true,
    help: "Names the ceremony, 1 to 9999",
    ..NUMBER
};

/// The ceremony to which a report may be confined.
const ONLY_CEREMONY: CommandOption = CommandOption {
    is_required: false,
    help: "Prints only the commands that name this ceremony, 1 to 9999; without it all",
    ..CEREMONY
};

const AFTER: CommandOption = CommandOption {
    name: "after",
    parser: ValueParser::Unsigned(0, MAX_COMMANDS as u64),
    help: "Leaves out the first N commands, 0 to 4000000000; without it none",
    ..NUMBER
};

const UNTIL: CommandOption = CommandOption {
    name: "until",
    help: "Stops after command N, 0 to 4000000000; without it after the last",
    ..AFTER
};

static SUBCOMMANDS: [Subcommand; 11] = [
    Subcommand {
        name: "run",
        about: "Answers the HTTP requests on standard input on standard output",
        example: "Example: kcr run --file register.db < requests.http",
        options: &[EXISTING],
    },
    Subcommand {
        name: "serve",
        about: "Answers HTTP requests on a port of 127.0.0.1, one connection after the other",
        example: "Example: kcr serve --file register.db --port 8053 --connections 100",
        options: &[EXISTING, PORT, CONNECTIONS, IDLE, LONGEST],
    },
    Subcommand {
        name: "print",
        about: "Prints the annotated script of a ceremony",
        example: "Example: kcr print --file register.db --ceremony 61",
        options: &[CEREMONY],
    },
    Subcommand {
        name: "attendance",
        about: "Prints the attendance of a ceremony as comma separated values",
        example: "Example: kcr attendance --file register.db --ceremony 61",
        options: &[CEREMONY],
    },
    Subcommand {
        name: "custody",
        about: "Prints the safes, the bags with their items, and the loose items",
        example: "Example: kcr custody --file register.db",
        options: &[],
    },
    Subcommand {
        name: "export",
        about: "Prints the accepted commands as a stream of requests, which makes the register again",
        example: "Example: kcr export --file register.db > register.http",
        options: &[AFTER, UNTIL],
    },
    Subcommand {
        name: "journal",
        about: "Prints a line for each accepted command: its number, its moment or day, and what happened",
        example: "Example: kcr journal --file register.db --ceremony 61",
        options: &[ONLY_CEREMONY],
    },
    Subcommand {
        name: "audit",
        about: "Checks all rows against six rules",
        example: "Example: kcr audit --file register.db",
        options: &[],
    },
    Subcommand {
        name: "verify",
        about: "Replays the accepted commands and compares every reply and row",
        example: "Example: kcr verify --file register.db",
        options: &[],
    },
    Subcommand {
        name: "rebuild",
        about: "Replays the accepted commands into a new file, and compares every row",
        example: "Example: kcr rebuild --file register.db --into new.db",
        options: &[INTO],
    },
    Subcommand {
        name: "pack",
        about: "Packs the register's file and its log into one file, even while the register serves",
        example: "Example: kcr pack --file register.db --into packed.db",
        options: &[INTO],
    },
];

/// The command with one more option.
#[tactic(auto, unfolding(crate::specs::Commands::with_option))]
fn with_option<'a>(
    alloc: Global,
    command: Command<'a>,
    option: &CommandOption,
) -> Result<Command<'a>, AllocError>
    ensures app { IfOk result (λ c. app_of c ≡ with_option (app_of command.entry) option.now) }
    ensures local { (out-Command command.entry).has_globals ≡ false
        → IfOk result (λ c. (out-Command c).has_globals ≡ false) }
{
    let arg = Arg::new(alloc, option.name)
        .long(option.name)
        .value_names(option.values)
        .action(option.action)
        .value_parser(option.parser)
        .required(option.is_required)
        .help(option.help);
    command.arg(arg)
}

/// A subcommand with its options.
fn command_of<'a>(alloc: Global, subcommand: &Subcommand) -> Result<Command<'a>, AllocError>
    ensures app { IfOk result (λ c. app_of c ≡ app_in subcommand.now) }
    ensures local { IfOk result (λ c. (out-Command c).has_globals ≡ false) }
{
    let command = Command::new(alloc, subcommand.name)
        .about(subcommand.about)
        .after_help(subcommand.example);
    let mut command = with_option(alloc, command, &FILE)?;
    for option in subcommand.options {
        command = with_option(alloc, command, option)?;
    }
    with_option(alloc, command, &EXPLAIN)
}

/// The program without its subcommands.
fn root<'a>(alloc: Global) -> Command<'a>
    ensures { app_of result ≡ root_app }
{
    Command::new(alloc, "kcr")
        .version(VERSION)
        .about("The register of the DNSSEC root zone key ceremonies")
        .after_help("Example: kcr serve --file register.db --port 8053 --connections 100")
        .subcommand_required(true)
}

/// The program with one more subcommand.
#[tactic(auto, unfolding(crate::specs::Commands::with_sub))]
fn with_subcommand<'a>(
    alloc: Global,
    command: Command<'a>,
    subcommand: &Subcommand,
) -> Result<Command<'a>, AllocError>
    ensures { IfOk result (λ c. app_of c ≡ with_sub (app_of command.entry) subcommand.now) }
{
    command.subcommand(command_of(alloc, subcommand)?)
}

/// The program with these subcommands.
fn program<'a>(alloc: Global, subcommands: &[Subcommand]) -> Result<Command<'a>, AllocError>
    ensures { IfOk result (λ c. app_of c ≡ fold with_sub root_app subcommands.now) }
{
    let mut command = root(alloc);
    for subcommand in subcommands {
        command = with_subcommand(alloc, command, subcommand)?;
    }
    Ok(command)
}

/// The command line of the program. The error is out of memory.
pub fn tool<'a>(alloc: Global) -> Result<Command<'a>, AllocError>
    ensures { IfOk result (λ c. app_of c ≡ tool_app) }
{
    program(alloc, &SUBCOMMANDS)
}
