//! The words of the command line, and the task that they hold.
ghost use Rattle.std.specs.Prelude.{◌≡◌, ◌≢◌, ◌≤◌, [], true, false, Some, IfOk, IfErr, IfSome, option_map};
ghost use Rattle.clap.specs.Words.{rows_of, found_of, subcommand_rows_of};
ghost use Rattle.kcr_arguments.specs.Tasks.{IsLine, task_of, task_at, file_of, file_at, into_of, into_at, number_at};
ghost use Rattle.kcr_arguments.specs.Tasks.{ceremony_at, command_at, export_at, report_at, serve_at, met_in, flag_at};
ghost use Rattle.kcr_arguments.specs.Tasks.{idle_at, longest_at, is_existing, is_explained};
ghost use Rattle.kcr_arguments.specs.Tasks.{IsCompanion, faults_of, file_in, into_in, is_companion, names_companion, said};

use crate::commands::tool;
use clap::ArgMatches;
use clap::error::ErrorKind;
use kcr_base::{CeremonyNumber, MAX_CEREMONY, MAX_COMMANDS};
use std::alloc::Global;

/// For how many seconds a connection may be silent between two messages, unless the words say.
const IDLE: u32 = 5;

/// For how many seconds a connection may last in all, unless the words say.
const LONGEST: u32 = 300;

/// What is told of a register, which it leaves as it is.
#[derive(Clone, Copy)]
pub enum Report {
    /// The annotated script of the ceremony.
    Print(CeremonyNumber),
    /// The attendance of the ceremony.
    Attendance(CeremonyNumber),
    /// What lies where.
    Custody,
    /// The accepted commands behind the first number up to the second as requests.
    Export(u32, u32),
    /// A line for each accepted command, or for each that names the ceremony.
    Journal(Option<CeremonyNumber>),
    /// The first thing that is wrong in the rows of the register.
    Audit,
}

/// What a server serves.
#[derive(Clone, Copy)]
pub struct Serving {
    /// The port of 127.0.0.1, 1 to 65,535.
    pub port: u16,
    /// How many connections are served, 1 to 1,000,000.
    pub connections: u32,
    /// For how many seconds a connection may be silent between two messages, 1 to 300.
    pub idle: u32,
    /// For how many seconds a connection may last in all, 1 to 86,400.
    pub longest: u32,
}

/// What the program is to do.
#[derive(Clone, Copy)]
pub enum Task {
    /// Answers the stream of requests on standard input on standard output.
    Run,
    /// Answers requests on a port.
    Serve(Serving),
    /// Writes a report of a register.
    Write(Report),
    /// Sees whether the register is the one of its own commands.
    Verify,
    /// Makes a new register of its commands, and sees whether the two are the same.
    Rebuild,
    /// Makes one file of the register's file and its log.
    Pack,
}

/// What the words ask for.
#[derive(Clone, Copy)]
pub struct Order<'a> {
    pub task: Task,
    /// The file of the register, or `None` for a register in memory.
    pub file: Option<&'a str>,
    /// The file of the new register, if one is made.
    pub into: Option<&'a str>,
    /// Whether the file of the register is opened only if it exists.
    pub is_existing: bool,
    /// Whether lines on standard error are followed by what failed.
    pub is_explained: bool,
}

/// Why the words are no task.
#[derive(Drop)]
pub enum WordsFault {
    /// `clap` refuses the words, or they ask for help or the version: the lines that it says.
    Line(String),
    /// The name of the new register's file is one that sqlite gives to a file beside another.
    Companion,
    /// Memory ran out.
    Memory,
}

/// What `clap` makes of the words.
fn parse<'a>(alloc: Global, words: &'a [String]) -> Result<ArgMatches<'a>, WordsFault>
    ensures found { IfOk result (λ m. subcommand_rows_of m ≡ met_in (said words.entry.now)) }
    ensures taken { IfOk result (λ _. faults_of (said words.entry.now) ≡ []) }
    ensures line { IfErr result (λ e. IsLine e → faults_of (said words.entry.now) ≢ []) }
    ensures read { IfErr result (λ e. ¬ IsCompanion e) }
{
    let Ok(command) = tool(alloc) else {
        return Err(WordsFault::Memory);
    };
    match command.try_get_matches_from(words) {
        Ok(matches) => Ok(matches),
        Err(error) => match error.kind() {
            ErrorKind::OutOfMemory => Err(WordsFault::Memory),
            _ => match error.to_string(alloc) {
                Ok(text) => Err(WordsFault::Line(text)),
                Err(_) => Err(WordsFault::Memory),
            },
        },
    }
}

/// The number that an option was given, or `None` if it is not from `least` to `most`.
fn read_number(matches: &ArgMatches<'_>, name: &str, least: u32, most: u32) -> Option<u32>
    ensures number { result ≡ number_at least most name.now (rows_of (found_of matches.now)) }
    ensures range { IfSome result (λ number. (least ≤ number) × (number ≤ most)) }
{
    let number = matches.get_one::<u32>(name)?;
    if number < least || number > most {
        return None;
    }
    Some(number)
}

/// The ceremony that was named.
fn read_ceremony(matches: &ArgMatches<'_>) -> Option<CeremonyNumber>
    ensures { result ≡ ceremony_at (rows_of (found_of matches.now)) }
{
    CeremonyNumber::new(read_number(matches, "ceremony", 1, MAX_CEREMONY)?)
}

/// For how many seconds a connection may be silent between two messages, 5 if no number was named.
fn read_idle(matches: &ArgMatches<'_>) -> u32
    ensures number { result ≡ idle_at (rows_of (found_of matches.now)) }
    ensures range { (1 ≤ result) × (result ≤ 300) }
{
    read_number(matches, "idle", 1, 300).unwrap_or(IDLE)
}

/// For how many seconds a connection may last in all, 300 if no number was named.
fn read_longest(matches: &ArgMatches<'_>) -> u32
    ensures number { result ≡ longest_at (rows_of (found_of matches.now)) }
    ensures range { (1 ≤ result) × (result ≤ 86400) }
{
    read_number(matches, "longest", 1, 86_400).unwrap_or(LONGEST)
}

/// The port, the number of connections and the seconds that were named.
fn read_serve(matches: &ArgMatches<'_>) -> Option<Task>
    ensures { result ≡ serve_at (rows_of (found_of matches.now)) }
{
    let port = read_number(matches, "port", 1, 65_535)?;
    let connections = read_number(matches, "connections", 1, 1_000_000)?;
    Some(Task::Serve(Serving {
        port: port as u16,
        connections,
        idle: read_idle(matches),
        longest: read_longest(matches),
    }))
}

/// The number of a command that was named.
fn read_command(matches: &ArgMatches<'_>, name: &str) -> Option<u32>
    ensures { result ≡ command_at name.now (rows_of (found_of matches.now)) }
{
    read_number(matches, name, 0, MAX_COMMANDS)
}

/// The commands to be exported: behind the one that was named, or all of them, up to the other one, or to the last.
fn read_export(matches: &ArgMatches<'_>) -> Report
    ensures { result ≡ export_at (rows_of (found_of matches.now)) }
{
    let after = read_command(matches, "after").unwrap_or(0);
    let until = read_command(matches, "until").unwrap_or(u32::MAX);
    Report::Export(after, until)
}

/// The file of the new register, if one was named.
fn read_into<'a>(matches: &ArgMatches<'a>) -> Option<&'a str>
    ensures { option_map (λ file. file.now) result ≡ into_at (rows_of (found_of matches.now)) }
{
    matches.get_str("into")
}

/// The report of a subcommand.
fn read_report(name: &str, matches: &ArgMatches<'_>) -> Option<Report>
    ensures { result ≡ report_at (name.now, rows_of (found_of matches.now)) }
{
    match name {
        "print" => Some(Report::Print(read_ceremony(matches)?)),
        "attendance" => Some(Report::Attendance(read_ceremony(matches)?)),
        "custody" => Some(Report::Custody),
        "export" => Some(read_export(matches)),
        "journal" => Some(Report::Journal(read_ceremony(matches))),
        "audit" => Some(Report::Audit),
        _ => None,
    }
}

/// The task of a subcommand.
fn read_task(name: &str, matches: &ArgMatches<'_>) -> Option<Task>
    ensures { result ≡ task_at (name.now, rows_of (found_of matches.now)) }
{
    match name {
        "run" => Some(Task::Run),
        "serve" => read_serve(matches),
        "verify" => Some(Task::Verify),
        "rebuild" => read_into(matches).map(|_| Task::Rebuild),
        "pack" => read_into(matches).map(|_| Task::Pack),
        _ => Some(Task::Write(read_report(name, matches)?)),
    }
}

/// The file of the register, if one was named.
fn read_file<'a>(matches: &ArgMatches<'a>) -> Option<&'a str>
    ensures { option_map (λ file. file.now) result ≡ file_at (rows_of (found_of matches.now)) }
{
    matches.get_str("file")
}

/// Whether the words have a flag.
fn has_flag(matches: &ArgMatches<'_>, name: &str) -> bool
    ensures { result ≡ flag_at name.now (rows_of (found_of matches.now)) }
{
    match matches.get_str(name) {
        Some(value) => value == "true",
        None => false,
    }
}

/// Whether sqlite gives such a name to a file beside another: it ends in `-journal`, `-wal` or `-shm`.
fn is_companion(name: &str) -> bool
    ensures { result ≡ is_companion name.now }
{
    let name = name.as_bytes();
    name.ends_with(b"-journal") || name.ends_with(b"-wal") || name.ends_with(b"-shm")
}

/// Whether the file of the new register, if one was named, has such a name.
fn names_companion(into: Option<&str>) -> bool
    ensures { result ≡ names_companion (option_map (λ file. file.now) into.entry) }
{
    match into {
        Some(name) => is_companion(name),
        None => false,
    }
}

/// The task that the words hold and the file that they name, the first of which is the program's name: every list of
/// words that `clap` takes holds a task, or names a new register's file as sqlite names one beside another. `Line`
/// comes only where `clap` refuses the words or they ask for help or the version, and where it does, no task comes.
/// `Memory` comes only where memory was refused.
pub fn read_words<'a>(alloc: Global, words: &'a [String]) -> Result<Order<'a>, WordsFault>
    ensures task { IfOk result (λ order. task_of (said words.entry.now) ≡ Some order.task) }
    ensures file { IfOk result (λ order. file_of (said words.entry.now) ≡ file_in order) }
    ensures into { IfOk result (λ order. into_of (said words.entry.now) ≡ into_in order) }
    ensures existing { IfOk result (λ order. is_existing (said words.entry.now) ≡ order.is_existing) }
    ensures explained { IfOk result (λ order. is_explained (said words.entry.now) ≡ order.is_explained) }

    // The file of the new register is no other's log or journal.
    ensures apart { IfOk result (λ _. names_companion (into_of (said words.entry.now)) ≡ false) }
    ensures companion { IfErr result (λ e. IsCompanion e
        → names_companion (into_of (said words.entry.now)) ≡ true) }
    ensures taken { IfOk result (λ _. faults_of (said words.entry.now) ≡ []) }
    ensures line { IfErr result (λ e. IsLine e → faults_of (said words.entry.now) ≢ []) }
{
    let matches = parse(alloc, words)?;
    let Some((name, inner)) = matches.subcommand() else {
        unreachable!()
    };
    let into = read_into(inner);
    if names_companion(into) {
        return Err(WordsFault::Companion);
    }
    match read_task(name, inner) {
        Some(task) => Ok(Order {
            task,
            file: read_file(inner),
            into,
            is_existing: has_flag(inner, "existing"),
            is_explained: has_flag(inner, "explain"),
        }),
        None => unreachable!(),
    }
}
