//! The words of the command line.

ghost use Rattle.std.specs.Prelude.{◌≡◌, ◌≤◌, [], ◌∷◌, IfNone, IfOk, IfSome, Some, codes, false, is_some, map, option_map, true};
ghost use Rattle.clap.specs.Words.{App, FailsBy, HasKind, IsUnsignedIn, Rule, app_of, first_of, new_app, new_rule, rule_of, with_rule, with_subcommand};
ghost use Rattle.clap.specs.Simple.{on_top};
ghost use Rattle.clap.specs.declared.error.kind.ErrorKind.TheVariants as kinds;
ghost use Rattle.command_line.specs.Arguments.{AsksFor, IsFront, IsNumber, MayBeNumber, alone, check, draw, draw_wants, drive, explain, flag_rule, front_rule, garbage, has_front, has_number, is_set, line, may_have_number, option_rule, program, refusals, run, serve, serve_wants, show, wanted_option, wanted_rule, with_why};
ghost use Rattle.command_line.specs.Parts.{HasWanted, IsAnswer, IsCommand, IsWanted, is_command, values_of};

use clap::error::ErrorKind;
use clap::{Arg, ArgAction, ArgMatches, Command as Program, Error};
use std::alloc::{AllocError, Global};
use std::convert::AsStr;

/// What the program is asked to do.
#[derive(Clone, Copy)]
pub enum Command<'a> {
    /// Answers the lines of standard input, over the record file of this path, or over none.
    Run {
        file: Option<&'a str>,
    },
    /// Serves clients over the record file of this path, on a port of the machine itself; 0 lets the system choose one. The service
    /// has 1 to 64 workers. It ends after so many sessions, 1 to 4,096, if they are given, and at the end of standard input, if that is asked
    /// for. A client that is silent for so many seconds is disconnected, if they are given.
    Serve {
        file: &'a str,
        port: u16,
        sessions: Option<u64>,
        workers: u64,
        idle: Option<u64>,
        until_input_ends: bool,
    },
    /// Checks the certificate of this path over the records of this path, or over so many of the first ones.
    Check {
        file: &'a str,
        certificate: &'a str,
        at: Option<u32>,
    },
    /// Answers which recovery line these processes have that failed, over the records of this path, or over so many of the first ones.
    Line {
        file: &'a str,
        names: &'a str,
        at: Option<u32>,
    },
    /// Answers which checkpoints no recovery needs any more, over the records of this path, or over so many of the first ones.
    Garbage {
        file: &'a str,
        at: Option<u32>,
    },
    /// Tells what the record file of this path has, or so many of its first records: each report, too, and as JSON, where that is asked for.
    Show {
        file: &'a str,
        at: Option<u32>,
        reports: bool,
        json: bool,
    },
    /// Says of this line, or of each line of standard input, which call it is, or why it is none.
    Explain {
        line: Option<&'a str>,
    },
    /// Drives a world by the script of this path, which may have comments.
    Drive {
        script: &'a str,
        comments: bool,
    },
    /// Draws the script of this path, which may have comments, or the records of this path, or so many of the first ones, where the
    /// processes of this list failed, and shows why this process has to return.
    Draw {
        path: &'a str,
        comments: bool,
        records: bool,
        failed: Option<&'a str>,
        why: Option<&'a str>,
        at: Option<u32>,
    },
}

/// What the words of the command line ask for.
#[derive(Clone, Copy)]
pub struct Wanted<'a> {
    pub command: Command<'a>,
    /// Whether a fault of what is opened says why.
    pub explain: bool,
}

/// An argument that is one word, and is wanted.
fn word_argument<'a>(alloc: Global, name: &'a str, help: &'a str) -> Arg<'a>
    ensures rule { rule_of result ≡ wanted_rule name.now }
    ensures local { result.global ≡ false }
{
    Arg::new(alloc, name).required(true).help(help)
}

/// The same, where it may be left out.
fn optional_argument<'a>(alloc: Global, name: &'a str, help: &'a str) -> Arg<'a>
    ensures rule { rule_of result ≡ new_rule name.now }
    ensures local { result.global ≡ false }
{
    Arg::new(alloc, name).help(help)
}

/// An option that takes one value.
fn option_argument<'a>(alloc: Global, name: &'a str, value: &'a str, help: &'a str) -> Arg<'a>
    ensures rule { rule_of result ≡ option_rule name.now }
    ensures local { result.global ≡ false }
{
    Arg::new(alloc, name)
        .long(name)
        .value_name(value)
        .help(help)
}

/// The same, where the option is wanted.
fn wanted_argument<'a>(alloc: Global, name: &'a str, value: &'a str, help: &'a str) -> Arg<'a>
    ensures rule { rule_of result ≡ wanted_option name.now }
    ensures local { result.global ≡ false }
{
    Arg::new(alloc, name)
        .long(name)
        .value_name(value)
        .required(true)
        .help(help)
}

/// A flag.
fn flag_argument<'a>(alloc: Global, name: &'a str, help: &'a str) -> Arg<'a>
    ensures rule { rule_of result ≡ flag_rule name.now }
    ensures local { result.global ≡ false }
{
    Arg::new(alloc, name)
        .long(name)
        .action(ArgAction::SetTrue)
        .help(help)
}

/// The argument that is the path of a script.
fn script_argument<'a>(alloc: Global) -> Arg<'a>
    ensures rule { rule_of result ≡ wanted_rule (codes "SCRIPT") }
    ensures local { result.global ≡ false }
{
    word_argument(
        alloc,
        "SCRIPT",
        "A file of steps, one on each line, the first of which is 'root NAME'; '-' is standard input",
    )
}

/// The argument that is the path of a record file.
fn file_argument<'a>(alloc: Global) -> Arg<'a>
    ensures rule { rule_of result ≡ wanted_rule (codes "FILE") }
    ensures local { result.global ≡ false }
{
    word_argument(alloc, "FILE", "A record file, made by recline run or serve")
}

/// The flag that says that a script has comments.
fn comments_argument<'a>(alloc: Global) -> Arg<'a>
    ensures rule { rule_of result ≡ flag_rule (codes "comments") }
    ensures local { result.global ≡ false }
{
    flag_argument(
        alloc,
        "comments",
        "Skips lines of the script that are empty or begin with '#'",
    )
}

/// A command with this name and its first argument. Its help says what it does, and which statuses it ends with.
fn told_command<'a>(
    alloc: Global,
    name: &'a str,
    about: &'a str,
    statuses: &'a str,
    first: Arg<'a>,
) -> Result<Program<'a>, AllocError>
    requires { first.global ≡ false }
    ensures { (r : Rule) → rule_of first.entry ≡ r → IsCommand (with_rule (new_app name.now) r) result }
{
    Program::new(alloc, name)
        .about(about)
        .after_help(statuses)
        .arg(first)
}

/// A command with one argument more, where it was made.
fn with_argument<'a>(
    command: Result<Program<'a>, AllocError>,
    argument: Arg<'a>,
) -> Result<Program<'a>, AllocError>
    requires { argument.global ≡ false }
    ensures { (app : App) (r : Rule) → IsCommand app command.entry → rule_of argument.entry ≡ r → IsCommand (with_rule app r) result }
{
    match command {
        Ok(command) => command.arg(argument),
        Err(error) => Err(error),
    }
}

/// A command with the flag by which faults say why.
fn explaining<'a>(
    alloc: Global,
    command: Result<Program<'a>, AllocError>,
) -> Result<Program<'a>, AllocError>
    ensures { (app : App) → IsCommand app command.entry → IsCommand (with_why app) result }
{
    let explain = flag_argument(
        alloc,
        "explain",
        "Also prints on standard error why a file or a stream failed, in the system's words",
    );
    with_argument(command, explain)
}

/// A program with one command more, where both were made.
fn with_command<'a>(
    program: Result<Program<'a>, AllocError>,
    command: Result<Program<'a>, AllocError>,
) -> Result<Program<'a>, AllocError>
    ensures { (above app : App) → IfOk program.entry (λ p. app_of p ≡ above) → IsCommand app command.entry → IfOk result (λ made. app_of made ≡ with_subcommand above app.top) }
{
    let program = program?;
    program.subcommand(command?)
}

/// The command `run`.
fn run_command<'a>(alloc: Global) -> Result<Program<'a>, AllocError>
    ensures { IsCommand run result }
{
    told_command(
        alloc,
        "run",
        "Answers each line of standard input, a report or a question, on standard output",
        "Example: recline run records < reports\nStatus: 0 the input ended; 2 wrong words; 3 a file, a stream or memory failed; 5 too many lines",
        optional_argument(
            alloc,
            "FILE",
            "The record file, which keeps the accepted reports; it is created if it does not exist",
        ),
    )
}

/// The command `serve`, with what says how much is served.
fn serve_wanted<'a>(alloc: Global) -> Result<Program<'a>, AllocError>
    ensures { IsCommand serve_wants result }
{
    let command = told_command(
        alloc,
        "serve",
        "Serves clients that connect by TCP, until it is told to end, or so many sessions ended",
        "Example: recline serve records --port 0 --workers 8 --until-input-ends\nStatus: 0 the service ended in order; 2 wrong words; 3 a file, the port, a stream or memory failed",
        word_argument(
            alloc,
            "FILE",
            "The record file, which keeps the accepted reports; it is created if it does not exist",
        ),
    );
    let command = with_argument(
        command,
        wanted_argument(
            alloc,
            "port",
            "P",
            "The port on this machine, 0 to 65535; 0 lets the system choose",
        ),
    );
    let command = with_argument(
        command,
        option_argument(
            alloc,
            "sessions",
            "N",
            "Ends after so many sessions, 1 to 4096; without it never",
        ),
    );
    with_argument(
        command,
        wanted_argument(
            alloc,
            "workers",
            "W",
            "How many clients to answer at once, 1 to 64",
        ),
    )
}

/// The command `serve`.
fn serve_command<'a>(alloc: Global) -> Result<Program<'a>, AllocError>
    ensures { IsCommand serve result }
{
    let idle = option_argument(
        alloc,
        "idle",
        "SECONDS",
        "After how many silent seconds a client is disconnected, 1 to 4294967295; without it never",
    );
    let until_input_ends = flag_argument(
        alloc,
        "until-input-ends",
        "Ends, in order, at the end of standard input, a pipe or a terminal; at once for a file or /dev/null",
    );
    with_argument(with_argument(serve_wanted(alloc), idle), until_input_ends)
}

/// The option that says how many of the first records count.
fn front_argument<'a>(alloc: Global) -> Arg<'a>
    ensures rule { rule_of result ≡ front_rule }
    ensures local { result.global ≡ false }
{
    option_argument(
        alloc,
        "at",
        "FRONT",
        "Uses only the first FRONT records, 0 to 16384; without it all",
    )
}

/// The command `check`.
fn check_command<'a>(alloc: Global) -> Result<Program<'a>, AllocError>
    ensures { IsCommand check result }
{
    let command = told_command(
        alloc,
        "check",
        "Checks a certificate against a record file, and prints YES, or NO with the cause",
        "Example: recline check records certificate\nStatus: 0 YES; 2 no certificate, or wrong words; 3 a file, a stream or memory failed; 4 NO",
        file_argument(alloc),
    );
    let command = with_argument(
        command,
        word_argument(
            alloc,
            "CERT",
            "A file with the text after 'LINE ' in a reply; '-' is standard input",
        ),
    );
    with_argument(command, front_argument(alloc))
}

/// The command `line`.
fn line_command<'a>(alloc: Global) -> Result<Program<'a>, AllocError>
    ensures { IsCommand line result }
{
    let command = told_command(
        alloc,
        "line",
        "Prints the recovery line for a record file, as the reply to 'LINE NAMES'",
        "Example: recline line records a,b\nStatus: 0 a line was printed; 2 wrong words; 3 a file, a stream or memory failed; 4 refused",
        file_argument(alloc),
    );
    let command = with_argument(
        command,
        word_argument(
            alloc,
            "NAMES",
            "The processes that failed, separated by commas, or '-' for none",
        ),
    );
    with_argument(command, front_argument(alloc))
}

/// The command `garbage`.
fn garbage_command<'a>(alloc: Global) -> Result<Program<'a>, AllocError>
    ensures { IsCommand garbage result }
{
    let command = told_command(
        alloc,
        "garbage",
        "Prints the line before which all checkpoints are obsolete, as the reply to 'GARBAGE'",
        "Example: recline garbage records --at 100\nStatus: 0 a line was printed; 2 wrong words; 3 a file, a stream or memory failed; 4 refused",
        file_argument(alloc),
    );
    with_argument(command, front_argument(alloc))
}

/// The command `show`.
fn show_command<'a>(alloc: Global) -> Result<Program<'a>, AllocError>
    ensures { IsCommand show result }
{
    let command = told_command(
        alloc,
        "show",
        "Prints what a record file contains",
        "Example: recline show records --reports\nStatus: 0 all was printed; 2 wrong words; 3 a file, a stream or memory failed",
        file_argument(alloc),
    );
    let command = with_argument(command, front_argument(alloc));
    let command = with_argument(
        command,
        flag_argument(alloc, "reports", "Also prints each record"),
    );
    with_argument(command, flag_argument(alloc, "json", "Prints JSON"))
}

/// The command `explain`.
fn explain_command<'a>(alloc: Global) -> Result<Program<'a>, AllocError>
    ensures { IsCommand explain result }
{
    told_command(
        alloc,
        "explain",
        "Says which call a line is, or what is wrong with it",
        "Example: recline explain 'CHECK a 1 1;1'\nStatus: 0 each is a call; 2 wrong words; 3 a stream or memory failed; 4 a line is none",
        optional_argument(
            alloc,
            "LINE",
            "A line, as one word of the shell; without it each line of standard input",
        ),
    )
}

/// The command `drive`.
fn drive_command<'a>(alloc: Global) -> Result<Program<'a>, AllocError>
    ensures { IsCommand drive result }
{
    let command = told_command(
        alloc,
        "drive",
        "Stamps the steps of a script and prints the lines that report them",
        "Example: recline drive steps > reports\nStatus: 0 each step was taken; 2 one was refused, or wrong words; 3 a file, a stream or memory failed",
        script_argument(alloc),
    );
    with_argument(command, comments_argument(alloc))
}

/// The command `draw`, with what says what is drawn.
fn draw_wanted<'a>(alloc: Global) -> Result<Program<'a>, AllocError>
    ensures { IsCommand draw_wants result }
{
    let command = told_command(
        alloc,
        "draw",
        "Draws the history of a script with its recovery line as SVG",
        "Example: recline draw steps --failed a > picture.svg\nStatus: 0 all is drawn; 2 a step or a name was refused, or wrong words; 3 a file, a stream or memory failed",
        script_argument(alloc),
    );
    let command = with_argument(command, comments_argument(alloc));
    with_argument(
        command,
        flag_argument(
            alloc,
            "records",
            "SCRIPT is a record file, and its reports are drawn",
        ),
    )
}

/// The command `draw`.
fn draw_command<'a>(alloc: Global) -> Result<Program<'a>, AllocError>
    ensures { IsCommand draw result }
{
    let command = with_argument(
        draw_wanted(alloc),
        option_argument(
            alloc,
            "failed",
            "NAMES",
            "The processes that failed, separated by commas, or '-' for none",
        ),
    );
    let command = with_argument(
        command,
        option_argument(
            alloc,
            "why",
            "NAME",
            "With --records, draws why this process has to return",
        ),
    );
    with_argument(command, front_argument(alloc))
}

/// The program with its name alone.
fn named_program<'a>(alloc: Global) -> Result<Program<'a>, AllocError>
    ensures { IfOk result (λ made. app_of made ≡ new_app (codes "recline")) }
{
    Program::new(alloc, "recline").bin_name("recline")
}

/// This program with its version and what it does; one of its commands is wanted.
fn with_version<'a>(program: Program<'a>) -> Program<'a>
    ensures { app_of result ≡ on_top (λ s. record s { has_version = true; subcommand_required = true }) (app_of program.entry) }
{
    program
        .version("0.1.0 (sources of 2026-12-01, record files of versions 1 and 2)")
        .about(
            "Computes the recovery line: to which checkpoint each process returns after a failure",
        )
        .subcommand_required(true)
}

/// The program, without its commands.
fn program_alone<'a>(alloc: Global) -> Result<Program<'a>, AllocError>
    ensures app { IfOk result (λ made. app_of made ≡ alone) }
{
    Ok(with_version(named_program(alloc)?))
}

/// The command line, with the texts of its help.
fn command_line<'a>(alloc: Global) -> Result<Program<'a>, AllocError>
    ensures { IfOk result (λ made. app_of made ≡ program) }
{
    let program = program_alone(alloc);
    let program = with_command(program, explaining(alloc, run_command(alloc)));
    let program = with_command(program, explaining(alloc, serve_command(alloc)));
    let program = with_command(program, explaining(alloc, check_command(alloc)));
    let program = with_command(program, explaining(alloc, line_command(alloc)));
    let program = with_command(program, explaining(alloc, garbage_command(alloc)));
    let program = with_command(program, explaining(alloc, show_command(alloc)));
    let program = with_command(program, explain_command(alloc));
    let program = with_command(program, explaining(alloc, drive_command(alloc)));
    with_command(program, explaining(alloc, draw_command(alloc)))
}

/// The number that a text spells, if it lies within these limits.
fn number_of(text: &str, least: u64, most: u64) -> Option<u64>
    ensures some { IfSome result (λ n. IsNumber least most n (Some text.now)) }
    ensures limit { IfSome result (λ n. n ≤ most) }
    ensures none { IfNone result (IsUnsignedIn least most text.now → ⊥) }
{
    match text.parse::<u64>() {
        Ok(number) => {
            if least <= number && number <= most {
                Some(number)
            } else {
                None
            }
        }
        Err(_) => None,
    }
}

/// The value of an argument, if it has one.
fn value_in<'a>(matches: &ArgMatches<'a>, key: &str) -> Option<&'a str>
    ensures { first_of key.now (values_of matches.now) ≡ option_map (λ s. s.now) result }
{
    matches.get_str(key)
}

/// The value of an argument that is wanted.
fn wanted_in<'a>(matches: &ArgMatches<'a>, key: &str) -> &'a str
    requires { is_some (first_of key.now (values_of matches.now)) ≡ true }
    ensures { first_of key.now (values_of matches.now) ≡ Some result.now }
{
    let Some(text) = value_in(matches, key) else {
        unreachable!();
    };
    text
}

/// The number of an option, if it lies within these limits.
fn number_in(matches: &ArgMatches<'_>, key: &str, least: u64, most: u64) -> Option<u64>
    ensures some { IfSome result (λ n. IsNumber least most n (first_of key.now (values_of matches.now))) }
    ensures limit { IfSome result (λ n. n ≤ most) }
    ensures none { IfNone result (has_number least most (first_of key.now (values_of matches.now)) ≡ false) }
{
    match value_in(matches, key) {
        Some(text) => number_of(text, least, most),
        None => None,
    }
}

/// The number of an option that may be left out. None at all where it does not lie within these limits.
fn optional_number_in(
    matches: &ArgMatches<'_>,
    key: &str,
    least: u64,
    most: u64,
) -> Option<Option<u64>>
    ensures some { IfSome result (λ o. MayBeNumber least most o (first_of key.now (values_of matches.now))) }
    ensures limit { IfSome result (λ o. IfSome o (λ n. n ≤ most)) }
    ensures none { IfNone result (may_have_number least most (first_of key.now (values_of matches.now)) ≡ false) }
{
    match value_in(matches, key) {
        Some(text) => Some(Some(number_of(text, least, most)?)),
        None => Some(None),
    }
}

/// The refusal of a number that does not lie within its limits.
fn number_refused(alloc: Global, limits: &str) -> Error
    ensures { HasKind (kinds.ValueValidation ∷ []) result }
{
    match command_line(alloc) {
        Ok(program) => {
            let mut program = program;
            match program.error(ErrorKind::ValueValidation, limits) {
                Ok(error) => error,
                Err(error) => Error::from(error),
            }
        }
        Err(error) => Error::from(error),
    }
}

/// Whether a flag is given.
fn flag_in(matches: &ArgMatches<'_>, key: &str) -> bool
    ensures { is_set (first_of key.now (values_of matches.now)) ≡ result }
{
    match value_in(matches, key) {
        Some(text) => text == "true",
        None => false,
    }
}

/// How many of the first records count, if that is given. None at all where it is no number within its limits.
fn front_in(matches: &ArgMatches<'_>) -> Option<Option<u32>>
    ensures some { IfSome result (λ at. IsFront (values_of matches.now) at) }
    ensures within { IfSome result (λ at. has_front (values_of matches.now) ≡ true) }
    ensures none { IfNone result (has_front (values_of matches.now) ≡ false) }
{
    let Some(number) = optional_number_in(matches, "at", 0, 16_384) else {
        return None;
    };
    match number {
        Some(front) => Some(Some(front as u32)),
        None => Some(None),
    }
}

/// The refusal of a front.
fn front_refused(alloc: Global) -> Error
    ensures { HasKind (kinds.ValueValidation ∷ []) result }
{
    number_refused(alloc, "--at takes a number from 0 to 16384")
}

/// The command `serve`, by the values of its arguments.
fn serve_asked<'a>(alloc: Global, serving: &ArgMatches<'a>) -> Result<Command<'a>, Error>
    requires { is_some (first_of (codes "FILE") (values_of serving.now)) ≡ true }
    ensures { IsAnswer (codes "serve") (values_of serving.now) result }
{
    let file = wanted_in(serving, "FILE");
    let Some(port) = number_in(serving, "port", 0, 65_535) else {
        return Err(number_refused(alloc, "--port takes a number from 0 to 65535"));
    };
    let Some(sessions) = optional_number_in(serving, "sessions", 1, 4_096) else {
        return Err(number_refused(alloc, "--sessions takes a number from 1 to 4096"));
    };
    let Some(workers) = number_in(serving, "workers", 1, 64) else {
        return Err(number_refused(alloc, "--workers takes a number from 1 to 64"));
    };
    let Some(idle) = optional_number_in(serving, "idle", 1, 4_294_967_295) else {
        return Err(number_refused(alloc, "--idle takes a number from 1 to 4294967295"));
    };
    let until_input_ends = flag_in(serving, "until-input-ends");
    Ok(Command::Serve {
        file,
        port: port as u16,
        sessions,
        workers,
        idle,
        until_input_ends,
    })
}

/// The command `check`, by the values of its arguments.
fn check_asked<'a>(alloc: Global, checking: &ArgMatches<'a>) -> Result<Command<'a>, Error>
    requires file { is_some (first_of (codes "FILE") (values_of checking.now)) ≡ true }
    requires certificate { is_some (first_of (codes "CERT") (values_of checking.now)) ≡ true }
    ensures { IsAnswer (codes "check") (values_of checking.now) result }
{
    let file = wanted_in(checking, "FILE");
    let certificate = wanted_in(checking, "CERT");
    let Some(at) = front_in(checking) else {
        return Err(front_refused(alloc));
    };
    Ok(Command::Check {
        file,
        certificate,
        at,
    })
}

/// The command `line`, by the values of its arguments.
fn line_asked<'a>(alloc: Global, asking: &ArgMatches<'a>) -> Result<Command<'a>, Error>
    requires file { is_some (first_of (codes "FILE") (values_of asking.now)) ≡ true }
    requires names { is_some (first_of (codes "NAMES") (values_of asking.now)) ≡ true }
    ensures { IsAnswer (codes "line") (values_of asking.now) result }
{
    let file = wanted_in(asking, "FILE");
    let names = wanted_in(asking, "NAMES");
    let Some(at) = front_in(asking) else {
        return Err(front_refused(alloc));
    };
    Ok(Command::Line { file, names, at })
}

/// The command `garbage`, by the values of its arguments.
fn garbage_asked<'a>(alloc: Global, asking: &ArgMatches<'a>) -> Result<Command<'a>, Error>
    requires { is_some (first_of (codes "FILE") (values_of asking.now)) ≡ true }
    ensures { IsAnswer (codes "garbage") (values_of asking.now) result }
{
    let file = wanted_in(asking, "FILE");
    let Some(at) = front_in(asking) else {
        return Err(front_refused(alloc));
    };
    Ok(Command::Garbage { file, at })
}

/// The command `show`, by the values of its arguments.
fn show_asked<'a>(alloc: Global, showing: &ArgMatches<'a>) -> Result<Command<'a>, Error>
    requires { is_some (first_of (codes "FILE") (values_of showing.now)) ≡ true }
    ensures { IsAnswer (codes "show") (values_of showing.now) result }
{
    let file = wanted_in(showing, "FILE");
    let reports = flag_in(showing, "reports");
    let json = flag_in(showing, "json");
    let Some(at) = front_in(showing) else {
        return Err(front_refused(alloc));
    };
    Ok(Command::Show {
        file,
        at,
        reports,
        json,
    })
}

/// The command `draw`, by the values of its arguments.
fn draw_asked<'a>(alloc: Global, drawing: &ArgMatches<'a>) -> Result<Command<'a>, Error>
    requires { is_some (first_of (codes "SCRIPT") (values_of drawing.now)) ≡ true }
    ensures { IsAnswer (codes "draw") (values_of drawing.now) result }
{
    let path = wanted_in(drawing, "SCRIPT");
    let comments = flag_in(drawing, "comments");
    let records = flag_in(drawing, "records");
    let failed = value_in(drawing, "failed");
    let why = value_in(drawing, "why");
    let Some(at) = front_in(drawing) else {
        return Err(front_refused(alloc));
    };
    Ok(Command::Draw {
        path,
        comments,
        records,
        failed,
        why,
        at,
    })
}

/// The command of this name, by the values of its arguments.
fn command_asked<'a>(
    alloc: Global,
    name: &str,
    matches: &ArgMatches<'a>,
) -> Result<Command<'a>, Error>
    requires one { is_command name.now ≡ true }
    requires wanted { HasWanted name.now (values_of matches.now) }
    ensures { IsAnswer name.now (values_of matches.now) result }
{
    if name == "run" {
        let file = value_in(matches, "FILE");
        return Ok(Command::Run { file });
    }
    if name == "serve" {
        return serve_asked(alloc, matches);
    }
    if name == "check" {
        return check_asked(alloc, matches);
    }
    if name == "line" {
        return line_asked(alloc, matches);
    }
    if name == "garbage" {
        return garbage_asked(alloc, matches);
    }
    if name == "show" {
        return show_asked(alloc, matches);
    }
    if name == "explain" {
        let line = value_in(matches, "LINE");
        return Ok(Command::Explain { line });
    }
    if name == "drive" {
        let script = wanted_in(matches, "SCRIPT");
        let comments = flag_in(matches, "comments");
        return Ok(Command::Drive { script, comments });
    }
    if name == "draw" {
        return draw_asked(alloc, matches);
    }
    unreachable!();
}

/// The same, and whether it is to say why.
fn wanted_asked<'a>(
    alloc: Global,
    name: &str,
    matches: &ArgMatches<'a>,
) -> Result<Wanted<'a>, Error>
    requires one { is_command name.now ≡ true }
    requires wanted { HasWanted name.now (values_of matches.now) }
    ensures { IsWanted name.now (values_of matches.now) result }
{
    let explain = flag_in(matches, "explain");
    match command_asked(alloc, name, matches) {
        Ok(command) => Ok(Wanted { command, explain }),
        Err(error) => Err(error),
    }
}

/// The command that the words ask for, after the word that the program was called by. Help and the version are errors,
/// too; `clap::Error` says where its text goes and with which status. Words that ask for a command are refused for want of
/// memory alone. Numbers that are out of their limits are faults of their values.
pub fn read_args<'a, S: AsStr>(alloc: Global, words: &'a [S]) -> Result<Wanted<'a>, Error>
    ensures asked { IfOk result (λ wanted. AsksFor (map S.text words.entry.now) wanted) }
    ensures refused { FailsBy (refusals (map S.text words.entry.now)) result }
{
    let program = command_line(alloc)?;
    let matches = program.try_get_matches_from(words)?;
    let Some((name, asked)) = matches.subcommand() else {
        unreachable!();
    };
    wanted_asked(alloc, name, asked)
}
