//! The program `recline`, which only calls the library of that name.
#![tactic(auto)]

mod asking;
mod drawing;
mod files;
mod hearing;
mod nearing;
mod notices;
mod reporting;
mod running;
mod serving;
mod streams;
mod telling;

use asking::{ask_line, ask_over_file, check_over_file, show_file};
use client_link::{Link, Streams};
use command_line::{Command, read_args};
use drawing::{Drawn, draw, drive};
use files::explain_damage;
use hearing::Heard;
use recline::{Form, Question, ServiceRuntime};
use running::{explain_lines, run_over_file};
use serving::{Numbers, Place, serve_over_file};
use std::env;
use std::io::{self, BufWriter, Read, Write};
use std::process::ExitCode;
use streams::{Input, Kept, stand_ins};
use telling::{FAULT_LINE, Reason, Teller};

/// The words of the command line.
fn words_of(rt: &HostRuntime) -> io::Result<Vec<String>> {
    Ok(env::args(rt)?.collect(rt.alloc())?)
}

/// Does the command for this client, with threads where it serves others, and answers the status and the client.
fn act<T: ServiceRuntime, K: Link + Drop, F: Link + Drop>(
    teller: Teller<'_>,
    threads: &T,
    command: Command<'_>,
    client: K,
    faults: F,
) -> (u8, K) {
    let (mut client, mut faults) = (client, faults);
    let status = match command {
        Command::Run { file } => run_over_file::<T, _, _>(teller, file, &mut client, &mut faults),
        Command::Serve {
            file,
            port,
            sessions,
            workers,
            idle,
            until_input_ends,
        } => {
            let place = Place {
                port,
                until_input_ends,
            };
            let numbers = Numbers {
                sessions,
                workers,
                idle,
            };
            return serve_over_file(teller, threads, file, place, numbers, client, faults);
        }
        Command::Check { file, at, .. } => {
            check_over_file::<T, _, _>(teller, file, at, &mut client, &mut faults)
        }
        Command::Line { file, names, at } => {
            ask_line(teller, file, names, at, &mut client, &mut faults)
        }
        Command::Garbage { file, at } => {
            ask_over_file(
                teller,
                file,
                at,
                &Question::Garbage,
                &mut client,
                &mut faults,
            )
        }
        Command::Explain { .. } => explain_lines(teller, &mut client, &mut faults),
        Command::Drive { comments, .. } => drive(teller, comments, &mut client, &mut faults),
        Command::Show {
            file,
            at,
            reports,
            json,
        } => {
            let form = Form { reports, json };
            show_file(teller, file, at, form, &mut client, &mut faults)
        }
        Command::Draw {
            path,
            comments,
            records,
            failed,
            why,
            at,
        } => {
            let asked = Drawn {
                comments,
                failed,
                why,
                at,
            };
            draw(teller, path, records, asked, &mut client, &mut faults)
        }
    };
    (status, client)
}

/// What a command reads, with what is said of it in the end.
type Reading<'a, R> = Kept<Heard<Input<'a, R>>>;

/// Says why the input or standard output failed, if one did and where that is asked for.
fn explain_streams<R: Read + Drop, W: Drop>(
    teller: Teller<'_>,
    input: &Reading<'_, R>,
    output: &Kept<W>,
) {
    if let Some(error) = input.error {
        let (doing, name) = input.stream.stream.failed_call();
        teller.explain(Reason::Cannot { doing, name, error });
    }
    if let Some(error) = output.error {
        teller.explain(Reason::Cannot {
            doing: "write",
            name: "standard output",
            error,
        });
    }
}

/// Says what may be wrong with what the command read and wrote: it ended with this status.
fn explain_end<R: Read + Drop, W: Drop>(
    teller: Teller<'_>,
    command: Command<'_>,
    status: u8,
    input: &Reading<'_, R>,
    output: &Kept<W>,
) {
    explain_streams(teller, input, output);
    explain_records(teller, command, status);
    input.stream.hint(teller, command, status);
}

/// Does the command between these streams.
fn act_between<'a, T: ServiceRuntime, R: Read + Drop, W: Write + Drop, F: Link + Drop>(
    teller: Teller<'_>,
    threads: &T,
    command: Command<'_>,
    client: Streams<Reading<'a, R>, Kept<W>>,
    faults: F,
) -> u8 {
    let (status, client) = act(teller, threads, command, client, faults);
    let (input, output) = client.into_inner();
    // What could not be handed on is not tried once more, as it would be where the buffer is dropped.
    let (output, _unwritten) = output.into_parts();
    explain_end(teller, command, status, &input, &output);
    status
}

/// Does the command for this client. A fault line is handed on as soon as it is whole, by one write if it is not longer than the buffer, so that
/// the lines of several programs on one standard error do not mix.
fn act_for<'a, T: ServiceRuntime, R: Read + Drop, W: Write + Drop>(
    teller: Teller<'_>,
    threads: &T,
    command: Command<'_>,
    client: Streams<Reading<'a, R>, Kept<W>>,
) -> u8 {
    let rt = teller.rt;
    match BufWriter::with_capacity(rt.alloc(), FAULT_LINE, rt.stderr()) {
        Ok(errors) => {
            let faults = Streams::new(io::empty(), errors);
            act_between(teller, threads, command, client, faults)
        }
        Err(_) => teller.fault("memory"),
    }
}

/// Does the command over this input and standard output.
fn act_over<T: ServiceRuntime, R: Read + Drop>(
    teller: Teller<'_>,
    threads: &T,
    command: Command<'_>,
    input: Input<'_, R>,
) -> u8 {
    let rt = teller.rt;
    match BufWriter::new(rt.alloc(), Kept::new(rt.stdout())) {
        Ok(output) => {
            let client = Streams::new(Kept::new(Heard::new(input)), output);
            act_for(teller, threads, command, client)
        }
        Err(_) => teller.fault("memory"),
    }
}

/// Whether the environment asks for why a fault came, as the flag of each command does.
fn is_explaining(rt: &HostRuntime) -> bool {
    match env::var(rt, "RECLINE_EXPLAIN") {
        Ok(value) => value.as_str() == "1",
        Err(_) => false,
    }
}

/// Says where the record file of a command is damaged, if it is, where that is asked for and the command ended with this status.
fn explain_records(teller: Teller<'_>, command: Command<'_>, status: u8) {
    if !teller.explains || status != 3 {
        return;
    }
    let (path, at) = match command {
        Command::Run { file: Some(file) } => (file, None),
        Command::Serve { file, .. } => (file, None),
        Command::Check { file, at, .. }
        | Command::Line { file, at, .. }
        | Command::Garbage { file, at }
        | Command::Show { file, at, .. } => (file, at),
        Command::Draw {
            path,
            records: true,
            at,
            ..
        } => (path, at),
        _ => return,
    };
    explain_damage(teller, path, at);
}

/// Does what these words ask for, and answers the status.
fn do_words<T: ServiceRuntime>(teller: Teller<'_>, threads: &T, words: &[String]) -> u8 {
    let rt = teller.rt;
    match read_args(rt.alloc(), words) {
        Ok(wanted) => act_over(
            Teller {
                rt,
                explains: wanted.explain || is_explaining(rt),
            },
            threads,
            wanted.command,
            Input::of_command(rt, rt.reader(), wanted.command),
        ),
        Err(error) => teller.show(&error),
    }
}

/// The same of the words of the command line.
fn do_all<T: ServiceRuntime>(teller: Teller<'_>, threads: &T) -> u8 {
    match words_of(teller.rt) {
        Ok(words) => do_words(teller, threads, &words),
        Err(error) => teller.unread(&error),
    }
}

fn main(rt: HostRuntime) -> ExitCode {
    let teller = Teller {
        rt: &rt,
        explains: false,
    };
    // Before anything else is opened, and to the end.
    let status = match stand_ins(&rt) {
        Ok(_streams) => do_all(teller, &rt),
        Err(_) => teller.fault("device"),
    };
    ExitCode::from(status)
}
