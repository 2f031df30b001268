//! A tool beside the program `recline`: it makes the calls of the libraries line by line, for the tests.
#![tactic(auto)]

mod again;
mod calls;
mod command;
mod fault;
mod gates;
mod openings;
mod output;

use command::Command;
use fault::Result;
use std::env;
use std::process::ExitCode;
use std::sync::Wait;
use std::thread::Threads;

/// Which words there are.
const USAGE: &str =
    "usage: workbench calls | served FILE | shared FILE | openings FILE | failing CALL EFFECT | world | passes COUNT |
                 gate THREADS PLACE | workers BYTES | lasting BYTES STEPS | table THREADS PLACE

calls     answers each line of standard input, a call of the libraries, by a line
served    serves the client of standard input and output over a coordinator of the record file FILE; tells on standard error how the
          session and the coordinator ended, and opens a desk over its disk
shared    makes the calls of a coordinator for the lines on standard input over the record file FILE, each once more where
          memory was wanting for it; closes it likewise, and opens a desk over its disk
openings  makes files at the path FILE, and tells of each whether its opening writes to it
failing   the same as shared over a disk in memory, whose CALL-th call fails and has done nothing (none) or all (all)
world     drives a world by the steps on standard input, each taken once more where memory was wanting for it
passes    takes COUNT passes of a coordinator, each of which makes a turn, or tells why there are no more; tells the number of the last
          one, why the coordinator is not closed without it, and how it ends with all
gate      serves three clients, whose texts on standard input are parted by empty lines, over a coordinator that computes a line by
          THREADS threads, the last two at once. At PLACE a line of the last one waits until the one before was served: before it is
          computed, in a session (session) or by a call (line), or before its first run (run). Or its first two runs wait for each
          other (runs), or it waits nowhere (open). Writes what each got, what the gate counted, and how the coordinator ended
workers   serves three clients, whose texts on standard input are parted by empty lines, by two workers, the last two at once: their first
          reads wait for each other. Each read and each write takes BYTES bytes at most. Writes what each got, that of the last two in
          the order of these texts, how many of them waited in vain, and how the coordinator ended
lasting   serves the client whose text is on standard input by a session in steps, over one coordinator after the other, each of which is
          closed behind STEPS steps. Each read and each write takes BYTES bytes at most, and none at first. Writes what the client got, and
          how many coordinators there were
table     makes the table of needs of the reports on standard input by THREADS threads, with a gate as above, and writes it, a line
          for each element";

/// Does what the command asks for, with threads where a coordinator is called.
fn run<T: Threads + Wait + Sync>(
    rt: &HostRuntime,
    threads: &T,
    command: Command<'_>,
) -> Result<()> {
    match command {
        Command::Calls => calls::answer_all(rt),
        Command::Passes(count) => again::passes::put_passes(rt, threads, count),
        Command::Gate { workers, place } => gates::sessions::answer_all(
            rt, threads, workers, place,
        ),
        Command::Workers(most) => gates::workers::answer_all(rt, threads, most),
        Command::Lasting { most, count } => gates::lasting::answer_all(rt, threads, most, count),
        Command::Table { workers, place } => gates::tables::answer_all(rt, threads, workers, place),
        Command::Served(path) => again::served::serve_one(rt, threads, path),
        Command::Shared(path) => again::shared::answer_all(rt, threads, path),
        Command::Openings(path) => openings::put_openings(rt, path),
        Command::Failing { call, effect } => {
            again::failing::answer_all(rt, threads, call, effect)
        }
        Command::World => again::world::drive_all(rt),
    }
}

/// Does what these words ask for, and answers the status.
fn do_words<T: Threads + Wait + Sync>(
    rt: &HostRuntime,
    threads: &T,
    words: &[String],
) -> Result<u8> {
    let Some(command) = command::read(words) else {
        eprintln!(rt; "{USAGE}")?;
        return Ok(2);
    };
    run(rt, threads, command)?;
    Ok(0)
}

/// The same of the words of the command line.
fn do_all<T: Threads + Wait + Sync>(rt: &HostRuntime, threads: &T) -> Result<u8> {
    let words: Vec<String> = env::args(rt)?.collect(rt.alloc())?;
    do_words(rt, threads, &words)
}

fn main(rt: HostRuntime) -> ExitCode {
    match do_all(&rt, &rt) {
        Ok(status) => ExitCode::from(status),
        Err(fault) => {
            let _told = eprintln!(rt; "Error: {fault}");
            ExitCode::from(1)
        }
    }
}
