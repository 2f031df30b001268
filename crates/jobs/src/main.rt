//! Jobs that users of `recline` wait for, over inputs that a seed determines: what `bench/run` times.
#![tactic(auto)]

mod commands;
mod digest;
mod families;
mod inputs;
mod random;
mod refused;
mod scripts;
mod work;

use anyhow::Result;
use std::env;
use std::process::ExitCode;
use work::{Job, do_rounds};

/// Which words there are.
const USAGE: &str =
    "usage: jobs reports | strangers | lines | settlements | records | scripts | families ROUNDS SEED

Does a job so many times, each time over other inputs, and writes a digest of all that it gave.

reports      taking reports of 1, 2, 32, 64 and 1,000 processes
strangers    the same among late copies and wrong lines, of groups that never hear of each other, and of one process that forks all
lines        lines and garbage lines: the longest domino, a ring that falls, 1,000 processes, many questions between reports
settlements  carrying on after lines: early ones and late ones
records      opening records, and checking certificates over them
scripts      stamping scripts, and drawing them
families     children that retire into their parent, late forks, ids of several parts, numbers of ten digits, pairs that fall at once,
             lines of all, refused texts and refused certificates";

/// What the words ask for, of which the first is the program's name; nothing, where they are no job.
fn read(words: &[String]) -> Option<(Job, u32, u32)> {
    match words {
        [_program, job, rounds, seed] => Some((
            Job::read(job.as_str())?,
            rounds.as_str().parse::<u32>().ok()?,
            seed.as_str().parse::<u32>().ok()?,
        )),
        _ => None,
    }
}

fn main(rt: HostRuntime) -> Result<ExitCode> {
    let words: Vec<String> = env::args(&rt)?.collect(rt.alloc())?;
    match read(&words) {
        Some((job, rounds, seed)) => {
            let digest = do_rounds(rt.alloc(), job, rounds, seed)?;
            println!(rt; "{digest}")?;
            Ok(ExitCode::from(0))
        }
        None => {
            eprintln!(rt; "{USAGE}")?;
            Ok(ExitCode::from(2))
        }
    }
}
