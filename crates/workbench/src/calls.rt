//! The calls of the libraries, a line each; several of one line are separated by ` | `, and so are their answers. An answer is the
//! value, or the name of the fault; `?` where the text is no call.
//!
//! - ids: `id I` (as it is written again), `owns_any I`, `disjoint I I`, `is_sum I I I` (whether the first is the sum of the
//!   others), `split I`, `sum I I`;
//! - event trees: `events E`, `leq E E`, `exceeds_on E E I`, `join E E`, `after_event I E`;
//! - stamps: `first`, `stamp S`, `event S`, `peek S`, `fork S`, `receive S E`, `absorb S S`;
//! - lines: `line TEXT` (a report as it is written again, `call` for another call); any line of a client gets its reply, over
//!   the desk of the bench; `new` begins with a fresh desk, `keep` keeps a copy of its chains, `keep opening` of those that it was
//!   opened with, `keep NAME POSITION NAME POSITION ...` what the line of these places keeps of its chains (`Unfit` where no process
//!   can return to it), `kept CALL` makes a call on these, and `hand REPORT / REPORT ..` hands reports over to them (their front, or the
//!   place of the one that is refused, from 0, and why);
//! - the disk in memory that the desk is over: `close` closes the desk, `disk HEX` puts a new disk that holds these bytes in place
//!   of all (`disk` an empty one), and `open` opens a desk over the disk, behind the end of one that is open (its front, or the fault
//!   as the program tells it). `renew` begins a new list of turns of the desk (its front, or the fault, with which the desk is
//!   closed). While no desk is open the calls above are answered by `closed`, but for `new` and `kept CALL`, and those
//!   below are made, which are answered by `open` otherwise: `fail K none`, `fail K all` (the K-th call of the device from now on
//!   fails, and has done nothing or all; which one that is, counted from the disk's first), `file` (the bytes that it holds in
//!   hexadecimal, `-` for none), `calls` (how many calls there were), `stop K N` (in place of the disk comes one that holds what a
//!   crash leaves behind K calls and N bytes of the next one, if that is a write);
//! - replies: `refusal CAUSE` (the refusal for this cause that names nothing);
//! - places, a position being a number or `retired`: `knows NAME POSITION NAME POSITION`, `need NAME POSITION NAME`,
//!   `last_known NAME POSITION NAME FROM TO`;
//! - failed sets, `*` for all processes, `-` for none, or names separated by commas: `last_surviving NAME FAILED`,
//!   `rounds FAILED`, `certificate FAILED`;
//! - certificates: `read TEXT` (whether it is one), `write TEXT` (as it is written again), `check TEXT` (the verdict).

mod answer;
mod bench;
mod certificates;
pub mod disks;
mod event_trees;
mod handed;
mod held;
mod ids;
mod lines;
mod processes;
mod replies;
mod stamps;

use crate::fault::Result;
use answer::Answer;
use bench::Bench;
use std::alloc::Global;
use std::io::{BufWriter, Read, Write};

// Writes an answer with its LF.
fn put_answer<W: Write>(answer: &mut Answer, out: &mut W) -> Result<()> {
    Ok(out.write_all(answer.line()?)?)
}

// Writes the answer to a line, with its LF.
fn put_line<W: Write>(alloc: Global, bench: &mut Bench, line: &[u8], out: &mut W) -> Result<()> {
    let mut answer = Answer::new(alloc);
    bench.answer(line, &mut answer);
    put_answer(&mut answer, out)
}

// Answers each line of the input by a line.
fn put_lines<W: Write>(alloc: Global, bench: &mut Bench, input: &[u8], out: &mut W) -> Result<()> {
    for line in input.split_inclusive(|b| *b == b'\n') {
        let line = match line.strip_suffix(b"\n") {
            Some(line) => line,
            None => line,
        };
        put_line(alloc, bench, line, out)?;
    }
    Ok(out.flush()?)
}

// The same over a bench of its own.
fn answer_lines<W: Write>(alloc: Global, input: &[u8], out: &mut W) -> Result<()> {
    let mut bench = Bench::new(alloc)?;
    let done = put_lines(alloc, &mut bench, input, out);
    drop(bench);
    done
}

/// Answers each line of standard input by a line.
pub fn answer_all(rt: &HostRuntime) -> Result<()> {
    let alloc = rt.alloc();
    let mut input = Vec::new(alloc);
    rt.reader().read_to_end(&mut input)?;
    let mut out = BufWriter::new(alloc, rt.stdout())?;
    answer_lines(alloc, &input, &mut out)
}
