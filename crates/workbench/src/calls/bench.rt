//! The desk that calls are made on.

use super::answer::Answer;
use super::handed::put_handed;
use super::held::Held;
use super::{certificates, disks, event_trees, ids, lines, processes, replies, stamps};
use chains::Chains;
use desk::Desk;
use line_disk::MemoryDisk;
use std::alloc::{AllocError, Global};

/// A desk over a disk in memory, and chains that are kept aside.
#[derive(Drop)]
pub struct Bench {
    held: Held,
    kept: Chains,
}

// Answers a call by its words; whether they are one.
fn answer_words(chains: &Chains, words: &[&str], out: &mut Answer) -> bool {
    if ids::answer(words, out) {
        return true;
    }
    if event_trees::answer(words, out) {
        return true;
    }
    if stamps::answer(words, out) {
        return true;
    }
    if replies::answer(words, out) {
        return true;
    }
    processes::answer(chains, words, out)
}

// Answers a call that takes a text with spaces; whether the line is one.
fn answer_text(chains: &Chains, line: &str, out: &mut Answer) -> bool {
    match line.split_once(' ') {
        Some(("line", text)) => {
            lines::put_call(text, out);
            true
        }
        Some((word, text)) => certificates::answer(chains, word, text, out),
        None => false,
    }
}

// The words of a call.
fn words_of(alloc: Global, call: &str) -> Result<Vec<&str>, AllocError> {
    call.split(' ').collect(alloc)
}

// Answers a call over these chains that changes nothing; whether the line is one.
fn answer_over(chains: &Chains, line: &str, out: &mut Answer) -> bool {
    if answer_text(chains, line, out) {
        return true;
    }
    match words_of(out.alloc(), line) {
        Ok(words) => answer_words(chains, &words, out),
        Err(_) => {
            out.run_out();
            true
        }
    }
}

// Keeps these chains aside, if there was memory for them.
fn keep_copy(kept: &mut Chains, copy: Result<Chains, AllocError>, out: &mut Answer) {
    match copy {
        Ok(copy) => {
            *kept = copy;
            out.put(b"done");
        }
        Err(_) => out.run_out(),
    }
}

// Keeps aside what the line of these words keeps of chains, or writes why it keeps nothing.
fn keep_places(kept: &mut Chains, chains: &Chains, words: &[&str], out: &mut Answer) {
    match processes::kept_of(chains, words) {
        Ok(chains) => {
            *kept = chains;
            out.put(b"done");
        }
        Err(fault) => out.put_fault(&fault),
    }
}

// The same of a line with spaces.
fn keep_line(kept: &mut Chains, chains: &Chains, line: &str, out: &mut Answer) {
    match words_of(out.alloc(), line) {
        Ok(words) => keep_places(kept, chains, &words, out),
        Err(_) => out.run_out(),
    }
}

// Keeps chains of the desk aside, or what a line keeps of them; whether the call is one.
fn keep(kept: &mut Chains, desk: &Desk<MemoryDisk>, call: &str, out: &mut Answer) -> bool {
    match call {
        "keep" => keep_copy(kept, desk.snapshot(), out),
        "keep opening" => keep_copy(kept, desk.opening(), out),
        _ => match call.strip_prefix("keep ") {
            Some(line) => keep_line(kept, desk.chains(), line, out),
            None => return false,
        },
    }
    true
}

// Answers a call on the disk; whether it is one.
fn answer_disk(held: &mut Held, call: &str, out: &mut Answer) -> bool {
    match words_of(out.alloc(), call) {
        Ok(words) => disks::answer(held, &words, out),
        Err(_) => {
            out.run_out();
            true
        }
    }
}

// Answers a call on an open desk; whether it is one.
fn answer_desk(
    kept: &mut Chains,
    desk: &mut Desk<MemoryDisk>,
    call: &str,
    out: &mut Answer,
) -> bool {
    if keep(kept, desk, call, out) {
        return true;
    }
    if answer_over(desk.chains(), call, out) {
        return true;
    }
    lines::answer(desk, call, out)
}

impl Bench {
    /// Nothing was accepted yet.
    pub fn new(alloc: Global) -> Result<Bench, AllocError> {
        Ok(Bench {
            held: Held::new(alloc)?,
            kept: Chains::new(alloc),
        })
    }

    // A desk over a new disk comes in place of what is held.
    fn renew(&mut self, out: &mut Answer) {
        let Ok(held) = Held::new(out.alloc()) else {
            out.run_out();
            return;
        };
        self.held = held;
        out.put(b"done");
    }

    // Answers a call on what is held; whether it is one.
    fn answer_held(&mut self, call: &str, out: &mut Answer) -> bool {
        if answer_disk(&mut self.held, call, out) {
            return true;
        }
        match &mut self.held {
            Held::Open(desk) => answer_desk(&mut self.kept, desk, call, out),
            Held::Closed(_) => {
                out.put(b"closed");
                true
            }
        }
    }

    // Answers a call; whether it is one.
    fn answer_call(&mut self, call: &str, out: &mut Answer) -> bool {
        if call == "new" {
            self.renew(out);
            return true;
        }
        match call.split_once(' ') {
            Some(("kept", call)) => answer_over(&self.kept, call, out),
            Some(("hand", text)) => {
                put_handed(&mut self.kept, text, out);
                true
            }
            _ => self.answer_held(call, out),
        }
    }

    // Answers calls that are separated by ` | `, until memory is missing for one.
    fn answer_calls(&mut self, line: &str, out: &mut Answer) {
        let mut is_first = true;
        for call in line.split(" | ") {
            if out.is_short() {
                return;
            }
            if !is_first {
                out.put(b" | ");
            }
            is_first = false;
            if !self.answer_call(call, out) {
                out.put(b"?");
            }
        }
    }

    /// Writes what is answered to a line: the value of the call, or the name of a fault; `?` where it is no call. Several calls
    /// of one line are separated by ` | `, and so are the answers.
    pub fn answer(&mut self, line: &[u8], out: &mut Answer) {
        match str::from_utf8(line) {
            Ok(line) => self.answer_calls(line, out),
            Err(_) => out.put(b"?"),
        }
    }
}
