//! Calls on the disk.

use super::answer::Answer;
use super::held::Held;
use desk::DeskFault;
use line_disk::{Effect, MemoryDisk};
use std::alloc::{AllocError, Global};

/// What a call that fails has done, by a word.
pub fn effect_of(word: &str) -> Option<Effect> {
    match word {
        "none" => Some(Effect::Nothing),
        "all" => Some(Effect::All),
        _ => None,
    }
}

fn number_of(word: &str) -> Option<usize> {
    match word.parse::<u32>() {
        Ok(number) => Some(number as usize),
        Err(_) => None,
    }
}

fn put_no_call(out: &mut Answer) {
    out.put(b"?");
}

// Writes how many bytes a disk holds.
fn put_length(length: usize, out: &mut Answer) {
    let text = format!(in out.alloc(); "{length} bytes");
    out.put_made(text);
}

// Writes the bytes that the disk holds.
fn put_bytes(disk: &MemoryDisk, out: &mut Answer) {
    if disk.bytes().len() == 0 {
        out.put(b"-");
        return;
    }
    let text = hex::encode(out.alloc(), disk.bytes());
    out.put_made(text);
}

// Writes how many calls the disk had.
fn put_calls(disk: &MemoryDisk, out: &mut Answer) {
    let calls = disk.calls();
    let text = format!(in out.alloc(); "{calls} calls");
    out.put_made(text);
}

// Plans that the call of this number fails.
fn put_failing(disk: &mut MemoryDisk, call: usize, word: &str, out: &mut Answer) {
    let Some(effect) = effect_of(word) else {
        put_no_call(out);
        return;
    };
    if disk.fail_call(call, effect).is_err() {
        out.run_out();
    }
    let text = format!(in out.alloc(); "call {call} {word}");
    out.put_made(text);
}

// Plans that the k-th call from now on fails.
fn put_failure(disk: &mut MemoryDisk, k: &str, word: &str, out: &mut Answer) {
    match number_of(k) {
        Some(k) => {
            let call = disk.calls().saturating_add(k);
            put_failing(disk, call, word, out)
        }
        None => put_no_call(out),
    }
}

// What a crash leaves after k calls and n bytes of the next one.
fn stopped(alloc: Global, disk: &MemoryDisk, k: usize, n: usize) -> Result<MemoryDisk, AllocError> {
    let image = disk.image(alloc, k, n)?;
    MemoryDisk::new(alloc, &image)
}

// In place of the disk comes what a crash leaves of it.
fn put_stopped(disk: &mut MemoryDisk, k: usize, n: usize, out: &mut Answer) {
    match stopped(out.alloc(), disk, k, n) {
        Ok(stopped) => *disk = stopped,
        Err(_) => out.run_out(),
    }
    put_length(disk.bytes().len(), out);
}

// The same, if these words are numbers.
fn put_stop(disk: &mut MemoryDisk, k: &str, n: &str, out: &mut Answer) {
    match (number_of(k), number_of(n)) {
        (Some(k), Some(n)) => put_stopped(disk, k, n, out),
        _ => put_no_call(out),
    }
}

// Answers a call on a disk over which no desk is open.
fn put_alone(disk: &mut MemoryDisk, words: &[&str], out: &mut Answer) {
    match *words {
        ["fail", k, effect] => put_failure(disk, k, effect, out),
        ["file"] => put_bytes(disk, out),
        ["calls"] => put_calls(disk, out),
        ["stop", k, n] => put_stop(disk, k, n, out),
        _ => put_no_call(out),
    }
}

// The same of what is held, if it is such a disk.
fn put_of(held: &mut Held, words: &[&str], out: &mut Answer) {
    match held {
        Held::Open(_) => out.put(b"open"),
        Held::Closed(disk) => put_alone(disk, words, out),
    }
}

// A disk of these bytes comes in place of what is held.
fn put_new(held: &mut Held, bytes: &[u8], out: &mut Answer) {
    let Ok(disk) = MemoryDisk::new(out.alloc(), bytes) else {
        out.run_out();
        return;
    };
    *held = Held::Closed(disk);
    put_length(bytes.len(), out);
}

// The same of the bytes that the word spells, if it spells some.
fn put_disk(held: &mut Held, word: &str, out: &mut Answer) {
    match hex::decode(out.alloc(), word.as_bytes()) {
        Ok(bytes) => put_new(held, &bytes, out),
        Err(_) => put_no_call(out),
    }
}

// Writes the fault, or the front where there is none.
fn put_outcome(fault: Option<DeskFault>, front: u32, out: &mut Answer) {
    let text = match fault {
        None => format!(in out.alloc(); "front {front}"),
        Some(fault) => format!(in out.alloc(); "{fault}"),
    };
    out.put_made(text);
}

fn put_opened(held: &mut Held, out: &mut Answer) {
    match held.open(out.alloc()) {
        Ok(fault) => put_outcome(fault, held.front(), out),
        Err(_) => out.run_out(),
    }
}

fn put_renewed(held: &mut Held, out: &mut Answer) {
    if !held.is_open() {
        out.put(b"closed");
        return;
    }
    match held.renew(out.alloc()) {
        Ok(fault) => put_outcome(fault, held.front(), out),
        Err(_) => out.run_out(),
    }
}

fn put_closed(held: &mut Held, out: &mut Answer) {
    match held.close(out.alloc()) {
        Ok(()) => out.put(b"closed"),
        Err(_) => out.run_out(),
    }
}

// Whether the words are a call on the disk, by the first of them.
fn is_call(words: &[&str]) -> bool {
    match *words {
        [word, ..] => matches!(
            word,
            "disk" | "open" | "renew" | "close" | "fail" | "file" | "calls" | "stop"
        ),
        [] => false,
    }
}

/// Answers a call on the disk; whether the words are one.
pub fn answer(held: &mut Held, words: &[&str], out: &mut Answer) -> bool {
    if !is_call(words) {
        return false;
    }
    match *words {
        ["disk"] => put_disk(held, "", out),
        ["disk", bytes] => put_disk(held, bytes, out),
        ["open"] => put_opened(held, out),
        ["renew"] => put_renewed(held, out),
        ["close"] => put_closed(held, out),
        ["fail" | "file" | "calls" | "stop", ..] => put_of(held, words, out),
        _ => put_no_call(out),
    }
    true
}
