//! Calls on stamps.

use super::answer::{Answer, Spelled, Written, put_by_two, put_by_word};
use event_tree::Events;
use stamp::{Stamp, StampTextFault};
use std::alloc::{AllocError, Global};

impl Spelled for Stamp {
    type Fault = StampTextFault;

    fn of(alloc: Global, word: &str) -> Result<Stamp, StampTextFault> {
        Stamp::parse(alloc, word.as_bytes())
    }
}

impl Written for Stamp {
    fn append_to(&self, text: &mut Vec<u8>) -> Result<(), AllocError> {
        self.write_to(text)
    }
}

fn put_first(out: &mut Answer) {
    let first = Stamp::first(out.alloc());
    out.put_value(&first);
}

fn put_copy(stamp: &Stamp, out: &mut Answer) {
    let copy = stamp.copy(out.alloc());
    out.put_made(copy);
}

fn put_after_event(stamp: &Stamp, out: &mut Answer) {
    let after = stamp.event(out.alloc());
    out.put_given(after);
}

fn put_message(stamp: &Stamp, out: &mut Answer) {
    let message = stamp.peek(out.alloc());
    out.put_made(message);
}

fn put_fork(stamp: &Stamp, out: &mut Answer) {
    let stamps = stamp.fork(out.alloc());
    out.put_given(stamps);
}

// The stamp after a message with these events.
fn put_received(stamp: &Stamp, came: &Events, out: &mut Answer) {
    let after = stamp.receive(out.alloc(), came);
    out.put_given(after);
}

fn put_absorbed(stamp: &Stamp, retired: &Stamp, out: &mut Answer) {
    let after = stamp.absorb(out.alloc(), retired);
    out.put_given(after);
}

/// Answers a call on stamps; whether the words are one.
pub fn answer(words: &[&str], out: &mut Answer) -> bool {
    match *words {
        ["first"] => put_first(out),
        ["stamp", stamp] => put_by_word(stamp, out, put_copy),
        ["event", stamp] => put_by_word(stamp, out, put_after_event),
        ["peek", stamp] => put_by_word(stamp, out, put_message),
        ["fork", stamp] => put_by_word(stamp, out, put_fork),
        ["receive", stamp, came] => put_by_two(stamp, came, out, put_received),
        ["absorb", stamp, retired] => put_by_two(stamp, retired, out, put_absorbed),
        _ => return false,
    }
    true
}
