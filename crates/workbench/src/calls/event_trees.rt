//! Calls on event trees.

use super::answer::{Answer, Spelled, Written, put_by_three, put_by_two, put_by_word};
use event_tree::{Events, EventsFault};
use id_tree::Id;
use std::alloc::{AllocError, Global};

impl Spelled for Events {
    type Fault = EventsFault;

    fn of(alloc: Global, word: &str) -> Result<Events, EventsFault> {
        Events::parse(alloc, word.as_bytes())
    }
}

impl Written for Events {
    fn append_to(&self, text: &mut Vec<u8>) -> Result<(), AllocError> {
        self.write_to(text)
    }
}

fn put_events(events: &Events, out: &mut Answer) {
    out.put_value(events);
}

fn put_join(one: &Events, other: &Events, out: &mut Answer) {
    let join = one.join(out.alloc(), other);
    out.put_made(join);
}

fn put_meet(one: &Events, other: &Events, out: &mut Answer) {
    let meet = one.meet(out.alloc(), other);
    out.put_made(meet);
}

// The tree where the id owns, and the limit elsewhere.
fn put_restricted(events: &Events, id: &Id, out: &mut Answer) {
    let restricted = events.restricted(out.alloc(), id);
    out.put_made(restricted);
}

// What an event of the owner of the id makes of the tree.
fn put_after_event(id: &Id, events: &Events, out: &mut Answer) {
    let after = events.event(out.alloc(), id);
    out.put_given(after);
}

// Whether the first tree is at or below the other.
fn put_whether_below(one: &Events, other: &Events, out: &mut Answer) {
    out.put_whether(one.leq(other));
}

// Whether the first tree is greater than the other at some point that the id owns.
fn put_whether_exceeding(one: &Events, other: &Events, id: &Id, out: &mut Answer) {
    out.put_whether(one.exceeds_on(other, id));
}

/// Answers a call on event trees; whether the words are one.
pub fn answer(words: &[&str], out: &mut Answer) -> bool {
    match *words {
        ["events", events] => put_by_word(events, out, put_events),
        ["leq", one, other] => put_by_two(one, other, out, put_whether_below),
        ["exceeds_on", one, other, id] => put_by_three(one, other, id, out, put_whether_exceeding),
        ["join", one, other] => put_by_two(one, other, out, put_join),
        ["meet", one, other] => put_by_two(one, other, out, put_meet),
        ["restricted", events, id] => put_by_two(events, id, out, put_restricted),
        ["after_event", id, events] => put_by_two(id, events, out, put_after_event),
        _ => return false,
    }
    true
}
