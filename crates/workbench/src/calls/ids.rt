//! Calls on ids.

use super::answer::{Answer, Spelled, Written, put_by_three, put_by_two, put_by_word};
use id_tree::{Id, IdFault};
use std::alloc::{AllocError, Global};

impl Spelled for Id {
    type Fault = IdFault;

    fn of(alloc: Global, word: &str) -> Result<Id, IdFault> {
        Id::parse(alloc, word.as_bytes())
    }
}

impl Written for Id {
    fn append_to(&self, text: &mut Vec<u8>) -> Result<(), AllocError> {
        self.write_to(text)
    }
}

fn put_id(id: &Id, out: &mut Answer) {
    out.put_value(id);
}

fn put_whether_owning(id: &Id, out: &mut Answer) {
    out.put_whether(id.owns_any());
}

fn put_whether_disjoint(left: &Id, right: &Id, out: &mut Answer) {
    out.put_whether(left.disjoint(right));
}

// Whether the first id owns each point that the other owns.
fn put_whether_covering(id: &Id, other: &Id, out: &mut Answer) {
    out.put_whether(id.covers(other));
}

// Whether the first id is the sum of the other two.
fn put_whether_sum(whole: &Id, left: &Id, right: &Id, out: &mut Answer) {
    out.put_whether(whole.is_sum_of(left, right));
}

fn put_parts(id: &Id, out: &mut Answer) {
    let parts = id.split(out.alloc());
    out.put_given(parts);
}

fn put_sum(left: &Id, right: &Id, out: &mut Answer) {
    let sum = left.sum(out.alloc(), right);
    out.put_given(sum);
}

/// Answers a call on ids; whether the words are one.
pub fn answer(words: &[&str], out: &mut Answer) -> bool {
    match *words {
        ["id", id] => put_by_word(id, out, put_id),
        ["owns_any", id] => put_by_word(id, out, put_whether_owning),
        ["disjoint", left, right] => put_by_two(left, right, out, put_whether_disjoint),
        ["covers", id, other] => put_by_two(id, other, out, put_whether_covering),
        ["is_sum", whole, left, right] => put_by_three(whole, left, right, out, put_whether_sum),
        ["split", id] => put_by_word(id, out, put_parts),
        ["sum", left, right] => put_by_two(left, right, out, put_sum),
        _ => return false,
    }
    true
}
