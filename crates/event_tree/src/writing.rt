//! How the text of a tree is written: its length is known first, so that there is room for all of it, and then one walk over the
//! entries writes it by place. A comma stands in front of each entry but the first, and behind a leaf a bracket for each node that ends there.

ghost use Rattle.std.specs.Prelude.{◌≡◌, ◌≤◌, ◌<◌, ◌+◌, ◌*◌, ◌^◌, ◌/◌, ◌%◌, ◌∷◌, ◌++◌, [], length, OnOk, OnErr};
ghost use Rattle.std.specs.Fmt.{decimal};
ghost use Rattle.id_tree.specs.NormalForm.{depth_limit};
ghost use Rattle.event_tree.specs.NormalForm.{depth};
ghost use Rattle.event_tree.specs.Spelling.{spelling};
ghost use Rattle.event_tree.specs.working.Pieces.{closing, turned, piece, behind, pieces, AreKept, IsPut};

use crate::layout::entries::Entry;
use crate::layout::view::{EventPart, EventView};
use itoa::Buffer;
use std::alloc::AllocError;

// How many digits a number of more than one digit has beside its first.
fn digits_behind(n: u32) -> usize
    requires { 10 ≤ n }
    ensures are { result + 1 ≡ length (decimal n) }
    ensures most { result ≤ 9 }
{
    match n {
        0..=99 => 1,
        100..=999 => 2,
        1_000..=9_999 => 3,
        10_000..=99_999 => 4,
        100_000..=999_999 => 5,
        1_000_000..=9_999_999 => 6,
        10_000_000..=99_999_999 => 7,
        100_000_000..=999_999_999 => 8,
        _ => 9,
    }
}

// The sum and the digits that a number has beside its first. Most have none, which is asked first.
#[inline(always)]
fn with_digits(sum: usize, n: u32) -> usize
    requires { sum + 9 < 2 ^ 64 }
    ensures are { result + 1 ≡ sum + length (decimal n) }
    ensures most { result ≤ sum + 9 }
{
    if n < 10 {
        return sum;
    }
    sum + digits_behind(n)
}

// How many bytes the text has: the digits, and two brackets and two commas for each node, of which there are one fewer than leaves.
fn text_length(e: &EventView) -> usize
    ensures { result ≡ length (spelling e.now) }
{
    let entries = e.entries();
    let mut sum: usize = 0;
    for entry in entries {
        sum = with_digits(sum, entry.value);
    }
    sum + 3 * entries.len() - 2
}

// Writes a byte.
#[inline(always)]
fn put_byte(byte: u8, out: &mut [u8], at: usize) -> usize
    requires { at < length out.old }
    ensures { IsPut out.old out.new at result (byte ∷ []) }
{
    out[at] = byte;
    at + 1
}

// Writes two digits.
#[inline(always)]
fn put_pair(n: u32, out: &mut [u8], at: usize) -> usize
    requires two { n < 100 }
    requires room { at + 1 < length out.old }
    ensures { IsPut out.old out.new at result ((48 + n / 10) ∷ (48 + n % 10) ∷ []) }
{
    let last = put_byte(b'0' + (n / 10) as u8, out, at);
    put_byte(b'0' + (n % 10) as u8, out, last)
}

// Writes the digits of a number. Most have one or two, which take no call.
#[inline(always)]
#[cycle(put)]
fn put_number(n: u32, out: &mut [u8], at: usize) -> usize
    requires { at + length (decimal n) ≤ length out.old }
    ensures { IsPut out.old out.new at result (decimal n) }
{
    if n < 10 {
        return put_byte(b'0' + n as u8, out, at);
    }
    if n < 100 {
        return put_pair(n, out, at);
    }
    put_digits(n, out, at)
}

// Writes the digits of a number that has more than two.
#[cycle(put)]
fn put_digits(n: u32, out: &mut [u8], at: usize) -> usize
    requires more { 100 ≤ n }
    requires room { at + length (decimal n) ≤ length out.old }
    ensures { IsPut out.old out.new at result (decimal n) }
{
    let last = put_number(n / 100, out, at);
    put_pair(n % 100, out, last)
}

// Writes the brackets that close where a half ends, and turns to the second half of the innermost node that is left. Which halves are
// being written is one number: a binary digit for each node that is open, the innermost last, and 1 in its second half.
#[inline(always)]
fn put_closing(halves: u64, out: &mut [u8], at: usize) -> (usize, u64)
    requires { at + length (closing halves) ≤ length out.old }
    ensures put { IsPut out.old out.new at result.0 (closing halves) }
    ensures turned { result.1 ≡ turned halves }
{
    let mut next = at;
    let mut left = halves;
    while left % 2 == 1 {
        next = put_byte(b')', out, next);
        left /= 2;
    }
    (next, left + 1)
}

// Writes what an entry adds, and says which halves are being written behind it.
#[inline(always)]
fn put_piece(entry: &Entry, halves: u64, out: &mut [u8], at: usize) -> (usize, u64)
    requires small { halves < 2 ^ 63 }
    requires room { at + length (piece entry.now halves) ≤ length out.old }
    ensures put { IsPut out.old out.new at result.0 (piece entry.now halves) }
    ensures turned { result.1 ≡ behind entry.now halves }
{
    if entry.size <= 1 {
        let end = put_number(entry.value, out, at);
        return put_closing(halves, out, end);
    }
    let inside = put_byte(b'(', out, at);
    (put_number(entry.value, out, inside), halves * 2)
}

// Writes the text of the entries behind the first, which is a node.
fn put_pieces(entries: &[Entry], out: &mut [u8], start: usize) -> usize
    requires kept { AreKept 0 entries.now }
    requires room { start + length (pieces 0 entries.now) ≤ length out.old }
    ensures { IsPut out.old out.new start result (pieces 0 entries.now) }
{
    let mut at = start;
    let mut halves: u64 = 0;
    for entry in entries {
        let next = put_byte(b',', out, at);
        let (end, later) = put_piece(entry, halves, out, next);
        at = end;
        halves = later;
    }
    at
}

// Writes the text of a tree from one place on, and says where it ends.
fn put_text(e: &EventView, out: &mut [u8], start: usize) -> usize
    requires shallow { depth e.now ≤ depth_limit }
    requires room { start + length (spelling e.now) ≤ length out.old }
    ensures { IsPut out.old out.new start result (spelling e.now) }
{
    match e.part() {
        EventPart::Leaf(n) => put_number(n, out, start),
        EventPart::Node(n, _, _) => {
            let base = put_byte(b'(', out, start);
            let end = put_number(n, out, base);
            put_pieces(e.entries().split_at(1).1, out, end)
        }
    }
}

// Appends the text of a leaf, whose length need not be known first.
fn append_number(n: u32, out: &mut Vec<u8>) -> Result<(), AllocError>
    ensures ok { OnOk result (out.new.items ≡ out.old.items ++ decimal n) }
    ensures err { OnErr result (out.new.items ≡ out.old.items) }
{
    let mut buffer = Buffer::new();
    out.extend_from_slice(buffer.format(n).as_bytes())
}

// Appends the text. On a refused growth `out` is as it was.
pub fn append_text(e: &EventView, out: &mut Vec<u8>) -> Result<(), AllocError>
    requires { depth e.now ≤ depth_limit }
    ensures ok { OnOk result (out.new.items ≡ out.old.items ++ spelling e.now) }
    ensures err { OnErr result (out.new.items ≡ out.old.items) }
{
    if let Some(n) = e.leaf() {
        return append_number(n, out);
    }
    let start = out.len();
    let length = text_length(e);
    out.reserve(length)?;
    out.resize(start + length, 0)?;
    let _end = put_text(e, out.as_mut_slice(), start);
    Ok(())
}
