//! Reads the text of an event tree straight into its entries, whose room follows what was read. Of a text with a fault it only says that
//! it has one.

ghost use Rattle.std.specs.Prelude.{◌≡◌, ◌∷◌, ◌++◌, ◌<◌, ◌≤◌, ◌+◌, ◌-◌, ◌^◌, IsTrue, IfSome, IfOk, length, take, replicate, slice_index_or};
ghost use Rattle.std.specs.Fmt.{decimal};
ghost use Rattle.event_tree.specs.NormalForm.{IsEvents, value_limit};
ghost use Rattle.event_tree.specs.Spelling.{spelling};
ghost use Rattle.event_tree.specs.working.Entries.{blank};
ghost use Rattle.event_tree.specs.working.Taking.{IsBegun, IsLeafTaken, IsClosed, HasTreeRead, AreClosed, IsHalted, Reaches, IsWidened, IsWhole};
ghost use Rattle.event_tree.specs.working.Taking as taking;

use crate::layout::entries::{Entries, Entry, INLINE};
use crate::node::Node;
use smallvec::SmallVec;
use std::alloc::{AllocError, Global};

/// Where the halves that are read (`Around`) come to this number, 40 nodes are open, and none may be begun in them.
const TOO_DEEP: u64 = 1 << 41;

/// How many bytes are looked at, at least, where brackets are counted.
const LEAST_SEEN: usize = 512;

/// How many bytes of a text each node takes at least: `(0,,)`, and a digit, since there is a leaf more than nodes.
const LEAST_NODE: usize = 6;

/// The nodes that are open, since their ends are not read yet. Which of their halves is read is one number: a binary digit for each node
/// behind those of 2, the innermost last, and 1 in its second half. The innermost has its entry at `last`, and the bases have this sum.
/// The entry of a node that is open has its base, and in place of its size where that of the node around it stands.
#[derive(Clone, Copy)]
pub struct Around {
    halves: u64,
    last: u32,
    sum: u32,
}

/// Where a reading halted: the place in the text, how many entries were made, and the nodes that are open.
#[derive(Clone, Copy)]
pub struct Halted {
    at: usize,
    end: usize,
    around: Around,
}

/// How far a reading comes: to the end of the whole text, with so many entries; until the room is full; or to a fault.
#[derive(Clone, Copy)]
pub enum Reached {
    Whole(usize),
    Full(Halted),
    Fault,
}

// What stands behind this byte.
#[inline(always)]
fn behind(byte: u8, text: &[u8]) -> Option<&[u8]>
    ensures { IfSome result (λ rest. text.now ≡ byte ∷ rest.now) }
{
    match text {
        [first, rest @ ..] if *first == byte => Some(rest),
        _ => None,
    }
}

// The value of the digit that stands at the front, and what stands behind it.
#[inline(always)]
fn take_digit(text: &[u8]) -> Option<(u64, &[u8])>
    ensures { IfSome result (λ taken. (text.now ≡ (48 + taken.0) ∷ taken.1.now) × (taken.0 < 10)) }
{
    match text {
        [first, rest @ ..] if first.is_ascii_digit() => Some((u64::from(*first - b'0'), rest)),
        _ => None,
    }
}

// The number that stands at the front, and what stands behind it.
#[inline(always)]
fn take_number(text: &[u8]) -> Option<(u32, &[u8])>
    ensures { IfSome result (λ taken. (text.now ≡ decimal taken.0 ++ taken.1.now) × (taken.0 ≤ value_limit)) }
{
    let (first, mut rest) = take_digit(text)?;
    if first == 0 {
        return Some((0, rest));
    }
    let mut number = first;
    while let Some((digit, later)) = take_digit(rest) {
        number = number * 10 + digit;
        if number > u64::from(u32::MAX) {
            return None;
        }
        rest = later;
    }
    Some((number as u32, rest))
}

// A node's bracket and base that stand at the front, and what stands behind its comma. Most bases have one digit.
#[inline(always)]
fn take_base(text: &[u8]) -> Option<(u32, &[u8])>
    ensures { IfSome result (λ taken. text.now ≡ 40 ∷ (decimal taken.0 ++ 44 ∷ taken.1.now)) }
{
    if text.len() >= 3 && text[0] == b'(' && text[2] == b',' && text[1].is_ascii_digit() {
        return Some((u32::from(text[1] - b'0'), &text[3..]));
    }
    let inside = behind(b'(', text)?;
    let (base, later) = take_number(inside)?;
    let rest = behind(b',', later)?;
    Some((base, rest))
}

// A leaf's number that stands at the front, and what stands behind it. Most have one digit.
#[inline(always)]
fn take_value(text: &[u8]) -> Option<(u32, &[u8])>
    ensures { IfSome result (λ taken. (text.now ≡ decimal taken.0 ++ taken.1.now) × (taken.0 ≤ value_limit)) }
{
    if text.len() >= 2 && text[0].is_ascii_digit() && !text[1].is_ascii_digit() {
        return Some((u32::from(text[0] - b'0'), &text[1..]));
    }
    take_number(text)
}

// Begins the node that stands at the front: the nodes that are open with it, and what stands behind its base.
#[inline(always)]
fn begin<'a>(
    text: &'a [u8],
    around: Around,
    room: &mut [Entry],
    end: usize,
) -> Option<(Around, &'a [u8])>
    requires free { end < length room.old }
    requires fits { length room.old < 2 ^ 32 }
    ensures { IfSome result (λ begun. IsBegun text.now begun.1.now around begun.0 room.old room.new end) }
{
    if around.halves >= TOO_DEEP {
        return None;
    }
    let (base, rest) = take_base(text)?;
    let sum = around.sum.checked_add(base)?;
    room[end] = Entry {
        value: base,
        size: around.last,
    };
    let inner = Around {
        halves: around.halves * 2,
        last: end as u32,
        sum,
    };
    Some((inner, rest))
}

// Reads the leaf that stands at the front, below nodes whose bases have this sum: what stands behind it.
#[inline(always)]
fn take_leaf<'a>(text: &'a [u8], above: u32, room: &mut [Entry], end: usize) -> Option<&'a [u8]>
    requires { end < length room.old }
    ensures { IfSome result (λ rest. IsLeafTaken text.now rest.now above room.old room.new end) }
{
    let (root, rest) = take_value(text)?;
    let _value = above.checked_add(root)?;
    room[end] = Entry {
        value: root,
        size: 1,
    };
    Some(rest)
}

// Whether two halves in normal form, with these roots, of which these are leaves, make a node in normal form.
fn are_halves(left: u32, is_left_leaf: bool, right: u32, is_right_leaf: bool) -> bool
    ensures { result ≡ taking.are_halves left is_left_leaf right is_right_leaf }
{
    if left == 0 {
        !(is_left_leaf && is_right_leaf && right == 0)
    } else {
        right == 0
    }
}

// Makes the entry at `start` that of a node of the two halves behind it, up to `end`, and hands out what it was before; or they make
// none in normal form. Fields are read one by one, since both at once would wait for what was written of each.
#[inline(always)]
fn close(room: &mut [Entry], start: usize, end: usize) -> Option<Entry>
    requires one { start + 1 < length room.old }
    requires other { start + 1 + (slice_index_or room.old (start + 1) blank).size < length room.old }
    requires fits { end < 2 ^ 32 }
    requires size { start ≤ end }
    ensures { IfSome result (λ mark. IsClosed start end mark room.old room.new) }
{
    let left = room[start + 1].value;
    let left_size = room[start + 1].size;
    let middle = start + 1 + left_size as usize;
    let right = room[middle].value;
    let right_size = room[middle].size;
    if !are_halves(left, left_size <= 1, right, right_size <= 1) {
        return None;
    }
    let value = room[start].value;
    let size = room[start].size;
    room[start] = Entry {
        value,
        size: (end - start) as u32,
    };
    Some(Entry { value, size })
}

// Closes the nodes that end behind a tree, whose entries end at `end`: those that are open then, and what stands behind.
#[inline(always)]
fn close_all<'a>(
    text: &'a [u8],
    room: &mut [Entry],
    end: usize,
    around: Around,
) -> Option<(Around, &'a [u8])>
    requires { HasTreeRead text.now around room.old end }
    ensures { IfSome result (λ left. AreClosed text.now left.1.now around left.0 room.old room.new end) }
{
    let mut rest = text;
    let mut left = around;
    while left.halves % 2 == 1 {
        let Some(later) = behind(b')', rest) else {
            return None;
        };
        let Some(mark) = close(room, left.last as usize, end) else {
            return None;
        };
        left = Around {
            halves: left.halves / 2,
            last: mark.size,
            sum: left.sum - mark.value,
        };
        rest = later;
    }
    Some((left, rest))
}

// Goes on with the tree that the whole text spells, as far as there is room. It is called a few times, and keeps its registers so.
#[inline(never)]
fn take_on(text: &[u8], from: Halted, room: &mut [Entry]) -> Reached
    requires { IsHalted text.now from room.old }
    ensures { Reaches result text.now room.old room.new }
{
    let (_, left_over) = text.split_at(from.at);
    let mut rest = left_over;
    let mut end = from.end;
    let mut around = from.around;
    while end < room.len() {
        if let [b'(', ..] = rest {
            let Some((inner, inside)) = begin(rest, around, room, end) else {
                return Reached::Fault;
            };
            rest = inside;
            around = inner;
            end += 1;
            continue;
        }
        let Some(later) = take_leaf(rest, around.sum, room, end) else {
            return Reached::Fault;
        };
        end += 1;
        let Some((left, ended)) = close_all(later, room, end, around) else {
            return Reached::Fault;
        };
        if left.halves == 2 {
            if ended.is_empty() {
                return Reached::Whole(end);
            }
            return Reached::Fault;
        }
        let Some(second) = behind(b',', ended) else {
            return Reached::Fault;
        };
        around = Around {
            halves: left.halves + 1,
            last: left.last,
            sum: left.sum,
        };
        rest = second;
    }
    Reached::Full(Halted {
        at: text.len() - rest.len(),
        end,
        around,
    })
}

// The same, in a list.
#[inline(always)]
fn take_in(text: &[u8], from: Halted, entries: &mut Entries) -> Reached
    requires { IsHalted text.now from entries.old.items }
    ensures { Reaches result text.now entries.old.items entries.new.items }
{
    take_on(text, from, entries.as_mut_slice())
}

// How many opening brackets a short text has. They are counted in one byte, so that many bytes are compared at once.
fn count_few(text: &[u8]) -> u8 {
    let mut count: u8 = 0;
    for byte in text {
        count = count.wrapping_add(u8::from(*byte == b'('));
    }
    count
}

// How many opening brackets a text has.
fn count_nodes(text: &[u8]) -> usize {
    let mut nodes: usize = 0;
    for piece in text.chunks(128) {
        nodes = nodes.saturating_add(usize::from(count_few(piece)));
    }
    nodes
}

// How many entries a tree has whose nodes all begin in this front of its text, or none has so many, where the text is so long. Six bytes
// are taken by each node, but of those that are open in the front, at most 40, three by each, and of the last one its bracket alone may be
// there.
fn count_entries(front: &[u8], whole: usize) -> Option<usize> {
    let nodes = count_nodes(front);
    let most = (front.len() / LEAST_NODE + 21).min(whole / LEAST_NODE);
    if nodes > most {
        return None;
    }
    Some(nodes.saturating_mul(2).saturating_add(1))
}

// These entries, and blank ones up to so many.
fn widened(alloc: Global, entries: &[Entry], count: usize) -> Result<Entries, AllocError>
    requires { length entries.now ≤ count }
    ensures { IfOk result (λ wider. wider.items ≡ entries.now ++ replicate (count - length entries.now) blank) }
{
    let mut block = Vec::with_capacity(alloc, count)?;
    block.extend_from_slice(entries)?;
    block.resize(count, Entry::default())?;
    Ok(SmallVec::from_vec(block))
}

// Makes room for all brackets up to four times as far as this place; or there is room for them, or they are too many, or memory is
// wanting. So the room follows what was read, and is the tree's where nothing is left to be counted.
fn widen(alloc: Global, text: &[u8], at: usize, entries: &mut Entries) -> bool
    ensures { IsTrue result → IsWidened entries.old.items entries.new.items }
{
    let seen = at.saturating_mul(4).max(LEAST_SEEN).min(text.len());
    let (front, _) = text.split_at(seen);
    let Some(count) = count_entries(front, text.len()) else {
        return false;
    };
    if count <= entries.len() || count > u32::MAX as usize {
        return false;
    }
    let Ok(wider) = widened(alloc, entries.as_slice(), count) else {
        return false;
    };
    *entries = wider;
    true
}

// How many entries the tree has that the whole text spells. They come in front, and the list is made longer as they need it.
fn take_all(alloc: Global, text: &[u8], entries: &mut Entries) -> Option<usize>
    requires { length entries.old.items < 2 ^ 32 }
    ensures { IfSome result (λ end. IsWhole text.now (take end entries.new.items)) }
{
    let mut halted = Halted {
        at: 0,
        end: 0,
        around: Around {
            halves: 2,
            last: 0,
            sum: 0,
        },
    };
    loop {
        match take_in(text, halted, entries) {
            Reached::Whole(end) => return Some(end),
            Reached::Fault => return None,
            Reached::Full(later) => halted = later,
        }
        if !widen(alloc, text, halted.at, entries) {
            return None;
        }
    }
}

// The leaf that the whole text spells. It takes no blank entries.
#[inline(always)]
fn read_leaf(alloc: Global, text: &[u8]) -> Option<Node>
    ensures { IfSome result (λ node. IsEvents node × (text.now ≡ spelling node)) }
{
    let (number, rest) = take_number(text)?;
    if rest.is_empty() {
        Some(Node::leaf(alloc, number))
    } else {
        None
    }
}

// The room that there is at first, which takes no memory.
#[inline(always)]
fn first_room(alloc: Global) -> Entries
    ensures { result.items ≡ replicate 8 blank }
{
    SmallVec::from_buf_and_len(alloc, [Entry::default(); INLINE], INLINE)
}

// The tree that the whole text spells.
fn read_node(alloc: Global, text: &[u8]) -> Option<Node>
    ensures { IfSome result (λ node. IsEvents node × (text.now ≡ spelling node)) }
{
    let mut entries = first_room(alloc);
    let end = take_all(alloc, text, &mut entries)?;
    entries.truncate(end);
    Some(Node::of(entries))
}

// Whether a node may begin so: with a bracket, a number and a comma. Most numbers have one digit, behind which a part is looked for, too.
#[inline(always)]
fn may_begin(text: &[u8]) -> bool {
    match text {
        [b'(', base, b',', part, ..] => {
            base.is_ascii_digit() && (*part == b'(' || part.is_ascii_digit())
        }
        [b'(', b'0', ..] => false,
        [b'(', _, ..] => take_base(text).is_some(),
        _ => false,
    }
}

// The event tree that the bytes spell; `None` where they have a fault, or memory is wanting.
pub fn read(alloc: Global, text: &[u8]) -> Option<Node>
    ensures { IfSome result (λ node. IsEvents node × (text.now ≡ spelling node)) }
{
    if may_begin(text) {
        return read_node(alloc, text);
    }
    read_leaf(alloc, text)
}
