//! Reads a text of any depth in a loop, for the first fault that it has in the order of `EventsFault`. No tree is kept, only what is told
//! of the nodes around it.

ghost use Rattle.std.specs.Prelude.{◌≡◌, ◌≤◌, ◌+◌, ◌-◌, ◌*◌, Some, None, IsTrue, false, IfOk, IfErr, OnOk, option_map};
ghost use Rattle.std.specs.Char.{is_ascii_digit};
ghost use Rattle.event_tree.specs.working.Reading.{IsReadFault, capped, leaf_verdict, node_verdict, node_kept, ended, digit_read, opened, halved, parted, joined, step_of, reading, verdict_shown, last_shown, opens_shown, state_shown};

use crate::fault::EventsFault;
use std::alloc::Global;

// What a number may be.
#[derive(Clone, Copy, Drop)]
pub enum Role {
    Base,
    Whole,
}

// What is known of a tree that was read. Of one in normal form: whether its root is 0, its depth, where 41 stands for all
// that is deeper, and its greatest value if it is within both limits.
#[derive(Clone, Copy, Drop)]
pub enum Part {
    Normal(bool, u8, Option<u32>),
    NotNormal,
}

// A node whose end is still to come: its base, `None` if that is too large, and then its left half.
#[derive(Clone, Copy, Drop)]
pub enum Pending {
    Left(Option<u32>),
    Right(Option<u32>, Part),
}

// What was read last.
#[derive(Clone, Copy, Drop)]
pub enum Last {
    Awaited(Role),
    Number(Role, Option<u32>),
    Tree(Part),
}

// The number with one more digit, if it is within the limit.
fn with_digit(n: u32, digit: u8) -> Option<u32>
    requires low { 48 ≤ digit }
    requires high { digit ≤ 57 }
    ensures { result ≡ capped (n * 10 + (digit - 48)) }
{
    let more = u64::from(n) * 10 + u64::from(digit - b'0');
    if more <= u64::from(u32::MAX) {
        Some(more as u32)
    } else {
        None
    }
}

// What was read last after one more digit, in its place; or no digit may stand there.
fn take_digit(last: &mut Last, digit: u8) -> bool
    requires low { 48 ≤ digit }
    requires high { digit ≤ 57 }
    ensures taken { IsTrue result → digit_read (last_shown last.old) digit ≡ Some (last_shown last.new) }
    ensures none { result ≡ false → digit_read (last_shown last.old) digit ≡ None }
{
    match last {
        Last::Awaited(role) => {
            *last = Last::Number(*role, Some(u32::from(digit - b'0')));
            true
        }
        Last::Number(_, n) => match *n {
            None => true,
            Some(0) => false,
            Some(before) => {
                *n = with_digit(before, digit);
                true
            }
        },
        Last::Tree(_) => false,
    }
}

fn after_opening(last: Last) -> Option<Last>
    ensures { option_map last_shown result ≡ opened (last_shown last) }
{
    match last {
        Last::Awaited(Role::Whole) => Some(Last::Awaited(Role::Base)),
        _ => None,
    }
}

fn leaf_of(n: Option<u32>) -> Part
    ensures { verdict_shown result ≡ leaf_verdict n }
{
    match n {
        None => Part::Normal(false, 0, None),
        Some(n) => Part::Normal(n == 0, 0, Some(n)),
    }
}

// The tree that may end here.
fn part_of(last: Last) -> Option<Part>
    ensures { option_map verdict_shown result ≡ ended (last_shown last) }
{
    match last {
        Last::Number(Role::Whole, n) => Some(leaf_of(n)),
        Last::Tree(part) => Some(part),
        _ => None,
    }
}

fn node_of(n: Option<u32>, l: Part, r: Part) -> Part
    ensures { verdict_shown result ≡ node_verdict n (verdict_shown l) (verdict_shown r) }
{
    match (l, r) {
        (Part::Normal(y, g, s), Part::Normal(z, h, t)) => {
            let higher = g.max(h);
            if !(y || z) || (y && z && higher == 0) {
                return Part::NotNormal;
            }
            let depth = higher.min(40) + 1;
            Part::Normal(n == Some(0), depth, greatest_within(depth, n, s, t))
        }
        _ => Part::NotNormal,
    }
}

// The greatest value of a node, if it is within both limits.
fn greatest_within(depth: u8, n: Option<u32>, l: Option<u32>, r: Option<u32>) -> Option<u32>
    ensures { result ≡ node_kept depth n l r }
{
    match (n, l, r) {
        (Some(n), Some(a), Some(b)) => {
            let room = u32::MAX - n;
            if depth <= 40 && a <= room && b <= room {
                Some(n + a.max(b))
            } else {
                None
            }
        }
        _ => None,
    }
}

fn after_half(stack: &mut Vec<Pending>, half: Part) -> Result<Last, EventsFault>
    ensures ok { IfOk result (λ next. halved (opens_shown stack.old.items) (verdict_shown half) ≡ Some (state_shown stack.new.items next)) }
    ensures err { IfErr result (λ fault. IsReadFault fault (halved (opens_shown stack.old.items) (verdict_shown half))) }
{
    match stack.pop() {
        Some(Pending::Left(n)) => {
            stack.push(Pending::Right(n, half))?;
            Ok(Last::Awaited(Role::Whole))
        }
        _ => Err(EventsFault::Syntax),
    }
}

fn after_comma(stack: &mut Vec<Pending>, last: Last) -> Result<Last, EventsFault>
    ensures ok { IfOk result (λ next. parted (opens_shown stack.old.items) (last_shown last) ≡ Some (state_shown stack.new.items next)) }
    ensures err { IfErr result (λ fault. IsReadFault fault (parted (opens_shown stack.old.items) (last_shown last))) }
{
    match last {
        Last::Awaited(_) => Err(EventsFault::Syntax),
        Last::Number(Role::Base, n) => {
            stack.push(Pending::Left(n))?;
            Ok(Last::Awaited(Role::Whole))
        }
        Last::Number(Role::Whole, n) => after_half(stack, leaf_of(n)),
        Last::Tree(part) => after_half(stack, part),
    }
}

fn after_closing(stack: &mut Vec<Pending>, half: Part) -> Result<Last, EventsFault>
    ensures ok { IfOk result (λ next. joined (opens_shown stack.old.items) (verdict_shown half) ≡ Some (state_shown stack.new.items next)) }
    ensures err { IfErr result (λ fault. IsReadFault fault (joined (opens_shown stack.old.items) (verdict_shown half))) }
{
    match stack.pop() {
        Some(Pending::Right(n, left)) => Ok(Last::Tree(node_of(n, left, half))),
        _ => Err(EventsFault::Syntax),
    }
}

// What was read last after one more byte that is no digit.
fn step(stack: &mut Vec<Pending>, last: Last, byte: u8) -> Result<Last, EventsFault>
    requires { is_ascii_digit byte ≡ false }
    ensures ok { IfOk result (λ next. step_of (state_shown stack.old.items last) byte ≡ Some (state_shown stack.new.items next)) }
    ensures err { IfErr result (λ fault. IsReadFault fault (step_of (state_shown stack.old.items last) byte)) }
{
    match byte {
        b'(' => after_opening(last).ok_or(EventsFault::Syntax),
        b',' => after_comma(stack, last),
        b')' => match part_of(last) {
            Some(half) => after_closing(stack, half),
            None => Err(EventsFault::Syntax),
        },
        _ => Err(EventsFault::Syntax),
    }
}

// What was read last after one more byte, in its place.
fn take(stack: &mut Vec<Pending>, last: &mut Last, byte: u8) -> Result<(), EventsFault>
    ensures ok { OnOk result (step_of (state_shown stack.old.items last.old) byte ≡ Some (state_shown stack.new.items last.new)) }
    ensures err { IfErr result (λ fault. IsReadFault fault (step_of (state_shown stack.old.items last.old) byte)) }
{
    if byte.is_ascii_digit() {
        return if take_digit(last, byte) {
            Ok(())
        } else {
            Err(EventsFault::Syntax)
        };
    }
    *last = step(stack, *last, byte)?;
    Ok(())
}

// What is known of the tree that the bytes spell.
pub fn read(alloc: Global, bytes: &[u8]) -> Result<Part, EventsFault>
    ensures ok { IfOk result (λ part. reading bytes.now ≡ Some (verdict_shown part)) }
    ensures err { IfErr result (λ fault. IsReadFault fault (reading bytes.now)) }
{
    let mut stack = Vec::new(alloc);
    let mut last = Last::Awaited(Role::Whole);
    for byte in bytes {
        take(&mut stack, &mut last, *byte)?;
    }
    if !stack.is_empty() {
        return Err(EventsFault::Syntax);
    }
    match part_of(last) {
        Some(part) => Ok(part),
        None => Err(EventsFault::Syntax),
    }
}
