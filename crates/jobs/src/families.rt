//! Scripts of families that change: children that are forked late, retirements, ids of several parts, pairs, and a message to all.

use crate::random::Random;
use std::alloc::{AllocError, Global};
use std::num::NonZeroU32;

fn put_text(out: &mut Vec<u8>, text: &String) -> Result<(), AllocError> {
    out.extend_from_slice(text.as_bytes())
}

// The root works a while, so that numbers differ from seed to seed.
fn put_root(out: &mut Vec<u8>, random: &mut Random) -> Result<(), AllocError> {
    out.extend_from_slice(b"root r\n")?;
    for _ in 0..random.up_to(9) {
        out.extend_from_slice(b"work r\n")?;
    }
    Ok(())
}

// The root forks so many children, one behind the other, each of which takes a checkpoint.
fn put_children(alloc: Global, out: &mut Vec<u8>, count: u32) -> Result<(), AllocError> {
    for child in 0..count {
        let lines = format!(in alloc; "fork r c{child}g0\ncheck c{child}g0\n")?;
        put_text(out, &lines)?;
    }
    Ok(())
}

// A child forks the next of its line and retires into the root.
fn put_succession(
    alloc: Global,
    out: &mut Vec<u8>,
    child: u32,
    generation: u32,
    next: u32,
) -> Result<(), AllocError> {
    let lines = format!(in alloc;
        "fork c{child}g{generation} c{child}g{next}\ncheck c{child}g{next}\nretire c{child}g{generation} r\nabsorb r c{child}g{generation}\n"
    )?;
    put_text(out, &lines)
}

// The root hears from a child, which is presented then.
fn put_hearing(
    alloc: Global,
    out: &mut Vec<u8>,
    child: u32,
    generation: u32,
) -> Result<(), AllocError> {
    let lines = format!(in alloc;
        "send c{child}g{generation} h{child}g{generation}\nreceive r h{child}g{generation}\ncheck r\npresent c{child}g{generation}\n"
    )?;
    put_text(out, &lines)
}

// The root tells another child what it heard from this one.
fn put_telling(
    alloc: Global,
    out: &mut Vec<u8>,
    (child, generation): (u32, u32),
    (other, told): (u32, u32),
) -> Result<(), AllocError> {
    let lines = format!(in alloc;
        "send r t{child}g{generation}\nreceive c{other}g{told} t{child}g{generation}\ncheck c{other}g{told}\n"
    )?;
    put_text(out, &lines)
}

// A child forks the next of its line and retires into the root, which hears of the next one and tells another line.
fn put_successor(
    alloc: Global,
    out: &mut Vec<u8>,
    child: u32,
    generation: u32,
    other: u32,
) -> Result<(), AllocError> {
    let next = generation.wrapping_add(1);
    put_succession(alloc, out, child, generation, next)?;
    put_hearing(alloc, out, child, next)?;
    let told = if other > child { generation } else { next };
    put_telling(alloc, out, (child, next), (other, told))
}

/// A family whose root forks so many children, each of which begins a line of so many generations that retire into the root.
pub fn successions(
    alloc: Global,
    random: &mut Random,
    children: NonZeroU32,
    generations: u32,
) -> Result<Vec<u8>, AllocError> {
    let mut out = Vec::new(alloc);
    put_root(&mut out, random)?;
    put_children(alloc, &mut out, children.get())?;
    for generation in 0..generations {
        for child in 0..children.get() {
            let other = random.below(children);
            put_successor(alloc, &mut out, child, generation, other)?;
        }
    }
    Ok(out)
}

/// The question for the line where all of such a family failed, down to this generation.
pub fn question_for_all(
    alloc: Global,
    out: &mut Vec<u8>,
    children: u32,
    generations: u32,
) -> Result<(), AllocError> {
    out.extend_from_slice(b"LINE r")?;
    for child in 0..children {
        for generation in 0..generations {
            let name = format!(in alloc; ",c{child}g{generation}")?;
            put_text(out, &name)?;
        }
    }
    out.extend_from_slice(b"\n")
}

// So many idle children of the root, and behind them processes, forked by halves, each with a checkpoint behind its forks.
fn put_pairs(
    alloc: Global,
    out: &mut Vec<u8>,
    idle: u32,
    processes: u32,
) -> Result<(), AllocError> {
    put_children(alloc, out, idle)?;
    out.extend_from_slice(b"fork r p0\ncheck r\n")?;
    for process in 1..processes {
        let parent = process.saturating_sub(1) / 2;
        let line = format!(in alloc; "fork p{parent} p{process}\n")?;
        put_text(out, &line)?;
    }
    for process in 0..processes {
        let line = format!(in alloc; "check p{process}\n")?;
        put_text(out, &line)?;
    }
    Ok(())
}

// One of a pair sends to the other, which takes a checkpoint.
fn put_reply(alloc: Global, out: &mut Vec<u8>, pair: u32, turn: u32) -> Result<(), AllocError> {
    let first = pair.wrapping_mul(2);
    let sender = first.wrapping_add(turn % 2);
    let receiver = first.wrapping_add(1).wrapping_sub(turn % 2);
    let lines = format!(in alloc;
        "send p{sender} m{pair}t{turn}\nreceive p{receiver} m{pair}t{turn}\ncheck p{receiver}\n"
    )?;
    put_text(out, &lines)
}

/// So many pairs that send to and fro behind so many idle children of the root; where one of a pair failed, both fall far.
pub fn pairs(
    alloc: Global,
    random: &mut Random,
    idle: u32,
    pairs: u32,
    turns: u32,
) -> Result<Vec<u8>, AllocError> {
    let mut out = Vec::new(alloc);
    put_root(&mut out, random)?;
    let processes = pairs.saturating_mul(2);
    put_pairs(alloc, &mut out, idle, processes)?;
    for turn in 0..turns {
        for pair in 0..pairs {
            put_reply(alloc, &mut out, pair, turn)?;
        }
    }
    for process in 0..processes {
        let line = format!(in alloc; "present p{process}\n")?;
        put_text(&mut out, &line)?;
    }
    Ok(out)
}

/// So many processes, forked by halves, that all receive what the first of them sends, in so many rounds.
pub fn fan_out(
    alloc: Global,
    random: &mut Random,
    processes: u32,
    rounds: u32,
) -> Result<Vec<u8>, AllocError> {
    let mut out = Vec::new(alloc);
    put_root(&mut out, random)?;
    put_pairs(alloc, &mut out, 0, processes)?;
    for round in 0..rounds {
        let line = format!(in alloc; "send p0 m{round}\n")?;
        put_text(&mut out, &line)?;
        for process in 1..processes {
            let lines = format!(in alloc; "receive p{process} m{round}\ncheck p{process}\n")?;
            put_text(&mut out, &lines)?;
        }
    }
    Ok(out)
}

/// The question for the line where all of these processes failed.
pub fn question_for_processes(
    alloc: Global,
    out: &mut Vec<u8>,
    processes: u32,
) -> Result<(), AllocError> {
    out.extend_from_slice(b"LINE r")?;
    for process in 0..processes {
        let name = format!(in alloc; ",p{process}")?;
        put_text(out, &name)?;
    }
    out.extend_from_slice(b"\n")
}
