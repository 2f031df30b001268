//! Scripts of families that send messages.

use crate::random::Random;
use std::alloc::{AllocError, Global};
use std::num::NonZeroU32;

/// Who forks whom.
#[derive(Clone, Copy)]
pub enum Family {
    /// Process i is forked by the one of half its number.
    Halves,
    /// The first process forks all others.
    Comb,
}

/// Who receives what a process sends.
#[derive(Clone, Copy)]
pub enum Ways {
    /// A neighbour in one round, and one far away in another.
    Far,
    /// One of the same sixteen.
    Groups,
    /// The next one, round and round: of two processes, each other by turns.
    Ring,
}

/// Which processes a script has, and what they do.
#[derive(Clone, Copy)]
pub struct Plan {
    pub processes: NonZeroU32,
    pub family: Family,
    pub ways: Ways,
    /// How many messages are sent, each with a checkpoint of its receiver.
    pub messages: u32,
    /// Behind how many messages the computation settles, if it does.
    pub settles: Option<NonZeroU32>,
}

fn put_text(out: &mut Vec<u8>, text: &String) -> Result<(), AllocError> {
    out.extend_from_slice(text.as_bytes())
}

// The root works a while, so that numbers differ from seed to seed.
fn put_root(out: &mut Vec<u8>, random: &mut Random) -> Result<(), AllocError> {
    out.extend_from_slice(b"root p0\n")?;
    for _ in 0..random.up_to(9) {
        out.extend_from_slice(b"work p0\n")?;
    }
    Ok(())
}

fn parent_of(family: Family, child: u32) -> u32 {
    match family {
        Family::Halves => child.saturating_sub(1) / 2,
        Family::Comb => 0,
    }
}

fn put_family(alloc: Global, out: &mut Vec<u8>, plan: &Plan) -> Result<(), AllocError> {
    for child in 1..plan.processes.get() {
        let parent = parent_of(plan.family, child);
        let line = format!(in alloc; "fork p{parent} p{child}\n")?;
        put_text(out, &line)?;
    }
    Ok(())
}

// Each process takes a checkpoint behind its forks.
fn put_checks(alloc: Global, out: &mut Vec<u8>, plan: &Plan) -> Result<(), AllocError> {
    for process in 0..plan.processes.get() {
        let line = format!(in alloc; "check p{process}\n")?;
        put_text(out, &line)?;
    }
    Ok(())
}

// Who sends in a turn, and who receives.
fn ends_of(plan: &Plan, random: &mut Random, turn: u32) -> (u32, u32) {
    let count = u64::from(plan.processes.get());
    let sender = u64::from(turn) % count;
    let round = u64::from(turn) / count;
    let receiver = match plan.ways {
        Ways::Far => (sender * 7 + round + u64::from(random.up_to(3))) % count,
        Ways::Groups => (sender / 16 * 16 + u64::from(random.up_to(15))) % count,
        Ways::Ring => (sender + 1) % count,
    };
    let other = if receiver == sender {
        (receiver + 1) % count
    } else {
        receiver
    };
    (sender as u32, other as u32)
}

// Sometimes a process works beside.
fn put_work(
    alloc: Global,
    out: &mut Vec<u8>,
    random: &mut Random,
    process: u32,
) -> Result<(), AllocError> {
    if random.up_to(7) > 0 {
        return Ok(());
    }
    let line = format!(in alloc; "work p{process}\n")?;
    put_text(out, &line)
}

fn put_message(
    alloc: Global,
    out: &mut Vec<u8>,
    turn: u32,
    sender: u32,
    receiver: u32,
) -> Result<(), AllocError> {
    let lines = format!(in alloc;
        "send p{sender} m{turn}\nreceive p{receiver} m{turn}\ncheck p{receiver}\n"
    )?;
    put_text(out, &lines)
}

// The computation settles where one of the processes failed.
fn put_settle(
    alloc: Global,
    out: &mut Vec<u8>,
    plan: &Plan,
    random: &mut Random,
) -> Result<(), AllocError> {
    let failed = random.below(plan.processes);
    let line = format!(in alloc; "settle p{failed}\n")?;
    put_text(out, &line)
}

fn put_turn(
    alloc: Global,
    out: &mut Vec<u8>,
    plan: &Plan,
    random: &mut Random,
    turn: u32,
) -> Result<(), AllocError> {
    let (sender, receiver) = ends_of(plan, random, turn);
    put_work(alloc, out, random, sender)?;
    put_message(alloc, out, turn, sender, receiver)?;
    match plan.settles {
        Some(turns) if turn % turns.get() == turns.get() - 1 => {
            put_settle(alloc, out, plan, random)
        }
        _ => Ok(()),
    }
}

/// The script of a plan.
pub fn script(alloc: Global, plan: &Plan, random: &mut Random) -> Result<Vec<u8>, AllocError> {
    let mut out = Vec::new(alloc);
    put_root(&mut out, random)?;
    put_family(alloc, &mut out, plan)?;
    put_checks(alloc, &mut out, plan)?;
    for turn in 0..plan.messages {
        put_turn(alloc, &mut out, plan, random, turn)?;
    }
    Ok(out)
}
