//! Sessions that workers serve at once.

ghost use Rattle.std.specs.Prelude.{◌≡◌};
ghost use Rattle.coordinator.specs.Passes.{ledger_parts};

use super::sessions::{Texts, texts_of};
use super::streams::{Got, Meeting, Sent, Who};
use crate::again::over_disk::{PARTS, coordinator_over, put_closed};
use crate::fault::{Fault, Result};
use crate::output::Output;
use client_link::Streams;
use coordinator::{Coordinator, OpenGate, Pass};
use crossbeam_channel::{Receiver, bounded};
use line_disk::MemoryDisk;
use session::{Served, workers};
use std::alloc::{AllocError, Global};
use std::io::{BufWriter, Read, Write};
use std::marker::Brand;
use std::num::NonZeroU32;
use std::sync::Wait;
use std::sync::ledger::{Blank, Ledger};
use std::thread::Threads;

// The link of a client.
type ClientLink<'t, 'm> = Streams<Sent<'t, 'm>, Got>;

// A client that sends the text, and gets its replies, so many bytes at a time.
fn link_of<'t, 'm>(
    alloc: Global,
    text: &'t [u8],
    most: usize,
    meeting: &'m Meeting,
    who: Who,
) -> Result<ClientLink<'t, 'm>> {
    let got = BufWriter::with_capacity(alloc, 0, Got::new(alloc, most))?;
    Ok(Streams::new(Sent::new(text, most, meeting, who), got))
}

// A channel with these links in it, to which no more come.
fn channel_of<'t, 'm, R: Wait>(
    rt: &R,
    alloc: Global,
    links: Vec<ClientLink<'t, 'm>>,
) -> Result<Receiver<ClientLink<'t, 'm>>> {
    let Ok((sender, receiver)) = bounded::<ClientLink<'t, 'm>, _>(alloc, 2) else {
        return Err(Fault::Memory(AllocError));
    };
    for link in links {
        if sender.send(rt, link).is_err() {
            return Err(Fault::Memory(AllocError));
        }
    }
    Ok(receiver)
}

// Keeps the pass of a session and what its client got.
fn keep<'t, 'm, L: Ledger>(
    alloc: Global,
    session: Served<L, MemoryDisk, ClientLink<'t, 'm>>,
    passes: &mut Vec<Pass<L>>,
    texts: &mut Vec<Vec<u8>>,
) -> Result<()> {
    let Served {
        pass,
        link,
        end: _,
        disk: _,
    } = session;
    passes.push(pass)?;
    let (_rest, got) = link.into_inner();
    texts.push(Vec::from_slice(alloc, got.get_ref().text())?)?;
    Ok(())
}

// Keeps the same of these sessions.
fn keep_all<'t, 'm, L: Ledger>(
    alloc: Global,
    sessions: Vec<Served<L, MemoryDisk, ClientLink<'t, 'm>>>,
    passes: &mut Vec<Pass<L>>,
    texts: &mut Vec<Vec<u8>>,
) -> Result<()> {
    for session in sessions {
        keep(alloc, session, passes, texts)?;
    }
    Ok(())
}

// Serves the clients of these links by two workers, and keeps what each got.
fn serve<'t, 'm, L: Ledger + Send + Sync, R: Threads + Wait + Sync>(
    rt: &R,
    coordinator: &Coordinator<L, MemoryDisk>,
    links: Vec<ClientLink<'t, 'm>>,
    passes: &mut Vec<Pass<L>>,
    texts: &mut Vec<Vec<u8>>,
) -> Result<()> {
    let alloc = coordinator.alloc();
    let links = channel_of(rt, alloc, links)?;
    for sessions in workers(rt, alloc, coordinator, &OpenGate, 2, links)? {
        keep_all(alloc, sessions, passes, texts)?;
    }
    Ok(())
}

// Writes these texts in order.
fn put_texts<W: Write + Drop>(texts: &mut Vec<Vec<u8>>, out: &mut Output<W>) -> Result<()> {
    texts.sort()?;
    for text in texts.iter() {
        out.put(text);
        out.put(b"\n");
    }
    Ok(())
}

// Serves the clients, and writes what they got, in the order of these texts.
fn put_served<'t, 'm, L: Ledger + Send + Sync, R: Threads + Wait + Sync, W: Write + Drop>(
    rt: &R,
    coordinator: &Coordinator<L, MemoryDisk>,
    links: Vec<ClientLink<'t, 'm>>,
    passes: &mut Vec<Pass<L>>,
    out: &mut Output<W>,
) -> Result<()> {
    let mut texts = Vec::new(coordinator.alloc());
    serve(rt, coordinator, links, passes, &mut texts)?;
    put_texts(&mut texts, out)
}

// The link of the client that is served alone.
fn alone<'t, 'm>(
    alloc: Global,
    texts: &Texts<'t>,
    most: usize,
    meeting: &'m Meeting,
) -> Result<Vec<ClientLink<'t, 'm>>> {
    let mut links = Vec::new(alloc);
    links.push(link_of(alloc, texts.first, most, meeting, Who::Alone)?)?;
    Ok(links)
}

// The links of the two that are served at once.
fn both<'t, 'm>(
    alloc: Global,
    texts: &Texts<'t>,
    most: usize,
    meeting: &'m Meeting,
) -> Result<Vec<ClientLink<'t, 'm>>> {
    let mut links = Vec::new(alloc);
    links.push(link_of(alloc, texts.second, most, meeting, Who::One)?)?;
    links.push(link_of(alloc, texts.third, most, meeting, Who::Other)?)?;
    Ok(links)
}

// Serves the client that is served alone, and then the other two.
fn put_links<L: Ledger + Send + Sync, R: Threads + Wait + Sync, W: Write + Drop>(
    rt: &R,
    coordinator: &Coordinator<L, MemoryDisk>,
    texts: &Texts<'_>,
    most: usize,
    meeting: &Meeting,
    passes: &mut Vec<Pass<L>>,
    out: &mut Output<W>,
) -> Result<()> {
    let links = alone(coordinator.alloc(), texts, most, meeting)?;
    put_served(rt, coordinator, links, passes, out)?;
    let links = both(coordinator.alloc(), texts, most, meeting)?;
    put_served(rt, coordinator, links, passes, out)
}

// The same by a meeting of their own, and how many waited in vain.
fn put_meeting<L: Ledger + Send + Sync, R: Threads + Wait + Sync, W: Write + Drop>(
    rt: &R,
    coordinator: &Coordinator<L, MemoryDisk>,
    texts: &Texts<'_>,
    most: usize,
    passes: &mut Vec<Pass<L>>,
    out: &mut Output<W>,
) -> Result<()> {
    let meeting = Meeting::new();
    put_links(rt, coordinator, texts, most, &meeting, passes, out)?;
    let late = meeting.late();
    out.put_made(format!(in coordinator.alloc(); "LATE {late}\n"));
    Ok(())
}

// Serves three clients; answers the passes.
fn serve_all<L: Ledger + Send + Sync, R: Threads + Wait + Sync, W: Write + Drop>(
    rt: &R,
    coordinator: &Coordinator<L, MemoryDisk>,
    texts: &Texts<'_>,
    most: usize,
    out: &mut Output<W>,
) -> Result<Vec<Pass<L>>> {
    let mut passes = Vec::new(coordinator.alloc());
    put_meeting(rt, coordinator, texts, most, &mut passes, out)?;
    Ok(passes)
}

// The same over a coordinator of its own, which is closed.
fn put_all<L: Ledger + Send + Sync, R: Threads + Wait + Sync, W: Write + Drop>(
    rt: &R,
    alloc: Global,
    blank: Blank,
    texts: &Texts<'_>,
    most: usize,
    out: &mut Output<W>,
) -> Result<()>
    requires name { blank.name ≡ L.name }
    requires parts { (blank.parts ≡ L.parts) × (blank.parts ≡ ledger_parts) }
{
    let disk = MemoryDisk::new(alloc, &[])?;
    let coordinator = coordinator_over::<L, _, W>(alloc, blank, disk, 1, out)?;
    let passes = serve_all(rt, &coordinator, texts, most, out)?;
    put_closed(coordinator, passes, out)
}

/// Serves three clients by two workers, the first alone and then the other two at once: the first reads of these wait for each other. What
/// they send and get goes so many bytes at a time. Their texts are parted by empty lines, and so is what they get, that of the two in the order
/// of these texts. Tells how many clients waited in vain, and how the coordinator ended.
pub fn answer_all<T: Wait + Threads + Sync>(
    rt: &HostRuntime,
    threads: &T,
    most: NonZeroU32,
) -> Result<()> {
    let alloc = rt.alloc();
    let mut input = Vec::new(alloc);
    rt.reader().read_to_end(&mut input)?;
    put_all::<Brand, _, _>(
        threads,
        alloc,
        Blank::new(PARTS),
        &texts_of(&input),
        most.get() as usize,
        &mut Output::new(rt.stdout()),
    )
}
