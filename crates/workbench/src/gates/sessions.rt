//! Sessions over one coordinator, of which one waits at a gate.

ghost use Rattle.std.specs.Prelude.{◌≡◌, ◌<◌, ◌≤◌};
ghost use Rattle.coordinator.specs.Passes.{ledger_parts};

use super::gate::{HeldGate, Place};
use crate::again::over_disk::{PARTS, coordinator_over, put_closed};
use crate::again::shared::put_replies;
use crate::fault::Result;
use crate::output::Output;
use client_link::MemoryLink;
use coordinator::{Coordinator, Gate, OpenGate, Pass, PassFault};
use line_disk::MemoryDisk;
use session::serve_link;
use std::alloc::{AllocError, Global};
use std::io::{Read, Write};
use std::marker::Brand;
use std::num::NonZeroU32;
use std::sync::Wait;
use std::sync::ledger::{Blank, Ledger};
use std::thread::{Threads, join};

/// The texts of three clients.
#[derive(Drop)]
pub struct Texts<'a> {
    pub first: &'a [u8],
    pub second: &'a [u8],
    pub third: &'a [u8],
}

// The text up to an empty line, which may be the first one, and what stands behind that.
fn cut(text: &[u8]) -> (&[u8], &[u8]) {
    if text.starts_with(b"\n") {
        return (b"".as_slice(), &text[1..]);
    }
    for i in 0..text.len() {
        if text[i..].starts_with(b"\n\n") {
            return (&text[..i + 1], &text[i + 2..]);
        }
    }
    (text, b"".as_slice())
}

/// The texts that are parted by empty lines.
pub fn texts_of(input: &[u8]) -> Texts<'_> {
    let (first, rest) = cut(input);
    let (second, third) = cut(rest);
    Texts {
        first,
        second,
        third,
    }
}

// A client: what it sends, and its pass.
#[derive(Drop)]
struct Client<'a, L: Ledger> {
    text: &'a [u8],
    pass: Pass<L>,
}

// A client that was answered: its pass, and what it got.
#[derive(Drop)]
struct Answered<L: Ledger> {
    pass: Pass<L>,
    got: Vec<u8>,
}

// A client that sends the text.
fn make_client<'a, L: Ledger, R: Wait>(
    rt: &R,
    coordinator: &Coordinator<L, MemoryDisk>,
    text: &'a [u8],
) -> Result<Client<'a, L>, PassFault> {
    let pass = coordinator.pass(rt)?;
    Ok(Client { text, pass })
}

// Serves the client of this link. It stands alone, since its clause is long.
fn serve_link_of<L: Ledger, G: Gate, R: Threads + Wait + Sync>(
    rt: &R,
    coordinator: &Coordinator<L, MemoryDisk>,
    gate: &G,
    pass: &mut Pass<L>,
    link: &mut MemoryLink,
) {
    let _end = serve_link(rt, coordinator, pass, gate, link);
}

// Serves a client that sends this text; answers what it got.
fn serve_text<L: Ledger, G: Gate, R: Threads + Wait + Sync>(
    rt: &R,
    coordinator: &Coordinator<L, MemoryDisk>,
    gate: &G,
    pass: &mut Pass<L>,
    text: &[u8],
) -> Result<Vec<u8>, AllocError> {
    let alloc = coordinator.alloc();
    let mut link = MemoryLink::new(alloc, &[text], 64)?;
    serve_link_of(rt, coordinator, gate, pass, &mut link);
    Vec::from_slice(alloc, link.written())
}

// Answers a client that sends this text by calls; answers what it got.
fn answer_text<L: Ledger, R: Threads + Wait + Sync>(
    rt: &R,
    coordinator: &Coordinator<L, MemoryDisk>,
    gate: &HeldGate,
    pass: &mut Pass<L>,
    text: &[u8],
) -> Result<Vec<u8>> {
    let mut out = Output::new(Vec::new(coordinator.alloc()));
    put_replies(rt, coordinator, pass, gate, text, &mut out)?;
    out.end()?;
    Ok(out.into_stream())
}

// Serves the client by a session.
fn serve<L: Ledger, G: Gate, R: Threads + Wait + Sync>(
    rt: &R,
    coordinator: &Coordinator<L, MemoryDisk>,
    gate: &G,
    client: Client<'_, L>,
) -> Result<Answered<L>> {
    let Client { text, mut pass } = client;
    let got = serve_text(rt, coordinator, gate, &mut pass, text)?;
    Ok(Answered { pass, got })
}

// Answers the client by calls.
fn answer<L: Ledger, R: Threads + Wait + Sync>(
    rt: &R,
    coordinator: &Coordinator<L, MemoryDisk>,
    gate: &HeldGate,
    client: Client<'_, L>,
) -> Result<Answered<L>> {
    let Client { text, mut pass } = client;
    let got = answer_text(rt, coordinator, gate, &mut pass, text)?;
    Ok(Answered { pass, got })
}

// Serves the client once another one is held at the gate, which goes on then.
fn serve_and_open<L: Ledger, R: Threads + Wait + Sync>(
    rt: &R,
    coordinator: &Coordinator<L, MemoryDisk>,
    gate: &HeldGate,
    client: Client<'_, L>,
) -> Result<Answered<L>> {
    gate.wait();
    let served = serve(rt, coordinator, &OpenGate, client);
    gate.open();
    served
}

// Serves or answers the client, who may be held at the gate.
fn serve_held<L: Ledger, R: Threads + Wait + Sync>(
    rt: &R,
    coordinator: &Coordinator<L, MemoryDisk>,
    gate: &HeldGate,
    client: Client<'_, L>,
) -> Result<Answered<L>> {
    if gate.is_of_session() {
        serve(rt, coordinator, gate, client)
    } else {
        answer(rt, coordinator, gate, client)
    }
}

// Both, if both were made.
fn both_of<T: Drop>(one: Result<T>, other: Result<T>) -> Result<(T, T)> {
    let one = one?;
    Ok((one, other?))
}

// Serves two clients at once, of which the second may be held at the gate.
fn serve_both<L: Ledger + Send + Sync, R: Threads + Wait + Sync>(
    rt: &R,
    coordinator: &Coordinator<L, MemoryDisk>,
    gate: &HeldGate,
    one: Client<'_, L>,
    other: Client<'_, L>,
) -> Result<(Answered<L>, Answered<L>)> {
    let (one, other) = join(
        rt,
        move || serve_and_open(rt, coordinator, gate, one),
        move || serve_held(rt, coordinator, gate, other),
    );
    both_of(one, other)
}

// Serves the clients of these two texts at once.
fn serve_texts<L: Ledger + Send + Sync, R: Threads + Wait + Sync>(
    rt: &R,
    coordinator: &Coordinator<L, MemoryDisk>,
    gate: &HeldGate,
    one: &[u8],
    other: &[u8],
) -> Result<(Answered<L>, Answered<L>)> {
    let one = make_client(rt, coordinator, one)?;
    let other = make_client(rt, coordinator, other)?;
    serve_both(rt, coordinator, gate, one, other)
}

// Writes what a client got, and keeps its pass.
fn put_client<L: Ledger, W: Write + Drop>(
    passes: &mut Vec<Pass<L>>,
    client: Answered<L>,
    out: &mut Output<W>,
) -> Result<()> {
    let Answered { pass, got } = client;
    passes.push(pass)?;
    out.put(&got);
    out.put(b"\n");
    Ok(())
}

// Serves the first client.
fn put_first<L: Ledger, R: Threads + Wait + Sync, W: Write + Drop>(
    rt: &R,
    coordinator: &Coordinator<L, MemoryDisk>,
    text: &[u8],
    passes: &mut Vec<Pass<L>>,
    out: &mut Output<W>,
) -> Result<()> {
    let first = make_client(rt, coordinator, text)?;
    let first = serve(rt, coordinator, &OpenGate, first)?;
    put_client(passes, first, out)
}

// Serves the other two at once.
fn put_both<L: Ledger + Send + Sync, R: Threads + Wait + Sync, W: Write + Drop>(
    rt: &R,
    coordinator: &Coordinator<L, MemoryDisk>,
    gate: &HeldGate,
    texts: &Texts<'_>,
    passes: &mut Vec<Pass<L>>,
    out: &mut Output<W>,
) -> Result<()> {
    let (second, third) = serve_texts(rt, coordinator, gate, texts.second, texts.third)?;
    put_client(passes, second, out)?;
    put_client(passes, third, out)
}

// The same at a gate of their own, and what that counted.
fn put_gated<L: Ledger + Send + Sync, R: Threads + Wait + Sync, W: Write + Drop>(
    rt: &R,
    coordinator: &Coordinator<L, MemoryDisk>,
    place: Place,
    texts: &Texts<'_>,
    passes: &mut Vec<Pass<L>>,
    out: &mut Output<W>,
) -> Result<()> {
    let gate = HeldGate::new(place);
    put_both(rt, coordinator, &gate, texts, passes, out)?;
    gate.put(coordinator.alloc(), out);
    Ok(())
}

// Serves three clients; answers their passes.
fn serve_all<L: Ledger + Send + Sync, R: Threads + Wait + Sync, W: Write + Drop>(
    rt: &R,
    coordinator: &Coordinator<L, MemoryDisk>,
    place: Place,
    texts: &Texts<'_>,
    out: &mut Output<W>,
) -> Result<Vec<Pass<L>>> {
    let mut passes = Vec::new(coordinator.alloc());
    put_first(rt, coordinator, texts.first, &mut passes, out)?;
    put_gated(rt, coordinator, place, texts, &mut passes, out)?;
    Ok(passes)
}

// The same over a coordinator of its own, which is closed.
fn put_all<L: Ledger + Send + Sync, R: Threads + Wait + Sync, W: Write + Drop>(
    rt: &R,
    alloc: Global,
    blank: Blank,
    workers: usize,
    place: Place,
    texts: &Texts<'_>,
    out: &mut Output<W>,
) -> Result<()>
    requires name { blank.name ≡ L.name }
    requires parts { (blank.parts ≡ L.parts) × (blank.parts ≡ ledger_parts) }
    requires workers { (0 < workers) × (workers ≤ 64) }
{
    let disk = MemoryDisk::new(alloc, &[])?;
    let coordinator = coordinator_over::<L, _, W>(alloc, blank, disk, workers, out)?;
    let passes = serve_all(rt, &coordinator, place, texts, out)?;
    put_closed(coordinator, passes, out)
}

/// Serves three clients over a coordinator that computes a line by so many threads, 64 at most, the last two at once; a line of the last one, by calls
/// or in a session, waits at its place until the one before was served. Their texts are parted by empty lines, and so is what they get. Tells what the gate
/// counted, how the coordinator ended, and what the front of a desk is that is opened over its disk.
pub fn answer_all<T: Wait + Threads + Sync>(
    rt: &HostRuntime,
    threads: &T,
    workers: NonZeroU32,
    place: Place,
) -> Result<()> {
    let alloc = rt.alloc();
    let mut input = Vec::new(alloc);
    rt.reader().read_to_end(&mut input)?;
    put_all::<Brand, _, _>(
        threads,
        alloc,
        Blank::new(PARTS),
        workers.get().min(64) as usize,
        place,
        &texts_of(&input),
        &mut Output::new(rt.stdout()),
    )
}
