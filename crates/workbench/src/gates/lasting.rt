//! A session in steps, over one coordinator after the other.

ghost use Rattle.std.specs.Prelude.{◌≡◌};
ghost use Rattle.coordinator.specs.Passes.{ledger_parts};

use crate::again::over_disk::{PARTS, coordinator_over};
use crate::fault::{Fault, Result};
use crate::output::Output;
use client_link::NonblockingStreams;
use coordinator::{Coordinator, OpenGate, Pass};
use line_disk::MemoryDisk;
use session::{LastingSession, Rest};
use std::alloc::Global;
use std::io::{self, ErrorKind, Read, Write};
use std::marker::Brand;
use std::num::NonZeroU32;
use std::sync::Wait;
use std::sync::ledger::{Blank, Ledger};
use std::thread::Threads;

// What a client sends, so many bytes at a time. Each time nothing is there at first.
#[derive(Drop)]
struct Sent<'t> {
    rest: &'t [u8],
    most: usize,
    came: bool,
}

impl<'t> Read for Sent<'t> {
    fn read(&mut self, buf: &mut [u8]) -> io::Result<usize> {
        self.came = !self.came;
        if self.came {
            return Err(io::Error::from(ErrorKind::WouldBlock));
        }
        let n = self.most.min(self.rest.len()).min(buf.len());
        let (front, behind) = self.rest.split_at(n);
        buf[..n].copy_from_slice(front);
        self.rest = behind;
        Ok(n)
    }
}

// What a client takes, so many bytes at a time. Each time it takes none at first.
#[derive(Drop)]
struct Got {
    text: Vec<u8>,
    most: usize,
    came: bool,
}

impl Write for Got {
    fn write(&mut self, buf: &[u8]) -> io::Result<usize> {
        self.came = !self.came;
        if self.came {
            return Err(io::Error::from(ErrorKind::WouldBlock));
        }
        let n = self.most.min(buf.len());
        self.text.extend_from_slice(&buf[..n])?;
        Ok(n)
    }

    fn flush(&mut self) -> io::Result<()> {
        Ok(())
    }
}

// A client, its session and what that rests at, and room for what is read.
#[derive(Drop)]
struct Client<'t> {
    link: NonblockingStreams<Sent<'t>, Got>,
    session: LastingSession,
    rest: Rest,
    buf: [u8; 8192],
}

// A client that sends the text, so many bytes at a time.
fn client_of(alloc: Global, text: &[u8], most: usize) -> Client<'_> {
    let sent = Sent {
        rest: text,
        most,
        came: false,
    };
    let got = Got {
        text: Vec::new(alloc),
        most,
        came: false,
    };
    let link = NonblockingStreams::new(alloc, sent, got);
    Client {
        session: LastingSession::new(alloc, &link),
        link,
        rest: Rest::Receive,
        buf: [0u8; 8192],
    }
}

// What the client got.
fn text_of(client: Client<'_>) -> Vec<u8> {
    let Client {
        link,
        session: _,
        rest: _,
        buf: _,
    } = client;
    let (_rest, got) = link.into_inner();
    let Got {
        text,
        most: _,
        came: _,
    } = got;
    text
}

// One step: what came is read, or lines are answered.
fn step<L: Ledger, R: Threads + Wait + Sync>(
    rt: &R,
    coordinator: &Coordinator<L, MemoryDisk>,
    pass: &mut Pass<L>,
    client: &mut Client<'_>,
) -> Rest {
    match client.rest {
        Rest::Due => client
            .session
            .answer(rt, coordinator, pass, &OpenGate, &mut client.link),
        Rest::Read | Rest::Write | Rest::Receive | Rest::Renewal | Rest::Over(_) => {
            client.session.receive(&mut client.link, &mut client.buf)
        }
    }
}

// So many steps; answers whether the session is over.
fn steps<L: Ledger, R: Threads + Wait + Sync>(
    rt: &R,
    coordinator: &Coordinator<L, MemoryDisk>,
    pass: &mut Pass<L>,
    client: &mut Client<'_>,
    count: u32,
) -> bool {
    for _ in 0..count {
        client.rest = step(rt, coordinator, pass, client);
        if let Rest::Over(_) = client.rest {
            return true;
        }
    }
    false
}

// The same with a pass of its own; answers the pass, too.
fn steps_by_pass<L: Ledger, R: Threads + Wait + Sync>(
    rt: &R,
    coordinator: &Coordinator<L, MemoryDisk>,
    client: &mut Client<'_>,
    count: u32,
) -> Result<(Vec<Pass<L>>, bool)> {
    let mut pass = coordinator.pass(rt)?;
    let over = steps(rt, coordinator, &mut pass, client, count);
    let mut passes = Vec::new(coordinator.alloc());
    passes.push(pass)?;
    Ok((passes, over))
}

// So many steps over a coordinator of the file on the disk, which is closed; answers the disk, and whether the session is over.
fn generation<L: Ledger, R: Threads + Wait + Sync, W: Write + Drop>(
    rt: &R,
    alloc: Global,
    blank: Blank,
    disk: MemoryDisk,
    client: &mut Client<'_>,
    count: u32,
    out: &mut Output<W>,
) -> Result<(MemoryDisk, bool)>
    requires name { blank.name ≡ L.name }
    requires parts { (blank.parts ≡ L.parts) × (blank.parts ≡ ledger_parts) }
{
    let coordinator = coordinator_over::<L, _, W>(alloc, blank, disk, 1, out)?;
    let (passes, over) = steps_by_pass(rt, &coordinator, client, count)?;
    match coordinator.close(passes) {
        Ok(ended) => Ok((ended.disk, over)),
        Err(unclosed) => Err(Fault::Close(unclosed.fault)),
    }
}

// The same with a ledger of its own.
fn next_generation<R: Threads + Wait + Sync, W: Write + Drop>(
    rt: &R,
    alloc: Global,
    disk: MemoryDisk,
    client: &mut Client<'_>,
    count: u32,
    out: &mut Output<W>,
) -> Result<(MemoryDisk, bool)> {
    generation::<Brand, _, _>(rt, alloc, Blank::new(PARTS), disk, client, count, out)
}

// Serves the client over one coordinator after the other; answers how many there were.
fn serve<R: Threads + Wait + Sync, W: Write + Drop>(
    rt: &R,
    alloc: Global,
    client: &mut Client<'_>,
    count: u32,
    out: &mut Output<W>,
) -> Result<u32> {
    let mut disk = MemoryDisk::new(alloc, &[])?;
    for made in 0..1_000_000u32 {
        let (left, over) = next_generation(rt, alloc, disk, client, count, out)?;
        if over {
            return Ok(made + 1);
        }
        disk = left;
    }
    Ok(1_000_000)
}

/// Serves the client whose text is on standard input by a session in steps, over one coordinator after the other, each of which is closed
/// behind so many steps. What the client sends and gets goes so many bytes at a time, and each time it has to be waited for. Writes what it
/// got, and how many coordinators there were.
pub fn answer_all<T: Wait + Threads + Sync>(
    rt: &HostRuntime,
    threads: &T,
    most: NonZeroU32,
    count: NonZeroU32,
) -> Result<()> {
    let alloc = rt.alloc();
    let mut input = Vec::new(alloc);
    rt.reader().read_to_end(&mut input)?;
    let mut out = Output::new(rt.stdout());
    let mut client = client_of(alloc, &input, most.get() as usize);
    let made = serve(threads, alloc, &mut client, count.get(), &mut out)?;
    out.put(&text_of(client));
    out.put_made(format!(in alloc; "COORDINATORS {made}\n"));
    out.end()
}
