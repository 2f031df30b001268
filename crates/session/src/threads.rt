//! Many clients, served by several threads.

ghost use Rattle.std.specs.Prelude.{◌≡◌, ◌<◌, ◌≤◌, IfOk, length};
ghost use Rattle.session.specs.Sessions.{WasServed};

use crate::kind::SessionEnd;
use crate::over_coordinator::serve_link;
use client_link::Link;
use coordinator::{Coordinator, Gate, Pass};
use crossbeam_channel::Receiver;
use line_disk::Disk;
use std::alloc::{AllocError, Global};
use std::marker::PhantomData;
use std::sync::Wait;
use std::sync::ledger::Ledger;
use std::thread::{Threads, for_each_mut};

/// A session that ended. What its pass gained, what its link tells and how it ended fit together as `serve_link` says.
#[derive(Drop)]
pub struct Served<L: Ledger, D: Disk, K: Link + Drop> {
    /// What the client was answered.
    pub pass: Pass<L>,
    /// The client's link.
    pub link: K,
    /// How the session ended.
    pub end: SessionEnd,
    /// The kind of disk that its desk is on.
    pub disk: PhantomData<D>,
    ghost served: { ∥ WasServed D.keeps D.view K.told link pass end.kind end.replies ∥₁ },
}

/// Serves one link after the other, each with a pass of its own, until the channel is closed, or memory or a pass is wanting.
/// The pass, and the room for what is answered, are there before a link is taken.
fn work<L: Ledger, D: Disk, G: Gate + Sync, K: Link + Drop, R: Threads + Wait + Sync>(
    rt: &R,
    coordinator: &Coordinator<L, D>,
    gate: &G,
    links: &Receiver<K>,
    served: &mut Vec<Served<L, D, K>>,
) {
    for _ in rt.forever() {
        let Ok(()) = served.reserve(1) else {
            return;
        };
        let Ok(mut pass) = coordinator.pass(rt) else {
            return;
        };
        let Ok(mut link) = links.recv(rt) else {
            return;
        };
        let end = serve_link(rt, coordinator, &mut pass, gate, &mut link);
        served.push_reserved(Served {
            pass,
            link,
            end,
            disk: PhantomData,
        });
    }
}

/// Serves the links that come through the channel, until it is closed, by this many threads, 1 to 64. Answers for each thread the
/// sessions that it served, in order. Memory is wanting only before any link is taken. A thread that cannot start is left
/// out; where none can, the caller works alone.
pub fn workers<
    L: Ledger + Send + Sync,
    D: Disk + Send,
    G: Gate + Sync,
    K: Link + Send + Drop,
    R: Threads + Wait + Sync,
>(
    rt: &R,
    alloc: Global,
    coordinator: &Coordinator<L, D>,
    gate: &G,
    n: usize,
    links: Receiver<K>,
) -> Result<Vec<Vec<Served<L, D, K>>>, AllocError>
    requires { (0 < n) × (n ≤ 64) }
    ensures { IfOk result (λ lists. length lists.items ≡ n) }
{
    let mut lists = Vec::with_capacity(alloc, n)?;
    for _ in 0..n {
        lists.push_reserved(Vec::new(alloc));
    }
    let source = &links;
    for_each_mut(
        rt,
        lists.as_mut_slice(),
        n,
        &|_, served| { work(rt, coordinator, gate, source, served) },
    );
    Ok(lists)
}
