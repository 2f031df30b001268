//! One client over a coordinator.

ghost use denote.Param.Send.{IsSync};
ghost use Rattle.std.specs.Prelude.{◌≡◌, ◌≢◌, [], ◌∷◌};
ghost use Rattle.report_line.specs.Cutting.{IsLine, ended};
ghost use Rattle.report_line.specs.Replies.{reply_text};
ghost use Rattle.coordinator.specs.PassTurn.{IsPassTurn};
ghost use Rattle.desk.specs.Files.{IsShort};
ghost use Rattle.desk.specs.Records.{IsReadOff};
ghost use Rattle.session.specs.Gained.{GainsEach, LinkServed};
ghost use Rattle.session.specs.working.Parts.{Serves, PutsLast, WritesNothing, refused_as, one_reply};
ghost use Rattle.session.specs.SessionText.{at_pass};

use crate::flush_policy::FlushPolicy;
use crate::kind::{SessionEnd, SessionEndKind};
use crate::over_desk::is_bye;
use crate::reply_line::put_reply;
use crate::server::Server;
use crate::session::serve;
use crate::turns::call_of;
use client_link::{Link, LinkFault};
use coordinator::{CallFault, Coordinator, Gate, Pass};
use knows_row::OpenChunks;
use line_disk::Disk;
use report_line::{Call, read_line};
use std::alloc::Global;
use std::sync::Wait;
use std::sync::ledger::Ledger;
use std::thread::Threads;

/// Why the session ends where a call got no turn.
fn kind_of(fault: &CallFault) -> SessionEndKind
    ensures { result ≡ refused_as fault.now }
{
    match fault {
        CallFault::Foreign { .. } => SessionEndKind::Foreign,
        CallFault::Worn => SessionEndKind::Worn,
        CallFault::Memory => SessionEndKind::Memory,
    }
}

/// Makes the turn of a call that was read off this line, and adds it to the pass. A question for a line waits for it at the gate; the runs
/// of its table of needs have none of their own.
fn ask<R: Threads + Wait + Sync, L: Ledger, D: Disk, G: Gate>(
    rt: &R,
    coordinator: &Coordinator<L, D>,
    gate: &G,
    pass: &mut Pass<L>,
    line: &[u8],
    call: Call,
) -> Result<(), CallFault>
    requires short { IsShort call }
    requires read { IsReadOff line.now call }
    ensures turn { IsPassTurn D.keeps D.view pass.old call pass.new result }
{
    match call {
        Call::Line(names) => coordinator.ask(rt, pass, gate, &OpenChunks, Call::Line(names)),
        Call::Garbage => coordinator.ask(rt, pass, gate, &OpenChunks, Call::Garbage),
        other => coordinator.call_read(rt, pass, line, other),
    }
}

/// Writes the reply that the pass shows last, and an LF.
fn put_shown<L: Ledger, K: Link>(pass: &Pass<L>, link: &mut K) -> Result<(), LinkFault>
    requires { pass.now.entries ≢ [] }
    ensures { PutsLast pass.now.entries (K.told link.old) (K.told link.new) result }
{
    match pass.shown() {
        Some(shown) => put_reply(link, shown),
        None => Ok(()),
    }
}

/// One line: its turn is made, and then its reply is written. Answers why the session ends, if it does.
pub(crate) fn serve_by_pass<R: Threads + Wait + Sync, L: Ledger, D: Disk, G: Gate, K: Link>(
    rt: &R,
    coordinator: &Coordinator<L, D>,
    gate: &G,
    pass: &mut Pass<L>,
    link: &mut K,
    line: &[u8],
) -> Option<SessionEndKind>
    requires { IsLine line.now }
    ensures served { Serves (GainsEach D.keeps D.view) at_pass (K.told link.old) (K.told link.new) (line.now ∷ []) pass.old pass.new result (one_reply result) }
    ensures untouched { WritesNothing result link.old link.new }
{
    let read = read_line(coordinator.alloc(), line);
    let last = is_bye(&read);
    match ask(rt, coordinator, gate, pass, line, call_of(read)) {
        Err(fault) => Some(kind_of(&fault)),
        Ok(()) => match put_shown(pass, link) {
            Ok(()) if last => Some(SessionEndKind::Bye),
            Ok(()) => None,
            Err(_) => Some(SessionEndKind::WriteFailed),
        },
    }
}

/// A coordinator makes the turns.
#[derive(Drop)]
struct OverCoordinator<'a, R, L: Ledger, D: Disk, G> {
    rt: &'a R,
    coordinator: &'a Coordinator<L, D>,
    gate: &'a G,
}

impl<'a, R: Threads + Wait + Sync, L: Ledger, D: Disk, G: Gate> Server<Pass<L>>
    for OverCoordinator<'a, R, L, D, G> {
    ghost makes = { GainsEach D.keeps D.view };

    ghost grounds = { at_pass };

    ghost leave = { IsSync R.row };

    fn alloc(&self, _state: &Pass<L>) -> Global {
        self.coordinator.alloc()
    }

    fn serve_line<K: Link>(
        &self,
        state: &mut Pass<L>,
        link: &mut K,
        line: &[u8],
    ) -> Option<SessionEndKind> {
        serve_by_pass(self.rt, self.coordinator, self.gate, state, link, line)
    }
}

/// Serves one client over a coordinator, as `run` does over a desk: each line takes its turn under the coordinator's lock and is added to
/// the pass, and its reply is written and handed on before the next line's turn. The lines of other clients may take theirs in between.
/// Where a write or a hand-on fails, be it of the ending line, all lines but the last one have gone, and no later turn is made. What is
/// written is the session text of what was read, and its exchanges are just the entries that the pass gained. Each of these has a turn of
/// a desk on such a disk: a `LINE` is right for what that desk held then, and after `OK` and `SETTLED` the call's record stands in the
/// file. Where the pass is of another coordinator, the session ends as Foreign with nothing more written. At last the link is ended,
/// however the session ended.
pub fn serve_link<R: Threads + Wait + Sync, L: Ledger, D: Disk, G: Gate, K: Link>(
    rt: &R,
    coordinator: &Coordinator<L, D>,
    pass: &mut Pass<L>,
    gate: &G,
    link: &mut K,
) -> SessionEnd
    ensures { LinkServed D.keeps D.view K.told link.old link.new pass.old pass.new result.kind result.replies }
{
    let server = OverCoordinator {
        rt,
        coordinator,
        gate,
    };
    let end = serve(&server, pass, link, FlushPolicy::EachReply);
    link.end();
    end
}
