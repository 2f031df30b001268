//! One client over a desk.

ghost use Rattle.std.specs.Prelude.{◌≡◌, ◌↔◌, [], ◌∷◌, Ok, IsTrue, length};
ghost use Rattle.report_line.specs.Cutting.{IsLine};
ghost use Rattle.report_line.specs.declared.call.Call.TheVariants as calls;
ghost use Rattle.session.specs.Ends.{Ended, Leaves};
ghost use Rattle.session.specs.working.Parts.{Serves, ended_by, one_reply};
ghost use Rattle.session.specs.SessionText.{at_desk};
ghost use Rattle.session.specs.Turned.{MakesTurns};

use crate::flush_policy::FlushPolicy;
use crate::kind::{SessionEnd, SessionEndKind};
use crate::reply_line::put_reply;
use crate::server::Server;
use crate::session::serve;
use crate::turns::make_turn;
use client_link::Link;
use desk::{Desk, TurnFault};
use line_disk::Disk;
use report_line::{Call, LineFault, read_line};
use std::alloc::Global;

/// Whether the client says that it is done.
pub(crate) fn is_bye(read: &Result<Call, LineFault>) -> bool
    ensures { IsTrue result ↔ (read.now ≡ Ok calls.Bye) }
{
    matches!(read, Ok(Call::Bye))
}

/// Why the session ends where a call got no turn.
fn kind_of(fault: TurnFault) -> SessionEndKind
    ensures { result ≡ ended_by fault }
{
    match fault {
        TurnFault::Worn => SessionEndKind::Worn,
        TurnFault::Memory => SessionEndKind::Memory,
    }
}

/// One line: its turn is made, and then its reply is written. Answers why the session ends, if it does.
fn serve_by_desk<D: Disk, K: Link>(
    desk: &mut Desk<D>,
    link: &mut K,
    line: &[u8],
) -> Option<SessionEndKind>
    requires { IsLine line.now }
    ensures { Serves (MakesTurns D.keeps) (λ d. at_desk (length d.turns)) (K.told link.old) (K.told link.new) (line.now ∷ []) desk.old desk.new result (one_reply result) }
{
    let read = read_line(desk.chains().alloc(), line);
    let last = is_bye(&read);
    // By reference: to move the reply takes as long as to write it.
    match &make_turn(desk, line, read) {
        Err(fault) => Some(kind_of(*fault)),
        Ok(shown) => match put_reply(link, shown) {
            Ok(()) if last => Some(SessionEndKind::Bye),
            Ok(()) => None,
            Err(_) => Some(SessionEndKind::WriteFailed),
        },
    }
}

/// What is told how far a desk has come.
pub trait Watch {
    /// A line was answered: this is the front now, and so many processes are known.
    fn after_line(&self, front: u32, processes: u32);
}

/// A watch that does nothing.
#[derive(Clone, Copy, Debug, Drop)]
pub struct Unwatched;

impl Watch for Unwatched {
    fn after_line(&self, _front: u32, _processes: u32) {}
}

/// The desk makes the turns, and a watch is told of it.
#[derive(Drop)]
struct DeskServer<'a, H> {
    watch: &'a H,
}

impl<'a, D: Disk, H: Watch> Server<Desk<D>> for DeskServer<'a, H> {
    ghost makes = { MakesTurns D.keeps };

    ghost grounds = { λ d. at_desk (length d.turns) };

    ghost leave = { Unit {0} };

    fn alloc(&self, state: &Desk<D>) -> Global {
        state.chains().alloc()
    }

    fn serve_line<K: Link>(
        &self,
        state: &mut Desk<D>,
        link: &mut K,
        line: &[u8],
    ) -> Option<SessionEndKind> {
        let end = serve_by_desk(state, link, line);
        self.watch.after_line(state.front(), state.chains().count());
        end
    }
}

/// Serves one client over a desk: after each read it answers the lines that are complete, and writes each reply before the
/// next line's turn is made; before each read and at the end it hands on what it wrote, and each reply by itself where that is
/// wanted: then a turn is made, or an ending line written, only once all earlier replies have gone. What is written is the session text
/// of what was read, its exchanges are just the turns that the desk made, and each `LINE` in it is the greatest closed cut of every
/// lawful history that agrees at its place (`specs/Headline.antt`). What a crash leaves then says `Desk::recall_lawful`.
pub fn run<D: Disk, K: Link>(desk: &mut Desk<D>, link: &mut K, when: FlushPolicy) -> SessionEnd
    ensures session { Ended D.keeps K.told when link.old link.new desk.old desk.new result.kind result.replies }
    ensures leaves { Leaves result.kind (K.told link.old) (K.told link.new) }
{
    run_watched(desk, link, when, &Unwatched)
}

/// The same, where a watch is told after each line how far the desk has come.
pub fn run_watched<D: Disk, K: Link, H: Watch>(
    desk: &mut Desk<D>,
    link: &mut K,
    when: FlushPolicy,
    watch: &H,
) -> SessionEnd
    ensures session { Ended D.keeps K.told when link.old link.new desk.old desk.new result.kind result.replies }
    ensures leaves { Leaves result.kind (K.told link.old) (K.told link.new) }
{
    desk.recall_lawful();
    serve(&DeskServer { watch }, desk, link, when)
}
