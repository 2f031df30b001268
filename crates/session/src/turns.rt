//! Turns.

ghost use Rattle.std.specs.Prelude.{◌≡◌, ◌≢◌, ℕ, List, None};
ghost use Rattle.chains.specs.Held.{held_of};
ghost use Rattle.desk.specs.Files.{IsShort};
ghost use Rattle.desk.specs.Records.{IsReadOff};
ghost use Rattle.reasons.specs.Shown.{IsShown};
ghost use Rattle.line_answer.specs.Questions.{IsChosenFor};
ghost use Rattle.session.specs.working.Parts.{MakesTurn, call_read};

use chains::Chains;
use desk::{Desk, TurnFault};
use line_answer::answer_for;
use line_disk::Disk;
use report_line::{Call, Code, LineFault, Reply};

/// Memory was wanting.
fn no_memory() -> Reply
    ensures { result ≡ Reply.No Code.OutOfMemory None None }
{
    Reply::No {
        code: Code::OutOfMemory,
        name: None,
        value: None,
    }
}

/// What is shown for a question for a line that was taken: the line, or that memory was wanting. For another call it is the reply.
fn taken(chains: &Chains, call: &Call, front: u32) -> Reply
    ensures shown { IsShown (held_of chains.now) call.now (Reply.Taken front) result }
    ensures chosen { (text : List ℕ) → result ≡ Reply.Line text → IsChosenFor (held_of chains.now) call.now text }
{
    if let Some(text) = answer_for(chains, None, call) {
        return Reply::Line(text);
    }
    match call {
        Call::Line(_) | Call::Garbage => no_memory(),
        Call::Report(_)
        | Call::Settle { .. }
        | Call::State(_)
        | Call::Bye
        | Call::Bad(_)
        | Call::Unread => Reply::Taken(front),
    }
}

/// What is shown for the reply of a call's turn: for a line that was taken the line, or that memory was wanting.
fn shown_for(chains: &Chains, call: &Call, reply: Reply) -> Reply
    ensures shown { IsShown (held_of chains.now) call.now reply result }
    // No turn has a line for its reply.
    ensures chosen { (text : List ℕ) → reply ≢ Reply.Line text → result ≡ Reply.Line text → IsChosenFor (held_of chains.now) call.now text }
{
    match reply {
        Reply::Taken(front) => taken(chains, call, front),
        other => other,
    }
}

/// The call that a line is read as.
pub(crate) fn call_of(read: Result<Call, LineFault>) -> Call
    ensures { result ≡ call_read read }
{
    match read {
        Ok(call) => call,
        Err(LineFault::Grammar) => Call::Bad(1),
        Err(LineFault::Memory) => Call::Unread,
    }
}

/// Makes the turn of what a line was read as, and gives what is shown for it.
#[inline(always)]
pub(crate) fn make_turn<D: Disk>(
    desk: &mut Desk<D>,
    line: &[u8],
    read: Result<Call, LineFault>,
) -> Result<Reply, TurnFault>
    requires short { IsShort (call_read read) }
    requires read { IsReadOff line.now (call_read read) }
    ensures { MakesTurn D.keeps desk.old (call_read read) desk.new result }
{
    let receipt = desk.turn_read(line, call_of(read))?;
    match desk.turns().last() {
        Some(turn) => Ok(shown_for(desk.chains(), &turn.call, receipt.reply)),
        None => Ok(receipt.reply),
    }
}
