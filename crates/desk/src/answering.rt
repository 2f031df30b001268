//! The reply to a call.

ghost use Rattle.std.specs.Prelude.{◌≡◌, ℕ, List, true, false, IfOk, IfErr, IfSome};
ghost use Rattle.record_file.specs.File.{Said};
ghost use Rattle.record_file.specs.Store.{is_stopped};
ghost use Rattle.chains.specs.Held.{held_of, held_with};
ghost use Rattle.chains.specs.Processes.{IsKnown};
ghost use Rattle.chains.specs.Turns.{fine, IsGarbageReply, IsLineReply, IsStateReply, IsQuestionTurn, IsTurn};
ghost use Rattle.desk.specs.Records.{IsRecordOf, IsRecordedCall, IsReadOff};
ghost use Rattle.desk.specs.Files.{IsShort, MayWantMemory, UsesDevice};
ghost use Rattle.desk.specs.working.Parts.{WritesBy, IsFollowed};

use crate::placing::report_placed;
use crate::reply_pair::{
    ReplyPair, bad, bye, failed, garbage_taken, line_taken, refused, state_told,
};
use crate::returning::settlement_placed;
use crate::turn::TurnFault;
use chains::Chains;
use line_disk::Disk;
use record_file::Store;
use report_line::{Call, Code, Name, Names, Outcome};

/// The turn of a question for a line.
fn line_asked(chains: &Chains, stopped: bool, names: &Names) -> ReplyPair
    ensures { IsQuestionTurn stopped fine (held_with chains.now stopped) (IsLineReply (held_with chains.now stopped) names.now) result (held_with chains.now stopped) }
{
    if stopped {
        return failed(Outcome::Stopped);
    }
    line_taken(chains, names)
}

/// The turn of the question for the line with every process failed.
fn garbage_asked(chains: &Chains, stopped: bool) -> ReplyPair
    ensures { IsQuestionTurn stopped fine (held_with chains.now stopped) (IsGarbageReply (held_with chains.now stopped)) result (held_with chains.now stopped) }
{
    if stopped {
        return failed(Outcome::Stopped);
    }
    garbage_taken(chains)
}

/// The turn of a question for the state of a process, if memory suffices for it.
fn state_asked(chains: &Chains, stopped: bool, name: &Name) -> Result<ReplyPair, TurnFault>
    ensures given { IfOk result (λ twice. IsQuestionTurn stopped fine (held_with chains.now stopped) (IsStateReply chains.now.accepted name.now) twice (held_with chains.now stopped)) }
    ensures err { IfErr result (λ fault. (fault ≡ TurnFault.Memory) × (stopped ≡ false) × IsKnown chains.now.accepted name.now) }
{
    if stopped {
        return Ok(failed(Outcome::Stopped));
    }
    match state_told(chains, name) {
        Ok(twice) => Ok(twice),
        Err(_) => Err(TurnFault::Memory),
    }
}

/// The reply to a call, if memory suffices for it. The line is what the call was read off, where there is one.
pub(crate) fn answered<D: Disk>(
    chains: &mut Chains,
    store: &mut Store<D>,
    call: &Call,
    line: Option<&[u8]>,
) -> Result<ReplyPair, TurnFault>
    requires read { IfSome line (λ l. IsReadOff l.now call.now) }
    requires short { IsShort call.now }
    ensures turn { IfOk result (λ reply. IsTurn (held_with chains.old (is_stopped store.old)) call.now reply (held_with chains.new (is_stopped store.new))) }
    ensures spelled { IfOk result (λ reply. UsesDevice reply → IsRecordedCall call.now) }
    ensures followed { is_stopped store.old ≡ false → IfOk result (λ reply. (one : Said) → IsRecordOf chains.old.epoch call.now one → IsFollowed (held_of chains.old) one reply) }
    ensures writes { IfOk result (λ reply. WritesBy D.keeps D.view D.failed store.old store.new chains.old.epoch call.now reply) }
    ensures err { IfErr result (λ fault. (fault ≡ TurnFault.Memory) × MayWantMemory (held_with chains.old (is_stopped store.old)) call.now × (held_of chains.new ≡ held_of chains.old) × (store.new ≡ store.old)) }
    ensures stopped { is_stopped store.old ≡ true → (store.new ≡ store.old) × (held_of chains.new ≡ held_of chains.old) }
{
    match call {
        Call::Report(report) => Ok(report_placed(chains, store, report, line)),
        Call::Line(names) => Ok(line_asked(chains, store.stopped(), names)),
        Call::Garbage => Ok(garbage_asked(chains, store.stopped())),
        Call::Settle { front, names } => Ok(settlement_placed(chains, store, *front, names)),
        Call::State(name) => state_asked(chains, store.stopped(), name),
        Call::Bye => Ok(bye()),
        Call::Bad(number) => Ok(bad(*number)),
        Call::Unread => Ok(refused(Code::OutOfMemory)),
    }
}
