//! The turn of a settlement: all return to a line once its record is in the file.

ghost use Rattle.std.specs.Prelude.{◌≡◌, ◌≤◌, false, length};
ghost use Rattle.record_file.specs.Store.{is_stopped};
ghost use Rattle.report_line.specs.Spelling.{HasSpelling};
ghost use Rattle.report_line.specs.declared.call.Call.TheVariants as calls;
ghost use Rattle.chains.specs.Held.{held_of, held_with};
ghost use Rattle.chains.specs.Turns.{Fate, PassesSettle, IsSettleTurn, IsSettleAnswered};
ghost use Rattle.desk.specs.Records.{settle_line, said_settled, settlement_recorded};
ghost use Rattle.desk.specs.Files.{UsesDevice};
ghost use Rattle.desk.specs.working.Parts.{Writes, IsFollowed};
ghost use Rattle.record_file.specs.File.{line_limit};

use crate::reply_pair::{ReplyPair, failed, refused, refused_by, settled};
use chains::Chains;
use line_disk::Disk;
use propagate::settle_named;
use record_file::{Appended, Store};
use report_line::{Code, Names, Outcome, write_settle};

/// Returns all processes to the line of these failed ones, once all tests let that pass: the chains are made first, and taken in only
/// where the record is in the file.
fn return_all<D: Disk>(
    chains: &mut Chains,
    store: &mut Store<D>,
    front: u32,
    names: &Names,
) -> ReplyPair
    requires passes { PassesSettle (held_of chains.old) front names.now }
    requires short { length (settle_line front names.now) ≤ line_limit }
    requires running { is_stopped store.old ≡ false }
    ensures turn { (fate : Fate) × IsSettleTurn fate (held_of chains.old) front names.now result (held_with chains.new (is_stopped store.new)) }
    ensures spelled { UsesDevice result → HasSpelling (calls.Settle front names.now) }
    ensures followed { IsFollowed (held_of chains.old) (said_settled chains.old.epoch front names.now) result }
    ensures writes { Writes D.keeps D.view D.failed store.old store.new (said_settled chains.old.epoch front names.now) (settlement_recorded front names.now result) result }
{
    chains.recall_lawful();
    names.recall_facts();
    let Ok(returned) = settle_named(chains, names) else {
        return refused(Code::OutOfMemory);
    };
    let Ok(line) = write_settle(chains.alloc(), front, names) else {
        return refused(Code::OutOfMemory);
    };
    match store.append(chains.epoch(), &line) {
        Appended::Done => {
            *chains = returned;
            settled(chains.epoch(), chains.front())
        }
        Appended::Before => failed(Outcome::Before),
        Appended::Unknown => failed(Outcome::Unknown),
        Appended::Stopped => failed(Outcome::Stopped),
    }
}

/// The turn of a settlement.
pub(crate) fn settlement_placed<D: Disk>(
    chains: &mut Chains,
    store: &mut Store<D>,
    front: u32,
    names: &Names,
) -> ReplyPair
    requires short { length (settle_line front names.now) ≤ line_limit }
    ensures turn { (fate : Fate) × IsSettleAnswered (is_stopped store.old) fate (held_with chains.old (is_stopped store.old)) front names.now result (held_with chains.new (is_stopped store.new)) }
    ensures spelled { UsesDevice result → HasSpelling (calls.Settle front names.now) }
    ensures followed { is_stopped store.old ≡ false → IsFollowed (held_of chains.old) (said_settled chains.old.epoch front names.now) result }
    ensures writes { Writes D.keeps D.view D.failed store.old store.new (said_settled chains.old.epoch front names.now) (settlement_recorded front names.now result) result }
{
    if store.stopped() {
        return failed(Outcome::Stopped);
    }
    match chains.may_settle(front, names) {
        Err(refusal) => refused_by(chains.alloc(), refusal),
        Ok(()) => return_all(chains, store, front, names),
    }
}
