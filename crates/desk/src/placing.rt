//! The turn of a report: what is accepted has a record in the file first.

ghost use Rattle.std.specs.Prelude.{◌≡◌, ◌≤◌, false, length, Ok, IfOk, IfSome};
ghost use Rattle.record_file.specs.Store.{is_stopped};
ghost use Rattle.report_line.specs.Reports.{unmarked};
ghost use Rattle.report_line.specs.Spelling.{HasSpelling};
ghost use Rattle.report_line.specs.declared.call.Call.TheVariants as calls;
ghost use Rattle.chains.specs.Held.{held_of, held_with};
ghost use Rattle.chains.specs.Answers.{Prepares, IsReady, MayBeAccepted};
ghost use Rattle.chains.specs.Turns.{Fate, IsReportTurn, IsReported};
ghost use Rattle.desk.specs.Records.{line_of, said_of, report_recorded, IsUnmarkedLine};
ghost use Rattle.desk.specs.Files.{UsesDevice};
ghost use Rattle.desk.specs.working.Parts.{Writes};
ghost use Rattle.record_file.specs.File.{line_limit};

use crate::reply_pair::{ReplyPair, accepted, failed, old, refused, refused_by};
use chains::{Chains, No, Prepared, Ready};
use line_disk::Disk;
use record_file::{Appended, Store};
use report_line::{Code, MarkedReport, Outcome, write_line};

/// Accepts a report that was prepared: only where its record, of this line, is in the file.
fn append<D: Disk>(
    chains: &mut Chains,
    store: &mut Store<D>,
    ready: Ready,
    line: &[u8],
) -> ReplyPair
    requires ready { MayBeAccepted chains.old ready }
    requires line { line.now ≡ line_of ready.report.report }
    requires short { length (line_of ready.report.report) ≤ line_limit }
    requires running { is_stopped store.old ≡ false }
    ensures turn { (fate : Fate) × IsReportTurn fate (held_of chains.old) ready.report result (held_with chains.new (is_stopped store.new)) }
    ensures spelled { UsesDevice result → HasSpelling (calls.Report (unmarked ready.report.report)) }
    ensures writes { Writes D.keeps D.view D.failed store.old store.new (said_of ready.report) (report_recorded ready.report result) result }
{
    ready.report().recall_facts();
    match store.append(ready.epoch(), line) {
        Appended::Done => {
            let _ = chains.commit(Prepared::Ready(ready));
            accepted(chains.front())
        }
        Appended::Before => failed(Outcome::Before),
        Appended::Unknown => failed(Outcome::Unknown),
        Appended::Stopped => failed(Outcome::Stopped),
    }
}

/// The same with the line that was read, where the report has no mark. Else a line is spelled anew.
fn record<D: Disk>(
    chains: &mut Chains,
    store: &mut Store<D>,
    ready: Ready,
    line: Option<&[u8]>,
) -> ReplyPair
    requires ready { MayBeAccepted chains.old ready }
    requires read { IfSome line (λ l. IsUnmarkedLine l.now ready.report) }
    requires short { length (line_of ready.report.report) ≤ line_limit }
    requires running { is_stopped store.old ≡ false }
    ensures turn { (fate : Fate) × IsReportTurn fate (held_of chains.old) ready.report result (held_with chains.new (is_stopped store.new)) }
    ensures spelled { UsesDevice result → HasSpelling (calls.Report (unmarked ready.report.report)) }
    ensures writes { Writes D.keeps D.view D.failed store.old store.new (said_of ready.report) (report_recorded ready.report result) result }
{
    if let Some(line) = line {
        if ready.epoch() == 0 {
            return append(chains, store, ready, line);
        }
    }
    let Ok(line) = write_line(chains.alloc(), ready.report()) else {
        return refused(Code::OutOfMemory);
    };
    append(chains, store, ready, &line)
}

/// The turn of a report that was prepared.
fn place<D: Disk>(
    chains: &mut Chains,
    store: &mut Store<D>,
    report: &MarkedReport,
    prepared: Prepared,
    line: Option<&[u8]>,
) -> ReplyPair
    requires ready { IsReady prepared chains.old }
    requires answer { Prepares (held_of chains.old) report.now (Ok prepared) }
    requires read { IfSome line (λ l. IsUnmarkedLine l.now report.now) }
    requires short { length (line_of report.now.report) ≤ line_limit }
    requires running { is_stopped store.old ≡ false }
    ensures turn { (fate : Fate) × IsReportTurn fate (held_of chains.old) report.now result (held_with chains.new (is_stopped store.new)) }
    ensures spelled { UsesDevice result → HasSpelling (calls.Report (unmarked report.now.report)) }
    ensures writes { Writes D.keeps D.view D.failed store.old store.new (said_of report.now) (report_recorded report.now result) result }
{
    match prepared {
        Prepared::Old(front) => old(front),
        Prepared::Ready(ready) => record(chains, store, ready, line),
    }
}

/// Prepares a report. Where its block cannot be shared, the report is copied.
fn prepare(chains: &mut Chains, report: &MarkedReport) -> Result<Prepared, No>
    ensures unchanged { held_of chains.new ≡ held_of chains.old }
    ensures answer { Prepares (held_of chains.old) report.now result }
    ensures ready { IfOk result (λ prepared. IsReady prepared chains.new) }
{
    match report.share() {
        Ok(report) => chains.prepare_shared(report),
        Err(_) => chains.prepare(&report.report, report.epoch),
    }
}

/// The turn of a report, over a store that is not stopped.
fn reported<D: Disk>(
    chains: &mut Chains,
    store: &mut Store<D>,
    report: &MarkedReport,
    line: Option<&[u8]>,
) -> ReplyPair
    requires read { IfSome line (λ l. IsUnmarkedLine l.now report.now) }
    requires short { length (line_of report.now.report) ≤ line_limit }
    requires running { is_stopped store.old ≡ false }
    ensures turn { (fate : Fate) × IsReportTurn fate (held_of chains.old) report.now result (held_with chains.new (is_stopped store.new)) }
    ensures spelled { UsesDevice result → HasSpelling (calls.Report (unmarked report.now.report)) }
    ensures writes { Writes D.keeps D.view D.failed store.old store.new (said_of report.now) (report_recorded report.now result) result }
{
    match prepare(chains, report) {
        Err(refusal) => refused_by(chains.alloc(), refusal),
        Ok(prepared) => place(chains, store, report, prepared, line),
    }
}

/// The turn of a report. The line is what it was read off, where there is one.
pub(crate) fn report_placed<D: Disk>(
    chains: &mut Chains,
    store: &mut Store<D>,
    report: &MarkedReport,
    line: Option<&[u8]>,
) -> ReplyPair
    requires read { IfSome line (λ l. IsUnmarkedLine l.now report.now) }
    requires short { length (line_of report.now.report) ≤ line_limit }
    ensures turn { (fate : Fate) × IsReported (is_stopped store.old) fate (held_with chains.old (is_stopped store.old)) report.now result (held_with chains.new (is_stopped store.new)) }
    ensures spelled { UsesDevice result → HasSpelling (calls.Report (unmarked report.now.report)) }
    ensures writes { Writes D.keeps D.view D.failed store.old store.new (said_of report.now) (report_recorded report.now result) result }
{
    if store.stopped() {
        return failed(Outcome::Stopped);
    }
    reported(chains, store, report, line)
}
