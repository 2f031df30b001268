//! What a script prints, line by line.

ghost use Rattle.std.specs.Prelude.{◌≡◌, ◌≢◌, ◌+◌, ◌<◌, ◌++◌, ◌∷◌, List, [], All, OnOk, OnErr, IfOk};
ghost use Rattle.report_line.specs.Cutting.{ended};
ghost use Rattle.report_line.specs.Spelling.{spelling};
ghost use Rattle.report_line.specs.declared.call.Call.{Call};
ghost use Rattle.report_line.specs.declared.call.Call.TheVariants as calls;
ghost use Rattle.report_line.specs.declared.reply.Reply.{Reply as AnyReply};
ghost use Rattle.chains.specs.Admission.{report_limit};
ghost use Rattle.chains.specs.Held.{counting, held_of};
ghost use Rattle.chains.specs.Processes.{IsKnown};
ghost use Rattle.chains.specs.Settled.{IsSettled};
ghost use Rattle.chains.specs.Turns.{fine, IsTurnWith};
ghost use Rattle.script.specs.working.Driving.{IsPrinted, TakeTurns, PrintsReport, PrintsAtOnce};

use chains::{Chains, No};
use propagate::settle_named;
use report_line::{
    Code, MarkedReport, Names, PackedReport, Report, ReportKindView, ReportView, Shared,
    write_marked, write_settle,
};
use std::alloc::{AllocError, Global};
use std::mem;

// So many lines do chains accept at most.
const LINE_LIMIT: u32 = 16_384;

// So many processes do chains know at most.
const PROCESS_LIMIT: u32 = 1_024;

/// What was printed so far: the text, how many lines it has, the reports at its end that wait for their turns on the chains, how many of
/// these bear a process, and the chains, on which the lines in front of those took theirs.
#[derive(Drop)]
pub(crate) struct Printout {
    pub(crate) text: Vec<u8>,
    pub(crate) lines: u32,
    pub(crate) pending: Vec<MarkedReport>,
    pub(crate) births: u32,
    pub(crate) chains: Chains,
}

// A refusal is passed over, but for want of memory.
fn pass_over(refusal: &No) -> Result<(), AllocError>
    ensures { OnOk result (refusal.now.code ≢ Code.OutOfMemory) }
{
    if refusal.code == Code::OutOfMemory {
        return Err(AllocError);
    }
    Ok(())
}

// A report takes its turn on the chains, memory aside.
fn take_report(chains: &mut Chains, epoch: u32, report: &PackedReport) -> Result<(), AllocError>
    ensures { OnOk result ((reply : AnyReply) × IsTurnWith fine (held_of chains.old) (calls.Report (record { epoch = epoch; report = report.now })) reply (held_of chains.new)) }
{
    match chains.admit(report, epoch) {
        Ok(_) => Ok(()),
        Err(refusal) => pass_over(&refusal),
    }
}

// A report that waited takes its turn on the chains, memory aside.
fn take_waiting(chains: &mut Chains, report: MarkedReport) -> Result<(), AllocError>
    ensures { OnOk result ((reply : AnyReply) × IsTurnWith fine (held_of chains.old) (calls.Report report) reply (held_of chains.new)) }
{
    match chains.admit_shared(report) {
        Ok(_) => Ok(()),
        Err(refusal) => pass_over(&refusal),
    }
}

// These reports take their turns on the chains, in order, memory aside.
fn take_reports(chains: &mut Chains, reports: Vec<MarkedReport>) -> Result<(), AllocError>
    ensures { OnOk result (TakeTurns (held_of chains.old) reports.items (held_of chains.new)) }
{
    for report in reports {
        take_waiting(chains, report)?;
    }
    Ok(())
}

/// All reports that wait take their turns on the chains.
pub(crate) fn catch_up(printout: &mut Printout) -> Result<(), AllocError>
    ensures text { printout.new.text.items ≡ printout.old.text.items }
    ensures lines { printout.new.lines ≡ printout.old.lines }
    ensures none_waits { OnOk result (printout.new.pending.items ≡ []) }
    ensures kept { OnOk result ((told : List Call) → IsPrinted told printout.old → IsPrinted told printout.new) }
{
    let none = Vec::new(printout.chains.alloc());
    printout.births = 0;
    let pending = mem::replace(&mut printout.pending, none);
    take_reports(&mut printout.chains, pending)
}

// All return to the line of these failed processes.
fn return_all(chains: &mut Chains, names: &Names) -> Result<(), AllocError>
    requires room { chains.old.front < report_limit }
    requires known { All (IsKnown chains.old.accepted) names.now }
    ensures { OnOk result (IsSettled (held_of chains.old) names.now (held_of chains.new)) }
{
    *chains = settle_named(chains, names)?;
    Ok(())
}

// A settlement takes its turn on the chains, memory aside.
fn take_settlement(chains: &mut Chains, front: u32, names: &Names) -> Result<(), AllocError>
    ensures { OnOk result ((reply : AnyReply) × IsTurnWith fine (held_of chains.old) (calls.Settle front names.now) reply (held_of chains.new)) }
{
    match chains.may_settle(front, names) {
        Ok(()) => return_all(chains, names),
        Err(refusal) => pass_over(&refusal),
    }
}

// The line with its LF.
fn with_end(line: Vec<u8>) -> Result<Vec<u8>, AllocError>
    ensures { IfOk result (λ whole. whole.items ≡ ended line.items) }
{
    let mut whole = line;
    whole.push(b'\n')?;
    Ok(whole)
}

// The line of a report, with its LF.
fn report_line(alloc: Global, epoch: u32, report: &PackedReport) -> Result<Vec<u8>, AllocError>
    ensures { IfOk result (λ line. line.items ≡ ended (spelling (calls.Report (record { epoch = epoch; report = report.now })))) }
{
    let line = write_marked(alloc, epoch, report)?;
    with_end(line)
}

// The line of a settlement, with its LF.
fn settle_line(alloc: Global, front: u32, names: &Names) -> Result<Vec<u8>, AllocError>
    ensures { IfOk result (λ line. line.items ≡ ended (spelling (calls.Settle front names.now))) }
{
    let line = write_settle(alloc, front, names)?;
    with_end(line)
}

impl Printout {
    /// Nothing, which takes no memory.
    pub(crate) fn new(alloc: Global) -> Printout
        ensures text { result.text.items ≡ [] }
        ensures lines { result.lines ≡ 0 }
        ensures pending { result.pending.items ≡ [] }
        ensures chains { held_of result.chains ≡ counting [] }
    {
        Printout {
            text: Vec::new(alloc),
            lines: 0,
            pending: Vec::new(alloc),
            births: 0,
            chains: Chains::new(alloc),
        }
    }
}

// A line is printed behind the others and counted, if 2^32 - 1 were not printed yet.
fn add_line(text: &mut Vec<u8>, lines: &mut u32, line: &[u8]) -> Result<(), AllocError>
    ensures text { OnOk result (text.new.items ≡ text.old.items ++ line.now) }
    ensures counted { OnOk result (lines.new ≡ lines.old + 1) }
    ensures err { OnErr result (text.new.items ≡ text.old.items) }
{
    if *lines == u32::MAX {
        return Err(AllocError);
    }
    text.extend_from_slice(line)?;
    *lines += 1;
    Ok(())
}

// Whether the report is that of a birth, of the root or of a child.
fn is_birth(report: &PackedReport) -> bool {
    match report.view() {
        ReportView::Begin { .. } => true,
        ReportView::Numbered(fields) => matches!(fields.action, ReportKindView::Fork(_)),
    }
}

// These births, and that of the report if it is one.
fn births_with(births: u32, report: &PackedReport) -> u32 {
    if is_birth(report) {
        return births.saturating_add(1);
    }
    births
}

// Whether a report waits for its turn: it does only where the chains will accept it, since they do not keep what they refuse. They
// accepted each line so far or have it before them; behind a line that they refused, as its front is no longer theirs, nothing waits. So
// the epoch is theirs, too, and all that is left to be refused for is room.
fn may_wait(printout: &Printout, report: &PackedReport) -> bool {
    let behind = printout.lines.saturating_sub(printout.chains.front());
    if behind as usize != printout.pending.len() || printout.lines >= LINE_LIMIT {
        return false;
    }
    let known = printout.chains.count().saturating_add(printout.births);
    known < PROCESS_LIMIT || !is_birth(report)
}

// Appends a report that waits. The room grows by an eighth, so that it is never much more than what waits takes.
fn put_waiting(pending: &mut Vec<MarkedReport>, report: MarkedReport) -> Result<(), AllocError>
    ensures { OnOk result (pending.new.items ≡ pending.old.items ++ report ∷ []) }
{
    let count = pending.len();
    if count == pending.capacity() {
        pending.reserve_exact(count / 8 + 32)?;
    }
    pending.push(report)?;
    Ok(())
}

// Prints a report, which waits for its turn on the chains.
fn print_waiting(
    alloc: Global,
    printout: &mut Printout,
    epoch: u32,
    report: PackedReport,
) -> Result<(), AllocError>
    ensures ok { OnOk result (PrintsReport printout.old (record { epoch = epoch; report = report }) printout.new) }
    ensures err { OnErr result (printout.new.text.items ≡ printout.old.text.items) }
{
    let line = report_line(alloc, epoch, &report)?;
    let births = births_with(printout.births, &report);
    let report = Shared::new(alloc, report)?;
    put_waiting(&mut printout.pending, MarkedReport { epoch, report })?;
    printout.births = births;
    add_line(&mut printout.text, &mut printout.lines, &line)
}

// Prints a report, which takes its turn on the chains at once.
fn print_at_once(
    alloc: Global,
    printout: &mut Printout,
    epoch: u32,
    report: &PackedReport,
) -> Result<(), AllocError>
    requires { printout.old.pending.items ≡ [] }
    ensures ok { OnOk result (PrintsAtOnce printout.old (calls.Report (record { epoch = epoch; report = report.now })) printout.new) }
    ensures err { OnErr result (printout.new.text.items ≡ printout.old.text.items) }
{
    let line = report_line(alloc, epoch, report)?;
    take_report(&mut printout.chains, epoch, report)?;
    add_line(&mut printout.text, &mut printout.lines, &line)
}

/// Prints a report with the mark of its epoch. It waits for its turn on the chains, or takes it at once behind those that wait where they
/// may refuse it.
pub(crate) fn print_made(
    alloc: Global,
    printout: &mut Printout,
    epoch: u32,
    report: Report,
) -> Result<(), AllocError>
    ensures ok { OnOk result (PrintsReport printout.old (record { epoch = epoch; report = report }) printout.new) }
    ensures err { OnErr result (printout.new.text.items ≡ printout.old.text.items) }
{
    let report = PackedReport::of(report);
    if may_wait(printout, &report) {
        return print_waiting(alloc, printout, epoch, report);
    }
    catch_up(printout)?;
    print_at_once(alloc, printout, epoch, &report)
}

/// Prints a settlement for these failed processes, with the number of lines before it, of which none waits for its turn on the chains.
pub(crate) fn print_settlement(
    alloc: Global,
    printout: &mut Printout,
    names: &Names,
) -> Result<(), AllocError>
    requires { printout.old.pending.items ≡ [] }
    ensures ok { OnOk result (PrintsAtOnce printout.old (calls.Settle printout.old.lines names.now) printout.new) }
    ensures err { OnErr result (printout.new.text.items ≡ printout.old.text.items) }
{
    let front = printout.lines;
    let line = settle_line(alloc, front, names)?;
    take_settlement(&mut printout.chains, front, names)?;
    add_line(&mut printout.text, &mut printout.lines, &line)
}
