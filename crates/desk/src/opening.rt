//! Records that are admitted.

ghost use Rattle.std.specs.Prelude.{◌≡◌, ◌≢◌, ◌+◌, IfOk, IfErr, OnOk, IsTrue, ◌↔◌};
ghost use Rattle.record_file.specs.Kept.{said_in};
ghost use Rattle.report_line.specs.declared.call.Call.TheVariants as calls;
ghost use Rattle.report_line.specs.Spelling.{spelling, HasSpelling};
ghost use Rattle.report_line.specs.Replies.{code_number};
ghost use Rattle.chains.specs.Held.{held_of};
ghost use Rattle.desk.specs.Records.{AdmitsCall, Admits, IsRecorded, IsBegin, Opens};
ghost use Rattle.desk.specs.Openings.{RefusesRecords};
ghost use Rattle.desk.specs.working.Reading.{IsUnread, RefusesCall, RefusesRecord, IsFaultOfRefusal};

use crate::fault::DeskFault;
use chains::{Admitted, Chains, No};
use propagate::settle_named;
use report_line::{
    Call, Code, LineFault, MarkedReport, Names, PackedReport, ReportView, read_line,
};
use std::alloc::Global;

/// Whether the report is a BEGIN.
fn is_begin(report: &PackedReport) -> bool
    ensures { IsTrue result ↔ IsBegin report.now }
{
    match report.view() {
        ReportView::Begin { .. } => true,
        ReportView::Numbered(_) => false,
    }
}

/// Whether the report is a BEGIN, and the epoch another one than the present.
fn begins_in_other_epoch(chains: &Chains, epoch: u32, report: &PackedReport) -> bool
    ensures { IsTrue result ↔ (IsBegin report.now × (epoch ≢ chains.now.epoch)) }
{
    if !is_begin(report) {
        return false;
    }
    epoch != chains.epoch()
}

/// The fault of a record that is refused.
fn fault_of(number: usize, refusal: No) -> DeskFault
    ensures { IsFaultOfRefusal number refusal result }
{
    if refusal.code == Code::OutOfMemory {
        return DeskFault::Memory;
    }
    DeskFault::Refused(number, refusal.code.number())
}

/// The refusal of a record of another epoch than the present one.
fn other_epoch(number: usize) -> DeskFault
    ensures { result ≡ DeskFault.Refused number (code_number Code.OtherEpoch) }
{
    DeskFault::Refused(number, Code::OtherEpoch.number())
}

/// Admits the report of the record of this number, with the epoch that stands there.
fn admit_report(
    chains: &mut Chains,
    number: usize,
    epoch: u32,
    report: MarkedReport,
) -> Result<(), DeskFault>
    ensures ok { OnOk result (IsRecorded (calls.Report report) × AdmitsCall (held_of chains.old) epoch (calls.Report report) (held_of chains.new)) }
    ensures err { IfErr result (RefusesCall (held_of chains.old) number epoch (calls.Report report)) }
{
    if report.epoch != 0 {
        return Err(DeskFault::Line(number));
    }
    if begins_in_other_epoch(chains, epoch, &report.report) {
        return Err(other_epoch(number));
    }
    let report = report.report;
    match chains.admit_shared(MarkedReport { epoch, report }) {
        Ok(Admitted::Accepted(_)) => Ok(()),
        Ok(Admitted::Old(_)) => Err(DeskFault::Refused(number, 1)),
        Err(refusal) => Err(fault_of(number, refusal)),
    }
}

/// Admits the settlement of the record of this number, with the epoch that stands there.
fn admit_settlement(
    chains: &mut Chains,
    number: usize,
    epoch: u32,
    front: u32,
    names: &Names,
) -> Result<(), DeskFault>
    ensures ok { OnOk result (AdmitsCall (held_of chains.old) epoch (calls.Settle front names.now) (held_of chains.new)) }
    ensures err { IfErr result (RefusesCall (held_of chains.old) number epoch (calls.Settle front names.now)) }
{
    if epoch != chains.epoch() {
        return Err(other_epoch(number));
    }
    match chains.may_settle(front, names) {
        Ok(()) => {}
        Err(refusal) => return Err(fault_of(number, refusal)),
    }
    match settle_named(chains, names) {
        Ok(returned) => {
            *chains = returned;
            Ok(())
        }
        Err(_) => Err(DeskFault::Memory),
    }
}

/// Admits the call of the record of this number, with the epoch that stands there.
fn admit_call(chains: &mut Chains, number: usize, epoch: u32, call: Call) -> Result<(), DeskFault>
    ensures ok { OnOk result (IsRecorded call × AdmitsCall (held_of chains.old) epoch call (held_of chains.new)) }
    ensures err { IfErr result (RefusesCall (held_of chains.old) number epoch call) }
{
    match call {
        Call::Report(report) => admit_report(chains, number, epoch, report),
        Call::Settle { front, names } => admit_settlement(chains, number, epoch, front, &names),
        Call::Line(_) => Err(DeskFault::Line(number)),
        Call::Garbage => Err(DeskFault::Line(number)),
        Call::State(_) => Err(DeskFault::Line(number)),
        Call::Bye => Err(DeskFault::Line(number)),
        Call::Bad(_) => Err(DeskFault::Line(number)),
        Call::Unread => Err(DeskFault::Line(number)),
    }
}

/// Reads the record of this number.
fn read_record(alloc: Global, number: usize, line: &[u8]) -> Result<Call, DeskFault>
    ensures ok { IfOk result (λ call. (line.now ≡ spelling call) × HasSpelling call) }
    ensures err { IfErr result (IsUnread number line.now) }
{
    match read_line(alloc, line) {
        Ok(call) => Ok(call),
        Err(LineFault::Grammar) => Err(DeskFault::Line(number)),
        Err(LineFault::Memory) => Err(DeskFault::Memory),
    }
}

/// Admits the record of this number.
fn admit_record(
    chains: &mut Chains,
    number: usize,
    epoch: u32,
    line: &[u8],
) -> Result<(), DeskFault>
    ensures ok { OnOk result (Admits (held_of chains.old) (epoch, line.now) (held_of chains.new)) }
    ensures err { IfErr result (RefusesRecord (held_of chains.old) number (epoch, line.now)) }
{
    let call = read_record(chains.alloc(), number, line)?;
    admit_call(chains, number, epoch, call)
}

/// The chains of these records, admitted in order.
pub(crate) fn admit_records(alloc: Global, records: &[(u32, Vec<u8>)]) -> Result<Chains, DeskFault>
    ensures ok { IfOk result (λ chains. Opens (said_in records.now) (held_of chains)) }
    ensures err { IfErr result (RefusesRecords (said_in records.now)) }
{
    let mut chains = Chains::new(alloc);
    for i in 0..records.len() {
        let (epoch, line) = &records[i];
        admit_record(&mut chains, i + 1, *epoch, line)?;
    }
    Ok(chains)
}
