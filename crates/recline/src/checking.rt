//! The command `check`.

ghost use Rattle.std.specs.Prelude.{◌≡◌, IfOk};
ghost use Rattle.report_line.specs.Cutting.{ended};
ghost use Rattle.chains.specs.Held.{held_of};
ghost use Rattle.reason_check.specs.Texts.{verdict_text};
ghost use Rattle.recline.specs.Outcome.{Tells};
ghost use Rattle.recline.specs.Checking.{Checks, ChecksOn, IsCauseOf, IsCheckedOver, IsVerdictOn, check_fault, check_status};
ghost use Rattle.recline.specs.declared.checking.Cause.TheVariants.{Unknown};
ghost use Rattle.recline.specs.declared.checking.Checked.TheVariants.{NoCertificate};

use crate::driving::{Unread, read_all};
use crate::escaping::shown_name;
use crate::telling::{tell, tell_all, tell_unopened, write_all};
use chains::Chains;
use client_link::Link;
use desk::Desk;
use line_disk::Disk;
use propagate::certified_lines_are_the_greatest;
use reason_check::{Verdict, check};
use reasons::{Certificate, CertificateFault, from_json};
use std::alloc::{AllocError, Global};

/// Why a text gave no certificate.
#[derive(Drop)]
pub(crate) enum Cause {
    NotJson,
    Shape,
    /// No process has this name, which is written as it stands in a fault line.
    Unknown(Vec<u8>),
    /// Memory did not suffice for the certificate or for that name.
    Memory,
}

/// How a check ended.
#[derive(Drop)]
pub(crate) enum Checked {
    /// The verdict was written.
    Told(Verdict),
    /// The text gave no certificate.
    NoCertificate(Cause),
    /// Memory did not suffice for the text or the verdict.
    Memory,
    /// A read or a write failed, or the text has no end.
    Device,
}

/// The verdict on a certificate.
fn verdict_on(chains: &Chains, certificate: &Certificate) -> Verdict
    ensures { IsVerdictOn (held_of chains.now) certificate.now result }
{
    chains.recall_lawful();
    certified_lines_are_the_greatest();
    check(chains, certificate)
}

/// The line of a verdict.
fn line_of(alloc: Global, verdict: Verdict) -> Result<Vec<u8>, AllocError>
    ensures { IfOk result (λ line. line.items ≡ ended (verdict_text verdict)) }
{
    let mut line = Vec::new(alloc);
    verdict.write_to(&mut line)?;
    line.extend_from_slice(b"\n")?;
    Ok(line)
}

/// Why a text gave no certificate, as it is told.
fn cause_of(alloc: Global, fault: &CertificateFault) -> Cause
    ensures { IsCauseOf fault.now result }
{
    match fault {
        CertificateFault::NotJson => Cause::NotJson,
        CertificateFault::Shape => Cause::Shape,
        CertificateFault::Unknown(name) => match shown_name(alloc, name) {
            Ok(shown) => Cause::Unknown(shown),
            Err(_) => Cause::Memory,
        },
        CertificateFault::Memory => Cause::Memory,
    }
}

/// Reads a certificate, checks it over the chains, and writes the verdict.
fn check_over<K: Link>(chains: &Chains, client: &mut K) -> Checked
    ensures { IsCheckedOver (held_of chains.now) (K.told client.old) (K.told client.new) result }
{
    let text = match read_all(chains.alloc(), client) {
        Ok(text) => text,
        Err(Unread::Memory) => return Checked::Memory,
        Err(Unread::Device) => return Checked::Device,
    };
    let certificate = match from_json(chains, &text) {
        Ok(certificate) => certificate,
        Err(fault) => return Checked::NoCertificate(cause_of(chains.alloc(), &fault)),
    };
    let verdict = verdict_on(chains, &certificate);
    let Ok(line) = line_of(chains.alloc(), verdict) else {
        return Checked::Memory;
    };
    match write_all(client, &line) {
        Ok(()) => Checked::Told(verdict),
        Err(_) => Checked::Device,
    }
}

/// Tells the name of a certificate that no process has, which is written as it stands in a fault line.
fn tell_unknown<F: Link>(faults: &mut F, shown: &Vec<u8>)
    ensures { Tells (F.told faults.old) (F.told faults.new) (check_fault (NoCertificate (Unknown shown.now))) }
{
    tell_all(
        faults,
        &[
            b"recline: certificate unknown ".as_slice(),
            shown.as_slice(),
            b"\n".as_slice(),
        ],
    )
}

/// Tells why a text gave no certificate.
fn tell_no_certificate<F: Link>(faults: &mut F, cause: &Cause)
    ensures { Tells (F.told faults.old) (F.told faults.new) (check_fault (NoCertificate cause.now)) }
{
    match cause {
        Cause::NotJson => tell(faults, b"recline: certificate not json\n"),
        Cause::Shape => tell(faults, b"recline: certificate shape\n"),
        Cause::Unknown(shown) => tell_unknown(faults, shown),
        Cause::Memory => tell(faults, b"recline: memory\n"),
    }
}

/// Tells what went wrong, if something did.
fn tell_checked<F: Link>(faults: &mut F, end: &Checked)
    ensures { Tells (F.told faults.old) (F.told faults.new) (check_fault end.now) }
{
    match end {
        Checked::Told(_) => tell(faults, b""),
        Checked::NoCertificate(cause) => tell_no_certificate(faults, cause),
        Checked::Memory => tell(faults, b"recline: memory\n"),
        Checked::Device => tell(faults, b"recline: device\n"),
    }
}

/// The status of the process for a check that ended so.
fn status_for(end: &Checked) -> u8
    ensures { result ≡ check_status end.now }
{
    match end {
        Checked::Told(Verdict::Yes) => 0,
        Checked::Told(Verdict::No(_)) => 4,
        Checked::NoCertificate(Cause::Memory) => 3,
        Checked::NoCertificate(_) => 2,
        Checked::Memory | Checked::Device => 3,
    }
}

/// Checks a certificate over these chains, tells what went wrong, and answers the status of the process.
fn check_chains<K: Link, F: Link>(chains: &Chains, client: &mut K, faults: &mut F) -> u8
    ensures { Checks K.told F.told (held_of chains.now) client.old client.new faults.old faults.new result }
{
    let end = check_over(chains, client);
    tell_checked(faults, &end);
    status_for(&end)
}

/// The command `check`: opens the record file on a disk, reads a certificate from the client, writes to the client whether it
/// certifies for the accepted reports, tells what went wrong, and answers the status of the process and the disk. The file is opened
/// before the client is read.
pub fn check_on<D: Disk, K: Link, F: Link>(
    alloc: Global,
    disk: D,
    client: &mut K,
    faults: &mut F,
) -> (u8, D)
    ensures { ChecksOn D.keeps D.view D.failed K.told F.told disk result.1 client.old client.new faults.old faults.new result.0 }
{
    match Desk::open(alloc, disk) {
        Ok(desk) => {
            desk.recall_lawful();
            let status = check_chains(desk.chains(), client, faults);
            (status, desk.close())
        }
        Err((fault, disk)) => {
            tell_unopened(faults, fault);
            (3, disk)
        }
    }
}
