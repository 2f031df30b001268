//! Whether a line that was shown is the one that was asked for.

ghost use Rattle.std.specs.Prelude.{◌≡◌, ◌≢◌, ◌↔◌, ◌<◌, false, Some, None, List, Contains, IfOk, IfSome, IsTrue, length};
ghost use Rattle.chains.specs.Processes.{Name as AnyName, known};
ghost use Rattle.chains.specs.Failures.{AreMarked};
ghost use Rattle.chains.specs.Held.{held_of};
ghost use Rattle.reasons.specs.declared.certificate.Certificate.{Certificate as AnyCertificate};
ghost use Rattle.reasons.specs.declared.fault.CertificateFault.TheVariants as faults;
ghost use Rattle.reasons.specs.Certificates.{Certifies, IsForNames};
ghost use Rattle.reasons.specs.CertificateText.{certificate_text};
ghost use Rattle.reasons.specs.Shown.{IsLineText};
ghost use Rattle.line_answer.specs.Questions.{IsLineFor};
ghost use Rattle.coordinator.specs.working.Checks.{RightOver, WrongOver};

use crate::entry::Entry;
use chains::{Chains, which_are_named};
use line_answer::answer_for;
use reason_check::{Verdict, check};
use reasons::{Certificate, CertificateFault, from_json, to_json, written_certificates_are_read};
use report_line::{Call, Names, Reply};
use std::alloc::AllocError;

fn certifies(chains: &Chains, certificate: &Certificate) -> bool
    ensures { IsTrue result ↔ Certifies (held_of chains.now) certificate.now }
{
    match check(chains, certificate) {
        Verdict::Yes => true,
        Verdict::No(_) => false,
    }
}

/// Whether this is the text of the certificate.
fn is_its_text(chains: &Chains, certificate: &Certificate, text: &[u8]) -> Result<bool, AllocError>
    ensures { IfOk result (λ b. IsTrue b ↔ (text.now ≡ certificate_text chains.now.accepted certificate.now)) }
{
    let written = to_json(chains, certificate)?;
    Ok(text == written.as_bytes())
}

/// Nothing was read, other than for want of memory.
fn not_read(fault: CertificateFault) -> Result<Option<Certificate>, AllocError>
    ensures { IfOk result (λ found. (found ≡ None) × (fault ≢ faults.Memory)) }
{
    match fault {
        CertificateFault::Memory => Err(AllocError),
        CertificateFault::NotJson | CertificateFault::Shape | CertificateFault::Unknown(_) => {
            Ok(None)
        }
    }
}

/// The certificate of which this may be the text: no other one that certifies has it.
fn read_in(chains: &Chains, text: &[u8]) -> Result<Option<Certificate>, AllocError>
    ensures { IfOk result (λ found. (c : AnyCertificate) → Certifies (held_of chains.now) c → text.now ≡ certificate_text chains.now.accepted c → found ≡ Some c) }
{
    chains.recall_lawful();
    written_certificates_are_read(chains);
    match from_json(chains, text) {
        Ok(certificate) => Ok(Some(certificate)),
        Err(fault) => not_read(fault),
    }
}

/// The certificate of which this is the text, if it certifies.
fn certified_in(chains: &Chains, text: &[u8]) -> Result<Option<Certificate>, AllocError>
    ensures some { IfOk result (λ found. IfSome found (λ c. Certifies (held_of chains.now) c × (text.now ≡ certificate_text chains.now.accepted c))) }
    ensures only { IfOk result (λ found. (c : AnyCertificate) → Certifies (held_of chains.now) c → text.now ≡ certificate_text chains.now.accepted c → found ≡ Some c) }
{
    let Some(certificate) = read_in(chains, text)? else {
        return Ok(None);
    };
    if !certifies(chains, &certificate) {
        return Ok(None);
    }
    if !is_its_text(chains, &certificate, text)? {
        return Ok(None);
    }
    Ok(Some(certificate))
}

fn has_number(numbers: &[u32], number: u32) -> bool
    ensures { IsTrue result ↔ Contains numbers.now number }
{
    numbers.contains(&number)
}

/// Whether the process failed just where it is named.
fn is_told(failed: &[u32], process: u32, named: bool) -> bool
    ensures { IsTrue result ↔ (Contains failed.now process ↔ IsTrue named) }
{
    has_number(failed, process) == named
}

/// Whether the failed processes are just those that are named, of which each process has a flag.
fn are_told(chains: &Chains, named: &[bool], certificate: &Certificate) -> bool
    requires { length named.now ≡ length (known chains.now.accepted) }
    ensures { (names : List AnyName) → AreMarked chains.now.accepted names named.now → (IsTrue result ↔ IsForNames chains.now.accepted names certificate.now) }
{
    let failed = certificate.failed.as_slice();
    for process in 0..chains.count() {
        if !is_told(failed, process, named[process as usize]) {
            return false;
        }
    }
    true
}

/// Whether the failed processes are just those that are named. Each name is looked up once.
fn is_for_names(
    chains: &Chains,
    names: &Names,
    certificate: &Certificate,
) -> Result<bool, AllocError>
    ensures { IfOk result (λ b. IsTrue b ↔ IsForNames chains.now.accepted names.now certificate.now) }
{
    let named = which_are_named(chains, names)?;
    Ok(are_told(chains, &named, certificate))
}

/// Whether all processes failed.
fn is_for_all(chains: &Chains, certificate: &Certificate) -> bool
    ensures { IsTrue result ↔ IsForNames chains.now.accepted (known chains.now.accepted) certificate.now }
{
    let failed = certificate.failed.as_slice();
    for process in 0..chains.count() {
        if !has_number(failed, process) {
            return false;
        }
    }
    true
}

/// Whether the text is that of the line for these names.
fn is_line_of(chains: &Chains, names: &Names, text: &[u8]) -> Result<bool, AllocError>
    ensures { IfOk result (λ b. IsTrue b ↔ IsLineText (held_of chains.now) names.now text.now) }
{
    match certified_in(chains, text)? {
        None => Ok(false),
        Some(certificate) => is_for_names(chains, names, &certificate),
    }
}

/// Whether the text is that of the line with every process failed.
fn is_garbage_line(chains: &Chains, text: &[u8]) -> Result<bool, AllocError>
    ensures { IfOk result (λ b. IsTrue b ↔ IsLineText (held_of chains.now) (known chains.now.accepted) text.now) }
{
    match certified_in(chains, text)? {
        None => Ok(false),
        Some(certificate) => Ok(is_for_all(chains, &certificate)),
    }
}

/// Whether the text is that of the line that the call asks for, by its certificate.
fn is_certified_for(chains: &Chains, call: &Call, text: &[u8]) -> Result<bool, AllocError>
    ensures { IfOk result (λ b. IsTrue b ↔ IsLineFor (held_of chains.now) call.now text.now) }
{
    match call {
        Call::Line(names) => is_line_of(chains, names, text),
        Call::Garbage => is_garbage_line(chains, text),
        Call::Report(_)
        | Call::Settle { .. }
        | Call::State(_)
        | Call::Bye
        | Call::Bad(_)
        | Call::Unread => Ok(false),
    }
}

/// Whether the call, asked again over these chains, is answered by this text.
fn is_answered_so(chains: &Chains, call: &Call, text: &[u8]) -> bool
    ensures { IsTrue result → IsLineFor (held_of chains.now) call.now text.now }
{
    match answer_for(chains, None, call) {
        None => false,
        Some(answer) => answer.as_bytes() == text,
    }
}

/// A text of more bytes has long chains of reasons, so many rounds found it: to check it costs less than to answer again.
const LONG_TEXT: usize = 65_536;

/// Whether the text is that of the line that the call asks for. To answer again costs less than to check a certificate, if its chains are short;
/// which text is right besides is for the check to say, since other reasons may certify the same line.
fn is_line_for(chains: &Chains, call: &Call, text: &[u8]) -> Result<bool, AllocError>
    ensures { IfOk result (λ b. IsTrue b ↔ IsLineFor (held_of chains.now) call.now text.now) }
{
    if text.len() <= LONG_TEXT && is_answered_so(chains, call, text) {
        return Ok(true);
    }
    is_certified_for(chains, call, text)
}

/// Whether the entry shows no line, or the one that its call asked for.
pub(crate) fn is_right(chains: &Chains, entry: &Entry) -> Result<bool, AllocError>
    ensures right { IfOk result (λ b. IsTrue b → RightOver (held_of chains.now) entry.now) }
    ensures wrong { IfOk result (λ b. b ≡ false → WrongOver (held_of chains.now) entry.now) }
{
    match entry.shown() {
        Reply::Line(text) => is_line_for(chains, entry.call(), text.as_bytes()),
        _ => Ok(true),
    }
}
