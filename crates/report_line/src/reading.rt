//! Lines as calls.

ghost use Rattle.std.specs.Prelude.{◌≡◌, ◌≢◌, ◌∷◌, ℕ, List, [], IsTrue, IfOk, MatchOption, MatchResult, codes};
ghost use Rattle.std.specs.Fmt.{decimal};
ghost use Rattle.id_tree.specs.NormalForm.{IsId};
ghost use Rattle.id_tree.specs.Spelling as ids;
ghost use Rattle.stamp.specs.Stamps.{IsStamp, stamp_text};
ghost use Rattle.report_line.specs.Names.{is_name};
ghost use Rattle.report_line.specs.Spelling.{IsCount, AreNames, names_text, spelling, HasSpelling};
ghost use Rattle.report_line.specs.Reading.{Finds, Reads, Takes, IsCallOf, IsActionOf, IsNumberedOf, IsMarkedWord, IsOtherKind};
ghost use Rattle.report_line.specs.Cuts.{words_in};
ghost use Rattle.report_line.specs.declared.call.Call.{Call as AnyCall};

use crate::call::Call;
use crate::fault::LineFault;
use crate::marked::MarkedReport;
use crate::name::Name;
use crate::number::positive_in;
use crate::packed::PackedReport;
use crate::readers::{read_names, take_id, take_name, take_number, take_stamp};
use crate::report::{NumberedReport, Report, ReportKind};
use crate::shared::Shared;
use crate::words::{Words, cut_once};
use std::alloc::Global;

// The name that is the only word left.
fn last_name(words: &mut Words<'_>) -> Result<Name, LineFault>
    ensures { Finds result (λ p. IsTrue (is_name p) × (words.old ≡ p ∷ [])) }
{
    let Some(name) = take_name(words) else {
        return Err(LineFault::Grammar);
    };
    if words.is_empty() {
        Ok(name)
    } else {
        Err(LineFault::Grammar)
    }
}

fn read_fork(alloc: Global, words: &mut Words<'_>) -> Result<ReportKind, LineFault>
    ensures { Finds result (IsActionOf (codes "FORK") words.old) }
{
    let kept = take_id(alloc, words)?;
    let Some(child) = take_name(words) else {
        return Err(LineFault::Grammar);
    };
    let given = take_id(alloc, words)?;
    if words.is_empty() {
        Ok(ReportKind::fork(alloc, kept, child, given)?)
    } else {
        Err(LineFault::Grammar)
    }
}

fn read_retire(alloc: Global, words: &mut Words<'_>) -> Result<ReportKind, LineFault>
    ensures { Finds result (IsActionOf (codes "RETIRE") words.old) }
{
    let target = last_name(words)?;
    Ok(ReportKind::Retire {
        target: Shared::new(alloc, target)?,
    })
}

fn read_absorb(alloc: Global, words: &mut Words<'_>) -> Result<ReportKind, LineFault>
    ensures { Finds result (IsActionOf (codes "ABSORB") words.old) }
{
    let retired = last_name(words)?;
    Ok(ReportKind::Absorb {
        retired: Shared::new(alloc, retired)?,
    })
}

// The action of this word and of the fields behind the stamp.
fn read_action(alloc: Global, kind: &[u8], words: &mut Words<'_>) -> Result<ReportKind, LineFault>
    ensures { Finds result (IsActionOf kind.now words.old) }
{
    if kind == b"CHECK".as_slice() && words.is_empty() {
        Ok(ReportKind::Check)
    } else if kind == b"PRESENT".as_slice() && words.is_empty() {
        Ok(ReportKind::Present)
    } else if kind == b"FORK".as_slice() {
        read_fork(alloc, words)
    } else if kind == b"RETIRE".as_slice() {
        read_retire(alloc, words)
    } else if kind == b"ABSORB".as_slice() {
        read_absorb(alloc, words)
    } else {
        Err(LineFault::Grammar)
    }
}

// The first word of a line without the mark of an epoch, and the epoch.
#[inline(always)]
fn cut_mark(kind: &[u8]) -> Option<(&[u8], u32)>
    ensures { MatchOption result ((word : List ℕ) (epoch : ℕ) → ¬ IsMarkedWord kind.now word epoch) (λ m. IsMarkedWord kind.now m.0.now m.1) }
{
    let Some((word, digits)) = cut_once(b'@', kind) else {
        return Some((kind, 0));
    };
    match positive_in(digits) {
        Some(epoch) => Some((word, epoch)),
        None => None,
    }
}

// The report of this word and of the words behind it.
#[inline(always)]
fn read_fields(
    alloc: Global,
    kind: &[u8],
    words: &mut Words<'_>,
) -> Result<NumberedReport, LineFault>
    ensures { Finds result (IsNumberedOf kind.now words.old) }
{
    let Some(process) = take_name(words) else {
        return Err(LineFault::Grammar);
    };
    let number = take_number(words)?;
    let stamp = take_stamp(alloc, words)?;
    let action = read_action(alloc, kind, words)?;
    Ok(NumberedReport {
        process,
        number,
        stamp,
        action,
    })
}

fn read_numbered(alloc: Global, kind: &[u8], words: &mut Words<'_>) -> Result<Call, LineFault>
    requires { IsOtherKind kind.now }
    ensures { Finds result (IsCallOf (kind.now ∷ words.old)) }
{
    let Some((word, epoch)) = cut_mark(kind) else {
        return Err(LineFault::Grammar);
    };
    let fields = read_fields(alloc, word, words)?;
    let report = Shared::new(alloc, PackedReport::of(Report::Numbered(fields)))?;
    Ok(Call::Report(MarkedReport { epoch, report }))
}

fn read_begin(alloc: Global, words: &mut Words<'_>) -> Result<Call, LineFault>
    ensures { Finds result (IsCallOf (codes "BEGIN" ∷ words.old)) }
{
    let process = last_name(words)?;
    let report = PackedReport::of(Report::Begin { process });
    Ok(Call::Report(MarkedReport::unmarked(Shared::new(alloc, report)?)))
}

fn read_failed(alloc: Global, words: &mut Words<'_>) -> Result<Call, LineFault>
    ensures { Finds result (IsCallOf (codes "LINE" ∷ words.old)) }
{
    let Some(word) = words.next() else {
        return Err(LineFault::Grammar);
    };
    let names = read_names(alloc, word)?;
    if words.is_empty() {
        Ok(Call::Line(names))
    } else {
        Err(LineFault::Grammar)
    }
}

fn read_garbage(words: &Words<'_>) -> Result<Call, LineFault>
    ensures { Finds result (IsCallOf (codes "GARBAGE" ∷ words.now)) }
{
    if words.is_empty() {
        Ok(Call::Garbage)
    } else {
        Err(LineFault::Grammar)
    }
}

fn read_settle(alloc: Global, words: &mut Words<'_>) -> Result<Call, LineFault>
    ensures { Finds result (IsCallOf (codes "SETTLE" ∷ words.old)) }
{
    let front = take_number(words)?;
    let Some(word) = words.next() else {
        return Err(LineFault::Grammar);
    };
    let names = read_names(alloc, word)?;
    if words.is_empty() {
        Ok(Call::Settle { front, names })
    } else {
        Err(LineFault::Grammar)
    }
}

fn read_state(alloc: Global, words: &mut Words<'_>) -> Result<Call, LineFault>
    ensures { Finds result (IsCallOf (codes "STATE" ∷ words.old)) }
{
    let process = last_name(words)?;
    Ok(Call::State(Shared::new(alloc, process)?))
}

fn read_bye(words: &Words<'_>) -> Result<Call, LineFault>
    ensures { Finds result (IsCallOf (codes "BYE" ∷ words.now)) }
{
    if words.is_empty() {
        Ok(Call::Bye)
    } else {
        Err(LineFault::Grammar)
    }
}

fn read_call(alloc: Global, line: &[u8]) -> Result<Call, LineFault>
    ensures { Finds result (IsCallOf (words_in line.now)) }
{
    let mut words = Words::of(line);
    let Some(kind) = words.next() else {
        return Err(LineFault::Grammar);
    };
    if kind == b"BEGIN".as_slice() {
        read_begin(alloc, &mut words)
    } else if kind == b"LINE".as_slice() {
        read_failed(alloc, &mut words)
    } else if kind == b"GARBAGE".as_slice() {
        read_garbage(&words)
    } else if kind == b"STATE".as_slice() {
        read_state(alloc, &mut words)
    } else if kind == b"BYE".as_slice() {
        read_bye(&words)
    } else if kind == b"SETTLE".as_slice() {
        read_settle(alloc, &mut words)
    } else {
        read_numbered(alloc, kind, &mut words)
    }
}

/// The call that the bytes spell, all of the bytes.
pub fn read_line(alloc: Global, bytes: &[u8]) -> Result<Call, LineFault>
    ensures exact { Reads result bytes.now }
    // What is read is spelled so.
    ensures found { IfOk result (λ c. HasSpelling c × (bytes.now ≡ spelling c)) }
    // What is outside the grammar is the line of no call.
    ensures grammar { result ≡ Err LineFault.Grammar → (c : AnyCall) → HasSpelling c → bytes.now ≢ spelling c }
    // What is spelled so is read, unless memory runs out.
    ensures only { (c : AnyCall) → HasSpelling c → bytes.now ≡ spelling c → MatchResult result (λ d. d ≡ c) (λ e. e ≡ LineFault.Memory) }
{
    read_call(alloc, bytes)
}

/// No line is that of two calls.
pub fn a_line_has_one_call()
    ensures { (c d : AnyCall) → HasSpelling c → HasSpelling d → spelling c ≡ spelling d → c ≡ d }
{}
