//! Reports and replies as text.

ghost use Rattle.std.specs.Prelude.{◌≡◌, ◌++◌, ◌∷◌, OnOk, IfOk};
ghost use Rattle.std.specs.Fmt.{decimal};
ghost use Rattle.stamp.specs.Stamps.{stamp_text};
ghost use Rattle.report_line.specs.Reports.{unmarked};
ghost use Rattle.report_line.specs.Spelling.{spelling, mark_text, action_word, action_fields};
ghost use Rattle.report_line.specs.View.{action_of, numbered_of};
ghost use Rattle.report_line.specs.declared.call.Call.TheVariants as calls;
ghost use Rattle.report_line.specs.Replies.{piece_text, reply_text, HasText};
ghost use Rattle.report_line.specs.Cuts.{spaced};

use crate::packed::{NumberedView, PackedReport, ReportKindView, ReportView};
use crate::pieces::{ReplyPiece, reply_pieces};
use crate::reply::Reply;
use crate::row::Names;
use itoa::Buffer;
use std::alloc::{AllocError, Global};

/// Room for the line of a report with a small stamp.
const SHORT_LINE: usize = 96;

fn push_number(out: &mut Vec<u8>, n: u32) -> Result<(), AllocError>
    ensures { OnOk result (out.new.items ≡ out.old.items ++ decimal n) }
{
    let mut digits = Buffer::new();
    out.extend_from_slice(digits.format(n).as_bytes())
}

fn push_kind(out: &mut Vec<u8>, action: ReportKindView<'_>) -> Result<(), AllocError>
    ensures { OnOk result (out.new.items ≡ out.old.items ++ action_word (action_of action.entry)) }
{
    match action {
        ReportKindView::Check => out.extend_from_slice(b"CHECK"),
        ReportKindView::Present => out.extend_from_slice(b"PRESENT"),
        ReportKindView::Fork(_) => out.extend_from_slice(b"FORK"),
        ReportKindView::Retire { .. } => out.extend_from_slice(b"RETIRE"),
        ReportKindView::Absorb { .. } => out.extend_from_slice(b"ABSORB"),
    }
}

// The mark of an epoch, which epoch 0 has none of.
fn push_mark(out: &mut Vec<u8>, epoch: u32) -> Result<(), AllocError>
    ensures { OnOk result (out.new.items ≡ out.old.items ++ mark_text epoch) }
{
    if epoch > 0 {
        out.push(b'@')?;
        push_number(out, epoch)?;
    }
    Ok(())
}

// The words that each report with a number has behind its kind, each with a space in front of it.
fn push_head(out: &mut Vec<u8>, report: NumberedView<'_>) -> Result<(), AllocError>
    ensures { OnOk result (out.new.items ≡ out.old.items ++ 32 ∷ (report.entry.process.now ++ 32 ∷ (decimal report.entry.number ++ 32 ∷ stamp_text report.entry.stamp.now))) }
{
    out.push(b' ')?;
    out.extend_from_slice(report.process.as_bytes())?;
    out.push(b' ')?;
    push_number(out, report.number)?;
    out.push(b' ')?;
    report.stamp.write_to(out)
}

// The words behind the stamp, each with a space in front of it.
fn push_fields(out: &mut Vec<u8>, action: ReportKindView<'_>) -> Result<(), AllocError>
    ensures { OnOk result (out.new.items ≡ out.old.items ++ spaced (action_fields (action_of action.entry))) }
{
    match action {
        ReportKindView::Check | ReportKindView::Present => {}
        ReportKindView::Fork(forked) => {
            out.push(b' ')?;
            forked.kept.write_to(out)?;
            out.push(b' ')?;
            out.extend_from_slice(forked.child.as_bytes())?;
            out.push(b' ')?;
            forked.given.write_to(out)?;
        }
        ReportKindView::Retire { target: name } | ReportKindView::Absorb { retired: name } => {
            out.push(b' ')?;
            out.extend_from_slice(name.as_bytes())?;
        }
    }
    Ok(())
}

/// The one spelling of a report.
#[tactic(auto, using(crate::proofs::Parting::joined_spaced), unfolding(crate::specs::Spelling::spelling))]
pub fn write_line(alloc: Global, report: &PackedReport) -> Result<Vec<u8>, AllocError>
    ensures { IfOk result (λ v. v.items ≡ spelling (calls.Report (unmarked report.now))) }
{
    write_marked(alloc, 0, report)
}

/// The one spelling of a report of this epoch.
#[tactic(auto, using(crate::proofs::Parting::joined_spaced), unfolding(crate::specs::Spelling::spelling))]
pub fn write_marked(alloc: Global, epoch: u32, report: &PackedReport) -> Result<Vec<u8>, AllocError>
    ensures { IfOk result (λ v. v.items ≡ spelling (calls.Report (record { epoch = epoch; report = report.now }))) }
{
    let mut out = Vec::with_capacity(alloc, SHORT_LINE)?;
    match report.view() {
        ReportView::Begin { process } => {
            out.extend_from_slice(b"BEGIN ")?;
            out.extend_from_slice(process.as_bytes())?;
            Ok(out)
        }
        ReportView::Numbered(numbered) => {
            push_kind(&mut out, numbered.action)?;
            push_mark(&mut out, epoch)?;
            push_head(&mut out, numbered)?;
            push_fields(&mut out, numbered.action)?;
            Ok(out)
        }
    }
}

/// The one spelling of a settlement on the line of these failed processes at this front.
#[tactic(auto, unfolding(crate::specs::Spelling::spelling))]
pub fn write_settle(alloc: Global, front: u32, names: &Names) -> Result<Vec<u8>, AllocError>
    ensures { IfOk result (λ v. v.items ≡ spelling (calls.Settle front names.now)) }
{
    let mut out = Vec::new(alloc);
    out.extend_from_slice(b"SETTLE ")?;
    push_number(&mut out, front)?;
    out.push(b' ')?;
    names.write_to(&mut out)?;
    Ok(out)
}

fn push_piece(out: &mut Vec<u8>, piece: &ReplyPiece<'_>) -> Result<(), AllocError>
    ensures { OnOk result (out.new.items ≡ out.old.items ++ piece_text piece.now) }
{
    match piece {
        ReplyPiece::Text(bytes) => out.extend_from_slice(bytes),
        ReplyPiece::Number(n) => push_number(out, *n),
    }
}

/// The text of a reply, without LF.
pub fn write_reply(alloc: Global, reply: &Reply) -> Result<Vec<u8>, AllocError>
    requires { HasText reply.now }
    ensures { IfOk result (λ v. v.items ≡ reply_text reply.now) }
{
    let mut out = Vec::new(alloc);
    for piece in &reply_pieces(reply, b"") {
        push_piece(&mut out, piece)?;
    }
    Ok(out)
}
