//! Explanations as text.

ghost use Rattle.std.specs.Prelude.{◌≡◌, ◌++◌, OnOk, OnErr};
ghost use Rattle.std.specs.List.{flat_map};
ghost use Rattle.report_line.specs.View.{action_of, numbered_of};
ghost use Rattle.report_line.specs.declared.call.Call.TheVariants as calls;
ghost use Rattle.report_line.specs.declared.report.Report.TheVariants as reports;
ghost use Rattle.line_explain.specs.Words.{missing_text, stamp_text, id_text, why_text, action_text, report_text, call_text, explained_text};
ghost use Rattle.line_explain.specs.declared.explained.Explained.TheVariants as explained;

use crate::fault::{TreeFault, Why, WrongWord};
use crate::wanted::Wanted;
use itoa::Buffer;
use report_line::{Call, Names, NumberedView, PackedReport, ReportKindView, ReportView};
use std::alloc::AllocError;

// Appends the pieces, or nothing.
pub(crate) fn push_pieces(out: &mut Vec<u8>, pieces: &[&[u8]]) -> Result<(), AllocError>
    ensures ok { OnOk result (out.new.items ≡ out.old.items ++ flat_map (λ p. p.now) pieces.now) }
    ensures err { OnErr result (out.new.items ≡ out.old.items) }
{
    let before = out.len();
    for piece in pieces {
        let Ok(()) = out.extend_from_slice(piece) else {
            out.truncate(before);
            return Err(AllocError);
        };
    }
    Ok(())
}

fn missing_text(wanted: Wanted) -> &'static [u8]
    ensures { result.now ≡ missing_text wanted }
{
    match wanted {
        Wanted::Name => b" is missing: a name is wanted",
        Wanted::Number => b" is missing: a number is wanted",
        Wanted::Stamp => b" is missing: a stamp is wanted",
        Wanted::Id => b" is missing: an id is wanted",
        Wanted::Names => b" is missing: names parted by commas are wanted, or - for none",
    }
}

fn stamp_text(fault: TreeFault) -> &'static [u8]
    ensures { result.now ≡ stamp_text fault }
{
    match fault {
        TreeFault::NoText => {
            b": a stamp is wanted, an id and an event tree with a semicolon between them"
        }
        TreeFault::NotNormal => b": a stamp with a tree that is not in normal form",
        TreeFault::TooDeep => b": a stamp with a tree deeper than 40",
    }
}

fn id_text(fault: TreeFault) -> &'static [u8]
    ensures { result.now ≡ id_text fault }
{
    match fault {
        TreeFault::NoText => b": an id is wanted, as 0, 1 or (1,0)",
        TreeFault::NotNormal => b": an id that is not in normal form",
        TreeFault::TooDeep => b": an id deeper than 40",
    }
}

fn why_text(why: Why) -> &'static [u8]
    ensures { result.now ≡ why_text why }
{
    match why {
        Why::Missing(wanted) => missing_text(wanted),
        Why::Empty => b" is empty: words are parted by one space, and none stands at either end",
        Why::Kind => {
            b": BEGIN, CHECK, PRESENT, FORK, RETIRE, ABSORB, LINE, GARBAGE, STATE, SETTLE or BYE is wanted"
        }
        Why::Mark => {
            b": a mark is @ and a number from 1 to 4294967295, behind CHECK, PRESENT, FORK, RETIRE or ABSORB"
        }
        Why::Extra => b": nothing is wanted here",
        Why::Name => {
            b": a name is wanted, 1 to 32 of a to z, 0 to 9, _ and -, the first a letter"
        }
        Why::Number => b": a number is wanted, 1 to 4294967295 without leading zeros",
        Why::Names => b": names parted by commas are wanted, or - for none",
        Why::Stamp(fault) => stamp_text(fault),
        Why::TooLarge => b": a stamp with a value above 4294967295",
        Why::Id(fault) => id_text(fault),
    }
}

pub(crate) fn push_wrong(out: &mut Vec<u8>, found: WrongWord) -> Result<(), AllocError>
    ensures ok { OnOk result (out.new.items ≡ out.old.items ++ explained_text (explained.Wrong found)) }
    ensures err { OnErr result (out.new.items ≡ out.old.items) }
{
    let mut digits = Buffer::new();
    push_pieces(
        out,
        &[
            b"word ".as_slice(),
            digits.format(found.number).as_bytes(),
            why_text(found.why),
        ],
    )
}

// What a report says that its process did, by the word for it and a name.
fn action_parts<'a>(action: ReportKindView<'a>) -> (&'a [u8], &'a [u8])
    ensures { result.0.now ++ result.1.now ≡ action_text (action_of action.entry) }
{
    match action {
        ReportKindView::Check => (b": CHECK", b""),
        ReportKindView::Present => (b": PRESENT", b""),
        ReportKindView::Fork(forked) => (b": FORK of ", forked.child.as_bytes()),
        ReportKindView::Retire { target } => (b": RETIRE into ", target.as_bytes()),
        ReportKindView::Absorb { retired } => (b": ABSORB of ", retired.as_bytes()),
    }
}

fn push_numbered(out: &mut Vec<u8>, epoch: u32, report: NumberedView<'_>) -> Result<(), AllocError>
    ensures ok { OnOk result (out.new.items ≡ out.old.items ++ report_text epoch (reports.Numbered (numbered_of report.entry))) }
    ensures err { OnErr result (out.new.items ≡ out.old.items) }
{
    let mut of_number = Buffer::new();
    let mut of_epoch = Buffer::new();
    let (word, name) = action_parts(report.action);
    push_pieces(
        out,
        &[
            b"report ".as_slice(),
            of_number.format(report.number).as_bytes(),
            b" of ".as_slice(),
            report.process.as_bytes(),
            b", epoch ".as_slice(),
            of_epoch.format(epoch).as_bytes(),
            word,
            name,
        ],
    )
}

fn push_report(out: &mut Vec<u8>, epoch: u32, report: &PackedReport) -> Result<(), AllocError>
    ensures ok { OnOk result (out.new.items ≡ out.old.items ++ report_text epoch report.now) }
    ensures err { OnErr result (out.new.items ≡ out.old.items) }
{
    match report.view() {
        ReportView::Begin { process } => push_pieces(
            out,
            &[
                b"the beginning of ".as_slice(),
                process.as_bytes(),
                b": BEGIN".as_slice(),
            ],
        ),
        ReportView::Numbered(numbered) => push_numbered(out, epoch, numbered),
    }
}

fn push_failed(out: &mut Vec<u8>, names: &Names) -> Result<(), AllocError>
    ensures ok { OnOk result (out.new.items ≡ out.old.items ++ call_text (calls.Line names.now)) }
    ensures err { OnErr result (out.new.items ≡ out.old.items) }
{
    let mut digits = Buffer::new();
    push_pieces(
        out,
        &[
            b"a question: LINE, names: ".as_slice(),
            digits.format(names.count()).as_bytes(),
        ],
    )
}

fn push_settle(out: &mut Vec<u8>, front: u32, names: &Names) -> Result<(), AllocError>
    ensures ok { OnOk result (out.new.items ≡ out.old.items ++ call_text (calls.Settle front names.now)) }
    ensures err { OnErr result (out.new.items ≡ out.old.items) }
{
    let mut of_front = Buffer::new();
    let mut of_names = Buffer::new();
    push_pieces(
        out,
        &[
            b"a settlement at the front ".as_slice(),
            of_front.format(front).as_bytes(),
            b": SETTLE, names: ".as_slice(),
            of_names.format(names.count()).as_bytes(),
        ],
    )
}

pub(crate) fn push_call(out: &mut Vec<u8>, call: &Call) -> Result<(), AllocError>
    ensures ok { OnOk result (out.new.items ≡ out.old.items ++ call_text call.now) }
    ensures err { OnErr result (out.new.items ≡ out.old.items) }
{
    match call {
        Call::Report(marked) => push_report(out, marked.epoch, &marked.report),
        Call::Line(names) => push_failed(out, names),
        Call::Garbage => push_pieces(out, &[b"a question: GARBAGE".as_slice()]),
        Call::Settle { front, names } => push_settle(out, *front, names),
        Call::State(process) => push_pieces(
            out,
            &[b"a question: STATE of ".as_slice(), process.as_bytes()],
        ),
        Call::Bye => push_pieces(out, &[b"the end of the session: BYE".as_slice()]),
        Call::Bad(_) | Call::Unread => Ok(()),
    }
}
