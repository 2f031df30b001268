//! Whether two calls, or two receipts, are the same.

ghost use Rattle.std.specs.Prelude.{◌≡◌, IsTrue, ◌↔◌};

use desk::Receipt;
use report_line::{Call, Name, Reply, Text};

fn same_name(a: &Name, b: &Name) -> bool
    ensures { IsTrue result ↔ (a.now ≡ b.now) }
{
    a.as_bytes() == b.as_bytes()
}

fn same_text(a: &Text, b: &Text) -> bool
    ensures { IsTrue result ↔ (a.now ≡ b.now) }
{
    a.as_bytes() == b.as_bytes()
}

fn same_named(a: &Option<Name>, b: &Option<Name>) -> bool
    ensures { IsTrue result ↔ (a.now ≡ b.now) }
{
    match (a, b) {
        (None, None) => true,
        (Some(a), Some(b)) => same_name(a, b),
        _ => false,
    }
}

fn same_value(a: &Option<Text>, b: &Option<Text>) -> bool
    ensures { IsTrue result ↔ (a.now ≡ b.now) }
{
    match (a, b) {
        (None, None) => true,
        (Some(a), Some(b)) => same_text(a, b),
        _ => false,
    }
}

pub(crate) fn same_call(a: &Call, b: &Call) -> bool
    ensures { IsTrue result ↔ (a.now ≡ b.now) }
{
    match (a, b) {
        (Call::Report(a), Call::Report(b)) => a.equal(b),
        (Call::Line(a), Call::Line(b)) => a.equal(b),
        (Call::Garbage, Call::Garbage) => true,
        (
            Call::Settle { front, names },
            Call::Settle {
                front: other_front,
                names: other_names,
            },
        ) => *front == *other_front && names.equal(other_names),
        (Call::State(a), Call::State(b)) => same_name(a, b),
        (Call::Bye, Call::Bye) => true,
        (Call::Bad(a), Call::Bad(b)) => *a == *b,
        (Call::Unread, Call::Unread) => true,
        _ => false,
    }
}

fn same_reply(a: &Reply, b: &Reply) -> bool
    ensures { IsTrue result ↔ (a.now ≡ b.now) }
{
    match (a, b) {
        (Reply::Accepted(a), Reply::Accepted(b)) => *a == *b,
        (Reply::Old(a), Reply::Old(b)) => *a == *b,
        (
            Reply::No { code, name, value },
            Reply::No {
                code: other_code,
                name: other_name,
                value: other_value,
            },
        ) => {
            *code == *other_code && same_named(name, other_name) && same_value(value, other_value)
        }
        (Reply::Bad(a), Reply::Bad(b)) => *a == *b,
        (Reply::Fail(a), Reply::Fail(b)) => *a == *b,
        (Reply::Line(a), Reply::Line(b)) => same_text(a, b),
        (
            Reply::State {
                name,
                reports,
                elements,
                live,
                id,
            },
            Reply::State {
                name: other_name,
                reports: other_reports,
                elements: other_elements,
                live: other_live,
                id: other_id,
            },
        ) => {
            same_name(name, other_name)
                && *reports == *other_reports
                && *elements == *other_elements
                && *live == *other_live
                && same_text(id, other_id)
        }
        (
            Reply::Settled { epoch, front },
            Reply::Settled {
                epoch: other_epoch,
                front: other_front,
            },
        ) => *epoch == *other_epoch && *front == *other_front,
        (Reply::Bye, Reply::Bye) => true,
        (Reply::Taken(a), Reply::Taken(b)) => *a == *b,
        _ => false,
    }
}

pub(crate) fn same_receipt(a: &Receipt, b: &Receipt) -> bool
    ensures { IsTrue result ↔ (a.now ≡ b.now) }
{
    a.turn == b.turn && same_reply(&a.reply, &b.reply)
}
