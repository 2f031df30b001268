//! The pieces that make up the text of a reply, for all that write one.

ghost use Rattle.std.specs.Prelude.{◌≡◌, ◌++◌, codes};
ghost use Rattle.std.specs.List.{flat_map};
ghost use Rattle.std.specs.Fmt.{decimal};
ghost use Rattle.report_line.specs.Replies.{or_dash, outcome_word, live_word, piece_text, reply_text};

use crate::name::Name;
use crate::reply::{Outcome, Reply};
use crate::text::Text;

/// A piece of a text: its bytes, or a number whose digits they are.
#[derive(Clone, Copy)]
pub enum ReplyPiece<'a> {
    Text(&'a [u8]),
    Number(u32),
}

fn outcome_word(outcome: Outcome) -> &'static [u8]
    ensures { result.now ≡ outcome_word outcome }
{
    match outcome {
        Outcome::Before => b"before",
        Outcome::Unknown => b"unknown",
        Outcome::Stopped => b"stopped",
    }
}

fn live_word(live: bool) -> &'static [u8]
    ensures { result.now ≡ live_word live }
{
    if live { b"live" } else { b"retired" }
}

fn name_bytes(name: &Option<Name>) -> &[u8]
    ensures { result.now ≡ or_dash name.now }
{
    match name {
        None => b"-".as_slice(),
        Some(name) => name.as_bytes(),
    }
}

fn value_bytes(value: &Option<Text>) -> &[u8]
    ensures { result.now ≡ or_dash value.now }
{
    match value {
        None => b"-".as_slice(),
        Some(value) => value.as_bytes(),
    }
}

/// Three pieces, and as many empty ones as make up the length.
fn three<'a>(
    first: ReplyPiece<'a>,
    second: ReplyPiece<'a>,
    third: ReplyPiece<'a>,
) -> [ReplyPiece<'a>; 11]
    ensures { flat_map piece_text result ≡ piece_text first.entry ++ piece_text second.entry ++ piece_text third.entry }
{
    let none = ReplyPiece::Text(b"".as_slice());
    [
        first, second, third, none, none, none, none, none, none, none, none,
    ]
}

/// What is kept of a process, and then this piece.
fn state_pieces<'a>(
    name: &'a Name,
    reports: u32,
    elements: u32,
    live: bool,
    id: &'a Text,
    end: ReplyPiece<'a>,
) -> [ReplyPiece<'a>; 11]
    ensures { flat_map piece_text result ≡ codes "STATE " ++ name.now ++ codes " " ++ decimal reports ++ codes " " ++ decimal elements ++ codes " " ++ live_word live ++ codes " " ++ id.now ++ piece_text end.entry }
{
    let word = ReplyPiece::Text(b"STATE ".as_slice());
    let space = ReplyPiece::Text(b" ".as_slice());
    let name = ReplyPiece::Text(name.as_bytes());
    let reports = ReplyPiece::Number(reports);
    let elements = ReplyPiece::Number(elements);
    let live = ReplyPiece::Text(live_word(live));
    let id = ReplyPiece::Text(id.as_bytes());
    [
        word, name, space, reports, space, elements, space, live, space, id, end,
    ]
}

/// The pieces of a reply's text, in order, and then this end. Those that are left over are empty.
#[tactic(auto, unfolding(crate::specs::Replies::reply_text))]
pub fn reply_pieces<'a>(reply: &'a Reply, end: &'a [u8]) -> [ReplyPiece<'a>; 11]
    ensures { flat_map piece_text result ≡ reply_text reply.now ++ end.now }
{
    let none = ReplyPiece::Text(b"".as_slice());
    let space = ReplyPiece::Text(b" ".as_slice());
    let end = ReplyPiece::Text(end);
    match reply {
        Reply::Accepted(front) => {
            let word = ReplyPiece::Text(b"OK ".as_slice());
            three(word, ReplyPiece::Number(*front), end)
        }
        Reply::Old(front) => {
            let word = ReplyPiece::Text(b"OLD ".as_slice());
            three(word, ReplyPiece::Number(*front), end)
        }
        Reply::No { code, name, value } => {
            let word = ReplyPiece::Text(b"NO ".as_slice());
            let code = ReplyPiece::Number(u32::from(code.number()));
            let name = ReplyPiece::Text(name_bytes(name));
            let value = ReplyPiece::Text(value_bytes(value));
            [
                word, code, space, name, space, value, end, none, none, none, none,
            ]
        }
        Reply::Bad(number) => {
            let word = ReplyPiece::Text(b"BAD ".as_slice());
            three(word, ReplyPiece::Number(u32::from(*number)), end)
        }
        Reply::Fail(outcome) => {
            let word = ReplyPiece::Text(b"FAIL ".as_slice());
            three(word, ReplyPiece::Text(outcome_word(*outcome)), end)
        }
        Reply::Line(text) => {
            let word = ReplyPiece::Text(b"LINE ".as_slice());
            three(word, ReplyPiece::Text(text.as_bytes()), end)
        }
        Reply::State {
            name,
            reports,
            elements,
            live,
            id,
        } => state_pieces(name, *reports, *elements, *live, id, end),
        Reply::Settled { epoch, front } => {
            let word = ReplyPiece::Text(b"SETTLED ".as_slice());
            let epoch = ReplyPiece::Number(*epoch);
            let front = ReplyPiece::Number(*front);
            [
                word, epoch, space, front, end, none, none, none, none, none, none,
            ]
        }
        Reply::Bye => three(ReplyPiece::Text(b"BYE".as_slice()), none, end),
        Reply::Taken(_) => three(none, none, end),
    }
}
