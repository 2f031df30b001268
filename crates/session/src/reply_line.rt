//! Replies as they are written.

ghost use Rattle.std.specs.Fmt.{decimal};
ghost use Rattle.std.specs.List.{flat_map};
ghost use Rattle.std.specs.Prelude.{◌≡◌, [], ◌∷◌, ◌++◌, ◌≤◌};
ghost use Rattle.report_line.specs.Replies.{reply_text, piece_text};
ghost use Rattle.report_line.specs.Cutting.{ended};
ghost use Rattle.client_link.specs.Links.{Puts};

use crate::numbered::{ROOM, write_at_end};
use client_link::{Link, LinkFault, put};
use itoa::Buffer;
use report_line::{Reply, ReplyPiece, reply_pieces};

/// A word, a number and an LF, made in one piece.
fn put_numbered<K: Link, const N: usize>(
    link: &mut K,
    word: &[u8; N],
    n: u32,
) -> Result<(), LinkFault>
    requires { N ≤ 5 }
    ensures { Puts (K.told link.old) (K.told link.new) result (word.now ++ decimal n ++ 10 ∷ []) }
{
    let mut line = [0u8; ROOM];
    let digits = write_at_end(&mut line, n);
    let start = digits - N;
    line[start..digits].copy_from_slice(word);
    put(link, &line[start..])
}

fn put_piece<K: Link>(link: &mut K, piece: &ReplyPiece<'_>) -> Result<(), LinkFault>
    ensures { Puts (K.told link.old) (K.told link.new) result (piece_text piece.now) }
{
    match piece {
        ReplyPiece::Text(bytes) => put(link, bytes),
        ReplyPiece::Number(n) => {
            let mut digits = Buffer::new();
            put(link, digits.format(*n).as_bytes())
        }
    }
}

fn put_pieces<K: Link>(link: &mut K, pieces: &[ReplyPiece<'_>]) -> Result<(), LinkFault>
    ensures { Puts (K.told link.old) (K.told link.new) result (flat_map piece_text pieces.now) }
{
    for piece in pieces {
        put_piece(link, piece)?;
    }
    Ok(())
}

/// A reply and an LF, from its pieces. `OK` and `OLD`, which most reports are answered, go out in one.
#[tactic(auto, unfolding(report_line::specs::Replies::reply_text))]
pub(crate) fn put_reply<K: Link>(link: &mut K, reply: &Reply) -> Result<(), LinkFault>
    ensures { Puts (K.told link.old) (K.told link.new) result (ended (reply_text reply.now)) }
{
    match reply {
        Reply::Accepted(front) => put_numbered(link, b"OK ", *front),
        Reply::Old(front) => put_numbered(link, b"OLD ", *front),
        _ => put_pieces(link, &reply_pieces(reply, b"\n")),
    }
}
