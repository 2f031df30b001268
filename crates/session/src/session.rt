//! One client: lines in, replies out, over a desk or over a pass.

ghost use Rattle.std.specs.Prelude.{◌≡◌, ◌≢◌, ◌≤◌, ◌<◌, ◌^◌, ℕ, None};
ghost use Rattle.session.specs.SessionText.{ending_line, ending_count};
ghost use Rattle.session.specs.Ends.{Leaves};
ghost use Rattle.session.specs.working.Parts.{AreLawful, Follows, StepsOn, Closing, Closes, Ran};

use crate::flush_policy::FlushPolicy;
use crate::kind::{SessionEnd, SessionEndKind};
use crate::server::Server;
use crate::serving::serve_lines;
use client_link::{Link, put};
use report_line::Feed;

/// How many reads a session makes at most.
const MOST_READS: u64 = 1_048_576;

/// The ending line of a session that ends so, if it has one.
pub(crate) fn line_of_end(kind: SessionEndKind) -> &'static [u8]
    ensures { result.now ≡ ending_line kind }
{
    match kind {
        SessionEndKind::TooLong => b"BAD 2\n".as_slice(),
        SessionEndKind::Worn => b"NO 17 - 65536\n".as_slice(),
        SessionEndKind::Memory => b"NO 16 - -\n".as_slice(),
        SessionEndKind::End
        | SessionEndKind::Bye
        | SessionEndKind::ReadFailed
        | SessionEndKind::WriteFailed
        | SessionEndKind::Endless
        | SessionEndKind::Foreign => b"".as_slice(),
    }
}

/// How many ending lines a session has that ends so.
fn lines_of_end(kind: SessionEndKind) -> u64
    ensures { result ≡ ending_count kind }
{
    match kind {
        SessionEndKind::TooLong | SessionEndKind::Worn | SessionEndKind::Memory => 1,
        SessionEndKind::End
        | SessionEndKind::Bye
        | SessionEndKind::ReadFailed
        | SessionEndKind::WriteFailed
        | SessionEndKind::Endless
        | SessionEndKind::Foreign => 0,
    }
}

/// Writes the ending line of a session that ends so behind this many lines, and hands all on. An ending line that was not handed on is
/// not counted.
fn close_by<K: Link>(link: &mut K, kind: SessionEndKind, replies: u64) -> SessionEnd
    requires { replies < 2 ^ 63 }
    ensures { Closing kind (K.told link.old) (K.told link.new) replies result.kind result.replies }
{
    if put(link, line_of_end(kind)).is_err() {
        return SessionEnd {
            kind: SessionEndKind::WriteFailed,
            replies,
        };
    }
    match link.flush() {
        Ok(()) => SessionEnd {
            kind,
            replies: replies + lines_of_end(kind),
        },
        Err(_) => SessionEnd {
            kind: SessionEndKind::WriteFailed,
            replies,
        },
    }
}

/// The end of a session that ends so behind this many lines.
fn close<K: Link>(link: &mut K, kind: SessionEndKind, replies: u64) -> SessionEnd
    requires { replies < 2 ^ 63 }
    ensures { Closes kind (K.told link.old) (K.told link.new) replies result.kind result.replies }
{
    match kind {
        SessionEndKind::End | SessionEndKind::ReadFailed | SessionEndKind::WriteFailed =>
            SessionEnd { kind, replies },
        SessionEndKind::Bye
        | SessionEndKind::TooLong
        | SessionEndKind::Worn
        | SessionEndKind::Memory
        | SessionEndKind::Endless
        | SessionEndKind::Foreign => close_by(link, kind, replies),
    }
}

/// Why a session ends once lines were served to this end, if it does.
fn kind_after(end: Option<SessionEndKind>, feed: &Feed) -> Option<SessionEndKind>
    ensures { Follows end feed.now result }
{
    match end {
        Some(kind) => Some(kind),
        None => if feed.too_long() {
            Some(SessionEndKind::TooLong)
        } else {
            None
        },
    }
}

/// One read into the buffer: the lines that it completes are answered. Answers why the session ends, if it does, and how many replies
/// were written whole.
fn step<S, V: Server<S>, K: Link>(
    server: &V,
    state: &mut S,
    feed: &mut Feed,
    link: &mut K,
    buf: &mut [u8; 8192],
    when: FlushPolicy,
) -> (Option<SessionEndKind>, u64)
    requires leave { V.leave }
    requires laws { AreLawful V.makes V.grounds }
    requires some { feed.old ≢ None }
    ensures steps { StepsOn V.makes V.grounds K.told when link.old link.new feed.old feed.new state.old state.new result.0 result.1 }
    ensures at_most { result.1 ≤ 8192 }
{
    let Ok(n) = link.read(buf) else {
        return (Some(SessionEndKind::ReadFailed), 0);
    };
    if n == 0 {
        return (Some(SessionEndKind::End), 0);
    }
    let Ok(lines) = feed.push(&buf[..n]) else {
        return (Some(SessionEndKind::Memory), 0);
    };
    let (end, replies) = serve_lines(server, state, link, &lines, when);
    (kind_after(end, feed), replies)
}

/// Serves one client: after each read it answers the lines that are complete, and writes each reply before the next line's turn
/// is made; before each read and at the end it hands on what it wrote, and each reply by itself where that is wanted.
pub(crate) fn serve<S, V: Server<S>, K: Link>(
    server: &V,
    state: &mut S,
    link: &mut K,
    when: FlushPolicy,
) -> SessionEnd
    requires leave { V.leave }
    requires laws { AreLawful V.makes V.grounds }
    ensures session { Ran V.makes V.grounds K.told when link.old link.new state.old state.new result.kind result.replies }
    ensures leaves { Leaves result.kind (K.told link.old) (K.told link.new) }
{
    let mut feed = Feed::new(server.alloc(state));
    let mut buf = [0u8; 8192];
    let mut replies = 0u64;
    for _ in 0..MOST_READS {
        let Ok(()) = link.flush() else {
            return SessionEnd {
                kind: SessionEndKind::WriteFailed,
                replies,
            };
        };
        let (end, more) = step(server, state, &mut feed, link, &mut buf, when);
        replies += more;
        if let Some(kind) = end {
            return close(link, kind, replies);
        }
    }
    close(link, SessionEndKind::Endless, replies)
}
