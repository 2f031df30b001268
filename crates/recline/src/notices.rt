//! What a service tells of itself while it goes on.

ghost use Rattle.std.specs.Prelude.{◌≡◌, ◌↔◌, IsTrue};
ghost use Rattle.recline.specs.Outcome.{Tells};
ghost use Rattle.recline.specs.Notices.{IsNear, MayTell, TellsNotices, after_number, before_number, notice_line, number_in};

use crate::telling::tell_all;
use client_link::Link;
use itoa::Buffer;

/// How many lines are accepted at most.
pub const MOST_LINES: u32 = 16_384;

/// How many processes are known at most.
pub const MOST_PROCESSES: u32 = 1_024;

/// What is told of a service while it goes on.
#[derive(Clone, Copy)]
pub(crate) enum Notice {
    /// So many clients wait for a worker.
    Waiting(u64),
    /// This is the front, which is near the last one that there can be.
    Front(u32),
    /// So many processes are known, which is near the most that there can be.
    Processes(u32),
    /// Each session has its client: who connects now gets no reply.
    SessionsUsedUp,
    /// All turns are made: each further line is answered `NO 17`.
    TurnsUsedUp,
    /// The file failed: no later report is recorded.
    FileFailed,
    /// The system gives the service no connection. It is asked again.
    NoConnection,
    /// So many lines that clients were shown are being checked.
    Checking(u64),
}

/// Whether so many of at most so many are nine tenths of them or more.
pub fn is_near(most: u32, n: u32) -> bool
    ensures { IsTrue result ↔ IsNear most n }
{
    9 * u64::from(most) <= 10 * u64::from(n)
}

/// What stands before the number of a notice, or all but the end of a line without one.
fn words_before(notice: Notice) -> &'static [u8]
    ensures { result.now ≡ before_number notice }
{
    match notice {
        Notice::Waiting(_) => b"recline: waiting ".as_slice(),
        Notice::Front(_) => b"recline: front ".as_slice(),
        Notice::Processes(_) => b"recline: processes ".as_slice(),
        Notice::SessionsUsedUp => b"recline: sessions used up".as_slice(),
        Notice::TurnsUsedUp => b"recline: turns used up".as_slice(),
        Notice::FileFailed => b"recline: FILE failed".as_slice(),
        Notice::NoConnection => b"recline: no connection is taken".as_slice(),
        Notice::Checking(_) => b"recline: checking ".as_slice(),
    }
}

/// The number of a notice, if it has one.
fn number_of(notice: Notice) -> Option<u64>
    ensures { result ≡ number_in notice }
{
    match notice {
        Notice::Waiting(number) | Notice::Checking(number) => Some(number),
        Notice::Front(number) | Notice::Processes(number) => Some(u64::from(number)),
        Notice::SessionsUsedUp | Notice::TurnsUsedUp | Notice::FileFailed | Notice::NoConnection =>
            None,
    }
}

/// What stands after the number.
fn words_after(notice: Notice) -> &'static [u8]
    ensures { result.now ≡ after_number notice }
{
    match notice {
        Notice::Front(_) => b" of 16384\n".as_slice(),
        Notice::Processes(_) => b" of 1024\n".as_slice(),
        Notice::Checking(_) => b" lines\n".as_slice(),
        Notice::Waiting(_)
        | Notice::SessionsUsedUp
        | Notice::TurnsUsedUp
        | Notice::FileFailed
        | Notice::NoConnection => b"\n".as_slice(),
    }
}

/// Tells one.
fn tell_notice<W: Link>(warnings: &mut W, notice: Notice)
    ensures { Tells (W.told warnings.old) (W.told warnings.new) (notice_line notice) }
{
    let mut buffer = Buffer::new();
    let digits = match number_of(notice) {
        Some(number) => buffer.format(number).as_bytes(),
        None => b"".as_slice(),
    };
    tell_all(
        warnings,
        &[words_before(notice), digits, words_after(notice)],
    )
}

/// Tells one where that holds of which it tells.
pub(crate) fn tell_where<W: Link>(warnings: &mut W, holds: bool, notice: Notice)
    requires { IsTrue holds → MayTell notice }
    ensures { TellsNotices (W.told warnings.old) (W.told warnings.new) }
{
    if holds {
        tell_notice(warnings, notice)
    }
}
