//! Lines, a turn each.

ghost use Rattle.std.specs.List.{AllByRecursion};
ghost use Rattle.std.specs.Prelude.{◌≡◌, ◌≤◌, IsTrue, Some, false, length};
ghost use Rattle.report_line.specs.Cutting.{IsLine};
ghost use Rattle.session.specs.working.Parts.{AreLawful, Flushes, ServesLines, one_reply};
ghost use Rattle.session.specs.declared.flush_policy.FlushPolicy.TheVariants as flush_policies;

use crate::flush_policy::FlushPolicy;
use crate::kind::SessionEndKind;
use crate::server::Server;
use client_link::Link;
use report_line::Lines;

/// How many replies are written whole to a line at which the session ends so.
fn replies_at(kind: SessionEndKind) -> u64
    ensures exact { result ≡ one_reply (Some kind) }
    ensures at_most { result ≤ 1 }
{
    match kind {
        SessionEndKind::Bye => 1,
        SessionEndKind::End
        | SessionEndKind::TooLong
        | SessionEndKind::Worn
        | SessionEndKind::Memory
        | SessionEndKind::ReadFailed
        | SessionEndKind::WriteFailed
        | SessionEndKind::Endless
        | SessionEndKind::Foreign => 0,
    }
}

/// Whether a reply is to be handed on behind a line at which the session goes on, or ends so.
fn is_due(when: FlushPolicy, end: Option<SessionEndKind>) -> bool
    ensures yes { IsTrue result → one_reply end ≡ 1 }
    ensures no { result ≡ false → when ≡ flush_policies.EachReply → one_reply end ≡ 0 }
{
    match when {
        FlushPolicy::EachRead => false,
        FlushPolicy::EachReply => match end {
            None => true,
            Some(kind) => replies_at(kind) > 0,
        },
    }
}

/// Hands on the reply to a line at which the session goes on, or ends so, where each is handed on by itself. Answers why the session
/// ends, if it does.
fn hand_on_reply<K: Link>(
    link: &mut K,
    when: FlushPolicy,
    end: Option<SessionEndKind>,
) -> Option<SessionEndKind>
    ensures { Flushes when end (K.told link.old) (K.told link.new) result }
{
    if !is_due(when, end) {
        return end;
    }
    match link.flush() {
        Ok(()) => end,
        Err(_) => Some(SessionEndKind::WriteFailed),
    }
}

/// Lines, one after the other. Answers why the session ends, if it does, and how many replies were written whole, and where each is handed
/// on by itself, handed on.
pub(crate) fn serve_lines<S, V: Server<S>, K: Link>(
    server: &V,
    state: &mut S,
    link: &mut K,
    lines: &Lines,
    when: FlushPolicy,
) -> (Option<SessionEndKind>, u64)
    requires leave { V.leave }
    requires laws { AreLawful V.makes V.grounds }
    requires lines { AllByRecursion IsLine lines.now }
    ensures served { ServesLines V.makes V.grounds K.told when link.old link.new lines.now state.old state.new result.0 result.1 }
    ensures at_most { result.1 ≤ length lines.now }
{
    let mut replies = 0u64;
    for i in 0..lines.len() {
        let end = server.serve_line(state, link, lines.line(i));
        match hand_on_reply(link, when, end) {
            None => replies += 1,
            Some(kind) => return (Some(kind), replies + replies_at(kind)),
        }
    }
    (None, replies)
}
