//! One question over the bytes of a record file, which are only read.

ghost use Rattle.std.specs.Prelude.{◌≡◌, ◌++◌, ◌↔◌, codes, IfOk, IfSome, IfNone, IsTrue, Contains};
ghost use Rattle.report_line.specs.Cutting.{ended, IsLine};
ghost use Rattle.recline.specs.Asking.{AsksDesk, AsksNone, AsksOn, AsksOver, HandsOver, HasReply, IsAnsweredByLine, IsOneLine, IsRefused, asked_fault, asked_status, is_line, name_in, question_line, refusal_line};
ghost use Rattle.recline.specs.Outcome.{Tells};

use crate::copied::copy_of;
use crate::telling::{tell, tell_all, tell_unopened, write_all};
use client_link::{Link, MemoryLink};
use desk::{Desk, DeskFault};
use line_disk::MemoryDisk;
use session::{FlushPolicy, SessionEndKind, run};
use std::alloc::{AllocError, Global};

/// What may be asked. A report or a settlement is no question: over a copy that is thrown away its `OK` would be untrue.
#[derive(Clone, Copy)]
pub enum Question<'a> {
    /// For the line of these failed processes, listed as behind `LINE `.
    Line(&'a [u8]),
    /// For the garbage line.
    Garbage,
}

impl<'a> Question<'a> {
    /// The question for the line of these failed processes, if that is one line.
    pub fn for_line(names: &'a [u8]) -> Option<Question<'a>>
        ensures line { IfSome result (λ question. question_line question ≡ codes "LINE " ++ names.now) }
        ensures one { IfSome result IsOneLine }
        ensures none { IfNone result (Contains names.now 10) }
    {
        if names.contains(&b'\n') {
            return None;
        }
        Some(Question::Line(names))
    }
}

/// A word and what stands behind it, as a line with its LF.
fn joined(alloc: Global, word: &[u8], rest: &[u8]) -> Result<Vec<u8>, AllocError>
    ensures { IfOk result (λ line. line.items ≡ ended (word.now ++ rest.now)) }
{
    let mut line = Vec::with_capacity(alloc, word.len() + rest.len() + 1)?;
    line.extend_from_slice(word)?;
    line.extend_from_slice(rest)?;
    line.push(b'\n')?;
    Ok(line)
}

/// The line of a question, with its LF.
fn line_of(alloc: Global, question: &Question<'_>) -> Result<Vec<u8>, AllocError>
    ensures { IfOk result (λ line. line.items ≡ ended (question_line question.now)) }
{
    match question {
        Question::Line(names) => joined(alloc, b"LINE ", names),
        Question::Garbage => joined(alloc, b"GARBAGE", b""),
    }
}

/// Whether a reply is a LINE.
fn is_line(reply: &[u8]) -> bool
    ensures { result ≡ is_line reply.now }
{
    match reply.first() {
        Some(first) => *first == b'L',
        None => false,
    }
}

/// The name in the reply `NO 3 NAME -`.
fn name_in(reply: &[u8]) -> &[u8]
    ensures { result.now ≡ name_in reply.now }
{
    if reply.len() < 8 {
        return &[];
    }
    &reply[5..reply.len() - 3]
}

/// Tells that no process has this name.
fn tell_unknown<F: Link>(faults: &mut F, name: &[u8])
    ensures { Tells (F.told faults.old) (F.told faults.new) (ended (codes "recline: unknown " ++ name.now)) }
{
    tell_all(
        faults,
        &[b"recline: unknown ".as_slice(), name, b"\n".as_slice()],
    )
}

/// Tells why a question is refused.
fn tell_refusal<F: Link>(faults: &mut F, reply: &[u8])
    ensures { Tells (F.told faults.old) (F.told faults.new) (refusal_line reply.now) }
{
    if reply.starts_with(b"NO 3 ") {
        return tell_unknown(faults, name_in(reply));
    }
    if reply.starts_with(b"NO 14 ") {
        return tell(faults, b"recline: nothing begun\n");
    }
    if reply.starts_with(b"NO 16 ") {
        return tell(faults, b"recline: memory\n");
    }
    tell(faults, b"recline: no list of names\n")
}

/// Tells why no line was shown, if none was.
fn tell_reply<F: Link>(faults: &mut F, reply: &[u8])
    ensures { Tells (F.told faults.old) (F.told faults.new) (asked_fault reply.now) }
{
    if is_line(reply) {
        return tell(faults, b"");
    }
    tell_refusal(faults, reply)
}

/// The status of the process for this reply.
fn status_for(reply: &[u8]) -> u8
    ensures { result ≡ asked_status reply.now }
{
    if is_line(reply) { 0 } else { 4 }
}

/// Writes the reply to the client, tells why it is no line, if it is none, and answers the status of the process.
fn hand_over<K: Link, F: Link>(client: &mut K, faults: &mut F, reply: &[u8]) -> u8
    ensures { HandsOver F.told reply.now (K.told client.old) (K.told client.new) faults.old faults.new result }
{
    match write_all(client, reply) {
        Ok(()) => {
            tell_reply(faults, reply);
            status_for(reply)
        }
        Err(_) => {
            tell_unopened(faults, DeskFault::Device);
            3
        }
    }
}

/// Whether a session that ended so has its whole reply. One line in memory ends no session otherwise, unless memory is missing.
fn has_reply(kind: SessionEndKind) -> bool
    ensures { IsTrue result ↔ HasReply kind }
{
    match kind {
        SessionEndKind::End | SessionEndKind::TooLong => true,
        SessionEndKind::Bye
        | SessionEndKind::Worn
        | SessionEndKind::Memory
        | SessionEndKind::ReadFailed
        | SessionEndKind::WriteFailed
        | SessionEndKind::Endless
        | SessionEndKind::Foreign => false,
    }
}

/// Tells that memory is missing.
fn without_memory<K: Link, F: Link>(client: &mut K, faults: &mut F) -> u8
    ensures { AsksNone F.told (K.told client.old) (K.told client.new) faults.old faults.new result }
{
    tell_unopened(faults, DeskFault::Memory);
    3
}

/// Asks by this line over this desk. The reply is kept in memory until the session has ended, so that nothing is written of a part of it.
fn ask_desk<K: Link, F: Link>(
    alloc: Global,
    desk: &mut Desk<MemoryDisk>,
    line: &[u8],
    client: &mut K,
    faults: &mut F,
) -> u8
    ensures { AsksDesk F.told line.now desk.old desk.new (K.told client.old) (K.told client.new) faults.old faults.new result }
{
    let Ok(mut link) = MemoryLink::new(alloc, &[line], 0) else {
        return without_memory(client, faults);
    };
    let end = run(desk, &mut link, FlushPolicy::EachRead);
    if has_reply(end.kind) {
        hand_over(client, faults, link.written())
    } else {
        without_memory(client, faults)
    }
}

/// Asks by this line over this disk.
fn ask_over<K: Link, F: Link>(
    alloc: Global,
    disk: MemoryDisk,
    line: &[u8],
    client: &mut K,
    faults: &mut F,
) -> u8
    ensures { AsksOver F.told disk line.now (K.told client.old) (K.told client.new) faults.old faults.new result }
{
    match Desk::open(alloc, disk) {
        Ok(mut desk) => {
            let status = ask_desk(alloc, &mut desk, line, client, faults);
            desk.recall_lawful();
            drop(desk);
            status
        }
        Err((fault, disk)) => {
            tell_unopened(faults, fault);
            drop(disk);
            3
        }
    }
}

/// Asks by this line over a copy of these bytes.
fn ask_by<K: Link, F: Link>(
    alloc: Global,
    bytes: &[u8],
    line: &[u8],
    client: &mut K,
    faults: &mut F,
) -> u8
    ensures { AsksOn F.told bytes.now line.now (K.told client.old) (K.told client.new) faults.old faults.new result }
{
    match copy_of(alloc, bytes) {
        Ok(disk) => ask_over(alloc, disk, line, client, faults),
        Err(_) => without_memory(client, faults),
    }
}

/// Asks one question over the bytes of a record file, as the command `run` answers it where a client sends this line alone: writes the reply,
/// tells what went wrong or why the question was refused, and answers the status of the process. The bytes are only read.
pub fn ask_on<K: Link, F: Link>(
    alloc: Global,
    bytes: &[u8],
    question: &Question<'_>,
    client: &mut K,
    faults: &mut F,
) -> u8
    requires { IsOneLine question.now }
    ensures asks { AsksOn F.told bytes.now (ended (question_line question.now)) (K.told client.old) (K.told client.new) faults.old faults.new result }
    // A status of 0 says that the question got its one reply, and that this is a LINE.
    ensures answered { IsLine (question_line question.now) → result ≡ 0
        → IsAnsweredByLine bytes.now (question_line question.now) (K.told client.old) (K.told client.new) }
    // A status of 4 says that it got one that is none.
    ensures refused { IsLine (question_line question.now) → result ≡ 4
        → IsRefused F.told bytes.now (question_line question.now) (K.told client.old) (K.told client.new) faults.old faults.new }
{
    let Ok(line) = line_of(alloc, question) else {
        return without_memory(client, faults);
    };
    ask_by(alloc, bytes, &line, client, faults)
}
