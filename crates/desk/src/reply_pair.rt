//! Replies, each once for the caller and once for the list of turns.

ghost use Rattle.std.specs.Prelude.{◌≡◌, ◌⊎◌, IfOk, IfErr, None, option_copied, is_some};
ghost use Rattle.chains.specs.Admission.{TakesMemory};
ghost use Rattle.chains.specs.Held.{held_of};
ghost use Rattle.chains.specs.Processes.{IsKnown};
ghost use Rattle.chains.specs.Turns.{no_memory, IsGarbageReply, IsLineReply, IsStateReply};
ghost use Rattle.desk.specs.working.Parts.{id_text};

use chains::{Chains, No, State, first_unknown};
use id_tree::Id;
use report_line::{Code, Name, Names, Outcome, Reply, Text};
use std::alloc::{AllocError, Global};
use std::marker::Model;

/// A reply twice, seen as the reply: making one for the list of turns is part of making it.
#[derive(Drop)]
pub(crate) struct ReplyPair {
    given: Reply,
    kept: Reply,
}

impl Model for ReplyPair {
    ghost use Rattle.std.specs.Prelude.{◌≡◌};
    ghost use Rattle.report_line.specs.declared.reply.Reply.{Reply};
    ghost use Rattle.report_line.specs.working.SessionCodes.{reply_code};

    ghost Value = { Reply };

    ghost coded = { reply_code };

    ghost view = { λ t. t.given };

    ghost invariant = { λ t. t.kept ≡ t.given };
}

impl ReplyPair {
    /// The two.
    pub(crate) fn into_parts(self) -> (Reply, Reply)
        ensures first { result.0 ≡ self }
        ensures second { result.1 ≡ self }
    {
        let ReplyPair { given, kept } = self;
        (given, kept)
    }

    /// A reply and its copy.
    fn copied(alloc: Global, given: Reply) -> Result<ReplyPair, AllocError>
        ensures { IfOk result (λ twice. twice ≡ given) }
    {
        let kept = given.copy(alloc)?;
        Ok(ReplyPair { given, kept })
    }
}

/// The device failed, or was not called any more.
pub(crate) fn failed(outcome: Outcome) -> ReplyPair
    ensures { result ≡ Reply.Fail outcome }
{
    ReplyPair {
        given: Reply::Fail(outcome),
        kept: Reply::Fail(outcome),
    }
}

/// The report was accepted, at this front.
pub(crate) fn accepted(front: u32) -> ReplyPair
    ensures { result ≡ Reply.Accepted front }
{
    ReplyPair {
        given: Reply::Accepted(front),
        kept: Reply::Accepted(front),
    }
}

/// All returned to a line, behind which this is the epoch and this the front.
pub(crate) fn settled(epoch: u32, front: u32) -> ReplyPair
    ensures { result ≡ Reply.Settled epoch front }
{
    ReplyPair {
        given: Reply::Settled { epoch, front },
        kept: Reply::Settled { epoch, front },
    }
}

/// The report was accepted before.
pub(crate) fn old(front: u32) -> ReplyPair
    ensures { result ≡ Reply.Old front }
{
    ReplyPair {
        given: Reply::Old(front),
        kept: Reply::Old(front),
    }
}

/// The line was no call.
pub(crate) fn bad(number: u8) -> ReplyPair
    ensures { result ≡ Reply.Bad number }
{
    ReplyPair {
        given: Reply::Bad(number),
        kept: Reply::Bad(number),
    }
}

/// The client is done.
pub(crate) fn bye() -> ReplyPair
    ensures { result ≡ Reply.Bye }
{
    ReplyPair {
        given: Reply::Bye,
        kept: Reply::Bye,
    }
}

/// A line was asked for: it is found later.
fn taken(front: u32) -> ReplyPair
    ensures { result ≡ Reply.Taken front }
{
    ReplyPair {
        given: Reply::Taken(front),
        kept: Reply::Taken(front),
    }
}

fn refusal(code: Code, name: Option<Name>) -> Reply
    ensures { result ≡ Reply.No code name None }
{
    Reply::No {
        code,
        name,
        value: None,
    }
}

/// A refusal with nothing to name.
pub(crate) fn refused(code: Code) -> ReplyPair
    ensures { result ≡ Reply.No code None None }
{
    ReplyPair {
        given: refusal(code, None),
        kept: refusal(code, None),
    }
}

/// A refusal that names a process.
fn refused_named(code: Code, name: Name) -> ReplyPair
    ensures { result ≡ Reply.No code (Some name) None }
{
    let same = name.copy();
    ReplyPair {
        given: refusal(code, Some(name)),
        kept: refusal(code, Some(same)),
    }
}

/// A refusal of a report; or want of memory, where its value takes memory.
pub(crate) fn refused_by(alloc: Global, refused_as: No) -> ReplyPair
    ensures { (result ≡ Reply.No refused_as.code refused_as.name refused_as.value)
        ⊎ (TakesMemory (Reply.No refused_as.code refused_as.name refused_as.value) × (result ≡ no_memory)) }
{
    let No { code, name, value } = refused_as;
    match value {
        None => match name {
            None => refused(code),
            Some(name) => refused_named(code, name),
        },
        Some(value) => {
            let reply = Reply::No {
                code,
                name,
                value: Some(value),
            };
            match ReplyPair::copied(alloc, reply) {
                Ok(twice) => twice,
                Err(_) => refused(Code::OutOfMemory),
            }
        }
    }
}

/// The reply to the question for the line with every process failed.
pub(crate) fn garbage_taken(chains: &Chains) -> ReplyPair
    ensures { IsGarbageReply (held_of chains.now) result }
{
    if chains.is_empty() {
        return refused(Code::NothingBegun);
    }
    taken(chains.front())
}

/// The reply to a question for a line. It takes no memory.
pub(crate) fn line_taken(chains: &Chains, names: &Names) -> ReplyPair
    ensures { IsLineReply (held_of chains.now) names.now result }
{
    if chains.is_empty() {
        return refused(Code::NothingBegun);
    }
    match first_unknown(chains, names) {
        Some(name) => refused_named(Code::UnknownProcess, name),
        None => taken(chains.front()),
    }
}

/// The text of a registered id, `0` where there is none.
fn text_of(alloc: Global, id: Option<&Id>) -> Result<Text, AllocError>
    ensures { IfOk result (λ text. text ≡ id_text (option_copied id.entry)) }
{
    let mut text = Vec::new(alloc);
    match id {
        Some(id) => id.write_to(&mut text)?,
        None => text.extend_from_slice(b"0")?,
    }
    Ok(Text::from_vec(text))
}

fn told(name: &Name, state: &State<'_>, id: Text) -> Reply
    ensures { result ≡ Reply.State name.now state.now.reports state.now.elements (is_some state.now.id) id }
{
    Reply::State {
        name: name.copy(),
        reports: state.reports,
        elements: state.elements,
        live: state.id.is_some(),
        id,
    }
}

/// The reply to a question for the state of a process, if memory suffices for it.
pub(crate) fn state_told(chains: &Chains, name: &Name) -> Result<ReplyPair, AllocError>
    ensures told { IfOk result (λ twice. IsStateReply chains.now.accepted name.now twice) }
    ensures known { IfErr result (λ _. IsKnown chains.now.accepted name.now) }
{
    if chains.is_empty() {
        return Ok(refused(Code::NothingBegun));
    }
    let Some(state) = chains.state(name) else {
        return Ok(refused_named(Code::UnknownProcess, name.copy()));
    };
    let text = text_of(chains.alloc(), state.id)?;
    let twice = ReplyPair::copied(chains.alloc(), told(name, &state, text))?;
    Ok(twice)
}
