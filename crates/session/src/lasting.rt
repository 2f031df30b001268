//! A session in steps: it rests between any two lines, and goes on over the same coordinator or another one.

ghost use denote.Param.Send.{IsSync};
ghost use Rattle.std.specs.Prelude.{◌≡◌, ◌∷◌, ◌++◌, [], ℕ, List, None, length, IfSome, IsTrue, IsFalse};
ghost use Rattle.report_line.specs.Cutting.{cut_of};
ghost use Rattle.session.specs.Exchanges.{Exchange};
ghost use Rattle.coordinator.specs.Passes.{PassState, IsNewPass};
ghost use Rattle.session.specs.Gained.{Gains};
ghost use Rattle.session.specs.Lasting.{Rests, ComesTo, IsAnswered, AreOfPasses, Answers, HasLine, IsReceived, IsAnsweredTo};
ghost use Rattle.session.specs.working.Resting.{standing, GoesOn, BeginsEnd, StandsBehind, IsAnsweredOn, IsFlushedSo, IsReadSo, IsWithoutLine, IsLineSo, IsStepSo};
ghost use Rattle.session.specs.declared.stage.Stage.TheVariants as stages;

use crate::kind::SessionEndKind;
use crate::over_coordinator::serve_by_pass;
use crate::rest::Rest;
use crate::session::line_of_end;
use crate::stage::Stage;
use crate::unanswered::Unanswered;
use client_link::{Link, NonblockingLink, put};
use coordinator::{Coordinator, Gate, Pass};
use line_disk::Disk;
use report_line::Reply;
use std::alloc::Global;
use std::marker::Model;
use std::sync::Wait;
use std::sync::ledger::Ledger;
use std::thread::Threads;

/// So many lines are answered in one call at most.
const MOST_LINES: u32 = 64;

/// What a session keeps between two steps: the bytes of which no line is answered yet, and where it stands.
pub struct LastingSession {
    unanswered: Unanswered,
    stage: Stage,
}

impl Drop for LastingSession {
    fn drop(self) {
        let LastingSession {
            unanswered: _,
            stage: _,
        } = self;
    }
}

impl Model for LastingSession {
    ghost use Rattle.session.specs.Lasting.{LastingState};

    ghost Value = { LastingState };

    ghost view = { λ s. record { unanswered = s.unanswered; stage = s.stage } };
}

/// Hands on what waits of the last line. Answers what the session rests at, unless everything was handed on and it goes on.
fn flush_last<K: NonblockingLink>(stage: &mut Stage, link: &mut K) -> Option<Rest>
    ensures goes { (begun : K) (turned : List Exchange) (unanswered : List ℕ) → Rests K.told begun link.old (standing unanswered stage.old) turned → GoesOn result K.told begun link.new (standing unanswered stage.new) turned }
    ensures why { IsFlushedSo K.takes_no_more result link.old link.new stage.old stage.new }
{
    match *stage {
        Stage::Listening => None,
        Stage::Replying => match link.try_flush() {
            Ok(true) => {
                *stage = Stage::Listening;
                None
            }
            Ok(false) => Some(Rest::Write),
            Err(_) => Some(Rest::Over(SessionEndKind::WriteFailed)),
        },
        Stage::Ending(kind) => match link.try_flush() {
            Ok(true) => Some(Rest::Over(kind)),
            Ok(false) => Some(Rest::Write),
            Err(_) => Some(Rest::Over(SessionEndKind::WriteFailed)),
        },
        Stage::Ended(kind) => Some(Rest::Over(kind)),
    }
}

/// The stage of a session that rests at this: one that ended stays so.
fn stage_at(stage: Stage, rest: Rest) -> Stage
    ensures { StandsBehind stage rest result }
{
    match rest {
        Rest::Over(kind) => Stage::Ended(kind),
        Rest::Read | Rest::Write | Rest::Receive | Rest::Due | Rest::Renewal => stage,
    }
}

/// Writes the ending line of a session that ends so.
fn begin_end<K: Link>(stage: &mut Stage, link: &mut K, kind: SessionEndKind) -> Rest
    ensures { BeginsEnd kind (K.told link.old) (K.told link.new) stage.new result }
{
    match put(link, line_of_end(kind)) {
        Ok(()) => {
            *stage = Stage::Ending(kind);
            Rest::Due
        }
        Err(_) => Rest::Over(SessionEndKind::WriteFailed),
    }
}

/// Reads once, when everything was handed on and no line is there.
fn read_more<K: NonblockingLink>(
    unanswered: &mut Unanswered,
    stage: &mut Stage,
    link: &mut K,
    buf: &mut [u8; 8192],
) -> Rest
    requires listening { stage.old ≡ stages.Listening }
    requires no_line { (cut_of unanswered.old).0 ≡ [] }
    ensures why { IsReadSo K.finds_nothing result link.old link.new unanswered.old (standing unanswered.new stage.new) }
    ensures comes { (begun : K) (turned : List Exchange) → Rests K.told begun link.old (standing unanswered.old stage.old) turned → ComesTo result K.told begun link.new (standing unanswered.new stage.new) turned }
{
    if unanswered.is_long() {
        return begin_end(stage, link, SessionEndKind::TooLong);
    }
    match link.try_read(buf) {
        Err(_) => Rest::Over(SessionEndKind::ReadFailed),
        Ok(None) => Rest::Read,
        Ok(Some(0)) => Rest::Over(SessionEndKind::End),
        Ok(Some(n)) => match unanswered.add(&buf[..n]) {
            Ok(()) => Rest::Due,
            Err(_) => begin_end(stage, link, SessionEndKind::Memory),
        },
    }
}

/// Hands on what waits, and reads once, unless a line is there.
fn receive<K: NonblockingLink>(
    unanswered: &mut Unanswered,
    stage: &mut Stage,
    link: &mut K,
    buf: &mut [u8; 8192],
) -> Rest
    ensures why { IsReceived K.finds_nothing K.takes_no_more result link.old link.new (standing unanswered.old stage.old) (standing unanswered.new stage.new) }
    ensures comes { (begun : K) (turned : List Exchange) → Rests K.told begun link.old (standing unanswered.old stage.old) turned → ComesTo result K.told begun link.new (standing unanswered.new stage.new) turned }
{
    if let Some(rest) = flush_last(stage, link) {
        return rest;
    }
    if let Some(_line) = unanswered.line() {
        return Rest::Due;
    }
    read_more(unanswered, stage, link, buf)
}

/// When everything was handed on and no line is there: writes the ending line, if there are more bytes than a line may have.
fn no_line<K: Link>(unanswered: &Unanswered, stage: &mut Stage, link: &mut K) -> Rest
    requires listening { stage.old ≡ stages.Listening }
    requires no_line { (cut_of unanswered.now).0 ≡ [] }
    ensures why { IsWithoutLine result stage.new }
    ensures comes { (begun : K) (turned : List Exchange) → Rests K.told begun link.old (standing unanswered.now stage.old) turned → ComesTo result K.told begun link.new (standing unanswered.now stage.new) turned }
{
    if unanswered.is_long() {
        return begin_end(stage, link, SessionEndKind::TooLong);
    }
    Rest::Receive
}

/// Whether others come first: after a line that was computed, which took a while.
fn due_behind<L: Ledger>(pass: &Pass<L>) -> Option<Rest>
    ensures { IfSome result (λ rest. rest ≡ Rest.Due) }
{
    match pass.shown() {
        Some(Reply::Line(_)) => Some(Rest::Due),
        _ => None,
    }
}

/// Answers the first line, when everything was handed on. Answers what the session rests at, unless it goes on.
fn answer_line<R: Threads + Wait + Sync, L: Ledger, D: Disk, G: Gate, K: Link>(
    rt: &R,
    coordinator: &Coordinator<L, D>,
    pass: &mut Pass<L>,
    gate: &G,
    unanswered: &mut Unanswered,
    stage: &mut Stage,
    link: &mut K,
) -> Option<Rest>
    requires { stage.old ≡ stages.Listening }
    ensures why { IsLineSo result (standing unanswered.old stage.old) (standing unanswered.new stage.new) }
    ensures comes { (begun : K) (turned : List Exchange) → Rests K.told begun link.old (standing unanswered.old stage.old) turned → IsAnsweredOn D.keeps D.view K.told begun link.new (standing unanswered.new stage.new) turned pass.old pass.new result }
{
    let Some(line) = unanswered.line() else {
        return Some(no_line(unanswered, stage, link));
    };
    let length = line.len() + 1;
    match serve_by_pass(rt, coordinator, gate, pass, link, line) {
        None => {
            unanswered.drop_front(length);
            *stage = Stage::Replying;
            due_behind(pass)
        }
        Some(SessionEndKind::Bye) => {
            *stage = Stage::Ending(SessionEndKind::Bye);
            None
        }
        Some(SessionEndKind::WriteFailed) => Some(Rest::Over(SessionEndKind::WriteFailed)),
        Some(SessionEndKind::Memory) => Some(begin_end(stage, link, SessionEndKind::Memory)),
        Some(_) => Some(Rest::Renewal),
    }
}

/// Hands on what waits and answers the first line. Answers what the session rests at, unless it goes on.
fn answer_next<R: Threads + Wait + Sync, L: Ledger, D: Disk, G: Gate, K: NonblockingLink>(
    rt: &R,
    coordinator: &Coordinator<L, D>,
    pass: &mut Pass<L>,
    gate: &G,
    unanswered: &mut Unanswered,
    stage: &mut Stage,
    link: &mut K,
) -> Option<Rest>
    ensures why { IsStepSo K.takes_no_more result link.old link.new (standing unanswered.old stage.old) (standing unanswered.new stage.new) }
    ensures comes { (begun : K) (turned : List Exchange) → Rests K.told begun link.old (standing unanswered.old stage.old) turned → IsAnsweredOn D.keeps D.view K.told begun link.new (standing unanswered.new stage.new) turned pass.old pass.new result }
{
    if let Some(rest) = flush_last(stage, link) {
        return Some(rest);
    }
    answer_line(rt, coordinator, pass, gate, unanswered, stage, link)
}

/// Answers some lines, one after the other, each after the reply to the one before was handed on.
fn answer<R: Threads + Wait + Sync, L: Ledger, D: Disk, G: Gate, K: NonblockingLink>(
    rt: &R,
    coordinator: &Coordinator<L, D>,
    pass: &mut Pass<L>,
    gate: &G,
    unanswered: &mut Unanswered,
    stage: &mut Stage,
    link: &mut K,
) -> Rest
    ensures why { IsAnsweredTo K.takes_no_more result link.old link.new (standing unanswered.old stage.old) (standing unanswered.new stage.new) }
    ensures comes { (begun : K) (turned : List Exchange) → Rests K.told begun link.old (standing unanswered.old stage.old) turned → IsAnswered D.keeps D.view K.told begun link.new (standing unanswered.new stage.new) turned pass.old pass.new result }
{
    if let Some(rest) = answer_next(rt, coordinator, pass, gate, unanswered, stage, link) {
        return rest;
    }
    for _ in 1..MOST_LINES {
        if let Some(rest) = answer_next(rt, coordinator, pass, gate, unanswered, stage, link) {
            return rest;
        }
    }
    Rest::Due
}

/// Whether a line is there that is not too long, in a session that does not end.
fn has_line(unanswered: &Unanswered, stage: Stage) -> bool
    ensures some { IsTrue result → HasLine unanswered.now × Answers stage }
    ensures none { IsFalse result → HasLine unanswered.now → ¬ Answers stage }
{
    match stage {
        Stage::Listening | Stage::Replying => match unanswered.line() {
            Some(_) => true,
            None => false,
        },
        Stage::Ending(_) | Stage::Ended(_) => false,
    }
}

impl LastingSession {
    /// A session that begins with what this link gives and takes from now on, of which nothing waits to be handed on. The link is there for
    /// the clause alone.
    pub fn new<K: Link>(alloc: Global, link: &K) -> LastingSession
        ensures { (K.told link.now).waiting ≡ [] → Rests K.told link.now link.now result [] }
    {
        let _link = link;
        LastingSession {
            unanswered: Unanswered::new(alloc),
            stage: Stage::Listening,
        }
    }

    /// Hands on what waits, and reads once, unless a line is there: then the session is due. It makes no turn, and waits for nothing. Behind
    /// the session's end it does nothing, and so does `answer`; the link is not ended.
    pub fn receive<K: NonblockingLink>(&mut self, link: &mut K, buf: &mut [u8; 8192]) -> Rest
        ensures why { IsReceived K.finds_nothing K.takes_no_more result link.old link.new self.old self.new }
        ensures comes { (begun : K) (turned : List Exchange) → Rests K.told begun link.old self.old turned → ComesTo result K.told begun link.new self.new turned }
    {
        let rest = receive(&mut self.unanswered, &mut self.stage, link, buf);
        self.stage = stage_at(self.stage, rest);
        rest
    }

    /// How many bytes it keeps of which no line is answered yet.
    pub fn unanswered(&self) -> usize
        ensures { result ≡ length self.now.unanswered }
    {
        self.unanswered.len()
    }

    /// Whether a line is there that is not too long, in a session that does not end.
    pub fn has_line(&self) -> bool
        ensures some { IsTrue result → HasLine self.now.unanswered × Answers self.now.stage }
        ensures none { IsFalse result → HasLine self.now.unanswered → ¬ Answers self.now.stage }
    {
        has_line(&self.unanswered, self.stage)
    }

    /// Answers up to 64 lines that are there, each after the reply to the one before was handed on; none after a question whose line was
    /// computed. It does not wait for the client. A line of which the coordinator makes no turn, because all were made or the pass is not of
    /// it, stays there, and another coordinator can answer it.
    pub fn answer<R: Threads + Wait + Sync, L: Ledger, D: Disk, G: Gate, K: NonblockingLink>(
        &mut self,
        rt: &R,
        coordinator: &Coordinator<L, D>,
        pass: &mut Pass<L>,
        gate: &G,
        link: &mut K,
    ) -> Rest
        ensures why { IsAnsweredTo K.takes_no_more result link.old link.new self.old self.new }
        ensures comes { (begun : K) (turned : List Exchange) → Rests K.told begun link.old self.old turned → IsAnswered D.keeps D.view K.told begun link.new self.new turned pass.old pass.new result }
    {
        let rest = answer(
            rt,
            coordinator,
            pass,
            gate,
            &mut self.unanswered,
            &mut self.stage,
            link,
        );
        self.stage = stage_at(self.stage, rest);
        rest
    }
}

/// The exchanges of a session that goes on over one coordinator after the other are those of its passes, the last of which stands first:
/// at first there is none, a new pass adds nothing, and what it is answered is added.
pub fn exchanges_of_passes<D: Disk>()
    ensures begins { AreOfPasses D.keeps D.view [] [] }
    ensures renewed { (passes : List PassState) (turned : List Exchange) (pass : PassState) → AreOfPasses D.keeps D.view passes turned → IsNewPass pass → AreOfPasses D.keeps D.view (pass ∷ passes) turned }
    ensures answered { (passes : List PassState) (turned more : List Exchange) (old new : PassState) → AreOfPasses D.keeps D.view (old ∷ passes) turned → Gains D.keeps D.view old more new → AreOfPasses D.keeps D.view (new ∷ passes) (turned ++ more) }
{}
