//! A client whose session goes on over one coordinator after the other.

ghost use denote.Param.Send.{IsSync};
ghost use Rattle.std.specs.Prelude.{◌≡◌, [], None, Some, length, IfSome, IfNone, IsSome, IsTrue, IsFalse};
ghost use Rattle.client_link.specs.Departures.{read_away_of};
ghost use Rattle.session.specs.Guests.{IsGuest, IsSeated, IsPassOfGuest, IsOpen, IsGiven, HasGained, entries_of};
ghost use Rattle.session.specs.Lasting.{Answers, HasLine, IsReceived, IsAnsweredTo};

use crate::lasting::LastingSession;
use crate::rest::Rest;
use client_link::{Leaving, NonblockingLink, ServiceLink};
use coordinator::{Coordinator, Entry, Gate, Pass};
use line_disk::Disk;
use std::alloc::Global;
use std::marker::PhantomData;
use std::sync::Wait;
use std::sync::ledger::Ledger;
use std::thread::Threads;

/// A link and its session, which began before the first read of the link, and what it rests at.
#[derive(Drop)]
struct Client<K: NonblockingLink + Drop> {
    link: K,
    session: LastingSession,
    rest: Rest,
}

/// A client between two coordinators.
#[derive(Drop)]
pub struct Guest<D: Disk, K: NonblockingLink + Drop> {
    client: Client<K>,
    disk: PhantomData<D>,
    ghost served: { ∥ IsGuest D.keeps D.view K.told client.link client.session client.rest ∥₁ },
}

/// A client at a coordinator: the same, and the pass of it, from the client's first turn on.
#[derive(Drop)]
pub struct Seat<L: Ledger, D: Disk, K: NonblockingLink + Drop> {
    client: Client<K>,
    pass: Option<Pass<L>>,
    disk: PhantomData<D>,
    ghost served: { ∥ IsSeated D.keeps D.view K.told client.link client.session client.rest pass ∥₁ },
}

/// What a client was answered by one coordinator.
#[derive(Drop)]
pub struct Answered<L: Ledger, D: Disk, K: NonblockingLink + Drop> {
    /// The pass, which shows it.
    pub pass: Pass<L>,
    /// The kinds of disk and of link.
    pub kinds: PhantomData<(D, K)>,
    ghost served: { ∥ IsPassOfGuest D.keeps D.view K.told pass ∥₁ },
}

/// Whether a session that rests at this goes on.
fn is_open(rest: Rest) -> bool
    ensures yes { IsTrue result → IsOpen rest }
    ensures no { IsFalse result → ¬ IsOpen rest }
{
    match rest {
        Rest::Over(_) => false,
        Rest::Read | Rest::Write | Rest::Receive | Rest::Due | Rest::Renewal => true,
    }
}

impl<D: Disk, K: NonblockingLink + Drop> Guest<D, K> {
    /// A client whose session begins with what its link gives and takes from now on. No read of it was made by now.
    pub fn new(alloc: Global, link: K) -> Guest<D, K>
        requires waiting { (K.told link).waiting ≡ [] }
        requires unread { (K.told link).reads ≡ 0 }
        ensures link { result.client.link ≡ link }
        ensures rest { result.client.rest ≡ Rest.Receive }
    {
        let session = LastingSession::new(alloc, &link);
        Guest {
            client: Client {
                link,
                session,
                rest: Rest::Receive,
            },
            disk: PhantomData,
        }
    }

    /// The client at the next coordinator, of which it has no pass by now. Its session goes on.
    pub fn sit<L: Ledger>(self) -> Seat<L, D, K>
        ensures client { result.client ≡ self.client }
        ensures pass { result.pass ≡ None }
    {
        let Guest { client, disk } = self;
        Seat {
            client,
            pass: None,
            disk,
        }
    }

    /// What the session rests at.
    pub fn rest(&self) -> Rest
        ensures { result ≡ self.now.client.rest }
    {
        self.client.rest
    }

    /// Hands on what waits, and reads once, unless a line is there. It makes no turn and waits for nothing. If the session is over, it does nothing.
    pub fn receive(&mut self, buf: &mut [u8; 8192])
        ensures why { IsOpen self.old.client.rest → IsReceived K.finds_nothing K.takes_no_more self.new.client.rest self.old.client.link self.new.client.link self.old.client.session self.new.client.session }
        ensures over { ¬ IsOpen self.old.client.rest → self.new.client ≡ self.old.client }
    {
        if is_open(self.client.rest) {
            self.client.rest = self.client.session.receive(&mut self.client.link, buf);
        }
    }
}

impl<D: Disk, K: ServiceLink> Guest<D, K> {
    /// Lets the client go: what waits of its last reply is not sent any more, and it sees the end. Answers what may still come of it.
    pub fn let_go(self) -> Option<Leaving>
        ensures some { IfSome result (λ leaving. read_away_of leaving ≡ 0) }
        ensures none { IfNone result (K.leaves_nothing self.client.link) }
    {
        let Guest { client, disk: _ } = self;
        let Client {
            link,
            session: _,
            rest: _,
        } = client;
        link.let_go()
    }
}

/// What a client was answered, if it was given a pass.
fn answered_by<L: Ledger, D: Disk, K: NonblockingLink + Drop>(
    pass: Option<Pass<L>>,
) -> Option<Answered<L, D, K>>
    requires { IfSome pass (λ p. ∥ IsPassOfGuest D.keeps D.view K.told p ∥₁) }
    ensures some { IfSome result (λ answered. pass ≡ Some answered.pass) }
    ensures none { IfNone result (pass ≡ None) }
{
    match pass {
        Some(pass) => Some(Answered {
            pass,
            kinds: PhantomData,
        }),
        None => None,
    }
}

impl<L: Ledger, D: Disk, K: NonblockingLink + Drop> Seat<L, D, K> {
    /// What the session rests at.
    pub fn rest(&self) -> Rest
        ensures { result ≡ self.now.client.rest }
    {
        self.client.rest
    }

    /// What the client was answered by this coordinator so far, in order.
    pub fn entries(&self) -> &[Entry]
        ensures { result.now ≡ entries_of self.now.pass }
    {
        match &self.pass {
            Some(pass) => pass.entries(),
            None => &[],
        }
    }

    /// Whether it has a pass of the coordinator.
    pub fn has_pass(&self) -> bool
        ensures some { IsTrue result → IsSome self.now.pass }
        ensures none { IsFalse result → self.now.pass ≡ None }
    {
        match &self.pass {
            Some(_) => true,
            None => false,
        }
    }

    /// Whether a line is there that is not too long, in a session that does not end.
    pub fn has_line(&self) -> bool
        ensures some { IsTrue result → HasLine self.now.client.session.unanswered × Answers self.now.client.session.stage }
        ensures none { IsFalse result → HasLine self.now.client.session.unanswered → ¬ Answers self.now.client.session.stage }
    {
        self.client.session.has_line()
    }

    /// How many bytes were read of which no line is answered yet.
    pub fn unanswered(&self) -> usize
        ensures { result ≡ length self.now.client.session.unanswered }
    {
        self.client.session.unanswered()
    }

    /// Hands on what waits, and reads once, unless a line is there. It makes no turn and waits for nothing. If the session is over, it does nothing.
    pub fn receive(&mut self, buf: &mut [u8; 8192])
        ensures why { IsOpen self.old.client.rest → IsReceived K.finds_nothing K.takes_no_more self.new.client.rest self.old.client.link self.new.client.link self.old.client.session self.new.client.session }
        ensures over { ¬ IsOpen self.old.client.rest → self.new.client ≡ self.old.client }
        ensures pass { self.new.pass ≡ self.old.pass }
    {
        if is_open(self.client.rest) {
            self.client.rest = self.client.session.receive(&mut self.client.link, buf);
        }
    }

    /// Takes a pass of the coordinator, if the client has none. Answers whether it has one: otherwise it waits for another coordinator.
    fn take_pass<R: Wait>(&mut self, rt: &R, coordinator: &Coordinator<L, D>) -> bool
        requires { IsOpen self.old.client.rest }
        ensures link { self.new.client.link ≡ self.old.client.link }
        ensures session { self.new.client.session ≡ self.old.client.session }
        ensures given { IsGiven self.old.pass self.new.pass }
        ensures some { IsTrue result → IsSome self.new.pass × (self.new.client.rest ≡ self.old.client.rest) }
        ensures none { IsFalse result → (self.new.pass ≡ None) × (self.new.client.rest ≡ Rest.Renewal) }
    {
        match &self.pass {
            Some(_) => true,
            None => match coordinator.pass(rt) {
                Ok(pass) => {
                    self.pass = Some(pass);
                    true
                }
                Err(_) => {
                    self.client.rest = Rest::Renewal;
                    false
                }
            },
        }
    }

    /// Answers lines by the pass.
    fn answer_by_pass<R: Threads + Wait + Sync, G: Gate>(
        &mut self,
        rt: &R,
        coordinator: &Coordinator<L, D>,
        gate: &G,
    )
        requires goes { IsOpen self.old.client.rest }
        requires pass { IsSome self.old.pass }
        ensures gains { HasGained D.keeps D.view self.old.pass self.new.pass }
        ensures why { IsAnsweredTo K.takes_no_more self.new.client.rest self.old.client.link self.new.client.link self.old.client.session self.new.client.session }
    {
        let Some(pass) = &mut self.pass else {
            return;
        };
        self.client.rest = self
            .client
            .session
            .answer(rt, coordinator, pass, gate, &mut self.client.link);
    }

    /// Answers up to 64 lines that are there, each after the reply to the one before was handed on; none after a question whose line was
    /// computed. It does not wait for the client. The pass is taken with the first line. If there is none, or the coordinator makes no more
    /// turns, the client waits for the next coordinator. If no line is there, or the session is over, it does nothing.
    pub fn answer<R: Threads + Wait + Sync, G: Gate>(
        &mut self,
        rt: &R,
        coordinator: &Coordinator<L, D>,
        gate: &G,
    )
        ensures gains { HasGained D.keeps D.view self.old.pass self.new.pass }
        ensures over { ¬ IsOpen self.old.client.rest → self.new.client ≡ self.old.client }
        ensures no_line { (HasLine self.old.client.session.unanswered → ¬ Answers self.old.client.session.stage) → self.new.client ≡ self.old.client }
        ensures why { IsOpen self.old.client.rest → HasLine self.old.client.session.unanswered → Answers self.old.client.session.stage → IsAnsweredTo K.takes_no_more self.new.client.rest self.old.client.link self.new.client.link self.old.client.session self.new.client.session }
    {
        if !is_open(self.client.rest) {
            return;
        }
        if !self.client.session.has_line() {
            return;
        }
        if self.take_pass(rt, coordinator) {
            self.answer_by_pass(rt, coordinator, gate);
        }
    }

    /// The client after this coordinator, and what it was answered by it, if it was.
    pub fn stand(self) -> (Guest<D, K>, Option<Answered<L, D, K>>)
        ensures client { result.0.client ≡ self.client }
        ensures some { IfSome result.1 (λ answered. self.pass ≡ Some answered.pass) }
        ensures none { IfNone result.1 (self.pass ≡ None) }
    {
        let Seat { client, pass, disk } = self;
        let guest = Guest { client, disk };
        (guest, answered_by(pass))
    }
}
