//! What one client was answered.

ghost use Rattle.std.specs.Prelude.{◌≡◌, ◌<◌, ℕ, length, option_copied, IfSome};
ghost use Rattle.coordinator.specs.Passes.{Rises, last_turn, LastShown};
ghost use Rattle.coordinator.specs.working.Parts.{LastTaken, IsShownInstead};

use crate::entry::Entry;
use report_line::{Reply, Text};
use std::marker::Model;
use std::sync::ledger::{Ledger, Share};

/// The entries of one client, the longest front that it has seen, and a share that counts its turns.
pub struct Pass<L: Ledger> {
    pub(crate) number: u32,
    pub(crate) front: u32,
    pub(crate) share: Share<L>,
    pub(crate) entries: Vec<Entry>,
}

impl<L: Ledger> Drop for Pass<L> {
    fn drop(self) {
        let Pass {
            number: _,
            front: _,
            share: _,
            entries: _,
        } = self;
    }
}

impl<L: Ledger> Model for Pass<L> {
    ghost use Rattle.std.specs.Prelude.{◌≡◌, ◌<◌, length};
    ghost use Rattle.coordinator.specs.Passes.{PassState, Rises};
    ghost use Rattle.coordinator.specs.working.Codes.{pass_code};

    ghost Value = { PassState };

    ghost coded = { pass_code };

    ghost view = { λ p. record { number = p.number; front = p.front; share = p.share.amount; entries = p.entries.items } };

    ghost invariant = { λ p. (0 < p.number) × (p.share.parts ≡ 1) × (p.share.amount ≡ length p.entries.items) × Rises 0 p.entries.items };
}

impl<L: Ledger> Pass<L> {
    /// Its number, counted from 1 in the order in which the passes were handed out.
    pub fn number(&self) -> u32
        ensures number { result ≡ self.now.number }
        ensures positive { 0 < result }
    {
        let _entries = &self.entries;
        self.number
    }

    /// What it was answered, in order. Its share counts the entries, and the numbers of their turns rise.
    pub fn entries(&self) -> &[Entry]
        ensures entries { result.now ≡ self.now.entries }
        ensures share { self.now.share ≡ length self.now.entries }
        ensures rises { Rises 0 self.now.entries }
    {
        self.entries.as_slice()
    }

    /// The reply that was shown last.
    pub fn shown(&self) -> Option<&Reply>
        ensures { LastShown self.now.entries (option_copied result) }
    {
        match self.entries.as_slice() {
            [.., last] => Some(last.shown()),
            [] => None,
        }
    }

    /// The number of the last turn, or 0.
    pub(crate) fn last_turn(&self) -> u32
        ensures { result ≡ last_turn self.now.entries }
    {
        match self.entries.as_slice() {
            [.., last] => last.receipt().turn,
            [] => 0,
        }
    }

    /// The front of the last receipt, if a line was taken there.
    pub(crate) fn taken(&self) -> Option<u32>
        ensures { IfSome result (λ front. LastTaken self.now.entries front) }
    {
        match self.entries.as_slice() {
            [.., last] => match last.receipt().reply {
                Reply::Taken(front) => Some(front),
                _ => None,
            },
            [] => None,
        }
    }

    /// Shows the line that was taken last.
    pub(crate) fn show(&mut self, text: Text)
        requires { (front : ℕ) × LastTaken self.old.entries front }
        ensures { IsShownInstead self.old text self.new }
    {
        let Some(last) = self.entries.pop() else {
            return;
        };
        self.entries.push_reserved(last.with_line(text));
    }
}
