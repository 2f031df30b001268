//! What a pass keeps of one turn.

ghost use Rattle.std.specs.Prelude.{◌≡◌, ℕ};
ghost use Rattle.report_line.specs.declared.reply.Reply.TheVariants.{Taken};
ghost use Rattle.coordinator.specs.Passes.{MayShow};
ghost use Rattle.coordinator.specs.working.Parts.{in_place_of, first_shown, with_line};

use desk::Receipt;
use report_line::{Call, Code, Reply, Text};
use std::marker::Model;

/// A call, the receipt of its turn, and the reply that is shown for it.
pub struct Entry {
    call: Call,
    receipt: Receipt,
    /// Shown in the place of the receipt's reply, which is never shown where a line was taken.
    line: Option<Reply>,
}

impl Drop for Entry {
    fn drop(self) {
        let Entry {
            call: _,
            receipt: _,
            line: _,
        } = self;
    }
}

impl Model for Entry {
    ghost use Rattle.coordinator.specs.Passes.{PassEntry, MayShow};
    ghost use Rattle.coordinator.specs.working.Codes.{entry_code};
    ghost use Rattle.coordinator.specs.working.Parts.{in_place_of};

    ghost Value = { PassEntry };

    ghost coded = { entry_code };

    ghost view = { λ e. record { call = e.call; receipt = e.receipt; shown = in_place_of e.receipt.reply e.line } };

    ghost invariant = { λ e. MayShow e.receipt.reply (in_place_of e.receipt.reply e.line) };
}

impl Entry {
    /// An entry for a turn. Where a line was taken, it shows that memory was wanting until the line is there.
    pub(crate) fn new(call: Call, receipt: Receipt) -> Entry
        ensures { result ≡ record { call = call; receipt = receipt; shown = first_shown receipt.reply } }
    {
        let line = held_back(&receipt.reply);
        Entry {
            call,
            receipt,
            line,
        }
    }

    /// The same turn with the line that was taken.
    pub(crate) fn with_line(self, text: Text) -> Entry
        requires { (front : ℕ) × (self.receipt.reply ≡ Taken front) }
        ensures { result ≡ with_line self text }
    {
        let Entry {
            call,
            receipt,
            line: _,
        } = self;
        Entry {
            call,
            receipt,
            line: Some(Reply::Line(text)),
        }
    }

    /// The call.
    pub fn call(&self) -> &Call
        ensures { result.now ≡ self.now.call }
    {
        &self.call
    }

    /// The receipt of its turn.
    pub fn receipt(&self) -> &Receipt
        ensures { result.now ≡ self.now.receipt }
    {
        &self.receipt
    }

    /// The reply that is shown: that of the turn, or where a line was taken the line, or that memory was wanting.
    pub fn shown(&self) -> &Reply
        ensures shown { result.now ≡ self.now.shown }
        ensures fits { MayShow self.now.receipt.reply self.now.shown }
    {
        match &self.line {
            Some(reply) => reply,
            None => &self.receipt.reply,
        }
    }
}

/// What is shown in the place of a reply that is never shown.
fn held_back(reply: &Reply) -> Option<Reply>
    ensures { in_place_of reply.now result ≡ first_shown reply.now }
{
    match reply {
        Reply::Taken(_) => Some(Reply::No {
            code: Code::OutOfMemory,
            name: None,
            value: None,
        }),
        _ => None,
    }
}
