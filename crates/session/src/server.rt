//! What makes the turns of a session.

ghost use Rattle.std.specs.Prelude.{List, [], ◌∷◌};
ghost use Rattle.report_line.specs.Cutting.{IsLine};
ghost use Rattle.session.specs.Exchanges.{Exchange};
ghost use Rattle.session.specs.SessionText.{ServedOver};
ghost use Rattle.session.specs.working.Parts.{Serves, one_reply};

use crate::kind::SessionEndKind;
use client_link::Link;
use std::alloc::Global;

/// Who answers the lines of a client by turns over some state: a desk, or a client's pass of a coordinator.
pub(crate) trait Server<S> {
    /// What the turns of exchanges do to the state.
    ghost makes: { S → List Exchange → S → Type 0 };

    /// What a session text knows of the state.
    ghost grounds: { S → ServedOver };

    /// What has to be known of the runtime, where lines are answered by more threads.
    ghost leave: { Type 0 };

    /// The allocator for what is read.
    fn alloc(&self, state: &S) -> Global;

    /// One line: its turn is made, and then its reply is written. Answers why the session ends, if it does.
    fn serve_line<K: Link>(
        &self,
        state: &mut S,
        link: &mut K,
        line: &[u8],
    ) -> Option<SessionEndKind>
        requires leave { leave }
        requires line { IsLine line.now }
        ensures { Serves makes grounds (K.told link.old) (K.told link.new) (line.now ∷ []) state.old state.new result (one_reply result) };
}
