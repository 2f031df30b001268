//! The link of a client of a service whose resting clients wait in a poller.

ghost use Rattle.std.specs.Prelude.{IfNone, IfSome, ◌≡◌};
ghost use Rattle.client_link.specs.Departures.{read_away_of};

use crate::leaving::Leaving;
use crate::nonblocking::NonblockingLink;

/// A link that need not wait, and of which a client can be let go.
pub trait ServiceLink: NonblockingLink + Send + Drop {
    /// Nothing is left of the client to be read away.
    ghost leaves_nothing: { Self → Type 0 };

    /// Lets the client go: what waits in the link is not sent any more, and the client sees the end after what was sent before. `None`:
    /// nothing is left to be read away, since the client is gone or is in memory.
    fn let_go(self) -> Option<Leaving>
        ensures some { IfSome result (λ leaving. read_away_of leaving ≡ 0) }
        ensures none { IfNone result (leaves_nothing self) };
}
