//! Links that need not wait.

ghost use Rattle.std.specs.Prelude.{◌≡◌, ◌≤◌, Ok, None, false, IfOk, IfSome, length};
ghost use Rattle.client_link.specs.Links.{IsTriedFlush, IsTriedRead};

use crate::link::{Link, LinkFault};

/// A link of which bytes can be read, and to which they can be handed on, as far as that goes without waiting for the other end. Where its
/// other end takes no more, what is written waits in the link.
pub trait NonblockingLink: Link {
    /// A read of the first link found nothing, and left the second one.
    ghost finds_nothing: { Self → Self → Type 0 };

    /// A flush of the first link could not hand all on, and left the second one.
    ghost takes_no_more: { Self → Self → Type 0 };

    /// Reads some bytes: none only at the end, or with no room. `None`: nothing is there by now, and nothing was done.
    fn try_read(&mut self, buf: &mut [u8]) -> Result<Option<usize>, LinkFault>
        ensures bound { IfOk result (λ read. IfSome read (λ n. n ≤ length buf.new)) }
        ensures read { IsTriedRead (Self.told self.old) (Self.told self.new) result buf.new }
        ensures nothing { result ≡ Ok None → finds_nothing self.old self.new };

    /// Hands on as much of what was taken as goes, and answers whether that was all.
    fn try_flush(&mut self) -> Result<bool, LinkFault>
        ensures flushed { IsTriedFlush (Self.told self.old) (Self.told self.new) result }
        ensures rest { result ≡ Ok false → takes_no_more self.old self.new };
}
