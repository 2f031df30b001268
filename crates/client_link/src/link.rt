//! A client: where bytes come from and go to.

ghost use Rattle.std.specs.Prelude.{◌≡◌, ℕ, IfOk, ◌≤◌, length};
ghost use Rattle.std.specs.List.{flat_map};
ghost use Rattle.client_link.specs.Links.{LinkState, IsRead, IsWrite, IsFlush, IsEnd, Puts};

use thiserror::Error;

/// A read, a write or a flush failed, or the link was ended.
#[derive(Clone, Copy, Debug, PartialEq, Eq, Error)]
pub enum LinkFault {
    #[error("the device failed")]
    Device,
}

/// Two streams of bytes, one to read and one to write, until the link is ended.
pub trait Link {
    /// What the link tells of itself.
    ghost told: { Self → LinkState };

    /// Reads some bytes: none only at the end, or with no room.
    fn read(&mut self, buf: &mut [u8]) -> Result<usize, LinkFault>
        ensures bound { IfOk result (λ n. n ≤ length buf.new) }
        ensures read { IsRead (told self.old) (told self.new) result buf.new };

    /// Takes some of the bytes, from their front. They may wait in the link until they are handed on.
    fn write(&mut self, buf: &[u8]) -> Result<usize, LinkFault>
        ensures bound { IfOk result (λ n. n ≤ length buf.now) }
        ensures write { IsWrite (told self.old) (told self.new) result buf.now };

    /// Hands on all that was taken.
    fn flush(&mut self) -> Result<(), LinkFault>
        ensures { IsFlush (told self.old) (told self.new) result };

    /// Ends the link: what waits is not flushed any more, and each later read, write and flush fails.
    fn end(&mut self)
        ensures { IsEnd (told self.old) (told self.new) };

    /// How many calls failed.
    fn failures(&self) -> u64
        ensures { result ≡ (told self.now).failures };
}

/// Writes all of the bytes. A write that takes none of them is treated as a failed one.
pub fn put<K: Link>(link: &mut K, bytes: &[u8]) -> Result<(), LinkFault>
    ensures { Puts (K.told link.old) (K.told link.new) result bytes.now }
{
    let mut rest = bytes;
    while !rest.is_empty() {
        let n = link.write(rest)?;
        if n == 0 {
            return Err(LinkFault::Device);
        }
        let (_, after) = rest.split_at(n);
        rest = after;
    }
    Ok(())
}

/// Writes the pieces, one after the other.
pub fn put_all<K: Link>(link: &mut K, pieces: &[&[u8]]) -> Result<(), LinkFault>
    ensures { Puts (K.told link.old) (K.told link.new) result (flat_map (λ p. p.now) pieces.now) }
{
    for piece in pieces {
        put(link, piece)?;
    }
    Ok(())
}
