//! What is left of a client that is let go.

ghost use Rattle.std.specs.Prelude.{◌≡◌, ◌≤◌, ◌<◌, ◌^◌, IfSome, IsTrue};
ghost use Rattle.client_link.specs.Departures.{read_away_of};

use crate::half::Half;
use crate::patience::MOST_AWAY;
use std::io::{ErrorKind, Read};
use std::net::{OpenStream, Shutdown};

/// What is left of a client that is let go: nothing more is sent to it, and what it still sends is read away. A connection that is closed
/// with bytes unread is reset, and what was sent last may be lost with it. It is closed when this is dropped.
#[derive(Drop)]
pub struct Leaving {
    stream: Half,
    /// How many bytes were read away.
    away: usize,
}

impl Leaving {
    /// Sends the end. `None`: the client is gone.
    pub(crate) fn new(stream: Half) -> Option<Leaving>
        ensures { IfSome result (λ leaving. read_away_of leaving ≡ 0) }
    {
        match stream.shutdown(Shutdown::Write) {
            Ok(()) => Some(Leaving { stream, away: 0 }),
            Err(_) => None,
        }
    }

    /// Reads away what is there by now, and answers whether more may come: no at the end, after a fault, and once a mebibyte was read away
    /// in all. Call it at once, and then each time the stream can be read again, since a poller may not report what was there before.
    pub fn read_away(&mut self, buf: &mut [u8; 8192]) -> bool
        ensures adds { read_away_of self.old ≤ read_away_of self.new }
        ensures limit { IsTrue result → read_away_of self.new < 2 ^ 20 }
    {
        for _ in 0..MOST_AWAY {
            if self.away >= MOST_AWAY {
                return false;
            }
            match self.stream.read(buf) {
                Ok(0) => return false,
                Ok(n) => self.away = self.away.saturating_add(n),
                Err(error) => return matches!(error.kind(), ErrorKind::WouldBlock),
            }
        }
        false
    }
}
