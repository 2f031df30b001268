//! A connection whose client may rest so long at most.

ghost use Rattle.std.specs.Prelude.{◌≡◌};
ghost use Rattle.std.specs.Io.{ReadsAtMost};
ghost use Rattle.std.specs.Io.KnownBytes.{ReadConsumes};
ghost use Rattle.client_link.specs.Connections.{before_end};

use crate::connection::HangUp;
use crate::end_request::EndRequest;
use crate::looks::{is_time_up, look};
use std::io::{self, ErrorKind, Read};
use std::net::{OpenStream, Shutdown};
use std::time::{Clock, Duration, Instant};

/// How many bytes are read away at most where a connection ends.
pub(crate) const MOST_AWAY: usize = 1_048_576;

/// A connection of which reads wait for a limited time in all, from one LF to the next, if there is a limit. The time that passes between two
/// reads does not count. Once its end is requested, it is at its end.
pub struct Patient<S, C> {
    clock: C,
    stream: S,
    limit: Option<Duration>,
    waited: Duration,
    end: Option<EndRequest>,
    /// Whether some bytes were read.
    has_read: bool,
}

impl<S: Drop, C: Drop> Drop for Patient<S, C> {
    fn drop(self) {
        let Patient {
            clock: _,
            stream: _,
            limit: _,
            waited: _,
            end: _,
            has_read: _,
        } = self;
    }
}

impl<S, C> Patient<S, C> {
    /// Nothing was waited for yet.
    pub fn new(
        clock: C,
        stream: S,
        limit: Option<Duration>,
        end: Option<EndRequest>,
    ) -> Patient<S, C>
        ensures { result.stream ≡ stream }
    {
        Patient {
            clock,
            stream,
            limit,
            waited: Duration::ZERO,
            end,
            has_read: false,
        }
    }
}

/// How long the next read may wait.
fn time_left(limit: Duration, waited: Duration) -> io::Result<Duration> {
    match limit.checked_sub(waited) {
        Some(left) if !left.is_zero() => Ok(left),
        _ => Err(io::Error::from(ErrorKind::TimedOut)),
    }
}

impl<S: Read + OpenStream, C: Clock> Patient<S, C> {
    /// Reads once, and waits for so long at most. What is waited counts, up to an LF.
    fn read_within(&mut self, buf: &mut [u8], most: Duration) -> io::Result<usize>
        ensures bound { ReadsAtMost result buf.new }
        ensures bytes { ReadConsumes (S.remaining self.old.stream) (S.remaining self.new.stream) result buf.new }
        ensures end { self.new.end ≡ self.old.end }
    {
        self.stream.set_read_timeout(Some(most))?;
        let start = Instant::now(&self.clock)?;
        let read = self.stream.read(buf);
        // A clock that fails counts nothing, since bytes may have been read.
        let more = start.elapsed(&self.clock).unwrap_or(Duration::ZERO);
        self.waited = self.waited.saturating_add(more);
        let n = read?;
        if buf[..n].contains(&b'\n') {
            self.waited = Duration::ZERO;
        }
        self.has_read |= n > 0;
        Ok(n)
    }

    /// How long the next read may wait before the next look.
    fn next_look(&self) -> io::Result<Duration> {
        match self.limit {
            Some(limit) => Ok(time_left(limit, self.waited)?.min(look())),
            None => Ok(look()),
        }
    }

    /// Whether the end is requested.
    fn is_over(&self) -> bool {
        match &self.end {
            Some(end) => end.is_made(),
            None => false,
        }
    }

    /// Reads once, and looks as long as it waits whether the end is requested: then nothing is read any more.
    fn read_until_end(&mut self, buf: &mut [u8]) -> io::Result<usize>
        ensures bound { ReadsAtMost result buf.new }
        ensures end { self.new.end ≡ self.old.end }
    {
        for _ in 0..u64::MAX {
            if self.is_over() {
                return Ok(0);
            }
            let most = self.next_look()?;
            match self.read_within(buf, most) {
                Ok(n) => return Ok(n),
                Err(error) => if !is_time_up(&error) {
                    return Err(error);
                },
            }
        }
        Err(io::Error::from(ErrorKind::TimedOut))
    }
}

impl<S: Read + OpenStream, C: Clock> Read for Patient<S, C> {
    ghost remaining = { λ s. before_end s.end (S.remaining s.stream) };

    fn read(&mut self, buf: &mut [u8]) -> io::Result<usize> {
        if self.end.is_some() {
            return self.read_until_end(buf);
        }
        match self.limit {
            Some(limit) => {
                let left = time_left(limit, self.waited)?;
                self.read_within(buf, left)
            }
            None => self.stream.read(buf),
        }
    }
}

/// Reads away what still comes, for a second and a mebibyte at most: a connection that is given back with bytes unread is reset,
/// and what was sent last may be lost with it.
fn read_away<S: Read + OpenStream, C: Clock>(clock: &C, stream: &mut S) -> io::Result<()> {
    let start = Instant::now(clock)?;
    let mut buf = [0u8; 8192];
    let mut away = 0usize;
    for _ in 0..MOST_AWAY {
        let left = time_left(Duration::from_secs(1), start.elapsed(clock)?)?;
        stream.set_read_timeout(Some(left))?;
        let n = stream.read(&mut buf)?;
        away = away.saturating_add(n);
        if n == 0 || away >= MOST_AWAY {
            return Ok(());
        }
    }
    Ok(())
}

impl<S: Read + OpenStream + Drop, C: Clock + Drop> HangUp for Patient<S, C> {
    fn hang_up(self) {
        let Patient {
            clock,
            mut stream,
            limit: _,
            waited: _,
            end,
            has_read,
        } = self;
        // Where nothing was read, nothing was sent that could be lost, and many such clients may wait when a service ends.
        let may_lose = has_read || end.is_none();
        if stream.shutdown(Shutdown::Write).is_ok() && may_lose {
            // A client that is gone, or goes on, is left alone.
            let _rest = read_away(&clock, &mut stream);
        }
    }
}
