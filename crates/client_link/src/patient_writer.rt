//! What is sent to a client that may be slow to take it.

use crate::end_request::EndRequest;
use crate::half::Half;
use crate::looks::{is_time_up, looks_in};
use std::io::{self, ErrorKind, Write};
use std::time::Duration;

/// How many looks a write goes on waiting for its client once the end is requested: a second.
const LAST_LOOKS: u64 = 4;

/// The writer of a connection. Once the end of its service is requested, a write that its client takes nothing of fails a second later.
#[derive(Drop)]
pub struct PatientWriter {
    half: Half,
    end: Option<EndRequest>,
    /// How many looks a write waits at most, if there is a limit.
    most: Option<u64>,
}

impl PatientWriter {
    /// Where the end may be requested, each write of this holder of the socket fails after a look at the latest if nothing is taken.
    pub fn new(half: Half, limit: Option<Duration>, end: Option<EndRequest>) -> PatientWriter {
        let most = match limit {
            Some(limit) => Some(looks_in(limit)),
            None => None,
        };
        PatientWriter { half, end, most }
    }
}

impl Write for PatientWriter {
    fn write(&mut self, buf: &[u8]) -> io::Result<usize> {
        let Some(end) = &self.end else {
            return self.half.write(buf);
        };
        let mut last = 0;
        for waited in 1..u64::MAX {
            match self.half.write(buf) {
                Ok(n) => return Ok(n),
                Err(error) => if !is_time_up(&error)
                    || self.most.is_some_and(|most| waited >= most)
                {
                    return Err(error);
                },
            }
            if end.is_made() {
                if last >= LAST_LOOKS {
                    break;
                }
                last += 1;
            }
        }
        Err(io::Error::from(ErrorKind::TimedOut))
    }

    fn flush(&mut self) -> io::Result<()> {
        Ok(())
    }
}
