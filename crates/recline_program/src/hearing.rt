//! What a command read, and what is said of it when the command has ended.

use crate::telling::Teller;
use command_line::Command;
use std::io::{self, Read};

/// How many of the first bytes are looked at.
const FRONT: usize = 8;

/// A stream, with its first bytes, and how many bytes came after the last LF.
#[derive(Drop)]
pub(crate) struct Heard<S: Drop> {
    pub(crate) stream: S,
    /// The first bytes, as many as were read, followed by zeros.
    front: [u8; FRONT],
    /// How many bytes were read, as far as the first ones are wanted.
    read: usize,
    /// How many bytes came after the last LF.
    rest: u64,
    /// Whether the stream was read to its end.
    at_end: bool,
}

impl<S: Drop> Heard<S> {
    /// Nothing was read yet.
    pub(crate) fn new(stream: S) -> Heard<S> {
        Heard {
            stream,
            front: [0; FRONT],
            read: 0,
            rest: 0,
            at_end: false,
        }
    }

    /// Keeps what is wanted of these bytes, which were read.
    fn hear(&mut self, bytes: &[u8]) {
        for byte in bytes {
            if self.read >= FRONT {
                break;
            }
            self.front[self.read] = *byte;
            self.read += 1;
        }
        match bytes.iter().rposition(|byte| *byte == b'\n') {
            Some(at) => self.rest = (bytes.len() - at - 1) as u64,
            None => self.rest = self.rest.saturating_add(bytes.len() as u64),
        }
    }

    /// Whether these bytes were the first ones.
    fn begins(&self, bytes: &[u8]) -> bool {
        self.front.starts_with(bytes)
    }

    /// Says that what comes after the last LF was not read, if something does.
    fn tell_rest(&self, teller: Teller<'_>) {
        if self.at_end && self.rest > 0 {
            teller.tell_rest(self.rest);
        }
    }

    /// Says of a script what may be meant by it.
    fn hint_at_script(&self, teller: Teller<'_>, path: &str) {
        self.tell_rest(teller);
        if self.begins(b"RECLINE1") || self.begins(b"RECLINE2") {
            teller.tell_records(path);
        }
    }

    /// Says what may be wrong with what the command read, where its lines do not say it: it ended with this status.
    pub(crate) fn hint(&self, teller: Teller<'_>, command: Command<'_>, status: u8) {
        match command {
            Command::Run { .. } | Command::Explain { .. } => self.tell_rest(teller),
            Command::Drive { script, .. } => self.hint_at_script(teller, script),
            Command::Draw {
                path,
                records: false,
                ..
            } => self.hint_at_script(teller, path),
            Command::Check { .. } => {
                if status == 2 && self.begins(b"LINE {") {
                    teller.tell_word_in_front();
                }
            }
            _ => {}
        }
    }
}

impl<S: Read + Drop> Read for Heard<S> {
    fn read(&mut self, buf: &mut [u8]) -> io::Result<usize> {
        let n = self.stream.read(buf)?;
        if n == 0 && !buf.is_empty() {
            self.at_end = true;
        }
        self.hear(&buf[..n]);
        Ok(n)
    }
}
