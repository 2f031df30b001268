//! A stream that gives nothing of what a browser sends.

ghost use Rattle.std.specs.Prelude.{◌≡◌, ◌≢◌, ◌⊎◌, ◌+◌, ◌≤◌, ◌<◌, ◌∷◌, ◌++◌, ℕ, List, take, length, OnOk, option_map};
ghost use Rattle.std.specs.Io.KnownBytes.{Keeps};
ghost use Rattle.client_link.specs.Requests.{from_client, look_all, methods};
ghost use Rattle.client_link.specs.declared.request.Look.TheVariants as looks;

use crate::connection::HangUp;
use crate::request::{Look, look_for_request};
use std::io::{self, Read};

/// A stream that is at its end at once where its first bytes are a method of HTTP and a space. As long as they may become that they
/// are held back.
pub struct Screened<S> {
    stream: S,
    /// The first bytes, of which so many were read, and so many of these given.
    first: [u8; 8],
    held: usize,
    given: usize,
    /// How they begin with a request: with a part of one, as long as more of them has to be seen.
    look: Look,
    ghost eight: { length first ≡ 8 },
    ghost in_order: { given ≤ held },
    ghost within: { held ≤ 8 },
    ghost none_given: { look ≡ looks.Part → given ≡ 0 },
    ghost has_room: { look ≡ looks.Part → held < 8 },
    ghost seen: { look ≡ looks.Part → look_all (take held first) methods ≡ looks.Part },
}

impl<S: Drop> Drop for Screened<S> {
    fn drop(self) {
        let Screened {
            stream: _,
            first: _,
            held: _,
            given: _,
            look: _,
        } = self;
    }
}

impl<S> Screened<S> {
    ghost use Rattle.client_link.specs.Connections.{given_of, held_back};

    /// Holds one byte more back, and looks at all of them.
    fn hold_back(&mut self, byte: u8)
        requires { self.old.look ≡ looks.Part }
        ensures same_text { (later : List ℕ) → given_of self.new.look (held_back self.new) later ≡ given_of looks.Part (held_back self.old) (byte ∷ later) }
        ensures more { self.new.held ≡ self.old.held + 1 }
        ensures stream { self.new.stream ≡ self.old.stream }
    {
        self.first[self.held] = byte;
        self.held += 1;
        self.look = look_for_request(&self.first[..self.held]);
    }

    /// Gives some of the bytes that were held back.
    fn give(&mut self, buf: &mut [u8]) -> usize
        requires { self.old.look ≢ looks.Part }
        ensures bound { result ≤ length buf.new }
        ensures none { result ≡ 0 → (self.old.held ≤ self.old.given) ⊎ (length buf.new ≡ 0) }
        ensures given { held_back self.old ≡ take result buf.new ++ held_back self.new }
        ensures stream { self.new.stream ≡ self.old.stream }
        ensures look { self.new.look ≡ self.old.look }
    {
        let n = (self.held - self.given).min(buf.len());
        buf[..n].copy_from_slice(&self.first[self.given..self.given + n]);
        self.given += n;
        n
    }
}

impl<S: Read> Screened<S> {
    ghost use Rattle.client_link.specs.Connections.{screened};

    /// Nothing was read yet.
    #[tactic(auto, unfolding(crate::specs::Requests::methods))]
    pub fn new(stream: S) -> Screened<S>
        ensures remaining { screened S.remaining result ≡ option_map from_client (S.remaining stream) }
        ensures stream { result.stream ≡ stream }
    {
        Screened {
            stream,
            first: [0; 8],
            held: 0,
            given: 0,
            look: Look::Part,
        }
    }

    /// Reads on until the first bytes tell a client from a browser. What was read before a fault is held back.
    fn look(&mut self) -> io::Result<()>
        ensures kept { Keeps (screened S.remaining self.old) (screened S.remaining self.new) }
        ensures told { OnOk result (self.new.look ≢ looks.Part) }
    {
        while let Look::Part = self.look {
            let mut byte = [0u8; 1];
            if self.stream.read(&mut byte)? == 0 {
                self.look = Look::Other;
                return Ok(());
            }
            self.hold_back(byte[0]);
        }
        Ok(())
    }
}

impl<S: Read> Read for Screened<S> {
    ghost use Rattle.client_link.specs.Connections.{screened};

    ghost remaining = { screened S.remaining };

    fn read(&mut self, buf: &mut [u8]) -> io::Result<usize> {
        self.look()?;
        if let Look::Whole = self.look {
            return Ok(0);
        }
        if self.given < self.held {
            return Ok(self.give(buf));
        }
        self.stream.read(buf)
    }
}

impl<S: HangUp> HangUp for Screened<S> {
    fn hang_up(self) {
        let Screened {
            stream,
            first: _,
            held: _,
            given: _,
            look: _,
        } = self;
        stream.hang_up();
    }
}
