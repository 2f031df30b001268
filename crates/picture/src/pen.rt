//! Text and numbers behind one another.

use itoa::Buffer;
use std::alloc::{AllocError, Global};

/// What is written.
#[derive(Clone, Copy)]
pub(crate) enum Piece<'a> {
    Text(&'a [u8]),
    Number(u64),
}

/// Writes a text. Once memory has run out it writes nothing more, and `finish` reports that.
pub(crate) struct Pen {
    text: Vec<u8>,
    is_out_of_memory: bool,
}

impl Drop for Pen {
    fn drop(self) {
        let Pen {
            text: _,
            is_out_of_memory: _,
        } = self;
    }
}

impl Pen {
    /// Nothing is written.
    pub(crate) fn new(alloc: Global) -> Pen {
        Pen {
            text: Vec::new(alloc),
            is_out_of_memory: false,
        }
    }

    /// The length of what is written.
    pub(crate) fn len(&self) -> usize {
        self.text.len()
    }

    /// Notes that memory ran out, here or for something else that the text needs.
    pub(crate) fn run_out(&mut self) {
        self.is_out_of_memory = true;
    }

    /// Appends a text.
    pub(crate) fn text(&mut self, text: &[u8]) {
        if self.is_out_of_memory {
            return;
        }
        if self.text.extend_from_slice(text).is_err() {
            self.run_out();
        }
    }

    /// Appends the digits of a number.
    pub(crate) fn number(&mut self, number: u64) {
        let mut digits = Buffer::new();
        self.text(digits.format(number).as_bytes());
    }

    /// Appends a text, and the digits of a number behind it.
    pub(crate) fn text_number(&mut self, text: &[u8], number: u64) {
        self.text(text);
        self.number(number);
    }

    /// Appends the pieces.
    pub(crate) fn write(&mut self, pieces: &[Piece<'_>]) {
        for piece in pieces {
            match *piece {
                Piece::Text(text) => self.text(text),
                Piece::Number(number) => self.number(number),
            }
        }
    }

    /// All that was written, if memory sufficed for it.
    pub(crate) fn finish(self) -> Result<Vec<u8>, AllocError> {
        let Pen {
            text,
            is_out_of_memory,
        } = self;
        if is_out_of_memory {
            drop(text);
            return Err(AllocError);
        }
        Ok(text)
    }
}
