//! What a line is.

ghost use Rattle.std.specs.Prelude.{◌≡◌, ◌++◌, OnOk, OnErr};

use crate::fault::WrongWord;
use crate::text::{push_call, push_pieces, push_wrong};
use report_line::Call;
use std::alloc::AllocError;

/// What a line is: a call, or why it is none.
#[derive(Drop)]
pub enum Explained {
    /// It is this call.
    Is(Call),
    /// It has more than 8,192 bytes.
    TooLong,
    /// This word of it is the first that is wrong.
    Wrong(WrongWord),
}

impl Explained {
    ghost use Rattle.line_explain.specs.Words.{explained_text};

    /// Appends what is said of the line, in English, in one line without LF. On a refused growth `out` is as it was.
    pub fn write_to(&self, out: &mut Vec<u8>) -> Result<(), AllocError>
        ensures ok { OnOk result (out.new.items ≡ out.old.items ++ explained_text self.now) }
        ensures err { OnErr result (out.new.items ≡ out.old.items) }
    {
        match self {
            Explained::Is(call) => push_call(out, call),
            Explained::TooLong => push_pieces(
                out,
                &[b"the line is longer than 8192 bytes".as_slice()],
            ),
            Explained::Wrong(found) => push_wrong(out, *found),
        }
    }
}
