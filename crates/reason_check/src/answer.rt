//! What a check says.

ghost use Rattle.std.specs.Prelude.{◌≡◌, ◌++◌, OnOk, OnErr, codes};
ghost use Rattle.std.specs.Fmt.{decimal};
ghost use Rattle.reason_check.specs.Texts.{verdict_text};
ghost use Rattle.reason_check.specs.declared.answer.Verdict.TheVariants as Verdict;

use itoa::Buffer;
use std::alloc::AllocError;

/// The first test that a certificate fails. Entries and chains count from 1.
#[derive(Clone, Copy, PartialEq, Eq, Debug)]
pub enum Cause {
    /// Its front is not that of the chains.
    Front,
    /// This failed process is out of the order of birth, repeated or unknown.
    Failed(usize),
    /// This entry of the line is missing, surplus, of another process, or not 0 or a surviving position.
    Line(usize),
    /// The position of this entry of the line knows a process after that process's position.
    Knows(usize),
    /// In this chain, this entry is wrong; it is 0 where the chain is missing or surplus.
    Reason(usize, usize),
}

/// Whether a certificate certifies.
#[derive(Clone, Copy, PartialEq, Eq, Debug)]
pub enum Verdict {
    /// It does.
    Yes,
    /// It fails this test, and none that comes before it.
    No(Cause),
}

impl Verdict {
    /// Appends the text of the verdict. On a refused growth `out` is as it was.
    pub fn write_to(&self, out: &mut Vec<u8>) -> Result<(), AllocError>
        ensures ok { OnOk result (out.new.items ≡ out.old.items ++ verdict_text self.now) }
        ensures err { OnErr result (out.new.items ≡ out.old.items) }
    {
        match self {
            Verdict::Yes => out.extend_from_slice(b"YES"),
            Verdict::No(cause) => write_cause(*cause, out),
        }
    }
}

fn write_cause(cause: Cause, out: &mut Vec<u8>) -> Result<(), AllocError>
    ensures ok { OnOk result (out.new.items ≡ out.old.items ++ verdict_text (Verdict.No cause)) }
    ensures err { OnErr result (out.new.items ≡ out.old.items) }
{
    match cause {
        Cause::Front => out.extend_from_slice(b"NO front"),
        Cause::Failed(k) => write_numbered(b"NO failed ", k, out),
        Cause::Line(k) => write_numbered(b"NO line ", k, out),
        Cause::Knows(k) => write_numbered(b"NO knows ", k, out),
        Cause::Reason(k, j) => write_reason(k, j, out),
    }
}

/// Words, and a number behind them.
fn write_numbered(words: &[u8], k: usize, out: &mut Vec<u8>) -> Result<(), AllocError>
    ensures ok { OnOk result (out.new.items ≡ out.old.items ++ words.now ++ decimal k) }
    ensures err { OnErr result (out.new.items ≡ out.old.items) }
{
    let mut digits = Buffer::new();
    let digits = digits.format(k).as_bytes();
    out.reserve(words.len() + digits.len())?;
    out.extend_from_slice(words)?;
    out.extend_from_slice(digits)
}

/// An entry of a chain.
fn write_reason(k: usize, j: usize, out: &mut Vec<u8>) -> Result<(), AllocError>
    ensures ok { OnOk result (out.new.items ≡ out.old.items ++ codes "NO reason " ++ decimal k ++ codes " " ++ decimal j) }
    ensures err { OnErr result (out.new.items ≡ out.old.items) }
{
    let before = out.len();
    write_numbered(b"NO reason ", k, out)?;
    let written = write_numbered(b" ", j, out);
    if written.is_err() {
        out.truncate(before);
    }
    written
}
