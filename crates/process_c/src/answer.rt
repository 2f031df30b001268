//! The number that a call answers, and what it writes.

ghost use Rattle.std.specs.Prelude.{MatchResult};
ghost use Rattle.process_c.specs.Answers.{IsGiven, IsFaultAnswer};

use crate::fault::Fault;

// Gives these bytes, where there is room for all of them.
fn give(bytes: &[u8], out: &mut [u8]) -> i64
    ensures { IsGiven bytes.now result out.old out.new }
{
    let size = bytes.len();
    if size > out.len() {
        return size as i64;
    }
    out[..size].copy_from_slice(bytes);
    size as i64
}

/// Gives what a call made, or tells its fault.
pub fn answer(made: Result<Vec<u8>, Fault>, out: &mut [u8]) -> i64
    ensures { MatchResult made (λ v. IsGiven v.items result out.old out.new) (λ fault. IsFaultAnswer fault result out.old out.new) }
{
    match made {
        Ok(bytes) => give(&bytes, out),
        Err(fault) => fault.number(),
    }
}
