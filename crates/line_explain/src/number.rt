//! Numbers in decimal.

ghost use Rattle.std.specs.Prelude.{◌↔◌, IsTrue};
ghost use Rattle.line_explain.specs.Wanting.{Fits};
ghost use Rattle.line_explain.specs.declared.wanted.Wanted.TheVariants as wanted;

use report_line::positive_in;

// Whether the word is a number from 1 to 2^32 - 1.
pub(crate) fn is_number(word: &[u8]) -> bool
    ensures { IsTrue result ↔ Fits wanted.Number word.now }
{
    match positive_in(word) {
        None => false,
        Some(_) => true,
    }
}
