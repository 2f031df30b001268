//! A number's digits and an LF, at the end of a short line.

ghost use Rattle.std.specs.Fmt.{decimal};
ghost use Rattle.std.specs.Prelude.{◌≡◌, ◌+◌, ◌≤◌, [], ◌∷◌, ◌++◌, length, drop};

use itoa::write_digits;

/// Room for a word of up to five bytes, the ten digits that a number has at most, and an LF.
pub(crate) const ROOM: usize = 16;

/// Writes the number's digits and an LF up to the end of the line, and returns where they start.
pub(crate) fn write_at_end(line: &mut [u8; ROOM], n: u32) -> usize
    ensures room { 5 ≤ result }
    ensures start { result + length (decimal n) ≡ 15 }
    ensures written { drop result line.new ≡ decimal n ++ 10 ∷ [] }
{
    line[ROOM - 1] = b'\n';
    write_digits(u64::from(n), line, ROOM - 1)
}
