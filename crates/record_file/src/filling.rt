//! The bytes of one record, as an append writes them.

ghost use Rattle.std.specs.Prelude.{◌≡◌, ◌+◌, ◌≤◌, ◌++◌, [], ◌∷◌, length, take};
ghost use Rattle.record_file.specs.File.{record_of, line_limit};
ghost use Rattle.record_file.specs.Staging.{long_record};

/// Stands in the first two bytes of a record with its epoch, and the length of the line above it.
pub(crate) const LONG: usize = 32768;

/// Puts a record with its epoch and a closed gate at the front of the buffer, and says how long they are.
pub(crate) fn fill(buffer: &mut [u8], epoch: u32, line: &[u8]) -> usize
    requires fits { length line.now ≤ line_limit }
    requires room { length line.now + 7 ≤ length buffer.old }
    ensures size { result ≡ length line.now + 7 }
    ensures bytes { take result buffer.new ≡ record_of (long_record (epoch, line.now)) ++ 0 ∷ [] }
{
    let n = line.len();
    buffer[0] = ((LONG + n) / 256) as u8;
    buffer[1] = ((LONG + n) % 256) as u8;
    buffer[2..6].copy_from_slice(&epoch.to_be_bytes());
    buffer[6..n + 6].copy_from_slice(line);
    buffer[n + 6] = 0;
    n + 7
}
