//! How far a file is read when it is opened.

ghost use Rattle.std.specs.Prelude.{◌≤◌, IfSome, length};

/// How far a file is read when it is opened. A later read of bytes that were not read then is a fault of the device, so whatever is
/// answered here, no read gives bytes that are not the file's.
pub trait Reach {
    /// Whether a file of this length counts as new, whatever its bytes are. It is emptied when it is opened.
    fn is_new(&self, len: usize) -> bool;

    /// Whether more is wanted than these bytes, with which the file begins. It is asked before each piece of at most 65,536 bytes,
    /// at first with no bytes, and no more once the whole file is read.
    fn wants_more(&mut self, bytes: &[u8]) -> bool;

    /// How many of these bytes, which are all that was read, are whole in the format of the file. None if the file has another
    /// format, or is damaged: then it is not written to when it is opened. Otherwise the first and the last of these bytes are
    /// written over themselves.
    fn whole(&self, bytes: &[u8]) -> Option<usize>
        ensures { IfSome result (λ n. n ≤ length bytes.now) };
}

/// Wants the whole file.
#[derive(Drop)]
pub struct WholeFile;

impl Reach for WholeFile {
    fn is_new(&self, len: usize) -> bool {
        len == 0
    }

    fn wants_more(&mut self, _bytes: &[u8]) -> bool {
        true
    }

    fn whole(&self, bytes: &[u8]) -> Option<usize> {
        Some(bytes.len())
    }
}
