//! A digest of bytes.

/// A digest of all bytes that were given: eight bytes a step, by a multiplication and a turn.
#[derive(Drop)]
pub struct Digest {
    state: u64,
}

impl Digest {
    /// Of no bytes.
    pub fn new() -> Digest {
        Digest { state: 0 }
    }

    fn add(&mut self, word: u64) {
        self.state = (self.state ^ word)
            .wrapping_mul(0x9E37_79B9_7F4A_7C15)
            .rotate_left(29);
    }

    fn add_bytes(&mut self, bytes: &[u8]) {
        for byte in bytes {
            self.add(u64::from(*byte));
        }
    }

    /// Of these bytes behind those before.
    pub fn take(&mut self, bytes: &[u8]) {
        self.add(bytes.len() as u64);
        let mut rest = bytes;
        while let Some((word, behind)) = rest.split_first_chunk::<8>() {
            self.add(u64::from_le_bytes(*word));
            rest = behind;
        }
        self.add_bytes(rest);
    }

    /// Of this status behind what was before.
    pub fn take_status(&mut self, status: u8) {
        self.add(u64::from(status));
    }

    /// The digest.
    pub fn value(&self) -> u64 {
        self.state
    }
}
