//! The digest of what a job comes to.

/// A number over all that was put into it, in its order.
#[derive(Clone, Copy)]
pub(crate) struct Digest {
    state: u64,
}

impl Digest {
    pub(crate) fn new() -> Digest {
        Digest { state: 0 }
    }

    pub(crate) fn put(&mut self, word: u64) {
        let mixed = (self.state ^ word).wrapping_mul(0x9E37_79B9_7F4A_7C15);
        self.state = mixed ^ (mixed >> 29);
    }

    /// The bytes, eight at a time, and how many they are.
    pub(crate) fn put_bytes(&mut self, bytes: &[u8]) {
        let (words, rest) = bytes.as_chunks::<8>();
        for word in words {
            self.put(u64::from_le_bytes(*word));
        }
        for byte in rest {
            self.put(u64::from(*byte));
        }
        self.put(bytes.len() as u64);
    }

    pub(crate) fn value(&self) -> u64 {
        self.state
    }
}
