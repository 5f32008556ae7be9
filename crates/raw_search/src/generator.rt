//! Words that are the same in each search.

/// A generator of words: xorshift64*, from a fixed state on.
#[derive(Clone, Copy)]
pub(crate) struct Generator {
    state: u64,
}

impl Generator {
    /// The generator with which each search begins.
    pub(crate) fn new() -> Generator {
        Generator {
            state: 0x9e37_79b9_7f4a_7c15,
        }
    }

    // The next number.
    fn next(&mut self) -> u64 {
        let mut state = self.state;
        state ^= state >> 12;
        state ^= state << 25;
        state ^= state >> 27;
        self.state = state;
        state.wrapping_mul(0x2545_f491_4f6c_dd1d)
    }

    /// A number below this one; 0 where this is 0.
    pub(crate) fn below(&mut self, limit: u32) -> u32 {
        let number = self.next() >> 33;
        if limit == 0 {
            return 0;
        }
        (number % u64::from(limit)) as u32
    }

    /// Any word.
    pub(crate) fn word(&mut self) -> u32 {
        (self.next() >> 32) as u32
    }

    /// One of the words at which programs go wrong: near 0, near the ends of bytes, halves and signs.
    fn corner(&mut self) -> u32 {
        match self.below(8) {
            0 => 0x7fff_ffff,
            1 => 0x8000_0000,
            2 => 0xffff,
            3 => 0x1_0000,
            4 => 0x8000,
            5 => 0xffff_8000,
            6 => 0xff,
            _ => 0x100,
        }
    }

    /// A word of one of several kinds: small, negative and small, a corner, a high half, a power of two, a low half, any.
    pub(crate) fn mixed(&mut self) -> u32 {
        match self.below(8) {
            0 => self.below(8),
            1 => self.below(8).wrapping_neg(),
            2 => self.corner(),
            3 => self.word() & 0xffff_0000,
            4 => 1u32.wrapping_shl(self.below(32)),
            5 => self.below(65536),
            _ => self.word(),
        }
    }
}
