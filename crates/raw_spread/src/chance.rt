//! Numbers that are the same in each search.

/// A generator of numbers: xorshift64*, from a fixed state on.
#[derive(Clone, Copy)]
pub(crate) struct Chance {
    state: u64,
}

impl Chance {
    /// The generator with which each search begins.
    pub(crate) fn new() -> Chance {
        Chance {
            state: 0x9e37_79b9_7f4a_7c15,
        }
    }

    /// The next number.
    pub(crate) fn next(&mut self) -> u64 {
        let mut state = self.state;
        state ^= state >> 12;
        state ^= state << 25;
        state ^= state >> 27;
        self.state = state;
        state.wrapping_mul(0x2545_f491_4f6c_dd1d)
    }

    /// A number below this one; 0 where this is 0.
    pub(crate) fn below(&mut self, limit: usize) -> usize {
        let number = (self.next() >> 33) as usize;
        number.checked_rem(limit).unwrap_or(0)
    }

    /// A number, half as often at least so much more than 65,536 as at least so much: about an exponential one, with
    /// 65,536 in its middle.
    pub(crate) fn patience(&mut self) -> u64 {
        let number = self.next() | 1;
        let zeros = number.leading_zeros();
        let rest = number.wrapping_shl(zeros) >> 47 & 0xffff;
        let whole = u64::from(zeros).saturating_add(1).saturating_mul(65_536);
        whole.saturating_sub(rest)
    }
}
