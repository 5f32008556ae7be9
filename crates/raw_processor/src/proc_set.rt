//! Sets of processors. They serve the order in which processors are looked at, which has no meaning for what a machine
//! comes to, so no clause speaks of which processors are in them.
ghost use Rattle.std.specs.Prelude.{◌≤◌, IfSome};

use raw_grid::{MAX_PROCS, ProcId};

// How many words a set has: it has room for the most processors that there can be.
const WORDS: usize = MAX_PROCS / 64;

/// A set of processors of one grid.
#[derive(Clone, Copy, PartialEq, Eq)]
pub struct ProcSet {
    // Bit `p % 64` of word `p / 64` stands for the processor `p`.
    words: [u64; WORDS],
}

impl ProcSet {
    /// The set without processors.
    pub fn new() -> ProcSet {
        ProcSet { words: [0; WORDS] }
    }

    /// Puts a processor in. One past the most that there can be is passed over.
    #[inline(always)]
    pub fn insert(&mut self, p: ProcId) {
        let word = p.0 as usize / 64;
        if word < WORDS {
            self.words[word] |= 1 << (p.0 % 64);
        }
    }

    /// Puts all processors of another set in.
    #[inline(always)]
    pub fn insert_all(&mut self, others: &ProcSet) {
        for word in 0..WORDS {
            self.words[word] |= others.words[word];
        }
    }

    /// Takes out the first processor of the set from a number on.
    #[inline(always)]
    pub fn take(&mut self, from: u32) -> Option<ProcId>
        ensures { IfSome result (λ p. from ≤ p.0) }
    {
        for word in from as usize / 64..WORDS {
            let rest = self.words[word] & bits_from(word, from);
            if rest != 0 {
                let bit = rest.trailing_zeros();
                self.words[word] &= !(1 << (bit % 64));
                return Some(ProcId(from.max(64 * word as u32 + bit)));
            }
        }
        None
    }
}

// The bits of a word that stand for processors from a number on.
#[inline(always)]
fn bits_from(word: usize, from: u32) -> u64 {
    if from as usize / 64 < word {
        u64::MAX
    } else {
        u64::MAX << (from % 64)
    }
}
