//! Long lists of words, most of which are 0.
ghost use Rattle.std.specs.Prelude.{◌≡◌, ◌+◌, ◌<◌, length, take, replicate, slice_index, slice_set, OnOk, IfSome, IfNone};
ghost use Rattle.raw_term.specs.Sparse.{AreZeros};

use std::alloc::{AllocError, Global};
use std::collections::BTreeMap;
use std::marker::Model;

/// A list of words. Those that are not 0 are kept, by their places. A contract sees the list.
#[derive(Drop)]
pub(crate) struct Sparse {
    words: BTreeMap<usize, u32>,
    len: usize,
}

impl Model for Sparse {
    ghost use Rattle.std.specs.Prelude.{ℕ, List};
    ghost use Rattle.raw_term.specs.Sparse.{words_to, AreBelow};

    ghost Value = { List ℕ };

    ghost view = { λ s. words_to s.len s.words };

    ghost invariant = { λ s. AreBelow s.len s.words };
}

impl Sparse {
    // So many words, each 0.
    pub(crate) fn zeros(alloc: Global, len: usize) -> Sparse
        ensures { result ≡ replicate len 0 }
    {
        Sparse {
            words: BTreeMap::new(alloc),
            len,
        }
    }

    // The word at a place, which is 0 past the end.
    pub(crate) fn at(&self, place: usize) -> u32
        ensures { result ≡ slice_index self.now place }
    {
        match self.words.get(&place) {
            Some(word) => *word,
            None => 0,
        }
    }

    // Puts a word at a place. Past the end it is lost.
    pub(crate) fn set(&mut self, place: usize, word: u32) -> Result<(), AllocError>
        ensures { OnOk result (self.new ≡ slice_set self.old place word) }
    {
        if place < self.len {
            self.words.insert(place, word)?;
        }
        Ok(())
    }

    // The last place at which the word may not be 0, with the word. The list ends before it from then on.
    pub(crate) fn pop(&mut self) -> Option<(usize, u32)>
        ensures none { IfNone result (AreZeros 0 self.old) }
        ensures within { IfSome result (λ p. p.0 < length self.old) }
        ensures word { IfSome result (λ p. p.1 ≡ slice_index self.old p.0) }
        ensures last { IfSome result (λ p. AreZeros (p.0 + 1) self.old) }
        ensures rest { IfSome result (λ p. self.new ≡ take p.0 self.old) }
    {
        match self.words.pop_last() {
            Some((place, word)) => {
                self.len = place;
                Some((place, word))
            }
            None => None,
        }
    }
}
