//! How many words a generated set has.
ghost use Rattle.std.specs.Prelude.{◌≡◌, ◌↔◌, ◌≤◌, IsSome, IfSome};

use crate::limits::MAX_GENERATED_WORDS;
use std::marker::Model;

/// How many words pass the grid: at least one, and at most `MAX_GENERATED_WORDS`.
#[derive(Clone, Copy, PartialEq, Eq)]
pub struct GeneratedWords {
    count: u32,
}

impl Model for GeneratedWords {
    ghost use Rattle.std.specs.Prelude.{ℕ, ◌≤◌};
    ghost use Rattle.raw_generated.specs.declared.limits.TheConstants.{MAX_GENERATED_WORDS};

    ghost Value = { ℕ };

    ghost view = { λ words. words.count };

    ghost invariant = { λ words. (1 ≤ words.count) × (words.count ≤ MAX_GENERATED_WORDS) };

    ghost inverse = { λ n. record { count = n } };
}

impl GeneratedWords {
    /// So many words, where a set is generated for so many.
    pub fn new(count: u32) -> Option<GeneratedWords>
        ensures exactly { IsSome result ↔ ((1 ≤ count) × (count ≤ MAX_GENERATED_WORDS)) }
        ensures value { IfSome result (λ words. words ≡ count) }
    {
        if 1 <= count && count <= MAX_GENERATED_WORDS {
            Some(GeneratedWords { count })
        } else {
            None
        }
    }

    /// How many they are.
    pub fn count(self) -> u32
        ensures value { result ≡ self }
        ensures some { 1 ≤ result }
        ensures few { result ≤ MAX_GENERATED_WORDS }
    {
        self.count
    }
}
