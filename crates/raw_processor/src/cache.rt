//! The lines that a cache holds, and one touch.
ghost use Rattle.std.specs.Prelude.{◌≡◌, ◌+◌, ◌<◌, ℕ, List, [], ◌∷◌, ◌++◌, if◌then◌else◌};
ghost use Rattle.raw_model.specs.Cache.{StandsFor, is_miss, misses};
ghost use Rattle.raw_processor.specs.Ways.{is_absent, after_touch};

use raw_model::limits::{CACHE_LINE, CACHE_SETS, MEMORY_SIZE};
use std::marker::Model;

/// The two ways of one set: the line that was touched last, and the other one.
#[derive(Clone, Copy)]
struct Ways {
    first: Option<u16>,
    second: Option<u16>,
}

impl Model for Ways {
    ghost use Rattle.raw_model.specs.Cache.{HeldLines};

    ghost Value = { HeldLines };

    ghost view = { λ ways. record { first = ways.first; second = ways.second } };

    ghost inverse = { λ held. record { first = held.first; second = held.second } };
}

/// The cache of one tile.
#[derive(Drop)]
pub struct Cache {
    sets: [Ways; CACHE_SETS],
}

impl Model for Cache {
    ghost use Rattle.std.specs.Prelude.{List};
    ghost use Rattle.raw_model.specs.Cache.{HeldLines};

    ghost Value = { List HeldLines };

    ghost view = { λ cache. cache.sets };
}

impl Cache {
    /// An empty cache: it stands for no touches.
    pub fn new() -> Cache
        ensures { StandsFor result [] }
    {
        let empty = Ways {
            first: None,
            second: None,
        };
        Cache {
            sets: [empty; CACHE_SETS],
        }
    }

    /// Empties the cache, as new.
    pub fn clear(&mut self)
        ensures { StandsFor self.new [] }
    {
        *self = Cache::new();
    }

    /// Makes the cache hold what another one holds.
    pub fn copy_from(&mut self, other: &Cache)
        ensures { self.new ≡ other.now }
    {
        self.sets = other.sets;
    }

    /// Touches an address, and says whether that is a miss. A miss replaces the less recently used of
    /// the two lines of the address's set.
    ///
    /// The clauses hold for every list of touches that the cache stands for.
    pub fn touch(&mut self, address: u32) -> bool
        requires { address < MEMORY_SIZE }
        ensures miss { (touched : List ℕ) → StandsFor self.old touched → result ≡ is_miss touched address }
        ensures stands { (touched : List ℕ) → StandsFor self.old touched → StandsFor self.new (touched ++ address ∷ []) }
        ensures misses { (touched : List ℕ) → StandsFor self.old touched →
            misses (touched ++ address ∷ []) ≡ (if result then misses touched + 1 else misses touched) }
    {
        let line = (address / CACHE_LINE) as u16;
        let ways = &mut self.sets[line as usize % CACHE_SETS];
        ways.touch(line)
    }
}

impl Ways {
    // Touches a line of this set, and says whether neither way held it.
    fn touch(&mut self, line: u16) -> bool
        ensures miss { result ≡ is_absent self.old line }
        ensures after { self.new ≡ after_touch self.old line }
    {
        if self.first == Some(line) {
            return false;
        }
        let miss = self.second != Some(line);
        self.second = self.first;
        self.first = Some(line);
        miss
    }
}
