//! How many workers drive a machine.
ghost use Rattle.std.specs.Prelude.{◌≡◌, ◌↔◌, ◌<◌, ◌≤◌, IsSome, IfSome};

use std::marker::Model;

/// The most workers that a machine is run by.
pub const MAX_WORKERS: u32 = 64;

/// A number of workers: at least one, and at most `MAX_WORKERS`.
#[derive(Clone, Copy, PartialEq, Eq)]
pub struct Workers {
    count: u32,
}

impl Model for Workers {
    ghost use Rattle.std.specs.Prelude.{ℕ, ◌<◌, ◌≤◌};
    ghost use Rattle.raw_fabric_rule.specs.declared.workers.TheConstants.{MAX_WORKERS};

    ghost Value = { ℕ };

    ghost view = { λ w. w.count };

    ghost invariant = { λ w. (0 < w.count) × (w.count ≤ MAX_WORKERS) };

    ghost inverse = { λ n. record { count = n } };
}

impl Workers {
    /// So many workers, where a machine may be run by so many.
    pub fn new(count: u32) -> Option<Workers>
        ensures exactly { IsSome result ↔ ((0 < count) × (count ≤ MAX_WORKERS)) }
        ensures value { IfSome result (λ workers. workers ≡ count) }
    {
        if 0 < count && count <= MAX_WORKERS {
            Some(Workers { count })
        } else {
            None
        }
    }

    /// How many they are.
    pub fn count(self) -> u32
        ensures value { result ≡ self }
        ensures some { 0 < result }
        ensures few { result ≤ MAX_WORKERS }
    {
        self.count
    }
}
