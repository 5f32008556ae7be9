//! Who waits for whom.
ghost use Rattle.std.specs.Prelude.{◌≡◌, ℕ, ◌<◌, ◌≤◌, Option};
ghost use Rattle.raw_cycle.specs.Chains.{IsWithin};

/// Numbered processors, each of which waits for at most one other.
pub trait Waits {
    /// The processor that each one waits for, none where it waits for none.
    ghost next: { Self → ℕ → Option ℕ };

    ghost count: { Self → ℕ };

    /// How many processors there are. Each that is waited for is one of them.
    fn count(&self) -> u32
        ensures value { result ≡ count self.now }
        ensures bound { result ≤ 512 }
        ensures within { IsWithin (next self.now) (count self.now) };

    /// The processor that this one waits for.
    fn waits_for(&self, p: u32) -> Option<u32>
        requires { p < count self.now }
        ensures { result ≡ next self.now p };
}
