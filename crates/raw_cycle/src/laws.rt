//! Laws of cycles and chains, over any waits.
ghost use Rattle.std.specs.Prelude.{◌≡◌, ℕ, ◌<◌, Bool, List, length, Option, Some, None, MatchOption};
ghost use Rattle.raw_cycle.specs.Least.{IsLeast, NoneBelow, least};
ghost use Rattle.raw_cycle.specs.Chains.{IsWithin, WaitsAlong, chain_after, last_of, walk};
ghost use Rattle.raw_cycle.specs.Cycles.{IsCycle, IsOn, IsTheCycle, NoCycle, the_cycle};

/// `the_cycle` lists exactly the cycle that begins with the least processor on any cycle, and where
/// there is no cycle every chain of waits ends.
pub fn law_cycles()
    ensures listed { (next : ℕ → Option ℕ) (n : ℕ) → IsWithin next n →
        MatchOption (the_cycle next n) (NoCycle next) (λ cycle. IsTheCycle next cycle.0 cycle.1) }
    ensures found { (next : ℕ → Option ℕ) (n p : ℕ) (ps : List ℕ) → IsWithin next n →
        IsTheCycle next p ps → the_cycle next n ≡ Some (p, ps) }
    ensures none { (next : ℕ → Option ℕ) (n : ℕ) → IsWithin next n →
        NoCycle next → the_cycle next n ≡ None }

    // Two lists that are the cycle are one.
    ensures one { (next : ℕ → Option ℕ) (p q : ℕ) (ps qs : List ℕ) →
        IsTheCycle next p ps → IsTheCycle next q qs → (p ≡ q) × (ps ≡ qs) }

    // Only processors stand on cycles, and so no cycle has more than all of them.
    ensures there { (next : ℕ → Option ℕ) (n p q : ℕ) (ps : List ℕ) → IsWithin next n →
        IsOn next p ps q → q < n }
    ensures few { (next : ℕ → Option ℕ) (n p : ℕ) (ps : List ℕ) → IsWithin next n →
        IsCycle next p ps → length ps < n }

    // Without a cycle.
    ensures ends { (next : ℕ → Option ℕ) (n p : ℕ) → IsWithin next n →
        NoCycle next → p < n → walk next n (Some p) ≡ None }
    ensures along { (next : ℕ → Option ℕ) (n p : ℕ) → IsWithin next n →
        NoCycle next → p < n → WaitsAlong next p (chain_after next n p) }

    // The last of a chain waits for none, and only one chain begins with a processor.
    ensures stopped { (next : ℕ → Option ℕ) (p : ℕ) (ps : List ℕ) →
        WaitsAlong next p ps → next (last_of p ps) ≡ None }
    ensures one_chain { (next : ℕ → Option ℕ) (p : ℕ) (ps qs : List ℕ) →
        WaitsAlong next p ps → WaitsAlong next p qs → ps ≡ qs }
{}

/// `least` is the least number that passes, where one below n passes.
pub fn law_least()
    ensures { (test : ℕ → Bool) (n : ℕ) →
        MatchOption (least test n) (NoneBelow test n) (IsLeast test n) }
{}
