//! The chain of waits from a processor.
ghost use Rattle.std.specs.Prelude.{◌≡◌, ◌<◌, None};
ghost use Rattle.raw_cycle.specs.Chains.{WaitsAlong, chain_after, last_of};
ghost use Rattle.raw_cycle.specs.Cycles.{NoCycle};

use crate::waits::Waits;

/// The last of the chain of waits from p: without a cycle, the first on the way that waits for none.
pub fn chain_end<W: Waits>(waits: &W, p: u32) -> u32
    requires { p < W.count waits.now }
    ensures last { result ≡ last_of p (chain_after (W.next waits.now) (W.count waits.now) p) }
    ensures there { result < W.count waits.now }
    ensures stopped { NoCycle (W.next waits.now) → W.next waits.now result ≡ None }
    ensures along { NoCycle (W.next waits.now) →
        WaitsAlong (W.next waits.now) p (chain_after (W.next waits.now) (W.count waits.now) p) }
{
    let mut at = p;
    for _step in 0..waits.count() {
        match waits.waits_for(at) {
            None => return at,
            Some(next) => at = next,
        }
    }
    at
}
