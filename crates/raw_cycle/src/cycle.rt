//! The cycle that is reported.
ghost use Rattle.std.specs.Prelude.{◌≡◌, ◌+◌, ◌<◌, ◌≤◌, length, IfSome, MatchOption};
ghost use Rattle.std.specs.Option.{option_map};
ghost use Rattle.raw_cycle.specs.Cycles.{IsCycle, IsTheCycle, NoCycle, OnNone, others_of, the_cycle};

use crate::waits::Waits;

/// A cycle: its least processor, and how many stand on it. The others follow from the least one, each the
/// processor that the one before it waits for.
#[derive(Clone, Copy, PartialEq, Eq)]
pub struct Cycle {
    pub least: u32,
    pub length: u32,
}

// How many stand on the cycle of p, where p is on one.
fn cycle_length<W: Waits>(waits: &W, p: u32) -> Option<u32>
    requires { p < W.count waits.now }
    ensures round { MatchOption result
        (OnNone (W.next waits.now) p)
        (λ count. IsCycle (W.next waits.now) p (others_of (W.next waits.now) p count)) }
    ensures whole { IfSome result (λ count. count ≡ length (others_of (W.next waits.now) p count) + 1) }
    ensures few { IfSome result (λ count. count ≤ W.count waits.now) }
{
    let mut at = p;
    for others in 0..waits.count() {
        match waits.waits_for(at) {
            None => return None,
            Some(next) => {
                if next == p {
                    return Some(others + 1);
                }
                at = next;
            }
        }
    }
    None
}

/// The cycle that begins with the least processor that stands on any cycle.
pub fn find_cycle<W: Waits>(waits: &W) -> Option<Cycle>
    ensures law { MatchOption result
        (NoCycle (W.next waits.now))
        (λ cycle. IsTheCycle (W.next waits.now) cycle.least (others_of (W.next waits.now) cycle.least cycle.length)) }
    ensures exact { option_map (λ cycle. (cycle.least, others_of (W.next waits.now) cycle.least cycle.length)) result
        ≡ the_cycle (W.next waits.now) (W.count waits.now) }
    ensures whole { IfSome result (λ cycle.
        cycle.length ≡ length (others_of (W.next waits.now) cycle.least cycle.length) + 1) }
    ensures there { IfSome result (λ cycle. cycle.least < W.count waits.now) }
    ensures few { IfSome result (λ cycle. (1 ≤ cycle.length) × (cycle.length ≤ W.count waits.now)) }
{
    for p in 0..waits.count() {
        if let Some(length) = cycle_length(waits, p) {
            return Some(Cycle { least: p, length });
        }
    }
    None
}
