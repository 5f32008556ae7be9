//! Steps that a machine takes, as long as each is enabled.
ghost use Rattle.std.specs.Prelude.{◌≡◌, ℕ, ◌+◌, ◌<◌, ◌≤◌, false, Some, [], ◌∷◌, length, take, slice_get, if◌then◌else◌, vec_len, vec_capacity};
ghost use Rattle.raw_grid.specs.Topology.{proc_count};
ghost use Rattle.raw_model.specs.Rest.{enabled};
ghost use Rattle.raw_steps.specs.Taking.{numbers, AreThere};
ghost use Rattle.raw_serial.specs.Leading.{HasTaken};
ghost use Rattle.raw_steps.specs.Left.{TakesFront, BeginsIdle};

use raw_grid::ProcId;
use raw_serial::{Machine, law_taken};

/// Takes a processor's next step, if it is enabled, and says whether it was. It passes over the stall turns that a tile
/// owes, and takes no memory.
pub fn take_step(m: &mut Machine<'_>, p: ProcId) -> bool
    requires { p.0 < proc_count m.old.set.topo }
    ensures enabled { result ≡ enabled m.old.set m.old.state p.0 }
    ensures taken { HasTaken m.old m.new (if result then p.0 ∷ [] else []) }
{
    m.step(p)
}

// Takes the steps of a list as long as the next one is enabled, and says how many it took.
pub(crate) fn take_enabled(m: &mut Machine<'_>, steps: &[ProcId]) -> usize
    requires { AreThere (proc_count m.old.set.topo) steps.now }
    ensures few { result ≤ length steps.now }
    ensures taken { HasTaken m.old m.new (take result (numbers steps.now)) }
    ensures next { (p : ℕ) → slice_get (numbers steps.now) result ≡ Some p →
        enabled m.new.set m.new.state p ≡ false }
{
    law_taken();
    for (place, p) in steps.iter().enumerate() {
        if !take_step(m, *p) {
            return place;
        }
    }
    steps.len()
}

// Takes from a list as long as the next entry is enabled, and gives what is left. It appends what it took to
// the woven list, which has room for it.
pub(crate) fn take_from<'a>(
    m: &mut Machine<'_>,
    list: &'a [ProcId],
    woven: &mut Vec<ProcId>,
) -> &'a [ProcId]
    requires there { AreThere (proc_count m.old.set.topo) list.now }
    requires room { vec_len woven.old + length list.now ≤ vec_capacity woven.old }
    ensures front { TakesFront m.old m.new (numbers list.now) (numbers result.now)
        (numbers woven.old.items) (numbers woven.new.items) }
    ensures capacity { vec_capacity woven.old ≤ vec_capacity woven.new }
    ensures idle { BeginsIdle m.new.set m.new.state (numbers result.now) }
{
    let taken = take_enabled(m, list);
    woven.extend_from_slice(&list[..taken]).unwrap();
    &list[taken..]
}
