//! How many steps tiles and switches took.
ghost use Rattle.std.specs.Prelude.{◌≡◌, ℕ, ◌<◌, ◌^◌, false, Some, slice_get};
ghost use Rattle.raw_grid.specs.Topology.{proc_count};
ghost use Rattle.raw_model.specs.Program.{IsSet};
ghost use Rattle.raw_serial.specs.declared.turn.Turn.{Turn};
ghost use Rattle.raw_clock.specs.Clock.{goes, program_steps};
ghost use Rattle.raw_clock.specs.Account.{IsAccount};

use raw_clock::Account;
use raw_model::Set;

/// How many steps tiles and switches took in so many cycles, by an account in which no turn goes on: all steps are counted
/// in it, since a turn is counted once its processor has another one.
pub(crate) fn program_steps(set: &Set, account: &Account, cycles: u64) -> u64
    requires valid { IsSet set.now }
    requires few { cycles < 2 ^ 41 }
    requires account { IsAccount set.now cycles account.now }
    requires over { (p : ℕ) (turn : Turn) → slice_get account.now.turns.items p ≡ Some turn → goes turn ≡ false }
    ensures { result ≡ program_steps set.now cycles }
{
    let mut steps = 0;
    'procs: for p in 0..2 * set.topo.tiles() {
        steps += account.tally.spent[p as usize].fired;
    }
    steps
}
