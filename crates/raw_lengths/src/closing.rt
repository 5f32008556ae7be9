//! Runs with terms from a cut to the end.
ghost use Rattle.std.specs.Prelude.{◌≡◌, [], true, IfOk};
ghost use Rattle.raw_cut.specs.Cuts.{cut_of};
ghost use Rattle.raw_lengths.specs.Proofs.{EndsSeeing};

use crate::halting::are_halted;
use raw_cut::{Begun, Cut, come_to_rest, has_all_due};
use raw_flow::Node;
use raw_model::Set;
use raw_stream::StreamFlow;
use std::alloc::{AllocError, Global};

/// Whether a list of steps comes to rest from a cut that sees so many rows, with all that is due of them, and each tile and
/// switch halted.
pub(crate) fn ends(
    alloc: Global,
    set: &Set,
    stream: &StreamFlow,
    limit: u32,
    carried: &[Node],
    from: &Cut,
    steps: &[u32],
    many: u32,
) -> Result<bool, AllocError>
    ensures { IfOk result (λ yes. yes ≡ true →
        EndsSeeing set.now stream.now limit carried.now (cut_of from.now) steps.now many) }
{
    let Some(last) = come_to_rest(alloc, set, stream, limit, carried, from, steps, many)? else {
        return Ok(false);
    };
    let Begun {
        set: roomy,
        machine,
        rows,
        widths,
    } = last;
    if !are_halted(&machine.units) {
        return Ok(false);
    }
    has_all_due(alloc, &roomy, stream, widths, carried, machine, &rows, &[])
}
