//! The generated set from its parts.
ghost use Rattle.std.specs.Prelude.{◌≡◌, IfOk};
ghost use Rattle.raw_generated.specs.Generated.{generated};

use crate::laws::law_generated;
use crate::ports::port_programs;
use crate::tiles::tile_programs;
use crate::words::GeneratedWords;
use raw_grid::Topo;
use raw_model::Set;
use raw_model::limits::DEFAULT_DEPTH;
use std::alloc::{AllocError, Global};

/// The generated set of `n` words: a grid of 4 by 4 whose source puts in the `n` words
/// of a linear congruential sequence that begins with `n`, and whose sink takes as many.
pub fn make_set(alloc: Global, n: GeneratedWords) -> Result<Set, AllocError>
    ensures { IfOk result (λ set. set ≡ generated n) }
{
    let words = n.count();
    let topo = Topo::with_west_ports(alloc, 4, 4, 3)?;
    let ports = port_programs(alloc, words)?;
    let tiles = tile_programs(alloc, words)?;
    law_generated();
    Ok(Set {
        topo,
        limit: 3 * words + 10,
        depth: DEFAULT_DEPTH,
        ports,
        tiles,
        shows: Vec::new(alloc),
    })
}
