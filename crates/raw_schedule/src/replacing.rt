//! Sets with other programs.
ghost use Rattle.std.specs.Prelude.{◌≡◌, IfOk, IfSome};
ghost use Rattle.raw_schedule.specs.Whole.{with_tiles};

use crate::giving::{Unfit, whole_programs};
use raw_codegen::law_lawful_parts;
use raw_frame::Part;
use raw_model::{Set, TileProg};
use std::alloc::{AllocError, Global};

/// A set with other programs: the tiles of a part of its grid have these, without `halt` at their ends, and all others do
/// nothing. None where there is no such set: where the programs are too long, or an instruction names an end that has no
/// wire.
pub fn with_programs(
    alloc: Global,
    set: Set,
    part: Part,
    given: &[TileProg],
) -> Result<Option<Set>, AllocError>
    ensures { IfOk result (λ found. IfSome found (λ other. other ≡ with_tiles set other.tiles)) }
{
    law_lawful_parts();
    let Set {
        topo,
        limit,
        depth,
        ports,
        tiles: _tiles,
        shows,
    } = set;
    match whole_programs(alloc, &topo, part, given) {
        Ok(tiles) => Ok(Some(Set {
            topo,
            limit,
            depth,
            ports,
            tiles,
            shows,
        })),
        Err(Unfit::Programs) => Ok(None),
        Err(Unfit::Memory) => Err(AllocError),
    }
}
