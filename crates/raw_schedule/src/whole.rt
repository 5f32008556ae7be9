//! The set of programs that were found.
ghost use Rattle.std.specs.Prelude.{◌≡◌, ◌≤◌, ◌∷◌, [], length, IfOk, IfSome};
ghost use Rattle.raw_schedule.specs.Whole.{IsSetFor};

use crate::giving::{Unfit, whole_programs};
use raw_codegen::{PARTS_LIMIT, law_lawful_parts, words_fit};
use raw_flow::{Flow, MAX_NODES};
use raw_frame::Part;
use raw_grid::Topo;
use raw_model::limits::DEFAULT_DEPTH;
use raw_model::{PortProg, Set, TileProg};
use std::alloc::{AllocError, Global};

// The words of the source, and how many the sink takes.
fn ports(alloc: Global, inputs: &[u32], outs: u32) -> Result<Vec<PortProg>, AllocError>
    ensures { IfOk result (λ ports. ports.items ≡
        record { words = inputs.now; capacity = 0 } ∷ record { words = []; capacity = outs } ∷ []) }
{
    let source = PortProg {
        words: inputs.to_vec(alloc)?,
        capacity: 0,
    };
    let sink = PortProg {
        words: Vec::new(alloc),
        capacity: outs,
    };
    let mut ports = Vec::new(alloc);
    ports.push(source)?;
    ports.push(sink)?;
    Ok(ports)
}

// The set of a flow with these programs.
fn set_of(
    alloc: Global,
    flow: &Flow,
    inputs: &[u32],
    part: Part,
    given: &[TileProg],
) -> Result<Set, Unfit>
    requires inputs { length inputs.now ≤ MAX_NODES }
    requires outs { length flow.now.outs ≤ MAX_NODES }
    ensures { IfOk result (IsSetFor flow.now inputs.now) }
{
    words_fit(inputs);
    law_lawful_parts();
    let topo = Topo::with_west_ports(alloc, flow.cols, flow.rows, 0)?;
    let tiles = whole_programs(alloc, &topo, part, given)?;
    let ports = ports(alloc, inputs, flow.outs.len() as u32)?;
    Ok(Set {
        topo,
        limit: PARTS_LIMIT,
        depth: DEFAULT_DEPTH,
        ports,
        tiles,
        shows: Vec::new(alloc),
    })
}

/// The set of a flow with these words for its source, where the tiles of a part of its grid have these programs, without
/// `halt` at their ends, and all others do nothing. None where there is no such set: where the programs or the lists of
/// words are too long, or an instruction names an end that has no wire.
pub(crate) fn whole_set(
    alloc: Global,
    flow: &Flow,
    inputs: &[u32],
    part: Part,
    given: &[TileProg],
) -> Result<Option<Set>, AllocError>
    ensures { IfOk result (λ found. IfSome found (IsSetFor flow.now inputs.now)) }
{
    if inputs.len() > MAX_NODES || flow.outs.len() > MAX_NODES {
        return Ok(None);
    }
    match set_of(alloc, flow, inputs, part, given) {
        Ok(set) => Ok(Some(set)),
        Err(Unfit::Programs) => Ok(None),
        Err(Unfit::Memory) => Err(AllocError),
    }
}
