//! The sets with the grid of a stream.
ghost use Rattle.std.specs.Prelude.{◌≡◌, [], IfOk, IfSome};
ghost use Rattle.raw_codegen.specs.Parts.{script_programs};
ghost use Rattle.raw_codegen.specs.Limits.{AreShort};
ghost use Rattle.raw_stream_choice.specs.StreamSets.{ArePortsFor, IsSetWith};

use crate::ports::topo_of;
use raw_codegen::{GiveRefusal, Programs, law_lawful_parts};
use raw_frame::Part;
use raw_model::limits::{DEFAULT_DEPTH, MAX_STEPS};
use raw_model::{PortProg, Set, TileProg};
use raw_schedule::with_programs;
use raw_stream::StreamFlow;
use std::alloc::{AllocError, Global};

// Programs of so many tiles that do nothing.
fn idle_programs(alloc: Global, tiles: u32) -> Result<Option<Vec<TileProg>>, AllocError>
    ensures tiles { IfOk result (λ found. IfSome found (λ programs. programs.items ≡ script_programs tiles [])) }
    ensures short { IfOk result (λ found. IfSome found (λ programs. AreShort programs.items)) }
{
    match Programs::new(alloc, tiles)?.finish() {
        Ok(programs) => Ok(Some(programs)),
        Err(GiveRefusal::TooMany) => Ok(None),
        Err(GiveRefusal::Memory) => Err(AllocError),
    }
}

// A set with the grid of a stream and these ports, in which no tile does anything. A processor may execute as many
// instructions as a set allows.
fn idle_set(
    alloc: Global,
    stream: &StreamFlow,
    ports: Vec<PortProg>,
) -> Result<Option<Set>, AllocError>
    requires { ArePortsFor stream.now ports.items }
    ensures { IfOk result (λ found. IfSome found (IsSetWith stream.now ports.items)) }
{
    law_lawful_parts();
    let topo = match topo_of(alloc, stream) {
        Ok(Some(topo)) => topo,
        Ok(None) => return Ok(None),
        Err(failure) => return Err(failure),
    };
    let tiles = match idle_programs(alloc, topo.tiles()) {
        Ok(Some(tiles)) => tiles,
        Ok(None) => return Ok(None),
        Err(failure) => return Err(failure),
    };
    Ok(Some(Set {
        topo,
        limit: MAX_STEPS,
        depth: DEFAULT_DEPTH,
        ports,
        tiles,
        shows: Vec::new(alloc),
    }))
}

/// A set with the grid of a stream, these ports and these programs, in which a processor may execute as many instructions
/// as a set allows. None where there is no such set.
pub(crate) fn set_with(
    alloc: Global,
    stream: &StreamFlow,
    ports: Vec<PortProg>,
    programs: &[TileProg],
) -> Result<Option<Set>, AllocError>
    requires { ArePortsFor stream.now ports.items }
    ensures { IfOk result (λ found. IfSome found (IsSetWith stream.now ports.items)) }
{
    let part = Part {
        cols: usize::from(stream.cols),
        rows: usize::from(stream.rows),
    };
    match idle_set(alloc, stream, ports) {
        Ok(Some(idle)) => with_programs(alloc, idle, part, programs),
        Ok(None) => Ok(None),
        Err(failure) => Err(failure),
    }
}
