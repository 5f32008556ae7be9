//! Programs made for stepping.
ghost use Rattle.std.specs.Prelude.{◌≡◌, IfOk};

use raw_switch::SwitchStep;
use raw_switch_isa::SwitchIns;
use raw_tile::TileStep;
use raw_tile_isa::TileIns;
use std::alloc::{AllocError, Global};

/// The program of a tile, made for stepping. This is called at opening and not in a step.
pub fn tile_steps(alloc: Global, code: &[TileIns]) -> Result<Vec<TileStep>, AllocError>
    ensures { IfOk result (λ steps. steps.items ≡ code.now) }
{
    let mut steps = Vec::with_capacity(alloc, code.len())?;
    for ins in code {
        steps.push(TileStep::new(*ins))?;
    }
    Ok(steps)
}

/// The program of a switch, made for stepping. This is called at opening and not in a step.
pub fn switch_steps(alloc: Global, code: &[SwitchIns]) -> Result<Vec<SwitchStep>, AllocError>
    ensures { IfOk result (λ steps. steps.items ≡ code.now) }
{
    let mut steps = Vec::with_capacity(alloc, code.len())?;
    for ins in code {
        steps.push(SwitchStep::new(*ins))?;
    }
    Ok(steps)
}
