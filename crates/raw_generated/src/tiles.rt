//! The programs of the tiles.
ghost use Rattle.std.specs.Prelude.{◌≡◌, ◌≤◌, ◌++◌, length, IfOk, OnOk};
ghost use Rattle.raw_generated.specs.Generated.{load, adding_code, tile_code, tile_program, tile_programs};

use crate::switches::switch_code;
use raw_model::TileProg;
use raw_tile_isa::{NETWORK_1, TileIns, TileOp, li};
use std::alloc::{AllocError, Global};

/// The immediate -1.
const MINUS_ONE: u16 = 0xffff;

/// The register of the number of words that are left.
const LEFT: u8 = 5;

// `li $5, n`.
#[tactic(auto, unfolding(crate::specs::Generated::load))]
fn load(alloc: Global, n: u32) -> Result<Vec<TileIns>, AllocError>
    ensures code { IfOk result (λ code. code.items ≡ load n) }
    ensures few { IfOk result (λ code. length code.items ≤ 2) }
{
    match li(LEFT, n) {
        (first, None) => Ok(vec![in alloc; first]?),
        (first, Some(second)) => Ok(vec![in alloc; first, second]?),
    }
}

// Appends what stands behind `li`.
fn push_adding(code: &mut Vec<TileIns>, t: u16) -> Result<(), AllocError>
    requires few { length code.now.items ≤ 2 }
    ensures { OnOk result
        (code.new.items ≡ code.old.items ++ adding_code (length code.old.items) t) }
{
    let place = code.len() as u32;
    code.push(TileIns::immediate(TileOp::Addiu, NETWORK_1, LEFT, MINUS_ONE))?;
    code.push(TileIns::immediate(TileOp::Addiu, NETWORK_1, NETWORK_1, t))?;
    code.push(TileIns::immediate(TileOp::Addiu, LEFT, LEFT, MINUS_ONE))?;
    code.push(TileIns::branch(TileOp::Bne, LEFT, 0, place + 3, place + 1))?;
    code.push(TileIns::halt())?;
    Ok(())
}

// The program of a tile.
fn tile_code(alloc: Global, n: u32, t: u16) -> Result<Vec<TileIns>, AllocError>
    ensures { IfOk result (λ code. code.items ≡ tile_code n t) }
{
    let mut code = load(alloc, n)?;
    push_adding(&mut code, t)?;
    Ok(code)
}

// What a tile is given.
fn tile_program(alloc: Global, n: u32, t: u16) -> Result<TileProg, AllocError>
    ensures { IfOk result (λ tile. tile ≡ tile_program n t) }
{
    Ok(TileProg {
        code: tile_code(alloc, n, t)?,
        switch: switch_code(alloc, u32::from(t))?,
        cells: Vec::new(alloc),
        misses: Vec::new(alloc),
    })
}

/// What each tile is given.
pub(crate) fn tile_programs(alloc: Global, n: u32) -> Result<Vec<TileProg>, AllocError>
    ensures { IfOk result (λ tiles. tiles.items ≡ tile_programs n) }
{
    let mut tiles = Vec::new(alloc);
    for t in 0..16 {
        tiles.push(tile_program(alloc, n, t)?)?;
    }
    Ok(tiles)
}
