//! The programs of the switches.
ghost use Rattle.std.specs.Prelude.{◌≡◌, ◌<◌, IfOk};
ghost use Rattle.raw_grid.specs.Ends.{side_end};
ghost use Rattle.raw_grid.specs.declared.parts.Net.TheVariants.{One};
ghost use Rattle.raw_generated.specs.Generated.{goes_east, entered_by, left_by, passing_code, switch_code};

use raw_grid::{Dir, Side};
use raw_switch_isa::{SwitchIns, SwitchSource};
use std::alloc::{AllocError, Global};

/// The end index of the tile on network 1.
const TILE_END: u8 = 4;

// Whether the path goes through a row from west to east.
fn goes_east(y: u32) -> bool
    ensures { result ≡ goes_east y }
{
    y % 2 == 0
}

// The side by which the path enters a tile.
fn entered_by(x: u32, y: u32) -> Side
    ensures { result ≡ entered_by x y }
{
    let east = goes_east(y);
    let first = if east { 0 } else { 3 };
    if x == first && y > 0 {
        Side::N
    } else if east {
        Side::W
    } else {
        Side::E
    }
}

// The side by which the path leaves a tile.
fn left_by(x: u32, y: u32) -> Side
    ensures { result ≡ left_by x y }
{
    let east = goes_east(y);
    let last = if east { 3 } else { 0 };
    if x == last && y < 3 {
        Side::S
    } else if east {
        Side::E
    } else {
        Side::W
    }
}

// The end of a side on network 1, by its index.
fn side_end(side: Side) -> u8
    ensures value { result ≡ side_end One side }
    ensures few { result < 4 }
{
    let dir = Dir::from(side);
    dir.index()
}

// The program of the switch of a tile that is entered by one side and left by the other.
fn passing_code(alloc: Global, a: Side, b: Side) -> Result<Vec<SwitchIns>, AllocError>
    ensures { IfOk result (λ code. code.items ≡ passing_code a b) }
{
    let (entered, left) = (side_end(a), side_end(b));
    let tile = SwitchSource::Input(TILE_END);
    Ok(vec![in alloc;
        SwitchIns::move_from(0, tile),
        SwitchIns::nop().with_route(TILE_END as usize, SwitchSource::Input(entered)),
        SwitchIns::bnezd(0, 1).with_route(left as usize, tile),
        SwitchIns::halt(),
    ]?)
}

/// The program of the switch beside a tile.
#[tactic(auto, unfolding(crate::specs::Generated::switch_code))]
pub(crate) fn switch_code(alloc: Global, tile: u32) -> Result<Vec<SwitchIns>, AllocError>
    ensures { IfOk result (λ code. code.items ≡ switch_code tile) }
{
    let (x, y) = (tile % 4, tile / 4);
    passing_code(alloc, entered_by(x, y), left_by(x, y))
}
