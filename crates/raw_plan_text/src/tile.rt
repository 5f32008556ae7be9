//! Tiles by their columns and rows, and by their numbers.
ghost use Rattle.std.specs.Prelude.{◌≡◌, true, map, IfOk};
ghost use Rattle.std.specs.List.{list_all};
ghost use Rattle.std.specs.Option.{option_map};
ghost use Rattle.raw_grid.specs.Topology.{without_ports};
ghost use Rattle.raw_route.specs.Planned.{is_among};
ghost use Rattle.raw_plan_text.specs.Faults.{is_inside, number_in};
ghost use Rattle.raw_plan_text.specs.Answers.{each_once};

use std::alloc::{AllocError, Global};

/// A tile by its column and row, which need not be on the grid.
#[derive(Clone, Copy, PartialEq, Eq)]
pub struct Tile {
    pub x: u32,
    pub y: u32,
}

/// Whether a grid of this size has a tile.
pub(crate) fn is_inside(cols: u8, rows: u8, tile: Tile) -> bool
    ensures { result ≡ is_inside (without_ports cols rows) tile }
{
    tile.x < u32::from(cols) && tile.y < u32::from(rows)
}

/// Whether a grid of this size has all of the tiles.
pub(crate) fn are_inside(cols: u8, rows: u8, tiles: &[Tile]) -> bool
    ensures { result ≡ list_all (is_inside (without_ports cols rows)) tiles.now }
{
    tiles.iter().all(|tile| is_inside(cols, rows, *tile))
}

/// The number of a tile of a grid of this size.
pub(crate) fn tile_number(cols: u8, rows: u8, tile: Tile) -> u32
    requires { is_inside (without_ports cols rows) tile ≡ true }
    ensures { result ≡ number_in (without_ports cols rows) tile }
{
    tile.y * u32::from(cols) + tile.x
}

// Whether a number is one of these.
fn is_among(numbers: &[u32], number: u32) -> bool
    ensures { result ≡ is_among numbers.now number }
{
    numbers.iter().any(|other| *other == number)
}

/// The numbers of tiles of a grid of this size; `None` where a tile stands twice among them.
pub(crate) fn numbers(
    alloc: Global,
    cols: u8,
    rows: u8,
    tiles: &[Tile],
) -> Result<Option<Vec<u32>>, AllocError>
    requires { list_all (is_inside (without_ports cols rows)) tiles.now ≡ true }
    ensures { IfOk result (λ told. option_map (λ numbers. numbers.items) told ≡
        each_once (map (number_in (without_ports cols rows)) tiles.now)) }
{
    let mut numbers = Vec::new(alloc);
    for tile in tiles {
        let number = tile_number(cols, rows, *tile);
        if is_among(&numbers, number) {
            return Ok(None);
        }
        numbers.push(number)?;
    }
    Ok(Some(numbers))
}
