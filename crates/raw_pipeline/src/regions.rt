//! The tiles on which a stream is tried.
use raw_body::{Site, SourceId};
use raw_frame::{Part, TileId};
use std::alloc::{AllocError, Global};

// Where a part begins along a side of the grid, so that it has a place.
fn start(place: usize, size: usize, all: usize) -> usize {
    place.min(all.saturating_sub(size))
}

// The tiles of a part of a grid at which a tile stands.
fn tiles_at(
    alloc: Global,
    grid: Part,
    part: Part,
    tile: TileId,
) -> Result<Vec<TileId>, AllocError> {
    let column = start(grid.column(tile), part.cols, grid.cols);
    let row = start(grid.row(tile), part.rows, grid.rows);
    let mut tiles = Vec::new(alloc);
    for place in (0..part.tiles()).map(TileId) {
        let x = column.saturating_add(part.column(place));
        let y = row.saturating_add(part.row(place));
        tiles.push(grid.tile_at(x, y))?;
    }
    Ok(tiles)
}

/// Some tiles of a grid from one tile to all, with that of the first source among them.
pub(crate) fn regions(alloc: Global, site: Site<'_>) -> Result<Vec<Vec<TileId>>, AllocError> {
    let mut regions = Vec::new(alloc);
    let grid = site.part;
    let tile = site.source_tile(SourceId(0));
    let mut part = Part { cols: 1, rows: 1 };
    for _ in 0..8 {
        regions.push(tiles_at(alloc, grid, part, tile)?)?;
        if part == grid {
            break;
        }
        part = part.larger(grid);
    }
    Ok(regions)
}
