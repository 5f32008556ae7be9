//! The parts of a grid on which a flow is tried.
use raw_frame::Part;
use std::alloc::{AllocError, Global};

/// Parts of a grid from one tile to the whole of it.
pub(crate) fn parts(alloc: Global, grid: Part) -> Result<Vec<Part>, AllocError> {
    let mut parts = Vec::new(alloc);
    let mut part = Part { cols: 1, rows: 1 };
    for _ in 0..8 {
        parts.push(part)?;
        if part == grid {
            break;
        }
        part = part.larger(grid);
    }
    Ok(parts)
}

/// Of these parts one, the one before it and the one behind it, but for a single tile.
pub(crate) fn around(alloc: Global, parts: &[Part], part: Part) -> Result<Vec<Part>, AllocError> {
    let mut around = Vec::new(alloc);
    let place = parts.iter().position(|other| *other == part).unwrap_or(0);
    for other in place.saturating_sub(1)..place.saturating_add(2) {
        if let Some(part) = parts.get(other) {
            if part.tiles() > 1 {
                around.push(*part)?;
            }
        }
    }
    Ok(around)
}

/// The parts of a grid with a column or a row more or less than one.
pub(crate) fn beside(alloc: Global, grid: Part, part: Part) -> Result<Vec<Part>, AllocError> {
    let mut beside = Vec::new(alloc);
    let most_rows = part.rows.saturating_add(1).min(grid.rows);
    let most_cols = part.cols.saturating_add(1).min(grid.cols);
    for rows in part.rows.saturating_sub(1).max(1)..most_rows.saturating_add(1) {
        for cols in part.cols.saturating_sub(1).max(1)..most_cols.saturating_add(1) {
            let other = Part { cols, rows };
            if other != part {
                beside.push(other)?;
            }
        }
    }
    Ok(beside)
}
