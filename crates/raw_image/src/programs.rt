//! The lists of a tile in an image: its program and that of its switch, the words in its memory, and its miss
//! stream.
ghost use Rattle.std.specs.Prelude.{◌≡◌, ◌≤◌, ◌<◌, ℕ, IfOk, length};
ghost use Rattle.raw_grid.specs.Topology.{Topology};
ghost use Rattle.raw_image.specs.Fields.{Gives};
ghost use Rattle.raw_model.specs.Wired.{AreWired};
ghost use Rattle.raw_image.specs.Reading.{code_at, wired_of, switch_at, cell_at, cells_at, misses_at, least_behind};

use crate::fields::{address_from, bad_field, front_at, long_at, number_between, word_at};
use crate::refused::Refusal;
use crate::version::Version;
use raw_grid::Ends;
use raw_model::limits::MEMORY_SIZE;
use raw_model::{DataWord, has_wires};
use raw_switch_isa::SwitchIns;
use raw_tile_isa::TileIns;
use std::alloc::Global;

/// The program of a tile, of so many instructions.
#[tactic(auto, unfolding(crate::specs::Reading::code_at))]
pub(crate) fn code_at(
    alloc: Global,
    count: u32,
    bytes: &[u8],
) -> Result<(Vec<TileIns>, &[u8]), Refusal>
    ensures read { Gives (λ x. (x.0.items, x.1.now)) result (code_at count bytes.now) }
    ensures size { IfOk result (λ x. length x.0.items ≡ count) }
{
    let mut code = Vec::new(alloc);
    let mut rest = bytes;
    for _ in 0..count {
        let (word, after) = word_at(rest)?;
        let Some(ins) = raw_tile_isa::decode(word) else {
            return Err(bad_field(rest));
        };
        code.push(ins)?;
        rest = after;
    }
    Ok((code, rest))
}

// The switch instruction of a word, where each end that it names is among those that have a wire.
fn wired_instruction(word: u64, wired: Ends) -> Option<SwitchIns>
    ensures { (topo : Topology) (p : ℕ) → AreWired topo p wired → result ≡ wired_of topo p word }
{
    let ins = raw_switch_isa::decode(word)?;
    if has_wires(&ins, wired) {
        Some(ins)
    } else {
        None
    }
}

/// The program of a switch, of so many instructions.
#[tactic(auto, unfolding(crate::specs::Reading::switch_at))]
pub(crate) fn switch_at(
    alloc: Global,
    wired: Ends,
    count: u32,
    bytes: &[u8],
) -> Result<(Vec<SwitchIns>, &[u8]), Refusal>
    ensures read { (topo : Topology) (p : ℕ) → AreWired topo p wired →
        Gives (λ x. (x.0.items, x.1.now)) result (switch_at topo p count bytes.now) }
    ensures size { IfOk result (λ x. length x.0.items ≡ count) }
{
    let mut code = Vec::new(alloc);
    let mut rest = bytes;
    for _ in 0..count {
        let (word, after) = long_at(rest)?;
        let Some(ins) = wired_instruction(word, wired) else {
            return Err(bad_field(rest));
        };
        code.push(ins)?;
        rest = after;
    }
    Ok((code, rest))
}

// A word in memory, at this address or above it.
#[tactic(auto, unfolding(crate::specs::Reading::cell_at))]
fn cell_at(bytes: &[u8], least: u32) -> Result<(DataWord, &[u8]), Refusal>
    ensures read { Gives (λ x. (x.0, x.1.now)) result (cell_at least bytes.now) }
    ensures inside { IfOk result (λ x. x.0.address < MEMORY_SIZE) }
{
    let (address, rest) = address_from(bytes, least)?;
    let (word, rest) = word_at(rest)?;
    Ok((DataWord { address, word }, rest))
}

/// So many words in the memory of a tile.
#[tactic(auto, unfolding(crate::specs::Reading::cells_at))]
pub(crate) fn cells_at(
    alloc: Global,
    count: u32,
    bytes: &[u8],
) -> Result<(Vec<DataWord>, &[u8]), Refusal>
    ensures read { Gives (λ x. (x.0.items, x.1.now)) result (cells_at count bytes.now) }
    ensures size { IfOk result (λ x. length x.0.items ≡ count) }
{
    let mut cells = Vec::new(alloc);
    let mut rest = bytes;
    let mut least = 0;
    for _ in 0..count {
        let (cell, after) = cell_at(rest, least)?;
        least = cell.address + 1;
        cells.push(cell)?;
        rest = after;
    }
    Ok((cells, rest))
}

/// The miss stream of a tile, of at most so many numbers; version 1 has none.
pub(crate) fn misses_at(
    alloc: Global,
    version: Version,
    most: u32,
    bytes: &[u8],
) -> Result<(Vec<u8>, &[u8]), Refusal>
    ensures read { Gives (λ x. (x.0.items, x.1.now)) result (misses_at version most bytes.now) }
    ensures size { IfOk result (λ x. length x.0.items ≤ most) }
{
    match version {
        Version::One => Ok((Vec::new(alloc), bytes)),
        Version::Two => {
            let (count, rest) = number_between(bytes, 0, most)?;
            let (misses, rest) = front_at(rest, count as usize)?;
            Ok((Vec::from_slice(alloc, misses)?, rest))
        }
    }
}
