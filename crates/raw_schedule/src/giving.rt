//! Programs of a part of a grid, given to all its tiles.
ghost use Rattle.std.specs.Prelude.{◌+◌, ◌<◌, OnOk, IfOk};
ghost use Rattle.raw_grid.specs.Topology.{Topology, tile_count};
ghost use Rattle.raw_schedule.specs.Given.{AreGiven, AreWhole};
ghost use Rattle.raw_model.specs.Wired.{AreWired};

use raw_codegen::{GiveRefusal, Programs, law_lawful_parts};
use raw_frame::{Part, TileId};
use raw_grid::{Ends, Topo};
use raw_model::{TileProg, has_wires, wired_ends};
use raw_switch_isa::SwitchIns;
use raw_tile_isa::TileIns;
use std::alloc::{AllocError, Global};

/// Why programs make no set.
#[derive(Clone, Copy, Drop, PartialEq, Eq)]
pub(crate) enum Unfit {
    /// They are too long, or an instruction names an end that has no wire.
    Programs,
    Memory,
}

impl From<AllocError> for Unfit {
    fn from(_: AllocError) -> Self {
        Unfit::Memory
    }
}

impl From<GiveRefusal> for Unfit {
    fn from(refusal: GiveRefusal) -> Self {
        match refusal {
            GiveRefusal::TooMany => Unfit::Programs,
            GiveRefusal::Memory => Unfit::Memory,
        }
    }
}

// Gives a tile an instruction.
fn give_ins(programs: &mut Programs, tile: u32, ins: TileIns) -> Result<(), Unfit>
    ensures { (topo : Topology) → AreGiven topo programs.old → OnOk result (AreGiven topo programs.new) }
{
    law_lawful_parts();
    let _op = ins.op;
    programs.give_tile(tile, ins)?;
    Ok(())
}

// Gives a tile all its instructions.
fn give_code(programs: &mut Programs, tile: u32, code: &[TileIns]) -> Result<(), Unfit>
    ensures { (topo : Topology) → AreGiven topo programs.old → OnOk result (AreGiven topo programs.new) }
{
    for ins in code {
        give_ins(programs, tile, *ins)?;
    }
    Ok(())
}

// Gives a switch an instruction, if each end that it names has a wire.
fn give_switch_ins(
    programs: &mut Programs,
    tile: u32,
    wired: Ends,
    ins: SwitchIns,
) -> Result<(), Unfit>
    ensures { (topo : Topology) → AreWired topo (tile_count topo + tile) wired → AreGiven topo programs.old →
        OnOk result (AreGiven topo programs.new) }
{
    law_lawful_parts();
    let _op = ins.op;
    if !has_wires(&ins, wired) {
        return Err(Unfit::Programs);
    }
    programs.give_switch(tile, ins)?;
    Ok(())
}

// Gives a switch all its instructions.
fn give_switch_code(
    programs: &mut Programs,
    tile: u32,
    wired: Ends,
    code: &[SwitchIns],
) -> Result<(), Unfit>
    ensures { (topo : Topology) → AreWired topo (tile_count topo + tile) wired → AreGiven topo programs.old →
        OnOk result (AreGiven topo programs.new) }
{
    for ins in code {
        give_switch_ins(programs, tile, wired, *ins)?;
    }
    Ok(())
}

// Gives a tile and its switch their programs.
fn give_program(
    programs: &mut Programs,
    topo: &Topo,
    tile: u32,
    program: &TileProg,
) -> Result<(), Unfit>
    requires { tile < tile_count topo.now }
    ensures { AreGiven topo.now programs.old → OnOk result (AreGiven topo.now programs.new) }
{
    let wired = wired_ends(topo, tile);
    give_code(programs, tile, &program.code)?;
    give_switch_code(programs, tile, wired, &program.switch)
}

// The tile of a part of a grid that a tile of the grid is, if it is there.
fn tile_in(part: Part, cols: u8, tile: u32) -> Option<TileId> {
    let grid = Part {
        cols: usize::from(cols),
        rows: 8,
    };
    let tile = TileId(tile as usize);
    let (x, y) = (grid.column(tile), grid.row(tile));
    if x < part.cols && y < part.rows {
        Some(part.tile_at(x, y))
    } else {
        None
    }
}

// The program of a tile of a grid, if it is in the part.
fn program_at(given: &[TileProg], part: Part, cols: u8, tile: u32) -> Option<&TileProg> {
    given.get(tile_in(part, cols, tile)?.0)
}

// Gives all tiles of a part their programs.
fn give_all(
    programs: &mut Programs,
    topo: &Topo,
    part: Part,
    given: &[TileProg],
) -> Result<(), Unfit>
    ensures { AreGiven topo.now programs.old → OnOk result (AreGiven topo.now programs.new) }
{
    for tile in 0..topo.tiles() {
        if let Some(program) = program_at(given, part, topo.cols(), tile) {
            give_program(programs, topo, tile, program)?;
        }
    }
    Ok(())
}

/// The programs of all tiles of a grid: those of a part of it, and `halt` elsewhere.
pub(crate) fn whole_programs(
    alloc: Global,
    topo: &Topo,
    part: Part,
    given: &[TileProg],
) -> Result<Vec<TileProg>, Unfit>
    ensures { IfOk result (λ tiles. AreWhole topo.now tiles.items) }
{
    law_lawful_parts();
    let mut programs = Programs::new(alloc, topo.tiles())?;
    give_all(&mut programs, topo, part, given)?;
    let tiles = programs.finish()?;
    Ok(tiles)
}
