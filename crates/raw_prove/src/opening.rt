//! A machine with terms before it has done anything.
ghost use Rattle.std.specs.Prelude.{◌≡◌, ◌+◌, ◌*◌, ◌/◌, ◌<◌, ◌≤◌, ◌++◌, length, map, slice_get, Some, Err, IfOk};
ghost use Rattle.std.specs.List.{All};
ghost use Rattle.raw_grid.specs.Topology.{tile_count, proc_count};
ghost use Rattle.raw_grid.specs.declared.parts.PortPlace.{PortPlace};
ghost use Rattle.raw_model.specs.declared.limits.TheConstants.{MAX_ALL_WORDS};
ghost use Rattle.raw_model.specs.Program.{TileProgram, IsDataWord, IsTileProgram, IsSet};
ghost use Rattle.raw_model.specs.Local.{Tile, Switch};
ghost use Rattle.raw_model.specs.Start.{first_mark, first_switch, first_port};
ghost use Rattle.raw_model.specs.Bounds.{all_words};
ghost use Rattle.raw_tile.specs.Zeros.{IsZeros};
ghost use Rattle.raw_serial.specs.Fresh.{AreAllEnds};
ghost use Rattle.raw_term.specs.Terms.{Overflows};
ghost use Rattle.raw_term.specs.TermMachine.{first_term_memory, first_term_tiles, term_start};
ghost use Rattle.raw_prove.specs.Units.{local_of, AreUnits};
ghost use Rattle.raw_prove.specs.Opened.{IsOpenTile, IsOpenPort, IsOpened};

use crate::machine::Machine;
use crate::unit::{SourceUnit, TileUnit, Unit};
use raw_flow::Node;
use raw_grid::{ProcId, ProcKind, Topo};
use raw_model::limits::MEMORY_WORDS;
use raw_model::{DataWord, Mark, PortProg, Set, TileProg};
use raw_processor::{EndWires, PortState, SwitchUnit, ends_of, switch_steps, tile_steps};
use raw_serial::Wires;
use raw_switch::SwitchState;
use raw_term::{TermRefusal, TermTable, TermTile};
use raw_tile::{TileMemory, TileState};
use std::alloc::{AllocError, Global};

/// How many words all sources of a set have.
pub fn word_count(set: &Set) -> usize
    ensures value { result ≡ all_words set.now }
    ensures few { result ≤ MAX_ALL_WORDS }
    ensures valid { IsSet set.now }
{
    let mut count = 0;
    for port in &set.ports {
        count += port.words.len();
    }
    count
}

// So many numbers that are 0.
#[tactic(auto, unfolding(raw_tile::specs::Zeros::IsZeros))]
fn zeros(alloc: Global, count: usize) -> Result<Vec<u32>, AllocError>
    ensures { IfOk result (λ numbers. IsZeros count numbers.items) }
{
    vec![in alloc; 0; count]
}

// A word of a list of words in memory.
fn cell_at(cells: &[DataWord], i: usize) -> DataWord
    requires { i < length cells.now }
    ensures { slice_get cells.now i ≡ Some result }
{
    cells[i]
}

// The numbers of the terms of the words in the memory of a tile at the start.
fn open_memory(
    alloc: Global,
    table: &mut TermTable,
    cells: &[DataWord],
) -> Result<Vec<u32>, TermRefusal>
    requires { All IsDataWord cells.now }
    ensures memory { IfOk result (λ memory.
        first_term_memory table.old cells.now ≡ record { nodes = table.new; memory = memory.items }) }
    ensures many { IfOk result (λ memory. length memory.items ≡ MEMORY_WORDS) }
    ensures too_many { result ≡ Err TermRefusal.TooMany → Overflows (first_term_memory table.old cells.now).nodes }
{
    let mut memory = zeros(alloc, MEMORY_WORDS as usize)?;
    for i in 0..cells.len() {
        let cell = cell_at(cells, i);
        let number = table.number_of(Node::Const { word: cell.word })?;
        memory[cell.address as usize / 4] = number;
    }
    Ok(memory)
}

// The mark of a processor that has done nothing yet.
fn first_mark<T>(code: &[T]) -> Mark
    ensures { result ≡ first_mark code.now }
{
    if code.is_empty() {
        Mark::Halted
    } else {
        Mark::Going
    }
}

// A tile before it has done anything.
fn open_tile(
    alloc: Global,
    table: &mut TermTable,
    program: &TileProg,
) -> Result<TileUnit, TermRefusal>
    requires { All IsDataWord program.now.cells }
    ensures tile { IfOk result (λ unit. IsOpenTile table.old table.new program.now unit) }
    ensures too_many { result ≡ Err TermRefusal.TooMany → Overflows (first_term_memory table.old program.now.cells).nodes }
{
    let memory = open_memory(alloc, table, &program.cells)?;
    let code = tile_steps(alloc, &program.code)?;
    let state = TileState {
        regs: [0; 32],
        pc: 0,
        count: 0,
        mark: first_mark(&program.code),
        memory: TileMemory::zeroed(alloc)?,
    };
    Ok(TileUnit {
        code,
        tile: TermTile { state, memory },
    })
}

// All tiles.
fn open_tiles(alloc: Global, table: &mut TermTable, set: &Set) -> Result<Vec<Unit>, TermRefusal>
    ensures tiles { IfOk result (λ units.
        first_term_tiles table.old set.now.tiles ≡ record { nodes = table.new; tiles = map local_of units.items }) }
    ensures many { IfOk result (λ units. length units.items ≡ tile_count set.now.topo) }
    ensures kept { IfOk result (λ units. AreUnits set.now units.items) }
    ensures too_many { result ≡ Err TermRefusal.TooMany → Overflows (first_term_tiles table.old set.now.tiles).nodes }
{
    let mut units = Vec::with_capacity(alloc, set.topo.procs() as usize)?;
    for program in &set.tiles {
        let tile = open_tile(alloc, table, program)?;
        units.push(Unit::Tile(tile))?;
    }
    Ok(units)
}

// A switch before it has done anything.
fn open_switch(alloc: Global, program: &TileProg) -> Result<SwitchUnit, AllocError>
    ensures state { IfOk result (λ unit. unit.state ≡ first_switch program.now.switch) }
    ensures code { IfOk result (λ unit. unit.code.items ≡ program.now.switch) }
{
    Ok(SwitchUnit {
        code: switch_steps(alloc, &program.switch)?,
        state: SwitchState {
            regs: [0; 4],
            pc: 0,
            count: 0,
            mark: first_mark(&program.switch),
        },
    })
}

// All switches, behind the tiles.
fn open_switches(alloc: Global, set: &Set, units: &mut Vec<Unit>) -> Result<(), AllocError>
    requires tiles { length units.old.items ≡ tile_count set.now.topo }
    requires kept { AreUnits set.now units.old.items }
    ensures switches { IfOk result (λ done. map local_of units.new.items
        ≡ map local_of units.old.items ++ map (λ (tile : TileProgram). Switch (first_switch tile.switch)) set.now.tiles) }
    ensures many { IfOk result (λ done. length units.new.items ≡ 2 * tile_count set.now.topo) }
    ensures kept { IfOk result (λ done. AreUnits set.now units.new.items) }
{
    for program in &set.tiles {
        let switch = open_switch(alloc, program)?;
        units.push(Unit::Switch(switch))?;
    }
    Ok(())
}

// A port of this kind before it has done anything. The words of a source have numbers from `first` on.
fn open_port(
    alloc: Global,
    kind: ProcKind,
    program: &PortProg,
    first: u32,
) -> Result<Unit, AllocError>
    ensures { IfOk result (IsOpenPort kind program.now first) }
{
    let port = PortState {
        done: 0,
        got: Vec::with_capacity(alloc, program.capacity as usize)?,
    };
    match kind {
        ProcKind::Source => Ok(Unit::Source(SourceUnit { first, port })),
        _ => Ok(Unit::Sink(port)),
    }
}

// All ports, behind the switches.
fn open_ports(alloc: Global, set: &Set, units: &mut Vec<Unit>) -> Result<(), AllocError>
    requires behind { length units.old.items ≡ 2 * tile_count set.now.topo }
    requires kept { AreUnits set.now units.old.items }
    ensures ports { IfOk result (λ done. map local_of units.new.items
        ≡ map local_of units.old.items ++ map (λ (place : PortPlace). first_port place.kind) set.now.topo.places) }
    ensures many { IfOk result (λ done. length units.new.items ≡ proc_count set.now.topo) }
    ensures kept { IfOk result (λ done. AreUnits set.now units.new.items) }
{
    let behind = 2 * set.tiles.len();
    let mut first = 1;
    for i in 0..set.ports.len() {
        let kind = set.topo.kind_of(ProcId((behind + i) as u32));
        let program = &set.ports[i];
        let unit = open_port(alloc, kind, program, first)?;
        units.push(unit)?;
        first += program.words.len() as u32;
    }
    Ok(())
}

/// The wires at the ends of each processor.
pub fn open_ends(alloc: Global, topo: &Topo) -> Result<Vec<EndWires>, AllocError>
    ensures { IfOk result (λ ends. AreAllEnds topo.now ends.items) }
{
    let procs = topo.procs();
    let mut ends = Vec::with_capacity(alloc, procs as usize)?;
    for p in 0..procs {
        ends.push_reserved(ends_of(topo, ProcId(p)));
    }
    Ok(ends)
}

/// A machine of a set that has done nothing yet. The words of sources are numbered through, those of the first port
/// first, and the words in memories at the start have their terms. It is too many where these are more than a table
/// holds.
pub fn open(alloc: Global, set: &Set) -> Result<Machine, TermRefusal>
    ensures opened { IfOk result (IsOpened set.now) }
    ensures too_many { result ≡ Err TermRefusal.TooMany → Overflows (term_start set.now).nodes }
{
    let ends = open_ends(alloc, &set.topo)?;
    let words = word_count(set);
    let mut table = TermTable::open(alloc, words as u32)?;
    let mut units = open_tiles(alloc, &mut table, set)?;
    open_switches(alloc, set, &mut units)?;
    open_ports(alloc, set, &mut units)?;
    let wires = Wires::open(alloc, set.topo.wires() as usize)?;
    // The table is read so that its limit is known.
    let _terms = table.len();
    Ok(Machine {
        ends,
        units,
        wires,
        table,
    })
}
