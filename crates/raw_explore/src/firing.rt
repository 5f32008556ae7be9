//! One step of a processor, and what its line tells: its event, and what its instruction writes.
ghost use Rattle.std.specs.Prelude.{◌≡◌, ℕ, ◌+◌, ◌<◌, ◌≤◌, ◌^◌, ◌++◌, Some, IfSome, length, map, option_map, slice_get, slice_index, None, if◌then◌else◌};
ghost use Rattle.raw_network.specs.Network.{event_of};
ghost use Rattle.raw_grid.specs.Topology.{tile_count, proc_count};
ghost use Rattle.raw_model.specs.Local.{Local};
ghost use Rattle.raw_model.specs.Machine.{machine_of, tile_code, switch_code};
ghost use Rattle.raw_model.specs.TileTable.{next_instruction, word_at};
ghost use Rattle.raw_model.specs.SwitchTable.{next_instruction as next_instruction_of_switch};
ghost use Rattle.raw_model.specs.Parts.{memory_of};
ghost use Rattle.raw_processor.specs.Processor.{local_of};
ghost use Rattle.raw_serial.specs.Running.{turn_of, IsStep};
ghost use Rattle.raw_serial.specs.Told.{missed_at};
ghost use Rattle.raw_trace.specs.declared.entry.Entry.TheVariants as entry;
ghost use Rattle.raw_trace.specs.Parts.{regs_of, pc_of, is_faulted};
ghost use Rattle.raw_trace.specs.Firing.{written_register, switch_register, tile_register, is_store, is_store_next, stores_next, sent_entry, access_entries, step_entries, register_entries, miss_entries, word_address};

use crate::entries::{Entries, MOST_ENTRIES};
use crate::parts::{is_faulted, pc, registers};
use crate::workspace::Workspace;
use raw_grid::ProcId;
use raw_model::Set;
use raw_serial::{Machine, Processor, Sent, Turn};
use raw_switch::SwitchState;
use raw_switch_isa::{SwitchIns, SwitchOp};
use raw_tile::TileState;
use raw_tile_isa::{NETWORK_1, NETWORK_2, TileIns, TileOp};
use raw_trace::Entry;

// The register that an instruction of a tile writes, where it keeps what is written.
fn tile_register(ins: &TileIns) -> Option<u8>
    ensures { result ≡ tile_register (Some ins.now) }
{
    match ins.destination_register() {
        Some(0 | NETWORK_1 | NETWORK_2) | None => None,
        Some(register) => Some(register),
    }
}

// The register that an instruction of a switch writes.
fn switch_register(ins: &SwitchIns) -> Option<u8>
    ensures { result ≡ switch_register (Some ins.now) }
{
    match ins.op {
        SwitchOp::Bnezd | SwitchOp::Move => Some(ins.rd),
        SwitchOp::Nop | SwitchOp::Jump | SwitchOp::Beqz | SwitchOp::Bnez | SwitchOp::Halt => None,
    }
}

// The instruction of a tile that is next; none where the pc is past the program.
fn next_of_tile<'s>(set: &'s Set, t: u32, tile: &TileState) -> Option<&'s TileIns>
    requires { t < tile_count set.now.topo }
    ensures { option_map (λ ins. ins.now) result ≡ next_instruction (tile_code set.now t) tile.now }
{
    let program = &set.tiles[t as usize];
    program.code.get(tile.pc as usize)
}

// The instruction of the switch beside a tile that is next.
fn next_of_switch<'s>(set: &'s Set, t: u32, switch: &SwitchState) -> Option<&'s SwitchIns>
    requires { t < tile_count set.now.topo }
    ensures { option_map (λ ins. ins.now) result ≡ next_instruction_of_switch (switch_code set.now (tile_count set.now.topo + t)) switch.now }
{
    let program = &set.tiles[t as usize];
    program.switch.get(switch.pc as usize)
}

// The register that a processor's next step writes, unless a load traps it.
fn written(machine: &Machine<'_>, p: ProcId) -> Option<u8>
    requires { p.0 < proc_count machine.now.set.topo }
    ensures { (l : Local) → slice_get machine.now.state.locals p.0 ≡ Some l → result ≡ written_register machine.now.set p.0 l }
{
    let set = machine.set();
    match machine.processor(p) {
        Processor::Tile(tile) => tile_register(next_of_tile(set, p.0, &tile.state)?),
        Processor::Switch(switch) => {
            switch_register(next_of_switch(set, p.0 - set.topo.tiles(), &switch.state)?)
        }
        Processor::Source(_) | Processor::Sink(_) => None,
    }
}

// Whether an instruction stores.
fn is_store(op: TileOp) -> bool
    ensures { result ≡ is_store op }
{
    matches!(op, TileOp::Sb | TileOp::Sh | TileOp::Sw)
}

// Whether a processor's next step is a store, unless it traps.
fn stores(machine: &Machine<'_>, p: ProcId) -> bool
    requires { p.0 < proc_count machine.now.set.topo }
    ensures { (l : Local) → slice_get machine.now.state.locals p.0 ≡ Some l → result ≡ stores_next machine.now.set p.0 l }
{
    let set = machine.set();
    match machine.processor(p) {
        Processor::Tile(tile) => next_stores(next_of_tile(set, p.0, &tile.state)),
        Processor::Switch(_) | Processor::Source(_) | Processor::Sink(_) => false,
    }
}

// Whether an instruction is there and stores.
fn next_stores(ins: Option<&TileIns>) -> bool
    ensures { result ≡ is_store_next (option_map (λ ins. ins.now) ins.entry) }
{
    match ins {
        Some(ins) => is_store(ins.op),
        None => false,
    }
}

// Tells the values that are taken.
fn push_taken(entries: &mut Entries, takes: &[u32])
    requires { length entries.old.items + length takes.now ≤ MOST_ENTRIES }
    ensures entries { entries.new.items ≡ entries.old.items ++ map entry.Taken takes.now }
    ensures few { length entries.new.items ≡ length entries.old.items + length takes.now }
{
    for i in 0..takes.len() {
        entries.push(Entry::Taken(takes[i]));
    }
}

// Tells the values that are sent.
fn push_sent(entries: &mut Entries, sent: &[Sent])
    requires { length entries.old.items + length sent.now ≤ MOST_ENTRIES }
    ensures entries { entries.new.items ≡ entries.old.items ++ map sent_entry sent.now }
    ensures few { length entries.new.items ≡ length entries.old.items + length sent.now }
{
    for i in 0..sent.len() {
        let value = sent[i];
        entries.push(Entry::Sent(value.wire, value.value));
    }
}

// Tells the register that is written, with what it holds behind the step.
fn push_register(entries: &mut Entries, processor: &Processor, register: Option<u8>)
    requires { length entries.old.items < MOST_ENTRIES }
    ensures entries { entries.new.items ≡ entries.old.items
        ++ register_entries (regs_of (Some (local_of processor.now))) (if is_faulted (Some (local_of processor.now)) then None else register) }
    ensures few { length entries.new.items ≤ length entries.old.items + 1 }
{
    if is_faulted(processor) {
        return;
    }
    if let Some(register) = register {
        let value = registers(processor)
            .get(register as usize)
            .copied()
            .unwrap_or(0);
        entries.push(Entry::Register(register, value));
    }
}

// The word in which the byte at an address is; 0 where the processor has no memory.
fn word_at(processor: &Processor, address: u32) -> u32
    requires { address < 2 ^ 16 }
    ensures { result ≡ word_at (memory_of (Some (local_of processor.now))) (word_address address) }
{
    match processor {
        Processor::Tile(tile) => tile.state.memory.word_at(address - address % 4),
        Processor::Switch(_) | Processor::Source(_) | Processor::Sink(_) => 0,
    }
}

// Tells a load, or a store with the whole word behind it, where an address is touched.
fn push_access(entries: &mut Entries, processor: &Processor, store: bool, touched: Option<u32>)
    requires room { length entries.old.items < MOST_ENTRIES }
    requires inside { IfSome touched (λ address. address < 2 ^ 16) }
    ensures entries { entries.new.items ≡ entries.old.items ++ access_entries store (memory_of (Some (local_of processor.now))) touched }
    ensures few { length entries.new.items ≤ length entries.old.items + 1 }
{
    let Some(touched) = touched else {
        return;
    };
    let address = touched - touched % 4;
    if store {
        entries.push(Entry::Stored(address, word_at(processor, touched)));
    } else {
        entries.push(Entry::Loaded(address));
    }
}

// Tells a miss.
fn push_miss(entries: &mut Entries, turns: Option<u8>)
    requires { length entries.old.items < MOST_ENTRIES }
    ensures { entries.new.items ≡ entries.old.items ++ miss_entries turns }
{
    if let Some(turns) = turns {
        entries.push(Entry::Missed(turns));
    }
}

/// Takes a step of a processor whose turn is one, makes the entries of the workspace those that its line tells, and says
/// what its pc is behind the step.
pub(crate) fn fire(machine: &mut Machine<'_>, p: ProcId, work: &mut Workspace) -> u32
    requires there { p.0 < proc_count machine.old.set.topo }
    requires fired { turn_of machine.old p.0 ≡ Turn.Fired }
    ensures step { IsStep machine.old machine.new p.0 }
    ensures pc { result ≡ pc_of (event_of (machine_of machine.old.set) machine.old.state p.0).after }
    ensures entries { work.new.entries.items ≡ step_entries machine.old.set machine.old.state p.0
        (missed_at machine.old.set p.0 (slice_index machine.old.missed p.0) (slice_index machine.new.missed p.0)) }
{
    // The set is asked for so that it is known to keep its rules.
    let _set = machine.set();
    let register = written(machine, p);
    let store = stores(machine, p);
    machine.try_step_telling(p, &mut work.event);
    let event = &work.event;
    let entries = &mut work.entries;
    entries.clear();
    push_taken(entries, &event.taken);
    push_sent(entries, &event.sent);
    let processor = machine.processor(p);
    push_register(entries, processor, register);
    push_access(entries, processor, store, event.touched);
    push_miss(entries, event.missed);
    pc(processor)
}
