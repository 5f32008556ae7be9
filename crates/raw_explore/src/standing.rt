//! The lines of the state before the first cycle that is told.
ghost use Rattle.std.specs.Prelude.{◌≡◌, ℕ, List, ◌+◌, ◌<◌, ◌≤◌, length, slice_index, slice_get, Some};
ghost use Rattle.std.specs.List.{flat_map, range_with_len};
ghost use Rattle.raw_io.specs.Writing.{Writes};
ghost use Rattle.raw_grid.specs.Topology.{proc_count};
ghost use Rattle.raw_grid.specs.Wires.{wires_of};
ghost use Rattle.raw_model.specs.Local.{Local};
ghost use Rattle.raw_model.specs.Start.{start};
ghost use Rattle.raw_model.specs.Parts.{memory_of};
ghost use Rattle.raw_serial.specs.Fresh.{IsFresh};
ghost use Rattle.raw_clock.specs.Clock.{clock};
ghost use Rattle.raw_trace.specs.Standing.{count_entries, held_entries, register_entry, word_entry, memory_entries, misses_entries, state_entries};
ghost use Rattle.raw_trace.specs.Lines.{state_line};
ghost use Rattle.raw_trace.specs.Text.{entry_text, line_text};
ghost use Rattle.raw_trace.specs.declared.entry.Entry.TheVariants as entry;
ghost use Rattle.raw_processor.specs.Processor.{local_of, misses_of};
ghost use Rattle.raw_explore.specs.Engine.{IsAt, IsAlike, SomeSteps};

use crate::entries::{put_entry, put_head};
use crate::parts::{pc, registers};
use raw_grid::{ProcId, WireId};
use raw_io::{Failed, Sink, put_all};
use raw_model::limits::MEMORY_WORDS;
use raw_serial::{Machine, Processor};
use raw_tile::TileMemory;
use raw_trace::Entry;

// Puts the values on a wire, the front one first.
fn put_values<K: Sink>(wire: u32, values: &[u32], out: &mut K) -> Result<(), Failed>
    ensures { Writes (K.sight out.old) (K.sight out.new)
        (flat_map (λ value. entry_text (entry.Sent wire value)) values.now) result }
{
    for i in 0..values.len() {
        put_entry(Entry::Sent(wire, values[i]), out)?;
    }
    Ok(())
}

// Puts the values on a wire, where this processor sends there.
fn put_held<K: Sink>(machine: &Machine<'_>, p: ProcId, w: u32, out: &mut K) -> Result<(), Failed>
    requires { w < length (wires_of machine.now.set.topo) }
    ensures { Writes (K.sight out.old) (K.sight out.new)
        (flat_map entry_text (held_entries machine.now.set machine.now.state p.0 w)) result }
{
    if machine.set().topo.producer(WireId(w)).0 != p.0 {
        return Ok(());
    }
    put_values(w, machine.wire(WireId(w)), out)
}

// Puts the values on all wires of a processor, by the wires' numbers.
fn put_all_held<K: Sink>(machine: &Machine<'_>, p: ProcId, out: &mut K) -> Result<(), Failed>
    ensures { Writes (K.sight out.old) (K.sight out.new)
        (flat_map (λ w. flat_map entry_text (held_entries machine.now.set machine.now.state p.0 w))
        (range_with_len 0 (length (wires_of machine.now.set.topo)))) result }
{
    let set = machine.set();
    for w in 0..set.topo.wires() {
        put_held(machine, p, w, out)?;
    }
    Ok(())
}

// Puts a register, where it is not 0.
fn put_register<K: Sink>(register: u8, value: u32, out: &mut K) -> Result<(), Failed>
    ensures { (regs : List ℕ) → slice_index regs register ≡ value → Writes
        (K.sight out.old) (K.sight out.new)
        (flat_map entry_text (register_entry regs register)) result }
{
    if value == 0 {
        return Ok(());
    }
    put_entry(Entry::Register(register, value), out)
}

// Puts the registers that are not 0.
fn put_registers<K: Sink>(regs: &[u32], out: &mut K) -> Result<(), Failed>
    requires { length regs.now ≤ 32 }
    ensures { Writes (K.sight out.old) (K.sight out.new)
        (flat_map (λ r. flat_map entry_text (register_entry regs.now r)) (range_with_len 0 (length regs.now))) result }
{
    for r in 0..regs.len() {
        put_register(r as u8, regs[r], out)?;
    }
    Ok(())
}

// Puts a word of a memory, where it is not the one that was given.
#[tactic(auto, unfolding(raw_model::specs::Program::memory_size))]
fn put_word<K: Sink>(
    given: &TileMemory,
    memory: &TileMemory,
    i: u32,
    out: &mut K,
) -> Result<(), Failed>
    requires { i < MEMORY_WORDS }
    ensures { Writes (K.sight out.old) (K.sight out.new)
        (flat_map entry_text (word_entry given.now memory.now i)) result }
{
    let address = 4 * i;
    let word = memory.word_at(address);
    if word == given.word_at(address) {
        return Ok(());
    }
    put_entry(Entry::Stored(address, word), out)
}

// Puts the words of a memory that are not those that were given.
fn put_memory<K: Sink>(given: &TileMemory, memory: &TileMemory, out: &mut K) -> Result<(), Failed>
    ensures { Writes (K.sight out.old) (K.sight out.new)
        (flat_map (λ i. flat_map entry_text (word_entry given.now memory.now i)) (range_with_len 0 MEMORY_WORDS)) result }
{
    for i in 0..MEMORY_WORDS {
        put_word(given, memory, i, out)?;
    }
    Ok(())
}

// Puts the words of a tile's memory that are not those of its start, where the processor is a tile.
fn put_memory_of<K: Sink>(
    given: &Processor,
    processor: &Processor,
    out: &mut K,
) -> Result<(), Failed>
    requires { IsAlike given.now processor.now }
    ensures { Writes (K.sight out.old) (K.sight out.new)
        (flat_map entry_text (memory_entries (memory_of (Some (local_of given.now))) (Some (local_of processor.now)))) result }
{
    match processor {
        Processor::Tile(tile) => match given {
            Processor::Tile(given) => put_memory(&given.state.memory, &tile.state.memory, out),
            Processor::Switch(_) | Processor::Source(_) | Processor::Sink(_) => Ok(()),
        },
        Processor::Switch(_) | Processor::Source(_) | Processor::Sink(_) => Ok(()),
    }
}

// Puts how often a tile missed, where it did.
fn put_misses<K: Sink>(missed: u64, out: &mut K) -> Result<(), Failed>
    ensures { Writes (K.sight out.old) (K.sight out.new)
        (flat_map entry_text (misses_entries missed)) result }
{
    if missed == 0 {
        return Ok(());
    }
    put_entry(Entry::Misses(missed), out)
}

// Puts what is told of a processor that has taken steps, in a state.
fn put_state_entries<K: Sink>(
    machine: &Machine<'_>,
    fresh: &Machine<'_>,
    p: ProcId,
    out: &mut K,
) -> Result<(), Failed>
    requires there { p.0 < proc_count machine.now.set.topo }
    requires fresh { IsFresh machine.now.set fresh.now }
    requires some { SomeSteps machine.now p.0 }
    ensures { Writes (K.sight out.old) (K.sight out.new)
        (flat_map entry_text (state_entries machine.now.set machine.now.state p.0 (slice_index machine.now.missed p.0))) result }
{
    put_entry(Entry::Count(machine.count(p)), out)?;
    put_all_held(machine, p, out)?;
    let processor = machine.processor(p);
    put_registers(registers(processor), out)?;
    put_memory_of(fresh.processor(p), processor, out)?;
    put_misses(missed(processor), out)
}

// How often a processor has missed its cache; only a tile misses.
fn missed(processor: &Processor) -> u64
    ensures { result ≡ misses_of processor.now }
{
    match processor {
        Processor::Tile(tile) => tile.misses,
        Processor::Switch(_) | Processor::Source(_) | Processor::Sink(_) => 0,
    }
}

// Puts the line of a processor in the state of cycle `k`, where anything is told. Nothing is told of one that has taken no
// step.
fn put_state<K: Sink>(
    machine: &Machine<'_>,
    fresh: &Machine<'_>,
    p: ProcId,
    k: u64,
    out: &mut K,
) -> Result<(), Failed>
    requires there { p.0 < proc_count machine.now.set.topo }
    requires fresh { IsFresh machine.now.set fresh.now }
    requires at { IsAt machine.now k }
    ensures { Writes (K.sight out.old) (K.sight out.new)
        (flat_map line_text (state_line machine.now.set (clock machine.now.set k) p.0)) result }
{
    // The set is asked for so that it is known to keep its rules.
    let _set = machine.set();
    if machine.count(p) == 0 {
        return Ok(());
    }
    put_head(p, pc(machine.processor(p)), out)?;
    put_state_entries(machine, fresh, p, out)?;
    put_all(out, b"\n")
}

/// Puts the lines of the state of cycle `k`, at which the machine stands. The other machine has done nothing yet.
pub(crate) fn put_states<K: Sink>(
    machine: &Machine<'_>,
    fresh: &Machine<'_>,
    k: u64,
    out: &mut K,
) -> Result<(), Failed>
    requires fresh { IsFresh machine.now.set fresh.now }
    requires at { IsAt machine.now k }
    ensures { Writes (K.sight out.old) (K.sight out.new)
        (flat_map (λ p. flat_map line_text (state_line machine.now.set (clock machine.now.set k) p))
        (range_with_len 0 (proc_count machine.now.set.topo))) result }
{
    for p in 0..machine.procs() {
        put_state(machine, fresh, ProcId(p), k, out)?;
    }
    Ok(())
}
