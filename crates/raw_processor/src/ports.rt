//! A port of a machine.
ghost use Rattle.std.specs.Prelude.{◌≡◌, ℕ, ◌+◌, ◌-◌, ◌*◌, ◌<◌, ◌≤◌, ◌++◌, ◌∷◌, [], nat_le, length, slice_index, Some};
ghost use Rattle.raw_grid.specs.declared.parts.ProcKind.TheVariants as proc;
ghost use Rattle.raw_grid.specs.Topology.{Topology, tile_count, kind_at};
ghost use Rattle.raw_model.specs.Machine.{port_program, words_of, capacity_of, port_inputs, port_outputs};
ghost use Rattle.raw_processor.specs.declared.end_wires.EndWires.{EndWires};
ghost use Rattle.raw_processor.specs.Ends.{AreEndsOf};
ghost use Rattle.raw_processor.specs.Given.{wires_in};

use crate::needs::Needs;
use crate::port_state::PortState;
use raw_grid::ProcId;
use raw_model::Set;
use raw_model::limits::MAX_CAPACITY;

/// The ends P of the two networks. A port has a wire at one of them, on its own network.
const PORT_ENDS: u16 = 1 << 4 | 1 << 9;

/// Whether a source takes no more steps: it has sent all its words, of which there are so many.
pub fn source_stopped(port: &PortState, words: usize) -> bool
    ensures { result ≡ nat_le words port.now.local.done }
{
    words as u64 <= port.done
}

/// Whether a sink takes no more steps: it is full.
pub fn sink_stopped(port: &PortState, capacity: u32) -> bool
    ensures { result ≡ nat_le capacity port.now.local.done }
{
    u64::from(capacity) <= port.done
}

/// What each step of a source takes and sends: it sends a value to its wire.
#[inline(always)]
pub fn source_needs() -> Needs
    ensures takes { (ends : EndWires) → wires_in result.inputs ends.inputs ≡ [] }
    ensures sends { (topo : Topology) (p : ℕ) (ends : EndWires) → AreEndsOf topo p ends →
        wires_in result.outputs ends.outputs ≡ port_outputs topo p }
{
    Needs {
        inputs: 0,
        outputs: PORT_ENDS,
    }
}

/// What each step of a sink takes and sends: it takes a value from its wire.
#[inline(always)]
pub fn sink_needs() -> Needs
    ensures takes { (topo : Topology) (p : ℕ) (ends : EndWires) → AreEndsOf topo p ends →
        wires_in result.inputs ends.inputs ≡ port_inputs topo p }
    ensures sends { (ends : EndWires) → wires_in result.outputs ends.outputs ≡ [] }
{
    Needs {
        inputs: PORT_ENDS,
        outputs: 0,
    }
}

/// Fires a source, and gives the word that it sends: the first that it has not sent.
pub fn fire_source(port: &mut PortState, words: &[u32]) -> u32
    requires { port.old.local.done < length words.now }
    ensures word { result ≡ slice_index words.now port.old.local.done }
    ensures next { port.new.local ≡ record port.old.local { done = port.old.local.done + 1 } }
    ensures room { port.new.room ≡ port.old.room }
{
    let word = words[port.done as usize];
    port.done += 1;
    word
}

/// Fires a sink: it appends the value that it takes. This takes no memory: its list has room.
pub fn fire_sink(port: &mut PortState, value: u32)
    requires room { length port.old.local.got < port.old.room }
    requires count { port.old.local.done < MAX_CAPACITY }
    ensures next { port.new.local ≡ record { done = port.old.local.done + 1; got = port.old.local.got ++ value ∷ [] } }
    ensures room { port.new.room ≡ port.old.room }
{
    port.got.push_reserved(value);
    port.done += 1;
}

/// The number of the port that a processor is, in the list of ports: ports stand behind tiles and switches.
pub fn port_of(set: &Set, p: ProcId) -> usize
    requires { 2 * tile_count set.now.topo ≤ p.0 }
    ensures { result ≡ p.0 - 2 * tile_count set.now.topo }
{
    p.0 as usize - 2 * set.tiles.len()
}

/// The words of a source.
pub fn words_of(set: &Set, p: ProcId) -> &[u32]
    requires { kind_at set.now.topo p.0 ≡ Some proc.Source }
    ensures { result.now ≡ words_of (port_program set.now p.0) }
{
    let program = &set.ports[port_of(set, p)];
    &program.words
}

/// The capacity of a sink.
pub fn capacity_of(set: &Set, p: ProcId) -> u32
    requires { kind_at set.now.topo p.0 ≡ Some proc.Sink }
    ensures { result ≡ capacity_of (port_program set.now p.0) }
{
    let program = &set.ports[port_of(set, p)];
    program.capacity
}
