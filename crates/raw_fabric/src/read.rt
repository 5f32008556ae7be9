//! The wires of a table that is closed.
ghost use Rattle.std.specs.Prelude.{◌≡◌, ℕ, ◌*◌, ◌^◌, ◌<◌, ◌≤◌, [], map, slice_index, slice_index_or, length};
ghost use Rattle.std.specs.Mem.Slots.{slots_items, slots_len, IsFull};
ghost use Rattle.raw_model.specs.Program.{IsSet};
ghost use Rattle.raw_fabric_rule.specs.declared.layout.TheConstants.{STRIDE};
ghost use Rattle.raw_fabric_rule.specs.ByEnds.{procs, wires};
ghost use Rattle.raw_fabric_rule.specs.Word.{word_count};
ghost use Rattle.raw_fabric_rule.specs.Closing.{wire_of};

use arrayvec::ArrayVec;
use atomic_table::Closed;
use raw_fabric_rule::{END_COUNT, PLACES, STRIDE};
use raw_fabric_step::field_of;
use raw_grid::{Topo, WireId};
use raw_model::Set;
use std::alloc::Global;

// The words of a table that is closed.
type ClosedWords = Closed<(), Global>;

// A word of a closed table.
fn word_at(closed: &ClosedWords, i: usize) -> u64
    requires { IsFull closed.now.words × (i < slots_len closed.now.words) }
    ensures { result ≡ slice_index (slots_items closed.now.words) i }
{
    closed.word(i)
}

// Reads the values on a wire.
fn read_wire(closed: &ClosedWords, set: &Set, wire: u32, queue: &mut ArrayVec<u32, 8>)
    requires valid { IsSet set.now }
    requires wire { wire < wires set.now }
    requires words { IsFull closed.now.words × (slots_len closed.now.words ≡ word_count set.now) }
    requires small { (i : ℕ) → STRIDE * procs set.now ≤ i → slice_index (slots_items closed.now.words) i < 2 ^ 32 }
    ensures { queue.new.items ≡ wire_of set.now (slots_items closed.now.words) wire }
{
    let topo: &Topo = &set.topo;
    let w = WireId(wire);
    let producer = STRIDE as usize * topo.producer(w).0 as usize;
    let consumer = STRIDE as usize * topo.consumer(w).0 as usize;
    let sent = field_of(
        word_at(closed, producer),
        END_COUNT + usize::from(topo.producer_end(w)),
    );
    let taken = field_of(word_at(closed, consumer), usize::from(topo.consumer_end(w)));
    let base = STRIDE as usize * (topo.procs() as usize + wire as usize);
    let count = (sent + PLACES - taken) % PLACES;
    queue.clear();
    for i in 0..count {
        let k = ((taken + i) % PLACES) as usize;
        queue.push(word_at(closed, base + k) as u32);
    }
}

/// Reads the values on all wires.
pub(crate) fn read_wires(closed: &ClosedWords, set: &Set, queues: &mut [ArrayVec<u32, 8>])
    requires valid { IsSet set.now }
    requires words { IsFull closed.now.words × (slots_len closed.now.words ≡ word_count set.now) }
    requires small { (i : ℕ) → STRIDE * procs set.now ≤ i → slice_index (slots_items closed.now.words) i < 2 ^ 32 }
    requires queues { length queues.old ≡ wires set.now }
    ensures { (w : ℕ) → w < wires set.now → slice_index_or (map (λ queue. queue.items) queues.new) w [] ≡ wire_of set.now (slots_items closed.now.words) w }
{
    for w in 0..queues.len() {
        read_wire(closed, set, w as u32, &mut queues[w]);
    }
}
