//! Laws of the wires of every topology.
ghost use Rattle.std.specs.Prelude.{◌≡◌, ◌≢◌, ℕ, ◌+◌, ◌*◌, ◌<◌, ◌≤◌, ◌⊎◌, length, Some, None, Contains, slice_get};
ghost use Rattle.raw_grid.specs.declared.parts.Net.{Net};
ghost use Rattle.raw_grid.specs.declared.parts.Side.{Side};
ghost use Rattle.raw_grid.specs.declared.parts.Dir.{Dir};
ghost use Rattle.raw_grid.specs.declared.parts.Way.{Way};
ghost use Rattle.raw_grid.specs.declared.parts.PortKind.{PortKind};
ghost use Rattle.raw_grid.specs.declared.parts.PortPlace.{PortPlace};
ghost use Rattle.raw_grid.specs.declared.parts.End.{End};
ghost use Rattle.raw_grid.specs.Ends.{side_end, tile_end, opposite};
ghost use Rattle.raw_grid.specs.Topology.{Topology, IsTopology, tile_count, proc_count, switch_number, switch_at, neighbour};
ghost use Rattle.raw_grid.specs.Wires.{wires_of, input_wire, output_wire, producer_of, consumer_of, producer_end, consumer_end, other_end, Joins};
ghost use Rattle.raw_grid.specs.Names.{net_number, net_text, net_with, net_named, side_number, side_text, side_with, side_named, dir_text, dir_named, kind_number, kind_text, kind_with, kind_named, end_text, end_named};

use crate::limits::{MAX_PORTS, MAX_PROCS, MAX_TILES, MAX_WIRES};
use crate::parts::{Net, PortKind, Way};

/// Each wire leads from one output end of its producer to one input end of its consumer, no end
/// has two wires, and producer and consumer differ.
pub fn law_wires()
    ensures input_exists { (t : Topology) (p i w : ℕ) →
        input_wire t p i ≡ Some w → w < length (wires_of t) }
    ensures input_owner { (t : Topology) (p i w : ℕ) →
        input_wire t p i ≡ Some w → consumer_of t w ≡ p }
    ensures one_input { (t : Topology) (p q i j w : ℕ) →
        input_wire t p i ≡ Some w → input_wire t q j ≡ Some w → i ≡ j }
    ensures ten_inputs { (t : Topology) (p i w : ℕ) →
        IsTopology t → input_wire t p i ≡ Some w → i < 10 }

    ensures output_exists { (t : Topology) (p i w : ℕ) →
        output_wire t p i ≡ Some w → w < length (wires_of t) }
    ensures output_owner { (t : Topology) (p i w : ℕ) →
        output_wire t p i ≡ Some w → producer_of t w ≡ p }
    ensures one_output { (t : Topology) (p q i j w : ℕ) →
        output_wire t p i ≡ Some w → output_wire t q j ≡ Some w → i ≡ j }
    ensures ten_outputs { (t : Topology) (p i w : ℕ) →
        IsTopology t → output_wire t p i ≡ Some w → i < 10 }

    // This holds past the last wire too, where the two are named so that they differ.
    ensures apart { (t : Topology) (w : ℕ) → IsTopology t → producer_of t w ≢ consumer_of t w }
    ensures producer { (t : Topology) (w : ℕ) →
        IsTopology t → w < length (wires_of t) → producer_of t w < proc_count t }
    ensures consumer { (t : Topology) (w : ℕ) →
        IsTopology t → w < length (wires_of t) → consumer_of t w < proc_count t }
    ensures input_end { (t : Topology) (w : ℕ) → IsTopology t → w < length (wires_of t) →
        (i : ℕ) × (i < 10) × (input_wire t (consumer_of t w) i ≡ Some w) }
    ensures output_end { (t : Topology) (w : ℕ) → IsTopology t → w < length (wires_of t) →
        (i : ℕ) × (i < 10) × (output_wire t (producer_of t w) i ≡ Some w) }

    // At 64 tiles there are at most 4 wires to and from the switch and 4 links a network, and at
    // the 32 edges at most one port of each kind a network.
    ensures few_ports { (t : Topology) → IsTopology t → length t.places ≤ MAX_PORTS }
    ensures few_wires { (t : Topology) → IsTopology t → length (wires_of t) ≤ MAX_WIRES }
{}

/// How large a grid gets.
pub fn law_sizes()
    ensures tiles { (t : Topology) → IsTopology t → tile_count t ≤ MAX_TILES }
    // A grid has 2 * (cols + rows) edges, and at each at most one port of each kind a network.
    ensures ports { (t : Topology) → IsTopology t → length t.places ≤ 8 * (t.cols + t.rows) }
    ensures procs { (t : Topology) → IsTopology t → proc_count t ≤ MAX_PROCS }
{}

/// A wire has two ends, and from each the other is found.
pub fn law_other_ends()
    ensures producer_end { (t : Topology) (w : ℕ) → IsTopology t → w < length (wires_of t) →
        output_wire t (producer_of t w) (producer_end t w) ≡ Some w }
    ensures consumer_end { (t : Topology) (w : ℕ) → IsTopology t → w < length (wires_of t) →
        input_wire t (consumer_of t w) (consumer_end t w) ≡ Some w }

    ensures from_input { (t : Topology) (p i q j : ℕ) → IsTopology t →
        other_end t p Way.In i ≡ Some (q, j) → other_end t q Way.Out j ≡ Some (p, i) }
    ensures from_output { (t : Topology) (p i q j : ℕ) → IsTopology t →
        other_end t p Way.Out i ≡ Some (q, j) → other_end t q Way.In j ≡ Some (p, i) }
    ensures proc { (t : Topology) (p : ℕ) (way : Way) (i q j : ℕ) → IsTopology t →
        other_end t p way i ≡ Some (q, j) → q < proc_count t }
    ensures ten { (t : Topology) (p : ℕ) (way : Way) (i q j : ℕ) → IsTopology t →
        other_end t p way i ≡ Some (q, j) → j < 10 }
    ensures apart { (t : Topology) (p : ℕ) (way : Way) (i q j : ℕ) → IsTopology t →
        other_end t p way i ≡ Some (q, j) → q ≢ p }
{}

/// Each name and each number is that of one part of a grid alone.
pub fn law_names()
    ensures net_number { (net : Net) → net_with (net_number net) ≡ Some net }
    ensures net { (net : Net) → net_named (net_text net) ≡ Some net }
    ensures side_number { (side : Side) → side_with (side_number side) ≡ Some side }
    ensures side { (side : Side) → side_named (side_text side) ≡ Some side }
    ensures dir { (dir : Dir) → dir_named (dir_text dir) ≡ Some dir }
    ensures kind_number { (kind : PortKind) → kind_with (kind_number kind) ≡ Some kind }
    ensures kind { (kind : PortKind) → kind_named (kind_text kind) ≡ Some kind }
    ensures end { (end : End) → end_named (end_text end) ≡ Some end }
{}

/// Which ends have a wire: those between a tile and its switch, those between neighbours, and at
/// the edge those where a port stands.
pub fn law_ends()
    ensures to_tile_one { (t : Topology) (tile : ℕ) → IsTopology t → tile < tile_count t →
        Joins t (4 * tile) (switch_number t tile) (tile_end Net.One) tile (tile_end Net.One) }
    ensures to_tile_two { (t : Topology) (tile : ℕ) → IsTopology t → tile < tile_count t →
        Joins t (4 * tile + 1) (switch_number t tile) (tile_end Net.Two) tile (tile_end Net.Two) }
    ensures from_tile_one { (t : Topology) (tile : ℕ) → IsTopology t → tile < tile_count t →
        Joins t (4 * tile + 2) tile (tile_end Net.One) (switch_number t tile) (tile_end Net.One) }
    ensures from_tile_two { (t : Topology) (tile : ℕ) → IsTopology t → tile < tile_count t →
        Joins t (4 * tile + 3) tile (tile_end Net.Two) (switch_number t tile) (tile_end Net.Two) }
    ensures tile_input { (t : Topology) (tile i w : ℕ) → IsTopology t → tile < tile_count t →
        input_wire t tile i ≡ Some w → (i ≡ tile_end Net.One) ⊎ (i ≡ tile_end Net.Two) }
    ensures tile_output { (t : Topology) (tile i w : ℕ) → IsTopology t → tile < tile_count t →
        output_wire t tile i ≡ Some w → (i ≡ tile_end Net.One) ⊎ (i ≡ tile_end Net.Two) }

    // Output E of a switch is input W of its eastern neighbour, and so for the other sides.
    ensures link { (t : Topology) (net : Net) (side : Side) (x y next : ℕ) → IsTopology t →
        x < t.cols → y < t.rows → neighbour t x y side ≡ Some next →
        (w : ℕ) ×
        Joins t w (switch_at t x y) (side_end net side)
        (switch_number t next) (side_end net (opposite side)) }

    // The wires of the ports are the last ones, in the order of the ports.
    ensures source { (t : Topology) (k : ℕ) (place : PortPlace) → IsTopology t →
        slice_get t.places k ≡ Some place → place.kind ≡ PortKind.Source →
        (w : ℕ) × (w + length t.places ≡ length (wires_of t) + k) ×
        Joins t w (2 * tile_count t + k) (tile_end place.net)
        (switch_at t place.x place.y) (side_end place.net place.side) }
    ensures sink { (t : Topology) (k : ℕ) (place : PortPlace) → IsTopology t →
        slice_get t.places k ≡ Some place → place.kind ≡ PortKind.Sink →
        (w : ℕ) × (w + length t.places ≡ length (wires_of t) + k) ×
        Joins t w
        (switch_at t place.x place.y) (side_end place.net place.side)
        (2 * tile_count t + k) (tile_end place.net) }
    ensures port_input { (t : Topology) (k : ℕ) (place : PortPlace) (i w : ℕ) → IsTopology t →
        slice_get t.places k ≡ Some place → input_wire t (2 * tile_count t + k) i ≡ Some w →
        (place.kind ≡ PortKind.Sink) × (i ≡ tile_end place.net) }
    ensures port_output { (t : Topology) (k : ℕ) (place : PortPlace) (i w : ℕ) → IsTopology t →
        slice_get t.places k ≡ Some place → output_wire t (2 * tile_count t + k) i ≡ Some w →
        (place.kind ≡ PortKind.Source) × (i ≡ tile_end place.net) }

    // At an edge a switch has an input only where a source stands, and an output only where a sink
    // does.
    ensures no_source { (t : Topology) (net : Net) (side : Side) (x y : ℕ) → IsTopology t →
        x < t.cols → y < t.rows → neighbour t x y side ≡ None →
        ¬ (Contains t.places (record { kind = PortKind.Source; net = net; x = x; y = y; side = side })) →
        input_wire t (switch_at t x y) (side_end net side) ≡ None }
    ensures no_sink { (t : Topology) (net : Net) (side : Side) (x y : ℕ) → IsTopology t →
        x < t.cols → y < t.rows → neighbour t x y side ≡ None →
        ¬ (Contains t.places (record { kind = PortKind.Sink; net = net; x = x; y = y; side = side })) →
        output_wire t (switch_at t x y) (side_end net side) ≡ None }
{}
