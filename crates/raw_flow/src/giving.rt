//! What nodes and outs give to tiles and switches.
ghost use Rattle.std.specs.Prelude.{◌≡◌, ℕ, ◌<◌, ◌≤◌, List, length, take, IfOk, OnOk, Err};
ghost use Rattle.raw_codegen.specs.Parts.{to_tile, Gives};
ghost use Rattle.raw_codegen.specs.Limits.{Overflows};
ghost use Rattle.raw_codegen.specs.Rows.{register_of, load_ins, store_ins, from_side, to_side};
ghost use Rattle.raw_flow.specs.Flows.{IsNode, with_input, inputs_in};
ghost use Rattle.raw_flow.specs.Places.{Holding, with_value, AreMarks};
ghost use Rattle.raw_flow.specs.Ports.{source_of, sink_of, ArePorts};
ghost use Rattle.raw_flow.specs.Compiled.{tiles_in, source_tile, sink_tile, home, op_ins, one_haul, carried, moved, taken_at, const_code, apply_code, input_parts, held_input, node_parts, held_node, given_at};
ghost use Rattle.raw_flow.specs.Given.{AreGiven, NodeStands};

use crate::flow::{Flow, with_input};
use crate::limits::MAX_NODES;
use crate::node::{FlowOp, Node};
use crate::places::Places;
use crate::ports::{Ports, tile_at, tiles_in};
use raw_codegen::{GiveRefusal, Programs, law_giving};
use raw_grid::{Dir, Net, Side};
use raw_route::{Haul, give_tree};
use raw_switch_isa::{SwitchIns, SwitchSource};
use raw_tile_isa::{NETWORK_1, NETWORK_2, TileIns, TileOp};
use std::alloc::{AllocError, Global};

/// The registers of the operands of an operation, and of what is made.
const FIRST: u8 = 5;

const SECOND: u8 = 6;

const MADE: u8 = 7;

// `lw $r, 4v($0)`.
fn load_ins(register: u8, v: u32) -> TileIns
    requires register { register < 32 }
    requires value { v < MAX_NODES }
    ensures { result ≡ load_ins register v }
{
    TileIns::immediate(TileOp::Lw, register, 0, (4 * v) as u16)
}

// `sw $r, 4v($0)`.
fn store_ins(register: u8, v: u32) -> TileIns
    requires register { register < 32 }
    requires value { v < MAX_NODES }
    ensures { result ≡ store_ins register v }
{
    TileIns::immediate(TileOp::Sw, register, 0, (4 * v) as u16)
}

// `NAME $7, $5, $6`.
fn op_ins(op: FlowOp) -> TileIns
    ensures { result ≡ op_ins op }
{
    let (op, rs, rt) = match op {
        FlowOp::Add => (TileOp::Addu, FIRST, SECOND),
        FlowOp::Sub => (TileOp::Subu, FIRST, SECOND),
        FlowOp::Mul => (TileOp::Mul, FIRST, SECOND),
        FlowOp::MulHigh => (TileOp::Mulhi, FIRST, SECOND),
        FlowOp::MulHighUnsigned => (TileOp::Mulhu, FIRST, SECOND),
        FlowOp::And => (TileOp::And, FIRST, SECOND),
        FlowOp::Or => (TileOp::Or, FIRST, SECOND),
        FlowOp::Xor => (TileOp::Xor, FIRST, SECOND),
        FlowOp::Nor => (TileOp::Nor, FIRST, SECOND),
        FlowOp::Less => (TileOp::Slt, FIRST, SECOND),
        FlowOp::LessUnsigned => (TileOp::Sltu, FIRST, SECOND),
        FlowOp::ShiftLeft => (TileOp::Sllv, SECOND, FIRST),
        FlowOp::ShiftRight => (TileOp::Srlv, SECOND, FIRST),
        FlowOp::ShiftRightSigned => (TileOp::Srav, SECOND, FIRST),
    };
    TileIns::registers(op, MADE, rs, rt)
}

// `nop NET:SIDE>P`.
fn from_side(net: Net, side: Side) -> SwitchIns
    ensures { result ≡ from_side net side }
{
    let source = SwitchSource::Input(net.end(Dir::from(side)));
    SwitchIns::nop().with_route(net.end(Dir::P) as usize, source)
}

// `nop NET:P>SIDE`.
fn to_side(net: Net, side: Side) -> SwitchIns
    ensures { result ≡ to_side net side }
{
    let source = SwitchSource::Input(net.end(Dir::P));
    SwitchIns::nop().with_route(net.end(Dir::from(side)) as usize, source)
}

// The register of a network.
fn register_of(net: Net) -> u8
    ensures { result ≡ register_of net }
{
    match net {
        Net::One => NETWORK_1,
        Net::Two => NETWORK_2,
    }
}

// How many inputs stand before a node.
fn inputs_before(flow: &Flow, v: usize) -> usize
    requires { v < length flow.now.nodes }
    ensures { result ≡ inputs_in (take v flow.now.nodes) }
{
    let mut count = 0;
    for u in 0..v {
        count = with_input(flow.nodes[u], count);
    }
    count
}

// The tile of an input, at which its source stands.
fn source_tile(flow: &Flow, ports: &Ports, k: usize) -> u32
    requires input { k < inputs_in flow.now.nodes }
    requires ports { ArePorts flow.now ports.now }
    ensures value { result ≡ source_tile flow.now ports.now k }
    ensures inside { result < tiles_in flow.now }
{
    tile_at(flow, ports.source_of(k))
}

// The tile of an out, at which its sink stands.
fn sink_tile(flow: &Flow, ports: &Ports, i: usize) -> u32
    requires out { i < length flow.now.outs }
    requires ports { ArePorts flow.now ports.now }
    ensures value { result ≡ sink_tile flow.now ports.now i }
    ensures inside { result < tiles_in flow.now }
{
    tile_at(flow, ports.sink_of(i))
}

// The tile at which a node's value is made.
#[tactic(auto, unfolding(crate::specs::Compiled::home))]
fn home(flow: &Flow, ports: &Ports, v: u32) -> u32
    requires { NodeStands flow.now ports.now v }
    ensures value { result ≡ home flow.now ports.now v }
    ensures inside { result < tiles_in flow.now }
{
    match flow.nodes[v as usize] {
        Node::Input => source_tile(flow, ports, inputs_before(flow, v as usize)),
        Node::Const { .. } => v % tiles_in(flow),
        Node::Apply { .. } => v % tiles_in(flow),
    }
}

// One word from one tile to another, on network 1.
fn one_haul(alloc: Global, from: u32, to: u32) -> Result<Haul, AllocError>
    ensures { IfOk result (λ haul. haul ≡ one_haul from to) }
{
    Ok(Haul {
        from,
        net: Net::One,
        to: vec![in alloc; to]?,
    })
}

// A value goes from its home to a tile.
fn carry(
    alloc: Global,
    programs: &mut Programs,
    flow: &Flow,
    ports: &Ports,
    v: u32,
    t: u32,
) -> Result<(), GiveRefusal>
    requires stands { NodeStands flow.now ports.now v }
    requires tile { t < tiles_in flow.now }
    ensures gives { OnOk result (Gives (tiles_in flow.now) (carried flow.now ports.now v t) programs.old programs.new) }
    ensures too_many { result ≡ Err GiveRefusal.TooMany → Overflows (tiles_in flow.now) (carried flow.now ports.now v t) programs.old }
{
    law_giving();
    let (cols, rows) = (flow.cols, flow.rows);
    let from = home(flow, ports, v);
    let haul = one_haul(alloc, from, t)?;
    programs.give_tile(from, load_ins(NETWORK_1, v))?;
    give_tree(programs, cols, rows, &haul)?;
    programs.give_tile(t, store_ins(NETWORK_1, v))
}

// A value goes to a tile, unless the tile has it.
fn move_value(
    alloc: Global,
    programs: &mut Programs,
    places: &mut Places,
    flow: &Flow,
    ports: &Ports,
    v: u32,
    t: u32,
) -> Result<(), GiveRefusal>
    requires stands { NodeStands flow.now ports.now v }
    requires tile { t < tiles_in flow.now }
    ensures moved { (held : List Holding) → AreMarks flow.now places.old held →
        OnOk result (AreGiven flow.now (moved flow.now ports.now held v t) (with_value held v t) programs.old programs.new places.new) }
    ensures too_many { (held : List Holding) → AreMarks flow.now places.old held → result ≡ Err GiveRefusal.TooMany →
        Overflows (tiles_in flow.now) (moved flow.now ports.now held v t) programs.old }
{
    if !places.has(v, t) {
        carry(alloc, programs, flow, ports, v, t)?;
        places.put(v, t);
    }
    Ok(())
}

// An input is taken from its source, and stored at the tile there.
fn take_input(
    programs: &mut Programs,
    places: &mut Places,
    flow: &Flow,
    ports: &Ports,
    k: usize,
    v: u32,
) -> Result<(), GiveRefusal>
    requires input { k < inputs_in flow.now.nodes }
    requires stands { NodeStands flow.now ports.now v }
    ensures given { (held : List Holding) → AreMarks flow.now places.old held →
        OnOk result (AreGiven flow.now (taken_at flow.now (source_of ports.now k) v) (with_value held v (source_tile flow.now ports.now k)) programs.old programs.new places.new) }
    ensures too_many { result ≡ Err GiveRefusal.TooMany → Overflows (tiles_in flow.now) (taken_at flow.now (source_of ports.now k) v) programs.old }
{
    law_giving();
    let place = ports.source_of(k);
    let t = source_tile(flow, ports, k);
    programs.give_switch(t, from_side(place.net, place.side))?;
    programs.give_tile(t, store_ins(register_of(place.net), v))?;
    places.put(v, t);
    Ok(())
}

/// A node before which there are k inputs gives its parts where it is an input itself. Then so many inputs there are.
pub(crate) fn give_input(
    programs: &mut Programs,
    places: &mut Places,
    flow: &Flow,
    ports: &Ports,
    k: usize,
    v: u32,
    node: Node,
) -> Result<usize, GiveRefusal>
    requires inputs { with_input node k ≤ inputs_in flow.now.nodes }
    requires stands { NodeStands flow.now ports.now v }
    ensures count { IfOk result (λ next. next ≡ with_input node k) }
    ensures given { (held : List Holding) → AreMarks flow.now places.old held →
        OnOk result (AreGiven flow.now (input_parts flow.now ports.now k v node) (held_input flow.now ports.now held k v node) programs.old programs.new places.new) }
    ensures too_many { result ≡ Err GiveRefusal.TooMany → Overflows (tiles_in flow.now) (input_parts flow.now ports.now k v node) programs.old }
{
    law_giving();
    match node {
        Node::Input => {
            take_input(programs, places, flow, ports, k, v)?;
            Ok(k + 1)
        }
        Node::Const { .. } => Ok(k),
        Node::Apply { .. } => Ok(k),
    }
}

// A tile loads a word, and stores it as the value of a node.
fn give_const(programs: &mut Programs, t: u32, v: u32, word: u32) -> Result<(), GiveRefusal>
    requires { v < MAX_NODES }
    ensures gives { (n : ℕ) → OnOk result (Gives n (to_tile t (const_code v word)) programs.old programs.new) }
    ensures too_many { (n : ℕ) → result ≡ Err GiveRefusal.TooMany → Overflows n (to_tile t (const_code v word)) programs.old }
{
    law_giving();
    programs.give_load(t, MADE, word)?;
    programs.give_tile(t, store_ins(MADE, v))
}

// A tile that has both values does an operation, and stores what it makes as the value of a node.
fn give_operation(
    programs: &mut Programs,
    t: u32,
    v: u32,
    op: FlowOp,
    a: u32,
    b: u32,
) -> Result<(), GiveRefusal>
    requires value { v < MAX_NODES }
    requires first { a < MAX_NODES }
    requires second { b < MAX_NODES }
    ensures gives { (n : ℕ) → OnOk result (Gives n (to_tile t (apply_code v op a b)) programs.old programs.new) }
    ensures too_many { (n : ℕ) → result ≡ Err GiveRefusal.TooMany → Overflows n (to_tile t (apply_code v op a b)) programs.old }
{
    law_giving();
    programs.give_tile(t, load_ins(FIRST, a))?;
    programs.give_tile(t, load_ins(SECOND, b))?;
    programs.give_tile(t, op_ins(op))?;
    programs.give_tile(t, store_ins(MADE, v))
}

// The values of two nodes are moved to a tile, and an operation is done there.
fn give_apply(
    alloc: Global,
    programs: &mut Programs,
    places: &mut Places,
    flow: &Flow,
    ports: &Ports,
    v: u32,
    op: FlowOp,
    a: u32,
    b: u32,
) -> Result<(), GiveRefusal>
    requires stands { NodeStands flow.now ports.now v }
    requires first { a < v }
    requires second { b < v }
    ensures given { (held : List Holding) → AreMarks flow.now places.old held →
        OnOk result (AreGiven flow.now (node_parts flow.now ports.now held v (Node.Apply op a b)) (held_node flow.now ports.now held v (Node.Apply op a b)) programs.old programs.new places.new) }
    ensures too_many { (held : List Holding) → AreMarks flow.now places.old held → result ≡ Err GiveRefusal.TooMany →
        Overflows (tiles_in flow.now) (node_parts flow.now ports.now held v (Node.Apply op a b)) programs.old }
{
    law_giving();
    let t = home(flow, ports, v);
    move_value(alloc, programs, places, flow, ports, a, t)?;
    move_value(alloc, programs, places, flow, ports, b, t)?;
    give_operation(programs, t, v, op, a, b)?;
    places.put(v, t);
    Ok(())
}

/// A node that is no input makes its value at its home.
pub(crate) fn give_node(
    alloc: Global,
    programs: &mut Programs,
    places: &mut Places,
    flow: &Flow,
    ports: &Ports,
    v: u32,
    node: Node,
) -> Result<(), GiveRefusal>
    requires stands { NodeStands flow.now ports.now v }
    requires node { IsNode v node }
    ensures given { (held : List Holding) → AreMarks flow.now places.old held →
        OnOk result (AreGiven flow.now (node_parts flow.now ports.now held v node) (held_node flow.now ports.now held v node) programs.old programs.new places.new) }
    ensures too_many { (held : List Holding) → AreMarks flow.now places.old held → result ≡ Err GiveRefusal.TooMany →
        Overflows (tiles_in flow.now) (node_parts flow.now ports.now held v node) programs.old }
{
    law_giving();
    match node {
        Node::Input => Ok(()),
        Node::Const { word } => {
            let t = home(flow, ports, v);
            give_const(programs, t, v, word)?;
            places.put(v, t);
            Ok(())
        }
        Node::Apply { op, a, b } => give_apply(alloc, programs, places, flow, ports, v, op, a, b),
    }
}

/// An out is moved to the tile of its sink, which sends it there.
pub(crate) fn give_out(
    alloc: Global,
    programs: &mut Programs,
    places: &mut Places,
    flow: &Flow,
    ports: &Ports,
    i: usize,
    v: u32,
) -> Result<(), GiveRefusal>
    requires out { i < length flow.now.outs }
    requires stands { NodeStands flow.now ports.now v }
    ensures given { (held : List Holding) → AreMarks flow.now places.old held →
        OnOk result (AreGiven flow.now (given_at flow.now ports.now held (sink_of ports.now i) v) (with_value held v (sink_tile flow.now ports.now i)) programs.old programs.new places.new) }
    ensures too_many { (held : List Holding) → AreMarks flow.now places.old held → result ≡ Err GiveRefusal.TooMany →
        Overflows (tiles_in flow.now) (given_at flow.now ports.now held (sink_of ports.now i) v) programs.old }
{
    law_giving();
    let place = ports.sink_of(i);
    let t = sink_tile(flow, ports, i);
    move_value(alloc, programs, places, flow, ports, v, t)?;
    programs.give_tile(t, load_ins(register_of(place.net), v))?;
    programs.give_switch(t, to_side(place.net, place.side))
}
