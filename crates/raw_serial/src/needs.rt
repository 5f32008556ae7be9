//! What a processor needs for its next step: values on the wires that it takes from, and room on
//! those that it sends to.
ghost use Rattle.std.specs.Prelude.{◌≡◌, ℕ, ◌<◌, ◌≤◌, ◌&&◌, [], ◌∷◌, ◌++◌, false, Some, None, length, is_some, slice_index_or, IfOk, IfErr, IfSome, option_map};
ghost use Rattle.std.specs.List.{All, flat_map, find, list_any};
ghost use Rattle.std.specs.Option.{option_to_list};
ghost use Rattle.raw_switch_isa.specs.Ends.{ends};
ghost use Rattle.raw_network.specs.Network.{has_values, count_of};
ghost use Rattle.raw_network.specs.Waits.{lacks_values};
ghost use Rattle.raw_grid.specs.Wires.{wires_of};
ghost use Rattle.raw_model.specs.Local.{Local};
ghost use Rattle.raw_tile.specs.Given.{values_of};
ghost use Rattle.raw_processor.specs.Given.{taken_by, sent_by, wires_in};
ghost use Rattle.raw_serial.specs.Needs.{AreNeedsOf, AreNeeds, IsTaken, IsKept, unmet_of};

use crate::need::Need;
use crate::wires::Wires;
use arrayvec::ArrayVec;
use raw_grid::WireId;
use raw_model::Set;
use raw_processor::{EndWires, Needs, TileWires};
use raw_tile::TileGiven;

/// Takes the values of a tile's next step from their wires, where it has all that it needs, and else
/// says which wire it waits for first.
#[inline(always)]
pub fn take_operands(
    set: &Set,
    ends: &EndWires,
    needs: TileWires,
    wires: &mut Wires,
) -> Result<TileGiven, WireId>
    requires needs { AreNeeds set.now ends.now (taken_by needs) (sent_by needs) }
    requires wires { length wires.old ≡ length (wires_of set.now.topo) }
    ensures met { (p : ℕ) (l : Local) → AreNeedsOf set.now p l ends.now (taken_by needs) (sent_by needs) →
        IfOk result (λ given. IsTaken set.now p l wires.old wires.new (values_of given)) }
    ensures first { IfOk result (λ given. is_some given.a ≡ is_some needs.first) }
    ensures second { IfOk result (λ given. is_some given.b ≡ is_some needs.second) }
    ensures unmet { (p : ℕ) (l : Local) → AreNeedsOf set.now p l ends.now (taken_by needs) (sent_by needs) →
        IfErr result (λ wire. IsKept set.now p l wires.old wires.new wire.0) }
{
    if let Some(wire) = unmet_by_tile(set, ends, needs, wires) {
        return Err(wire);
    }
    Ok(wires.take_pair(needs.first, needs.second))
}

/// The wire that a tile waits for first, if it does not have all that it needs.
#[inline(always)]
pub(crate) fn unmet_by_tile(
    set: &Set,
    ends: &EndWires,
    needs: TileWires,
    wires: &Wires,
) -> Option<WireId>
    requires needs { AreNeeds set.now ends.now (taken_by needs) (sent_by needs) }
    requires wires { length wires.now ≡ length (wires_of set.now.topo) }
    ensures { (p : ℕ) (l : Local) → AreNeedsOf set.now p l ends.now (taken_by needs) (sent_by needs) →
        option_map (λ wire. wire.0) result ≡ unmet_of set.now p l wires.now }
{
    let depth = usize::from(set.depth);
    if !wires.has_pair(needs.first, needs.second) {
        return lacking(set, ends, needs, wires);
    }
    if wires.has_place(depth, needs.sent) {
        return None;
    }
    match needs.sent {
        Some(wire) => Some(WireId(wire)),
        None => None,
    }
}

// The wire that a tile waits for first, where it lacks a value. Where it takes one value, that is
// the value's wire.
#[inline(always)]
fn lacking(set: &Set, ends: &EndWires, needs: TileWires, wires: &Wires) -> Option<WireId>
    requires needs { AreNeeds set.now ends.now (taken_by needs) (sent_by needs) }
    requires wires { length wires.now ≡ length (wires_of set.now.topo) }
    requires lacks { has_values (taken_by needs) wires.now ≡ false }
    ensures { (p : ℕ) (l : Local) → AreNeedsOf set.now p l ends.now (taken_by needs) (sent_by needs) →
        option_map (λ wire. wire.0) result ≡ unmet_of set.now p l wires.now }
{
    if let Some(wire) = only(needs.first, needs.second) {
        return Some(WireId(wire));
    }
    let takes = listed(needs.first, needs.second);
    match first_empty(&ends.inputs, takes.as_slice(), wires) {
        Some(wire) => Some(WireId(wire)),
        None => None,
    }
}

// The one wire of these, where there is one.
fn only(first: Option<u32>, second: Option<u32>) -> Option<u32>
    ensures { IfSome result (λ w. option_to_list first ++ option_to_list second ≡ w ∷ []) }
{
    match first {
        Some(wire) => match second {
            Some(_) => None,
            None => Some(wire),
        },
        None => second,
    }
}

/// The wire that a processor waits for first, where these are the ends that it takes from and sends
/// to, if it does not have all that it needs.
#[inline(always)]
pub fn unmet_at(set: &Set, ends: &EndWires, needs: Needs, wires: &Wires) -> Option<WireId>
    requires needs { AreNeeds set.now ends.now (wires_in needs.inputs ends.now.inputs) (wires_in needs.outputs ends.now.outputs) }
    requires wires { length wires.now ≡ length (wires_of set.now.topo) }
    ensures { (p : ℕ) (l : Local) →
        AreNeedsOf set.now p l ends.now (wires_in needs.inputs ends.now.inputs) (wires_in needs.outputs ends.now.outputs) →
        option_map (λ wire. wire.0) result ≡ unmet_of set.now p l wires.now }
{
    if let Some(wire) = wires.first_failing(Need::Value, needs.inputs, &ends.inputs) {
        return Some(WireId(wire));
    }
    let room = Need::Room {
        depth: usize::from(set.depth),
    };
    match wires.first_failing(room, needs.outputs, &ends.outputs) {
        Some(wire) => Some(WireId(wire)),
        None => None,
    }
}

// These wires as a list.
fn listed(first: Option<u32>, second: Option<u32>) -> ArrayVec<u32, 10>
    ensures { result.items ≡ option_to_list first ++ option_to_list second }
{
    let mut wires = ArrayVec::new();
    if let Some(wire) = first {
        wires.push(wire);
    }
    if let Some(wire) = second {
        wires.push(wire);
    }
    wires
}

// The first of these inputs that holds fewer values than are taken from it.
fn first_empty(inputs: &[Option<u32>; 10], takes: &[u32], wires: &Wires) -> Option<u32>
    requires { (end : ℕ) → end < 10 →
        IfSome (slice_index_or inputs.now end None) (λ w. w < length wires.now) }
    ensures { result ≡ find (lacks_values takes.now wires.now) (flat_map (λ end. option_to_list (slice_index_or inputs.now end None)) ends) }
{
    for end in 0..10 {
        let input = wire_at(inputs, end);
        if lacks_values(input, takes, wires) {
            return input;
        }
    }
    None
}

// Whether an input has a wire that holds fewer values than are taken from it.
fn lacks_values(input: Option<u32>, takes: &[u32], wires: &Wires) -> bool
    requires { IfSome input (λ w. w < length wires.now) }
    ensures { result ≡ list_any (lacks_values takes.now wires.now) (option_to_list input) }
{
    match input {
        Some(wire) => wires.held(wire) < times(takes, wire),
        None => false,
    }
}

// The wire at an end.
fn wire_at(wires: &[Option<u32>; 10], end: usize) -> Option<u32>
    requires { end < 10 }
    ensures { result ≡ slice_index_or wires.now end None }
{
    wires[end]
}

// How often a wire stands in a list.
fn times(wires: &[u32], w: u32) -> usize
    ensures value { result ≡ count_of w wires.now }
    ensures short { result ≤ length wires.now }
{
    let mut n = 0;
    for v in wires {
        if *v == w {
            n += 1;
        }
    }
    n
}
