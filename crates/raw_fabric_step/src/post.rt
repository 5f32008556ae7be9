//! Where a processor of a fabric stands, and where its wires lead.

use raw_fabric_rule::SIDES;
use raw_processor::EndWires;

/// What stands at the other side of an end: the wire, the processor there, and the number of its end.
///
/// Inputs have the numbers of their end indices, outputs `END_COUNT` more.
#[derive(Clone, Copy, PartialEq, Eq)]
pub struct Side {
    /// The number of the wire.
    pub wire: u32,
    /// The number of the processor at the wire's other end.
    pub other: u32,
    /// The number of that end.
    pub end: u8,
}

/// A processor of a pass, with what no step changes.
#[derive(Clone, Copy)]
pub struct Post<'f> {
    /// The processor's number.
    pub p: u32,
    /// Its place among the processors of its pass.
    pub index: usize,
    /// How many processors the grid has: as many status words stand before the data words.
    pub processors: u32,
    /// The most values that a wire holds: at least 1, and fewer than `PLACES`.
    pub depth: u64,
    /// The wires at its ends.
    pub ends: &'f EndWires,
    /// The other side of each of its ends that has a wire, by the end's number.
    pub sides: &'f [Side; SIDES],
}
