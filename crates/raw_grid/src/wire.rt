//! A wire with its two ends.
ghost use Rattle.std.specs.Prelude.{◌≡◌, ◌≢◌, ℕ, ◌<◌, ◌≤◌, ◌^◌, ◌&&◌, ◌==◌, if◌then◌else◌, length, slice_index_or, Some, None, option_map, is_some, IfSome};
ghost use Rattle.std.specs.List.{position};
ghost use Rattle.std.specs.Option.{ForSome, option_or};
ghost use Rattle.std.specs.Int.{bit_at};

use crate::parts::WireId;

/// A wire from an output end of one processor to an input end of another, each by the number of
/// the processor and the index of the end.
#[derive(Clone, Copy)]
pub struct Wire {
    pub from: u32,
    pub output: u8,
    pub to: u32,
    pub input: u8,
}

/// The number of the wire to an input end of a processor.
pub fn find_input(wires: &[Wire], p: u32, end: u8) -> Option<usize>
    ensures value { result ≡ position (λ w. (w.to == p) && (w.input == end)) wires.now }
    ensures within { IfSome result (λ number. number < length wires.now) }
{
    wires.iter().position(|w| w.to == p && w.input == end)
}

/// The number of the wire from an output end of a processor.
pub fn find_output(wires: &[Wire], p: u32, end: u8) -> Option<usize>
    ensures value { result ≡ position (λ w. (w.from == p) && (w.output == end)) wires.now }
    ensures within { IfSome result (λ number. number < length wires.now) }
{
    wires.iter().position(|w| w.from == p && w.output == end)
}

/// A number as that of a wire.
pub fn wire_id(number: Option<usize>) -> Option<WireId>
    requires { ForSome number (λ n. n < 2 ^ 32) }
    ensures { option_map (λ w. w.0) result ≡ number }
{
    number.map(|n| WireId(n as u32))
}

/// The ends with one more, where it has a wire.
fn with_end(ends: u16, end: u8, has_wire: bool) -> u16
    requires { end < 10 }
    ensures same { bit_at result end ≡ (if has_wire then 1 else bit_at ends end) }
    ensures others { (i : ℕ) → i ≢ end → bit_at result i ≡ bit_at ends i }
{
    if has_wire { ends | 1 << end } else { ends }
}

// Notes that a wire is at an end, unless one is noted there.
fn note_first(found: &mut [Option<u32>; 10], end: u8, number: u32)
    ensures { (i : ℕ) → i < 10 → slice_index_or found.new i None ≡ option_or (slice_index_or found.old i None) (if end == i then Some number else None) }
{
    let end = usize::from(end);
    if end < 10 && found[end].is_none() {
        found[end] = Some(number);
    }
}

/// The numbers of the wires to the input ends of a processor, by the indices of the ends. Each wire is looked at once.
pub fn inputs_of(wires: &[Wire], p: u32) -> [Option<u32>; 10]
    requires { length wires.now < 2 ^ 32 }
    ensures { (i : ℕ) → i < 10 → slice_index_or result i None ≡ position (λ w. (w.to == p) && (w.input == i)) wires.now }
{
    let mut found = [None; 10];
    for number in 0..wires.len() {
        let wire = wires[number];
        if wire.to == p {
            note_first(&mut found, wire.input, number as u32);
        }
    }
    found
}

/// The numbers of the wires from the output ends of a processor, by the indices of the ends. Each wire is looked at once.
pub fn outputs_of(wires: &[Wire], p: u32) -> [Option<u32>; 10]
    requires { length wires.now < 2 ^ 32 }
    ensures { (i : ℕ) → i < 10 → slice_index_or result i None ≡ position (λ w. (w.from == p) && (w.output == i)) wires.now }
{
    let mut found = [None; 10];
    for number in 0..wires.len() {
        let wire = wires[number];
        if wire.from == p {
            note_first(&mut found, wire.output, number as u32);
        }
    }
    found
}

/// The input ends of a processor that have a wire, as bits by their indices.
pub fn input_ends(wires: &[Wire], p: u32) -> u16
    requires { length wires.now < 2 ^ 32 }
    ensures below { (i : ℕ) → i < 10 → bit_at result i ≡
        (if is_some (position (λ w. (w.to == p) && (w.input == i)) wires.now) then 1 else 0) }
    ensures above { (i : ℕ) → 10 ≤ i → bit_at result i ≡ 0 }
{
    let found = inputs_of(wires, p);
    let mut ends = 0;
    for end in 0..10u8 {
        ends = with_end(ends, end, found[usize::from(end)].is_some());
    }
    ends
}

/// The output ends of a processor that have a wire, as bits by their indices.
pub fn output_ends(wires: &[Wire], p: u32) -> u16
    requires { length wires.now < 2 ^ 32 }
    ensures below { (i : ℕ) → i < 10 → bit_at result i ≡
        (if is_some (position (λ w. (w.from == p) && (w.output == i)) wires.now) then 1 else 0) }
    ensures above { (i : ℕ) → 10 ≤ i → bit_at result i ≡ 0 }
{
    let found = outputs_of(wires, p);
    let mut ends = 0;
    for end in 0..10u8 {
        ends = with_end(ends, end, found[usize::from(end)].is_some());
    }
    ends
}
