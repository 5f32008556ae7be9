//! The ends that an instruction names.
ghost use Rattle.std.specs.Prelude.{◌≡◌, ℕ, ◌<◌, ◌≤◌, true, false, ◌&&◌, ◌==◌, ◌↔◌, IsTrue, IsBitSet, IfSome, filter};
ghost use Rattle.std.specs.List.{list_all};
ghost use Rattle.raw_switch_isa.specs.Ends.{ends, has_end, is_from_input, is_used_input, is_filled, inputs_of, outputs_of, IsSource};

use crate::instruction::{SwitchIns, SwitchSource};

/// Whether a word of ends has the end with this index.
pub fn has_end(ends: u16, end: usize) -> bool
    requires { end < 16 }
    ensures bit { result ≡ has_end ends end }
    ensures set { IsTrue result ↔ IsBitSet ends end }
{
    ends >> end & 1 == 1
}

/// The least end of a word from an index on; 10 or more where it has none there.
#[inline(always)]
pub fn next_end(word: u16, from: usize) -> usize
    requires { from ≤ 10 }
    ensures there { result < 10 → has_end word result ≡ true }
    ensures least { (end : ℕ) → from ≤ end → end < result → has_end word end ≡ false }
    ensures later { from ≤ result }
    ensures few { result ≤ 26 }
{
    let rest = word >> from;
    if rest == 0 {
        10
    } else {
        from + rest.trailing_zeros() as usize
    }
}

/// Whether each end of a word of ends is in another.
pub fn are_within(used: u16, wired: u16) -> bool
    ensures { result ≡ list_all (has_end wired) (filter (has_end used) ends) }
{
    for end in 0..10 {
        if has_end(used, end) && !has_end(wired, end) {
            return false;
        }
    }
    true
}

// The input that a value comes from, alone in a word of ends; no end where it comes from no input.
fn input_end(source: Option<SwitchSource>) -> u16
    requires { IfSome source IsSource }
    ensures { (end : ℕ) → has_end result end ≡ is_from_input end source }
{
    match source {
        Some(SwitchSource::Input(input)) => 1 << input,
        Some(SwitchSource::Register(_)) | None => 0,
    }
}

// The output alone in a word of ends, where it is filled.
fn output_end(ins: &SwitchIns, output: usize) -> u16
    requires { output < 10 }
    ensures { (end : ℕ) → has_end result end ≡ (is_filled ins.now output && output == end) }
{
    if ins.route_source(output).is_some() {
        1 << output
    } else {
        0
    }
}

/// The inputs that routes or a `move` name.
pub fn inputs(ins: &SwitchIns) -> u16
    // Bit by bit, and no bit past the last end.
    ensures bits { (end : ℕ) → has_end result end ≡ is_used_input ins.now end }
    ensures listed { filter (has_end result) ends ≡ inputs_of ins.now }
{
    let mut word = input_end(ins.move_source());
    for output in 0..10 {
        word |= input_end(ins.route_source(output));
    }
    word
}

/// The outputs with a route.
pub fn outputs(ins: &SwitchIns) -> u16
    // Bit by bit, and no bit past the last end.
    ensures bits { (end : ℕ) → has_end result end ≡ is_filled ins.now end }
    ensures listed { filter (has_end result) ends ≡ outputs_of ins.now }
{
    let routes = &ins.routes;
    let mut word = 0;
    for output in 0..routes.len() {
        word |= output_end(ins, output);
    }
    word
}
