//! The line of a switch's instruction.
ghost use Rattle.std.specs.Prelude.{◌≡◌, ◌+◌, ◌*◌, ◌≤◌, ◌++◌, ◌∷◌, [], length};
ghost use Rattle.raw_switch_isa.specs.Table.{row_of};
ghost use Rattle.raw_switch_asm.specs.Listing.{network_text, side_letter, move_text, operand_text, operands_text, source_text, route_text, routed_text, routes_text, line_text};

use crate::register::push_register;
use raw_asm::separator;
use raw_state_text::{LINE_SIZE, Line};
use raw_switch_isa::{SwitchIns, SwitchOperand, SwitchSource};

// The letters of the sides by the indices of their ends in a network.
const SIDES: &[u8; 5] = b"NESWP";

// Appends the network of an end, with its `:`.
fn push_network(line: &mut Line, end: u8)
    requires { length line.old + 2 ≤ LINE_SIZE }
    ensures text { line.new ≡ line.old ++ network_text end }
    ensures len { length line.new ≡ length line.old + 2 }
{
    if end < 5 {
        line.push_text(b"1:");
    } else {
        line.push_text(b"2:");
    }
}

// Appends the letter of the side of an end.
fn push_side(line: &mut Line, end: u8)
    requires { length line.old + 1 ≤ LINE_SIZE }
    ensures text { line.new ≡ line.old ++ side_letter end ∷ [] }
    ensures len { length line.new ≡ length line.old + 1 }
{
    let letter = SIDES[(end % 5) as usize];
    line.push_text(&[letter]);
}

// Appends what a move takes its value from.
fn push_move(line: &mut Line, src: u8)
    requires { length line.old + 21 ≤ LINE_SIZE }
    ensures text { line.new ≡ line.old ++ move_text src }
    ensures len { length line.new ≤ length line.old + 20 }
{
    if src < 4 {
        push_register(line, b'r', src);
    } else {
        push_network(line, src - 4);
        push_side(line, src - 4);
    }
}

// Appends an operand.
fn push_operand(line: &mut Line, ins: SwitchIns, operand: SwitchOperand)
    requires { length line.old + 21 ≤ LINE_SIZE }
    ensures text { line.new ≡ line.old ++ operand_text ins operand }
    ensures len { length line.new ≤ length line.old + 20 }
{
    match operand {
        SwitchOperand::Rd => push_register(line, b'r', ins.rd),
        SwitchOperand::Src => push_move(line, ins.src),
        SwitchOperand::Target => line.push_number(u64::from(ins.target)),
    }
}

// Appends the operands.
#[tactic(auto, using(raw_switch_asm::proofs::CutLine::is_name))]
fn push_operands(line: &mut Line, ins: SwitchIns)
    requires { length line.old + 45 ≤ LINE_SIZE }
    ensures text { line.new ≡ line.old ++ operands_text ins (row_of ins.op).operands }
    ensures len { length line.new ≤ length line.old + 44 }
{
    for (place, operand) in ins.op.operands().iter().enumerate() {
        line.push_text(separator(place).as_bytes());
        push_operand(line, ins, *operand);
    }
}

// Appends what a route takes its value from.
fn push_source(line: &mut Line, source: SwitchSource)
    requires { length line.old + 21 ≤ LINE_SIZE }
    ensures text { line.new ≡ line.old ++ source_text source }
    ensures len { length line.new ≤ length line.old + 4 }
{
    match source {
        SwitchSource::Register(register) => push_register(line, b'r', register),
        SwitchSource::Input(input) => push_side(line, input),
    }
}

// Appends a route to an output.
fn push_route(line: &mut Line, output: u8, source: SwitchSource)
    requires { length line.old + 23 ≤ LINE_SIZE }
    ensures text { line.new ≡ line.old ++ route_text output source }
    ensures len { length line.new ≤ length line.old + 8 }
{
    push_network(line, output);
    push_source(line, source);
    line.push_text(b">");
    push_side(line, output);
}

// Appends the route of an output behind a blank, where it has one.
fn push_routed(line: &mut Line, output: u8, source: Option<SwitchSource>)
    requires { length line.old + 24 ≤ LINE_SIZE }
    ensures text { line.new ≡ line.old ++ routed_text output source }
    ensures len { length line.new ≤ length line.old + 9 }
{
    if let Some(source) = source {
        line.push_text(b" ");
        push_route(line, output, source);
    }
}

// Appends the routes.
fn push_routes(line: &mut Line, ins: SwitchIns)
    requires { length line.old + 105 ≤ LINE_SIZE }
    ensures text { line.new ≡ line.old ++ routes_text ins }
    ensures len { length line.new ≤ length line.old + 90 }
{
    for output in 0..10u8 {
        push_routed(line, output, ins.route_source(output as usize));
    }
}

/// Appends the line of a switch's instruction: its name, its operands and its routes, without the newline.
#[tactic(auto, using(raw_switch_asm::proofs::CutLine::is_name), unfolding(raw_switch_asm::specs::Listing::line_text))]
pub fn push_switch_line(line: &mut Line, ins: SwitchIns)
    requires { length line.old + 154 ≤ LINE_SIZE }
    ensures text { line.new ≡ line.old ++ line_text ins }
    ensures len { length line.new ≤ length line.old + 139 }
{
    line.push_text(ins.op.name().as_bytes());
    push_operands(line, ins);
    push_routes(line, ins);
}
