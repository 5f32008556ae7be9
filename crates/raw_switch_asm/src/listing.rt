//! Listing a program as text.
ghost use Rattle.std.specs.Prelude.{◌≡◌, ◌<◌, ◌≤◌, ◌++◌, ◌∷◌, [], length, IfOk, IfSome, OnOk, string_bytes};
ghost use Rattle.std.specs.Fmt.{decimal};
ghost use Rattle.raw_switch_isa.specs.Table.{row_of};
ghost use Rattle.raw_switch_isa.specs.Ends.{IsSource, route_source};
ghost use Rattle.raw_switch_asm.specs.Listing.{register_text, network_text, side_letter, end_text, move_text, operand_text, operands_text, source_text, route_text, routed_text, routes_text, line_text, listing};

use crate::letters::SIDES;
use raw_asm::separator;
use raw_switch_isa::{MAX_SWITCH_CODE, SwitchIns, SwitchOperand, SwitchSource};
use std::alloc::{AllocError, Global};

// Appends a register.
fn push_register(text: &mut String, register: u8) -> Result<(), AllocError>
    ensures { OnOk result (string_bytes text.new ≡ string_bytes text.old ++ register_text register) }
{
    write!(text, "r{register}")
}

// Appends the network of an end, with its `:`.
fn push_network(text: &mut String, end: u8) -> Result<(), AllocError>
    ensures { OnOk result (string_bytes text.new ≡ string_bytes text.old ++ network_text end) }
{
    text.push_str(if end < 5 { "1:" } else { "2:" })
}

// The letter of the side of an end.
#[tactic(auto, using(crate::proofs::Written::letter_ascii))]
fn side_letter(end: u8) -> u8
    ensures letter { result ≡ side_letter end }
    ensures ascii { result < 128 }
{
    SIDES[(end % 5) as usize]
}

// Appends the letter of the side of an end.
fn push_side(text: &mut String, end: u8) -> Result<(), AllocError>
    ensures { OnOk result (string_bytes text.new ≡ string_bytes text.old ++ side_letter end ∷ []) }
{
    text.push(char::from(side_letter(end)))
}

// Appends what a move takes its value from.
fn push_move(text: &mut String, src: u8) -> Result<(), AllocError>
    ensures { OnOk result (string_bytes text.new ≡ string_bytes text.old ++ move_text src) }
{
    if src < 4 {
        return push_register(text, src);
    }
    push_network(text, src - 4)?;
    push_side(text, src - 4)
}

// Appends an operand.
fn push_operand(text: &mut String, ins: SwitchIns, operand: SwitchOperand) -> Result<(), AllocError>
    ensures { OnOk result (string_bytes text.new ≡ string_bytes text.old ++ operand_text ins operand) }
{
    match operand {
        SwitchOperand::Rd => push_register(text, ins.rd),
        SwitchOperand::Src => push_move(text, ins.src),
        SwitchOperand::Target => {
            let target = ins.target;
            write!(text, "{target}")
        }
    }
}

// Appends the operands.
fn push_operands(text: &mut String, ins: SwitchIns) -> Result<(), AllocError>
    ensures { OnOk result (string_bytes text.new ≡ string_bytes text.old ++ operands_text ins (row_of ins.op).operands) }
{
    for (place, operand) in ins.op.operands().iter().enumerate() {
        text.push_str(separator(place))?;
        push_operand(text, ins, *operand)?;
    }
    Ok(())
}

// Appends what a route takes its value from.
fn push_source(text: &mut String, source: SwitchSource) -> Result<(), AllocError>
    ensures { OnOk result (string_bytes text.new ≡ string_bytes text.old ++ source_text source) }
{
    match source {
        SwitchSource::Register(register) => push_register(text, register),
        SwitchSource::Input(input) => push_side(text, input),
    }
}

// Appends a route to an output.
fn push_route(text: &mut String, output: u8, source: SwitchSource) -> Result<(), AllocError>
    ensures { OnOk result (string_bytes text.new ≡ string_bytes text.old ++ route_text output source) }
{
    push_network(text, output)?;
    push_source(text, source)?;
    text.push_str(">")?;
    push_side(text, output)
}

// Appends the route of an output behind a blank, where it has one.
fn push_routed(
    text: &mut String,
    output: u8,
    source: Option<SwitchSource>,
) -> Result<(), AllocError>
    ensures { OnOk result (string_bytes text.new ≡ string_bytes text.old ++ routed_text output source) }
{
    if let Some(source) = source {
        text.push_str(" ")?;
        push_route(text, output, source)?;
    }
    Ok(())
}

// Appends the routes.
fn push_routes(text: &mut String, ins: SwitchIns) -> Result<(), AllocError>
    ensures { OnOk result (string_bytes text.new ≡ string_bytes text.old ++ routes_text ins) }
{
    for output in 0..10u8 {
        push_routed(text, output, ins.route_source(output as usize))?;
    }
    Ok(())
}

// Appends the line of an instruction, and a newline.
#[tactic(auto, unfolding(crate::specs::Listing::line_text))]
fn push_line(text: &mut String, ins: SwitchIns) -> Result<(), AllocError>
    ensures { OnOk result (string_bytes text.new ≡ string_bytes text.old ++ (line_text ins ++ 10 ∷ [])) }
{
    text.push_str(ins.op.name())?;
    push_operands(text, ins)?;
    push_routes(text, ins)?;
    text.push_str("\n")
}

/// The listing of a program: a line for each instruction, with its name, its operands and its routes.
pub fn list_switch(alloc: Global, code: &[SwitchIns]) -> Result<Vec<u8>, AllocError>
    requires { length code.now ≤ MAX_SWITCH_CODE }
    ensures { IfOk result (λ bytes. bytes.items ≡ listing code.now) }
{
    let mut text = String::new(alloc);
    for ins in code {
        push_line(&mut text, *ins)?;
    }
    Ok(text.into_bytes())
}
