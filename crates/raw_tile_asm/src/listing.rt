//! Listing a program as text.
ghost use Rattle.std.specs.Prelude.{◌≡◌, ◌≤◌, ◌++◌, ◌∷◌, [], codes, length, OnOk, IfOk, string_bytes};
ghost use Rattle.raw_tile_isa.specs.Table.{row_of};
ghost use Rattle.raw_tile_asm.specs.Listing.{register_text, signed_text, hex_text, branch_text, operand_text, line_text, listing};

use raw_asm::separator;
use raw_tile_isa::{MAX_TILE_CODE, Operand, TileIns};
use std::alloc::{AllocError, Global};

fn push_register(text: &mut String, register: u8) -> Result<(), AllocError>
    ensures { OnOk result (string_bytes text.new ≡ string_bytes text.old ++ register_text register) }
{
    write!(text, "${register}")
}

fn push_signed(text: &mut String, imm: u16) -> Result<(), AllocError>
    ensures { OnOk result (string_bytes text.new ≡ string_bytes text.old ++ signed_text imm) }
{
    if imm < 1 << 15 {
        write!(text, "{imm}")
    } else {
        let below = (1u32 << 16) - u32::from(imm);
        write!(text, "-{below}")
    }
}

#[tactic(auto, unfolding(raw_text::specs::Number::hex_digits))]
fn push_hex(text: &mut String, imm: u16) -> Result<(), AllocError>
    ensures { OnOk result (string_bytes text.new ≡ string_bytes text.old ++ hex_text imm) }
{
    write!(text, "0x{imm:04x}")
}

fn push_branch(text: &mut String, place: u32, imm: u16) -> Result<(), AllocError>
    requires { place ≤ MAX_TILE_CODE }
    ensures { OnOk result (string_bytes text.new ≡ string_bytes text.old ++ branch_text place imm) }
{
    let target = place + 1 + u32::from(imm);
    if imm < 1 << 15 {
        write!(text, "{target}")
    } else if target >= 1 << 16 {
        let target = target - (1 << 16);
        write!(text, "{target}")
    } else {
        let before = (1 << 16) - target;
        write!(text, "-{before}")
    }
}

// Appends an operand of the instruction at this place.
fn push_operand(
    text: &mut String,
    ins: TileIns,
    place: u32,
    form: Operand,
) -> Result<(), AllocError>
    requires { place ≤ MAX_TILE_CODE }
    ensures { OnOk result (string_bytes text.new ≡ string_bytes text.old ++ operand_text ins place form) }
{
    match form {
        Operand::Rd => push_register(text, ins.rd),
        Operand::Rs => push_register(text, ins.rs),
        Operand::Rt => push_register(text, ins.rt),
        Operand::Shift => {
            let amount = ins.sh;
            write!(text, "{amount}")
        }
        Operand::Signed => push_signed(text, ins.imm),
        Operand::Unsigned => push_hex(text, ins.imm),
        Operand::Branch => push_branch(text, place, ins.imm),
        Operand::Jump => {
            let target = ins.target;
            write!(text, "{target}")
        }
        Operand::Memory => {
            push_signed(text, ins.imm)?;
            text.push_str("(")?;
            push_register(text, ins.rs)?;
            text.push_str(")")
        }
    }
}

// Appends the line of the instruction at this place.
fn push_line(text: &mut String, ins: TileIns, place: u32) -> Result<(), AllocError>
    requires { place ≤ MAX_TILE_CODE }
    ensures { OnOk result (string_bytes text.new ≡ string_bytes text.old ++ line_text ins place) }
{
    text.push_str(ins.op.name())?;
    for (k, form) in ins.op.operands().iter().enumerate() {
        text.push_str(separator(k))?;
        push_operand(text, ins, place, *form)?;
    }
    Ok(())
}

// The lines of a program.
fn lines_of(alloc: Global, code: &[TileIns]) -> Result<String, AllocError>
    requires { length code.now ≤ MAX_TILE_CODE }
    ensures { IfOk result (λ text. string_bytes text ≡ listing code.now) }
{
    let mut text = String::new(alloc);
    for (place, ins) in code.iter().enumerate() {
        push_line(&mut text, *ins, place as u32)?;
        text.push_str("\n")?;
    }
    Ok(text)
}

/// The listing of a program: one line for each instruction, which `assemble_tile` reads back as it.
///
/// A line is the instruction's name, a blank, and its operands with a comma and a blank between them; it
/// ends with byte 10. Signed immediates and shift amounts are decimal, unsigned immediates are `0x` and
/// four lower case digits, and targets are decimal, signed for branches. Want of memory is the one refusal.
pub fn list_tile(alloc: Global, code: &[TileIns]) -> Result<Vec<u8>, AllocError>
    requires { length code.now ≤ MAX_TILE_CODE }
    ensures { IfOk result (λ bytes. bytes.items ≡ listing code.now) }
{
    let text = lines_of(alloc, code)?;
    Ok(text.into_bytes())
}
