//! The line of a tile's instruction.
ghost use Rattle.std.specs.Prelude.{◌≡◌, ◌+◌, ◌<◌, ◌≤◌, ◌++◌, false, codes, length};
ghost use Rattle.std.specs.Fmt.{digit_glyph};
ghost use Rattle.raw_tile_asm.specs.Listing.{signed_text, hex_text, branch_text, operand_text, line_text};

use crate::register::push_register;
use raw_asm::separator;
use raw_state_text::{LINE_SIZE, Line};
use raw_tile_isa::{MAX_TILE_CODE, Operand, TileIns};

// Appends 16 bits as a signed number.
fn push_signed(line: &mut Line, imm: u16)
    requires { length line.old + 21 ≤ LINE_SIZE }
    ensures text { line.new ≡ line.old ++ signed_text imm }
    ensures len { length line.new ≤ length line.old + 21 }
{
    if imm < 1 << 15 {
        line.push_number(u64::from(imm));
    } else {
        line.push_text(b"-");
        line.push_number((1 << 16) - u64::from(imm));
    }
}

// A hexadecimal digit.
fn hex_digit(value: u8) -> u8
    requires { value < 16 }
    ensures { result ≡ digit_glyph false value }
{
    if value < 10 {
        b'0' + value
    } else {
        b'a' + (value - 10)
    }
}

// Appends 16 bits in four hexadecimal digits.
#[tactic(auto, using(crate::proofs::HexDigits::four_digits))]
fn push_hex(line: &mut Line, imm: u16)
    requires { length line.old + 6 ≤ LINE_SIZE }
    ensures text { line.new ≡ line.old ++ hex_text imm }
    ensures len { length line.new ≡ length line.old + 6 }
{
    let first = hex_digit((imm / 4096) as u8);
    let second = hex_digit((imm / 256 % 16) as u8);
    let third = hex_digit((imm / 16 % 16) as u8);
    let last = hex_digit((imm % 16) as u8);
    line.push_text(b"0x");
    line.push_text(&[first, second, third, last]);
}

// Appends the number of the instruction to which a branch goes.
fn push_branch(line: &mut Line, place: u32, imm: u16)
    requires place { place ≤ MAX_TILE_CODE }
    requires room { length line.old + 21 ≤ LINE_SIZE }
    ensures text { line.new ≡ line.old ++ branch_text place imm }
    ensures len { length line.new ≤ length line.old + 21 }
{
    let target = u64::from(place) + 1 + u64::from(imm);
    if imm < 1 << 15 {
        line.push_number(target);
    } else if target >= 1 << 16 {
        line.push_number(target - (1 << 16));
    } else {
        line.push_text(b"-");
        line.push_number((1 << 16) - target);
    }
}

// Appends an operand of the instruction at this place.
fn push_operand(line: &mut Line, ins: TileIns, place: u32, form: Operand)
    requires place { place ≤ MAX_TILE_CODE }
    requires room { length line.old + 44 ≤ LINE_SIZE }
    ensures text { line.new ≡ line.old ++ operand_text ins place form }
    ensures len { length line.new ≤ length line.old + 44 }
{
    match form {
        Operand::Rd => push_register(line, b'$', ins.rd),
        Operand::Rs => push_register(line, b'$', ins.rs),
        Operand::Rt => push_register(line, b'$', ins.rt),
        Operand::Shift => line.push_number(u64::from(ins.sh)),
        Operand::Signed => push_signed(line, ins.imm),
        Operand::Unsigned => push_hex(line, ins.imm),
        Operand::Branch => push_branch(line, place, ins.imm),
        Operand::Jump => line.push_number(u64::from(ins.target)),
        Operand::Memory => {
            push_signed(line, ins.imm);
            line.push_text(b"(");
            push_register(line, b'$', ins.rs);
            line.push_text(b")");
        }
    }
}

/// Appends the line of a tile's instruction that stands at a place of its program, counted in instructions: its name and
/// its operands, without the newline.
#[tactic(auto, using(raw_tile_asm::proofs::Rows::row_name))]
pub fn push_tile_line(line: &mut Line, ins: TileIns, place: u32)
    requires place { place ≤ MAX_TILE_CODE }
    requires room { length line.old + 144 ≤ LINE_SIZE }
    ensures text { line.new ≡ line.old ++ line_text ins place }
    ensures len { length line.new ≤ length line.old + 144 }
{
    line.push_text(ins.op.name().as_bytes());
    for (k, form) in ins.op.operands().iter().enumerate() {
        line.push_text(separator(k).as_bytes());
        push_operand(line, ins, place, *form);
    }
}
