//! What a name stands for in tile text.
ghost use Rattle.std.specs.Prelude.{◌≡◌, IfSome};
ghost use Rattle.std.specs.Option.{option_map};
ghost use Rattle.raw_tile_asm.specs.Form.{form, form_named, FillsOwn};

use crate::names::Names;
use raw_tile_isa::{Operand, TileOp};

/// An instruction and the operands of its text; a field in which none of them stands is 0.
#[derive(Clone, Copy)]
pub struct TextForm {
    pub op: TileOp,
    pub operands: &'static [Operand],
}

/// The form of a name. `nop`, `move` and `b` are short for `sll`, `addu` and `beq` with registers 0; each
/// other name is that of an instruction.
#[tactic(auto, unfolding(crate::specs::Form::form_named, raw_tile_isa::specs::Table::op_named))]
pub fn form_named(names: &Names, name: &[u8]) -> Option<TextForm>
    ensures value { option_map (λ f. form f.op f.operands.now) result ≡ form_named name.now }
    ensures own { IfSome result (λ f. FillsOwn (form f.op f.operands.now)) }
{
    if name == b"nop".as_slice() {
        return Some(TextForm {
            op: TileOp::Sll,
            operands: &[],
        });
    }
    if name == b"move".as_slice() {
        return Some(TextForm {
            op: TileOp::Addu,
            operands: &[Operand::Rd, Operand::Rs],
        });
    }
    if name == b"b".as_slice() {
        return Some(TextForm {
            op: TileOp::Beq,
            operands: &[Operand::Branch],
        });
    }
    let op = names.get(name)?;
    Some(TextForm {
        op,
        operands: op.operands(),
    })
}
