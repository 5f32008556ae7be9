//! The operands of a statement.
ghost use Rattle.std.specs.Prelude.{◌≡◌, ◌<◌, ◌≤◌, ◌^◌, length, IfSome, IfOk};
ghost use Rattle.raw_asm.specs.Tokens.{tokens_of};
ghost use Rattle.raw_asm.specs.Labels.{place_in};
ghost use Rattle.raw_switch_isa.specs.Table.{row_of, uses, is_rd, is_src, is_target};
ghost use Rattle.raw_switch_isa.specs.Instruction.{IsField};
ghost use Rattle.raw_switch_isa.specs.Ends.{IsSource};
ghost use Rattle.raw_switch_asm.specs.Operand.{move_source_of, instruction_number, field_place, rd_of, src_of, target_field};

use crate::letters::{end, register};
use raw_asm::{AsmKind, Labels, Target, Tokens, read_target};
use raw_switch_isa::{SwitchOp, SwitchOperand, SwitchSource};

// What a move takes its value from.
fn move_source(token: &[u8]) -> Option<SwitchSource>
    ensures source { result ≡ move_source_of token.now }
    ensures within { IfSome result IsSource }
{
    match register(token) {
        Some(register) => Some(SwitchSource::Register(register)),
        None => Some(SwitchSource::Input(end(token)?)),
    }
}

// The instruction number that a target names.
fn instruction_number(target: Target) -> Result<u16, AsmKind>
    ensures { result ≡ instruction_number target }
{
    match target {
        Target::Label(place) => Ok((place & 0xffff) as u16),
        Target::Number(number) => u16::try_from(number).map_err(|_| AsmKind::RangeOf),
    }
}

// The place of the operand for the field rd.
fn rd_place(op: SwitchOp) -> Option<usize>
    ensures { result ≡ field_place is_rd op }
{
    op.operands()
        .iter()
        .position(|operand| matches!(operand, SwitchOperand::Rd))
}

// The place of the operand for the field src.
fn src_place(op: SwitchOp) -> Option<usize>
    ensures { result ≡ field_place is_src op }
{
    op.operands()
        .iter()
        .position(|operand| matches!(operand, SwitchOperand::Src))
}

// The place of the operand for the field target.
fn target_place(op: SwitchOp) -> Option<usize>
    ensures { result ≡ field_place is_target op }
{
    op.operands()
        .iter()
        .position(|operand| matches!(operand, SwitchOperand::Target))
}

// The field rd of a statement with the operands of its operation.
#[tactic(auto, unfolding(crate::specs::Operand::rd_of))]
pub(crate) fn rd(op: SwitchOp, tokens: &Tokens<'_>) -> Result<u8, AsmKind>
    requires { length (row_of op).operands ≤ length (tokens_of tokens.now) }
    ensures value { result ≡ rd_of op (tokens_of tokens.now) }
    ensures field { IfOk result (IsField (uses is_rd op) 4) }
{
    match rd_place(op) {
        Some(place) => register(tokens.at(place)).ok_or(AsmKind::BadOperand),
        None => Ok(0),
    }
}

// The field src of a statement with the operands of its operation.
#[tactic(auto, unfolding(crate::specs::Operand::src_of))]
pub(crate) fn src(op: SwitchOp, tokens: &Tokens<'_>) -> Result<u8, AsmKind>
    requires { length (row_of op).operands ≤ length (tokens_of tokens.now) }
    ensures value { result ≡ src_of op (tokens_of tokens.now) }
    ensures field { IfOk result (IsField (uses is_src op) 14) }
{
    match src_place(op) {
        Some(place) => {
            let source = move_source(tokens.at(place)).ok_or(AsmKind::BadOperand)?;
            Ok(source.field())
        }
        None => Ok(0),
    }
}

// The field target of a statement with the operands of its operation.
#[tactic(auto, unfolding(crate::specs::Operand::target_field))]
pub(crate) fn target(labels: &Labels<'_>, op: SwitchOp, tokens: &Tokens<'_>) -> Result<u16, AsmKind>
    requires { length (row_of op).operands ≤ length (tokens_of tokens.now) }
    ensures value { result ≡ target_field (place_in labels.now) op (tokens_of tokens.now) }
    ensures field { IfOk result (IsField (uses is_target op) (2 ^ 16)) }
{
    match target_place(op) {
        Some(place) => instruction_number(read_target(labels, tokens.at(place))?),
        None => Ok(0),
    }
}
