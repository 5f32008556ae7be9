//! What a statement of tile text gives.
ghost use Rattle.std.specs.Prelude.{◌≡◌, ◌<◌, ◌≤◌, ◌^◌, [], ◌∷◌, length, drop, slice_index_or, IfOk, Some};
ghost use Rattle.raw_text.specs.Number.{number_of};
ghost use Rattle.raw_tile_isa.specs.Instruction.{IsTileIns};
ghost use Rattle.raw_asm.specs.Emitted.{emitted, Gives};
ghost use Rattle.raw_asm.specs.Tokens.{tokens_of};
ghost use Rattle.raw_asm.specs.Labels.{place_in};
ghost use Rattle.raw_tile_asm.specs.Form.{form, form_named, FillsOwn};
ghost use Rattle.raw_tile_asm.specs.Statement.{instruction_of, operands_of, named_code, load_code, load_statement, word_statement, load_size};

use crate::forms::{TextForm, form_named};
use crate::names::Names;
use crate::operands::{Fields, register, with_operand};
use raw_asm::{AsmKind, Emitted, Labels, Tokens};
use raw_text::number;
use raw_tile_isa::{NETWORK_1, NETWORK_2, TileIns, TileOp, decode, is_one, li};

// The fields that the operands of a form fill.
fn operands(
    labels: &Labels<'_>,
    place: u32,
    text_form: &TextForm,
    tokens: &Tokens<'_>,
) -> Result<Fields, AsmKind>
    requires place { place < 2 ^ 31 }
    requires own { FillsOwn (form text_form.now.op text_form.now.operands.now) }
    ensures value { result ≡ operands_of (place_in labels.now) place
        (form text_form.now.op text_form.now.operands.now) (tokens_of tokens.now) }
    ensures fits { IfOk result (λ fields. IsTileIns (instruction_of text_form.now.op fields)) }
{
    let forms = text_form.operands;
    if tokens.len() != forms.len() {
        return Err(AsmKind::BadOperand);
    }
    let mut fields = Fields {
        rs: 0,
        rt: 0,
        rd: 0,
        sh: 0,
        imm: 0,
        target: 0,
    };
    for (k, operand) in forms.iter().enumerate() {
        fields = with_operand(labels, place, *operand, tokens.at(k), fields)?;
    }
    Ok(fields)
}

fn instruction(op: TileOp, fields: Fields) -> TileIns
    requires { IsTileIns (instruction_of op fields) }
    ensures { result ≡ instruction_of op fields }
{
    TileIns {
        op,
        rs: fields.rs,
        rt: fields.rt,
        rd: fields.rd,
        sh: fields.sh,
        imm: fields.imm,
        target: fields.target,
    }
}

/// The instruction that a name and its operands give.
#[tactic(auto, unfolding(crate::specs::Statement::named_code))]
pub fn named(
    names: &Names,
    labels: &Labels<'_>,
    place: u32,
    name: &[u8],
    tokens: &Tokens<'_>,
) -> Result<Emitted<TileIns>, AsmKind>
    requires { place < 2 ^ 31 }
    ensures code { Gives emitted result (named_code (place_in labels.now) place (form_named name.now) (tokens_of tokens.now)) }
    ensures size { IfOk result (λ gave. length (emitted gave) ≡ 1) }
{
    let Some(text_form) = form_named(names, name) else {
        return Err(AsmKind::UnknownName);
    };
    let fields = operands(labels, place, &text_form, tokens)?;
    Ok(Emitted::One(instruction(text_form.op, fields)))
}

// The instructions that load a number into a register. Of two the second reads what the first wrote,
// which the register of a network does not keep.
fn load(d: u8, w: u32) -> Result<Emitted<TileIns>, AsmKind>
    requires { d ≤ 31 }
    ensures code { Gives emitted result (load_code d w) }
    ensures size { IfOk result (λ gave. length (emitted gave) ≡ load_size (Some w)) }
{
    match li(d, w) {
        (ins, None) => Ok(Emitted::One(ins)),
        (_, Some(_)) if d == NETWORK_1 || d == NETWORK_2 => Err(AsmKind::BadOperand),
        (first, Some(second)) => Ok(Emitted::Two(first, second)),
    }
}

/// What `li` gives with these operands.
#[tactic(auto, unfolding(crate::specs::Statement::load_statement))]
pub fn load_statement(tokens: &Tokens<'_>) -> Result<Emitted<TileIns>, AsmKind>
    ensures code { Gives emitted result (load_statement (tokens_of tokens.now)) }
    ensures size { IfOk result (λ gave. length (emitted gave) ≡ load_size (number_of (slice_index_or (tokens_of tokens.now) 1 []))) }
{
    if tokens.len() != 2 {
        return Err(AsmKind::BadOperand);
    }
    let d = register(tokens.at(0)).ok_or(AsmKind::BadOperand)?;
    let w = number(tokens.at(1)).ok_or(AsmKind::BadOperand)?;
    load(d as u8, w)
}

/// What `.word` gives with these operands.
#[tactic(auto, unfolding(crate::specs::Statement::word_statement))]
pub fn word_statement(tokens: &Tokens<'_>) -> Result<Emitted<TileIns>, AsmKind>
    ensures code { Gives emitted result (word_statement (tokens_of tokens.now)) }
    ensures size { IfOk result (λ gave. length (emitted gave) ≡ 1) }
{
    if tokens.len() != 1 {
        return Err(AsmKind::BadOperand);
    }
    let w = number(tokens.at(0)).ok_or(AsmKind::BadOperand)?;
    let ins = decode(w).ok_or(AsmKind::BadWord)?;
    Ok(Emitted::One(ins))
}

/// How many instructions `li` gives with these operands.
pub fn load_size(tokens: &Tokens<'_>) -> u32
    ensures value { result ≡ load_size (number_of (slice_index_or (tokens_of tokens.now) 1 [])) }
    ensures bound { result ≤ 2 }
{
    if tokens.len() < 2 {
        return 1;
    }
    match number(tokens.at(1)) {
        Some(w) if !is_one(w) => 2,
        _ => 1,
    }
}
