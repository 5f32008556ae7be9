//! Reading a line of a flow text by itself.
ghost use Rattle.std.specs.Prelude.{◌≡◌, ◌<◌, length};
ghost use Rattle.std.specs.Option.{option_map};
ghost use Rattle.raw_asm.specs.Tokens.{tokens_of};
ghost use Rattle.raw_set_text.specs.Forms.{number_at};
ghost use Rattle.raw_flow_text.specs.Statement.{said_by};
ghost use Rattle.raw_flow_text.specs.Forms.{name_at, op_at, grid_form, input_form, const_form, apply_form, out_form, line_statement};

use crate::line::Line;
use crate::name::is_name;
use crate::operations::Operations;
use crate::word::Word;
use raw_asm::Tokens;
use raw_flow::FlowOp;
use raw_text::number;

// The number at a place of the operands.
#[tactic(auto, unfolding(raw_set_text::specs::Forms::number_at))]
fn number_at(operands: &Tokens<'_>, place: usize) -> Option<u32>
    requires { place < length (tokens_of operands.now) }
    ensures { result ≡ number_at (tokens_of operands.now) place }
{
    number(operands.at(place))
}

/// The name at a place of the operands.
#[tactic(auto, unfolding(crate::specs::Forms::name_at))]
pub fn name_at<'a>(operands: &Tokens<'a>, place: usize) -> Option<&'a [u8]>
    requires { place < length (tokens_of operands.now) }
    ensures { option_map (λ name. name.now) result ≡ name_at (tokens_of operands.now) place }
{
    let token = operands.at(place);
    if is_name(token) { Some(token) } else { None }
}

// The operation at a place of the operands.
#[tactic(auto, unfolding(crate::specs::Forms::op_at))]
fn op_at(operations: &Operations, operands: &Tokens<'_>, place: usize) -> Option<FlowOp>
    requires { place < length (tokens_of operands.now) }
    ensures { result ≡ op_at (tokens_of operands.now) place }
{
    operations.get(operands.at(place))
}

// `grid C R`
#[tactic(auto, unfolding(crate::specs::Forms::grid_form))]
fn grid_line<'a>(operands: &Tokens<'a>) -> Option<Line<'a>>
    ensures { option_map said_by result ≡ grid_form (tokens_of operands.now) }
{
    if operands.len() != 2 {
        return None;
    }
    let columns = number_at(operands, 0)?;
    let rows = number_at(operands, 1)?;
    Some(Line::Grid(columns, rows))
}

// `input NAME W`
#[tactic(auto, unfolding(crate::specs::Forms::input_form))]
fn input_line<'a>(operands: &Tokens<'a>) -> Option<Line<'a>>
    ensures { option_map said_by result ≡ input_form (tokens_of operands.now) }
{
    if operands.len() != 2 {
        return None;
    }
    let name = name_at(operands, 0)?;
    let word = number_at(operands, 1)?;
    Some(Line::Input(name, word))
}

// `def NAME const W`
#[tactic(auto, unfolding(crate::specs::Forms::const_form))]
fn const_line<'a>(operands: &Tokens<'a>) -> Option<Line<'a>>
    ensures { option_map said_by result ≡ const_form (tokens_of operands.now) }
{
    if operands.len() != 3 || operands.at(1) != b"const".as_slice() {
        return None;
    }
    let name = name_at(operands, 0)?;
    let word = number_at(operands, 2)?;
    Some(Line::Const(name, word))
}

// `def NAME OP A B`
#[tactic(auto, unfolding(crate::specs::Forms::apply_form))]
fn apply_line<'a>(operations: &Operations, operands: &Tokens<'a>) -> Option<Line<'a>>
    ensures { option_map said_by result ≡ apply_form (tokens_of operands.now) }
{
    if operands.len() != 4 {
        return None;
    }
    let name = name_at(operands, 0)?;
    let op = op_at(operations, operands, 1)?;
    let a = name_at(operands, 2)?;
    let b = name_at(operands, 3)?;
    Some(Line::Apply(name, op, a, b))
}

// `out NAME`
#[tactic(auto, unfolding(crate::specs::Forms::out_form))]
fn out_line<'a>(operands: &Tokens<'a>) -> Option<Line<'a>>
    ensures { option_map said_by result ≡ out_form (tokens_of operands.now) }
{
    if operands.len() != 1 {
        return None;
    }
    let name = name_at(operands, 0)?;
    Some(Line::Out(name))
}

/// What a line with a token or more says; `None` where its first word is unknown or it is of another form.
#[tactic(auto, unfolding(crate::specs::Forms::line_statement))]
pub fn read_line<'a>(operations: &Operations, line: &Tokens<'a>) -> Option<Line<'a>>
    requires { 0 < length (tokens_of line.now) }
    ensures { option_map said_by result ≡ line_statement (tokens_of line.now) }
{
    let word = Word::with_name(line.at(0))?;
    let operands = line.behind(1);
    match word {
        Word::Grid => grid_line(&operands),
        Word::Input => input_line(&operands),
        Word::Def if operands.len() == 3 => const_line(&operands),
        Word::Def => apply_line(operations, &operands),
        Word::Out => out_line(&operands),
    }
}
