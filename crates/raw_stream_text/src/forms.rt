//! Reading a line of the text of a stream by itself.
ghost use Rattle.std.specs.Prelude.{◌≡◌, ◌<◌, length, option_map, IsSome, IfOk};
ghost use Rattle.raw_asm.specs.Tokens.{tokens_of};
ghost use Rattle.raw_stream_text.specs.Statement.{said_by};
ghost use Rattle.raw_stream_text.specs.Forms.{usual_edge, edge_behind, rows_form, input_form, out_form, feed_form, is_pre, pre_form, other_form, line_statement};

use crate::line::Line;
use crate::word::Word;
use raw_asm::Tokens;
use raw_flow_text::{Operations, name_at};
use raw_grid::{Net, Side};
use raw_set_text::{Edge, Position, edge, numbers};
use raw_text::number;
use std::alloc::{AllocError, Global};

// The edge of a source or sink for which none is said: `1 0 0 W`.
fn usual_edge() -> Edge
    ensures { result ≡ usual_edge }
{
    Edge {
        net: Net::One,
        tile: Position { x: 0, y: 0 },
        side: Side::W,
    }
}

// The edge behind a name, where one is said: `NET X Y SIDE`.
#[tactic(auto, unfolding(crate::specs::Forms::edge_behind))]
fn edge_behind(operands: &Tokens<'_>) -> Option<Edge>
    ensures value { result ≡ edge_behind (tokens_of operands.now) }
    ensures some { IsSome result → 0 < length (tokens_of operands.now) }
{
    if operands.len() == 1 {
        return Some(usual_edge());
    }
    if operands.len() != 5 {
        return None;
    }
    edge(&operands.behind(1))
}

// `rows N`
#[tactic(auto, unfolding(crate::specs::Forms::rows_form, raw_set_text::specs::Forms::number_at))]
fn rows_line<'a>(operands: &Tokens<'a>) -> Option<Line<'a>>
    ensures { option_map said_by result ≡ rows_form (tokens_of operands.now) }
{
    if operands.len() != 1 {
        return None;
    }
    let count = number(operands.at(0))?;
    Some(Line::Rows(count))
}

// `input NAME`, or `input NAME NET X Y SIDE`
#[tactic(auto, unfolding(crate::specs::Forms::input_form))]
fn input_line<'a>(operands: &Tokens<'a>) -> Option<Line<'a>>
    ensures { option_map said_by result ≡ input_form (tokens_of operands.now) }
{
    let edge = edge_behind(operands)?;
    let name = name_at(operands, 0)?;
    Some(Line::Input(name, edge))
}

// `out NAME`, or `out NAME NET X Y SIDE`
#[tactic(auto, unfolding(crate::specs::Forms::out_form))]
fn out_line<'a>(operands: &Tokens<'a>) -> Option<Line<'a>>
    ensures { option_map said_by result ≡ out_form (tokens_of operands.now) }
{
    let edge = edge_behind(operands)?;
    let name = name_at(operands, 0)?;
    Some(Line::Out(name, edge))
}

// `feed NET X Y SIDE W ..`
#[tactic(auto, unfolding(crate::specs::Forms::feed_form))]
fn feed_line<'a>(alloc: Global, operands: &Tokens<'a>) -> Result<Option<Line<'a>>, AllocError>
    ensures { IfOk result (λ read. option_map said_by read ≡ feed_form (tokens_of operands.now)) }
{
    if operands.len() <= 4 {
        return Ok(None);
    }
    let Some(edge) = edge(operands) else {
        return Ok(None);
    };
    match numbers(alloc, &operands.behind(4))? {
        Some(words) => Ok(Some(Line::Feed(edge, words))),
        None => Ok(None),
    }
}

// Whether a line is a `def` of a `pre`, of any form.
fn is_pre(line: &Tokens<'_>) -> bool
    ensures { result ≡ is_pre (tokens_of line.now) }
{
    line.len() == 5 && line.at(0) == b"def".as_slice() && line.at(2) == b"pre".as_slice()
}

// `def NAME pre A W`
#[tactic(auto, unfolding(crate::specs::Forms::pre_form, raw_set_text::specs::Forms::number_at))]
fn pre_line<'a>(operands: &Tokens<'a>) -> Option<Line<'a>>
    requires { length (tokens_of operands.now) ≡ 4 }
    ensures { option_map said_by result ≡ pre_form (tokens_of operands.now) }
{
    let name = name_at(operands, 0)?;
    let a = name_at(operands, 2)?;
    let word = number(operands.at(3))?;
    Some(Line::Pre(name, a, word))
}

// Any other line says what it says in a flow.
fn other_line<'a>(operations: &Operations, line: &Tokens<'a>) -> Option<Line<'a>>
    requires { 0 < length (tokens_of line.now) }
    ensures { option_map said_by result ≡ other_form (tokens_of line.now) }
{
    if is_pre(line) {
        return pre_line(&line.behind(1));
    }
    let said = raw_flow_text::read_line(operations, line)?;
    Some(Line::Flow(said))
}

/// What a line with a token or more says; `None` where its first word is unknown or it is of another form.
#[tactic(auto, unfolding(crate::specs::Forms::line_statement))]
pub(crate) fn read_line<'a>(
    alloc: Global,
    operations: &Operations,
    line: &Tokens<'a>,
) -> Result<Option<Line<'a>>, AllocError>
    requires { 0 < length (tokens_of line.now) }
    ensures { IfOk result (λ read. option_map said_by read ≡ line_statement (tokens_of line.now)) }
{
    let operands = line.behind(1);
    match Word::with_name(line.at(0)) {
        Some(Word::Rows) => Ok(rows_line(&operands)),
        Some(Word::Input) => Ok(input_line(&operands)),
        Some(Word::Out) => Ok(out_line(&operands)),
        Some(Word::Feed) => feed_line(alloc, &operands),
        None => Ok(other_line(operations, line)),
    }
}
