//! Reading a line outside sections by itself.
ghost use Rattle.std.specs.Prelude.{◌≡◌, ◌+◌, ◌<◌, ◌≤◌, length, IfOk};
ghost use Rattle.std.specs.Option.{option_map};
ghost use Rattle.raw_asm.specs.Tokens.{tokens_of};
ghost use Rattle.raw_set_text.specs.Entry.{said_by};
ghost use Rattle.raw_set_text.specs.Entry.Entry.{Grid, Limit};
ghost use Rattle.raw_set_text.specs.Forms.{number_at, position_at, edge_in, numbers_of, grid_entry, limit_entry, depth_entry, source_entry, sink_entry, feed_entry, data_entry, misses_entry, show_entry, tile_entry, switch_entry, line_entry};
ghost use Rattle.raw_set_text.specs.Answers.{ReadsAs};

use crate::declaration::{Declaration, Edge, Line, Position};
use crate::kind::SetKind;
use crate::refused::LineRefusal;
use crate::word::Word;
use raw_asm::Tokens;
use raw_grid::{Net, Side};
use raw_text::number;
use std::alloc::{AllocError, Global};

const BAD_LINE: LineRefusal = LineRefusal::Fault(SetKind::BadLine);

// The number at a place of the operands.
#[tactic(auto, unfolding(crate::specs::Forms::number_at))]
fn number_at(operands: &Tokens<'_>, place: usize) -> Option<u32>
    requires { place < length (tokens_of operands.now) }
    ensures { result ≡ number_at (tokens_of operands.now) place }
{
    number(operands.at(place))
}

// The tile of which the column and the row stand at a place of the operands and behind it.
#[tactic(auto, unfolding(crate::specs::Forms::position_at), using(crate::proofs::Reading::Numbers::number_first, crate::proofs::Reading::Numbers::number_second))]
fn position_at(operands: &Tokens<'_>, place: usize) -> Option<Position>
    requires { place + 1 < length (tokens_of operands.now) }
    ensures { result ≡ position_at (tokens_of operands.now) place }
{
    let tile = operands.behind(place);
    let x = number_at(&tile, 0)?;
    let y = number_at(&tile, 1)?;
    Some(Position { x, y })
}

/// The edge that the first four operands are.
#[tactic(auto, unfolding(crate::specs::Forms::edge_in))]
pub fn edge(operands: &Tokens<'_>) -> Option<Edge>
    requires { 4 ≤ length (tokens_of operands.now) }
    ensures { result ≡ edge_in (tokens_of operands.now) }
{
    let net = Net::named(operands.at(0))?;
    let tile = position_at(operands, 1)?;
    let side = Side::named(operands.at(3))?;
    Some(Edge { net, tile, side })
}

/// All tokens as numbers, if each is one.
#[tactic(auto, unfolding(crate::specs::Forms::numbers_of))]
pub fn numbers(alloc: Global, tokens: &Tokens<'_>) -> Result<Option<Vec<u32>>, AllocError>
    ensures { IfOk result (λ read. option_map (λ numbers. numbers.items) read ≡ numbers_of (tokens_of tokens.now)) }
{
    let mut numbers = Vec::new(alloc);
    for place in 0..tokens.len() {
        match number(tokens.at(place)) {
            Some(n) => numbers.push(n)?,
            None => return Ok(None),
        }
    }
    Ok(Some(numbers))
}

/// The columns and the rows of a `grid` line.
#[tactic(auto, unfolding(crate::specs::Forms::grid_entry))]
pub(crate) fn grid_size(operands: &Tokens<'_>) -> Option<(u32, u32)>
    ensures { grid_entry (tokens_of operands.now) ≡ option_map (λ size. Grid size.0 size.1) result }
{
    if operands.len() != 2 {
        return None;
    }
    let columns = number_at(operands, 0)?;
    let rows = number_at(operands, 1)?;
    Some((columns, rows))
}

// `grid C R`
fn grid_line(operands: &Tokens<'_>) -> Option<Line>
    ensures { option_map said_by result ≡ grid_entry (tokens_of operands.now) }
{
    let (columns, rows) = grid_size(operands)?;
    Some(Line::Plain(Declaration::Grid(columns, rows)))
}

/// The number of a `limit` line.
#[tactic(auto, unfolding(crate::specs::Forms::limit_entry))]
pub(crate) fn limit_number(operands: &Tokens<'_>) -> Option<u32>
    ensures { limit_entry (tokens_of operands.now) ≡ option_map (λ n. Limit n) result }
{
    if operands.len() != 1 {
        return None;
    }
    number_at(operands, 0)
}

// `limit N`
fn limit_line(operands: &Tokens<'_>) -> Option<Line>
    ensures { option_map said_by result ≡ limit_entry (tokens_of operands.now) }
{
    let n = limit_number(operands)?;
    Some(Line::Plain(Declaration::Limit(n)))
}

// `depth N`
#[tactic(auto, unfolding(crate::specs::Forms::depth_entry))]
fn depth_line(operands: &Tokens<'_>) -> Option<Line>
    ensures { option_map said_by result ≡ depth_entry (tokens_of operands.now) }
{
    if operands.len() != 1 {
        return None;
    }
    let n = number_at(operands, 0)?;
    Some(Line::Plain(Declaration::Depth(n)))
}

// `source NET X Y SIDE`
#[tactic(auto, unfolding(crate::specs::Forms::source_entry))]
fn source_line(operands: &Tokens<'_>) -> Option<Line>
    ensures { option_map said_by result ≡ source_entry (tokens_of operands.now) }
{
    if operands.len() != 4 {
        return None;
    }
    let edge = edge(operands)?;
    Some(Line::Plain(Declaration::Source(edge)))
}

// `sink NET X Y SIDE N`
#[tactic(auto, unfolding(crate::specs::Forms::sink_entry))]
fn sink_line(operands: &Tokens<'_>) -> Option<Line>
    ensures { option_map said_by result ≡ sink_entry (tokens_of operands.now) }
{
    if operands.len() != 5 {
        return None;
    }
    let edge = edge(operands)?;
    let capacity = number_at(operands, 4)?;
    Some(Line::Plain(Declaration::Sink(edge, capacity)))
}

// `feed NET X Y SIDE W ..`
#[tactic(auto, unfolding(crate::specs::Forms::feed_entry))]
fn feed_line(alloc: Global, operands: &Tokens<'_>) -> Result<Line, LineRefusal>
    ensures { ReadsAs result (feed_entry (tokens_of operands.now)) }
{
    if operands.len() <= 4 {
        return Err(BAD_LINE);
    }
    let edge = edge(operands).ok_or(BAD_LINE)?;
    let words = numbers(alloc, &operands.behind(4))?.ok_or(BAD_LINE)?;
    Ok(Line::Plain(Declaration::Feed(edge, words)))
}

// `data X Y A W ..`
#[tactic(auto, unfolding(crate::specs::Forms::data_entry))]
fn data_line(alloc: Global, operands: &Tokens<'_>) -> Result<Line, LineRefusal>
    ensures { ReadsAs result (data_entry (tokens_of operands.now)) }
{
    if operands.len() <= 3 {
        return Err(BAD_LINE);
    }
    let tile = position_at(operands, 0).ok_or(BAD_LINE)?;
    let address = number_at(operands, 2).ok_or(BAD_LINE)?;
    let words = numbers(alloc, &operands.behind(3))?.ok_or(BAD_LINE)?;
    if address % 4 != 0 {
        return Err(BAD_LINE);
    }
    Ok(Line::Plain(Declaration::Data(tile, address, words)))
}

// `misses X Y T ..`
#[tactic(auto, unfolding(crate::specs::Forms::misses_entry))]
fn misses_line(alloc: Global, operands: &Tokens<'_>) -> Result<Line, LineRefusal>
    ensures { ReadsAs result (misses_entry (tokens_of operands.now)) }
{
    if operands.len() <= 2 {
        return Err(BAD_LINE);
    }
    let tile = position_at(operands, 0).ok_or(BAD_LINE)?;
    let turns = numbers(alloc, &operands.behind(2))?.ok_or(BAD_LINE)?;
    Ok(Line::Plain(Declaration::Misses(tile, turns)))
}

// `show X Y A N`
#[tactic(auto, unfolding(crate::specs::Forms::show_entry))]
fn show_line(operands: &Tokens<'_>) -> Option<Line>
    ensures { option_map said_by result ≡ show_entry (tokens_of operands.now) }
{
    if operands.len() != 4 {
        return None;
    }
    let tile = position_at(operands, 0)?;
    let address = number_at(operands, 2)?;
    let words = number_at(operands, 3)?;
    if address % 4 == 0 && words > 0 {
        Some(Line::Plain(Declaration::Show(tile, address, words)))
    } else {
        None
    }
}

// `tile X Y`
#[tactic(auto, unfolding(crate::specs::Forms::tile_entry))]
fn tile_line(operands: &Tokens<'_>) -> Option<Line>
    ensures { option_map said_by result ≡ tile_entry (tokens_of operands.now) }
{
    if operands.len() != 2 {
        return None;
    }
    let tile = position_at(operands, 0)?;
    Some(Line::Tile(tile))
}

// `switch X Y`
#[tactic(auto, unfolding(crate::specs::Forms::switch_entry))]
fn switch_line(operands: &Tokens<'_>) -> Option<Line>
    ensures { option_map said_by result ≡ switch_entry (tokens_of operands.now) }
{
    if operands.len() != 2 {
        return None;
    }
    let tile = position_at(operands, 0)?;
    Some(Line::Switch(tile))
}

/// What a line with a token or more says. A line of another form is `BadLine`.
#[tactic(auto, unfolding(crate::specs::Forms::line_entry))]
pub(crate) fn read_line(alloc: Global, line: &Tokens<'_>) -> Result<Line, LineRefusal>
    requires { 0 < length (tokens_of line.now) }
    ensures { ReadsAs result (line_entry (tokens_of line.now)) }
{
    let word = Word::with_name(line.at(0)).ok_or(BAD_LINE)?;
    let operands = line.behind(1);
    match word {
        Word::Grid => grid_line(&operands).ok_or(BAD_LINE),
        Word::Limit => limit_line(&operands).ok_or(BAD_LINE),
        Word::Depth => depth_line(&operands).ok_or(BAD_LINE),
        Word::Source => source_line(&operands).ok_or(BAD_LINE),
        Word::Sink => sink_line(&operands).ok_or(BAD_LINE),
        Word::Feed => feed_line(alloc, &operands),
        Word::Data => data_line(alloc, &operands),
        Word::Misses => misses_line(alloc, &operands),
        Word::Show => show_line(&operands).ok_or(BAD_LINE),
        Word::Tile => tile_line(&operands).ok_or(BAD_LINE),
        Word::Switch => switch_line(&operands).ok_or(BAD_LINE),
    }
}
