//! Reading a line of a plan by itself.
ghost use Rattle.std.specs.Prelude.{◌≡◌, ◌<◌, length, IfOk};
ghost use Rattle.std.specs.Option.{option_map};
ghost use Rattle.raw_asm.specs.Tokens.{tokens_of};
ghost use Rattle.raw_plan_text.specs.Forms.{tile_of, tiles_of, is_grid, is_send, grid_entry, send_entry};
ghost use Rattle.raw_plan_text.specs.Forms.Entry.{Grid, Send as SendEntry};

use crate::tile::Tile;
use raw_asm::Tokens;
use raw_grid::Net;
use raw_text::number;
use std::alloc::{AllocError, Global};
use std::marker::Model;

/// What a `send` line says: a word goes from a tile to others, on a network.
#[derive(Drop)]
pub(crate) struct Send {
    pub(crate) net: Net,
    pub(crate) from: Tile,
    pub(crate) word: u32,
    pub(crate) to: Vec<Tile>,
}

impl Model for Send {
    ghost use Rattle.raw_plan_text.specs.Forms.{Sent};

    ghost Value = { Sent };

    ghost view = { λ send. record { net = send.net; from = send.from; word = send.word; to = send.to.items } };
}

// Two tokens as a column and a row.
#[tactic(auto, unfolding(crate::specs::Forms::tile_of))]
fn read_tile(column: &[u8], row: &[u8]) -> Option<Tile>
    ensures { result ≡ tile_of column.now row.now }
{
    let x = number(column)?;
    let y = number(row)?;
    Some(Tile { x, y })
}

// All tokens, two by two, as columns and rows.
fn read_tiles(alloc: Global, tokens: &Tokens<'_>) -> Result<Option<Vec<Tile>>, AllocError>
    ensures { IfOk result (λ read. option_map (λ tiles. tiles.items) read ≡ tiles_of (tokens_of tokens.now)) }
{
    let mut tiles = Vec::new(alloc);
    let mut place = 0;
    while place < tokens.len() {
        if place + 1 == tokens.len() {
            return Ok(None);
        }
        match read_tile(tokens.at(place), tokens.at(place + 1)) {
            Some(tile) => tiles.push(tile)?,
            None => return Ok(None),
        }
        place += 2;
    }
    Ok(Some(tiles))
}

/// Whether a line with tokens begins with `grid`.
pub(crate) fn is_grid(line: &Tokens<'_>) -> bool
    requires { 0 < length (tokens_of line.now) }
    ensures { result ≡ is_grid (tokens_of line.now) }
{
    line.at(0) == b"grid".as_slice()
}

/// Whether a line with tokens begins with `send`.
pub(crate) fn is_send(line: &Tokens<'_>) -> bool
    requires { 0 < length (tokens_of line.now) }
    ensures { result ≡ is_send (tokens_of line.now) }
{
    line.at(0) == b"send".as_slice()
}

/// The columns and the rows of a `grid` line.
#[tactic(auto, unfolding(crate::specs::Forms::grid_entry))]
pub(crate) fn grid_size(operands: &Tokens<'_>) -> Option<(u32, u32)>
    ensures { grid_entry (tokens_of operands.now) ≡ option_map (λ size. Grid size.0 size.1) result }
{
    if operands.len() != 2 {
        return None;
    }
    let columns = number(operands.at(0))?;
    let rows = number(operands.at(1))?;
    Some((columns, rows))
}

/// What a `send` line says.
#[tactic(auto, unfolding(crate::specs::Forms::send_entry))]
pub(crate) fn read_send(alloc: Global, operands: &Tokens<'_>) -> Result<Option<Send>, AllocError>
    ensures { IfOk result (λ read. send_entry (tokens_of operands.now) ≡ option_map (λ send. SendEntry send) read) }
{
    if operands.len() <= 4 {
        return Ok(None);
    }
    let Some(net) = Net::named(operands.at(0)) else {
        return Ok(None);
    };
    let Some(from) = read_tile(operands.at(1), operands.at(2)) else {
        return Ok(None);
    };
    let Some(word) = number(operands.at(3)) else {
        return Ok(None);
    };
    let Some(to) = read_tiles(alloc, &operands.behind(4))? else {
        return Ok(None);
    };
    Ok(Some(Send {
        net,
        from,
        word,
        to,
    }))
}
