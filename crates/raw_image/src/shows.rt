//! The words that the report shows, in an image.
ghost use Rattle.std.specs.Prelude.{◌≡◌, ◌≤◌, ◌<◌, IfOk};
ghost use Rattle.raw_image.specs.Fields.{Gives};
ghost use Rattle.raw_image.specs.Reading.{show_at, shows_at};

use crate::fields::{address_from, number_between};
use crate::refused::Refusal;
use raw_model::Show;
use raw_model::limits::{MAX_ALL_SHOWN, MAX_SHOWS, MEMORY_SIZE};
use std::alloc::Global;

// Words of the memory of one of so many tiles, at most so many.
#[tactic(auto, unfolding(crate::specs::Reading::show_at))]
fn show_at(bytes: &[u8], tiles: u32, room: u32) -> Result<(Show, &[u8]), Refusal>
    requires { 0 < tiles }
    ensures read { Gives (λ x. (x.0, x.1.now)) result (show_at tiles room bytes.now) }
    ensures room { IfOk result (λ x. x.0.words ≤ room) }
{
    let (tile, rest) = number_between(bytes, 0, tiles - 1)?;
    let (address, rest) = address_from(rest, 0)?;
    let most = room.min((MEMORY_SIZE - address) / 4);
    let (words, rest) = number_between(rest, 1, most)?;
    let show = Show {
        tile,
        address,
        words,
    };
    Ok((show, rest))
}

/// What the report shows of the memories of so many tiles.
#[tactic(auto, unfolding(crate::specs::Reading::shows_at))]
pub(crate) fn shows_at(
    alloc: Global,
    tiles: u32,
    bytes: &[u8],
) -> Result<(Vec<Show>, &[u8]), Refusal>
    requires { 0 < tiles }
    ensures { Gives (λ x. (x.0.items, x.1.now)) result (shows_at tiles bytes.now) }
{
    let (count, rest) = number_between(bytes, 0, MAX_SHOWS)?;
    let mut shows = Vec::new(alloc);
    let mut rest = rest;
    let mut room = MAX_ALL_SHOWN;
    for _ in 0..count {
        let (show, after) = show_at(rest, tiles, room)?;
        room -= show.words;
        shows.push(show)?;
        rest = after;
    }
    Ok((shows, rest))
}
