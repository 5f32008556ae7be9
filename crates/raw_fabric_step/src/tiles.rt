//! The step of a tile at the words of a fabric.
//!
//! An instruction that stays within its tile is executed apart (`execute_within`). It looks at no end, fetches nothing,
//! and nothing that its row gives is looked at for values to send: there are none. What is left beside the row is the
//! store of the status word, as it is. It is written out in the loop of the tile; an instruction that names a network
//! is a call.
ghost use Rattle.std.specs.Prelude.{◌≡◌, ◌<◌, true, Some, length, IfOk, IfErr};
ghost use Rattle.raw_tile_isa.specs.Instruction.{Instruction};
ghost use Rattle.raw_model.specs.Local.{Tile};
ghost use Rattle.raw_model.specs.TileTable.{next_instruction};
ghost use Rattle.raw_tile.specs.Step.{is_within, AreItsVias};
ghost use Rattle.raw_fabric_step.specs.Units.{mine};
ghost use Rattle.raw_fabric_step.specs.Turns.{IsDue, TurnStands, TurnStepped, TurnWaits};
ghost use Rattle.raw_fabric_step.specs.Rows.{IsTileAt};
ghost use Rattle.raw_fabric_step.specs.Pairs.{is_first, is_second};

use crate::looks::{Unmet, see_ends};
use crate::moves::commit_row;
use crate::pairs::{commit_pair, pair_asks, take_pair, via_end};
use crate::post::Post;
use raw_fabric_rule::{PassSeat, Words};
use raw_tile::{TileGiven, TileState, TileStep, Via, tile_fire};

// Whether something goes to network 1.
fn is_first(via: Via) -> bool
    ensures { result ≡ is_first via }
{
    match via {
        Via::Network1 => true,
        Via::Tile | Via::Network2 => false,
    }
}

// Whether something goes to network 2.
fn is_second(via: Via) -> bool
    ensures { result ≡ is_second via }
{
    match via {
        Via::Network2 => true,
        Via::Tile | Via::Network1 => false,
    }
}

// The instruction that is next.
fn next_step<'c>(code: &'c [TileStep], state: &TileState) -> &'c TileStep
    requires { state.now.pc < length code.now }
    ensures { next_instruction code.now state.now ≡ Some result.now }
{
    &code[state.pc as usize]
}

// The ways of the operands and of the result of an instruction.
#[derive(Clone, Copy)]
struct Ways {
    first: Via,
    second: Via,
    sent: Via,
}

// Executes the next instruction of a tile, which names no network: it needs nothing of others, and its status word is
// stored as it is. The answer is the address that it touched.
#[inline(always)]
fn execute_within(
    words: &Words<'_>,
    seat: &mut PassSeat,
    post: &Post<'_>,
    status: u64,
    code: &[TileStep],
    state: &mut TileState,
) -> Option<u32>
    requires stands { TurnStands words.now.key words.now.table_id seat.old post.now status }
    requires due { IsDue words.now.key post.now.p (mine seat.old.me.0 post.now.index) (Tile state.old) }
    requires tile { IsTileAt words.now.key.set post.now.p code.now state.old }
    requires within { (ins : Instruction) × (next_instruction code.now state.old ≡ Some ins) × (is_within ins ≡ true) }
    ensures { TurnStepped words.now.key post.now status (Tile state.new) result seat.old seat.new }
{
    let given = TileGiven { a: None, b: None };
    let out = tile_fire(state, code, given);
    commit_row(words, seat, post, status);
    out.touched
}

// Executes the next instruction of a tile, if it can. Its operands and its result go these ways.
fn execute(
    words: &Words<'_>,
    seat: &mut PassSeat,
    post: &Post<'_>,
    status: u64,
    code: &[TileStep],
    state: &mut TileState,
    ways: Ways,
) -> Result<(u64, Option<u32>), Unmet>
    requires stands { TurnStands words.now.key words.now.table_id seat.old post.now status }
    requires due { IsDue words.now.key post.now.p (mine seat.old.me.0 post.now.index) (Tile state.old) }
    requires tile { IsTileAt words.now.key.set post.now.p code.now state.old }
    requires ways { (ins : Instruction) × (next_instruction code.now state.old ≡ Some ins) × AreItsVias ins ways.first ways.second ways.sent (is_within ins) }
    ensures stepped { IfOk result (λ r. TurnStepped words.now.key post.now r.0 (Tile state.new) r.1 seat.old seat.new) }
    ensures waits { IfErr result (λ r. TurnWaits words.now.key post.now r seat.old seat.new state.old state.new) }
{
    let asks = pair_asks(
        ways.first,
        ways.second,
        is_first(ways.sent),
        is_second(ways.sent),
    );
    match see_ends(words, seat, post, status, asks) {
        Err(unmet) => Err(unmet),
        Ok(()) => {
            let first = via_end(ways.first);
            let second = via_end(ways.second);
            let given = take_pair(words, seat, post, status, first, second);
            let out = tile_fire(state, code, given);
            let after = commit_pair(
                words, seat, post, status, first, second, out.sent1, out.sent2,
            );
            Ok((after, out.touched))
        }
    }
}

/// Steps a tile that is not stopped, if it can: it executes its next instruction. The answer is its status word
/// after the step, and the address that the step touched.
#[inline(always)]
pub fn step_tile(
    words: &Words<'_>,
    seat: &mut PassSeat,
    post: &Post<'_>,
    status: u64,
    code: &[TileStep],
    state: &mut TileState,
) -> Result<(u64, Option<u32>), Unmet>
    requires stands { TurnStands words.now.key words.now.table_id seat.old post.now status }
    requires due { IsDue words.now.key post.now.p (mine seat.old.me.0 post.now.index) (Tile state.old) }
    requires tile { IsTileAt words.now.key.set post.now.p code.now state.old }
    ensures stepped { IfOk result (λ r. TurnStepped words.now.key post.now r.0 (Tile state.new) r.1 seat.old seat.new) }
    ensures waits { IfErr result (λ r. TurnWaits words.now.key post.now r seat.old seat.new state.old state.new) }
{
    let step = next_step(code, state);
    if step.is_within() {
        let touched = execute_within(words, seat, post, status, code, state);
        Ok((status, touched))
    } else {
        let ways = Ways {
            first: step.first(),
            second: step.second(),
            sent: step.sent(),
        };
        execute(words, seat, post, status, code, state, ways)
    }
}
