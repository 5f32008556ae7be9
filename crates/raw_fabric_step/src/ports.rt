//! The steps of ports at the words of a fabric.
ghost use Rattle.std.specs.Prelude.{◌≡◌, Some, None, if◌then◌else◌, IfOk, IfErr};
ghost use Rattle.raw_model.specs.Local.{Source, Sink};
ghost use Rattle.raw_model.specs.Machine.{port_program, words_of};
ghost use Rattle.raw_tile.specs.declared.step.Via.TheVariants as Via;
ghost use Rattle.raw_fabric_step.specs.Units.{mine};
ghost use Rattle.raw_fabric_step.specs.Turns.{IsDue, TurnStands, TurnStepped, TurnWaits};
ghost use Rattle.raw_fabric_step.specs.Rows.{IsSinkAt};

use crate::looks::{Unmet, see_ends};
use crate::pairs::{commit_pair, pair_asks, take_pair, via_end};
use crate::post::Post;
use raw_fabric_rule::{INPUT_P1, INPUT_P2, PassSeat, Words};
use raw_processor::{PortState, fire_sink, fire_source};
use raw_tile::Via;

// A word, where it is sent.
fn word_where(sent: bool, word: u32) -> Option<u32>
    ensures { result ≡ (if sent then Some word else None) }
{
    if sent { Some(word) } else { None }
}

/// Steps a source that has words left, if it can: it sends the next one. `status` is its own status word, and
/// the answer its status word after the step.
#[inline(always)]
pub fn step_source(
    words: &Words<'_>,
    seat: &mut PassSeat,
    post: &Post<'_>,
    status: u64,
    port: &mut PortState,
    given: &[u32],
) -> Result<u64, Unmet>
    requires stands { TurnStands words.now.key words.now.table_id seat.old post.now status }
    requires due { IsDue words.now.key post.now.p (mine seat.old.me.0 post.now.index) (Source port.old.local) }
    requires given { given.now ≡ words_of (port_program words.now.key.set post.now.p) }
    ensures stepped { IfOk result (λ after. TurnStepped words.now.key post.now after (Source port.new.local) None seat.old seat.new) }
    ensures waits { IfErr result (λ r. TurnWaits words.now.key post.now r seat.old seat.new port.old port.new) }
    ensures room { port.new.room ≡ port.old.room }
{
    let first = post.ends.outputs[INPUT_P1].is_some();
    let second = post.ends.outputs[INPUT_P2].is_some();
    match see_ends(
        words,
        seat,
        post,
        status,
        pair_asks(Via::Tile, Via::Tile, first, second),
    ) {
        Err(unmet) => Err(unmet),
        Ok(()) => {
            let word = fire_source(port, given);
            Ok(commit_pair(
                words,
                seat,
                post,
                status,
                None,
                None,
                word_where(first, word),
                word_where(second, word),
            ))
        }
    }
}

// A network, where a port has its wire on it.
fn via_where(wired: bool, network: Via) -> Via
    ensures { result ≡ (if wired then network else Via.Tile) }
{
    if wired { network } else { Via::Tile }
}

/// Steps a sink that is not full, if it can: it takes the next value of its wire.
#[inline(always)]
pub fn step_sink(
    words: &Words<'_>,
    seat: &mut PassSeat,
    post: &Post<'_>,
    status: u64,
    port: &mut PortState,
) -> Result<u64, Unmet>
    requires stands { TurnStands words.now.key words.now.table_id seat.old post.now status }
    requires due { IsDue words.now.key post.now.p (mine seat.old.me.0 post.now.index) (Sink port.old.local) }
    requires sink { IsSinkAt words.now.key.set post.now.p port.old.local port.old.room }
    ensures stepped { IfOk result (λ after. TurnStepped words.now.key post.now after (Sink port.new.local) None seat.old seat.new) }
    ensures waits { IfErr result (λ r. TurnWaits words.now.key post.now r seat.old seat.new port.old port.new) }
    ensures room { port.new.room ≡ port.old.room }
{
    let first = via_where(post.ends.inputs[INPUT_P1].is_some(), Via::Network1);
    let second = via_where(post.ends.inputs[INPUT_P2].is_some(), Via::Network2);
    match see_ends(
        words,
        seat,
        post,
        status,
        pair_asks(first, second, false, false),
    ) {
        Err(unmet) => Err(unmet),
        Ok(()) => {
            let first = via_end(first);
            let second = via_end(second);
            let given = take_pair(words, seat, post, status, first, second);
            fire_sink(port, given.front());
            Ok(commit_pair(words, seat, post, status, first, second, None, None))
        }
    }
}
