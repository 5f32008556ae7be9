//! The ends P of a tile or a port: at most two operands are taken there, and at most one value is sent to each
//! network.
//!
//! Tiles and ports share their steps. Both have wires at the ends P alone: at most two operands are taken, and at most
//! one value is sent to each network. What differs is the row between the fetches and the stores.
ghost use Rattle.std.specs.Prelude.{◌≡◌, ◌≢◌, ℕ, [], ◌∷◌, if◌then◌else◌, ◌<◌, ◌≤◌, ◌^◌, is_some, List, length, IfSome};
ghost use Rattle.std.specs.Option.{option_to_list};
ghost use mathlib.Core.Option.{some};
ghost use lib.ListN.{get_elem?};
ghost use Rattle.raw_network.specs.Network.{count_of};
ghost use Rattle.raw_model.specs.Program.{ProgramSet};
ghost use Rattle.raw_model.specs.Local.{Local};
ghost use Rattle.raw_fabric_rule.specs.declared.layout.TheConstants.{SIDES, OUTPUT_P1, OUTPUT_P2};
ghost use Rattle.raw_fabric_rule.specs.ByEnds.{needs, gives};
ghost use Rattle.raw_fabric_rule.specs.Views.{Held};
ghost use Rattle.raw_fabric_rule.specs.Word.{pack};
ghost use Rattle.raw_fabric_rule.specs.Plays.{bumped, values_of};
ghost use Rattle.raw_fabric_rule.specs.Seats.{IsSameSeat};
ghost use Rattle.raw_fabric_step.specs.Units.{mine};
ghost use Rattle.raw_fabric_step.specs.Turns.{TurnStands, TurnKept};
ghost use Rattle.raw_fabric_step.specs.Asks.{AreAsked};
ghost use Rattle.raw_fabric_step.specs.Fired.{HasFired};
ghost use Rattle.raw_fabric_step.specs.Taken.{HasTaken};
ghost use Rattle.raw_fabric_step.specs.Causes.{MayTake, ShowsOperand};
ghost use Rattle.raw_fabric_step.specs.Pairs.{fetched_where, staged_where, pair_ends, before_second, via_end, input_bit, output_bits, out_ends, TakesPair, SendsPair, HasOperands};

use crate::looks::Asks;
use crate::moves::{commit_row, fetch_operand, stage_value};
use crate::post::Post;
use crate::word::bump;
use raw_fabric_rule::{INPUT_P1, INPUT_P2, OUTPUT_P1, OUTPUT_P2, PassSeat, Words};
use raw_processor::Needs;
use raw_tile::{TileGiven, Via};

// Loads an operand at an input, where there is one, behind so many others from the same input.
fn fetch_where(
    words: &Words<'_>,
    seat: &mut PassSeat,
    post: &Post<'_>,
    status: u64,
    end: Option<usize>,
    before: u64,
) -> Option<u32>
    requires stands { TurnStands words.now.key words.now.table_id seat.old post.now status }
    requires operand { IfSome end (λ e. ShowsOperand words.now.key post.now.p (mine seat.old.me.0 post.now.index) e before) }
    ensures kept { TurnKept words.now.key post.now seat.old seat.new }
    ensures unit { mine seat.new.me.0 post.now.index ≡ fetched_where (mine seat.old.me.0 post.now.index) end before result }
    ensures some { is_some result ≡ is_some end }
{
    match end {
        Some(end) => Some(fetch_operand(words, seat, post, status, end, before)),
        None => None,
    }
}

// How many operands come before the second one from the same input.
fn before_second(first: Option<usize>, second: Option<usize>) -> u64
    ensures value { result ≡ before_second first second }
    ensures few { result ≤ 1 }
{
    match (first, second) {
        (Some(a), Some(b)) if a == b => 1,
        _ => 0,
    }
}

/// Loads the operands at two inputs, where they are there, the first before the second.
pub(crate) fn take_pair(
    words: &Words<'_>,
    seat: &mut PassSeat,
    post: &Post<'_>,
    status: u64,
    first: Option<usize>,
    second: Option<usize>,
) -> TileGiven
    requires stands { TurnStands words.now.key words.now.table_id seat.old post.now status }
    requires may { MayTake words.now.key post.now.p (mine seat.old.me.0 post.now.index) }
    requires takes { TakesPair words.now.key.set post.now.p (mine seat.old.me.0 post.now.index).local first second }
    ensures kept { TurnKept words.now.key post.now seat.old seat.new }
    ensures taken { HasTaken words.now.key post.now.p status first second result (mine seat.old.me.0 post.now.index) (mine seat.new.me.0 post.now.index) }
{
    let a = fetch_where(words, seat, post, status, first, 0);
    let b = fetch_where(
        words,
        seat,
        post,
        status,
        second,
        before_second(first, second),
    );
    TileGiven { a, b }
}

/// Stores a value for an output, where there is one.
pub(crate) fn stage_where(
    words: &Words<'_>,
    seat: &mut PassSeat,
    post: &Post<'_>,
    status: u64,
    end: usize,
    value: Option<u32>,
)
    requires stands { TurnStands words.now.key words.now.table_id seat.old post.now status }
    requires output { end < SIDES }
    requires named { IfSome value (λ _. 0 < count_of end (gives words.now.key.set post.now.p (mine seat.old.me.0 post.now.index).local)) }
    requires fresh { (i : ℕ) (f : Held) → get_elem? (mine seat.old.me.0 post.now.index).staged i ≡ some f → f.end ≢ end }
    ensures kept { TurnKept words.now.key post.now seat.old seat.new }
    ensures unit { mine seat.new.me.0 post.now.index ≡ staged_where (mine seat.old.me.0 post.now.index) end value }
{
    if let Some(value) = value {
        stage_value(words, seat, post, status, end, value);
    }
}

/// Stores the values that are sent to the two outputs P.
pub(crate) fn send_pair(
    words: &Words<'_>,
    seat: &mut PassSeat,
    post: &Post<'_>,
    status: u64,
    first: Option<u32>,
    second: Option<u32>,
)
    requires stands { TurnStands words.now.key words.now.table_id seat.old post.now status }
    requires first { IfSome first (λ _. 0 < count_of OUTPUT_P1 (gives words.now.key.set post.now.p (mine seat.old.me.0 post.now.index).local)) }
    requires second { IfSome second (λ _. 0 < count_of OUTPUT_P2 (gives words.now.key.set post.now.p (mine seat.old.me.0 post.now.index).local)) }
    requires empty { (mine seat.old.me.0 post.now.index).staged ≡ [] }
    ensures kept { TurnKept words.now.key post.now seat.old seat.new }
    ensures unit { mine seat.new.me.0 post.now.index ≡ staged_where (staged_where (mine seat.old.me.0 post.now.index) OUTPUT_P1 first) OUTPUT_P2 second }
{
    stage_where(words, seat, post, status, OUTPUT_P1, first);
    stage_where(words, seat, post, status, OUTPUT_P2, second);
}

/// The status word after one more value at an end, where there is one.
pub(crate) fn bump_where(word: u64, end: Option<usize>) -> u64
    requires end { IfSome end (λ e. e < SIDES) }
    requires word { word < 2 ^ 60 }
    ensures { (counts : List ℕ) → length counts ≡ SIDES → word ≡ pack counts → result ≡ pack (bumped (option_to_list end) counts) }
{
    match end {
        Some(end) => bump(word, end),
        None => word,
    }
}

/// The input P of a network, where an operand comes from one.
pub(crate) fn via_end(via: Via) -> Option<usize>
    ensures { result ≡ via_end via }
{
    match via {
        Via::Tile => None,
        Via::Network1 => Some(INPUT_P1),
        Via::Network2 => Some(INPUT_P2),
    }
}

// The input P of a network as a word of ends.
fn input_bit(via: Via) -> u16
    ensures { result ≡ input_bit via }
{
    match via {
        Via::Tile => 0,
        Via::Network1 => 1 << INPUT_P1,
        Via::Network2 => 1 << INPUT_P2,
    }
}

// These outputs P as a word of ends: an output has the end index of its input.
fn output_bits(first: bool, second: bool) -> u16
    ensures { result ≡ output_bits first second }
{
    match (first, second) {
        (false, false) => 0,
        (false, true) => 1 << INPUT_P2,
        (true, false) => 1 << INPUT_P1,
        (true, true) => 1 << INPUT_P1 | 1 << INPUT_P2,
    }
}

/// What a row asks that takes operands by these ways, and may send to these outputs P.
pub(crate) fn pair_asks(first: Via, second: Via, sends_first: bool, sends_second: bool) -> Asks
    ensures { (set : ProgramSet) (p : ℕ) (l : Local) →
        needs set p l ≡ pair_ends (via_end first) (via_end second) → gives set p l ≡ out_ends sends_first sends_second →
        AreAsked set p l result }
{
    Asks {
        needs: Needs {
            inputs: input_bit(first) | input_bit(second),
            outputs: output_bits(sends_first, sends_second),
        },
        each: 1 + before_second(via_end(first), via_end(second)),
    }
}

/// An output, where something is sent there.
pub(crate) fn end_where(sent: bool, end: usize) -> Option<usize>
    requires { end < SIDES }
    ensures ends { option_to_list result ≡ (if sent then end ∷ [] else []) }
    ensures few { IfSome result (λ e. e < SIDES) }
{
    if sent { Some(end) } else { None }
}

/// The status word after a row that took operands at these inputs, and sent values to these outputs P.
pub(crate) fn raised(
    status: u64,
    first: Option<usize>,
    second: Option<usize>,
    sent_first: bool,
    sent_second: bool,
) -> u64
    requires packed { (counts : List ℕ) × (length counts ≡ SIDES) × (status ≡ pack counts) }
    requires first { IfSome first (λ e. e < SIDES) }
    requires second { IfSome second (λ e. e < SIDES) }
    ensures { (counts : List ℕ) → length counts ≡ SIDES → status ≡ pack counts →
        result ≡ pack (bumped (out_ends sent_first sent_second) (bumped (pair_ends first second) counts)) }
{
    let one_taken = bump_where(status, first);
    let taken = bump_where(one_taken, second);
    let one_sent = bump_where(taken, end_where(sent_first, OUTPUT_P1));
    bump_where(one_sent, end_where(sent_second, OUTPUT_P2))
}

/// Sends what a row sends to the outputs P, and stores its status word, which is the answer. The operands are
/// fetched already.
pub(crate) fn commit_pair(
    words: &Words<'_>,
    seat: &mut PassSeat,
    post: &Post<'_>,
    status: u64,
    first: Option<usize>,
    second: Option<usize>,
    sent_first: Option<u32>,
    sent_second: Option<u32>,
) -> u64
    requires stands { TurnStands words.now.key words.now.table_id seat.old post.now status }
    requires takes { TakesPair words.now.key.set post.now.p (mine seat.old.me.0 post.now.index).local first second }
    requires operands { HasOperands words.now.key post.now.p first second (mine seat.old.me.0 post.now.index) }
    requires sends { SendsPair words.now.key.set post.now.p (mine seat.old.me.0 post.now.index) sent_first sent_second }
    ensures same { IsSameSeat seat.old seat.new }
    ensures fired { HasFired words.now.key post.now.p post.now.index result (values_of (mine seat.old.me.0 post.now.index)) seat.old.me.0 seat.new.me.0 }
{
    send_pair(words, seat, post, status, sent_first, sent_second);
    let after = raised(
        status,
        first,
        second,
        sent_first.is_some(),
        sent_second.is_some(),
    );
    commit_row(words, seat, post, after);
    after
}
