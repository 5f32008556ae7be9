//! The steps at the table by which a row takes effect: operands are fetched, values are stored, and the status
//! word is stored.
ghost use Rattle.std.specs.Prelude.{◌≡◌, ◌≢◌, ℕ, ◌<◌};
ghost use mathlib.Core.Option.{some};
ghost use lib.ListN.{get_elem?};
ghost use Rattle.raw_network.specs.Network.{count_of};
ghost use Rattle.raw_fabric_rule.specs.declared.layout.TheConstants.{SIDES};
ghost use Rattle.raw_fabric_rule.specs.ByEnds.{gives};
ghost use Rattle.raw_fabric_rule.specs.Views.{Held};
ghost use Rattle.raw_fabric_rule.specs.Word.{pack};
ghost use Rattle.raw_fabric_rule.specs.Plays.{counts_after};
ghost use Rattle.raw_fabric_rule.specs.Conditions.{ShowsRow};
ghost use Rattle.raw_fabric_step.specs.Units.{mine, fetched_unit, staged_unit};
ghost use Rattle.raw_fabric_step.specs.Turns.{IsSeated, TurnStands, TurnKept, RowCommitted};
ghost use Rattle.raw_fabric_step.specs.Causes.{ShowsOperand};

use crate::post::Post;
use crate::word::field_of;
use raw_fabric_rule::{PLACES, PassSeat, Words, commit, fetch, stage};

/// Loads the operand at an input behind so many others from the same input.
pub fn fetch_operand(
    words: &Words<'_>,
    seat: &mut PassSeat,
    post: &Post<'_>,
    status: u64,
    end: usize,
    before: u64,
) -> u32
    requires stands { TurnStands words.now.key words.now.table_id seat.old post.now status }
    requires operand { ShowsOperand words.now.key post.now.p (mine seat.old.me.0 post.now.index) end before }
    ensures kept { TurnKept words.now.key post.now seat.old seat.new }
    ensures unit { mine seat.new.me.0 post.now.index ≡ fetched_unit (mine seat.old.me.0 post.now.index) end before result }
{
    let side = post.sides[end];
    let k = (field_of(status, end) + before) % PLACES;
    fetch(words, seat, post.processors, side.wire, k as u32) as u32
}

/// Stores a value for an output, in the place that is sent next.
pub fn stage_value(
    words: &Words<'_>,
    seat: &mut PassSeat,
    post: &Post<'_>,
    status: u64,
    end: usize,
    value: u32,
)
    requires stands { TurnStands words.now.key words.now.table_id seat.old post.now status }
    requires output { end < SIDES }
    requires named { 0 < count_of end (gives words.now.key.set post.now.p (mine seat.old.me.0 post.now.index).local) }
    requires fresh { (i : ℕ) (f : Held) → get_elem? (mine seat.old.me.0 post.now.index).staged i ≡ some f → f.end ≢ end }
    ensures kept { TurnKept words.now.key post.now seat.old seat.new }
    ensures unit { mine seat.new.me.0 post.now.index ≡ staged_unit (mine seat.old.me.0 post.now.index) end value }
{
    let side = post.sides[end];
    let k = field_of(status, end);
    stage(
        words,
        seat,
        post.processors,
        side.wire,
        k as u32,
        u64::from(value),
    );
}

/// Stores the status word after the next row, which takes effect with it.
pub fn commit_row(words: &Words<'_>, seat: &mut PassSeat, post: &Post<'_>, word: u64)
    requires seated { IsSeated words.now.key words.now.table_id seat.old post.now }
    requires shows { ShowsRow words.now.key post.now.p (mine seat.old.me.0 post.now.index) }
    requires word { word ≡ pack (counts_after words.now.key.set post.now.p (mine seat.old.me.0 post.now.index)) }
    ensures committed { RowCommitted words.now.key post.now word seat.old seat.new }
{
    commit(words, seat, post.p, word);
}
