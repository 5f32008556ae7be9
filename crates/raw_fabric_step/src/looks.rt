//! Looks at the other sides of the ends of a processor.
//!
//! Asked and sent are two things. A load whose destination is a network needs room there, also where its address then
//! traps, and sends nothing in that case. So a row is asked for the ends that it names, and its counts rise at the ends
//! that it fills.
ghost use Rattle.std.specs.Prelude.{◌≡◌, ℕ, ◌+◌, ◌<◌, ◌≤◌, true, false, nat_lt, if◌then◌else◌, IfOk, IfErr};
ghost use Rattle.raw_fabric_rule.specs.declared.layout.TheConstants.{PLACES, END_COUNT, SIDES};
ghost use Rattle.raw_fabric_rule.specs.ByEnds.{procs};
ghost use Rattle.raw_fabric_rule.specs.Plays.{see, LookTells};
ghost use Rattle.raw_fabric_step.specs.Units.{mine, IsLooked};
ghost use Rattle.raw_fabric_step.specs.Turns.{IsSeated, TurnStands, TurnKept};
ghost use Rattle.raw_fabric_step.specs.Asks.{is_asked, IsAskedAt, AreAsked};
ghost use Rattle.raw_fabric_step.specs.Causes.{is_unmet, IsShown, IsUnmetAt, SawEnds, IsCause, HasLooked};

use crate::post::Post;
use crate::word::field_of;
use raw_fabric_rule::{END_COUNT, PLACES, PassSeat, SIDES, Words, look};
use raw_processor::Needs;
use raw_switch_isa::next_end;

/// Why a processor waits: the wire, and the status word at its other end that shows too few values, or no room.
#[derive(Clone, Copy, PartialEq, Eq)]
pub struct Unmet {
    /// The number of the wire.
    pub wire: u32,
    /// The status word.
    pub seen: u64,
}

/// What a next step asks of the ends of its processor: a value at each of its inputs, or two where both operands
/// come from the one input, and room for a value at each of its outputs.
#[derive(Clone, Copy, PartialEq, Eq)]
pub struct Asks {
    /// The inputs that it takes from, and the outputs that it may send to.
    pub needs: Needs,
    /// How many values it takes from each of its inputs.
    pub each: u64,
}

// Looks at processor `q`.
fn look_for(words: &Words<'_>, seat: &mut PassSeat, post: &Post<'_>, q: u32) -> u64
    requires seated { IsSeated words.now.key words.now.table_id seat.old post.now }
    requires there { q < procs words.now.key.set }
    ensures kept { TurnKept words.now.key post.now seat.old seat.new }
    ensures unit { mine seat.new.me.0 post.now.index ≡ see q result words.now.key post.now.p (mine seat.old.me.0 post.now.index) }
    ensures tells { LookTells words.now.key seat.old.me.0 post.now.p q result (mine seat.old.me.0 post.now.index) (mine seat.new.me.0 post.now.index) }
    ensures noted { HasLooked q result seat.old.me.0 seat.new.me.0 }
{
    look(words, seat, q)
}

// Whether counts modulo 8 show too few values at an input, or no room at an output.
fn is_unmet(depth: u64, end: usize, ours: u64, theirs: u64, asked: u64) -> bool
    requires { (ours < PLACES) × (theirs < PLACES) }
    ensures { result ≡ is_unmet depth end ours theirs asked }
{
    if end < END_COUNT {
        (theirs + PLACES - ours) % PLACES < asked
    } else {
        depth <= (ours + PLACES - theirs) % PLACES
    }
}

// Looks at the other side of an end, where the row asks for something there: `Ok` where that is shown.
fn see_end(
    words: &Words<'_>,
    seat: &mut PassSeat,
    post: &Post<'_>,
    status: u64,
    end: usize,
    asked: u64,
) -> Result<(), Unmet>
    requires stands { TurnStands words.now.key words.now.table_id seat.old post.now status }
    requires asks { IsAskedAt words.now.key.set post.now.p (mine seat.old.me.0 post.now.index).local end asked }
    ensures kept { TurnKept words.now.key post.now seat.old seat.new }
    ensures looked { IsLooked words.now.key post.now.p (mine seat.old.me.0 post.now.index) (mine seat.new.me.0 post.now.index) }
    ensures shown { IfOk result (λ _. IsShown words.now.key post.now.p end (mine seat.old.me.0 post.now.index) (mine seat.new.me.0 post.now.index)) }
    ensures unmet { IfErr result (λ r. IsUnmetAt words.now.key post.now.p end r seat.old.me.0 seat.new.me.0 (mine seat.old.me.0 post.now.index) (mine seat.new.me.0 post.now.index)) }
{
    let side = post.sides[end];
    let word = look_for(words, seat, post, side.other);
    let ours = field_of(status, end);
    let theirs = field_of(word, usize::from(side.end));
    if is_unmet(post.depth, end, ours, theirs, asked) {
        Err(Unmet {
            wire: side.wire,
            seen: word,
        })
    } else {
        Ok(())
    }
}

// How many values are asked at an end at which something is.
fn amount(asks: Asks, end: usize) -> u64
    ensures { result ≡ (if nat_lt end END_COUNT then asks.each else 1) }
{
    if end < END_COUNT { asks.each } else { 1 }
}

// The least end from a number on at which something is asked; `SIDES` or more where there is none.
fn next_asked(needs: Needs, from: usize) -> usize
    requires { from ≤ SIDES }
    ensures there { result < SIDES → is_asked needs result ≡ true }
    ensures least { (end : ℕ) → from ≤ end → end < result → end < SIDES → is_asked needs end ≡ false }
    ensures later { from ≤ result }
    ensures few { result ≤ 36 }
{
    if from < END_COUNT {
        let input = next_end(needs.inputs, from);
        if input < END_COUNT {
            return input;
        }
        return END_COUNT + next_end(needs.outputs, 0);
    }
    END_COUNT + next_end(needs.outputs, from - END_COUNT)
}

/// Looks at the other side of each end at which the row asks for something, by rising number, until one shows
/// too few values or no room.
#[inline(always)]
pub fn see_ends(
    words: &Words<'_>,
    seat: &mut PassSeat,
    post: &Post<'_>,
    status: u64,
    asks: Asks,
) -> Result<(), Unmet>
    requires stands { TurnStands words.now.key words.now.table_id seat.old post.now status }
    requires asks { AreAsked words.now.key.set post.now.p (mine seat.old.me.0 post.now.index).local asks }
    ensures kept { TurnKept words.now.key post.now seat.old seat.new }
    ensures looked { IsLooked words.now.key post.now.p (mine seat.old.me.0 post.now.index) (mine seat.new.me.0 post.now.index) }
    ensures saw { IfOk result (λ _. SawEnds words.now.key post.now.p SIDES (mine seat.old.me.0 post.now.index) (mine seat.new.me.0 post.now.index)) }
    ensures waits { IfErr result (λ r. IsCause words.now.key post.now.p r seat.old.me.0 seat.new.me.0 (mine seat.old.me.0 post.now.index) (mine seat.new.me.0 post.now.index)) }
{
    let mut end = next_asked(asks.needs, 0);
    'ends: while end < SIDES {
        let asked = amount(asks, end);
        match see_end(words, seat, post, status, end, asked) {
            Ok(()) => {}
            Err(unmet) => return Err(unmet),
        }
        end = next_asked(asks.needs, end + 1);
    }
    Ok(())
}
