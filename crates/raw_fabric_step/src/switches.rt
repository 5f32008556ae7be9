//! The step of a switch at the words of a fabric.
ghost use Rattle.std.specs.Prelude.{◌≡◌, ℕ, List, [], Some, None, length, IfOk, IfErr};
ghost use Rattle.raw_model.specs.Program.{ProgramSet};
ghost use Rattle.raw_model.specs.Local.{Local, Switch};
ghost use Rattle.raw_model.specs.SwitchTable.{routed};
ghost use Rattle.raw_fabric_rule.specs.declared.layout.TheConstants.{SIDES};
ghost use Rattle.raw_fabric_rule.specs.ByEnds.{needs, gives};
ghost use Rattle.raw_fabric_rule.specs.ByKind.{switch_needs, switch_gives};
ghost use Rattle.raw_fabric_rule.specs.Word.{pack};
ghost use Rattle.raw_fabric_rule.specs.Plays.{values_of};
ghost use Rattle.raw_fabric_rule.specs.Seats.{IsSameSeat};
ghost use Rattle.raw_fabric_step.specs.Units.{mine};
ghost use Rattle.raw_fabric_step.specs.Turns.{IsDue, TurnStands, TurnKept, TurnStepped, TurnWaits};
ghost use Rattle.raw_fabric_step.specs.Rows.{IsSwitchAt, IsSwitchStep};
ghost use Rattle.raw_fabric_step.specs.Asks.{AreAsked};
ghost use Rattle.raw_fabric_step.specs.Causes.{MayTake};
ghost use Rattle.raw_fabric_step.specs.Fired.{IsHeldFor, HasFired};
ghost use Rattle.raw_fabric_step.specs.Switches.{HasInputs, HasRouted};

use crate::looks::{Asks, Unmet, see_ends};
use crate::moves::{commit_row, fetch_operand};
use crate::pairs::{bump_where, end_where, stage_where};
use crate::post::Post;
use crate::word::bump;
use raw_fabric_rule::{END_COUNT, PassSeat, Words};
use raw_processor::Needs;
use raw_switch::{SwitchState, SwitchStep, switch_fire};
use raw_switch_isa::next_end;

// What a switch has taken.
#[derive(Drop)]
pub(crate) struct Inputs {
    // The values taken, by input.
    pub(crate) given: [Option<u32>; END_COUNT],
    // The switch's status word with their counts.
    pub(crate) status: u64,
}

// What an instruction of a switch asks of its ends.
fn switch_asks(step: &SwitchStep) -> Asks
    ensures { (set : ProgramSet) (p : ℕ) (l : Local) → needs set p l ≡ switch_needs (Some step.now) →
        gives set p l ≡ switch_gives (Some step.now) → AreAsked set p l result }
{
    Asks {
        needs: Needs {
            inputs: step.inputs(),
            outputs: step.outputs(),
        },
        each: 1,
    }
}

// Loads the operand at each input that an instruction uses.
fn take_inputs(
    words: &Words<'_>,
    seat: &mut PassSeat,
    post: &Post<'_>,
    status: u64,
    step: &SwitchStep,
) -> Inputs
    requires stands { TurnStands words.now.key words.now.table_id seat.old post.now status }
    requires may { MayTake words.now.key post.now.p (mine seat.old.me.0 post.now.index) }
    requires needs { needs words.now.key.set post.now.p (mine seat.old.me.0 post.now.index).local ≡ switch_needs (Some step.now) }
    ensures kept { TurnKept words.now.key post.now seat.old seat.new }
    ensures held { IsHeldFor (mine seat.old.me.0 post.now.index) (mine seat.new.me.0 post.now.index) }
    ensures inputs { HasInputs words.now.key post.now.p status step.now result (mine seat.new.me.0 post.now.index) }
{
    let inputs = step.inputs();
    let mut given = [None; END_COUNT];
    let mut raised = status;
    let mut end = next_end(inputs, 0);
    'ends: while end < END_COUNT {
        let value = fetch_operand(words, seat, post, status, end, 0);
        given[end] = Some(value);
        raised = bump(raised, end);
        end = next_end(inputs, end + 1);
    }
    Inputs {
        given,
        status: raised,
    }
}

// Stores the value for each output that an instruction has a route to. The answer is the status word `taken` with
// their counts.
fn send_routes(
    words: &Words<'_>,
    seat: &mut PassSeat,
    post: &Post<'_>,
    status: u64,
    step: &SwitchStep,
    state: &SwitchState,
    given: &[Option<u32>; END_COUNT],
    taken: u64,
) -> u64
    requires stands { TurnStands words.now.key words.now.table_id seat.old post.now status }
    requires gives { gives words.now.key.set post.now.p (mine seat.old.me.0 post.now.index).local ≡ switch_gives (Some step.now) }
    requires empty { (mine seat.old.me.0 post.now.index).staged ≡ [] }
    requires packed { (counts : List ℕ) × (length counts ≡ SIDES) × (taken ≡ pack counts) }
    ensures kept { TurnKept words.now.key post.now seat.old seat.new }
    ensures routed { HasRouted (mine seat.old.me.0 post.now.index) (mine seat.new.me.0 post.now.index) taken result (routed step.now state.now.regs given.now) }
{
    let outputs = step.outputs();
    let mut raised = taken;
    let mut end = next_end(outputs, 0);
    'ends: while end < END_COUNT {
        let value = state.sent_from(step, end, given);
        stage_where(words, seat, post, status, END_COUNT + end, value);
        raised = bump_where(raised, end_where(value.is_some(), END_COUNT + end));
        end = next_end(outputs, end + 1);
    }
    raised
}

// Sends what an instruction sends, and stores the switch's status word, which is the answer. The operands are
// fetched already.
fn commit_routes(
    words: &Words<'_>,
    seat: &mut PassSeat,
    post: &Post<'_>,
    status: u64,
    step: &SwitchStep,
    state: &SwitchState,
    inputs: &Inputs,
) -> u64
    requires stands { TurnStands words.now.key words.now.table_id seat.old post.now status }
    requires step { IsSwitchStep words.now.key.set post.now.p (mine seat.old.me.0 post.now.index).local state.now step.now }
    requires inputs { HasInputs words.now.key post.now.p status step.now inputs.now (mine seat.old.me.0 post.now.index) }
    ensures same { IsSameSeat seat.old seat.new }
    ensures fired { HasFired words.now.key post.now.p post.now.index result (values_of (mine seat.old.me.0 post.now.index)) seat.old.me.0 seat.new.me.0 }
{
    let after = send_routes(
        words,
        seat,
        post,
        status,
        step,
        state,
        &inputs.given,
        inputs.status,
    );
    commit_row(words, seat, post, after);
    after
}

/// Steps a switch that is not stopped, if it can: it executes its next instruction. The answer is its status word
/// after the step.
#[inline(always)]
pub fn step_switch(
    words: &Words<'_>,
    seat: &mut PassSeat,
    post: &Post<'_>,
    status: u64,
    code: &[SwitchStep],
    state: &mut SwitchState,
) -> Result<u64, Unmet>
    requires stands { TurnStands words.now.key words.now.table_id seat.old post.now status }
    requires due { IsDue words.now.key post.now.p (mine seat.old.me.0 post.now.index) (Switch state.old) }
    requires switch { IsSwitchAt words.now.key.set post.now.p code.now state.old }
    ensures stepped { IfOk result (λ after. TurnStepped words.now.key post.now after (Switch state.new) None seat.old seat.new) }
    ensures waits { IfErr result (λ r. TurnWaits words.now.key post.now r seat.old seat.new state.old state.new) }
{
    let step = state.instruction(code);
    match see_ends(words, seat, post, status, switch_asks(step)) {
        Err(unmet) => Err(unmet),
        Ok(()) => {
            let inputs = take_inputs(words, seat, post, status, step);
            let after = commit_routes(words, seat, post, status, step, state, &inputs);
            switch_fire(state, code.len(), step, &inputs.given);
            Ok(after)
        }
    }
}
