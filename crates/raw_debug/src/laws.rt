//! The laws of what the debugger shows, and of where it stops. Each function does nothing of its own: its contract is the
//! law.
ghost use Rattle.std.specs.Prelude.{◌≡◌, ℕ, ◌+◌, ◌-◌, ◌<◌, ◌≤◌, true, false, Some, None, List, ◌++◌, length, map, slice_get};
ghost use Rattle.std.specs.List.{AllByRecursion};
ghost use Rattle.raw_text.specs.Lines.{tokens_of, line_fault};
ghost use Rattle.raw_network.specs.Network.{count_of};
ghost use Rattle.raw_model.specs.Program.{ProgramSet, IsSet};
ghost use Rattle.raw_model.specs.Start.{start};
ghost use Rattle.raw_model.specs.Rest.{IsLawful, kth_local};
ghost use Rattle.raw_model.specs.Serial.{serial};
ghost use Rattle.raw_debug.specs.declared.command.Aim.{Aim};
ghost use Rattle.raw_debug.specs.Walking.{up_to, state_at, count_at, moment_of};
ghost use Rattle.raw_debug.specs.Stops.{is_stop, stop_after, last_up_to, stopped_after, did, IsNext, IsLatest};
ghost use Rattle.raw_debug.specs.Commands.{LabelPlaces, bad_command};
ghost use Rattle.raw_debug.specs.Script.{Spot, first_spot, past_end, script_text};
ghost use Rattle.raw_debug.specs.Live.{answers, spot_after};

use raw_model::{law_same_rest, law_serial};

/// What is shown of a processor at its k-th step is so in every order of steps.
pub fn law_shown_state()
    // The local state that is shown is the one that every lawful list has right after the processor's k-th step,
    ensures shown { (set : ProgramSet) (p k : ℕ) (steps : List ℕ) → IsSet set → IsLawful set steps →
        k ≤ count_of p (serial set) → k ≤ count_of p steps →
        slice_get (state_at set p k).locals p ≡ kth_local set (start set) steps p k }
    // and no lawful list has more steps of a processor than can be shown.
    ensures most { (set : ProgramSet) (p : ℕ) (steps : List ℕ) → IsSet set → IsLawful set steps →
        count_of p steps ≤ count_of p (serial set) }
    // The state that is shown comes of a front of the serial order, in which the processor has k steps.
    ensures begins { (set : ProgramSet) (p k : ℕ) →
        (rest : List ℕ) × (serial set ≡ up_to p k (serial set) ++ rest) }
    ensures kth { (set : ProgramSet) (p k : ℕ) → k ≤ count_of p (serial set) →
        count_of p (up_to p k (serial set)) ≡ k }
{
    law_serial();
    law_same_rest();
}

/// Where a script stops is no accident of one run.
pub fn law_same_stops()
    // It stops right after the first step of the serial order that does what is aimed at,
    ensures first { (set : ProgramSet) (moment p : ℕ) (aim : Aim) (n : ℕ) → stop_after set moment p aim ≡ Some n →
        IsNext (λ k. is_stop set p aim (k - 1) ≡ true) moment n }
    // and nowhere where no step does.
    ensures nowhere { (set : ProgramSet) (moment p : ℕ) (aim : Aim) → stop_after set moment p aim ≡ None →
        (k : ℕ) → moment < k → k ≤ length (serial set) → is_stop set p aim (k - 1) ≡ false }
    // The step at which it stops is, in every lawful list that goes so far, the next one of its processor that does what is
    // aimed at: leaves it at a pc, makes a word of its memory what it was not, or sends a value on a wire.
    ensures same { (set : ProgramSet) (moment p : ℕ) (aim : Aim) (n : ℕ) (steps : List ℕ) → IsSet set → IsLawful set steps →
        stop_after set moment p aim ≡ Some n → count_at set p n ≤ count_of p steps →
        IsNext (λ k. did set steps p aim k ≡ true) (count_at set p moment) (count_at set p n) }
    // So from right after the k-th step of that processor, or from the start, it hangs on no order of the others.
    ensures from { (set : ProgramSet) (moment p k : ℕ) (aim : Aim) (n : ℕ) (steps : List ℕ) → IsSet set → IsLawful set steps →
        moment_of set p k ≡ Some moment → stop_after set moment p aim ≡ Some n → count_at set p n ≤ count_of p steps →
        IsNext (λ j. did set steps p aim j ≡ true) k (count_at set p n) }
    // Back, it stops right after the latest step of the serial order so far that does what is aimed at,
    ensures latest { (set : ProgramSet) (moment p : ℕ) (aim : Aim) (n : ℕ) → last_up_to set moment p aim ≡ Some n →
        IsLatest (λ k. is_stop set p aim (k - 1) ≡ true) moment n }
    // and nowhere where none did.
    ensures none_before { (set : ProgramSet) (moment p : ℕ) (aim : Aim) → last_up_to set moment p aim ≡ None →
        (k : ℕ) → 0 < k → k ≤ moment → is_stop set p aim (k - 1) ≡ false }
    // In every lawful list that goes so far it is the latest one of its processor that does what is aimed at. From right after
    // the k-th step of that processor, or from the start, it hangs on no order of the others.
    ensures same_latest { (set : ProgramSet) (moment p : ℕ) (aim : Aim) (n : ℕ) (steps : List ℕ) → IsSet set → IsLawful set steps →
        last_up_to set moment p aim ≡ Some n → count_at set p moment ≤ count_of p steps →
        IsLatest (λ k. did set steps p aim k ≡ true) (count_at set p moment) (count_at set p n) }
    ensures back_from { (set : ProgramSet) (moment p k : ℕ) (aim : Aim) (n : ℕ) (steps : List ℕ) → IsSet set → IsLawful set steps →
        moment_of set p k ≡ Some moment → last_up_to set moment p aim ≡ Some n → k ≤ count_of p steps →
        IsLatest (λ j. did set steps p aim j ≡ true) k (count_at set p n) }
    // Where it stops right after the last step of a processor, no lawful list has more of them.
    ensures all_steps { (set : ProgramSet) (moment p n : ℕ) (steps : List ℕ) → IsSet set → IsLawful set steps →
        stopped_after set moment p ≡ Some n → count_of p steps ≤ count_at set p n }
    // Right after the k-th step of a processor there are k of them.
    ensures steps { (set : ProgramSet) (p k n : ℕ) → moment_of set p k ≡ Some n → count_at set p n ≡ k }
{
    law_serial();
    law_same_rest();
}

/// What was answered line by line is what a script writes.
pub fn law_replay()
    // Where each line is a command and none goes past the end, the answers to them are the output of the script.
    ensures replay { (labels : LabelPlaces) (set : ProgramSet) (lines : List (List ℕ)) → AllByRecursion (λ line. line_fault 1 line ≡ None) lines →
        bad_command labels set (map tokens_of lines) ≡ None → past_end labels set (map tokens_of lines) ≡ None →
        answers labels set first_spot lines ≡ script_text labels set (map tokens_of lines) }
    // The answers to more lines are those to the first ones, and then those to the others from where these led.
    ensures more { (labels : LabelPlaces) (set : ProgramSet) (spot : Spot) (front back : List (List ℕ)) →
        answers labels set spot (front ++ back) ≡ answers labels set spot front ++ answers labels set (spot_after labels set spot front) back }
{}
