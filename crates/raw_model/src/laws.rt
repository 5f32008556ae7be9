//! The laws of machines: what is so for every program set, whatever order its processors step in. Each
//! function does nothing: its contract is the law.
ghost use Rattle.std.specs.Prelude.{◌≡◌, ◌≢◌, ◌↔◌, ℕ, ◌+◌, ◌<◌, ◌≤◌, true, false, Some, None, List, [], ◌∷◌, ◌++◌, IsTrue, length, slice_get, slice_index_or};
ghost use Rattle.raw_network.specs.Network.{values_on, count_of};
ghost use Rattle.raw_network.specs.Wired.{IsWired, SendsOnce};
ghost use Rattle.raw_network.specs.Waits.{IsCovered};
ghost use Rattle.raw_network.specs.Laws.{IsPrefix, IsFirstBeyond};
ghost use Rattle.raw_grid.specs.Topology.{proc_count};
ghost use Rattle.raw_grid.specs.Wires.{producer_of, consumer_of, input_wire, output_wire};
ghost use Rattle.raw_switch_isa.specs.Instruction.{SwitchInstruction};
ghost use Rattle.raw_model.specs.Program.{ProgramSet, IsSet};
ghost use Rattle.raw_model.specs.Local.{Local, Switch, SwitchLocal};
ghost use Rattle.raw_model.specs.SwitchTable.{next_instruction};
ghost use Rattle.raw_model.specs.Machine.{switch_code, given_to, takes, sends, row, machine_of};
ghost use Rattle.raw_model.specs.Start.{MachineState, start, Fits, IsFit};
ghost use Rattle.raw_model.specs.Needs.{takes_at, sends_at, is_trapped_at_address, SendsOneEach, AreGiven};
ghost use Rattle.raw_model.specs.Rest.{enabled, stopped, step, IsLawful, IsLawfulFrom, end, end_from, IsQuiet, IsRun, passed_on, kth_local};
ghost use Rattle.raw_model.specs.Waits.{inputs_at, outputs_at, first_wait, other_end, waits_for, IsUnmet, IsBetween};
ghost use Rattle.raw_model.specs.Outcomes.{outcome, IsOutcome, ChainsEndStopped};
ghost use Rattle.raw_model.specs.Bounds.{all_left, most_steps};
ghost use Rattle.raw_model.specs.Serial.{sweep, sweeps, serial, IsJoined};
ghost use Rattle.raw_model.specs.Cache.{touches_of};
ghost use Rattle.raw_model.specs.Laws.{AreEnabled, ComesToRest, next_event, events_at, received_on, IsWithinDepth, IsLawfulJoining, BeginsWith, IsLeft};
ghost use Rattle.raw_model.specs.MoreWords.{AreAlikeButMoreWords, RunsOn};
ghost use Rattle.raw_model.specs.MissStreams.{AreAlikeButMisses, RunsTheSame, RestsTheSame};

use raw_grid::law_wires;

/// Each processor takes only from the wires that lead to it, and sends only to those that come from it.
pub fn law_wired()
    ensures wired { (set : ProgramSet) → IsSet set →
        IsWired (machine_of set) (producer_of set.topo) (consumer_of set.topo) }
    // A row names each wire once, and sends at most one value there.
    ensures sends_once { (set : ProgramSet) → SendsOnce (machine_of set) }
{}

/// What a processor's next row takes and sends at each of its ends is what the instruction sets say that its
/// instruction needs there.
pub fn law_needs()
    // Of a wire that leads to a processor, it takes as many values as the instruction needs at its end;
    ensures takes { (set : ProgramSet) (p : ℕ) (l : Local) (end w : ℕ) → end < 10 →
        input_wire set.topo p end ≡ Some w → count_of w (takes set p l) ≡ takes_at set p l end }
    // of one that comes from it, it names as many as the instruction fills.
    ensures sends { (set : ProgramSet) (p : ℕ) (l : Local) (end w : ℕ) → end < 10 →
        output_wire set.topo p end ≡ Some w → count_of w (sends set p l) ≡ sends_at set p l end }
    // And these are enough: each input that a switch's routes or its move name is given a value.
    ensures given { (set : ProgramSet) (p : ℕ) (l : SwitchLocal) (ins : SwitchInstruction) (values : List ℕ) →
        IsSet set → IsFit set p (Switch l) → next_instruction (switch_code set p) l ≡ Some ins →
        AreGiven ins l.regs (given_to set.topo p (Some ins) values) }
{
    law_wires();
}

/// A row sends one value to each wire that it names, whatever values it takes.
pub fn law_sent_exactly()
    ensures one_each { (set : ProgramSet) (p : ℕ) (l : Local) (values : List ℕ) → IsSet set → IsFit set p l →
        is_trapped_at_address (row set p l values).next ≡ false →
        SendsOneEach (sends set p l) (row set p l values).sent }
    // At an unlawful address it sends none.
    ensures none { (set : ProgramSet) (p : ℕ) (l : Local) (values : List ℕ) →
        is_trapped_at_address (row set p l values).next ≡ true → (row set p l values).sent ≡ [] }
{}

/// Two different processors that are enabled may step in either order.
pub fn law_diamond()
    // Each is still enabled after the step of the other,
    ensures still_enabled { (set : ProgramSet) (s : MachineState) (p q : ℕ) → IsSet set →
        AreEnabled set s p q →
        IsTrue (enabled set (step set s q) p) × IsTrue (enabled set (step set s p) q) }
    // both orders lead to the same state,
    ensures same_state { (set : ProgramSet) (s : MachineState) (p q : ℕ) → IsSet set →
        AreEnabled set s p q →
        step set (step set s p) q ≡ step set (step set s q) p }
    // and each step takes, sends and touches the same in both, and leaves its processor alike.
    ensures same_events { (set : ProgramSet) (s : MachineState) (p q : ℕ) → IsSet set →
        AreEnabled set s p q →
        (next_event set (step set s q) p ≡ next_event set s p)
        × (next_event set (step set s p) q ≡ next_event set s q) }
{}

/// One list of steps after another.
pub fn law_steps()
    // The whole is lawful exactly where the first is, and the second from the end of the first.
    ensures lawful { (set : ProgramSet) (s : MachineState) (front rest : List ℕ) →
        IsLawfulFrom set s (front ++ rest) ↔ (IsLawfulFrom set s front × IsLawfulFrom set (end_from set s front) rest) }
    ensures ends { (set : ProgramSet) (s : MachineState) (front rest : List ℕ) →
        end_from set s (front ++ rest) ≡ end_from set (end_from set s front) rest }
    ensures passed { (set : ProgramSet) (s : MachineState) (front rest : List ℕ) (w : ℕ) →
        passed_on set s (front ++ rest) w ≡ passed_on set s front w ++ passed_on set (end_from set s front) rest w }
    ensures touched { (set : ProgramSet) (s : MachineState) (front rest : List ℕ) (tile : ℕ) →
        touches_of set s (front ++ rest) tile ≡ touches_of set s front tile ++ touches_of set (end_from set s front) rest tile }
{}

/// What all lawful lists of steps from one state have in common.
pub fn law_same_rest()
    // No processor has more steps in a lawful list than in one that comes to rest.
    ensures at_most_as_often { (set : ProgramSet) (s : MachineState) (h g : List ℕ) → IsSet set →
        ComesToRest set s h → IsLawfulFrom set s g → (p : ℕ) → count_of p g ≤ count_of p h }
    // Of a processor that has k steps in both lists, the local state right after its k-th step is
    // the same,
    ensures same_locals { (set : ProgramSet) (s : MachineState) (h g : List ℕ) → IsSet set →
        IsLawfulFrom set s h → IsLawfulFrom set s g → (p k : ℕ) →
        k ≤ count_of p h → k ≤ count_of p g → kth_local set s g p k ≡ kth_local set s h p k }
    // and so is what its k-th step, which stands at k - 1, takes, sends and touches.
    ensures same_events { (set : ProgramSet) (s : MachineState) (h g : List ℕ) → IsSet set →
        IsLawfulFrom set s h → IsLawfulFrom set s g → (p i : ℕ) →
        i < count_of p h → i < count_of p g →
        slice_get (events_at set s g p) i ≡ slice_get (events_at set s h p) i }
    // What passed on a wire begins what passed there in a list that comes to rest.
    ensures prefix { (set : ProgramSet) (s : MachineState) (h g : List ℕ) → IsSet set →
        ComesToRest set s h → IsLawfulFrom set s g → (w : ℕ) →
        IsPrefix (passed_on set s g w) (passed_on set s h w) }
    // Two lists that come to rest end in the same state, pass the same on each wire, and touch the
    // same at each tile.
    ensures same_rest { (set : ProgramSet) (s : MachineState) (h g : List ℕ) → IsSet set →
        ComesToRest set s h → ComesToRest set s g → end_from set s g ≡ end_from set s h }
    ensures same_passed { (set : ProgramSet) (s : MachineState) (h g : List ℕ) → IsSet set →
        ComesToRest set s h → ComesToRest set s g → (w : ℕ) →
        passed_on set s g w ≡ passed_on set s h w }
    ensures same_touches { (set : ProgramSet) (s : MachineState) (h g : List ℕ) → IsSet set →
        ComesToRest set s h → ComesToRest set s g → (tile : ℕ) →
        touches_of set s g tile ≡ touches_of set s h tile }
    // Two lists in which each processor has as many steps end in the same state.
    ensures same_end { (set : ProgramSet) (s : MachineState) (h g : List ℕ) → IsSet set →
        IsLawfulFrom set s h → IsLawfulFrom set s g → ((p : ℕ) → count_of p g ≡ count_of p h) →
        end_from set s g ≡ end_from set s h }
    // The processor of the first entry of h that goes beyond the steps of g is enabled in the end
    // of g.
    ensures next_is_enabled { (set : ProgramSet) (s : MachineState) (h g front : List ℕ) (p : ℕ) (rest : List ℕ) →
        IsSet set → IsLawfulFrom set s h → IsLawfulFrom set s g →
        IsFirstBeyond h g front p rest → IsTrue (enabled set (end_from set s g) p) }
{}

/// Every lawful list of steps ends.
pub fn law_bound()
    // A lawful list from the start has no more steps than the set allows,
    ensures most_steps { (set : ProgramSet) (h : List ℕ) → IsSet set →
        IsLawful set h → length h ≤ most_steps set }
    // and one from any state no more than its processors have left.
    ensures no_longer { (set : ProgramSet) (s : MachineState) (h : List ℕ) →
        IsLawfulFrom set s h → length h + all_left set (end_from set s h) ≤ all_left set s }
    // Every set has a list that comes to rest, from the start and from any state.
    ensures some_run { (set : ProgramSet) → (h : List ℕ) × IsRun set h }
    ensures some_rest { (set : ProgramSet) (s : MachineState) → (h : List ℕ) × ComesToRest set s h }
{}

/// The serial order of steps is lawful, and comes to rest. Sweeping until no processor is enabled gives
/// that very list, however many sweeps that takes.
pub fn law_serial()
    ensures run { (set : ProgramSet) → IsSet set → IsRun set (serial set) }
    // A sweep of a quiet state takes no step,
    ensures still { (set : ProgramSet) (s : MachineState) → IsQuiet set s → sweep set s ≡ [] }
    // and of a state that is not quiet at least one.
    ensures moves { (set : ProgramSet) (s : MachineState) → Fits set s → sweep set s ≡ [] → IsQuiet set s }
    ensures until_quiet { (set : ProgramSet) (n : ℕ) → IsSet set →
        IsQuiet set (end set (sweeps set n (start set))) → sweeps set n (start set) ≡ serial set }
{}

/// The logs of several workers, from which some lawful list is joined, can be woven into one list: take
/// any entry that is enabled and comes first in its log.
pub fn law_weaving()
    // What is left of the logs is again joined by a lawful list, with the same end;
    ensures taken { (set : ProgramSet) (s : MachineState) (logs : List (List ℕ)) (w p : ℕ) (rest steps : List ℕ) →
        IsSet set → IsLawfulJoining set s logs steps → BeginsWith logs w p rest → IsTrue (enabled set s p) →
        (others : List ℕ) × IsLeft set s logs w p rest steps others }
    // where anything is left, some log begins with an entry that is enabled;
    ensures goes_on { (set : ProgramSet) (s : MachineState) (logs : List (List ℕ)) (p : ℕ) (steps : List ℕ) →
        IsLawfulJoining set s logs (p ∷ steps) →
        IsTrue (enabled set s p) × ((w : ℕ) × (rest : List ℕ) × BeginsWith logs w p rest) }
    // where nothing is left, each log is empty;
    ensures spent { (logs : List (List ℕ)) (w : ℕ) → IsJoined [] logs → slice_index_or logs w [] ≡ [] }
    // and all lawful lists that are joined from the same logs end alike.
    ensures same_end { (set : ProgramSet) (s : MachineState) (logs : List (List ℕ)) (h g : List ℕ) → IsSet set →
        IsLawfulJoining set s logs h → IsLawfulJoining set s logs g → end_from set s g ≡ end_from set s h }
{}

/// A miss stream changes how many stall turns its tile owes, and nothing that this crate defines of runs.
pub fn law_miss_streams()
    ensures start { (a b : ProgramSet) → AreAlikeButMisses a b → start a ≡ start b }
    ensures runs { (a b : ProgramSet) (steps : List ℕ) → AreAlikeButMisses a b → RunsTheSame a b steps }
    ensures rests { (a b : ProgramSet) (s : MachineState) → AreAlikeButMisses a b → RestsTheSame a b s }
{}

/// A machine whose sources are given more words does all that it does with fewer.
pub fn law_more_words()
    ensures start { (few more : ProgramSet) → AreAlikeButMoreWords few more → start more ≡ start few }
    ensures runs { (few more : ProgramSet) (s : MachineState) (steps : List ℕ) → AreAlikeButMoreWords few more →
        IsLawfulFrom few s steps → RunsOn few more s steps }
{}

/// Each state that a machine comes to is within its ranges.
pub fn law_fits()
    ensures start_fits { (set : ProgramSet) → IsSet set → Fits set (start set) }
    ensures step_fits { (set : ProgramSet) (s : MachineState) (p : ℕ) → IsSet set →
        Fits set s → IsTrue (enabled set s p) → Fits set (step set s p) }
    ensures end_fits { (set : ProgramSet) (s : MachineState) (h : List ℕ) → IsSet set →
        Fits set s → IsLawfulFrom set s h → Fits set (end_from set s h) }
{}

/// Wires are queues, and never hold more than the set says.
pub fn law_queues()
    // What was on a wire and then what was sent there is what was taken from it and then what is on
    // it.
    ensures queue { (set : ProgramSet) (s : MachineState) (h : List ℕ) (w : ℕ) →
        IsLawfulFrom set s h → w < length s.wires →
        values_on s.wires w ++ passed_on set s h w
        ≡ received_on set s h w ++ values_on (end_from set s h).wires w }
    ensures depth { (set : ProgramSet) (s : MachineState) (h : List ℕ) →
        IsLawfulFrom set s h → IsWithinDepth set s → IsWithinDepth set (end_from set s h) }
{}

/// A processor waits exactly where it is neither stopped nor enabled, and then for another.
pub fn law_waits()
    // Each wire that a row takes from is among the inputs of its processor, and each that it may
    // send to among the outputs.
    ensures covered { (set : ProgramSet) →
        IsCovered (machine_of set) (inputs_at set.topo) (outputs_at set.topo) }
    ensures none_where_enabled { (set : ProgramSet) (s : MachineState) (p : ℕ) →
        p < length s.locals → stopped set s p ≡ false →
        (first_wait set s p ≡ None) ↔ IsTrue (enabled set s p) }
    ensures none_where_stopped { (set : ProgramSet) (s : MachineState) (p : ℕ) →
        stopped set s p ≡ true → first_wait set s p ≡ None }
    // The first wait is for a wire whose need is unmet, which leads from the one processor to the
    // other,
    ensures unmet { (set : ProgramSet) (s : MachineState) (p : ℕ) (l : Local) (w : ℕ) →
        slice_get s.locals p ≡ Some l → first_wait set s p ≡ Some w → IsUnmet set s p l w }
    ensures between { (set : ProgramSet) (s : MachineState) (p w : ℕ) → IsSet set →
        first_wait set s p ≡ Some w → IsBetween set.topo w p (other_end set.topo p w) }
    // and that one is another processor of the set.
    ensures other { (set : ProgramSet) (s : MachineState) (p q : ℕ) → IsSet set →
        waits_for set s p ≡ Some q → (q ≢ p) × (q < proc_count set.topo) }
{}

/// How a state came to rest.
pub fn law_outcome()
    // The outcome says what it says: of a deadlock, that these processors are the cycle of waits that
    // begins with the least processor on any cycle; of each other outcome, that there is no cycle.
    ensures says { (set : ProgramSet) (s : MachineState) → IsSet set → IsOutcome set s (outcome set s) }
    // Without a cycle each chain of waits ends in a processor that is stopped.
    ensures chains { (set : ProgramSet) (s : MachineState) → IsSet set → Fits set s → IsQuiet set s →
        ChainsEndStopped set s }
{}
