//! The laws of traces. Each function does nothing: its contract is the law.
ghost use Rattle.std.specs.Prelude.{◌≡◌, ◌≢◌, ℕ, suc, ◌<◌, ◌≤◌, ◌==◌, ◌++◌, Bool, true, List, length, take};
ghost use Rattle.std.specs.List.{count_by};
ghost use Rattle.raw_grid.specs.Topology.{proc_count};
ghost use Rattle.raw_model.specs.Program.{ProgramSet, IsSet};
ghost use Rattle.raw_model.specs.StateTexts.{mark_of};
ghost use Rattle.raw_grid.specs.Wires.{wires_of};
ghost use Rattle.raw_set_text.specs.Listing.{listing};
ghost use Rattle.raw_lines.specs.Lines.{sources_text};
ghost use Rattle.raw_serial.specs.declared.turn.Turn.{Turn};
ghost use Rattle.raw_serial.specs.declared.turn.Turn.TheVariants.{Stopped};
ghost use Rattle.raw_clock.specs.Clock.{clock, machine_at, turn_in, spent, passed_in};
ghost use Rattle.raw_trace.specs.Bytes.{is_trace_byte, IsTraceText};
ghost use Rattle.raw_trace.specs.Lines.{trace_lines};
ghost use Rattle.raw_trace.specs.Text.{trace_text};
ghost use Rattle.raw_trace.specs.Reading.{lines_before};
ghost use Rattle.raw_trace.specs.Whole.{spread, sums, AreLongest, StopsLast, same_turn, turns_of, turn_pieces, sent_in, sending, distance_pieces};
ghost use Rattle.raw_trace.specs.Laws.{IsPosition, IsRead, AreWiresRead, IsGotRead, IsTurnRead};

/// A trace tells the run: what is read of its lines at a position, by copying alone (`specs/Reading.antt`), is the state
/// of the clock before that cycle.
pub fn law_reading()
    // The pc, the registers, the memory, the steps and the misses of each processor,
    ensures processors { (set : ProgramSet) (n first past k p : ℕ) → IsSet set → IsPosition n first past k → p < proc_count set.topo →
        IsRead set k p (lines_before k (trace_lines set n first past)) }
    // the values on each wire,
    ensures wires { (set : ProgramSet) (n first past k : ℕ) → IsSet set → IsPosition n first past k →
        AreWiresRead set k (lines_before k (trace_lines set n first past)) }
    // what each sink got since the first cycle of the trace,
    ensures got { (set : ProgramSet) (n first past k : ℕ) → IsSet set → IsPosition n first past k →
        IsGotRead set first k (lines_before k (trace_lines set n first past)) }
    // and the turn of each processor.
    ensures turns { (set : ProgramSet) (n first past k p : ℕ) → IsSet set → IsPosition n first past k → p < proc_count set.topo →
        IsTurnRead set k p (trace_lines set n first past) }
{}

/// The lines of a whole run tell it: the turn of each processor at each position, and in which cycles a value is sent on each
/// wire.
pub fn law_whole()
    // The turns of a processor at the positions 0 to n are those of which its pieces are cut.
    ensures turns { (set : ProgramSet) (n p : ℕ) → spread (turn_pieces set n p) ≡ turns_of set p (suc n) }
    // These are the longest: two that stand behind one another have other turns, and none stands behind a stop,
    ensures longest { (set : ProgramSet) (n p : ℕ) → AreLongest same_turn (turn_pieces set n p) }
    ensures stops { (set : ProgramSet) (n p : ℕ) → IsSet set → p < proc_count set.topo → StopsLast (turn_pieces set n p) }
    // whose mark is the one that the processor has as long as it is stopped.
    ensures marks { (set : ProgramSet) (n p k : ℕ) → IsSet set → p < proc_count set.topo → k ≤ n → turn_in set (clock set k) p ≡ Stopped →
        mark_of set (machine_at (clock set n)) p ≡ mark_of set (machine_at (clock set k)) p }
    // So the turns of each kind before the last position are as many as are counted.
    ensures spent { (set : ProgramSet) (n p : ℕ) (kind : Turn → Bool) →
        count_by kind (take n (spread (turn_pieces set n p))) ≡ spent set n p kind }
    // The cycles in which the turn line of its producer tells a value sent on a wire are the sums of the distances,
    ensures sent { (set : ProgramSet) (n w : ℕ) → sums (spread (distance_pieces set n w)) ≡ sending set w n }
    // one value in each, and so the distances are as many as values passed on it.
    ensures once { (set : ProgramSet) (w k : ℕ) → length (sent_in set w k) ≤ 1 }
    ensures passed { (set : ProgramSet) (n w : ℕ) → IsSet set → w < length (wires_of set.topo) →
        length (spread (distance_pieces set n w)) ≡ passed_in set n w }
    ensures longest_distances { (set : ProgramSet) (n w : ℕ) → AreLongest (λ a b. a == b) (distance_pieces set n w) }
{}

/// A trace stands in a page as it is: none of its bytes begins a tag, a comment or a reference.
pub fn law_no_markup()
    // It is made of letters, digits, blanks, ends of lines and some marks, where what stands in front is,
    ensures text { (front : List ℕ) (set : ProgramSet) (whole : Bool) (n from most : ℕ) →
        IsTraceText front → IsTraceText (trace_text front set whole n from most) }
    // as the listing of a set, with what is told of the lines of a text behind it,
    ensures listing { (set : ProgramSet) → IsTraceText (listing set) }
    ensures sources { (set : ProgramSet) (lines : List (List (List ℕ))) →
        IsTraceText (listing set ++ sources_text set.topo lines) }
    // of which none is '<' or '&'.
    ensures no_markup { (b : ℕ) → is_trace_byte b ≡ true → (b ≢ 60) × (b ≢ 38) }
{}
