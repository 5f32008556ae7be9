//! The laws of histories and of reports. Each function does nothing of its own: its contract is the law.
ghost use Rattle.std.specs.Prelude.{◌≡◌, ◌⊎◌, ℕ, ◌<◌, ◌≤◌, ◌^◌, Some, None, List, [], ◌∷◌, codes, drop, map, slice_index_or};
ghost use Rattle.std.specs.List.{AllByRecursion};
ghost use Rattle.raw_text.specs.Lines.{lines_of, tokens_of, first_fault};
ghost use Rattle.raw_model.specs.Program.{ProgramSet, IsSet};
ghost use Rattle.raw_model.specs.Rest.{IsRun};
ghost use Rattle.raw_report.specs.History.{history_text, entries_of, IsBadEntry};
ghost use Rattle.raw_report.specs.Report.{report};

/// A list of steps that is written is read back, behind the line that says so.
pub fn law_history()
    // The text of a history is without a fault, its first line is the word `history`,
    ensures faultless { (steps : List ℕ) → AllByRecursion (λ p. p < 2 ^ 32) steps →
        first_fault 1 (lines_of (history_text steps)) ≡ None }
    ensures head { (steps : List ℕ) → AllByRecursion (λ p. p < 2 ^ 32) steps →
        slice_index_or (map tokens_of (lines_of (history_text steps))) 0 [] ≡ codes "history" ∷ [] }
    // and the lines behind it say the steps.
    ensures read_back { (procs : ℕ) (steps : List ℕ) → procs ≤ 2 ^ 32 → AllByRecursion (λ p. p < procs) steps →
        entries_of procs (drop 1 (map tokens_of (lines_of (history_text steps)))) ≡ Some steps }
    // Lines say steps, or there is a first bad entry, and not both.
    ensures either { (procs : ℕ) (lines : List (List (List ℕ))) →
        ((steps : List ℕ) × (entries_of procs lines ≡ Some steps))
        ⊎ ((k : ℕ) × IsBadEntry procs lines k) }
    ensures not_both { (procs k : ℕ) (lines : List (List (List ℕ))) →
        IsBadEntry procs lines k → entries_of procs lines ≡ None }
    ensures one_bad { (procs j k : ℕ) (lines : List (List (List ℕ))) →
        IsBadEntry procs lines j → IsBadEntry procs lines k → j ≡ k }
{}

/// Two lists of steps of a set that come to rest have the same report.
pub fn law_same_report()
    ensures { (set : ProgramSet) (h g : List ℕ) → IsSet set → IsRun set h → IsRun set g →
        report set g ≡ report set h }
{}
