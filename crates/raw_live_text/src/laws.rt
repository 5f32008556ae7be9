//! Laws of the definitions. The function does nothing: its contract is the law.
ghost use Rattle.std.specs.Prelude.{◌≡◌, ℕ, ◌+◌, ◌≤◌, List, [], ◌++◌, length, Some, None};
ghost use Rattle.raw_text.specs.Lines.{lines_of, first_fault};
ghost use Rattle.raw_live_text.specs.declared.intake.Intake.{Intake};
ghost use Rattle.raw_live_text.specs.declared.fault.LineFault.{LineFault};
ghost use Rattle.raw_live_text.specs.declared.head.HeadEnd.TheVariants.{Open, Mark, Fault};
ghost use Rattle.raw_live_text.specs.Feeding.{whole_lines, open_at, fed, AreForSources, BeginsItems};
ghost use Rattle.raw_live_text.specs.Heads.{head_of, IsFaultOf};

/// What the lines of a head and those behind `live` mean stays, whatever lines follow.
pub fn law_heads()
    ensures unended { (word : List ℕ) (number : ℕ) (front back : List (List ℕ)) → head_of word number front ≡ Open →
        head_of word number (front ++ back) ≡ head_of word (number + length front) back }
    ensures marked { (word : List ℕ) (number line : ℕ) (front back : List (List ℕ)) → head_of word number front ≡ Mark line →
        head_of word number (front ++ back) ≡ Mark line }
    ensures faulty { (word : List ℕ) (number line : ℕ) (kind : LineFault) (front back : List (List ℕ)) →
        head_of word number front ≡ Fault line kind → head_of word number (front ++ back) ≡ Fault line kind }
    ensures faultless { (word : List ℕ) (number : ℕ) (lines : List (List ℕ)) → head_of word number lines ≡ Open →
        first_fault number lines ≡ None }
    ensures fault { (word : List ℕ) (number line : ℕ) (kind : LineFault) (lines : List (List ℕ)) →
        head_of word number lines ≡ Fault line kind → IsFaultOf line kind (first_fault number lines) }

    // The whole lines of bytes are the first of their lines, and stay so.
    ensures whole { (bytes : List ℕ) →
        (rest : List (List ℕ)) × (lines_of bytes ≡ whole_lines bytes ++ rest) }
    ensures whole_longer { (front back : List ℕ) →
        (rest : List (List ℕ)) × (whole_lines (front ++ back) ≡ whole_lines front ++ rest) }

    // What lines behind `live` put.
    ensures none { (intake : Intake) → fed intake [] ≡ open_at intake.line [] }
    ensures stopped { (intake : Intake) (fault : ℕ × LineFault) (front back : List (List ℕ)) →
        (fed intake front).fault ≡ Some fault → fed intake (front ++ back) ≡ fed intake front }
    ensures begins { (intake : Intake) (front back : List (List ℕ)) →
        BeginsItems (fed intake front).items (fed intake (front ++ back)).items }
    ensures alike { (a b : Intake) → a.places.items ≡ b.places.items → a.first_port ≡ b.first_port → a.room ≡ b.room → a.line ≡ b.line →
        (lines : List (List ℕ)) → fed a lines ≡ fed b lines }
    ensures sources { (intake : Intake) (lines : List (List ℕ)) → AreForSources intake (fed intake lines).items }
    ensures room { (intake : Intake) (lines : List (List ℕ)) → length (fed intake lines).items ≤ intake.room }
{}
