//! The law of the definitions. The function does nothing: its contract is the law.
ghost use Rattle.std.specs.Prelude.{◌≡◌, ℕ, List, Some};
ghost use Rattle.raw_text.specs.declared.lines.TextRefusal.TheVariants.{Memory};
ghost use Rattle.raw_text.specs.Lines.{first_fault};

/// Want of memory is no fault of bytes: what is wrong with a text stands at a line.
pub fn law_text_faults()
    ensures { (number : ℕ) (lines : List (List ℕ)) → ¬ (first_fault number lines ≡ Some Memory) }
{}
