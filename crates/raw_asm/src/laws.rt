//! Laws of the definitions. Each function does nothing: its contract is the law.
ghost use Rattle.std.specs.Prelude.{ℕ, List};
ghost use Rattle.raw_asm.specs.Language.{Language};
ghost use Rattle.raw_asm.specs.Refusal.{HasOneAnswer};
ghost use Rattle.raw_asm.specs.FirstLines.{KeepsSizes, EachIsGiven, AreFew};
ghost use Rattle.raw_asm.specs.OneEach.{OneEachMeans};

/// Lines have exactly one meaning or exactly one least fault, and not both, in every language.
pub fn law_one_answer<I: Copy>()
    ensures { (language : Language I) (lines : List (List (List ℕ))) → HasOneAnswer language lines }
{}

/// Where the first lines of a section have no fault, statements of the language give all their
/// instructions; and where each statement gives as many as its size tells, these are no more than a
/// program has at most.
pub fn law_first_lines<I: Copy>()
    ensures given { (language : Language I) → EachIsGiven language }
    ensures few { (language : Language I) → KeepsSizes language → AreFew language }
{}

/// Lines that give one instruction each mean the program of these.
pub fn law_one_each<I: Copy>()
    ensures { (language : Language I) → OneEachMeans language }
{}
