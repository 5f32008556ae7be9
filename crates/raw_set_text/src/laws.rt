//! Laws of the definitions. Each function does nothing: its contract is the law.
ghost use Rattle.std.specs.Prelude.{◌≡◌, ℕ, ◌≤◌, List, length};
ghost use Rattle.raw_text.specs.Lines.{written_lines};
ghost use Rattle.raw_model.specs.Program.{ProgramSet, IsSet};
ghost use Rattle.raw_set_text.specs.Meaning.{IsMeaning, IsOneSet};
ghost use Rattle.raw_set_text.specs.Listing.{listing};
ghost use Rattle.raw_set_text.specs.Texts.{Meaning, IsOneText};
ghost use Rattle.raw_set_text.specs.Worked.{worked_set, worked_lines};

use raw_text::MAX_TEXT;

/// Lines mean exactly one set, which keeps all that sets keep, or have exactly one least fault, and not both.
pub fn law_one_answer()
    ensures { (lines : List (List (List ℕ))) → IsOneSet lines }
{
    raw_tile_asm::law_lawful();
    raw_switch_asm::law_lawful();
}

/// A text means exactly one set, or has exactly one least fault, and not both.
pub fn law_one_text()
    ensures { (bytes : List ℕ) → IsOneText bytes }
{
    law_one_answer();
}

/// A set that lines mean keeps all that sets keep.
pub(crate) fn law_lawful()
    ensures { (lines : List (List (List ℕ))) (set : ProgramSet) → IsMeaning lines set → IsSet set }
{
    law_one_answer();
}

/// The listing of a set means the set: it is a text without a fault whose lines mean the set.
pub fn law_read_back()
    ensures back { (set : ProgramSet) → IsSet set → Meaning (listing set) set }
    ensures short { (set : ProgramSet) → IsSet set → length (listing set) ≤ MAX_TEXT }
    ensures worked { listing worked_set ≡ written_lines worked_lines }
{
    raw_tile_asm::law_read_back();
    raw_switch_asm::law_read_back();
    raw_tile_asm::law_listing_is_short();
    raw_switch_asm::law_listing_is_short();
    raw_grid::law_wires();
}
