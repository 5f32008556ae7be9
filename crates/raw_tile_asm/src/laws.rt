//! Laws of the definitions. Each function does nothing: its contract is the law.
ghost use Rattle.std.specs.Prelude.{◌*◌, ◌≤◌, List, length};
ghost use Rattle.std.specs.List.{AllByRecursion};
ghost use Rattle.raw_tile_isa.specs.Instruction.{Instruction, IsTileIns};
ghost use Rattle.raw_tile_asm.specs.Listing.{listing};
ghost use Rattle.raw_tile_asm.specs.ReadBack.{EachIsReadBack};
ghost use Rattle.raw_tile_asm.specs.Lawful.{EachFrontIsLawful};

use raw_asm::{law_first_lines, law_one_each};
use raw_tile_isa::{MAX_TILE_CODE, TileIns, law_codes, law_load};

/// The listing of a program of at most 16,384 instructions is a text without a fault, and its lines mean
/// the program.
pub fn law_read_back()
    ensures { EachIsReadBack }
{
    law_one_each::<TileIns>();
}

/// The instructions of a section's first lines keep the rules of their rows and are at most 16,384, where
/// none of these lines has a fault; so it is with the program that all lines mean.
pub fn law_lawful()
    ensures { EachFrontIsLawful }
{
    law_codes();
    law_load();
    law_first_lines::<TileIns>();
}

/// The listing of a program of at most 16,384 instructions has at most 88 bytes for each of them.
#[tactic(auto, using(crate::proofs::Short::listing_short))]
pub fn law_listing_is_short()
    ensures { (program : List Instruction) → length program ≤ MAX_TILE_CODE → AllByRecursion IsTileIns program →
        length (listing program) ≤ 88 * length program }
{}
