//! Laws of the definitions. Each function does nothing: its contract is the law.
ghost use Rattle.std.specs.Prelude.{◌≡◌, ◌*◌, ◌≤◌, Some, true, List, length, All};
ghost use Rattle.raw_switch_isa.specs.declared.table.SwitchOp.{SwitchOp};
ghost use Rattle.raw_switch_isa.specs.Table.{uses, is_rd};
ghost use Rattle.raw_switch_isa.specs.Instruction.{SwitchInstruction, IsSwitchIns};
ghost use Rattle.raw_switch_asm.specs.Operand.{field_place};
ghost use Rattle.raw_switch_asm.specs.Listing.{listing};
ghost use Rattle.raw_switch_asm.specs.ReadBack.{EachListingIsReadBack};
ghost use Rattle.raw_switch_asm.specs.Lawful.{EachFrontIsLawful};

use raw_asm::{law_first_lines, law_one_each};
use raw_switch_isa::SwitchIns;
use raw_text::{law_lines, law_numbers, law_tokens};

/// The register stands before the other operands, so that faults of operands come from left to right.
pub fn law_register_first()
    ensures { (op : SwitchOp) → uses is_rd op ≡ true → field_place is_rd op ≡ Some 0 }
{}

/// A listing is a text without a fault, and means the program that was listed.
pub fn law_read_back()
    ensures { EachListingIsReadBack }
{
    law_lines();
    law_tokens();
    law_numbers();
    law_one_each::<SwitchIns>();
}

/// The instructions of a section's first lines keep the rules, name only ends with wires and are at most
/// 8,192, where none of these lines has a fault; so it is with the program that all lines mean.
pub fn law_lawful()
    ensures { EachFrontIsLawful }
{
    law_first_lines::<SwitchIns>();
}

/// A listing has at most 112 bytes for each instruction.
pub fn law_listing_is_short()
    ensures { (program : List SwitchInstruction) → All IsSwitchIns program → length (listing program) ≤ 112 * length program }
{
    law_lines();
    law_tokens();
    law_numbers();
}
