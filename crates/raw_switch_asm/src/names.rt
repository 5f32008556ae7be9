//! The operations of the table by their names.
use raw_asm::NameTable;
use raw_switch_isa::SwitchOp;

/// The table of operations.
pub(crate) struct SwitchTable;

impl NameTable for SwitchTable {
    ghost use Rattle.raw_switch_isa.specs.Table.{row_of, all_ops};

    type Value = SwitchOp;

    ghost values = { all_ops };

    ghost name_of = { λ op. (row_of op).name };

    fn values() -> &'static [SwitchOp] {
        &SwitchOp::ALL
    }

    fn name(op: SwitchOp) -> &'static str {
        op.name()
    }
}

/// Finds each operation of the table at its name.
pub(crate) type Names = raw_asm::Names<SwitchTable>;
