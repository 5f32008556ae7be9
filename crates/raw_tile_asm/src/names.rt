//! The instructions of the table by their names.

use raw_asm::NameTable;
use raw_tile_isa::TileOp;

/// The table of instructions.
pub struct TileTable;

impl NameTable for TileTable {
    ghost use Rattle.raw_tile_isa.specs.Table.{row_of, all_ops};

    type Value = TileOp;

    ghost values = { all_ops };

    ghost name_of = { λ op. (row_of op).name };

    fn values() -> &'static [TileOp] {
        &TileOp::ALL
    }

    fn name(op: TileOp) -> &'static str {
        op.name()
    }
}

/// Finds each instruction of the table at its name.
pub type Names = raw_asm::Names<TileTable>;
