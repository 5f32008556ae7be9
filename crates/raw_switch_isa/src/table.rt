//! The table of switch instructions.
ghost use Rattle.std.specs.Prelude.{◌≡◌, string_bytes};
ghost use Rattle.raw_switch_isa.specs.Table.{row_of, op_named, op_with, uses, is_rd, is_src, is_target};

use self::SwitchOperand::{Rd, Src, Target};

/// What a switch instruction does beside its routes.
///
/// Where nothing else is said the next pc is one more; a pc counts instructions. `r` is the switch
/// register that the field `rd` names.
#[derive(Clone, Copy, PartialEq, Eq)]
pub enum SwitchOp {
    /// `nop`: nothing.
    Nop,
    /// `j T`: the next pc is the target.
    Jump,
    /// `beqz R, T`: the next pc is the target where `r` is 0.
    Beqz,
    /// `bnez R, T`: the next pc is the target where `r` is not 0.
    Bnez,
    /// `bnezd R, T`: as `bnez` on the old value, and `r` loses 1 modulo 2^32 in both cases.
    Bnezd,
    /// `move R, S`: `r` is the value of the source.
    Move,
    /// `halt`: halts, and the pc stays.
    Halt,
}

/// What stands in an operand's place in the text, by the field that it fills.
#[derive(Clone, Copy, PartialEq, Eq)]
pub enum SwitchOperand {
    /// A switch register, `r0` to `r3`.
    Rd,
    /// What a move takes its value from: a register, or an input such as `1:W`.
    Src,
    /// An instruction number, 0 to 65,535, or a label.
    Target,
}

// A row of the table: what an operation is in text and in its word.
#[derive(Clone, Copy)]
struct Row {
    // The name in text.
    name: &'static str,
    // The number in the field op of its words.
    number: u64,
    // The operands, in the order of the text.
    operands: &'static [SwitchOperand],
}

impl Row {
    const fn of(name: &'static str, number: u64, operands: &'static [SwitchOperand]) -> Row
        ensures name { result.name.now ≡ name.now }
        ensures number { result.number ≡ number }
        ensures operands { result.operands.now ≡ operands.now }
    {
        Row {
            name,
            number,
            operands,
        }
    }
}

impl SwitchOp {
    /// The operations in the order of the table.
    pub const ALL: [SwitchOp; 7] = [
        SwitchOp::Nop,
        SwitchOp::Jump,
        SwitchOp::Beqz,
        SwitchOp::Bnez,
        SwitchOp::Bnezd,
        SwitchOp::Move,
        SwitchOp::Halt,
    ];

    // The operation's row.
    fn row(self) -> Row
        ensures name { result.name.now ≡ (row_of self).name }
        ensures number { result.number ≡ (row_of self).number }
        ensures operands { result.operands.now ≡ (row_of self).operands }
    {
        match self {
            SwitchOp::Nop => Row::of("nop", 0, &[]),
            SwitchOp::Jump => Row::of("j", 1, &[Target]),
            SwitchOp::Beqz => Row::of("beqz", 2, &[Rd, Target]),
            SwitchOp::Bnez => Row::of("bnez", 3, &[Rd, Target]),
            SwitchOp::Bnezd => Row::of("bnezd", 4, &[Rd, Target]),
            SwitchOp::Move => Row::of("move", 5, &[Rd, Src]),
            SwitchOp::Halt => Row::of("halt", 6, &[]),
        }
    }

    /// The name in the text, in lower case.
    pub fn name(self) -> &'static str
        ensures { result.now ≡ (row_of self).name }
    {
        self.row().name
    }

    // The number in the field op of the word.
    pub(crate) fn number(self) -> u64
        ensures { result ≡ (row_of self).number }
    {
        self.row().number
    }

    /// The operands in the order of the text. Routes stand behind them.
    pub fn operands(self) -> &'static [SwitchOperand]
        ensures { result.now ≡ (row_of self).operands }
    {
        self.row().operands
    }

    // The operation with this number.
    #[tactic(auto, unfolding(crate::specs::Table::op_with))]
    pub(crate) fn with_number(number: u64) -> Option<SwitchOp>
        ensures { result ≡ op_with number }
    {
        SwitchOp::ALL
            .iter()
            .copied()
            .find(|op| op.number() == number)
    }

    /// The operation with this name, which is told apart by case.
    #[tactic(auto, unfolding(crate::specs::Table::op_named))]
    pub fn named(name: &[u8]) -> Option<SwitchOp>
        ensures { result ≡ op_named name.now }
    {
        SwitchOp::ALL
            .iter()
            .copied()
            .find(|op| op.name().as_bytes() == name)
    }

    pub(crate) fn uses_rd(self) -> bool
        ensures { result ≡ uses is_rd self }
    {
        self.operands().contains(&SwitchOperand::Rd)
    }

    pub(crate) fn uses_src(self) -> bool
        ensures { result ≡ uses is_src self }
    {
        self.operands().contains(&SwitchOperand::Src)
    }

    pub(crate) fn uses_target(self) -> bool
        ensures { result ≡ uses is_target self }
    {
        self.operands().contains(&SwitchOperand::Target)
    }
}
