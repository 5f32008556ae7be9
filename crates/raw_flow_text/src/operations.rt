//! The operations of a flow by their names.
use raw_asm::NameTable;
use raw_flow::FlowOp;

/// The table of operations.
pub struct FlowTable;

impl NameTable for FlowTable {
    ghost use Rattle.raw_flow_text.specs.Forms.{op_name, all_ops};

    type Value = FlowOp;

    ghost values = { all_ops };

    ghost name_of = { op_name };

    fn values() -> &'static [FlowOp] {
        &[
            FlowOp::Add,
            FlowOp::Sub,
            FlowOp::Mul,
            FlowOp::MulHigh,
            FlowOp::MulHighUnsigned,
            FlowOp::And,
            FlowOp::Or,
            FlowOp::Xor,
            FlowOp::Nor,
            FlowOp::Less,
            FlowOp::LessUnsigned,
            FlowOp::ShiftLeft,
            FlowOp::ShiftRight,
            FlowOp::ShiftRightSigned,
        ]
    }

    fn name(op: FlowOp) -> &'static str {
        match op {
            FlowOp::Add => "add",
            FlowOp::Sub => "sub",
            FlowOp::Mul => "mul",
            FlowOp::MulHigh => "mulhi",
            FlowOp::MulHighUnsigned => "mulhu",
            FlowOp::And => "and",
            FlowOp::Or => "or",
            FlowOp::Xor => "xor",
            FlowOp::Nor => "nor",
            FlowOp::Less => "slt",
            FlowOp::LessUnsigned => "sltu",
            FlowOp::ShiftLeft => "sll",
            FlowOp::ShiftRight => "srl",
            FlowOp::ShiftRightSigned => "sra",
        }
    }
}

/// Finds each operation of the table at its name.
pub type Operations = raw_asm::Names<FlowTable>;
