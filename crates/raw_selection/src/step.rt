//! The one instruction by which an operation is done.
use raw_flow::FlowOp;
use raw_frame::Register;
use raw_graph::{Operand, Origin, commutes};
use raw_tile_isa::{TileIns, TileOp, is_short};

/// An operation as one instruction does it, before its registers are known.
#[derive(Clone, Copy)]
pub enum Operation {
    /// On two registers, in the order in which they are read.
    Registers {
        op: FlowOp,
        first: Operand,
        second: Operand,
    },
    /// On a register and the low half of a word.
    Immediate {
        op: FlowOp,
        first: Operand,
        low: u16,
    },
    /// A shift by an amount.
    Shift {
        op: FlowOp,
        first: Operand,
        amount: u8,
    },
}

// The low half of a word.
fn low_half(word: u32) -> u16 {
    (word & 0xffff) as u16
}

// The operation, if an immediate can stand for a word that is its second operand.
fn with_word(op: FlowOp, first: Operand, word: u32) -> Option<Operation> {
    let minus = 0_u32.wrapping_sub(word);
    let (op, low, fits) = match op {
        FlowOp::Add => (op, word, word != 0 && is_short(word)),
        FlowOp::Sub => (FlowOp::Add, minus, word != 0 && is_short(minus)),
        FlowOp::And | FlowOp::Or | FlowOp::Xor => (op, word, word < 1 << 16),
        FlowOp::Less | FlowOp::LessUnsigned => (op, word, is_short(word)),
        _ => (op, word, false),
    };
    if fits {
        let low = low_half(low);
        Some(Operation::Immediate { op, first, low })
    } else {
        None
    }
}

// Whether an operation is a shift.
fn is_shift(op: FlowOp) -> bool {
    match op {
        FlowOp::ShiftLeft | FlowOp::ShiftRight | FlowOp::ShiftRightSigned => true,
        _ => false,
    }
}

// The operation on two registers: a shift reads the amount first.
fn on_registers(op: FlowOp, a: Operand, b: Operand) -> Operation {
    let (first, second) = if is_shift(op) { (b, a) } else { (a, b) };
    Operation::Registers { op, first, second }
}

// The operation with a word as its second operand.
fn on_word(op: FlowOp, a: Operand, word: u32) -> Operation {
    if is_shift(op) {
        let amount = (word & 31) as u8;
        return Operation::Shift {
            op,
            first: a,
            amount,
        };
    }
    match with_word(op, a, word) {
        Some(step) => step,
        None => on_registers(op, a, Operand::Word(word)),
    }
}

/// The instruction of a value that is made.
pub fn step_of(origin: Origin) -> Option<Operation> {
    match origin {
        Origin::Input(_) => None,
        Origin::Made {
            op,
            a,
            b: Operand::Word(word),
        } => Some(on_word(op, a, word)),
        Origin::Made { op, a, b } => Some(on_registers(op, a, b)),
    }
}

// A word that has to stand in a register; 0 stands in register 0.
fn in_register(operand: Operand) -> Option<u32> {
    match operand {
        Operand::Word(0) => None,
        Operand::Word(word) => Some(word),
        Operand::Value(_) => None,
    }
}

/// The constant that an operation on a value and a constant has to find in a register.
pub fn constant_of(op: FlowOp, a: Operand, b: Operand) -> Option<u32> {
    if a.value().is_none() && b.value().is_none() {
        return None;
    }
    let step = step_of(Origin::Made { op, a, b })?;
    let second = in_register(step.second()?);
    second.or(in_register(step.first()))
}

impl Operation {
    /// What is read from the first register.
    pub fn first(self) -> Operand {
        match self {
            Operation::Registers { first, .. } => first,
            Operation::Immediate { first, .. } => first,
            Operation::Shift { first, .. } => first,
        }
    }

    /// What is read from the second register, if there is one.
    pub fn second(self) -> Option<Operand> {
        match self {
            Operation::Registers { second, .. } => Some(second),
            Operation::Immediate { .. } => None,
            Operation::Shift { .. } => None,
        }
    }

    /// Whether the operands may change places.
    pub fn commutes(self) -> bool {
        match self {
            Operation::Registers { op, .. } => commutes(op),
            Operation::Immediate { .. } => false,
            Operation::Shift { .. } => false,
        }
    }

    /// The instruction that makes the value in a register, with its operands in these.
    pub fn instruction(self, to: Register, first: Register, second: Register) -> TileIns {
        match self {
            Operation::Registers { op, .. } => registers(op, to, first, second),
            Operation::Immediate { op, low, .. } => immediate(op, to, first, low),
            Operation::Shift { op, amount, .. } => shift(op, to, first, amount),
        }
    }
}

// An operation of arithmetic on registers.
fn arithmetic(op: FlowOp, to: Register, first: Register, second: Register) -> TileIns {
    let (rd, rs, rt) = (to.field(), first.field(), second.field());
    match op {
        FlowOp::Sub => TileIns::registers(TileOp::Subu, rd, rs, rt),
        FlowOp::Mul => TileIns::registers(TileOp::Mul, rd, rs, rt),
        FlowOp::MulHigh => TileIns::registers(TileOp::Mulhi, rd, rs, rt),
        FlowOp::MulHighUnsigned => TileIns::registers(TileOp::Mulhu, rd, rs, rt),
        _ => TileIns::registers(TileOp::Addu, rd, rs, rt),
    }
}

// An operation on registers.
fn registers(op: FlowOp, to: Register, first: Register, second: Register) -> TileIns {
    let (rd, rs, rt) = (to.field(), first.field(), second.field());
    match op {
        FlowOp::And => TileIns::registers(TileOp::And, rd, rs, rt),
        FlowOp::Or => TileIns::registers(TileOp::Or, rd, rs, rt),
        FlowOp::Xor => TileIns::registers(TileOp::Xor, rd, rs, rt),
        FlowOp::Nor => TileIns::registers(TileOp::Nor, rd, rs, rt),
        FlowOp::Less => TileIns::registers(TileOp::Slt, rd, rs, rt),
        FlowOp::LessUnsigned => TileIns::registers(TileOp::Sltu, rd, rs, rt),
        FlowOp::ShiftLeft => TileIns::registers(TileOp::Sllv, rd, rs, rt),
        FlowOp::ShiftRight => TileIns::registers(TileOp::Srlv, rd, rs, rt),
        FlowOp::ShiftRightSigned => TileIns::registers(TileOp::Srav, rd, rs, rt),
        _ => arithmetic(op, to, first, second),
    }
}

// An operation on a register and an immediate.
fn immediate(op: FlowOp, to: Register, first: Register, low: u16) -> TileIns {
    let (rt, rs) = (to.field(), first.field());
    match op {
        FlowOp::And => TileIns::immediate(TileOp::Andi, rt, rs, low),
        FlowOp::Or => TileIns::immediate(TileOp::Ori, rt, rs, low),
        FlowOp::Xor => TileIns::immediate(TileOp::Xori, rt, rs, low),
        FlowOp::Less => TileIns::immediate(TileOp::Slti, rt, rs, low),
        FlowOp::LessUnsigned => TileIns::immediate(TileOp::Sltiu, rt, rs, low),
        _ => TileIns::immediate(TileOp::Addiu, rt, rs, low),
    }
}

// A shift by an amount.
fn shift(op: FlowOp, to: Register, first: Register, amount: u8) -> TileIns {
    let (rd, rt, amount) = (to.field(), first.field(), amount & 31);
    match op {
        FlowOp::ShiftRight => TileIns::shift(TileOp::Srl, rd, rt, amount),
        FlowOp::ShiftRightSigned => TileIns::shift(TileOp::Sra, rd, rt, amount),
        _ => TileIns::shift(TileOp::Sll, rd, rt, amount),
    }
}

/// `addu $d, $s, $0`.
pub fn copy(to: Register, from: Register) -> TileIns {
    TileIns::registers(TileOp::Addu, to.field(), from.field(), 0)
}

/// A cell of the memory of a tile, a word of its first 32 KiB, by its number.
#[derive(Clone, Copy, PartialEq, Eq)]
pub struct Cell(pub u16);

impl Cell {
    // Where it begins, in bytes.
    fn offset(self) -> u16 {
        (self.0 & 0x1fff) * 4
    }
}

/// `lw $d, 4c($0)`, of the cell with number c.
pub fn load(to: Register, cell: Cell) -> TileIns {
    TileIns::immediate(TileOp::Lw, to.field(), 0, cell.offset())
}

/// `sw $s, 4c($0)`, to the cell with number c.
pub fn store(from: Register, cell: Cell) -> TileIns {
    TileIns::immediate(TileOp::Sw, from.field(), 0, cell.offset())
}
