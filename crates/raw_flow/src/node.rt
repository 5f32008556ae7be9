//! Definitions of words.

/// An operation on two words, each of 32 bits.
#[derive(Clone, Copy, PartialEq, Eq)]
pub enum FlowOp {
    /// The sum, modulo 2^32.
    Add,
    /// The first less the second, modulo 2^32.
    Sub,
    /// The low word of the product.
    Mul,
    /// The high word of the product of signed words.
    MulHigh,
    /// The high word of the product of unsigned words.
    MulHighUnsigned,
    And,
    Or,
    Xor,
    /// The complement of `Or`.
    Nor,
    /// 1 where the first is below the second as signed words, else 0.
    Less,
    /// 1 where the first is below the second as unsigned words, else 0.
    LessUnsigned,
    /// The first shifted to the left by the second modulo 32.
    ShiftLeft,
    /// The first shifted to the right by the second modulo 32, with zeros from the left.
    ShiftRight,
    /// The first shifted to the right by the second modulo 32, with its sign from the left.
    ShiftRightSigned,
}

/// One definition of a word. Nodes are numbered from 0, in the order in which they stand.
#[derive(Clone, Copy, PartialEq, Eq)]
pub enum Node {
    /// The next word that is put in.
    Input,
    /// This word.
    Const { word: u32 },
    /// An operation on the values of two earlier nodes, by their numbers.
    Apply { op: FlowOp, a: u32, b: u32 },
}
