//! Definitions of the words of a row.
use raw_flow::FlowOp;

/// One definition of a word in each row. Nodes are numbered from 0, in the order in which they stand.
#[derive(Clone, Copy, PartialEq, Eq)]
pub enum RowNode {
    /// The next word of the source of this number.
    Input { port: u32 },
    /// This word.
    Const { word: u32 },
    /// An operation on the values of two earlier nodes in the same row, by their numbers.
    Apply { op: FlowOp, a: u32, b: u32 },
    /// In the first row this word, and in each later one the value of a node in the row before: of any node, this one too.
    Pre { a: u32, word: u32 },
}
