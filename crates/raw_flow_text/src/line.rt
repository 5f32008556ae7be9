//! What one line of a flow text says.
use raw_flow::FlowOp;

/// What a line with tokens says. Names are as they stand in the text.
#[derive(Clone, Copy)]
pub enum Line<'a> {
    /// The columns and the rows of the grid.
    Grid(u32, u32),
    /// A name for an input, and the word that is put in.
    Input(&'a [u8], u32),
    /// A name for a constant word.
    Const(&'a [u8], u32),
    /// A name for an operation on the values of two names.
    Apply(&'a [u8], FlowOp, &'a [u8], &'a [u8]),
    /// A name whose value is wanted.
    Out(&'a [u8]),
}
