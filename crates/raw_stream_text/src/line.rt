//! What one line of the text of a stream says.
use raw_flow_text as flow;
use raw_set_text::Edge;

/// What a line with tokens says. Names are as they stand in the text.
#[derive(Drop)]
pub enum Line<'a> {
    /// What the line of a flow says: the grid, a constant or an operation.
    Flow(flow::Line<'a>),
    /// How many rows there are.
    Rows(u32),
    /// A name for the next word of the source at an edge.
    Input(&'a [u8], Edge),
    /// A name for what another one was in the row before, with its word in the first row.
    Pre(&'a [u8], &'a [u8], u32),
    /// A name whose value goes to the sink at an edge.
    Out(&'a [u8], Edge),
    /// Words for the source at an edge.
    Feed(Edge, Vec<u32>),
}
