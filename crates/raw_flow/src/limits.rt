//! The limit of a flow.

/// How many nodes a flow has at most: no more than `WORDS_IN_REACH`, since the value of a node stands at a word of its
/// own in the memories of tiles.
pub const MAX_NODES: usize = 8_192;
