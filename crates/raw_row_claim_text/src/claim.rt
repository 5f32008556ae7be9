//! A set with a stream that is claimed of it.
use raw_model::Set;
use raw_stream_text::StreamInput;

/// A set, and a stream that says what it is to compute: each source and sink of the stream stands for the port of the set at
/// its place.
#[derive(Drop)]
pub struct RowClaim {
    /// The set.
    pub set: Set,
    /// What is claimed of it, on a grid of the same size, with the words that its lines feed.
    pub input: StreamInput,
}
