//! The grid on which a stream is to run.
use crate::body::{SinkId, SourceId};
use raw_frame::{Part, TileId};
use raw_grid::{Net, PortPlace, Side};

/// A grid and where the sources and sinks stand at it, by their numbers.
#[derive(Clone, Copy)]
pub struct Site<'a> {
    pub part: Part,
    pub sources: &'a [PortPlace],
    pub sinks: &'a [PortPlace],
}

impl<'a> Site<'a> {
    // The tile at which a port stands.
    fn tile(&self, place: Option<&PortPlace>) -> TileId {
        match place {
            Some(place) => self
                .part
                .tile_at(usize::from(place.x), usize::from(place.y)),
            None => TileId::CORNER,
        }
    }

    /// The tile at which a source stands.
    pub fn source_tile(&self, source: SourceId) -> TileId {
        self.tile(self.sources.get(source.0))
    }

    /// The tile at which a sink stands.
    pub fn sink_tile(&self, sink: SinkId) -> TileId {
        self.tile(self.sinks.get(sink.0))
    }

    /// The side of its tile at which a source stands, and its network.
    pub fn source_end(&self, source: SourceId) -> (Side, Net) {
        match self.sources.get(source.0) {
            Some(place) => (place.side, place.net),
            None => (Side::W, Net::One),
        }
    }

    /// The side of its tile at which a sink stands, and its network.
    pub fn sink_end(&self, sink: SinkId) -> (Side, Net) {
        match self.sinks.get(sink.0) {
            Some(place) => (place.side, place.net),
            None => (Side::W, Net::One),
        }
    }
}
