//! What is known of a grid when the lines behind `live` begin.
//!
//! The reader judges `put` lines by itself, with a copy of the places of the ports and a count of the words, since it
//! may not wait for the engine. That the engine's set stays a set with the words that the reader handed on is proved
//! from what the reader promises (`AreForSources`, and the room).
ghost use Rattle.std.specs.Prelude.{◌+◌, ◌^◌, ◌<◌, length};

use raw_grid::PortPlace;

/// What the lines behind `live` are judged by.
#[derive(Drop)]
pub struct Intake {
    /// The places of the ports, in the order of their numbers.
    pub places: Vec<PortPlace>,
    /// The processor number of the first port.
    pub first_port: u32,
    /// How many words the sources may be given.
    pub room: u32,
    /// The number of the first of the lines.
    pub line: u32,
    ghost ports: { first_port + length places.items < 2 ^ 32 },
}
