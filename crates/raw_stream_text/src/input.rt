//! A stream with the words of its sources.
use raw_stream::StreamFlow;
use std::marker::Model;

/// A stream, and the words of its sources, one source behind the other.
#[derive(Drop)]
pub struct StreamInput {
    pub stream: StreamFlow,
    pub words: Vec<u32>,
}

impl Model for StreamInput {
    ghost use Rattle.raw_stream_text.specs.Streams.{FedStream};

    ghost Value = { FedStream };

    ghost view = { λ input. record { stream = input.stream; words = input.words.items } };
}
