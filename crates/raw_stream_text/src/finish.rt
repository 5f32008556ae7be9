//! The stream that is built, where all lines are added.
ghost use Rattle.std.specs.Prelude.{◌≡◌, ◌≤◌, ◌<◌, ◌^◌, List, [], length, map, IfOk, All};
ghost use Rattle.std.specs.Option.{option_map};
ghost use Rattle.raw_flow_text.specs.Building.{Answers};
ghost use Rattle.raw_stream_text.specs.Seated.{IsNear};
ghost use Rattle.raw_stream_text.specs.Statement.{Statement};
ghost use Rattle.raw_stream_text.specs.Streams.{words_to, words_of_all, fed_by};
ghost use Rattle.raw_stream_text.specs.Faults.{are_fed, has_fewer, has_more, whole_fault, end_fault};
ghost use Rattle.raw_stream_text.specs.Building.{feed_in, IsNamed, BuilderStands};

use crate::builder::{Builder, Fed, at};
use crate::input::StreamInput;
use crate::named::Named;
use raw_grid::{PortKind, Topo};
use raw_set_text::{SetKind, SetRefusal};
use raw_stream::StreamFlow;
use std::alloc::{AllocError, Global};

// The words of the source of this number.
fn words_to(alloc: Global, feeds: &[Fed], port: usize) -> Result<Vec<u32>, AllocError>
    ensures { IfOk result (λ words. words.items ≡ words_to (map feed_in feeds.now) port) }
{
    let mut words = Vec::new(alloc);
    for place in 0..feeds.len() {
        if feeds[place].port as usize == port {
            words.extend_from_slice(&feeds[place].words)?;
        }
    }
    Ok(words)
}

// Whether a source has fewer words than all rows take.
fn has_fewer(alloc: Global, stream: &StreamFlow, feeds: &[Fed]) -> Result<bool, AllocError>
    requires { length stream.now.nodes < 2 ^ 32 }
    ensures { IfOk result (λ fewer. fewer ≡ has_fewer stream.now (map feed_in feeds.now)) }
{
    for port in 0..stream.sources.len() {
        let words = words_to(alloc, feeds, port)?;
        if (words.len() as u64) < stream.taken_of(port) {
            return Ok(true);
        }
    }
    Ok(false)
}

// Whether a source has more words than all rows take.
fn has_more(alloc: Global, stream: &StreamFlow, feeds: &[Fed]) -> Result<bool, AllocError>
    requires { length stream.now.nodes < 2 ^ 32 }
    ensures { IfOk result (λ more. more ≡ has_more stream.now (map feed_in feeds.now)) }
{
    for port in 0..stream.sources.len() {
        let words = words_to(alloc, feeds, port)?;
        if (words.len() as u64) > stream.taken_of(port) {
            return Ok(true);
        }
    }
    Ok(false)
}

// The words of so many sources, one source behind the other.
fn words_of_all(alloc: Global, feeds: &[Fed], sources: usize) -> Result<Vec<u32>, AllocError>
    ensures { IfOk result (λ words. words.items ≡ words_of_all (map feed_in feeds.now) sources) }
{
    let mut all = Vec::new(alloc);
    for port in 0..sources {
        let words = words_to(alloc, feeds, port)?;
        all.extend_from_slice(&words)?;
    }
    Ok(all)
}

// Whether the words of sources matter.
fn are_fed(claimed: Option<&Topo>, feeds: &[Fed]) -> bool
    ensures { result ≡ are_fed (option_map (λ topo. topo.now) claimed.entry) (map feed_in feeds.now) }
{
    match claimed {
        Some(_) => feeds.len() > 0,
        None => true,
    }
}

// Refuses a stream that is faulty as a whole.
fn expect_whole(
    alloc: Global,
    fed: bool,
    stream: &StreamFlow,
    feeds: &[Fed],
    end: u32,
) -> Result<(), SetRefusal>
    requires nodes { length stream.now.nodes < 2 ^ 32 }
    requires outs { length stream.now.outs < 2 ^ 32 }
    ensures { Answers result end (whole_fault fed stream.now (map feed_in feeds.now)) }
{
    if stream.outs.is_empty() {
        return Err(at(end, SetKind::Missing));
    }
    if fed && has_fewer(alloc, stream, feeds)? {
        return Err(at(end, SetKind::Missing));
    }
    if fed && has_more(alloc, stream, feeds)? {
        return Err(at(end, SetKind::OverLimit));
    }
    if stream.is_large() {
        return Err(at(end, SetKind::OverLimit));
    }
    Ok(())
}

impl Builder {
    /// The stream with the words of its sources, where all lines are added; `end` is the number of the line after the last.
    pub(crate) fn finish(
        self,
        alloc: Global,
        named: &Named<'_>,
        claimed: Option<&Topo>,
        end: u32,
    ) -> Result<StreamInput, SetRefusal>
        requires nodes { length self.nodes.items < 2 ^ 32 }
        requires outs { length self.outs.items < 2 ^ 32 }
        requires sources { All IsNear named.now.sources }
        requires sinks { All IsNear named.now.sinks }
        ensures fault { (all : List Statement) → IsNamed named.now all → BuilderStands self all all → Answers result end (end_fault (option_map (λ topo. topo.now) claimed.entry) all) }
        ensures fed { (all : List Statement) → IsNamed named.now all → BuilderStands self all all → IfOk result (λ input. input ≡ fed_by all) }
    {
        let Some(size) = self.size else {
            return Err(at(end, SetKind::Missing));
        };
        let Some(count) = self.count else {
            return Err(at(end, SetKind::Missing));
        };
        let sources = named.sources.places(alloc, PortKind::Source)?;
        let sinks = named.sinks.places(alloc, PortKind::Sink)?;
        let feeds = self.feeds;
        let stream = StreamFlow {
            cols: size.0,
            rows: size.1,
            count,
            sources,
            sinks,
            nodes: self.nodes,
            outs: self.outs,
        };
        let fed = are_fed(claimed, &feeds);
        expect_whole(alloc, fed, &stream, &feeds, end)?;
        let words = words_of_all(alloc, &feeds, stream.sources.len())?;
        Ok(StreamInput { stream, words })
    }
}
