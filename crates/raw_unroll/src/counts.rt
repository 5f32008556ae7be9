//! How many words there are.
ghost use Rattle.std.specs.Prelude.{◌≡◌, ◌<◌, ◌≤◌, ◌^◌, length, map, IfOk};
ghost use Rattle.std.specs.List.{range_with_len};
ghost use Rattle.raw_model.specs.declared.limits.TheConstants.{MAX_ALL_WORDS};
ghost use Rattle.raw_stream.specs.Unrolled.{first, word_count};

use raw_stream::StreamFlow;
use std::alloc::{AllocError, Global};

/// How many words all sources give.
pub(crate) fn word_count(stream: &StreamFlow) -> u64
    requires nodes { length stream.now.nodes < 2 ^ 32 }
    requires words { word_count stream.now ≤ MAX_ALL_WORDS }
    ensures { result ≡ word_count stream.now }
{
    let mut total = 0;
    for port in 0..stream.sources.len() {
        total += stream.taken_of(port);
    }
    total
}

/// Where the words of each source begin, among those of all.
pub(crate) fn first_places(alloc: Global, stream: &StreamFlow) -> Result<Vec<u32>, AllocError>
    requires nodes { length stream.now.nodes < 2 ^ 32 }
    requires words { word_count stream.now ≤ MAX_ALL_WORDS }
    ensures { IfOk result (λ places. places.items ≡ map (first stream.now) (range_with_len 0 (length stream.now.sources))) }
{
    let mut places = Vec::new(alloc);
    let mut total: u64 = 0;
    for port in 0..stream.sources.len() {
        places.push(total as u32)?;
        total += stream.taken_of(port);
    }
    Ok(places)
}
