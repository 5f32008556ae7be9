//! What the source and the sink are given.
ghost use Rattle.std.specs.Prelude.{◌≡◌, IfOk};
ghost use Rattle.raw_generated.specs.Generated.{next_word, words_from, port_programs};

use raw_model::PortProg;
use std::alloc::{AllocError, Global};

// The word that follows a word, by the multiplier and the increment of a well-known linear
// congruential generator modulo 2^32.
fn next_word(word: u32) -> u32
    ensures { result ≡ next_word word }
{
    word.wrapping_mul(1_664_525).wrapping_add(1_013_904_223)
}

// So many words, from this one on.
fn words_from(alloc: Global, count: u32, first: u32) -> Result<Vec<u32>, AllocError>
    ensures { IfOk result (λ words. words.items ≡ words_from count first) }
{
    let mut words = Vec::new(alloc);
    let mut word = first;
    for _ in 0..count {
        words.push(word)?;
        word = next_word(word);
    }
    Ok(words)
}

/// The source's words, and how many the sink takes.
pub(crate) fn port_programs(alloc: Global, n: u32) -> Result<Vec<PortProg>, AllocError>
    ensures { IfOk result (λ ports. ports.items ≡ port_programs n) }
{
    let source = PortProg {
        words: words_from(alloc, n, n)?,
        capacity: 0,
    };
    let sink = PortProg {
        words: Vec::new(alloc),
        capacity: n,
    };
    let mut ports = Vec::new(alloc);
    ports.push(source)?;
    ports.push(sink)?;
    Ok(ports)
}
