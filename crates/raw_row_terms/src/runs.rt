//! The numbers of the words of rows.
ghost use Rattle.std.specs.Prelude.{◌≡◌, ◌+◌, ◌<◌, ◌≤◌, ◌^◌, Some, length, map, slice_get, slice_index, IfOk};
ghost use Rattle.std.specs.List.{All, range_with_len};
ghost use Rattle.raw_model.specs.declared.limits.TheConstants.{MAX_ALL_WORDS};
ghost use Rattle.raw_stream.specs.Unrolled.{width, first, word_count, word_place};
ghost use Rattle.raw_row_terms.specs.RowClaims.{HasRows};
ghost use Rattle.raw_row_terms.specs.WordRuns.{runs_from, number_in};

use raw_stream::{RowNode, StreamFlow};
use std::alloc::{AllocError, Global};

/// Where the words of an input stand among those of all sources.
#[derive(Clone, Copy, Drop)]
pub(crate) struct WordRun {
    /// The number of that of the first row.
    pub(crate) first: u32,
    /// How far apart those of two rows are.
    pub(crate) step: u32,
}

// How many words stand before those of each source.
fn firsts(alloc: Global, stream: &StreamFlow) -> Result<Vec<u32>, AllocError>
    requires rows { HasRows stream.now }
    requires few { word_count stream.now ≤ MAX_ALL_WORDS }
    ensures { IfOk result (λ firsts. firsts.items ≡ map (first stream.now) (range_with_len 0 (length stream.now.sources))) }
{
    let mut firsts = Vec::new(alloc);
    let mut total = 0;
    for port in 0..stream.sources.len() {
        firsts.push(total as u32)?;
        total += stream.taken_of(port);
    }
    Ok(firsts)
}

// Where the words of the input at a place of a row stand.
fn run_of(stream: &StreamFlow, firsts: &[u32], port: u32, place: usize) -> WordRun
    requires rows { HasRows stream.now }
    requires few { word_count stream.now ≤ MAX_ALL_WORDS }
    requires there { place < length stream.now.nodes }
    requires port { port < length firsts.now }
    requires first { slice_index firsts.now port ≡ first stream.now port }
    requires inside { word_place stream.now 0 port place < word_count stream.now }
    ensures first { result.first ≡ 1 + word_place stream.now 0 port place }
    ensures step { result.step ≡ width stream.now port }
{
    let source = port as usize;
    let before = firsts[source];
    let rank = stream.rank(source, place);
    WordRun {
        first: 1 + before + rank as u32,
        step: stream.width(source) as u32,
    }
}

/// Where the words of the inputs of a row stand.
pub(crate) fn word_runs(alloc: Global, stream: &StreamFlow) -> Result<Vec<WordRun>, AllocError>
    requires rows { HasRows stream.now }
    requires few { word_count stream.now ≤ MAX_ALL_WORDS }
    ensures { IfOk result (λ runs. runs.items ≡ runs_from stream.now 0 stream.now.nodes) }
{
    let firsts = firsts(alloc, stream)?;
    let mut runs = Vec::new(alloc);
    for place in 0..stream.nodes.len() {
        if let RowNode::Input { port } = stream.nodes[place] {
            runs.push(run_of(stream, &firsts, port, place))?;
        }
    }
    Ok(runs)
}

// The number of a word of row r.
fn number_in(run: WordRun, row: u32) -> u32
    requires { number_in row run < 2 ^ 32 }
    ensures { result ≡ number_in row run }
{
    let number = u64::from(run.first) + u64::from(row) * u64::from(run.step);
    number as u32
}

/// The numbers of the words of row r.
pub(crate) fn numbers_of(alloc: Global, runs: &[WordRun], row: u32) -> Result<Vec<u32>, AllocError>
    requires { All (λ run. number_in row run < 2 ^ 32) runs.now }
    ensures { IfOk result (λ numbers. numbers.items ≡ map (number_in row) runs.now) }
{
    let mut numbers = Vec::new(alloc);
    for run in runs {
        numbers.push(number_in(*run, row))?;
    }
    Ok(numbers)
}
