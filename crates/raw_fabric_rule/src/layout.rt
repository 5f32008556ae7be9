//! How the words of a fabric lie in its table, and the counts in a status word.
//!
//! The status words of all processors stand first, and then the data words of all wires. With `STRIDE` each status word, and
//! the data words of each wire, begin 128 bytes behind the ones before, so that no two share a cache line, nor a pair
//! of lines of 64 bytes, which some processors load together. The words between them are not used.
ghost use Rattle.std.specs.Prelude.{◌≡◌};
ghost use Rattle.raw_fabric_rule.specs.Word.{status_at, data_at};

/// The words from one status word to the next, and from the first data word of one wire to that of the next.
pub const STRIDE: u32 = 16;

/// The data words of a wire, and what counts are kept modulo.
///
/// A wire holds from 0 to its depth of values, and so a depth below this number is told by a count sent less a count taken.
/// A depth of 8 would need counts modulo 9 or more, which are four bits each: 80 for the `SIDES` counts of a processor,
/// and a status word has 64.
pub const PLACES: u64 = 8;

/// The bits of a count in a status word: `PLACES` is two to this power.
pub const COUNT_BITS: usize = 3;

/// The end indices of a processor: five on each of two networks. Inputs have the numbers of their end indices, and outputs
/// this number more.
///
/// A third network would bring fifteen: thirty counts of `COUNT_BITS` are 90 bits, and a status word has 64.
pub const END_COUNT: usize = 10;

/// The inputs and outputs of a processor, and so the counts of its status word, of which 60 bits are used.
pub const SIDES: usize = 20;

/// The input P of network 1.
pub const INPUT_P1: usize = 4;

/// The input P of network 2.
pub const INPUT_P2: usize = 9;

/// The output P of network 1.
pub const OUTPUT_P1: usize = 14;

/// The output P of network 2.
pub const OUTPUT_P2: usize = 19;

/// The place of the status word of a processor in the table.
pub(crate) fn status_at(p: u32) -> usize
    ensures { result ≡ status_at p }
{
    STRIDE as usize * p as usize
}

/// The place of data word `k` of a wire in the table of a grid with so many processors.
pub(crate) fn data_at(processors: u32, wire: u32, k: u32) -> usize
    ensures { result ≡ data_at processors wire k }
{
    STRIDE as usize * (processors as usize + wire as usize) + k as usize
}
