//! The limits of program sets, each once. A contract or a definition cites them by name, from
//! `Rattle.raw_model.specs.declared.limits.TheConstants`.

/// The most instructions that a tile or a switch may execute: the `limit` of a set is 1 to this.
pub const MAX_STEPS: u32 = 10_000_000;

/// The most values that a wire may hold: the `depth` of a set is 1 to this.
///
/// It cannot grow. The status word of a processor on the shared fabric has 3 bits for each of its 20 counts of
/// values, which tell 0 to 7 apart, and no bit of the 64 is left for a fourth.
pub const MAX_DEPTH: u8 = 7;

/// The values that a wire may hold in a set that does not say how many, and in each set that is made.
pub const DEFAULT_DEPTH: u8 = 4;

/// The bytes of a tile's memory, at the addresses 0 to one less than this.
pub const MEMORY_SIZE: u32 = 65_536;

/// The words of a tile's memory, at the addresses that 4 divides.
pub const MEMORY_WORDS: u32 = MEMORY_SIZE / 4;

/// The most instructions of all tile programs of a set together.
pub const MAX_ALL_CODE: u32 = 131_072;

/// The most instructions of all switch programs of a set together.
pub const MAX_ALL_SWITCH_CODE: u32 = 65_536;

/// The most words that stand in the memories of all tiles at the start.
pub const MAX_ALL_CELLS: u32 = 65_536;

/// The most numbers in the miss streams of all tiles together, each number 0 to 255.
pub const MAX_ALL_MISSES: u32 = 262_144;

/// The most words of all sources together.
pub const MAX_ALL_WORDS: u32 = 262_144;

/// The most words that one sink may hold: its capacity is 0 to this.
pub const MAX_CAPACITY: u32 = 1_000_000;

/// The most words that all sinks together may hold.
pub const MAX_ALL_CAPACITIES: u32 = 4_000_000;

/// The most `show` entries of a set.
pub const MAX_SHOWS: u32 = 1_000;

/// The most words of memory that all `show` entries together name.
pub const MAX_ALL_SHOWN: u32 = 65_536;

/// The bytes of a line of a tile's cache: the line of an address is the address divided by this.
pub const CACHE_LINE: u32 = 32;

/// The sets of a tile's cache: the set of a line is the line modulo this. Each holds two lines.
pub const CACHE_SETS: usize = 64;
