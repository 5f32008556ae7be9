//! The limits of scripts.

/// How many instructions a processor of a set that is made of a script executes at most. Programs of scripts have no
/// loops, and this is more than the longest program has.
pub const PARTS_LIMIT: u32 = 20_000;

/// How many words of a tile's memory a script can name: `lw` and `sw` with register 0 reach the word at address 4v
/// where v is less than this, since an offset of 2^15 or more counts back.
pub const WORDS_IN_REACH: usize = 8_192;
