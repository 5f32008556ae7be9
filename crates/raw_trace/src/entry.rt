//! What a line of a trace tells of a processor.

/// What the line of a state or of a firing tells of a processor, beside its pc.
#[derive(Clone, Copy, PartialEq, Eq)]
pub enum Entry {
    /// Of a state: it has taken so many steps.
    Count(u64),
    /// Of a firing: a value is taken from the front of the wire with this number.
    Taken(u32),
    /// A value stands on the wire with this number, or is sent there: the wire and the word.
    Sent(u32, u32),
    /// A register holds a word, or it is written there: the register's number and the word.
    Register(u8, u32),
    /// Of a firing: a load reads bytes of the word at this address, a multiple of 4.
    Loaded(u32),
    /// The word at an address is not the given one, or is stored there in whole or in part: the address, a multiple of
    /// 4, and the whole word.
    Stored(u32, u32),
    /// Of a state: the tile has missed its cache so often.
    Misses(u64),
    /// Of a firing: the load or store missed the cache, and the tile owes so many turns for it.
    Missed(u8),
}

impl Default for Entry {
    /// What room for entries is filled with.
    fn default() -> Entry {
        Entry::Count(0)
    }
}
