//! The limit of the programs of all instruction sets.

/// No instruction set has longer programs than this, so that no place of an instruction runs over.
pub const MAX_CODE: u32 = 65_536;
