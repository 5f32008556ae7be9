//! The limits of a grid.

/// The most columns and the most rows of a grid. The least number of each is 1.
pub const MAX_SIZE: u8 = 8;

/// The most tiles of a grid: those of 8 columns and 8 rows.
pub const MAX_TILES: usize = 64;

/// The most ports of a grid: one of each kind on each network at each of the 32 edges of an 8 by 8 grid.
pub const MAX_PORTS: usize = 128;

/// The most processors of a grid: 64 tiles, as many switches, and 128 ports.
pub const MAX_PROCS: usize = 256;

/// The most wires of a grid: at each of 64 tiles 4 to and from its switch and at most 8 links, and one
/// for each port.
pub const MAX_WIRES: usize = 896;
