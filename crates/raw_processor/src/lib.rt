//! One processor of a machine, by its kind: the wires at its ends, what its next step takes and
//! sends, whether it is stopped, and its firing; and the cache of a tile, which says which touches miss,
//! with the miss stream, which says what a miss costs.
//!
//! The cache is two-way with least recently used replacement and has 64 sets of lines of 32 bytes. It keeps which lines it
//! holds and no bytes: stalls delay a tile and change no value.
//!
//! Each call is the definition of `raw_model` for that kind. None takes memory.
//!
//! Three lines of one set of the cache, which keeps two (`raw_tests/src/cache.rt`):
//!
//! ```
//! let mut cache = Cache::new();
//! for address in [0, 2048, 4096, 0] {
//!     assert!(rt; cache.touch(address));
//! }
//! ```
#![tactic(auto)]

mod cache;
mod code;
mod end_wires;
mod needs;
mod port_state;
mod ports;
mod proc_set;
mod processor;
mod stream;
mod switches;
mod tiles;
mod touching;

pub use cache::Cache;
pub use code::{switch_steps, tile_steps};
pub use end_wires::{EndWires, ends_of, peers_at};
pub use needs::Needs;
pub use port_state::PortState;
pub use ports::{
    capacity_of, fire_sink, fire_source, port_of, sink_needs, sink_stopped, source_needs,
    source_stopped, words_of,
};
pub use proc_set::ProcSet;
pub use processor::{Processor, SwitchUnit, TileUnit};
pub use stream::owed_at;
pub use switches::{has_wires, switch_needs, switch_stopped};
pub use tiles::{TileWires, step_wires, tile_step, tile_stopped, tile_wires};
pub use touching::{stream_of, touch};
