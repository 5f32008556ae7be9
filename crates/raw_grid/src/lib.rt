//! The grid: its tiles, switches and edge ports, and the wires between them.
//!
//! As in MIT's Raw, tiles stand in a two-dimensional mesh, each with a switch beside it, and
//! neighbours are joined by the point-to-point links of two static networks. The numbers of
//! processors and wires are this project's own; `ProcId` and `WireId` say how they run.
//!
//! The wire between two tiles, by both of its ends (`raw_tests/src/topo.rt`):
//!
//! ```
//! let topo = Topo::new(rt.alloc(), 2, 1)?;
//! assert!(rt; topo.procs() == 4 && topo.wires() == 12);
//! let east = topo.wire_of(ProcId(2), Way::Out, Net::One, Dir::E);
//! let west = topo.wire_of(ProcId(3), Way::In, Net::One, Dir::W);
//! assert!(rt; east == Some(WireId(8)) && west == Some(WireId(8)));
//! ```
#![tactic(auto)]

mod grid;
mod laws;
mod limits;
mod names;
mod parts;
mod size;
mod wire;

pub use grid::{PortRefusal, Topo, TopoRefusal};
pub use laws::{law_ends, law_names, law_other_ends, law_sizes, law_wires};
pub use limits::{MAX_PORTS, MAX_PROCS, MAX_SIZE, MAX_TILES, MAX_WIRES};
pub use parts::{
    Dir, End, Ends, Net, OtherEnd, PortKind, PortPlace, ProcId, ProcKind, Side, Way, WireId,
};
