//! The layers of a picture, each put piece by piece.
ghost use Rattle.std.specs.Prelude.{◌≡◌, ◌<◌, ◌≤◌};
ghost use Rattle.raw_io.specs.Writing.{Writes};
ghost use Rattle.raw_picture.specs.Picture.{piece, size, layer_text, ground, figures};

use crate::boxes::put_boxes;
use crate::drawn::Drawn;
use crate::ground::{cell_ground, lane_ground, put_links};
use crate::ports::put_port_box;
use crate::told::put_path;
use crate::waits::put_wait;
use crate::wires::put_wire;
use raw_grid::{ProcId, Topo, WireId};
use raw_io::{Failed, Sink};
use raw_state_text::put_line;

/// What a layer holds.
#[derive(Clone, Copy, PartialEq, Eq)]
pub(crate) enum Layer {
    /// The cells of the tiles.
    Cells,
    /// The channels of the tiles.
    Links,
    /// The lanes of the ports.
    Lanes,
    /// The boxes of the tiles and of their switches.
    Boxes,
    /// The boxes of the ports.
    Ports,
    /// The wires that hold values.
    Wires,
    /// The waits of the processors.
    Waits,
}

// How many pieces a layer has.
fn size(topo: &Topo, layer: Layer) -> u32
    ensures { result ≡ size topo.now layer }
{
    match layer {
        Layer::Cells | Layer::Links | Layer::Boxes => topo.tiles(),
        Layer::Lanes | Layer::Ports => topo.ports(),
        Layer::Wires => topo.wires(),
        Layer::Waits => topo.procs(),
    }
}

// Puts a piece of a layer.
#[tactic(auto, unfolding(crate::specs::Picture::piece))]
fn put_piece<K: Sink>(
    drawn: &Drawn<'_, '_>,
    layer: Layer,
    i: u32,
    out: &mut K,
) -> Result<(), Failed>
    requires { i < size drawn.now.machine.now.set.topo layer }
    ensures { Writes (K.sight out.old) (K.sight out.new)
        (piece drawn.now.machine.now.set drawn.now.machine.now.state layer i) result }
{
    let topo = &drawn.machine.set().topo;
    match layer {
        Layer::Cells => put_line(&cell_ground(topo, i), out),
        Layer::Links => put_links(topo, i, out),
        Layer::Lanes => put_line(&lane_ground(topo.place_of(i)), out),
        Layer::Boxes => put_boxes(drawn, i, out),
        Layer::Ports => put_port_box(drawn, i, topo.place_of(i), out),
        Layer::Wires => put_wire(drawn.machine, WireId(i), out),
        Layer::Waits => put_wait(drawn, ProcId(i), out),
    }
}

// Puts a layer.
fn put_layer<K: Sink>(drawn: &Drawn<'_, '_>, layer: Layer, out: &mut K) -> Result<(), Failed>
    ensures { Writes (K.sight out.old) (K.sight out.new)
        (layer_text drawn.now.machine.now.set drawn.now.machine.now.state layer) result }
{
    for i in 0..size(&drawn.machine.set().topo, layer) {
        put_piece(drawn, layer, i, out)?;
    }
    Ok(())
}

/// Puts the ground: cells and channels, and over them the path of the waits that are told.
#[tactic(auto, unfolding(crate::specs::Picture::ground), using(raw_io::proofs::Chains::chained))]
pub(crate) fn put_ground<K: Sink>(drawn: &Drawn<'_, '_>, out: &mut K) -> Result<(), Failed>
    ensures { Writes (K.sight out.old) (K.sight out.new) (ground drawn.now.machine.now.set drawn.now.machine.now.state) result }
{
    put_layer(drawn, Layer::Cells, out)?;
    put_layer(drawn, Layer::Links, out)?;
    put_layer(drawn, Layer::Lanes, out)?;
    put_path(drawn, out)
}

/// Puts what stands on the ground.
#[tactic(auto, unfolding(crate::specs::Picture::figures), using(raw_io::proofs::Chains::chained))]
pub(crate) fn put_figures<K: Sink>(drawn: &Drawn<'_, '_>, out: &mut K) -> Result<(), Failed>
    ensures { Writes (K.sight out.old) (K.sight out.new) (figures drawn.now.machine.now.set drawn.now.machine.now.state) result }
{
    put_layer(drawn, Layer::Boxes, out)?;
    put_layer(drawn, Layer::Ports, out)?;
    put_layer(drawn, Layer::Wires, out)?;
    put_layer(drawn, Layer::Waits, out)
}
