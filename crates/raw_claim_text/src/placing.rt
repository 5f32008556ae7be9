//! The places that the lines of a claim name, on the grid of its set.
ghost use Rattle.std.specs.Prelude.{◌≡◌, ◌<◌, ◌≤◌, ◌||◌, Some, IfSome, length};
ghost use Rattle.std.specs.List.{list_any};
ghost use Rattle.std.specs.Option.{is_none};
ghost use Rattle.raw_asm.specs.Tokens.{tokens_of};
ghost use Rattle.raw_grid.specs.Topology.{IsTopology};
ghost use Rattle.raw_flow_text.specs.Forms.{name_at};
ghost use Rattle.raw_set_text.specs.Faults.{is_outside};
ghost use Rattle.raw_claim_text.specs.Forms.{named_place};
ghost use Rattle.raw_claim_text.specs.Placing.{unless, port_from, is_word, next_word, memory_word, placed, placed_by, some_place, place_said};
ghost use Rattle.raw_claim_text.specs.declared.named.NamedPlace.TheVariants.{AtSink, InMemory};

use crate::named::{NamedPlace, is_plain_out, named_place, names_place};
use raw_asm::Tokens;
use raw_flow_text::name_at;
use raw_grid::{PortKind, PortPlace, ProcId, Topo};
use raw_set_text::{Edge, Position, SetKind};
use raw_term::{Place, claimed_of};
use raw_text::MAX_TEXT;

// Whether a grid lacks a tile.
fn is_outside(topo: &Topo, tile: Position) -> bool
    ensures outside { result ≡ is_outside topo.now.cols topo.now.rows (Some tile) }
    ensures valid { IsTopology topo.now }
{
    !(tile.x < u32::from(topo.cols()) && tile.y < u32::from(topo.rows()))
}

// The number of the port at a place.
fn port_at(topo: &Topo, place: PortPlace) -> Option<u32>
    ensures found { result ≡ port_from place 0 topo.now.places }
    ensures there { IfSome result (λ port. port < length topo.now.places) }
{
    for port in 0..topo.ports() {
        if topo.place_of(port) == place {
            return Some(port);
        }
    }
    None
}

// The next word of a port behind these places, where there is such a port.
fn next_word(topo: &Topo, before: &[Place], port: Option<u32>) -> Result<Place, SetKind>
    requires few { length before.now ≤ MAX_TEXT }
    requires there { IfSome port (λ port. port < length topo.now.places) }
    ensures { result ≡ next_word topo.now before.now port }
{
    match port {
        None => Err(SetKind::UndeclaredEdge),
        Some(port) => {
            let sink = topo.procs() - topo.ports() + port;
            Ok(Place::Received {
                sink: ProcId(sink),
                number: claimed_of(before, sink as usize) as u32,
            })
        }
    }
}

// The place that an edge names behind these, or what is wrong with it.
fn placed_at_sink(topo: &Topo, before: &[Place], edge: Edge) -> Result<Place, SetKind>
    requires { length before.now ≤ MAX_TEXT }
    ensures { result ≡ placed topo.now before.now (AtSink edge) }
{
    if is_outside(topo, edge.tile) {
        return Err(SetKind::OffGrid);
    }
    let place = PortPlace {
        kind: PortKind::Sink,
        net: edge.net,
        x: edge.tile.x as u8,
        y: edge.tile.y as u8,
        side: edge.side,
    };
    next_word(topo, before, port_at(topo, place))
}

// Whether a place is this memory word of this tile.
fn is_word(tile: u32, number: u32, place: &Place) -> bool
    ensures { result ≡ is_word tile number place.now }
{
    match place {
        Place::Received { .. } => false,
        Place::Memory {
            tile: named,
            number: at,
        } => named.0 == tile && *at == number,
    }
}

// Whether one of these places is this memory word of this tile.
fn is_claimed(before: &[Place], tile: u32, number: u32) -> bool
    ensures { result ≡ list_any (is_word tile number) before.now }
{
    before.iter().any(|place| is_word(tile, number, place))
}

// The memory word of this tile with this number, unless it is claimed already.
fn memory_word(before: &[Place], tile: u32, number: u32) -> Result<Place, SetKind>
    ensures { result ≡ memory_word before.now tile number }
{
    if is_claimed(before, tile, number) {
        return Err(SetKind::Repeated);
    }
    Ok(Place::Memory {
        tile: ProcId(tile),
        number,
    })
}

// The place that an address in the memory of a tile names behind these, or what is wrong with it.
fn placed_in_memory(
    topo: &Topo,
    before: &[Place],
    tile: Position,
    address: u32,
) -> Result<Place, SetKind>
    ensures { result ≡ placed topo.now before.now (InMemory tile address) }
{
    if address % 4 != 0 {
        return Err(SetKind::BadLine);
    }
    if is_outside(topo, tile) {
        return Err(SetKind::OffGrid);
    }
    memory_word(
        before,
        topo.tile_at(tile.x as u8, tile.y as u8),
        address / 4,
    )
}

// The place that is named behind these, or what is wrong with it.
fn placed(topo: &Topo, before: &[Place], named: NamedPlace) -> Result<Place, SetKind>
    requires { length before.now ≤ MAX_TEXT }
    ensures { result ≡ placed topo.now before.now named }
{
    match named {
        NamedPlace::AtSink(edge) => placed_at_sink(topo, before, edge),
        NamedPlace::InMemory(tile, address) => placed_in_memory(topo, before, tile, address),
    }
}

// The same of a line that may be of another form.
fn placed_by(topo: &Topo, before: &[Place], named: Option<NamedPlace>) -> Result<Place, SetKind>
    requires { length before.now ≤ MAX_TEXT }
    ensures { result ≡ placed_by topo.now before.now named }
{
    match named {
        None => Err(SetKind::BadLine),
        Some(named) => placed(topo, before, named),
    }
}

// Whether the second of two tokens is no name.
fn is_unnamed(line: &Tokens<'_>) -> bool
    requires { 1 < length (tokens_of line.now) }
    ensures { result ≡ is_none (name_at (tokens_of line.now) 1) }
{
    match name_at(line, 1) {
        Some(_) => false,
        None => true,
    }
}

// What a line that names a place says of it behind others, or what is wrong with that.
fn named_said(
    topo: &Topo,
    plain: bool,
    places: &[Place],
    line: &Tokens<'_>,
) -> Result<Option<Place>, SetKind>
    requires { length places.now ≤ MAX_TEXT }
    ensures { result ≡ unless (plain || is_none (name_at (tokens_of line.now) 1)) SetKind.BadLine
        (some_place (placed_by topo.now places.now (named_place (tokens_of line.now)))) }
{
    if plain {
        return Err(SetKind::BadLine);
    }
    if line.len() < 2 {
        return Err(SetKind::BadLine);
    }
    if is_unnamed(line) {
        return Err(SetKind::BadLine);
    }
    match placed_by(topo, places, named_place(line)) {
        Ok(place) => Ok(Some(place)),
        Err(kind) => Err(kind),
    }
}

/// What a line says of a place, which may be nothing, or what is wrong with that. `plain` is whether an `out` line before it
/// names no place, and `places` are those that are named before.
pub(crate) fn place_said(
    topo: &Topo,
    plain: bool,
    places: &[Place],
    line: &Tokens<'_>,
) -> Result<Option<Place>, SetKind>
    requires { length places.now ≤ MAX_TEXT }
    ensures { result ≡ place_said topo.now (record { plain = plain; places = places.now }) (tokens_of line.now) }
{
    if names_place(line) {
        return named_said(topo, plain, places, line);
    }
    if is_plain_out(line) && !places.is_empty() {
        return Err(SetKind::BadLine);
    }
    Ok(None)
}
