//! Writing the image of a set.
ghost use Rattle.std.specs.Prelude.{◌≡◌, ◌<◌, ◌^◌, ◌++◌, length, IfOk, OnOk};
ghost use Rattle.std.specs.Int.{w64, to_be_bytes};
ghost use Rattle.std.specs.List.{All, flat_map};
ghost use Rattle.raw_image.specs.declared.version.Version.TheVariants as version;
ghost use Rattle.raw_image.specs.Answers.{IsCounted};
ghost use Rattle.raw_image.specs.Image.{number, counted, instruction_bytes, switch_bytes, cell_bytes, place_bytes, given_bytes, ports_bytes, misses_bytes, tile_bytes, show_bytes, head_bytes, image};

use byteorder::{BigEndian, ByteOrder};
use raw_grid::{PortKind, PortPlace, Topo, law_wires};
use raw_model::{DataWord, PortProg, Set, Show, TileProg};
use raw_switch_isa::SwitchIns;
use raw_tile_isa::TileIns;
use std::alloc::{AllocError, Global};

// Appends a number.
fn push_number(out: &mut Vec<u8>, n: u32) -> Result<(), AllocError>
    ensures { OnOk result (out.new.items ≡ out.old.items ++ number n) }
{
    let mut bytes = [0; 4];
    BigEndian::write_u32(&mut bytes, n);
    out.extend_from_slice(&bytes)
}

// Appends a number of 64 bits.
fn push_long(out: &mut Vec<u8>, n: u64) -> Result<(), AllocError>
    ensures { OnOk result (out.new.items ≡ out.old.items ++ to_be_bytes w64 n) }
{
    let mut bytes = [0; 8];
    BigEndian::write_u64(&mut bytes, n);
    out.extend_from_slice(&bytes)
}

// Appends how many elements follow.
fn push_count(out: &mut Vec<u8>, count: usize) -> Result<(), AllocError>
    requires { count < 2 ^ 32 }
    ensures { OnOk result (out.new.items ≡ out.old.items ++ number count) }
{
    push_number(out, count as u32)
}

// Appends the words of a source, behind their number.
fn push_words(out: &mut Vec<u8>, words: &[u32]) -> Result<(), AllocError>
    requires { length words.now < 2 ^ 32 }
    ensures { OnOk result (out.new.items ≡ out.old.items ++ counted number words.now) }
{
    push_count(out, words.len())?;
    for word in words {
        push_number(out, *word)?;
    }
    Ok(())
}

// Appends where a port stands.
fn push_place(out: &mut Vec<u8>, place: PortPlace) -> Result<(), AllocError>
    ensures { OnOk result (out.new.items ≡ out.old.items ++ place_bytes place) }
{
    let kind = place.kind.number();
    let net = place.net.number();
    let side = place.side.number();
    out.extend_from_slice(&[kind, net, place.x, place.y, side, 0, 0, 0])
}

// Appends what a port of a kind is given.
fn push_given(out: &mut Vec<u8>, kind: PortKind, port: &PortProg) -> Result<(), AllocError>
    requires { length port.now.words < 2 ^ 32 }
    ensures { OnOk result (out.new.items ≡ out.old.items ++ given_bytes kind port.now) }
{
    match kind {
        PortKind::Source => push_words(out, &port.words),
        PortKind::Sink => push_number(out, port.capacity),
    }
}

// Appends the ports, behind their number.
fn push_ports(out: &mut Vec<u8>, topo: &Topo, ports: &[PortProg]) -> Result<(), AllocError>
    requires each { length ports.now ≡ length topo.now.places }
    requires few { length ports.now < 2 ^ 32 }
    requires words { All (λ port. length port.words < 2 ^ 32) ports.now }
    ensures { OnOk result (out.new.items ≡ out.old.items ++ ports_bytes topo.now.places ports.now) }
{
    push_count(out, ports.len())?;
    for i in 0..topo.ports() {
        let place = topo.place_of(i);
        push_place(out, place)?;
        push_given(out, place.kind, &ports[i as usize])?;
    }
    Ok(())
}

// Appends the words of a program, behind their number.
fn push_code(out: &mut Vec<u8>, code: &[TileIns]) -> Result<(), AllocError>
    requires { length code.now < 2 ^ 32 }
    ensures { OnOk result (out.new.items ≡ out.old.items ++ counted instruction_bytes code.now) }
{
    push_count(out, code.len())?;
    for ins in code {
        push_number(out, raw_tile_isa::encode(*ins))?;
    }
    Ok(())
}

// Appends the words of a switch's program, behind their number.
fn push_switch(out: &mut Vec<u8>, code: &[SwitchIns]) -> Result<(), AllocError>
    requires { length code.now < 2 ^ 32 }
    ensures { OnOk result (out.new.items ≡ out.old.items ++ counted switch_bytes code.now) }
{
    push_count(out, code.len())?;
    for ins in code {
        push_long(out, raw_switch_isa::encode(*ins))?;
    }
    Ok(())
}

// Appends a word in a memory.
fn push_cell(out: &mut Vec<u8>, cell: DataWord) -> Result<(), AllocError>
    ensures { OnOk result (out.new.items ≡ out.old.items ++ cell_bytes cell) }
{
    push_number(out, cell.address)?;
    push_number(out, cell.word)
}

// Appends the words in a memory, behind their number.
fn push_cells(out: &mut Vec<u8>, cells: &[DataWord]) -> Result<(), AllocError>
    requires { length cells.now < 2 ^ 32 }
    ensures { OnOk result (out.new.items ≡ out.old.items ++ counted cell_bytes cells.now) }
{
    push_count(out, cells.len())?;
    for cell in cells {
        push_cell(out, *cell)?;
    }
    Ok(())
}

// Appends a miss stream, behind the number of its numbers.
fn push_misses(out: &mut Vec<u8>, misses: &[u8]) -> Result<(), AllocError>
    requires { length misses.now < 2 ^ 32 }
    ensures { OnOk result (out.new.items ≡ out.old.items ++ misses_bytes version.Two misses.now) }
{
    push_count(out, misses.len())?;
    out.extend_from_slice(misses)
}

// Appends what a tile is given.
fn push_tile(out: &mut Vec<u8>, tile: &TileProg) -> Result<(), AllocError>
    requires { IsCounted tile.now }
    ensures { OnOk result (out.new.items ≡ out.old.items ++ tile_bytes version.Two tile.now) }
{
    push_code(out, &tile.code)?;
    push_switch(out, &tile.switch)?;
    push_cells(out, &tile.cells)?;
    push_misses(out, &tile.misses)
}

// Appends the tiles.
fn push_tiles(out: &mut Vec<u8>, tiles: &[TileProg]) -> Result<(), AllocError>
    requires { All IsCounted tiles.now }
    ensures { OnOk result (out.new.items ≡ out.old.items ++ flat_map (tile_bytes version.Two) tiles.now) }
{
    for tile in tiles {
        push_tile(out, tile)?;
    }
    Ok(())
}

// Appends words that the report shows.
fn push_show(out: &mut Vec<u8>, show: Show) -> Result<(), AllocError>
    ensures { OnOk result (out.new.items ≡ out.old.items ++ show_bytes show) }
{
    push_number(out, show.tile)?;
    push_number(out, show.address)?;
    push_number(out, show.words)
}

// Appends what the report shows, behind their number.
fn push_shows(out: &mut Vec<u8>, shows: &[Show]) -> Result<(), AllocError>
    requires { length shows.now < 2 ^ 32 }
    ensures { OnOk result (out.new.items ≡ out.old.items ++ counted show_bytes shows.now) }
{
    push_count(out, shows.len())?;
    for show in shows {
        push_show(out, *show)?;
    }
    Ok(())
}

// The fields before the ports.
fn push_head(
    out: &mut Vec<u8>,
    columns: u8,
    rows: u8,
    depth: u8,
    limit: u32,
) -> Result<(), AllocError>
    ensures { OnOk result (out.new.items ≡ out.old.items ++ head_bytes version.Two columns rows depth limit) }
{
    out.extend_from_slice(b"RAWT")?;
    push_number(out, 2)?;
    out.extend_from_slice(&[columns, rows, depth, 0])?;
    push_number(out, limit)
}

/// The image of a set, in version 2. `read_image` reads it back as the same set.
///
/// Want of memory is the one refusal.
pub fn write_image(alloc: Global, set: &Set) -> Result<Vec<u8>, AllocError>
    ensures { IfOk result (λ bytes. bytes.items ≡ image set.now) }
{
    law_wires();
    let mut out = Vec::new(alloc);
    push_head(
        &mut out,
        set.topo.cols(),
        set.topo.rows(),
        set.depth,
        set.limit,
    )?;
    push_ports(&mut out, &set.topo, &set.ports)?;
    push_tiles(&mut out, &set.tiles)?;
    push_shows(&mut out, &set.shows)?;
    Ok(out)
}
