//! The size of a grid: which tiles it has, which are neighbours, and the wires between them.
ghost use Rattle.std.specs.Prelude.{◌≡◌, ◌/◌, ◌%◌, ◌<◌, ◌≤◌, ◌^◌, ◌↔◌, ◌++◌, [], IsTrue, IsSome, IfSome, IsNone, OnOk};
ghost use Rattle.std.specs.Option.{option_to_list};
ghost use Rattle.raw_grid.specs.Topology.{without_ports, IsSize, IsAtEdge, tile_count, tile_number, switch_number, neighbour};
ghost use Rattle.raw_grid.specs.Wires.{tile_wires, all_tile_wires, link, links_from, links_of, port_wire};

use crate::limits::{MAX_SIZE, MAX_TILES};
use crate::parts::{Dir, Net, PortKind, PortPlace, Side};
use crate::wire::Wire;
use std::alloc::AllocError;

/// The numbers of columns and rows of a grid.
#[derive(Clone, Copy)]
pub struct Size {
    pub cols: u8,
    pub rows: u8,
    ghost valid: { IsSize cols rows },
}

/// Appends the wire, where there is one.
fn push_if_some(wires: &mut Vec<Wire>, wire: Option<Wire>) -> Result<(), AllocError>
    ensures { OnOk result (wires.new.items ≡ wires.old.items ++ option_to_list wire) }
{
    if let Some(wire) = wire {
        wires.push(wire)?;
    }
    Ok(())
}

impl Size {
    pub fn new(cols: u8, rows: u8) -> Option<Self>
        ensures valid { IsSome result ↔ IsSize cols rows }
        ensures cols { IfSome result (λ size. size.cols ≡ cols) }
        ensures rows { IfSome result (λ size. size.rows ≡ rows) }
    {
        if (1..=MAX_SIZE).contains(&cols) && (1..=MAX_SIZE).contains(&rows) {
            Some(Size { cols, rows })
        } else {
            None
        }
    }

    /// The number of tiles, at most 64.
    pub fn tiles(self) -> u32
        ensures value { result ≡ tile_count (without_ports self.cols self.rows) }
        ensures few { result ≤ MAX_TILES }
    {
        u32::from(self.cols) * u32::from(self.rows)
    }

    /// The number of the tile in column `x` and row `y`.
    pub fn tile(self, x: u8, y: u8) -> u32
        ensures { result ≡ tile_number (without_ports self.cols self.rows) x y }
    {
        u32::from(y) * u32::from(self.cols) + u32::from(x)
    }

    /// The column and the row of a tile.
    pub fn position(self, tile: u32) -> (u8, u8)
        requires { tile < tile_count (without_ports self.cols self.rows) }
        ensures column { result.0 ≡ tile % self.cols }
        ensures row { result.1 ≡ tile / self.cols }
        ensures within_column { result.0 < self.cols }
        ensures within_row { result.1 < self.rows }
    {
        let cols = u32::from(self.cols);
        ((tile % cols) as u8, (tile / cols) as u8)
    }

    /// The number of the switch beside a tile.
    pub fn switch(self, tile: u32) -> u32
        requires { tile < 2 ^ 16 }
        ensures { result ≡ switch_number (without_ports self.cols self.rows) tile }
    {
        self.tiles() + tile
    }

    /// The tile next to the one in column `x` and row `y`.
    fn neighbour(self, x: u8, y: u8, side: Side) -> Option<u32>
        requires column { x < self.cols }
        requires row { y < self.rows }
        ensures { result ≡ neighbour (without_ports self.cols self.rows) x y side }
    {
        match side {
            Side::N if y > 0 => Some(self.tile(x, y - 1)),
            Side::E if x + 1 < self.cols => Some(self.tile(x + 1, y)),
            Side::S if y + 1 < self.rows => Some(self.tile(x, y + 1)),
            Side::W if x > 0 => Some(self.tile(x - 1, y)),
            _ => None,
        }
    }

    /// Whether a port can stand there.
    pub fn is_at_edge(self, place: PortPlace) -> bool
        ensures { IsTrue result ↔ IsAtEdge (without_ports self.cols self.rows) place }
    {
        place.x < self.cols
            && place.y < self.rows
            && self.neighbour(place.x, place.y, place.side).is_none()
    }

    /// The wires between a tile and its switch.
    fn tile_wires(self, tile: u32) -> [Wire; 4]
        requires { tile < tile_count (without_ports self.cols self.rows) }
        ensures { result ≡ tile_wires (without_ports self.cols self.rows) tile }
    {
        let switch = self.switch(tile);
        let one = Net::One.end(Dir::P);
        let two = Net::Two.end(Dir::P);
        [
            Wire {
                from: switch,
                output: one,
                to: tile,
                input: one,
            },
            Wire {
                from: switch,
                output: two,
                to: tile,
                input: two,
            },
            Wire {
                from: tile,
                output: one,
                to: switch,
                input: one,
            },
            Wire {
                from: tile,
                output: two,
                to: switch,
                input: two,
            },
        ]
    }

    /// The link of a network that leaves the switch of a tile at a side.
    fn link(self, net: Net, tile: u32, side: Side) -> Option<Wire>
        requires { tile < tile_count (without_ports self.cols self.rows) }
        ensures { result ≡ link (without_ports self.cols self.rows) net tile side }
    {
        let (x, y) = self.position(tile);
        let next = self.neighbour(x, y, side)?;
        Some(Wire {
            from: self.switch(tile),
            output: net.end(side.into()),
            to: self.switch(next),
            input: net.end(side.opposite().into()),
        })
    }

    /// The wire of the port that is processor `port` and stands at a place at the edge.
    pub fn port_wire(self, port: u32, place: PortPlace) -> Wire
        ensures { result ≡ port_wire (without_ports self.cols self.rows) port place }
    {
        let switch = self.switch(self.tile(place.x, place.y));
        let beside = place.net.end(Dir::P);
        let edge = place.net.end(place.side.into());
        match place.kind {
            PortKind::Source => Wire {
                from: port,
                output: beside,
                to: switch,
                input: edge,
            },
            PortKind::Sink => Wire {
                from: switch,
                output: edge,
                to: port,
                input: beside,
            },
        }
    }

    /// Appends the wires between tiles and their switches.
    pub fn push_tile_wires(self, wires: &mut Vec<Wire>) -> Result<(), AllocError>
        ensures { OnOk result
            (wires.new.items ≡ wires.old.items ++ all_tile_wires (without_ports self.cols self.rows)) }
    {
        for tile in 0..self.tiles() {
            wires.extend_from_slice(&self.tile_wires(tile))?;
        }
        Ok(())
    }

    /// Appends the links of a network that leave the switch of a tile.
    fn push_links_from(self, net: Net, tile: u32, wires: &mut Vec<Wire>) -> Result<(), AllocError>
        requires { tile < tile_count (without_ports self.cols self.rows) }
        ensures { OnOk result
            (wires.new.items ≡ wires.old.items ++ links_from (without_ports self.cols self.rows) net tile) }
    {
        for side in Side::ALL {
            push_if_some(wires, self.link(net, tile, side))?;
        }
        Ok(())
    }

    /// Appends the links of a network.
    pub fn push_links(self, net: Net, wires: &mut Vec<Wire>) -> Result<(), AllocError>
        ensures { OnOk result
            (wires.new.items ≡ wires.old.items ++ links_of (without_ports self.cols self.rows) net) }
    {
        for tile in 0..self.tiles() {
            self.push_links_from(net, tile, wires)?;
        }
        Ok(())
    }
}
