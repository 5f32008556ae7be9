//! Copies of sets with other ports.
ghost use Rattle.std.specs.Prelude.{◌≡◌, ◌++◌, true, IfOk, IfSome};
ghost use Rattle.raw_cut.specs.Parts.{AreFit, with_ports};

use raw_grid::{Topo, TopoRefusal};
use raw_model::{PortProg, Set, TileProg};
use std::alloc::{AllocError, Global};

// Appends the ports of another grid to a grid, and says whether all could stand there.
fn add_ports(topo: &mut Topo, other: &Topo) -> bool
    ensures { result ≡ true → topo.new ≡
        record { cols = topo.old.cols; rows = topo.old.rows; places = topo.old.places ++ other.now.places } }
{
    for port in 0..other.ports() {
        match topo.add_port(other.place_of(port)) {
            Ok(_number) => {}
            Err(_) => return false,
        }
    }
    true
}

// The same grid.
fn same_grid(alloc: Global, topo: &Topo) -> Result<Option<Topo>, AllocError>
    ensures { IfOk result (λ found. IfSome found (λ copy. copy ≡ topo.now)) }
{
    let mut copy = match Topo::new(alloc, topo.cols(), topo.rows()) {
        Ok(copy) => copy,
        Err(TopoRefusal::BadSize) => return Ok(None),
        Err(TopoRefusal::Memory) => return Err(AllocError),
    };
    if add_ports(&mut copy, topo) {
        Ok(Some(copy))
    } else {
        Ok(None)
    }
}

// The same program of a tile.
fn same_program(alloc: Global, tile: &TileProg) -> Result<TileProg, AllocError>
    ensures { IfOk result (λ copy. copy ≡ tile.now) }
{
    Ok(TileProg {
        code: tile.code.to_vec(alloc)?,
        switch: tile.switch.to_vec(alloc)?,
        cells: tile.cells.to_vec(alloc)?,
        misses: tile.misses.to_vec(alloc)?,
    })
}

// The same programs of tiles.
fn same_programs(alloc: Global, tiles: &[TileProg]) -> Result<Vec<TileProg>, AllocError>
    ensures { IfOk result (λ copy. copy.items ≡ tiles.now) }
{
    let mut copy = Vec::new(alloc);
    for tile in tiles {
        copy.push(same_program(alloc, tile)?)?;
    }
    Ok(copy)
}

/// A set with another limit and other ports.
pub(crate) fn copy_with(
    alloc: Global,
    set: &Set,
    limit: u32,
    ports: Vec<PortProg>,
) -> Result<Option<Set>, AllocError>
    requires { AreFit set.now limit ports.items }
    ensures { IfOk result (λ found. IfSome found (λ copy. copy ≡ with_ports set.now limit ports.items)) }
{
    let depth = set.depth;
    let topo = match same_grid(alloc, &set.topo) {
        Ok(Some(topo)) => topo,
        Ok(None) => return Ok(None),
        Err(failure) => return Err(failure),
    };
    let tiles = same_programs(alloc, &set.tiles)?;
    let shows = set.shows.to_vec(alloc)?;
    Ok(Some(Set {
        topo,
        limit,
        depth,
        ports,
        tiles,
        shows,
    }))
}
