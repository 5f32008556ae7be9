//! A grid of two tiles and the ports at its corner, worked by hand.
use raw_grid::{Dir, Net, PortKind, PortPlace, PortRefusal, ProcId, Side, Topo, Way, WireId};
use std::test::Fail;

#[test]
fn a_grid_of_2_by_1(rt: HostRuntime) -> Result<(), Fail> {
    let topo = Topo::new(rt.alloc(), 2, 1)?;
    assert!(rt; topo.procs() == 4 && topo.wires() == 12);
    let east = topo.wire_of(ProcId(2), Way::Out, Net::One, Dir::E);
    let west = topo.wire_of(ProcId(3), Way::In, Net::One, Dir::W);
    assert!(rt; east == Some(WireId(8)) && west == Some(WireId(8)));
    Ok(())
}

#[test]
fn adds_ports(rt: HostRuntime) -> Result<(), Fail> {
    let mut topo = Topo::new(rt.alloc(), 2, 1)?;
    let mut port = PortPlace {
        kind: PortKind::Source,
        net: Net::One,
        x: 0,
        y: 0,
        side: Side::E,
    };
    assert!(rt; topo.add_port(port) == Err(PortRefusal::OffEdge));
    port.side = Side::W;
    assert!(rt; topo.add_port(port) == Ok(ProcId(4)));
    assert!(rt; topo.add_port(port) == Err(PortRefusal::Double));
    Ok(())
}
