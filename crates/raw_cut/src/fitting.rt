//! Sets with other ports.
ghost use Rattle.std.specs.Prelude.{◌≡◌, ◌<◌, ◌≤◌, true, length, map, sum_by, IfOk, IfSome, All};
ghost use Rattle.raw_model.specs.declared.limits.TheConstants.{MAX_ALL_WORDS, MAX_ALL_CAPACITIES};
ghost use Rattle.raw_model.specs.Program.{PortProgram, IsPortProgram, IsOfKind, AreOfKinds};
ghost use Rattle.raw_cut.specs.Parts.{AreFit, with_ports, ports_with};

use crate::copying::copy_with;
use crate::ports::ports_with;
use raw_codegen::words_fit;
use raw_grid::{PortKind, Topo};
use raw_model::limits::{MAX_ALL_CAPACITIES, MAX_ALL_WORDS, MAX_CAPACITY, MAX_STEPS};
use raw_model::{PortProg, Set};
use raw_stream::StreamFlow;
use std::alloc::{AllocError, Global};

// Whether a port may be one of this kind.
fn is_of_kind(kind: PortKind, port: &PortProg) -> bool
    ensures program { result ≡ true → IsPortProgram port.now }
    ensures kind { result ≡ true → IsOfKind kind port.now }
{
    words_fit(&port.words);
    let fits = match kind {
        PortKind::Source => port.capacity == 0,
        PortKind::Sink => port.words.is_empty(),
    };
    fits && port.capacity <= MAX_CAPACITY
}

// Whether ports may be those at the places of a grid.
fn are_of_kinds(topo: &Topo, ports: &[PortProg]) -> bool
    requires { length ports.now ≡ length topo.now.places }
    ensures programs { result ≡ true → All IsPortProgram ports.now }
    ensures kinds { result ≡ true → AreOfKinds topo.now.places ports.now }
{
    for i in 0..topo.ports() {
        if !is_of_kind(topo.place_of(i).kind, &ports[i as usize]) {
            return false;
        }
    }
    true
}

// Whether all sources have no more words than they may.
fn has_few_words(ports: &[PortProg]) -> bool
    ensures { result ≡ true → sum_by (λ (port : PortProgram). length port.words) ports.now ≤ MAX_ALL_WORDS }
{
    let most = MAX_ALL_WORDS as usize;
    let mut total = 0;
    for port in ports {
        let count = port.words.len();
        if count > most - total {
            return false;
        }
        total += count;
    }
    true
}

// Whether all sinks have no more room than they may.
fn has_little_room(ports: &[PortProg]) -> bool
    ensures { result ≡ true → sum_by (λ (port : PortProgram). port.capacity) ports.now ≤ MAX_ALL_CAPACITIES }
{
    let most = MAX_ALL_CAPACITIES;
    let mut total = 0;
    for port in ports {
        let count = port.capacity;
        if count > most - total {
            return false;
        }
        total += count;
    }
    true
}

// Whether ports may stand in the place of those of a set, with another limit.
fn are_fit(set: &Set, limit: u32, ports: &[PortProg]) -> bool
    ensures { result ≡ true → AreFit set.now limit ports.now }
{
    if limit == 0 || limit > MAX_STEPS {
        return false;
    }
    if ports.len() != set.ports.len() || ports.len() != set.topo.ports() as usize {
        return false;
    }
    if !are_of_kinds(&set.topo, ports) || !has_few_words(ports) {
        return false;
    }
    has_little_room(ports)
}

// The ports of a part of a run that sees these rows, where they may stand in the place of those of a set.
fn fitting_ports(
    alloc: Global,
    set: &Set,
    stream: &StreamFlow,
    limit: u32,
    rows: &[Vec<u32>],
    spare: u32,
) -> Result<Option<Vec<PortProg>>, AllocError>
    requires few { spare < 2 }
    ensures ports { IfOk result (λ found. IfSome found (λ ports.
        ports.items ≡ ports_with set.now.topo stream.now (length set.now.ports) (map (λ row. row.items) rows.now) spare)) }
    ensures fit { IfOk result (λ found. IfSome found (λ ports. AreFit set.now limit ports.items)) }
{
    let Some(ports) = ports_with(alloc, &set.topo, stream, rows, spare)? else {
        return Ok(None);
    };
    if !are_fit(set, limit, &ports) {
        return Ok(None);
    }
    Ok(Some(ports))
}

/// A set for a part of a run that sees these rows, in which no processor executes more than `limit` instructions, and each
/// sink has some places more than it needs. None where there is no such set.
pub(crate) fn set_seeing(
    alloc: Global,
    set: &Set,
    stream: &StreamFlow,
    limit: u32,
    rows: &[Vec<u32>],
    spare: u32,
) -> Result<Option<Set>, AllocError>
    requires { spare < 2 }
    ensures { IfOk result (λ found. IfSome found (λ seen. seen ≡ with_ports set.now limit
        (ports_with set.now.topo stream.now (length set.now.ports) (map (λ row. row.items) rows.now) spare))) }
{
    match fitting_ports(alloc, set, stream, limit, rows, spare)? {
        Some(ports) => copy_with(alloc, set, limit, ports),
        None => Ok(None),
    }
}
