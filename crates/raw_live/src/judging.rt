//! What the lines behind `live` are judged by, as a set says it.
ghost use Rattle.std.specs.Prelude.{◌≡◌, ◌≤◌, length, sum_by, IfOk};
ghost use Rattle.raw_model.specs.Program.{PortProgram};
ghost use Rattle.raw_model.specs.declared.limits.TheConstants.{MAX_ALL_WORDS};
ghost use Rattle.raw_live.specs.Judging.{IsIntakeOf};

use raw_grid::{PortPlace, Topo};
use raw_live_text::Intake;
use raw_model::limits::MAX_ALL_WORDS;
use raw_model::{PortProg, Set};
use std::alloc::{AllocError, Global};

// How many words all ports have together.
fn count_words(ports: &[PortProg]) -> u32
    requires { sum_by (λ (port : PortProgram). length port.words) ports.now ≤ MAX_ALL_WORDS }
    ensures { result ≡ sum_by (λ (port : PortProgram). length port.words) ports.now }
{
    let mut count = 0;
    for port in ports {
        count += port.words.len() as u32;
    }
    count
}

// The places of the ports, in the order of their numbers.
#[tactic(auto, using(crate::proofs::Places::place_more))]
fn places_of(alloc: Global, topo: &Topo) -> Result<Vec<PortPlace>, AllocError>
    ensures { IfOk result (λ places. places.items ≡ topo.now.places) }
{
    let mut places = Vec::new(alloc);
    for port in 0..topo.ports() {
        if places.push(topo.place_of(port)).is_err() {
            return Err(AllocError);
        }
    }
    Ok(places)
}

/// What the lines behind `live` are judged by, of which the first has this number: the ports of the set, and how many
/// words it may still be given.
pub fn intake_of(alloc: Global, set: &Set, line: u32) -> Result<Intake, AllocError>
    ensures intake { IfOk result (IsIntakeOf set.now) }
    ensures line { IfOk result (λ intake. intake.line ≡ line) }
{
    let places = places_of(alloc, &set.topo)?;
    Ok(Intake {
        places,
        first_port: set.topo.procs() - set.topo.ports(),
        room: MAX_ALL_WORDS - count_words(&set.ports),
        line,
    })
}
