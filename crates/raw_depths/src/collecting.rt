//! A report that is kept, so that it can be compared with another.
ghost use Rattle.std.specs.Prelude.{◌≡◌, ℕ, List, IfOk};
ghost use Rattle.raw_model.specs.Rest.{IsQuiet, IsRun};
ghost use Rattle.raw_model.specs.Waits.{waits_for};
ghost use Rattle.raw_model.specs.Outcomes.{outcome};
ghost use Rattle.raw_outcome.specs.Told.{told};
ghost use Rattle.raw_report.specs.Report.{report};

use raw_io::{Failed, Sink};
use raw_outcome::Outcome;
use raw_report::write_report;
use raw_serial::Machine;
use std::alloc::{AllocError, Global};

// A sink that keeps what it is given. It fails where there is no memory.
#[derive(Drop)]
struct Collector {
    bytes: Vec<u8>,
    faults: u64,
}

impl Sink for Collector {
    ghost use Rattle.std.specs.Prelude.{Some};

    ghost sight = { λ s. record { bytes = Some s.bytes.items; faults = s.faults } };

    fn put(&mut self, bytes: &[u8]) -> Result<usize, Failed> {
        match self.bytes.extend_from_slice(bytes) {
            Ok(()) => Ok(bytes.len()),
            Err(_) => {
                self.faults = self.faults.saturating_add(1);
                Err(Failed)
            }
        }
    }
}

/// The report of a machine at rest, which came to rest as the outcome says.
pub(crate) fn report_of(alloc: Global, m: &Machine<'_>, o: Outcome) -> Result<Vec<u8>, AllocError>
    requires quiet { IsQuiet m.now.set m.now.state }
    requires outcome { told (waits_for m.now.set m.now.state) o ≡ outcome m.now.set m.now.state }
    ensures { IfOk result (λ bytes. (steps : List ℕ) → IsRun m.now.set steps → bytes.items ≡ report m.now.set steps) }
{
    let mut kept = Collector {
        bytes: Vec::new(alloc),
        faults: 0,
    };
    match write_report(m, o, &mut kept) {
        Ok(()) => Ok(kept.bytes),
        Err(_) => Err(AllocError),
    }
}
