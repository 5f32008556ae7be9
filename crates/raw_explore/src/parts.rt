//! What stands in a processor, of any kind.
ghost use Rattle.std.specs.Prelude.{◌≡◌, Some};
ghost use Rattle.raw_processor.specs.Processor.{local_of};
ghost use Rattle.raw_trace.specs.Parts.{regs_of, pc_of, is_faulted};

use raw_model::{Cause, Mark};
use raw_serial::Processor;

/// The registers; a port has none.
pub(crate) fn registers(processor: &Processor) -> &[u32]
    ensures { result.now ≡ regs_of (Some (local_of processor.now)) }
{
    match processor {
        Processor::Tile(tile) => &tile.state.regs,
        Processor::Switch(switch) => &switch.state.regs,
        Processor::Source(_) | Processor::Sink(_) => &[],
    }
}

/// The number of the next instruction; 0 for a port.
pub(crate) fn pc(processor: &Processor) -> u32
    ensures { result ≡ pc_of (Some (local_of processor.now)) }
{
    match processor {
        Processor::Tile(tile) => tile.state.pc,
        Processor::Switch(switch) => switch.state.pc,
        Processor::Source(_) | Processor::Sink(_) => 0,
    }
}

/// Whether a load or a store trapped it.
pub(crate) fn is_faulted(processor: &Processor) -> bool
    ensures { result ≡ is_faulted (Some (local_of processor.now)) }
{
    match processor {
        Processor::Tile(tile) => match tile.state.mark {
            Mark::Trapped(Cause::Misaligned | Cause::PastMemory) => true,
            Mark::Trapped(Cause::Pc) | Mark::Going | Mark::Halted => false,
        },
        Processor::Switch(_) | Processor::Source(_) | Processor::Sink(_) => false,
    }
}
