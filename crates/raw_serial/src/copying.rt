//! A machine made as another one. Nothing here takes memory.
ghost use Rattle.std.specs.Prelude.{◌≡◌, ℕ, length, slice_get, Some};
ghost use Rattle.raw_processor.specs.declared.processor.Processor.{Processor};
ghost use Rattle.raw_processor.specs.Processor.{CanBe};
ghost use Rattle.raw_serial.specs.Copied.{AreCopies};

use crate::machine::Machine;
use raw_processor::Processor;

impl Machine<'_> {
    /// Makes the machine as another machine of the same set: its state, what its caches hold, how often its tiles
    /// missed, and the turns that they owe. This takes no memory, and time in proportion to the memories of the tiles.
    pub fn copy_from(&mut self, other: &Machine<'_>)
        requires { other.now.set ≡ self.old.set }
        ensures { self.new ≡ other.now }
    {
        copy_processors(&mut self.processors, &other.processors);
        self.wires.copy_from(&other.wires);
    }
}

// Makes processors as others, one by one.
fn copy_processors(processors: &mut [Processor], others: &[Processor])
    requires many { length others.now ≡ length processors.old }
    requires kinds { (p : ℕ) (x y : Processor) → slice_get processors.old p ≡ Some x → slice_get others.now p ≡ Some y → CanBe x y }
    ensures { AreCopies processors.old others.now processors.new }
{
    for p in 0..others.len() {
        processors[p].copy_from(&others[p]);
    }
}
