//! The values on the wires at the ends of a processor, by sets of ends.
ghost use Rattle.std.specs.Prelude.{◌≡◌, ℕ, ◌+◌, ◌<◌, ◌≤◌, false, None, length, slice_index_or, IfSome};
ghost use Rattle.std.specs.List.{All, find, list_any};
ghost use Rattle.std.specs.Option.{option_to_list};
ghost use Rattle.raw_network.specs.Network.{Sent, values_on, count_of, fronts, taken, appended};
ghost use Rattle.raw_network.specs.Runs.{sent_on};
ghost use Rattle.raw_switch_isa.specs.Ends.{ends, has_end};
ghost use Rattle.raw_model.specs.SwitchTable.{routed};
ghost use Rattle.raw_processor.specs.Given.{wires_in, handed, sent_at};
ghost use Rattle.raw_serial.specs.Needs.{fails};

use crate::need::Need;
use crate::wires::Wires;
use raw_switch::{SwitchState, SwitchStep, next_end};

impl Wires {
    /// The first of the wires at these ends that does not have what is needed of it.
    #[inline(always)]
    pub(crate) fn first_failing(
        &self,
        need: Need,
        word: u16,
        wires: &[Option<u32>; 10],
    ) -> Option<u32>
        requires { (end : ℕ) → end < 10 →
            IfSome (slice_index_or wires.now end None) (λ w. w < length self.now) }
        ensures { result ≡ find (fails need self.now) (wires_in word wires.now) }
    {
        let mut end = next_end(word, 0);
        'ends: while end < 10 {
            let wire = wires[end];
            if self.fails(need, wire) {
                return wire;
            }
            end = next_end(word, end + 1);
        }
        None
    }

    // Whether a wire is there and does not have what is needed of it.
    #[inline(always)]
    fn fails(&self, need: Need, wire: Option<u32>) -> bool
        requires { IfSome wire (λ w. w < length self.now) }
        ensures { result ≡ list_any (fails need self.now) (option_to_list wire) }
    {
        match wire {
            Some(w) => match need {
                Need::Value => self.held(w) < 1,
                Need::Room { depth } => depth <= self.held(w),
            },
            None => false,
        }
    }

    /// Takes a value for each of these inputs, and gives the values by end index.
    #[inline(always)]
    pub fn take_inputs(&mut self, inputs: u16, wires: &[Option<u32>; 10]) -> [Option<u32>; 10]
        requires { (w : ℕ) → count_of w (wires_in inputs wires.now) ≤ length (values_on self.old w) }
        ensures given { result ≡ handed inputs wires.now ends (fronts (wires_in inputs wires.now) self.old) }
        ensures rest { self.new ≡ taken (wires_in inputs wires.now) self.old }
    {
        let mut given = [None; 10];
        let mut end = next_end(inputs, 0);
        'ends: while end < 10 {
            given[end] = self.take_where(wires[end]);
            end = next_end(inputs, end + 1);
        }
        given
    }

    /// Appends what a switch's next instruction sends to the wires of its outputs. `given` has the
    /// values taken, by end index.
    #[inline(always)]
    pub fn put_routes(
        &mut self,
        step: &SwitchStep,
        switch: &SwitchState,
        wires: &[Option<u32>; 10],
        given: &[Option<u32>; 10],
    )
        requires there { All (λ (m : Sent). m.wire < length self.old)
            (sent_at wires.now (routed step.now switch.now.regs given.now)) }
        requires room { (w : ℕ) → 0 < length (sent_on w (sent_at wires.now (routed step.now switch.now.regs given.now))) →
            length (values_on self.old w) + length (sent_on w (sent_at wires.now (routed step.now switch.now.regs given.now))) ≤ 8 }
        ensures { self.new ≡ appended (sent_at wires.now (routed step.now switch.now.regs given.now)) self.old }
    {
        let word = step.outputs();
        let mut end = next_end(word, 0);
        'ends: while end < 10 {
            let value = switch.sent_from(step, end, given);
            self.put_where(wires[end], value);
            end = next_end(word, end + 1);
        }
    }
}
