//! How many values are sent on each wire.
ghost use Rattle.std.specs.Prelude.{◌≡◌, ℕ, ◌<◌, ◌≤◌, ◌^◌, length, slice_index, slice_set, ◌+◌};
ghost use Rattle.std.specs.List.{All};
ghost use Rattle.raw_network.specs.Network.{Sent as SentValue};
ghost use Rattle.raw_clock.specs.Values.{AreCounted, AreFewMore};

use raw_serial::Sent;

/// Counts these values, each on its wire.
pub(crate) fn count_sent(sent: &[Sent], passed: &mut [u64])
    requires there { All (λ (m : SentValue). m.wire < length passed.old) sent.now }
    requires few { length sent.now ≤ 10 }
    requires room { (w : ℕ) → slice_index passed.old w < 2 ^ 62 }
    ensures counted { AreCounted sent.now passed.old passed.new }
    ensures few { AreFewMore 10 passed.old passed.new }
{
    for i in 0..sent.len() {
        let value = sent[i];
        count(passed, value.wire);
    }
}

// Counts a value on its wire.
fn count(passed: &mut [u64], wire: u32)
    requires there { wire < length passed.old }
    requires room { slice_index passed.old wire < 2 ^ 63 }
    ensures { passed.new ≡ slice_set passed.old wire (slice_index passed.old wire + 1) }
{
    passed[wire as usize] += 1;
}
