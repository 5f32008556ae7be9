//! The status word of a processor.
ghost use Rattle.std.specs.Prelude.{◌≡◌, ℕ, suc, ◌<◌, ◌^◌, List, length, slice_index, slice_set};
ghost use Rattle.raw_fabric_rule.specs.declared.layout.TheConstants.{PLACES, SIDES};
ghost use Rattle.raw_fabric_rule.specs.Word.{field, pack};

use raw_fabric_rule::{COUNT_BITS, PLACES};

/// The count at an end, modulo `PLACES`: the values taken from an input, or sent to an output.
pub fn field_of(word: u64, end: usize) -> u64
    requires { end < SIDES }
    ensures value { result ≡ field end word }
    ensures small { result < PLACES }
{
    (word >> (COUNT_BITS * end)) % PLACES
}

/// The status word after one more value at an end: the count there goes on modulo `PLACES`, and the others stay.
///
/// It has `SIDES` counts of `COUNT_BITS` bits, and so is below 2^60.
pub fn bump(word: u64, end: usize) -> u64
    requires end { end < SIDES }
    requires word { word < 2 ^ 60 }
    ensures { (counts : List ℕ) → length counts ≡ SIDES → word ≡ pack counts →
        result ≡ pack (slice_set counts end (suc (slice_index counts end))) }
{
    if field_of(word, end) == PLACES - 1 {
        word - ((PLACES - 1) << (COUNT_BITS * end))
    } else {
        word + (1 << (COUNT_BITS * end))
    }
}
