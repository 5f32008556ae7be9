//! A register, as instructions of tiles and of switches have it.
ghost use Rattle.std.specs.Prelude.{◌≡◌, ◌+◌, ◌≤◌, ◌++◌, ◌∷◌, length, decimal};

use raw_state_text::{LINE_SIZE, Line};

/// Appends the number of a register behind the letter of its kind.
pub(crate) fn push_register(line: &mut Line, letter: u8, register: u8)
    requires { length line.old + 21 ≤ LINE_SIZE }
    ensures text { line.new ≡ line.old ++ letter ∷ decimal register }
    ensures len { length line.new ≤ length line.old + 4 }
{
    line.push_text(&[letter]);
    line.push_number(u64::from(register));
}
