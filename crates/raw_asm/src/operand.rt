//! Labels and numbers, as a token names them.
ghost use Rattle.std.specs.Prelude.{◌≡◌};
ghost use Rattle.raw_asm.specs.Language.{target_of};
ghost use Rattle.raw_asm.specs.Labels.{place_in};

use crate::kind::AsmKind;
use crate::label_table::Labels;
use crate::names::{is_name, starts_number};
use raw_text::number;

/// What a token names where a label or a number may stand.
#[derive(Clone, Copy, PartialEq, Eq)]
pub enum Target {
    /// The place of a label.
    Label(u32),
    /// A number.
    Number(u32),
}

/// What a token names where a label or a number may stand: a token that begins with a digit or `-` is a
/// number. It is `BadOperand` where the token is neither, and `NoLabel` where no line has the label.
#[tactic(auto, unfolding(crate::specs::Language::target_of))]
pub fn read_target(labels: &Labels<'_>, token: &[u8]) -> Result<Target, AsmKind>
    ensures { result ≡ target_of (place_in labels.now) token.now }
{
    if starts_number(token) {
        let value = number(token).ok_or(AsmKind::BadOperand)?;
        Ok(Target::Number(value))
    } else if is_name(token) {
        let place = labels.place(token).ok_or(AsmKind::NoLabel)?;
        Ok(Target::Label(place))
    } else {
        Err(AsmKind::BadOperand)
    }
}
