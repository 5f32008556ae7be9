//! The statements of an instruction set.
ghost use Rattle.std.specs.Prelude.{◌≡◌, ◌<◌, ◌≤◌, ◌^◌, length, IfOk};
ghost use Rattle.raw_asm.specs.Language.{Language};
ghost use Rattle.raw_asm.specs.Emitted.{emitted, Gives};
ghost use Rattle.raw_asm.specs.Tokens.{tokens_of};
ghost use Rattle.raw_asm.specs.Labels.{place_in};

use crate::cut::Tokens;
use crate::kind::AsmKind;
use crate::label_table::Labels;
use crate::limits::MAX_CODE;

/// The instructions that one statement gives.
#[derive(Clone, Copy, PartialEq, Eq)]
pub enum Emitted<I> {
    Nothing,
    One(I),
    Two(I, I),
}

/// How the statements of an instruction set are read.
pub trait Statements<I: Copy> {
    ghost language: { Self → Language I };

    /// How many instructions a program has at most.
    fn most(&self) -> u32
        ensures value { result ≡ (language self.now).most }
        ensures bound { result ≤ MAX_CODE };

    /// How many instructions the statement gives, as its tokens alone tell.
    fn size(&self, statement: &Tokens<'_>) -> u32
        ensures value { result ≡ (language self.now).size (tokens_of statement.now) }
        ensures bound { result ≤ 2 };

    /// The instructions that the statement gives at a place, or what is wrong with it.
    fn code(
        &self,
        labels: &Labels<'_>,
        place: u32,
        statement: &Tokens<'_>,
    ) -> Result<Emitted<I>, AsmKind>
        requires { place < 2 ^ 31 }
        ensures code { Gives emitted result ((language self.now).code (place_in labels.now) place (tokens_of statement.now)) }
        ensures size { IfOk result (λ gave. length (emitted gave) ≡ (language self.now).size (tokens_of statement.now)) };
}
