//! The set and the claim that an input says.
ghost use Rattle.std.specs.Prelude.{◌≡◌, ◌≤◌, ℕ, List, true, false, None, length, IfOk, IfErr};
ghost use Rattle.raw_text.specs.Lines as text;
ghost use Rattle.raw_set_text.specs.Texts.{token_lines};
ghost use Rattle.raw_claim_text.specs.Meaning as claim;
ghost use Rattle.raw_row_claim_text.specs.Meaning as rows;
ghost use Rattle.raw_inputs.specs.Claimed.{says_rows, IsClaimed};
ghost use Rattle.raw_inputs.specs.Inputs.{IsRefusalOf};

use crate::flaw::Failure;
use crate::form::InputForm;
use crate::input::{refused_at, refused_text};
use raw_claim_text::{Claim, read_claim};
use raw_row_claim_text::{RowClaim, read_row_claim};
use raw_set_text::SetRefusal;
use raw_text::{MAX_TEXT, read_text};
use std::alloc::Global;

/// A set with what is claimed of it.
#[derive(Drop)]
pub enum Claimed {
    /// A flow, with the places of its outs or with none.
    Flow(Claim),
    /// A stream.
    Rows(RowClaim),
}

// Why a set and a claim are not read.
fn of_claim(refusal: SetRefusal) -> Failure
    ensures flow { (bytes : List ℕ) → text.first_fault 1 (text.lines_of bytes) ≡ None → says_rows bytes ≡ false →
        claim.IsCause (token_lines bytes) refusal → IsRefusalOf InputForm.Claim bytes result }
    ensures rows { (bytes : List ℕ) → text.first_fault 1 (text.lines_of bytes) ≡ None → says_rows bytes ≡ true →
        rows.IsCause (token_lines bytes) refusal → IsRefusalOf InputForm.Claim bytes result }
{
    match refusal {
        SetRefusal::At { line, kind } => refused_at(line, kind),
        SetRefusal::Memory => Failure::Memory,
    }
}

/// The set and the claim that an input says, or why it says none.
pub fn claim_in(alloc: Global, input: Vec<u8>) -> Result<Claimed, Failure>
    requires { length input.items ≤ MAX_TEXT }
    ensures meaning { IfOk result (IsClaimed input.items) }
    ensures cause { IfErr result (IsRefusalOf InputForm.Claim input.items) }
{
    let text = match read_text(alloc, input) {
        Ok(text) => text,
        Err(refusal) => return Err(refused_text(refusal)),
    };
    let rows = match read_row_claim(alloc, &text) {
        Ok(rows) => rows,
        Err(refusal) => return Err(of_claim(refusal)),
    };
    match rows {
        Some(claim) => Ok(Claimed::Rows(claim)),
        None => match read_claim(alloc, &text) {
            Ok(claim) => Ok(Claimed::Flow(claim)),
            Err(refusal) => Err(of_claim(refusal)),
        },
    }
}
