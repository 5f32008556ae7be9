//! Reading the text of a claim.
ghost use Rattle.std.specs.Prelude.{◌≡◌, ◌≤◌, None, codes, drop, length, IfOk, IfErr};
ghost use Rattle.raw_text.specs.Text.{text_lines};
ghost use Rattle.raw_claim_text.specs.Marked.{mark_in};
ghost use Rattle.raw_claim_text.specs.Meaning.{IsMeaning, IsCause};
ghost use Rattle.raw_claim_text.specs.Lines.{IsMeaning as AreMeant, IsCause as AreRefused};
ghost use Rattle.raw_claim_text.specs.Building.{claim_of};

use crate::builder::ClaimBuilder;
use crate::claim::Claim;
use raw_asm::Section;
use raw_flow_text::{FlowInput, Operations, law_one_answer};
use raw_grid::Topo;
use raw_set_text::{SetKind, SetRefusal, read_set};
use raw_term::Place;
use raw_text::Text;
use std::alloc::Global;

// What the lines behind the mark mean: a flow with words for its inputs, and the places of its outs.
#[derive(Drop)]
struct ClaimLines {
    read: FlowInput,
    places: Vec<Place>,
}

// Why a text without the line `claim` is refused: the fault of its set, or else the line that is missing.
fn without_mark(alloc: Global, text: &Text) -> SetRefusal
    requires { mark_in (codes "claim") (text_lines text.now) ≡ None }
    ensures { IsCause (text_lines text.now) result }
{
    match read_set(alloc, text, text.line_count()) {
        Ok(_) => SetRefusal::At {
            line: text.line_count() as u32 + 1,
            kind: SetKind::Missing,
        },
        Err(refusal) => refusal,
    }
}

// What the lines of a text from a place on mean for a set on this grid.
fn read_lines(
    alloc: Global,
    text: &Text,
    from: usize,
    topo: &Topo,
) -> Result<ClaimLines, SetRefusal>
    requires { from ≤ length (text_lines text.now) }
    ensures meaning { IfOk result (λ read. AreMeant topo.now (drop from (text_lines text.now)) (claim_of read)) }
    ensures cause { IfErr result (AreRefused topo.now from (drop from (text_lines text.now))) }
{
    law_one_answer();
    let lines = Section::new(text, from, text.line_count());
    let operations = Operations::new(alloc)?;
    let mut builder = ClaimBuilder::new(alloc);
    for place in 0..lines.len() {
        let number = lines.line_number(place);
        builder.add_line(&operations, topo, number, &lines.line(place))?;
    }
    let ClaimBuilder { flow, places, .. } = builder;
    let read = flow.finish(text.line_count() as u32 + 1)?;
    Ok(ClaimLines { read, places })
}

/// The set and the claim that a text means.
///
/// A refusal names the least faulty line, counted from the start of the text, and the first of its faults, or is want of
/// memory: a fault of the set before the line `claim`, or `Missing` behind the last line where the text has no such line, or a
/// fault of the claim behind it, which is `BadSize` too where its `grid` line has not the size of the set. The text is
/// unchanged. Of the kinds, `NotAscii` and `LineTooLong` never come, since a `Text` has no such line.
pub fn read_claim(alloc: Global, text: &Text) -> Result<Claim, SetRefusal>
    ensures meaning { IfOk result (λ claim. IsMeaning (text_lines text.now) claim.set claim.flow claim.places.items) }
    ensures cause { IfErr result (IsCause (text_lines text.now)) }
{
    let Some(place) = text.find_word(b"claim") else {
        return Err(without_mark(alloc, text));
    };
    let set = match read_set(alloc, text, place) {
        Ok(set) => set,
        Err(refusal) => return Err(refusal),
    };
    match read_lines(alloc, text, place + 1, &set.topo) {
        Ok(lines) => {
            let ClaimLines { read, places } = lines;
            Ok(Claim {
                set,
                flow: read.flow,
                places,
            })
        }
        Err(refusal) => Err(refusal),
    }
}
