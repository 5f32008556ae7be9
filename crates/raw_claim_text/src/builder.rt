//! A claim that is being built, line by line.
ghost use Rattle.std.specs.Prelude.{◌≡◌, ◌<◌, ◌≤◌, ◌+◌, ℕ, List, [], ◌∷◌, ◌++◌, ◌||◌, Some, Ok, Err, Option, slice_index_or, length, OnOk, IfOk};
ghost use Rattle.std.specs.Option.{option_to_list};
ghost use Rattle.raw_asm.specs.Tokens.{tokens_of};
ghost use Rattle.raw_grid.specs.Topology.{Topology};
ghost use Rattle.raw_set_text.specs.declared.kind.SetKind.{SetKind as Kind};
ghost use Rattle.raw_flow_text.specs.Statement.{Statement};
ghost use Rattle.raw_flow_text.specs.Forms.{line_statement};
ghost use Rattle.raw_flow_text.specs.Faults as flow_line;
ghost use Rattle.raw_flow_text.specs.Building.{Answers};
ghost use Rattle.raw_flow_text.specs.Building.{BuilderStands as FlowStands};
ghost use Rattle.raw_claim_text.specs.Forms.{is_plain_out, plain_line};
ghost use Rattle.raw_claim_text.specs.Placing.{said_places, said_in, place_said, place_in, past_fault, line_fault};
ghost use Rattle.raw_claim_text.specs.Lines.{size_of};
ghost use Rattle.raw_claim_text.specs.Building.{ClaimStands};

use crate::named::{is_plain_out, names_place};
use crate::placing::place_said;
use raw_asm::Tokens;
use raw_flow_text::{Builder, Operations};
use raw_grid::Topo;
use raw_model::limits::MEMORY_WORDS;
use raw_set_text::{SetKind, SetRefusal};
use raw_term::Place;
use raw_text::MAX_TEXT;
use std::alloc::{AllocError, Global};

/// A claim that is being built.
#[derive(Drop)]
pub(crate) struct ClaimBuilder<'a> {
    pub(crate) flow: Builder<'a>,
    /// Whether an `out` line names no place.
    pub(crate) plain: bool,
    /// The places that lines name.
    pub(crate) places: Vec<Place>,
}

// The second token of a line that names a place, or no bytes.
fn second<'a>(line: &Tokens<'a>) -> &'a [u8]
    ensures { result.now ≡ slice_index_or (tokens_of line.now) 1 [] }
{
    if line.len() > 1 { line.at(1) } else { &[] }
}

// Adds what a line says as a line of a flow, or refuses it.
fn add_to_flow<'a>(
    flow: &mut Builder<'a>,
    operations: &Operations,
    topo: &Topo,
    number: u32,
    line: &Tokens<'a>,
) -> Result<(), SetRefusal>
    ensures fault { (said : List Statement) → FlowStands flow.old said →
        Answers result number (flow_line.line_fault (Some (size_of topo.now)) said (plain_line (tokens_of line.now))) }
    ensures stands { (said : List Statement) → FlowStands flow.old said →
        OnOk result (FlowStands flow.new (said ++ option_to_list (line_statement (plain_line (tokens_of line.now))))) }
{
    if names_place(line) {
        flow.add_out_line(number, second(line))
    } else {
        let wanted = Some((topo.cols(), topo.rows()));
        flow.add_line(operations, wanted, number, line)
    }
}

// Refuses a place past the memory.
fn within(number: u32, place: Option<Place>) -> Result<Option<Place>, SetRefusal>
    ensures fault { Answers result number (past_fault place) }
    ensures same { IfOk result (λ said. said ≡ place) }
{
    match place {
        Some(Place::Memory { number: word, .. }) if word >= MEMORY_WORDS => {
            Err(SetRefusal::At {
                line: number,
                kind: SetKind::OverLimit,
            })
        }
        _ => Ok(place),
    }
}

// Why a line is refused which the flow refuses so, and which says this of a place.
fn refused(number: u32, refusal: SetRefusal, said: Result<Option<Place>, SetKind>) -> SetRefusal
    ensures { (flow : Option Kind) → Answers {T = Unit {0}} (Err refusal) number flow →
        Answers {T = Unit {0}} (Err result) number (line_fault flow said) }
{
    match (refusal, said) {
        (SetRefusal::Memory, _) => refusal,
        (
            SetRefusal::At {
                kind: SetKind::Missing,
                ..
            },
            _,
        ) => refusal,
        (SetRefusal::At { .. }, Err(kind)) => SetRefusal::At { line: number, kind },
        (SetRefusal::At { .. }, Ok(_)) => refusal,
    }
}

// The place that a line says which says this of a place, and was added to the flow or refused by it; or its first fault.
fn told(
    number: u32,
    added: Result<(), SetRefusal>,
    said: Result<Option<Place>, SetKind>,
) -> Result<Option<Place>, SetRefusal>
    ensures fault { (flow : Option Kind) → Answers added number flow → Answers result number (line_fault flow said) }
    ensures added { IfOk result (λ _. added ≡ Ok tt) }
    ensures said { IfOk result (λ place. said ≡ Ok place) }
{
    match added {
        Err(refusal) => Err(refused(number, refusal, said)),
        Ok(()) => match said {
            Err(kind) => Err(SetRefusal::At { line: number, kind }),
            Ok(place) => within(number, place),
        },
    }
}

// Adds a place, where there is one.
fn add_place(places: &mut Vec<Place>, place: Option<Place>) -> Result<(), AllocError>
    ensures added { OnOk result (places.new.items ≡ places.old.items ++ place_in (Ok place)) }
    ensures few { OnOk result (length places.new.items ≤ length places.old.items + 1) }
{
    if let Some(place) = place {
        places.push(place)?;
    }
    Ok(())
}

// Whether an `out` line names no place, with one line more.
fn plain_with(plain: bool, line: &Tokens<'_>) -> bool
    ensures { result ≡ (plain || is_plain_out (tokens_of line.now)) }
{
    plain || is_plain_out(line)
}

impl<'a> ClaimBuilder<'a> {
    /// A claim of which no line is added yet.
    pub(crate) fn new(alloc: Global) -> ClaimBuilder<'a>
        ensures stands { (topo : Topology) → ClaimStands topo result [] }
        ensures none { length result.places.items ≡ 0 }
    {
        ClaimBuilder {
            flow: Builder::new(alloc),
            plain: false,
            places: Vec::new(alloc),
        }
    }

    /// Adds what the line of this number says, or refuses it.
    pub(crate) fn add_line(
        &mut self,
        operations: &Operations,
        topo: &Topo,
        number: u32,
        line: &Tokens<'a>,
    ) -> Result<(), SetRefusal>
        requires { length self.old.places.items < MAX_TEXT }
        ensures fault { (lines : List (List (List ℕ))) → ClaimStands topo.now self.old lines → Answers result number
            (line_fault (flow_line.line_fault (Some (size_of topo.now)) (said_in lines) (plain_line (tokens_of line.now)))
            (place_said topo.now (said_places topo.now lines) (tokens_of line.now))) }
        ensures stands { (lines : List (List (List ℕ))) → ClaimStands topo.now self.old lines →
            OnOk result (ClaimStands topo.now self.new (lines ++ tokens_of line.now ∷ [])) }
        ensures room { OnOk result (length self.new.places.items ≤ length self.old.places.items + 1) }
    {
        let said = place_said(topo, self.plain, &self.places, line);
        let added = add_to_flow(&mut self.flow, operations, topo, number, line);
        let place = told(number, added, said)?;
        self.plain = plain_with(self.plain, line);
        add_place(&mut self.places, place)?;
        Ok(())
    }
}
