//! The first two lines of a set: the grid and the limit.
ghost use Rattle.std.specs.Prelude.{◌≡◌, ◌≤◌, ◌<◌, ℕ, List, [], ◌∷◌, length, slice_index_or, Some, IsTrue, IfOk};
ghost use Rattle.std.specs.Str.{bytes_eq};
ghost use Rattle.raw_asm.specs.Tokens.{tokens_of};
ghost use Rattle.raw_set_text.specs.Entry.Entry.{Grid, Limit};
ghost use Rattle.raw_set_text.specs.Forms.{word_name, line_entry};
ghost use Rattle.raw_set_text.specs.Faults.{is_within, line_fault};
ghost use Rattle.raw_set_text.specs.Answers.{Answers};
ghost use Rattle.raw_set_text.specs.Building.{PortsStand};

use crate::forms::{grid_size, limit_number};
use crate::kind::SetKind;
use crate::ports::Ports;
use crate::refused::LineRefusal;
use crate::word::Word;
use raw_asm::Tokens;
use raw_model::limits::MAX_STEPS;
use std::alloc::Global;

// Whether a line with tokens begins with this word.
fn begins_with(line: &Tokens<'_>, word: Word) -> bool
    requires { 0 < length (tokens_of line.now) }
    ensures { result ≡ bytes_eq (slice_index_or (tokens_of line.now) 0 []) (word_name word) }
{
    line.at(0) == word.name().as_bytes()
}

/// The grid that the first line with tokens declares.
pub(crate) fn read_grid(alloc: Global, line: &Tokens<'_>) -> Result<Ports, LineRefusal>
    requires { 0 < length (tokens_of line.now) }
    ensures fault { Answers result (line_fault [] (tokens_of line.now)) }
    ensures entry { IfOk result (λ ports. line_entry (tokens_of line.now) ≡ Some (Grid ports.topo.cols ports.topo.rows)) }
    ensures stands { IfOk result (λ ports. PortsStand ports (Grid ports.topo.cols ports.topo.rows ∷ [])) }
{
    if !begins_with(line, Word::Grid) {
        return Err(LineRefusal::Fault(SetKind::Missing));
    }
    let Some((columns, rows)) = grid_size(&line.behind(1)) else {
        return Err(LineRefusal::Fault(SetKind::BadLine));
    };
    Ports::new(alloc, columns, rows)
}

// Whether a processor may execute so many instructions at most.
fn is_limit(n: u32) -> bool
    ensures value { result ≡ is_within 1 MAX_STEPS n }
    ensures some { IsTrue result → 1 ≤ n }
    ensures few { IsTrue result → n ≤ MAX_STEPS }
{
    (1..=MAX_STEPS).contains(&n)
}

/// The limit that the second line with tokens declares.
pub(crate) fn read_limit(line: &Tokens<'_>) -> Result<u32, LineRefusal>
    requires { 0 < length (tokens_of line.now) }
    ensures fault { (columns rows : ℕ) → Answers result (line_fault (Grid columns rows ∷ []) (tokens_of line.now)) }
    ensures entry { IfOk result (λ limit. line_entry (tokens_of line.now) ≡ Some (Limit limit)) }
    ensures some { IfOk result (λ limit. 1 ≤ limit) }
    ensures few { IfOk result (λ limit. limit ≤ MAX_STEPS) }
{
    if !begins_with(line, Word::Limit) {
        return Err(LineRefusal::Fault(SetKind::Missing));
    }
    let Some(limit) = limit_number(&line.behind(1)) else {
        return Err(LineRefusal::Fault(SetKind::BadLine));
    };
    if is_limit(limit) {
        Ok(limit)
    } else {
        Err(LineRefusal::Fault(SetKind::OverLimit))
    }
}
