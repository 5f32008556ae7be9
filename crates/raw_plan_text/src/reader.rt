//! Reading the text of a plan.
ghost use Rattle.std.specs.Prelude.{◌≡◌, ◌<◌, ◌≤◌, ◌^◌, List, [], ◌∷◌, ◌++◌, length, Some, IsTrue, IfOk, IfErr, OnOk};
ghost use Rattle.raw_text.specs.Text.{text_lines};
ghost use Rattle.raw_asm.specs.Tokens.{tokens_of};
ghost use Rattle.raw_set_text.specs.Faults.{is_within};
ghost use Rattle.raw_grid.specs.declared.limits.TheConstants.{MAX_SIZE};
ghost use Rattle.raw_plan_text.specs.Plans.{IsPlan};
ghost use Rattle.raw_plan_text.specs.Forms.{Entry, grid_entry};
ghost use Rattle.raw_plan_text.specs.Forms.Entry.{Send as SendEntry};
ghost use Rattle.raw_plan_text.specs.Faults.{is_size, entry_fault, form_fault, line_fault};
ghost use Rattle.raw_plan_text.specs.Meaning.{entries_of, IsMeaning, IsCause};
ghost use Rattle.raw_plan_text.specs.Answers.{Answers, PlanStands};

use crate::forms::{Send, grid_size, is_grid, is_send, read_send};
use crate::laws::law_one_answer;
use crate::plan::Plan;
use crate::tile::{are_inside, is_inside, numbers, tile_number};
use raw_asm::{Section, Tokens};
use raw_grid::MAX_SIZE;
use raw_route::Haul;
use raw_set_text::{SetKind, SetRefusal};
use raw_text::Text;
use std::alloc::Global;

// The refusal of the line with this number.
fn refusal(line: u32, kind: SetKind) -> SetRefusal
    ensures { result ≡ SetRefusal.At line kind }
{
    SetRefusal::At { line, kind }
}

// Whether a grid may have so many columns, or rows.
fn is_within(n: u32) -> bool
    ensures value { result ≡ is_within 1 MAX_SIZE n }
    ensures few { IsTrue result → n ≤ MAX_SIZE }
{
    (1..=u32::from(MAX_SIZE)).contains(&n)
}

// Whether a grid may have this size.
fn is_size(columns: u32, rows: u32) -> bool
    ensures value { result ≡ is_size columns rows }
    ensures few_columns { IsTrue result → columns ≤ MAX_SIZE }
    ensures few_rows { IsTrue result → rows ≤ MAX_SIZE }
{
    is_within(columns) && is_within(rows)
}

// The plan that the first line with tokens begins, which is the one with this number.
fn read_grid(alloc: Global, line: &Tokens<'_>, number: u32) -> Result<Plan, SetRefusal>
    requires { 0 < length (tokens_of line.now) }
    ensures fault { Answers result number (line_fault [] (tokens_of line.now)) }
    ensures stands { IfOk result (λ plan. PlanStands (Some plan) (entries_of (tokens_of line.now ∷ []))) }
{
    if !is_grid(line) {
        return Err(refusal(number, SetKind::Missing));
    }
    let Some((columns, rows)) = grid_size(&line.behind(1)) else {
        return Err(refusal(number, SetKind::BadLine));
    };
    if !is_size(columns, rows) {
        return Err(refusal(number, SetKind::BadSize));
    }
    Ok(Plan {
        cols: columns as u8,
        rows: rows as u8,
        hauls: Vec::new(alloc),
        words: Vec::new(alloc),
    })
}

// What is wrong with a `grid` line that is not the first line.
fn second_grid(operands: &Tokens<'_>) -> SetKind
    ensures { (entries : List Entry) → 0 < length entries →
        form_fault entries (grid_entry (tokens_of operands.now)) ≡ Some result }
{
    match grid_size(operands) {
        None => SetKind::BadLine,
        Some((columns, rows)) => {
            if is_size(columns, rows) {
                SetKind::Repeated
            } else {
                SetKind::BadSize
            }
        }
    }
}

// Adds what a line sends, which is the one with this number.
fn add_send(alloc: Global, send: &Send, number: u32, plan: &mut Plan) -> Result<(), SetRefusal>
    ensures fault { (entries : List Entry) → PlanStands (Some plan.old) entries →
        Answers result number (entry_fault entries (SendEntry send.now)) }
    ensures stands { (entries : List Entry) → PlanStands (Some plan.old) entries →
        OnOk result (PlanStands (Some plan.new) (entries ++ SendEntry send.now ∷ [])) }
{
    let (cols, rows) = (plan.cols, plan.rows);
    if !is_inside(cols, rows, send.from) || !are_inside(cols, rows, &send.to) {
        return Err(refusal(number, SetKind::OffGrid));
    }
    let Some(to) = numbers(alloc, cols, rows, &send.to)? else {
        return Err(refusal(number, SetKind::Repeated));
    };
    let from = tile_number(cols, rows, send.from);
    let net = send.net;
    plan.add(Haul { from, net, to }, send.word)?;
    Ok(())
}

// Reads a line with tokens behind the first, which is the one with this number.
fn read_later(
    alloc: Global,
    line: &Tokens<'_>,
    number: u32,
    plan: &mut Plan,
) -> Result<(), SetRefusal>
    requires { 0 < length (tokens_of line.now) }
    ensures fault { (entries : List Entry) → PlanStands (Some plan.old) entries →
        Answers result number (line_fault entries (tokens_of line.now)) }
    ensures stands { (entries : List Entry) → PlanStands (Some plan.old) entries →
        OnOk result (PlanStands (Some plan.new) (entries ++ entries_of (tokens_of line.now ∷ []))) }
{
    let operands = line.behind(1);
    if is_grid(line) {
        return Err(refusal(number, second_grid(&operands)));
    }
    if !is_send(line) {
        return Err(refusal(number, SetKind::BadLine));
    }
    match read_send(alloc, &operands)? {
        Some(send) => add_send(alloc, &send, number, plan),
        None => Err(refusal(number, SetKind::BadLine)),
    }
}

// Reads a line, which is the one with this number. Before the first line with tokens there is no plan.
fn read_line(
    alloc: Global,
    line: &Tokens<'_>,
    number: u32,
    plan: Option<Plan>,
) -> Result<Option<Plan>, SetRefusal>
    ensures fault { (entries : List Entry) → PlanStands plan entries →
        Answers result number (line_fault entries (tokens_of line.now)) }
    ensures stands { (entries : List Entry) → PlanStands plan entries →
        IfOk result (λ after. PlanStands after (entries ++ entries_of (tokens_of line.now ∷ []))) }
{
    if line.len() == 0 {
        return Ok(plan);
    }
    match plan {
        None => Ok(Some(read_grid(alloc, line, number)?)),
        Some(mut plan) => {
            read_later(alloc, line, number, &mut plan)?;
            Ok(Some(plan))
        }
    }
}

/// The plan that a text means.
///
/// It goes over the lines once. A refusal names the least faulty line and the first of its faults, or is want of memory; the
/// text is unchanged. The kinds are `Missing`, `BadLine`, `BadSize`, `OffGrid` and `Repeated`, and no others: a `Text` has no line
/// that is `NotAscii` or `LineTooLong`, and whether the planned set is within its limits is for the planner to tell.
pub fn read_plan(alloc: Global, text: &Text) -> Result<Plan, SetRefusal>
    ensures meaning { IfOk result (IsMeaning (text_lines text.now)) }
    ensures cause { IfErr result (IsCause (text_lines text.now)) }
    // The planner can be called with it, and finds neither a size nor a haul that is faulty.
    ensures valid { IfOk result IsPlan }
    ensures few { IfOk result (λ plan. length plan.hauls < 2 ^ 32) }
{
    law_one_answer();
    let lines = Section::new(text, 0, text.line_count());
    let mut plan = None;
    for place in 0..lines.len() {
        plan = read_line(alloc, &lines.line(place), place as u32 + 1, plan)?;
    }
    match plan {
        Some(plan) => Ok(plan),
        None => Err(refusal(lines.len() as u32 + 1, SetKind::Missing)),
    }
}
