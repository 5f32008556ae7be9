//! The statements of switches.
ghost use Rattle.std.specs.Prelude.{◌≡◌, ℕ, ◌<◌, ◌≤◌, length, All, IfSome, IfOk};
ghost use Rattle.std.specs.List.{list_all, position_or_len};
ghost use Rattle.raw_asm.specs.Tokens.{tokens_of};
ghost use Rattle.raw_asm.specs.Labels.{place_in};
ghost use Rattle.raw_switch_isa.specs.Table.{row_of};
ghost use Rattle.raw_switch_isa.specs.Ends.{IsSource};
ghost use Rattle.raw_switch_asm.specs.Route.{is_route};
ghost use Rattle.raw_switch_asm.specs.Statement.{begins_with_route, op_of, behind_name, has_shape, no_routes, control_of, shaped_control, with_sources, are_wired, declared_in, instruction_of};

use crate::names::Names;
use crate::operands::{rd, src, target};
use crate::routes::{is_route, route_codes, send_only, sent_register, sources};
use raw_asm::{AsmKind, Labels, Tokens};
use raw_grid::Ends;
use raw_switch_isa::{SwitchIns, SwitchOp, SwitchSource, are_within, inputs, outputs};

// Whether the first token is a route.
fn begins_with_route(tokens: &Tokens<'_>) -> bool
    requires { 0 < length (tokens_of tokens.now) }
    ensures { result ≡ begins_with_route (tokens_of tokens.now) }
{
    is_route(tokens.at(0))
}

// The operation of a statement.
#[tactic(auto, unfolding(crate::specs::Statement::op_of, raw_switch_isa::specs::Table::op_named))]
fn operation(names: &Names, tokens: &Tokens<'_>) -> Option<SwitchOp>
    requires { 0 < length (tokens_of tokens.now) }
    ensures { result ≡ op_of (tokens_of tokens.now) }
{
    if begins_with_route(tokens) {
        Some(SwitchOp::Nop)
    } else {
        names.get(tokens.at(0))
    }
}

// The operands and routes of a statement.
fn behind_name<'a>(tokens: &Tokens<'a>) -> Tokens<'a>
    requires { 0 < length (tokens_of tokens.now) }
    ensures { tokens_of result ≡ behind_name (tokens_of tokens.now) }
{
    if begins_with_route(tokens) {
        *tokens
    } else {
        tokens.behind(1)
    }
}

// How many tokens stand before the first route.
fn operand_count(tokens: &Tokens<'_>) -> usize
    ensures count { result ≡ position_or_len is_route (tokens_of tokens.now) }
    ensures within { result ≤ length (tokens_of tokens.now) }
{
    for place in 0..tokens.len() {
        if is_route(tokens.at(place)) {
            return place;
        }
    }
    tokens.len()
}

// Whether all tokens are routes.
fn are_routes(tokens: &Tokens<'_>) -> bool
    ensures { result ≡ list_all is_route (tokens_of tokens.now) }
{
    for place in 0..tokens.len() {
        if !is_route(tokens.at(place)) {
            return false;
        }
    }
    true
}

// Whether so many operands stand before the first route, and routes alone from there on.
#[tactic(auto, unfolding(crate::specs::Statement::has_shape))]
fn has_shape(count: usize, tokens: &Tokens<'_>) -> bool
    ensures { result ≡ has_shape count (tokens_of tokens.now) }
{
    operand_count(tokens) == count && are_routes(&tokens.behind(count))
}

// The operation with its operands.
#[tactic(auto, unfolding(crate::specs::Statement::control_of))]
fn control(labels: &Labels<'_>, op: SwitchOp, tokens: &Tokens<'_>) -> Result<SwitchIns, AsmKind>
    requires { length (row_of op).operands ≤ length (tokens_of tokens.now) }
    ensures { result ≡ control_of (place_in labels.now) op (tokens_of tokens.now) }
{
    let rd = rd(op, tokens)?;
    let src = src(op, tokens)?;
    let target = target(labels, op, tokens)?;
    Ok(SwitchIns {
        op,
        rd,
        src,
        target,
        rsel: 0,
        routes: [0; 10],
    })
}

// The operation with its operands, where the statement has its shape.
#[tactic(auto, unfolding(crate::specs::Statement::shaped_control, crate::specs::Statement::has_shape))]
fn shaped_control(
    labels: &Labels<'_>,
    op: SwitchOp,
    tokens: &Tokens<'_>,
) -> Result<SwitchIns, AsmKind>
    ensures control { result ≡ shaped_control (place_in labels.now) op (tokens_of tokens.now) }
    ensures enough { IfOk result (λ _. length (row_of op).operands ≤ length (tokens_of tokens.now)) }
{
    if !has_shape(op.operands().len(), tokens) {
        return Err(AsmKind::BadOperand);
    }
    control(labels, op, tokens)
}

// The instruction with routes from these sources.
#[tactic(auto, unfolding(crate::specs::Statement::with_sources))]
fn with_sources(ins: SwitchIns, sources: [Option<SwitchSource>; 10]) -> Result<SwitchIns, AsmKind>
    requires { All (λ source. IfSome source IsSource) sources }
    ensures { result ≡ with_sources ins sources }
{
    let rsel = sent_register(&sources);
    if !send_only(rsel, &sources) {
        return Err(AsmKind::TwoRegisters);
    }
    Ok(SwitchIns {
        rsel,
        routes: route_codes(&sources),
        ..ins
    })
}

// The instruction, where each end that it names has a wire.
#[tactic(auto, unfolding(crate::specs::Statement::declared_in))]
fn declared_in(wired: Ends, ins: SwitchIns) -> Result<SwitchIns, AsmKind>
    ensures { result ≡ declared_in wired ins }
{
    if are_within(inputs(&ins), wired.inputs) && are_within(outputs(&ins), wired.outputs) {
        Ok(ins)
    } else {
        Err(AsmKind::UndeclaredEdge)
    }
}

// The instruction of a statement.
#[tactic(auto, unfolding(crate::specs::Statement::instruction_of))]
pub(crate) fn instruction(
    names: &Names,
    wired: Ends,
    labels: &Labels<'_>,
    tokens: &Tokens<'_>,
) -> Result<SwitchIns, AsmKind>
    requires { 0 < length (tokens_of tokens.now) }
    ensures { result ≡ instruction_of wired (place_in labels.now) (tokens_of tokens.now) }
{
    let op = operation(names, tokens).ok_or(AsmKind::UnknownName)?;
    let rest = behind_name(tokens);
    let control = shaped_control(labels, op, &rest)?;
    let sources = sources(&rest.behind(op.operands().len()))?;
    let ins = with_sources(control, sources)?;
    declared_in(wired, ins)
}
