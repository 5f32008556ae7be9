//! Received terms and those of a claim.
ghost use Rattle.std.specs.Prelude.{◌≡◌, ◌<◌, ◌⊎◌, length, map, slice_index, All, IfOk};
ghost use Rattle.raw_term.specs.Seen.{miscount, terms_seen};
ghost use Rattle.raw_term.specs.Verdicts.{compared, ByClasses, IsOfWords, IsOfCounts};
ghost use Rattle.raw_term.specs.declared.verdict.Verdict.TheVariants.{Differs};
ghost use Rattle.raw_row_terms.specs.RowClaims.{IsOfTerms};
ghost use Rattle.raw_prove.specs.Units.{state_of};

use crate::machine::Machine;
use raw_flow::Flow;
use raw_term::{Place, TermRefusal, TermTable, Verdict, claim_terms, class_at, term_classes};
use std::alloc::{AllocError, Global};

// Compares the terms that were received with as many others.
fn compared(
    alloc: Global,
    table: &TermTable,
    got: &[u32],
    claimed: &[u32],
) -> Result<Verdict, AllocError>
    requires { length got.now ≡ length claimed.now }
    ensures { IfOk result (λ verdict. verdict ≡ compared table.now 0 got.now claimed.now) }
{
    for k in 0..got.len() {
        if !table.is_same(alloc, got[k], claimed[k])? {
            return Ok(Verdict::Differs(k));
        }
    }
    Ok(Verdict::Proved(got.len()))
}

// Compares the classes of the terms that were received with those of as many others.
fn compared_classes(
    alloc: Global,
    table: &TermTable,
    classes: &[u32],
    got: &[u32],
    claimed: &[u32],
) -> Result<Verdict, AllocError>
    requires { length got.now ≡ length claimed.now }
    ensures { IfOk result (λ verdict. verdict ≡ compared table.now 0 (map (slice_index classes.now) got.now)
        (map (slice_index classes.now) claimed.now)) }
{
    for k in 0..got.len() {
        let wanted = class_at(classes, claimed[k]);
        if !table.is_same(alloc, class_at(classes, got[k]), wanted)? {
            return Ok(Verdict::Differs(k));
        }
    }
    Ok(Verdict::Proved(got.len()))
}

// What the classes of the terms say, where out `least` is the first that is not seen without. Where the table has no
// room for classes, that is what is said.
fn by_classes(
    alloc: Global,
    table: &mut TermTable,
    got: &[u32],
    claimed: &[u32],
    least: usize,
) -> Result<Verdict, AllocError>
    requires { length got.now ≡ length claimed.now }
    ensures { IfOk result (λ verdict. (verdict ≡ Differs least) ⊎ ByClasses table.old got.now claimed.now verdict) }
{
    match term_classes(alloc, table) {
        Ok(classes) => compared_classes(alloc, table, &classes, got, claimed),
        Err(TermRefusal::TooMany) => Ok(Verdict::Differs(least)),
        Err(TermRefusal::Memory) => Err(AllocError),
    }
}

/// What the terms that were received say of as many others, as they stand or by their classes.
pub(crate) fn compare_terms(
    alloc: Global,
    table: &mut TermTable,
    got: &[u32],
    claimed: &[u32],
) -> Result<Verdict, AllocError>
    requires { length got.now ≡ length claimed.now }
    ensures { IfOk result (IsOfTerms table.old got.now claimed.now) }
{
    // The table is read so that its limit is known.
    let _terms = table.len();
    let verdict = compared(alloc, table, got, claimed)?;
    match verdict {
        Verdict::Differs(least) => by_classes(alloc, table, got, claimed, least),
        _ => Ok(verdict),
    }
}

// The terms of the outs of a claim whose nodes have these.
fn claimed(alloc: Global, numbers: &[u32], outs: &[u32]) -> Result<Vec<u32>, AllocError>
    requires { All (λ v. v < length numbers.now) outs.now }
    ensures { IfOk result (λ claimed. claimed.items ≡ map (λ v. slice_index numbers.now v) outs.now) }
{
    let mut claimed = Vec::new(alloc);
    for out in outs {
        claimed.push(numbers[*out as usize])?;
    }
    Ok(claimed)
}

// What the terms at the places of a claim say of it.
fn compare_words(
    alloc: Global,
    machine: &mut Machine,
    claim: &Flow,
    places: &[Place],
) -> Result<Verdict, AllocError>
    ensures { IfOk result (IsOfWords (state_of machine.old) claim.now (terms_seen places.now (state_of machine.old).state)) }
{
    let got = machine.seen(alloc, places)?;
    if got.len() != claim.outs.len() {
        return Ok(Verdict::Words {
            received: got.len(),
            outs: claim.outs.len(),
        });
    }
    match claim_terms(alloc, &mut machine.table, &claim.nodes) {
        Ok(numbers) => {
            let wanted = claimed(alloc, &numbers, &claim.outs)?;
            compare_terms(alloc, &mut machine.table, &got, &wanted)
        }
        Err(TermRefusal::TooMany) => Ok(Verdict::TooMany),
        Err(TermRefusal::Memory) => Err(AllocError),
    }
}

/// What a machine says of a claim: first by the counts of its sinks, and then by the terms at the places of the claim.
pub(crate) fn compare(
    alloc: Global,
    machine: &mut Machine,
    claim: &Flow,
    places: &[Place],
) -> Result<Verdict, AllocError>
    ensures { IfOk result (IsOfCounts (miscount places.now (state_of machine.old).state.locals)
        (state_of machine.old) claim.now (terms_seen places.now (state_of machine.old).state)) }
{
    match machine.miscount(places) {
        Some((received, outs)) => Ok(Verdict::Words { received, outs }),
        None => compare_words(alloc, machine, claim, places),
    }
}
