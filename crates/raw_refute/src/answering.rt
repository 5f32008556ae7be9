//! The answer to a claim: by the set's own words, by terms, and by words that are looked for.
ghost use Rattle.std.specs.Prelude.{◌≡◌, length, IfOk, IfSome};
ghost use Rattle.raw_model.specs.Bounds.{all_words};
ghost use Rattle.raw_refute.specs.Answers.{own_words, AreRight, IsAnswer, IsTried};

use crate::feeding::feed;
use crate::judging::judge;
use crate::said::Answer;
use raw_flow::Flow;
use raw_model::Set;
use raw_outcome::Outcome;
use raw_prove::{Difference, Proof, prove};
use raw_search::{Budget, Lists, MAX_LISTS, Terms, find};
use raw_term::{Place, Verdict};
use std::alloc::{AllocError, Global};

// How often the terms of a difference are evaluated at most.
const EVALUATIONS: u32 = 600;

// How many values of terms are found at most, and for each step of the run.
const OPERATIONS: u64 = 1_000_000;

const OPERATIONS_A_STEP: u64 = 4;

/// Once all runs with other words have taken so many steps, none begins.
pub(crate) const RUN_STEPS: u64 = 8_000_000;

/// What a run with other words shows.
#[derive(Drop)]
pub(crate) struct Tried {
    /// The refutation by these words, if they refute the claim.
    pub(crate) answer: Option<Answer>,
    /// How many steps the run took.
    pub(crate) steps: u64,
}

/// The words of all sources of a set, those of the first port first.
pub(crate) fn own_words(alloc: Global, set: &Set) -> Result<Vec<u32>, AllocError>
    ensures { IfOk result (λ words. words.items ≡ own_words set.now) }
{
    let mut words = Vec::new(alloc);
    for port in &set.ports {
        words.extend_from_slice(&port.words)?;
    }
    Ok(words)
}

// Tries words by a run of the set with them, where its own do not refute the claim. Where these do, the set is left with
// them; else with its own.
fn refuted_by(
    alloc: Global,
    set: &mut Set,
    claim: &Flow,
    places: &[Place],
    own: &[u32],
    words: Vec<u32>,
) -> Result<Tried, AllocError>
    requires right { AreRight set.old claim.now places.now own.now }
    requires each { length words.items ≡ all_words set.old }
    ensures { IfOk result (λ tried. IsTried set.old claim.now places.now set.new tried.answer) }
{
    feed(set, &words);
    let ran = judge(alloc, set, claim, places, &words)?;
    match ran.fault {
        Some(fault) => Ok(Tried {
            answer: Some(Answer::Refuted { words, fault }),
            steps: ran.steps,
        }),
        None => {
            feed(set, own);
            Ok(Tried {
                answer: None,
                steps: ran.steps,
            })
        }
    }
}

/// Looks for words by the terms that differ, within a budget that rises with the steps of the run.
pub(crate) fn by_terms(
    alloc: Global,
    difference: &Difference,
    inputs: usize,
    steps: u64,
) -> Result<Option<Vec<u32>>, AllocError>
    ensures { IfOk result (λ found. IfSome found (λ words. length words.items ≡ inputs)) }
{
    let terms = Terms {
        nodes: &difference.nodes,
        received: &difference.received,
        claimed: &difference.claimed,
    };
    let budget = Budget {
        evaluations: EVALUATIONS,
        operations: steps
            .saturating_mul(OPERATIONS_A_STEP)
            .saturating_add(OPERATIONS),
    };
    find(alloc, terms, inputs, budget)
}

/// The next of the lists, as a list of its own.
pub(crate) fn next_list(
    alloc: Global,
    lists: &mut Lists,
    count: usize,
) -> Result<Vec<u32>, AllocError>
    ensures { IfOk result (λ words. length words.items ≡ count) }
{
    let mut words = Vec::new(alloc);
    words.resize(count, 0)?;
    lists.put_next(&mut words);
    Ok(words)
}

// Looks for words by runs with them, where there are no terms to look at.
fn by_runs(
    alloc: Global,
    set: &mut Set,
    claim: &Flow,
    places: &[Place],
    own: &[u32],
) -> Result<Option<Answer>, AllocError>
    requires right { AreRight set.old claim.now places.now own.now }
    ensures { IfOk result (λ answer. IsTried set.old claim.now places.now set.new answer) }
{
    let mut lists = Lists::new();
    let mut taken: u64 = 0;
    'lists: for _ in 0..MAX_LISTS {
        if taken >= RUN_STEPS {
            return Ok(None);
        }
        let words = next_list(alloc, &mut lists, own.len())?;
        let tried = refuted_by(alloc, set, claim, places, own, words)?;
        match tried.answer {
            None => taken = taken.saturating_add(tried.steps),
            Some(_) => return Ok(tried.answer),
        }
    }
    Ok(None)
}

// Looks for words where the set's own do not refute the claim, and the run with terms does not prove it: by the terms that
// differ, where there are such, and runs the set with what is found.
fn looked_for(
    alloc: Global,
    set: &mut Set,
    claim: &Flow,
    places: &[Place],
    own: &[u32],
    proof: Proof,
    steps: u64,
) -> Result<Option<Answer>, AllocError>
    requires right { AreRight set.old claim.now places.now own.now }
    ensures { IfOk result (λ answer. IsTried set.old claim.now places.now set.new answer) }
{
    let Some(difference) = proof.difference else {
        return by_runs(alloc, set, claim, places, own);
    };
    let found = by_terms(alloc, &difference, own.len(), steps)?;
    match found {
        Some(words) => Ok(refuted_by(alloc, set, claim, places, own, words)?.answer),
        None => Ok(None),
    }
}

// The answer where the set's own words do not refute the claim: their run took so many steps.
fn not_by_own(
    alloc: Global,
    set: &mut Set,
    claim: &Flow,
    places: &[Place],
    own: &[u32],
    steps: u64,
) -> Result<Answer, AllocError>
    requires right { AreRight set.old claim.now places.now own.now }
    ensures { IfOk result (λ answer. IsAnswer set.old claim.now places.now set.new answer) }
{
    let proof = prove(alloc, set, claim, places, Outcome::Done)?;
    let verdict = proof.verdict;
    match verdict {
        Verdict::Proved(outs) => Ok(Answer::Proved(outs)),
        _ => {
            let found = looked_for(alloc, set, claim, places, own, proof, steps)?;
            match found {
                Some(answer) => Ok(answer),
                None => Ok(Answer::Unproved(verdict)),
            }
        }
    }
}

/// Says of a claim at these places that it is proved, or that words refute it, or neither.
///
/// The set's own words come first: where they show that the claim is false, they are the answer. Then one run with terms
/// in the place of words decides whether the claim is proved. Else words are looked for, from the terms that differ, or by
/// runs where there are none. Nothing of that search is trusted: words that it finds are run before they are given. It is
/// bounded by work that is counted, and gives the same answer for the same set and claim.
///
/// Behind `Refuted` the set has the words that refute the claim; behind the others it is as it was.
pub fn answer(
    alloc: Global,
    set: &mut Set,
    claim: &Flow,
    places: &[Place],
) -> Result<Answer, AllocError>
    ensures { IfOk result (λ answer. IsAnswer set.old claim.now places.now set.new answer) }
{
    let own = own_words(alloc, set)?;
    let inputs = claim.input_count();
    if inputs != own.len() {
        return Ok(Answer::Unproved(Verdict::Inputs {
            inputs,
            words: own.len(),
        }));
    }
    let ran = judge(alloc, set, claim, places, &own)?;
    match ran.fault {
        Some(fault) => Ok(Answer::Refuted { words: own, fault }),
        None => not_by_own(alloc, set, claim, places, &own, ran.steps),
    }
}
