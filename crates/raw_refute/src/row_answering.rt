//! The answer to a claim of rows: by the set's own words, by terms, and by words that are looked for.
ghost use Rattle.std.specs.Prelude.{◌≡◌, ◌<◌, ◌^◌, length, sum_by, IfOk, IfSome};
ghost use Rattle.raw_model.specs.Bounds.{all_words};
ghost use Rattle.raw_stream.specs.Kept.{due_count};
ghost use Rattle.raw_row_terms.specs.RowClaims.{IsClaimOf};
ghost use Rattle.raw_refute.specs.RowAnswers.{IsProofByRows, IsRowsAnswer, IsRowsTried};
ghost use Rattle.raw_refute.specs.RowStanding.{RowsStand, OwnRowsStand};

use crate::answering::{RUN_STEPS, Tried, by_terms, next_list, own_words};
use crate::feeding::feed;
use crate::row_judging::judge_rows;
use crate::said::Answer;
use raw_lengths::prove_length;
use raw_model::Set;
use raw_outcome::Outcome;
use raw_prove::{Proof, misfed, prove_rows, words_at};
use raw_row_terms::law_rows_right;
use raw_search::{Lists, MAX_LISTS};
use raw_stream::StreamFlow;
use raw_term::Verdict;
use std::alloc::{AllocError, Global};

// Tries words by a run of the set with them, where its own do not refute the stream. Where these do, the set is left with
// them; else with its own.
fn refuted_by(
    alloc: Global,
    set: &mut Set,
    stream: &StreamFlow,
    order: &[u32],
    own: &[u32],
    words: Vec<u32>,
) -> Result<Tried, AllocError>
    requires stands { OwnRowsStand set.old stream.now order.now own.now }
    requires each { length words.items ≡ all_words set.old }
    ensures { IfOk result (λ tried. IsRowsTried set.old stream.now order.now set.new tried.answer) }
{
    feed(set, &words);
    let ran = judge_rows(alloc, set, stream, order, &words)?;
    match ran.fault {
        Some(fault) => Ok(Tried {
            answer: Some(Answer::Refuted { words, fault }),
            steps: ran.steps,
        }),
        None => {
            feed(set, own);
            Ok(Tried {
                answer: None,
                steps: ran.steps,
            })
        }
    }
}

// Looks for words by runs with them, where there are no terms to look at.
fn by_runs(
    alloc: Global,
    set: &mut Set,
    stream: &StreamFlow,
    order: &[u32],
    own: &[u32],
) -> Result<Option<Answer>, AllocError>
    requires { OwnRowsStand set.old stream.now order.now own.now }
    ensures { IfOk result (λ answer. IsRowsTried set.old stream.now order.now set.new answer) }
{
    let mut lists = Lists::new();
    let mut taken: u64 = 0;
    'lists: for _ in 0..MAX_LISTS {
        if taken >= RUN_STEPS {
            return Ok(None);
        }
        let words = next_list(alloc, &mut lists, own.len())?;
        let tried = refuted_by(alloc, set, stream, order, own, words)?;
        match tried.answer {
            None => taken = taken.saturating_add(tried.steps),
            Some(_) => return Ok(tried.answer),
        }
    }
    Ok(None)
}

// Looks for words where the set's own do not refute the stream, and the run with terms does not prove it: by the terms
// that differ, where there are such, and runs the set with what is found.
fn looked_for(
    alloc: Global,
    set: &mut Set,
    stream: &StreamFlow,
    order: &[u32],
    own: &[u32],
    proof: Proof,
    steps: u64,
) -> Result<Option<Answer>, AllocError>
    requires { OwnRowsStand set.old stream.now order.now own.now }
    ensures { IfOk result (λ answer. IsRowsTried set.old stream.now order.now set.new answer) }
{
    let Some(difference) = proof.difference else {
        return by_runs(alloc, set, stream, order, own);
    };
    let found = by_terms(alloc, &difference, own.len(), steps)?;
    match found {
        Some(words) => Ok(refuted_by(alloc, set, stream, order, own, words)?.answer),
        None => Ok(None),
    }
}

// The answer where the set's own words do not refute the stream: their run took so many steps.
fn not_by_own(
    alloc: Global,
    set: &mut Set,
    stream: &StreamFlow,
    order: &[u32],
    own: &[u32],
    steps: u64,
) -> Result<Answer, AllocError>
    requires { OwnRowsStand set.old stream.now order.now own.now }
    ensures { IfOk result (λ answer. IsRowsAnswer set.old stream.now order.now set.new answer) }
{
    law_rows_right();
    let proof = prove_rows(alloc, set, stream, order, Outcome::Done)?;
    let verdict = proof.verdict;
    match verdict {
        Verdict::Proved(outs) => Ok(Answer::Proved(outs)),
        _ => {
            let found = looked_for(alloc, set, stream, order, own, proof, steps)?;
            match found {
                Some(answer) => Ok(answer),
                None => Ok(Answer::Unproved(verdict)),
            }
        }
    }
}

// The answer by runs over all rows, with the set's own words at first.
fn by_all_rows(
    alloc: Global,
    set: &mut Set,
    stream: &StreamFlow,
    order: &[u32],
) -> Result<Answer, AllocError>
    requires { RowsStand set.old stream.now order.now }
    ensures { IfOk result (λ answer. IsRowsAnswer set.old stream.now order.now set.new answer) }
{
    let own = own_words(alloc, set)?;
    let ran = judge_rows(alloc, set, stream, order, &own)?;
    match ran.fault {
        Some(fault) => Ok(Answer::Refuted { words: own, fault }),
        None => not_by_own(alloc, set, stream, order, &own, ran.steps),
    }
}

// How many words these ports are due of all rows. None where they are too many to be counted.
fn outs_of(stream: &StreamFlow, order: &[u32]) -> Option<u64>
    requires { length stream.now.outs < 2 ^ 32 }
    ensures { IfSome result (λ outs. outs ≡ sum_by (due_count stream.now) order.now) }
{
    let mut outs: u64 = 0;
    for port in order {
        outs = outs.checked_add(stream.due_of(*port as usize))?;
    }
    Some(outs)
}

// How many outs the stream has, where it is proved by rows.
fn by_rows(
    alloc: Global,
    set: &Set,
    stream: &StreamFlow,
    order: &[u32],
) -> Result<Option<u64>, AllocError>
    requires { RowsStand set.now stream.now order.now }
    ensures { IfOk result (λ found. IfSome found (λ outs. IsProofByRows set.now stream.now order.now set.now outs)) }
{
    let Some(outs) = outs_of(stream, order) else {
        return Ok(None);
    };
    if prove_length(alloc, set, stream)? {
        Ok(Some(outs))
    } else {
        Ok(None)
    }
}

/// Says of a stream, whose ports are numbered as those of the set, that it is proved, or that words refute it, or neither.
/// The words of its sinks are compared port by port in this order.
///
/// First the words of each port are counted. Where the stream is not proved by rows, it is decided as `answer` decides of a
/// claim. Behind `Refuted` the set has the words that refute the stream; behind the others it is as it was.
pub fn answer_rows(
    alloc: Global,
    set: &mut Set,
    stream: &StreamFlow,
    order: &[u32],
) -> Result<Answer, AllocError>
    requires { IsClaimOf set.old stream.now order.now }
    ensures { IfOk result (λ answer. IsRowsAnswer set.old stream.now order.now set.new answer) }
{
    // The set is read so that its rules are known.
    let _limit = set.limit;
    match misfed(set, stream) {
        Some(port) => Ok(Answer::Unproved(Verdict::Inputs {
            inputs: stream.taken_of(port) as usize,
            words: words_at(set, port),
        })),
        None => match by_rows(alloc, set, stream, order)? {
            Some(outs) => Ok(Answer::ProvedByRows(outs)),
            None => by_all_rows(alloc, set, stream, order),
        },
    }
}
