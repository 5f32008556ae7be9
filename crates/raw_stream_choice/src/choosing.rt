//! The set that is written for a stream.
ghost use Rattle.std.specs.Prelude.{◌≡◌, ◌⊎◌, None, Some, IfOk, IfSome};
ghost use Rattle.raw_stream_text.specs.Meaning.{IsFed};
ghost use Rattle.raw_unroll.specs.Compiled.{compiled_stream};
ghost use Rattle.raw_stream_choice.specs.StreamSets.{IsSetForStream};
ghost use Rattle.raw_stream_choice.specs.Choice.{IsCompilable, TakesNoMore, MeetsStream, IsStreamChoice};

use crate::laws::law_compiled_meets;
use crate::meeting::is_proved;
use crate::ports::ports_of;
use crate::stream_set::set_with;
use raw_codegen::GiveRefusal;
use raw_grid::MAX_TILES;
use raw_model::{Set, TileProg};
use raw_pipeline::find_pipeline;
use raw_steady::{cycles_of, law_count};
use raw_stream_text::StreamInput;
use raw_unroll::compile_stream;
use std::alloc::{AllocError, Global};

// The set for a stream with these programs.
fn set_for(
    alloc: Global,
    input: &StreamInput,
    programs: &[TileProg],
) -> Result<Option<Set>, AllocError>
    requires { IsFed None input.now }
    ensures { IfOk result (λ found. IfSome found (IsSetForStream input.now.stream input.now.words)) }
{
    match ports_of(alloc, &input.stream, &input.words) {
        Ok(Some(ports)) => set_with(alloc, &input.stream, ports, programs),
        Ok(None) => Ok(None),
        Err(failure) => Err(failure),
    }
}

// What the search finds for a stream, where it is proved that it meets the stream.
fn found_set(alloc: Global, input: &StreamInput) -> Result<Option<Set>, AllocError>
    requires { IsFed None input.now }
    ensures { IfOk result (λ found. IfSome found (MeetsStream input.now.stream input.now.words)) }
{
    let pipeline = match find_pipeline(alloc, &input.stream, false, MAX_TILES) {
        Ok(Some(pipeline)) => pipeline,
        Ok(None) => return Ok(None),
        Err(failure) => return Err(failure),
    };
    match set_for(alloc, input, &pipeline.programs) {
        Ok(Some(set)) => {
            // The set is read so that its rules are known.
            let _limit = set.limit;
            if is_proved(alloc, &set, &input.stream)? {
                Ok(Some(set))
            } else {
                Ok(None)
            }
        }
        Ok(None) => Ok(None),
        Err(failure) => Err(failure),
    }
}

// The compiled set of a stream, where it is made.
fn compiled_set(alloc: Global, input: &StreamInput) -> Result<Option<Set>, AllocError>
    requires { IsFed None input.now }
    ensures set { IfOk result (λ found. IfSome found (λ set. set ≡ compiled_stream input.now.stream input.now.words)) }
    ensures meets { IfOk result (λ found. IfSome found (MeetsStream input.now.stream input.now.words)) }
    ensures none { IfOk result (λ found. found ≡ None → ¬ (IsCompilable input.now.stream input.now.words)) }
{
    law_compiled_meets();
    match compile_stream(alloc, &input.stream, &input.words) {
        Ok(Some(set)) => {
            // The set is read so that its rules are known.
            let _limit = set.limit;
            Ok(Some(set))
        }
        Ok(None) | Err(GiveRefusal::TooMany) => Ok(None),
        Err(GiveRefusal::Memory) => Err(AllocError),
    }
}

// The set that was found, if there is one that takes no more cycles than the compiled set, and else that.
fn sooner(alloc: Global, found: Option<Set>, compiled: Set) -> Result<Set, AllocError>
    ensures one { IfOk result (λ set. (found ≡ Some set) ⊎ (set ≡ compiled)) }
    ensures no_more { IfOk result (λ set. TakesNoMore set compiled) }
{
    law_count();
    let most = cycles_of(alloc, &compiled)?;
    if let Some(found) = found {
        if cycles_of(alloc, &found)? <= most {
            return Ok(found);
        }
    }
    Ok(compiled)
}

/// A set for a stream whose sources have these words. It is the one that the search finds, where it is proved that
/// this set meets the stream for all words, or the compiled set, where that is made: of both the one that takes
/// fewer cycles.
///
/// The only error is want of memory.
pub fn choose_for_stream(alloc: Global, input: &StreamInput) -> Result<Option<Set>, AllocError>
    requires { IsFed None input.now }
    ensures choice { IfOk result (λ found. IfSome found (IsStreamChoice input.now.stream input.now.words)) }
    ensures none { IfOk result (λ found. found ≡ None → ¬ (IsCompilable input.now.stream input.now.words)) }
{
    law_count();
    let found = match found_set(alloc, input) {
        Ok(found) => found,
        Err(failure) => return Err(failure),
    };
    match compiled_set(alloc, input) {
        Ok(Some(compiled)) => match sooner(alloc, found, compiled) {
            Ok(set) => Ok(Some(set)),
            Err(failure) => Err(failure),
        },
        Ok(None) => Ok(found),
        Err(failure) => Err(failure),
    }
}
