//! Laws of sets for streams. The functions do nothing: their contracts are the laws.
ghost use Rattle.raw_stream_choice.specs.StreamSets.{EachHasItsWords};
ghost use Rattle.raw_stream_choice.specs.Choice.{EachCompiledMeets};

use raw_model::{law_fits, law_serial};
use raw_stream::law_unrolled;
use raw_unroll::{law_placed, law_stream_sets, law_streams};

/// A set for a stream has the words of the stream in its sources, each word in its place.
pub fn law_its_words()
    ensures { EachHasItsWords }
{}

/// The compiled set of a stream meets the flow that the stream is when it is unrolled, for all words.
pub fn law_compiled_meets()
    ensures { EachCompiledMeets }
{
    law_placed();
    law_streams();
    law_stream_sets();
    law_unrolled();
    law_serial();
    law_fits();
}
