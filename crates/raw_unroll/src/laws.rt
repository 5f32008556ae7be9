//! The laws of the compiled sets of streams. Each function does nothing: its contract is the law.
ghost use Rattle.raw_unroll.specs.Compiled.{EachStreamIsPlaced, EachStreamIsRight, EachStreamIsSet};

use raw_flow::{law_compiled_at, law_flow_at};
use raw_stream::law_unrolled;

/// The flow that a stream is keeps what flows keep, where it has at most 8,192 nodes, and the ports of the stream are its
/// ports.
pub fn law_placed()
    ensures { EachStreamIsPlaced }
{
    law_unrolled();
}

/// Every lawful list of steps of the compiled set of a stream that comes to rest is done, and each sink has what it is
/// due of all rows, whatever the words of the sources are.
pub fn law_streams()
    ensures { EachStreamIsRight }
{
    law_unrolled();
    law_flow_at();
}

/// Where its programs are within the limits, the compiled set of a stream keeps all that sets keep.
pub fn law_stream_sets()
    ensures { EachStreamIsSet }
{
    law_unrolled();
    law_compiled_at();
}
