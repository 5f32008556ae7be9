//! The compiled set of a stream.
ghost use Rattle.std.specs.Prelude.{◌≡◌, ◌⊎◌, ◌↔◌, ◌<◌, None, length, IfOk, IfSome, IfErr};
ghost use Rattle.raw_codegen.specs.Limits.{AreShort};
ghost use Rattle.raw_flow.specs.declared.limits.TheConstants.{MAX_NODES};
ghost use Rattle.raw_stream.specs.Kept.{IsStream};
ghost use Rattle.raw_stream.specs.Unrolled.{word_count, unrolled};
ghost use Rattle.raw_unroll.specs.Compiled.{compiled_stream, EachStreamRunIsRight};

use crate::laws::law_placed;
use crate::ports::stream_ports;
use crate::whole::unroll;
use raw_codegen::GiveRefusal;
use raw_flow::compile_at;
use raw_model::Set;
use raw_stream::{StreamFlow, law_unrolled};
use std::alloc::Global;

/// The compiled set of a stream whose sources put in these words, one source behind the other, and `None` exactly where the
/// stream has more than 8,192 nodes when it is unrolled. Each lawful list of steps of the set that comes to rest is done, and
/// each sink has what it is due of all rows.
pub fn compile_stream(
    alloc: Global,
    stream: &StreamFlow,
    words: &[u32],
) -> Result<Option<Set>, GiveRefusal>
    requires stream { IsStream stream.now }
    requires words { length words.now ≡ word_count stream.now }
    ensures set { IfOk result (λ answer. IfSome answer (λ set. set ≡ compiled_stream stream.now words.now)) }
    ensures right { IfOk result (λ answer. IfSome answer (λ _. EachStreamRunIsRight stream.now words.now)) }
    ensures none { IfOk result (λ answer. (answer ≡ None) ↔ (MAX_NODES < length (unrolled stream.now).nodes)) }
    ensures refusal { IfErr result (λ refusal. (refusal ≡ GiveRefusal.Memory)
        ⊎ ((refusal ≡ GiveRefusal.TooMany) × (¬ (AreShort (compiled_stream stream.now words.now).tiles)))) }
{
    law_unrolled();
    law_placed();
    let flow = match unroll(alloc, stream)? {
        Some(flow) => flow,
        None => return Ok(None),
    };
    let ports = stream_ports(alloc, stream)?;
    let set = compile_at(alloc, &flow, &ports, words)?;
    Ok(Some(set))
}
