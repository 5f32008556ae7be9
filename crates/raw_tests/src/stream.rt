//! Texts of streams: the words that their sinks get, one sink behind the other, or the line and kind of their least fault.
ghost use Rattle.std.specs.Prelude.{◌≡◌, length};
ghost use Rattle.raw_stream.specs.Kept.{IsStream};
ghost use Rattle.raw_stream.specs.Unrolled.{word_count};

use crate::orders::turn;
use raw_asm::AsmKind;
use raw_codegen::GiveRefusal;
use raw_flow::direct;
use raw_model::Set;
use raw_serial::Machine;
use raw_set_text::{SetKind, SetRefusal};
use raw_stream_text::{StreamInput, read_stream_from};
use raw_text::{MAX_TEXT, read_text};
use raw_unroll::{compile_stream, unroll};
use std::alloc::Global;
use std::test::Fail;

/// What a text has to give.
enum Due {
    Words(&'static [u32]),
    At(u32, SetKind),
}

/// A name that no line defines.
const UNKNOWN: SetKind = SetKind::Asm(AsmKind::UnknownName);

/// Worked by hand.
static ROWS: [(&[u8], Due); 23] = [
    // The sums of what came so far.
    (
        b"grid 1 1\nrows 3\ninput x\ndef p pre s 0\ndef s add x p\nout s\nfeed 1 0 0 W 1 2 3\n",
        Due::Words(&[1, 3, 6]),
    ),
    // Without the line of one name, or with both exchanged: only `pre` names what a later line defines.
    (
        b"grid 1 1\nrows 3\ninput x\ndef s add x p\nout s\nfeed 1 0 0 W 1 2 3\n",
        Due::At(4, UNKNOWN),
    ),
    (
        b"grid 1 1\nrows 3\ninput x\ndef s add x p\ndef p pre s 0\nout s\nfeed 1 0 0 W 1 2 3\n",
        Due::At(4, UNKNOWN),
    ),
    (
        b"grid 1 1\nrows 3\ninput x\ndef p pre s 0\nout s\nfeed 1 0 0 W 1 2 3\n",
        Due::At(4, UNKNOWN),
    ),
    // Words for a row less, and for a row more.
    (
        b"grid 1 1\nrows 4\ninput x\ndef p pre s 0\ndef s add x p\nout s\nfeed 1 0 0 W 1 2 3\n",
        Due::At(8, SetKind::Missing),
    ),
    (
        b"grid 1 1\nrows 3\ninput x\ndef p pre s 0\ndef s add x p\nout s\nfeed 1 0 0 W 1 2 3 4\n",
        Due::At(8, SetKind::OverLimit),
    ),
    // A word that is kept, and two that are exchanged in each row.
    (
        b"grid 1 1\nrows 4\ndef p pre p 5\nout p\n",
        Due::Words(&[5, 5, 5, 5]),
    ),
    (
        b"grid 1 1\nrows 4\ndef a pre b 1\ndef b pre a 2\nout a\n",
        Due::Words(&[1, 2, 1, 2]),
    ),
    // Two sources and two sinks: the words of a source are fed in two lines, and before the line that names it.
    (
        b"grid 2 1\n\nrows 2\nfeed 2 1 0 N 10\ninput x\ninput y 2 1 0 N\ninput z\ndef s sub x y\nout s 1 1 0 E\nout z\nout y 1 1 0 E\nfeed 1 0 0 W 50 3 60 4\nfeed 2 1 0 N 20\n",
        Due::Words(&[40, 10, 40, 20, 3, 4]),
    ),
    // A line of another form.
    (
        b"grid 1 1\nrows 1\ninput x 3\nout x\n",
        Due::At(3, SetKind::BadLine),
    ),
    (
        b"grid 1 1\nrows 1\ndef a pre 9 1\nout a\n",
        Due::At(3, SetKind::BadLine),
    ),
    // The grid and the number of rows come first, and once each.
    (b"rows 1\ngrid 1 1\nout x\n", Due::At(1, SetKind::Missing)),
    (
        b"grid 9 1\nrows 1\ndef a const 1\nout a\n",
        Due::At(1, SetKind::BadSize),
    ),
    (
        b"grid 1 1\nrows 0\ndef a const 1\nout a\n",
        Due::At(2, SetKind::OverLimit),
    ),
    (
        b"grid 1 1\nrows 262145\ndef a const 1\nout a\n",
        Due::At(2, SetKind::OverLimit),
    ),
    (
        b"grid 1 1\nrows 2\ndef a const 1\nrows 2\nout a\n",
        Due::At(4, SetKind::Repeated),
    ),
    // Places and edges.
    (
        b"grid 2 1\nrows 1\ninput x 1 0 0 E\nout x\n",
        Due::At(3, SetKind::PortOffEdge),
    ),
    (
        b"grid 1 1\nrows 1\ndef a const 1\nout a 1 0 1 W\n",
        Due::At(4, SetKind::PortOffEdge),
    ),
    (
        b"grid 1 1\nrows 1\ninput x\nout x\nfeed 1 0 0 N 7\n",
        Due::At(5, SetKind::UndeclaredEdge),
    ),
    // Names.
    (
        b"grid 1 1\nrows 1\ndef a const 1\ndef a pre a 2\nout a\n",
        Due::At(4, SetKind::Repeated),
    ),
    (
        b"grid 1 1\nrows 1\ndef a const 1\nout b\n",
        Due::At(4, UNKNOWN),
    ),
    // No out, and more words of one sink than it may have room for.
    (
        b"grid 1 1\nrows 1\ndef a const 1\n",
        Due::At(4, SetKind::Missing),
    ),
    (
        b"grid 1 1\nrows 262144\ndef a const 1\nout a\nout a\nout a\nout a\n",
        Due::At(8, SetKind::OverLimit),
    ),
];

// What the sinks of a set have received after many turns of each processor, the first port first.
fn received(alloc: Global, set: &Set) -> Result<Vec<u32>, Fail> {
    let mut machine = Machine::open(alloc, set)?;
    for _ in 0..1_000 {
        for p in 0..set.topo.procs() {
            turn(&mut machine, p);
        }
    }
    let mut words = Vec::new(alloc);
    let set: &Set = machine.set();
    for port in 0..set.topo.ports() {
        words.extend_from_slice(&machine.port(port).got)?;
    }
    Ok(words)
}

// Whether the rows of a stream have these words, as the flow that it is, and as its compiled set.
fn has_words(alloc: Global, input: &StreamInput, words: &[u32]) -> Result<bool, Fail>
    requires stream { IsStream input.now.stream }
    requires words { length input.now.words ≡ word_count input.now.stream }
{
    let flow = unroll(alloc, &input.stream)?.ok_or("too many nodes")?;
    if flow.input_count() != input.words.len()
        || direct(alloc, &flow, &input.words)?.as_slice() != words
    {
        return Ok(false);
    }
    match compile_stream(alloc, &input.stream, &input.words) {
        Ok(Some(set)) => Ok(received(alloc, &set)?.as_slice() == words),
        Ok(None) => Ok(false),
        Err(GiveRefusal::TooMany) => Ok(false),
        Err(GiveRefusal::Memory) => Err("no memory")?,
    }
}

// Whether a text gives this.
fn gives(alloc: Global, bytes: &[u8], due: &Due) -> Result<bool, Fail> {
    if bytes.len() > MAX_TEXT {
        return Ok(false);
    }
    let text = read_text(alloc, bytes.to_vec(alloc)?)?;
    match (read_stream_from(alloc, &text, 0, None), due) {
        (Ok(input), Due::Words(words)) => has_words(alloc, &input, words),
        (Err(refusal), Due::At(line, kind)) => Ok(
            refusal
                == SetRefusal::At {
                    line: *line,
                    kind: *kind,
                },
        ),
        _ => Ok(false),
    }
}

#[test]
fn streams_give_their_words_or_their_least_fault(rt: HostRuntime) -> Result<(), Fail> {
    for (bytes, due) in &ROWS {
        assert!(rt; gives(rt.alloc(), bytes, due)?);
    }
    Ok(())
}
