//! The wires that hold values.
ghost use Rattle.std.specs.Prelude.{◌≡◌, ◌<◌, ◌≤◌, ◌++◌, length, codes};
ghost use Rattle.raw_io.specs.Writing.{Writes};
ghost use Rattle.raw_grid.specs.Wires.{wires_of};
ghost use Rattle.raw_model.specs.Texts.{words_text};
ghost use Rattle.raw_picture.specs.Flows.{arrow_class, number_class, wire_text, wire_group, wire_drawn};

use crate::course::{along, ends_of, run_of, wire_course};
use crate::forms::{CLOSE, OPEN, arrow, labelled, push_labelled, text};
use raw_grid::{Net, ProcId, Topo, WireId};
use raw_io::{Failed, Sink, put_each};
use raw_names::push_processor_name;
use raw_serial::Machine;
use raw_state_text::Line;

// The class of the arrow of a network.
pub(crate) fn arrow_class(net: Net) -> &'static [u8]
    ensures text { result.now ≡ arrow_class net }
    ensures short { length result.now ≤ 2 }
{
    match net {
        Net::One => b"n1",
        Net::Two => b"n2",
    }
}

// The class of a number on it.
pub(crate) fn number_class(net: Net) -> &'static [u8]
    ensures text { result.now ≡ number_class net }
    ensures short { length result.now ≤ 6 }
{
    match net {
        Net::One => b"t1 mid",
        Net::Two => b"t2 mid",
    }
}

// A wire: its network and its two ends.
#[tactic(auto, unfolding(crate::specs::Flows::wire_text))]
fn wire_text(topo: &Topo, wire: WireId) -> Line
    requires { wire.0 < length (wires_of topo.now) }
    ensures { result ≡ wire_text topo.now wire.0 }
{
    let ends = ends_of(topo, wire);
    let mut line = Line::new();
    push_labelled(&mut line, b"wire ", wire.0);
    line.push_text(b", network ");
    line.push_text(run_of(topo, ends).net.text().as_bytes());
    line.push_text(b", from ");
    push_processor_name(&mut line, topo, ProcId(ends.from));
    line.push_text(b" to ");
    push_processor_name(&mut line, topo, ProcId(ends.to));
    line
}

// These words, each with a blank before it.
fn words_text(words: &[u32]) -> Line
    requires { length words.now ≤ 7 }
    ensures { result ≡ words_text words.now }
{
    let mut line = Line::new();
    line.push_words(words);
    line
}

// Puts the group of a wire that holds these values.
#[tactic(auto, unfolding(crate::specs::Flows::wire_group, crate::specs::Forms::labelled), using(crate::proofs::Parts::title_parts))]
fn put_wire_group<K: Sink>(
    topo: &Topo,
    wire: WireId,
    values: &[u32],
    out: &mut K,
) -> Result<(), Failed>
    requires there { wire.0 < length (wires_of topo.now) }
    requires few { length values.now ≤ 7 }
    ensures { Writes (K.sight out.old) (K.sight out.new)
        (wire_group topo.now wire.0 values.now) result }
{
    let run = run_of(topo, ends_of(topo, wire));
    let course = wire_course(run);
    let said = wire_text(topo, wire);
    let words = words_text(values);
    let arrow = arrow(arrow_class(run.net), course, 15);
    let count = labelled(b"", values.len() as u64);
    let at = along(course, 8);
    let number = text(number_class(run.net), at.x, at.y + 4, count.as_bytes());
    let lines = [
        OPEN,
        b"<title>".as_slice(),
        said.as_bytes(),
        b":".as_slice(),
        words.as_bytes(),
        b"</title>\n".as_slice(),
        arrow.as_bytes(),
        number.as_bytes(),
        CLOSE,
    ];
    put_each(out, &lines)
}

/// Puts what is drawn of a wire: nothing where it holds no value.
#[tactic(auto, unfolding(crate::specs::Flows::wire_drawn))]
pub(crate) fn put_wire<K: Sink>(m: &Machine<'_>, wire: WireId, out: &mut K) -> Result<(), Failed>
    requires { wire.0 < length (wires_of m.now.set.topo) }
    ensures { Writes (K.sight out.old) (K.sight out.new)
        (wire_drawn m.now.set m.now.state wire.0) result }
{
    let set = m.set();
    let values = m.wire(wire);
    if values.is_empty() {
        return Ok(());
    }
    put_wire_group(&set.topo, wire, values, out)
}
