//! Reading the text of a stream.
ghost use Rattle.std.specs.Prelude.{◌≡◌, ◌≤◌, drop, length, IfOk, IfErr};
ghost use Rattle.std.specs.Option.{option_map};
ghost use Rattle.raw_text.specs.Text.{text_lines};
ghost use Rattle.raw_stream_text.specs.Meaning.{is_stream, IsMeaning, IsCause, IsFed};

use crate::builder::Builder;
use crate::input::StreamInput;
use crate::named::Named;
use raw_asm::Section;
use raw_flow_text::Operations;
use raw_grid::Topo;
use raw_set_text::SetRefusal;
use raw_text::Text;
use std::alloc::Global;

/// Whether the lines of a text from the place `from` on, counted from 0, are those of a stream: the second line with
/// tokens begins with `rows`. Else they are those of a flow.
pub fn is_stream(text: &Text, from: usize) -> bool
    requires { from ≤ length (text_lines text.now) }
    ensures { result ≡ is_stream (drop from (text_lines text.now)) }
{
    let lines = Section::new(text, from, text.line_count());
    let mut first = true;
    for place in 0..lines.len() {
        let line = lines.line(place);
        if line.len() > 0 {
            if !first {
                return line.at(0) == b"rows".as_slice();
            }
            first = false;
        }
    }
    false
}

/// The stream that the lines of a text from the place `from` on mean, counted from 0, with the words of its sources. Where a
/// set is claimed, given by its topology, the grid has to have its size, each source and sink has to be one of the set,
/// and no words are looked at where no line feeds any.
///
/// It goes over the lines twice, since `pre` and `feed` may name what a later line defines. A refusal names the least faulty
/// line, counted from the start of the text, and the first of its faults, or is want of memory; the text is unchanged.
pub fn read_stream_from(
    alloc: Global,
    text: &Text,
    from: usize,
    claimed: Option<&Topo>,
) -> Result<StreamInput, SetRefusal>
    requires { from ≤ length (text_lines text.now) }
    ensures meaning { IfOk result (IsMeaning (option_map (λ topo. topo.now) claimed.entry) (drop from (text_lines text.now))) }
    ensures cause { IfErr result (IsCause (option_map (λ topo. topo.now) claimed.entry) from (drop from (text_lines text.now))) }
    ensures fed { IfOk result (IsFed (option_map (λ topo. topo.now) claimed.entry)) }
{
    let lines = Section::new(text, from, text.line_count());
    let operations = Operations::new(alloc)?;
    let named = Named::new(alloc, &operations, &lines)?;
    let mut builder = Builder::new(alloc);
    for place in 0..lines.len() {
        let number = lines.line_number(place);
        builder.add_line(
            alloc,
            &operations,
            &named,
            claimed,
            number,
            &lines.line(place),
        )?;
    }
    builder.finish(alloc, &named, claimed, text.line_count() as u32 + 1)
}
