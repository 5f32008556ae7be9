//! Reading the text of a flow.
ghost use Rattle.std.specs.Prelude.{◌≡◌, ◌≤◌, None, drop, length, IfOk, IfErr};
ghost use Rattle.raw_text.specs.Text.{text_lines};
ghost use Rattle.raw_flow_text.specs.Flows.{IsFed};
ghost use Rattle.raw_flow_text.specs.Meaning.{IsMeaning, IsCause};

use crate::builder::Builder;
use crate::input::FlowInput;
use crate::operations::Operations;
use raw_asm::Section;
use raw_set_text::SetRefusal;
use raw_text::Text;
use std::alloc::Global;

/// The flow that a text means, with the words of its inputs.
///
/// It goes over the lines once, and looks each name up in a map. A refusal names the least faulty line and the first of its
/// faults, or is want of memory; the text is unchanged. Of the kinds, `NotAscii` and `LineTooLong` never come, since a `Text`
/// has no such line.
pub fn read_flow(alloc: Global, text: &Text) -> Result<FlowInput, SetRefusal>
    ensures meaning { IfOk result (IsMeaning None (text_lines text.now)) }
    ensures cause { IfErr result (IsCause None 0 (text_lines text.now)) }
    ensures fed { IfOk result IsFed }
{
    read_flow_from(alloc, text, 0, None)
}

/// The flow that the lines of a text from the place `from` on mean, counted from 0, with the words of its inputs. Where a
/// size is wanted, as columns and rows, a line that gives the grid another one is refused as `BadSize`.
///
/// All else is as in `read_flow`; lines are counted from the start of the text.
pub fn read_flow_from(
    alloc: Global,
    text: &Text,
    from: usize,
    wanted: Option<(u8, u8)>,
) -> Result<FlowInput, SetRefusal>
    requires { from ≤ length (text_lines text.now) }
    ensures meaning { IfOk result (IsMeaning wanted (drop from (text_lines text.now))) }
    ensures cause { IfErr result (IsCause wanted from (drop from (text_lines text.now))) }
    ensures fed { IfOk result IsFed }
{
    let lines = Section::new(text, from, text.line_count());
    let operations = Operations::new(alloc)?;
    let mut builder = Builder::new(alloc);
    for place in 0..lines.len() {
        let number = lines.line_number(place);
        builder.add_line(&operations, wanted, number, &lines.line(place))?;
    }
    builder.finish(text.line_count() as u32 + 1)
}
