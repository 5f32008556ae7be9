//! What stands before the grid: the title, the description, the style, the head lines.
ghost use Rattle.std.specs.Prelude.{◌≡◌, ◌+◌, ◌≤◌, ◌++◌, length};
ghost use Rattle.raw_io.specs.Writing.{Writes};
ghost use Rattle.raw_model.specs.Outcomes.{outcome};
ghost use Rattle.raw_picture.specs.Forms.{text_end};
ghost use Rattle.raw_picture.specs.Told.{AnswerFits, say};
ghost use Rattle.raw_picture.specs.Frame.{IsFrame, frame_of};
ghost use Rattle.raw_picture.specs.Opening.{svg_start, grid_text, size_text, title_text, opening, set_text, head, front};

use crate::drawn::Drawn;
use crate::forms::{push_labelled, rect, text, text_head, title};
use crate::frame::{Frame, frame_of};
use crate::style::put_style;
use crate::told::{outcome_word, put_description, say};
use raw_grid::Topo;
use raw_io::{Failed, Sink, put_each};
use raw_model::Set;
use raw_state_text::Line;

// The size of the grid.
#[tactic(auto, unfolding(crate::specs::Opening::grid_text))]
fn grid_text(topo: &Topo) -> Line
    ensures text { result ≡ grid_text topo.now }
    ensures len { length result ≤ 46 }
{
    let mut line = Line::new();
    push_labelled(&mut line, b"grid ", u32::from(topo.cols()));
    push_labelled(&mut line, b" ", u32::from(topo.rows()));
    line
}

// The size of the document, and the part of the plane that it shows.
#[tactic(auto, unfolding(crate::specs::Opening::size_text))]
fn size_text(f: Frame) -> Line
    requires { IsFrame f }
    ensures { result ≡ size_text f }
{
    let mut line = Line::new();
    push_labelled(&mut line, b" width=\"", f.width());
    push_labelled(&mut line, b"\" height=\"", f.height());
    push_labelled(&mut line, b"\" viewBox=\"", f.left);
    push_labelled(&mut line, b" ", f.top);
    push_labelled(&mut line, b" ", f.width());
    push_labelled(&mut line, b" ", f.height());
    line.push_text(b"\">\n");
    line
}

// The title of the document.
#[tactic(auto, unfolding(crate::specs::Opening::title_text))]
fn title_text(drawn: &Drawn<'_, '_>) -> Line
    ensures text { result ≡ title_text drawn.now.machine.now.set drawn.now.machine.now.state }
    ensures len { length result ≤ 64 }
{
    let mut line = grid_text(&drawn.machine.set().topo);
    line.push_text(b" at rest: ");
    line.push_text(outcome_word(drawn));
    line
}

// What stands before the size of the document.
#[tactic(auto, unfolding(crate::specs::Opening::svg_start))]
fn svg_start() -> &'static [u8]
    ensures { result.now ≡ svg_start }
{
    b"<svg xmlns=\"http://www.w3.org/2000/svg\" role=\"img\""
}

// Puts the first lines.
#[tactic(auto, unfolding(crate::specs::Opening::opening))]
fn put_opening<K: Sink>(drawn: &Drawn<'_, '_>, out: &mut K) -> Result<(), Failed>
    ensures { Writes (K.sight out.old) (K.sight out.new) (opening drawn.now.machine.now.set drawn.now.machine.now.state) result }
{
    let set = drawn.machine.set();
    let f = frame_of(&set.topo);
    let size = size_text(f);
    let text = title_text(drawn);
    let title = title(text.as_bytes());
    let lines = [svg_start(), size.as_bytes(), title.as_bytes()];
    put_each(out, &lines)
}

// What the set says of the grid, its limit and its depth.
#[tactic(auto, unfolding(crate::specs::Opening::set_text))]
fn set_text(set: &Set) -> Line
    ensures text { result ≡ set_text set.now }
    ensures len { length result ≤ 102 }
{
    let mut line = grid_text(&set.topo);
    push_labelled(&mut line, b", limit ", set.limit);
    push_labelled(&mut line, b", depth ", u32::from(set.depth));
    line
}

// Puts the page and the head lines.
#[tactic(auto, unfolding(crate::specs::Opening::head, crate::specs::Forms::text))]
fn put_head<K: Sink>(drawn: &Drawn<'_, '_>, sentence: &Line, out: &mut K) -> Result<(), Failed>
    requires { sentence.now ≡ say drawn.now.machine.now.set drawn.now.machine.now.state (outcome drawn.now.machine.now.set drawn.now.machine.now.state) }
    ensures { Writes (K.sight out.old) (K.sight out.new) (head drawn.now.machine.now.set drawn.now.machine.now.state) result }
{
    let set = drawn.machine.set();
    let f = frame_of(&set.topo);
    let page = rect(b"page", f.left, f.top, f.width(), f.height(), 0);
    let word = text(b"head", f.left + 24, f.top + 42, outcome_word(drawn));
    let before = text_head(b"say", f.left + 24, f.top + 64);
    let grid = text(b"soft", f.left + 24, f.top + 83, set_text(set).as_bytes());
    let lines = [
        page.as_bytes(),
        word.as_bytes(),
        before.as_bytes(),
        b"\">".as_slice(),
        sentence.as_bytes(),
        b"</text>\n".as_slice(),
        grid.as_bytes(),
    ];
    put_each(out, &lines)
}

/// Puts all that stands before the grid.
#[tactic(auto, unfolding(crate::specs::Opening::front), using(raw_io::proofs::Chains::chained))]
pub(crate) fn put_front<K: Sink>(drawn: &Drawn<'_, '_>, out: &mut K) -> Result<(), Failed>
    requires { AnswerFits drawn.now.machine.now.set drawn.now.machine.now.state drawn.now.answer }
    ensures { Writes (K.sight out.old) (K.sight out.new) (front drawn.now.machine.now.set drawn.now.machine.now.state) result }
{
    let sentence = say(drawn);
    put_opening(drawn, out)?;
    put_description(drawn, &sentence, out)?;
    put_style(out)?;
    put_head(drawn, &sentence, out)
}
