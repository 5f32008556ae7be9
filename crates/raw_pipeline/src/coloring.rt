//! Registers for what a tile holds: arcs on a circle, of which no two that meet share a color.
use std::alloc::{AllocError, Global};

/// A life by its place among some.
#[derive(Clone, Copy, PartialEq, Eq, PartialOrd, Ord)]
pub(crate) struct LifeId(pub(crate) usize);

/// For some cycles of a round something is held.
#[derive(Clone, Copy, PartialEq, Eq, PartialOrd, Ord)]
pub(crate) struct Arc {
    pub(crate) start: usize,
    /// From the top: the longest come first.
    pub(crate) shortness: usize,
    pub(crate) life: LifeId,
    /// In which row of a round.
    pub(crate) row: usize,
}

/// An arc with its color.
#[derive(Clone, Copy)]
pub(crate) struct Colored {
    pub(crate) arc: Arc,
    pub(crate) color: usize,
}

/// What is known of the arcs of a color: they come by their starts, and none meets another.
#[derive(Clone, Copy)]
struct Color {
    /// Where the first one starts.
    first: usize,
    /// Where the last one ends; past the round, where it goes on in the next.
    end: usize,
}

impl Arc {
    // How many cycles it has.
    fn length(self) -> usize {
        usize::MAX.saturating_sub(self.shortness)
    }

    // Where it ends; past the round, where it goes on in the next.
    fn end(self) -> usize {
        self.start.saturating_add(self.length())
    }

    // Whether it meets none of the arcs of a color, where it starts behind them.
    fn fits(self, color: Color, round: usize) -> bool {
        color.end <= self.start && self.end() <= color.first.saturating_add(round)
    }
}

// The first of some colors that an arc can have.
fn first_color(colors: &[Color], arc: Arc, round: usize) -> Option<usize> {
    colors.iter().position(|color| arc.fits(*color, round))
}

// The color of an arc: one of some, or a new one.
fn color_of(colors: &mut Vec<Color>, arc: Arc, round: usize) -> Result<usize, AllocError> {
    let end = arc.end();
    if let Some(color) = first_color(colors, arc, round) {
        if let Some(place) = colors.get_mut(color) {
            place.end = end;
        }
        return Ok(color);
    }
    let first = arc.start;
    colors.push(Color { first, end })?;
    Ok(colors.len().saturating_sub(1))
}

/// The arcs with colors, each the first that no arc has that it meets, and how many colors there are. The arcs come by
/// their starts.
pub(crate) fn colored_arcs(
    alloc: Global,
    arcs: &[Arc],
    round: usize,
) -> Result<(Vec<Colored>, usize), AllocError> {
    let mut colored = Vec::new(alloc);
    let mut colors = Vec::new(alloc);
    for arc in arcs {
        let color = color_of(&mut colors, *arc, round)?;
        colored.push(Colored { arc: *arc, color })?;
    }
    Ok((colored, colors.len()))
}
