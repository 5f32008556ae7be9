//! The candidates of a flow.
//!
//! Other placements and orders are tried where a flow already goes well. The first candidates are on parts of the grid
//! each twice as large as the one before. On the best of these, and the parts before and behind it, five more
//! placements are tried, each in three orders: the most urgent value first, out by out, and as the flow defines them.
//! At last the best is tried on parts with a column or a row more or less. By the cycles that the search expects, this
//! makes eight of the 17 flows of `bench/flows` shorter on 8 by 8, and none longer: `transform16` from 85 to 77,
//! `sha16` from 273 to 251. The geometric mean falls by 2.2 percent, and the search takes about twice as long. All 64
//! parts with the first placements alone gave 0.2 percent, on eight of these flows.
//!
//! Chains of one operation are tried as trees too. Where operands may be joined in any order, those are joined first
//! that are there first. It is one candidate more, since a tree may have more values on their way at once and be
//! slower. `prove` sees trees of sums and of exclusive ors to be the same, by classes where they stand below other
//! operations; a tree that it does not see, as one of products, is not taken.
ghost use Rattle.std.specs.Prelude.{IfOk, IfSome};
ghost use Rattle.raw_schedule.specs.Whole.{IsSetFor};

use crate::parts::{around, beside, parts};
use crate::whole::whole_set;
use raw_codegen::PARTS_LIMIT;
use raw_flow::Flow;
use raw_frame::{Part, Table, TileId, ValueId};
use raw_graph::{Graph, graphs_of};
use raw_issue::issue;
use raw_model::{Set, TileProg};
use raw_place::{Rule, Style, place, ranks};
use std::alloc::{AllocError, Global};

/// The most cycles of a schedule: more than a program has instructions.
const MOST: usize = PARTS_LIMIT as usize;

/// The placements that are tried on each part.
const STYLES: [Style; 4] = [
    Style {
        weight: 1,
        slack: 6,
        along_paths: true,
    },
    Style {
        weight: 3,
        slack: 0,
        along_paths: false,
    },
    Style {
        weight: 1,
        slack: 2,
        along_paths: false,
    },
    Style {
        weight: 2,
        slack: 3,
        along_paths: true,
    },
];

/// Those that are tried on the best part also, and on those around it.
const OTHER_STYLES: [Style; 5] = [
    Style {
        weight: 1,
        slack: 2,
        along_paths: true,
    },
    Style {
        weight: 0,
        slack: 0,
        along_paths: true,
    },
    Style {
        weight: 2,
        slack: 1,
        along_paths: true,
    },
    Style {
        weight: 3,
        slack: 2,
        along_paths: true,
    },
    Style {
        weight: 0,
        slack: 0,
        along_paths: false,
    },
];

/// The orders that are tried of each placement.
const RULES: [Rule; 2] = [Rule::Urgent, Rule::OutByOut];

/// The same of the other placements.
const OTHER_RULES: [Rule; 3] = [Rule::Urgent, Rule::OutByOut, Rule::AsDefined];

/// How a schedule is looked for.
#[derive(Clone, Copy)]
struct Way {
    part: Part,
    style: Style,
    rule: Rule,
}

/// A schedule that was found.
#[derive(Drop)]
struct Candidate {
    cycles: usize,
    part: Part,
    programs: Vec<TileProg>,
}

/// What was found for a flow, each schedule to be given once, by rising numbers of the cycles that the search expects.
#[derive(Drop)]
pub struct Candidates {
    found: Vec<Candidate>,
    /// The least number of cycles that was found, and how.
    least: usize,
    best: Way,
}

impl Candidates {
    /// Searches for schedules of a flow, of its operations as they stand and of their chains as trees: first on parts of
    /// its grid from one tile to the whole of it, each twice the one before; then by other placements and orders on the
    /// best of these and the parts before and behind it; at last, as the best was found, on parts with a column or a row
    /// more or less.
    pub fn search(alloc: Global, flow: &Flow) -> Result<Candidates, AllocError> {
        let graphs = graphs_of(alloc, flow)?;
        let mut candidates = Candidates {
            found: Vec::new(alloc),
            least: MOST,
            best: Way {
                part: Part { cols: 1, rows: 1 },
                style: STYLES[0],
                rule: Rule::Urgent,
            },
        };
        let grid = Part {
            cols: usize::from(flow.cols),
            rows: usize::from(flow.rows),
        };
        let parts = parts(alloc, grid)?;
        candidates.try_parts(alloc, &graphs, &parts, &STYLES, &RULES)?;
        let around = around(alloc, &parts, candidates.best.part)?;
        candidates.try_parts(alloc, &graphs, &around, &OTHER_STYLES, &OTHER_RULES)?;
        let Way { part, style, rule } = candidates.best;
        let beside = beside(alloc, grid, part)?;
        candidates.try_parts(alloc, &graphs, &beside, &[style], &[rule])?;
        Ok(candidates)
    }

    // Tries these placements and orders on these parts.
    fn try_parts(
        &mut self,
        alloc: Global,
        graphs: &[Graph],
        parts: &[Part],
        styles: &[Style],
        rules: &[Rule],
    ) -> Result<(), AllocError> {
        for graph in graphs {
            for part in parts {
                self.try_part(alloc, graph, *part, styles, rules)?;
            }
        }
        Ok(())
    }

    // Tries them on a part; on one tile all placements along paths are one.
    fn try_part(
        &mut self,
        alloc: Global,
        graph: &Graph,
        part: Part,
        styles: &[Style],
        rules: &[Rule],
    ) -> Result<(), AllocError> {
        for style in styles {
            if part.tiles() > 1 || style.along_paths {
                self.try_style(alloc, graph, part, *style, rules)?;
            }
        }
        Ok(())
    }

    // Tries a placement in these orders.
    fn try_style(
        &mut self,
        alloc: Global,
        graph: &Graph,
        part: Part,
        style: Style,
        rules: &[Rule],
    ) -> Result<(), AllocError> {
        let homes = place(alloc, graph, part, style)?;
        for rule in rules {
            let way = Way {
                part,
                style,
                rule: *rule,
            };
            self.try_way(alloc, graph, way, &homes)?;
        }
        Ok(())
    }

    // Tries an order. What takes clearly longer than the best so far is given up.
    fn try_way(
        &mut self,
        alloc: Global,
        graph: &Graph,
        way: Way,
        homes: &Table<ValueId, TileId>,
    ) -> Result<(), AllocError> {
        let part = way.part;
        let ranks = ranks(alloc, graph, part, homes, way.rule)?;
        let most = self.least.saturating_add(self.least / 8).min(MOST);
        if let Some(issued) = issue(alloc, graph, part, homes, &ranks, most)? {
            if issued.cycles < self.least {
                self.least = issued.cycles;
                self.best = way;
            }
            self.found.push(Candidate {
                cycles: issued.cycles,
                part,
                programs: issued.programs,
            })?;
        }
        Ok(())
    }

    // The place of the candidate with the fewest cycles.
    fn best(&self) -> Option<usize> {
        let mut best = None;
        let mut least = usize::MAX;
        for place in 0..self.found.len() {
            let cycles = self.found[place].cycles;
            if cycles < least {
                least = cycles;
                best = Some(place);
            }
        }
        best
    }

    // Takes the candidate with the fewest cycles.
    fn take(&mut self) -> Option<Candidate> {
        let place = self.best()?;
        if place < self.found.len() {
            Some(self.found.swap_remove(place))
        } else {
            None
        }
    }

    /// The next candidate, as a set for the flow with these inputs; none where all have been given. What is no lawful
    /// set is left out.
    pub fn next_candidate(
        &mut self,
        alloc: Global,
        flow: &Flow,
        inputs: &[u32],
    ) -> Result<Option<Set>, AllocError>
        ensures { IfOk result (λ found. IfSome found (IsSetFor flow.now inputs.now)) }
    {
        for _ in 0..self.found.len() {
            let Some(candidate) = self.take() else {
                break;
            };
            if let Some(set) = whole_set(
                alloc,
                flow,
                inputs,
                candidate.part,
                &candidate.programs,
            )? {
                return Ok(Some(set));
            }
        }
        Ok(None)
    }
}
