//! The run, cycle by cycle.
use crate::state::Issue;
use crate::task::Task;
use raw_frame::{Part, Rank, Table, TileId, TileSet, ValueId, Word};
use raw_graph::{Graph, InputId};
use raw_model::TileProg;
use std::alloc::{AllocError, Global};

/// What was written down.
#[derive(Drop)]
pub struct Issued {
    /// For each tile of the part, in the order of their numbers, its program and that of its switch. `halt` is not yet
    /// behind them.
    pub programs: Vec<TileProg>,
    /// How many cycles the run had.
    pub cycles: usize,
}

/// What the ports have done.
#[derive(Clone, Copy)]
struct Ports {
    given: usize,
    taken: usize,
}

impl Issue<'_> {
    // The word of an input.
    fn word_of_input(&self, input: InputId) -> Word {
        match self.task.graph.input(input) {
            Some(value) => self.word_of(value),
            None => Word {
                value: None,
                tiles: TileSet::NONE,
                out: None,
                rank: Rank::FIRST,
            },
        }
    }

    // The source gives a word, if it has one and there is room.
    fn give(&mut self, ports: &mut Ports) {
        let source = self.wires.source();
        if ports.given < self.task.graph.input_count() && self.wires.has_room(source) {
            let word = self.word_of_input(InputId(ports.given));
            self.wires.send(source, word);
            ports.given = ports.given.saturating_add(1);
            self.has_acted = true;
        }
    }

    // The sink takes a word, if there is one.
    fn take_out(&mut self, ports: &mut Ports) {
        let sink = self.wires.sink();
        if self.wires.take(sink).is_some() {
            ports.taken = ports.taken.saturating_add(1);
            self.has_acted = true;
        }
    }

    // All switches have their turns.
    fn switch_turns(&mut self) -> Result<(), AllocError> {
        for tile in (0..self.task.part.tiles()).map(TileId) {
            self.switch_turn(tile)?;
        }
        Ok(())
    }

    // All tiles have their turns, first those that send outs.
    fn tile_turns(&mut self) -> Result<(), AllocError> {
        self.send_outs()?;
        for tile in (0..self.task.part.tiles()).map(TileId) {
            self.take_turn(tile)?;
            self.tile_mut(tile).is_busy = false;
        }
        Ok(())
    }

    // What was made into registers in this cycle can be used in the next, and is to be sent.
    fn settle_made(&mut self) -> Result<(), AllocError> {
        for _ in 0..self.made.len() {
            let Some(made) = self.made.pop() else {
                break;
            };
            if !self.task.needers.at(made.value).is_empty() {
                let waiting = self.sending(made.value);
                self.tile_mut(made.tile).sends.add(waiting)?;
            }
            self.came(made)?;
        }
        Ok(())
    }

    // What has come to tiles in this cycle can be used in the next.
    fn settle_arrivals(&mut self) -> Result<(), AllocError> {
        self.wires.settle_all(&mut self.arrivals)?;
        for _ in 0..self.arrivals.len() {
            let Some(arrival) = self.arrivals.pop() else {
                break;
            };
            self.came(arrival)?;
        }
        Ok(())
    }

    // One cycle.
    fn pass_cycle(&mut self, ports: &mut Ports) -> Result<(), AllocError> {
        self.has_acted = false;
        self.give(ports);
        self.take_out(ports);
        self.switch_turns()?;
        self.tile_turns()?;
        self.settle_arrivals()?;
        self.settle_made()
    }

    // Whether all is done.
    fn is_over(&self, ports: Ports) -> bool {
        self.left == 0
            && ports.taken == self.task.graph.outs().len()
            && ports.given == self.task.graph.input_count()
            && self.wires.are_empty()
    }

    // How many cycles there are until all is done; none where nothing goes on before, or there are more than so many.
    fn run(&mut self, most: usize) -> Result<Option<usize>, AllocError> {
        let mut ports = Ports { given: 0, taken: 0 };
        for cycle in 0..most {
            self.pass_cycle(&mut ports)?;
            if self.is_over(ports) {
                return Ok(Some(cycle.saturating_add(1)));
            }
            if !self.has_acted {
                return Ok(None);
            }
        }
        Ok(None)
    }
}

/// A schedule of a graph on a part of a grid, where each value is made at its tile, in the order of ranks; none where it
/// comes to no end in so many cycles.
pub fn issue(
    alloc: Global,
    graph: &Graph,
    part: Part,
    homes: &Table<ValueId, TileId>,
    ranks: &Table<ValueId, Rank>,
    most: usize,
) -> Result<Option<Issued>, AllocError> {
    let task = Task::new(alloc, graph, part, homes, ranks)?;
    let mut issue = Issue::new(alloc, task)?;
    let Some(cycles) = issue.run(most)? else {
        return Ok(None);
    };
    let programs = issue.programs;
    Ok(Some(Issued { programs, cycles }))
}
