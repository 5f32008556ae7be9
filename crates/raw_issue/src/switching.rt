//! What a switch does in a cycle.

use crate::state::Issue;
use raw_frame::{Rank, TileId, Word};
use raw_grid::{Dir, End, Net};
use raw_switch_isa::{SwitchIns, SwitchSource, route_codes};
use std::alloc::AllocError;

/// An instruction of a switch that is being made.
#[derive(Clone, Copy)]
struct Crossing {
    /// For each output, by its end index, 0, or 1 more than the direction of the input from which it sends.
    routes: [u8; 10],
    /// The input whose word is dropped.
    dropped: Option<u8>,
    /// The inputs that have been looked at, one bit each.
    tried: u16,
    has_acted: bool,
}

impl Crossing {
    fn new() -> Crossing {
        Crossing {
            routes: [0; 10],
            dropped: None,
            tried: 0,
            has_acted: false,
        }
    }

    // Whether an output has a route.
    fn is_used(&self, output: End) -> bool {
        match self.routes.get(usize::from(output.index())) {
            Some(route) => *route != 0,
            None => false,
        }
    }

    // An output sends what comes from a direction.
    fn route(&mut self, output: End, from: Dir) {
        if let Some(route) = self.routes.get_mut(usize::from(output.index())) {
            *route = 1 + from.index();
        }
        self.has_acted = true;
    }

    // The instruction.
    fn instruction(&self) -> SwitchIns {
        let ins = match self.dropped {
            Some(input) if input < 10 => SwitchIns::move_from(0, SwitchSource::Input(input)),
            _ => SwitchIns::nop(),
        };
        ins.with_routes(route_codes(&self.routes))
    }
}

impl Issue<'_> {
    // The word at the front of an input that has not been looked at.
    fn front(&self, tile: TileId, input: End, crossing: Crossing) -> Option<Word> {
        if crossing.tried >> input.index() & 1 == 1 {
            return None;
        }
        let wire = self.wires.input(tile, input)?;
        self.wires.word(wire, 0)
    }

    // The input with the word of the least rank that has not been looked at.
    fn first_front(&self, tile: TileId, crossing: Crossing) -> Option<(End, Word)> {
        let mut first = None;
        let mut least = Rank::LAST;
        for input in End::ALL {
            if let Some(word) = self.front(tile, input, crossing) {
                if word.rank < least || first.is_none() {
                    least = word.rank;
                    first = Some((input, word));
                }
            }
        }
        first
    }

    // Takes the word of an input.
    fn take_input(&mut self, tile: TileId, input: End) {
        if let Some(wire) = self.wires.input(tile, input) {
            self.wires.take(wire);
        }
    }

    // Whether an output is free for a word.
    fn is_free(&self, tile: TileId, output: End, crossing: Crossing) -> bool {
        match self.wires.output(tile, output) {
            Some(wire) => !crossing.is_used(output) && self.wires.has_room(wire),
            None => false,
        }
    }

    // Sends a word on an output.
    fn send_on(&mut self, tile: TileId, output: End, word: Word) {
        if let Some(wire) = self.wires.output(tile, output) {
            self.wires.send(wire, word);
        }
    }

    // Passes an out on towards the sink, if it is next there.
    fn pass_out(&mut self, tile: TileId, input: End, word: Word, crossing: &mut Crossing) {
        let passed = self.passed.at(tile);
        let output = End {
            net: Net::One,
            dir: self.task.part.homewards(tile),
        };
        let is_next = self.task.passing(tile, passed) == word.out;
        if is_next && self.is_free(tile, output, *crossing) {
            self.passed.put(tile, passed.saturating_add(1));
            self.take_input(tile, input);
            self.send_on(tile, output, word);
            crossing.route(output, input.dir);
        }
    }

    // Drops an input that nobody needs, at most one in a cycle.
    fn drop_word(&mut self, tile: TileId, input: End, crossing: &mut Crossing) {
        if crossing.dropped.is_none() {
            crossing.dropped = Some(input.index());
            crossing.has_acted = true;
            self.take_input(tile, input);
        }
    }

    // Whether a word can go on in all directions in which tiles need it.
    fn can_go_on(&self, tile: TileId, net: Net, word: Word, crossing: Crossing) -> bool {
        for dir in Dir::ALL {
            let goes = !self.task.share(tile, net, dir, word.tiles).is_empty();
            if goes && !self.is_free(tile, End { net, dir }, crossing) {
                return false;
            }
        }
        true
    }

    // A word goes on in all directions in which tiles need it.
    fn go_on(&mut self, tile: TileId, input: End, word: Word, crossing: &mut Crossing) {
        self.take_input(tile, input);
        let net = input.net;
        for dir in Dir::ALL {
            let tiles = self.task.share(tile, net, dir, word.tiles);
            if !tiles.is_empty() {
                self.send_on(tile, End { net, dir }, Word { tiles, ..word });
                crossing.route(End { net, dir }, input.dir);
            }
        }
    }

    // Passes a word on, if it can go.
    fn pass(&mut self, tile: TileId, input: End, word: Word, crossing: &mut Crossing) {
        if word.out.is_some() {
            self.pass_out(tile, input, word, crossing);
        } else if word.tiles.is_empty() {
            self.drop_word(tile, input, crossing);
        } else if self.can_go_on(tile, input.net, word, *crossing) {
            self.go_on(tile, input, word, crossing);
        }
    }

    // Passes on all words of a switch that can go.
    fn cross(&mut self, tile: TileId) -> Crossing {
        let mut crossing = Crossing::new();
        for _ in 0..10 {
            let Some((input, word)) = self.first_front(tile, crossing) else {
                break;
            };
            crossing.tried |= 1 << input.index();
            self.pass(tile, input, word, &mut crossing);
        }
        crossing
    }

    /// A switch passes on all words that can go, by their ranks.
    pub(crate) fn switch_turn(&mut self, tile: TileId) -> Result<(), AllocError> {
        let crossing = self.cross(tile);
        if !crossing.has_acted {
            return Ok(());
        }
        self.has_acted = true;
        if let Some(program) = self.programs.get_mut(tile.0) {
            program.switch.push(crossing.instruction())?;
        }
        Ok(())
    }
}
