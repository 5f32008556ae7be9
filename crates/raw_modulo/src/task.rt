//! What is to be scheduled, and what is known of it from the start.
use crate::routes::{Goal, Root, Route, Shape};
use raw_body::{Body, Components, Operand, Order, Origin, Position, RowValue, Site};
use raw_frame::{Numbered, Table, TileId, ValueId};
use raw_graph as graph;
use raw_grid::Dir;
use raw_selection::{Operation, constant_of, step_of};
use std::alloc::{AllocError, Global};

/// A local by its number.
#[derive(Clone, Copy, PartialEq, Eq, PartialOrd, Ord)]
pub struct LocalId(pub usize);

impl Numbered for LocalId {
    fn number(self) -> usize {
        self.0
    }
}

/// A local as it was some rows before.
#[derive(Clone, Copy)]
pub struct RowLocal {
    pub local: LocalId,
    /// How many times the rows before it is meant.
    pub back: usize,
}

/// An operand of an operation, by its number among those of all.
#[derive(Clone, Copy, PartialEq, Eq, PartialOrd, Ord)]
pub struct OperandId(usize);

impl OperandId {
    /// One of the operands of a value.
    pub fn of(value: ValueId, position: Position) -> OperandId {
        OperandId(value.0.saturating_mul(2).saturating_add(position.index()))
    }
}

impl Numbered for OperandId {
    fn number(self) -> usize {
        self.0
    }
}

/// A value at a tile at which it is made or used.
#[derive(Clone, Copy, PartialEq, Eq)]
pub struct Local {
    pub value: ValueId,
    pub tile: TileId,
    /// How often it is used there.
    pub uses: usize,
    /// Whether it comes there from the network.
    pub comes: bool,
}

/// A constant by its number.
#[derive(Clone, Copy, PartialEq, Eq, PartialOrd, Ord)]
pub struct ConstantId(pub usize);

impl Numbered for ConstantId {
    fn number(self) -> usize {
        self.0
    }
}

/// A constant that operations at a tile have to find in a register.
#[derive(Clone, Copy, PartialEq, Eq)]
pub struct Constant {
    pub tile: TileId,
    pub word: u32,
    /// How many operations there are.
    pub uses: usize,
    /// Whether a register keeps it, and it is not loaded for each operation.
    pub is_kept: bool,
}

// How often a value is used at each tile.
type Counts = Table<TileId, usize>;

/// A body on a grid, with the tile of each value.
#[derive(Drop)]
pub struct Task<'a> {
    pub body: &'a Body,
    pub components: &'a Components,
    pub order: &'a Order,
    pub site: Site<'a>,
    /// The tile at which each value is made.
    pub homes: &'a Table<ValueId, TileId>,
    pub locals: Table<LocalId, Local>,
    /// The first of the locals of each value, and behind them how many there are. That at its home comes first.
    first_locals: Table<ValueId, LocalId>,
    /// Which local each operand is.
    operands: Table<OperandId, Option<LocalId>>,
    /// Two ways of each value, and whether they differ.
    routes: Vec<Route>,
    differ: Table<ValueId, bool>,
    /// Whether each local is kept in memory.
    pub in_memory: Table<LocalId, bool>,
    pub constants: Table<ConstantId, Constant>,
    /// Which constant each value needs.
    pub constant_of: Table<ValueId, Option<ConstantId>>,
}

/// What stands behind all locals: one that is not used.
const UNUSED_LOCAL: Local = Local {
    value: ValueId(0),
    tile: TileId::CORNER,
    uses: 0,
    comes: false,
};

/// What stands behind all constants: one that is not used.
const UNUSED_CONSTANT: Constant = Constant {
    tile: TileId::CORNER,
    word: 0,
    uses: 0,
    is_kept: false,
};

/// So many constants of a tile are kept in registers at most.
const MOST_KEPT: usize = 20;

/// The name of an operand in the instruction of a value: values 0 and 1 stand for the first and the second.
pub fn named(position: Position) -> graph::Operand {
    graph::Operand::Value(ValueId(position.index()))
}

// An operand of an operation by its name, where it is a value.
fn placed(operand: Operand, position: Position) -> graph::Operand {
    match operand {
        Operand::Word(word) => graph::Operand::Word(word),
        Operand::Value(_) => named(position),
    }
}

/// The instruction of a value, where its operands are named by their positions.
pub fn step(origin: Origin) -> Option<Operation> {
    match origin {
        Origin::Input(_) => None,
        Origin::Made { op, a, b } => step_of(graph::Origin::Made {
            op,
            a: placed(a, Position::First),
            b: placed(b, Position::Second),
        }),
    }
}

/// The constant that the operation of a value has to find in a register.
pub fn needed_constant(origin: Origin) -> Option<u32> {
    match origin {
        Origin::Input(_) => None,
        Origin::Made { op, a, b } => {
            constant_of(op, placed(a, Position::First), placed(b, Position::Second))
        }
    }
}

impl<'a> Task<'a> {
    /// The task of a body with these homes.
    pub fn new(
        alloc: Global,
        body: &'a Body,
        components: &'a Components,
        order: &'a Order,
        site: Site<'a>,
        homes: &'a Table<ValueId, TileId>,
    ) -> Result<Task<'a>, AllocError> {
        let count = body.count();
        let mut task = Task {
            body,
            components,
            order,
            site,
            homes,
            locals: Table::new(alloc, 0, UNUSED_LOCAL)?,
            first_locals: Table::new(alloc, 0, LocalId(0))?,
            operands: Table::new(alloc, count.saturating_mul(2), None)?,
            routes: Vec::new(alloc),
            differ: Table::new(alloc, count, false)?,
            in_memory: Table::new(alloc, 0, false)?,
            constants: Table::new(alloc, 0, UNUSED_CONSTANT)?,
            constant_of: Table::new(alloc, count, None)?,
        };
        task.add_all_locals(alloc)?;
        task.add_all_routes(alloc)?;
        task.add_constants()?;
        task.limit_constants();
        Ok(task)
    }

    // How often a value is used at each tile.
    fn count_uses(&self, value: ValueId, counts: &mut Counts) {
        let body = self.body;
        for used in body.uses(value) {
            let tile = self.homes.at(used.user);
            counts.put(tile, counts.at(tile).saturating_add(1));
        }
    }

    // Adds a local.
    fn add_local(&mut self, local: Local) -> Result<(), AllocError> {
        self.locals.push(local)?;
        self.in_memory.push(false)?;
        Ok(())
    }

    // Whether a value that is used once at home and elsewhere too comes back from its own switch: that saves an
    // instruction that sends it.
    fn comes_back(&self, value: ValueId, uses: usize) -> bool {
        uses == 1
            && self.body.uses(value).len() > 1
            && self.body.out_of(value).is_none()
            && !self.is_on_circle(value)
    }

    /// Whether a value needs itself, some rows before.
    pub fn is_on_circle(&self, value: ValueId) -> bool {
        let uses = self.body.uses(value);
        uses.iter().any(|used| used.user == value) || self.components.is_on_circle(value)
    }

    // Adds the local of a value at its home.
    fn add_home(&mut self, value: ValueId, counts: &mut Counts) -> Result<(), AllocError> {
        if self.body.origin(value).is_input() {
            return Ok(());
        }
        let tile = self.homes.at(value);
        let uses = counts.at(tile);
        counts.put(tile, 0);
        let comes = self.comes_back(value, uses);
        self.add_local(Local {
            value,
            tile,
            uses,
            comes,
        })
    }

    // Adds the locals of a value at the tiles to which it is brought.
    fn add_locals(&mut self, value: ValueId, counts: &mut Counts) -> Result<(), AllocError> {
        for tile in (0..counts.size()).map(TileId) {
            let uses = counts.at(tile);
            if uses > 0 {
                counts.put(tile, 0);
                self.add_local(Local {
                    value,
                    tile,
                    uses,
                    comes: true,
                })?;
            }
        }
        Ok(())
    }

    // Notes which local each operand is of a value.
    fn note_operands(&mut self, value: ValueId) {
        for position in Position::BOTH {
            if let Some(operand) = self.body.origin(value).value(position) {
                let tile = self.homes.at(value);
                let local = self.local_at(operand.value, tile);
                self.operands.put(OperandId::of(value, position), local);
            }
        }
    }

    // The locals of all values.
    fn add_all_locals(&mut self, alloc: Global) -> Result<(), AllocError> {
        let mut counts = Table::new(alloc, self.site.part.tiles(), 0_usize)?;
        for value in (0..self.body.count()).map(ValueId) {
            self.first_locals.push(LocalId(self.locals.size()))?;
            self.count_uses(value, &mut counts);
            self.add_home(value, &mut counts)?;
            self.add_locals(value, &mut counts)?;
        }
        self.first_locals.push(LocalId(self.locals.size()))?;
        for value in (0..self.body.count()).map(ValueId) {
            self.note_operands(value);
        }
        Ok(())
    }

    // The local of a value at a tile.
    fn local_at(&self, value: ValueId, tile: TileId) -> Option<LocalId> {
        for local in (self.first_local(value).0..self.end_of_locals(value).0).map(LocalId) {
            if self.locals.at(local).tile == tile {
                return Some(local);
            }
        }
        None
    }

    /// The first of the locals of a value: that at its home, where it is made.
    pub fn first_local(&self, value: ValueId) -> LocalId {
        self.first_locals.at(value)
    }

    /// The number behind the locals of a value.
    pub fn end_of_locals(&self, value: ValueId) -> LocalId {
        self.first_locals.at(ValueId(value.0.saturating_add(1)))
    }

    // The tiles to which a value comes from the network.
    fn tiles_of(&self, alloc: Global, value: ValueId) -> Result<Vec<TileId>, AllocError> {
        let mut tiles = Vec::new(alloc);
        for local in (self.first_local(value).0..self.end_of_locals(value).0).map(LocalId) {
            let local = self.locals.at(local);
            if local.comes {
                tiles.push(local.tile)?;
            }
        }
        Ok(tiles)
    }

    /// From where a word of a value starts.
    pub(crate) fn root(&self, value: ValueId) -> Root {
        match self.body.origin(value).source() {
            Some(source) => {
                let (side, _) = self.site.source_end(source);
                Root {
                    tile: self.site.source_tile(source),
                    from: Dir::from(side),
                }
            }
            None => Root {
                tile: self.homes.at(value),
                from: Dir::P,
            },
        }
    }

    // The sink to which a value goes.
    fn sink(&self, value: ValueId) -> Option<Goal> {
        let sink = self.body.sink_of(value)?;
        let (side, _) = self.site.sink_end(sink);
        Some(Goal {
            tile: self.site.sink_tile(sink),
            to: Dir::from(side),
        })
    }

    // The ways of a value.
    fn add_routes(&mut self, alloc: Global, value: ValueId) -> Result<(), AllocError> {
        let (root, sink) = (self.root(value), self.sink(value));
        let tiles = self.tiles_of(alloc, value)?;
        let first = Route::new(alloc, self.site, root, &tiles, sink, Shape::RowFirst)?;
        let second = Route::new(alloc, self.site, root, &tiles, sink, Shape::ColumnFirst)?;
        self.differ.put(value, !first.is_same(&second));
        self.routes.push(first)?;
        self.routes.push(second)?;
        Ok(())
    }

    // The ways of all values.
    fn add_all_routes(&mut self, alloc: Global) -> Result<(), AllocError> {
        for value in (0..self.body.count()).map(ValueId) {
            self.add_routes(alloc, value)?;
        }
        Ok(())
    }

    // The number of a constant at a tile.
    fn constant_at(&mut self, tile: TileId, word: u32) -> Result<ConstantId, AllocError> {
        for number in (0..self.constants.size()).map(ConstantId) {
            let constant = self.constants.at(number);
            if constant.tile == tile && constant.word == word {
                return Ok(number);
            }
        }
        let number = ConstantId(self.constants.size());
        self.constants.push(Constant {
            tile,
            word,
            uses: 0,
            is_kept: true,
        })?;
        Ok(number)
    }

    // The constants of all values.
    fn add_constants(&mut self) -> Result<(), AllocError> {
        for value in (0..self.body.count()).map(ValueId) {
            if let Some(word) = needed_constant(self.body.origin(value)) {
                let number = self.constant_at(self.homes.at(value), word)?;
                let mut constant = self.constants.at(number);
                constant.uses = constant.uses.saturating_add(1);
                self.constants.put(number, constant);
                self.constant_of.put(value, Some(number));
            }
        }
        Ok(())
    }

    // How many constants of a tile are kept that are used more often than one, or as often and have lower numbers.
    fn rank(&self, number: ConstantId) -> usize {
        let constant = self.constants.at(number);
        let mut rank: usize = 0;
        for other in (0..self.constants.size()).map(ConstantId) {
            let one = self.constants.at(other);
            let is_before = one.uses > constant.uses || one.uses == constant.uses && other < number;
            if one.tile == constant.tile && is_before {
                rank = rank.saturating_add(1);
            }
        }
        rank
    }

    // Constants of a tile that has too many are kept no more.
    fn limit_constants(&mut self) {
        for number in (0..self.constants.size()).map(ConstantId) {
            if self.rank(number) >= MOST_KEPT {
                self.drop_constant(number);
            }
        }
    }

    /// From now on a constant is loaded where it is used.
    pub fn drop_constant(&mut self, number: ConstantId) {
        let mut constant = self.constants.at(number);
        constant.is_kept = false;
        self.constants.put(number, constant);
    }

    /// Which local an operand of a value is, and how many times the rows before.
    pub fn operand(&self, value: ValueId, position: Position) -> Option<RowLocal> {
        let RowValue { back, .. } = self.body.origin(value).value(position)?;
        let local = self.operands.at(OperandId::of(value, position))?;
        Some(RowLocal { local, back })
    }

    /// A way of a value; along columns first only where that is another one.
    pub fn route(&self, value: ValueId, shape: Shape) -> Option<&Route> {
        let first = value.0.saturating_mul(2);
        match shape {
            Shape::RowFirst => self.routes.get(first),
            Shape::ColumnFirst if self.differ.at(value) => {
                self.routes.get(first.saturating_add(1))
            }
            Shape::ColumnFirst => None,
        }
    }

    /// The constant that has to be loaded for a value.
    pub fn loaded_constant(&self, value: ValueId) -> Option<u32> {
        let constant = self.constants.at(self.constant_of.at(value)?);
        if constant.is_kept {
            None
        } else {
            Some(constant.word)
        }
    }

    /// Whether a value is sent by the operation that makes it: where it goes to other tiles alone, comes back, or is an
    /// out.
    pub fn is_sent_at_once(&self, value: ValueId) -> bool {
        if self.body.origin(value).is_input() {
            return false;
        }
        let local = self.locals.at(self.first_local(value));
        let is_out = self.body.out_of(value).is_some();
        is_out || local.comes || local.uses == 0 && self.is_brought(value)
    }

    /// Whether a value is brought to other tiles than its home.
    pub fn is_brought(&self, value: ValueId) -> bool {
        let own = usize::from(!self.body.origin(value).is_input());
        let others = self.first_local(value).0.saturating_add(own);
        others < self.end_of_locals(value).0
    }
}
