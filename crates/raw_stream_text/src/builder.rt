//! A stream that is being built, line by line.
ghost use Rattle.std.specs.Prelude.{◌≡◌, ◌<◌, ◌^◌, ◌++◌, ◌∷◌, [], ℕ, List, Option, Some, None, length, slice_index_or, ◌&&◌, OnOk};
ghost use Rattle.std.specs.Option.{option_map, option_to_list, is_some};
ghost use Rattle.std.specs.List.{list_any};
ghost use Rattle.raw_asm.specs.Tokens.{tokens_of};
ghost use Rattle.raw_asm.specs.NameTable.{value_in};
ghost use Rattle.raw_flow_text.specs.Building.{Answers};
ghost use Rattle.raw_flow_text.specs.Statement.{said_by as said_by_flow};
ghost use Rattle.raw_flow_text.specs.Statement.Statement.{Grid as FlowGrid, Const as FlowConst, Apply as FlowApply};
ghost use Rattle.raw_grid.specs.Topology.{Topology, neighbour, without_ports};
ghost use Rattle.raw_set_text.specs.Entry.{same_place};
ghost use Rattle.raw_set_text.specs.Faults.{fault_if, is_within};
ghost use Rattle.raw_stream_text.specs.Seated.{IsNear};
ghost use Rattle.raw_stream_text.specs.Statement.{Statement, said_by};
ghost use Rattle.raw_stream_text.specs.Statement.Statement.{Flow, Rows, Input, Pre, Out, Feed};
ghost use Rattle.raw_stream_text.specs.Forms.{line_statement};
ghost use Rattle.raw_stream_text.specs.Faults.{is_unwanted, is_bad_size, is_off, is_unclaimed, due_word, is_missing, line_fault};
ghost use Rattle.raw_stream_text.specs.Building.{IsNamed, feed_in, BuilderStands, AddsNode, AddsOut, AddsFeed, Adds, number_below, seat_fault};

use crate::forms::read_line;
use crate::line::Line;
use crate::named::Named;
use raw_asm::{AsmKind, Tokens};
use raw_flow::FlowOp;
use raw_flow_text as flow;
use raw_flow_text::Operations;
use raw_grid::{MAX_SIZE, PortKind, PortPlace, Side, Topo};
use raw_set_text::{Edge, SetKind, SetRefusal};
use raw_stream::{MAX_ROWS, RowNode, StreamOut};
use std::alloc::{AllocError, Global};

/// What a line feeds: words for the source of this number.
#[derive(Drop)]
pub struct Fed {
    pub(crate) port: u32,
    pub(crate) words: Vec<u32>,
}

/// A stream that is being built.
#[derive(Drop)]
pub struct Builder {
    /// The columns and rows of the grid, once a line gives them.
    pub(crate) size: Option<(u8, u8)>,
    /// How many rows of words there are, once a line says it.
    pub(crate) count: Option<u32>,
    pub(crate) nodes: Vec<RowNode>,
    pub(crate) outs: Vec<StreamOut>,
    pub(crate) feeds: Vec<Fed>,
}

/// A refusal of the line of this number.
pub(crate) fn at(line: u32, kind: SetKind) -> SetRefusal
    ensures { result ≡ SetRefusal.At line kind }
{
    SetRefusal::At { line, kind }
}

// Whether a grid may have so many columns and rows.
fn is_size(columns: u32, rows: u32) -> bool
    ensures { result ≡ (is_within 1 MAX_SIZE columns && is_within 1 MAX_SIZE rows) }
{
    let sizes = 1..=u32::from(MAX_SIZE);
    sizes.contains(&columns) && sizes.contains(&rows)
}

// Whether there may be so many rows.
fn is_count(count: u32) -> bool
    ensures { result ≡ is_within 1 MAX_ROWS count }
{
    (1..=MAX_ROWS).contains(&count)
}

// Whether the set that is claimed, where one is, has another size.
fn is_unwanted(claimed: Option<&Topo>, columns: u32, rows: u32) -> bool
    ensures { result ≡ is_unwanted (option_map (λ topo. topo.now) claimed.entry) columns rows }
{
    match claimed {
        Some(topo) => !(columns == u32::from(topo.cols()) && rows == u32::from(topo.rows())),
        None => false,
    }
}

// Whether a grid may not have this size, or may not as the set that is claimed has another.
fn is_bad_size(claimed: Option<&Topo>, columns: u32, rows: u32) -> bool
    ensures { result ≡ is_bad_size (option_map (λ topo. topo.now) claimed.entry) (Flow (FlowGrid columns rows)) }
{
    !is_size(columns, rows) || is_unwanted(claimed, columns, rows)
}

// Whether a tile has a neighbour on a side, in a grid of this size.
fn has_neighbour(size: (u8, u8), edge: Edge) -> bool
    ensures { result ≡ is_some (neighbour (without_ports size.0 size.1) edge.tile.x edge.tile.y edge.side) }
{
    match edge.side {
        Side::N => edge.tile.y > 0,
        Side::E => u64::from(edge.tile.x) + 1 < u64::from(size.0),
        Side::S => u64::from(edge.tile.y) + 1 < u64::from(size.1),
        Side::W => edge.tile.x > 0,
    }
}

// Whether a grid of this size has no such edge.
fn is_off(size: (u8, u8), edge: Edge) -> bool
    ensures { result ≡ is_off size edge }
{
    !(edge.tile.x < u32::from(size.0) && edge.tile.y < u32::from(size.1))
        || has_neighbour(size, edge)
}

// Whether a grid has a port at a place.
fn has_port(topo: &Topo, place: PortPlace) -> bool
    ensures { result ≡ list_any (same_place place) topo.now.places }
{
    for port in 0..topo.ports() {
        if topo.place_of(port) == place {
            return true;
        }
    }
    false
}

// Whether the set that is claimed, where one is, lacks a port of this kind at an edge near the grid.
fn is_unclaimed(claimed: Option<&Topo>, kind: PortKind, edge: Edge) -> bool
    requires { IsNear edge }
    ensures { result ≡ is_unclaimed (option_map (λ topo. topo.now) claimed.entry) kind edge }
{
    let Some(topo) = claimed else {
        return false;
    };
    let place = PortPlace {
        kind,
        net: edge.net,
        x: edge.tile.x as u8,
        y: edge.tile.y as u8,
        side: edge.side,
    };
    !has_port(topo, place)
}

// Refuses the edge of a port that the grid lacks, or the set that is claimed.
fn expect_seat(
    claimed: Option<&Topo>,
    size: Option<(u8, u8)>,
    line: u32,
    kind: PortKind,
    edge: Edge,
) -> Result<(), SetRefusal>
    ensures { Answers result line (seat_fault (option_map (λ topo. topo.now) claimed.entry) size kind edge) }
{
    let Some(size) = size else {
        return Err(at(line, SetKind::PortOffEdge));
    };
    if is_off(size, edge) {
        return Err(at(line, SetKind::PortOffEdge));
    }
    if is_unclaimed(claimed, kind, edge) {
        return Err(at(line, SetKind::UndeclaredEdge));
    }
    Ok(())
}

impl Builder {
    /// A stream of which no line is added yet.
    pub(crate) fn new(alloc: Global) -> Builder
        ensures { (all : List Statement) → BuilderStands result all [] }
    {
        Builder {
            size: None,
            count: None,
            nodes: Vec::new(alloc),
            outs: Vec::new(alloc),
            feeds: Vec::new(alloc),
        }
    }

    // Adds a node.
    fn add_node(&mut self, node: RowNode) -> Result<(), AllocError>
        ensures { OnOk result (AddsNode self.old self.new node) }
    {
        self.nodes.push(node)?;
        Ok(())
    }

    // Adds what goes to a sink.
    fn add_give(&mut self, out: StreamOut) -> Result<(), AllocError>
        ensures { OnOk result (AddsOut self.old self.new out) }
    {
        self.outs.push(out)?;
        Ok(())
    }

    // Adds words of a source.
    fn add_words(&mut self, fed: Fed) -> Result<(), AllocError>
        ensures { OnOk result (AddsFeed self.old self.new (feed_in fed)) }
    {
        self.feeds.push(fed)?;
        Ok(())
    }

    // The number of a name that a line before defines.
    fn number(&self, named: &Named<'_>, name: &[u8]) -> Option<u32>
        ensures { result ≡ number_below (length self.now.nodes.items) (value_in named.now.numbers name.now) }
    {
        match named.number(name) {
            Some(number) if (number as usize) < self.nodes.len() => Some(number),
            _ => None,
        }
    }

    // Refuses a name that a line before defines.
    fn expect_new(&self, named: &Named<'_>, line: u32, name: &[u8]) -> Result<(), SetRefusal>
        ensures { Answers result line (fault_if (is_some (number_below (length self.now.nodes.items) (value_in named.now.numbers name.now))) SetKind.Repeated None) }
    {
        if self.number(named, name).is_some() {
            return Err(at(line, SetKind::Repeated));
        }
        Ok(())
    }

    // `grid C R`
    fn add_grid(
        &mut self,
        claimed: Option<&Topo>,
        line: u32,
        columns: u32,
        rows: u32,
    ) -> Result<(), SetRefusal>
        ensures { (all : List Statement) → Adds self.old self.new (option_map (λ topo. topo.now) claimed.entry) all line result (Flow (FlowGrid columns rows)) }
    {
        if is_bad_size(claimed, columns, rows) {
            return Err(at(line, SetKind::BadSize));
        }
        if self.size.is_some() {
            return Err(at(line, SetKind::Repeated));
        }
        self.size = Some((columns as u8, rows as u8));
        Ok(())
    }

    // What the line of a flow says.
    fn add_flow(
        &mut self,
        named: &Named<'_>,
        claimed: Option<&Topo>,
        line: u32,
        said: flow::Line<'_>,
    ) -> Result<(), SetRefusal>
        ensures { (all : List Statement) → IsNamed named.now all → Adds self.old self.new (option_map (λ topo. topo.now) claimed.entry) all line result (Flow (said_by_flow said.entry)) }
    {
        match said {
            flow::Line::Grid(columns, rows) => self.add_grid(claimed, line, columns, rows),
            flow::Line::Const(name, word) => self.add_const(named, line, name, word),
            flow::Line::Apply(name, op, a, b) => self.add_apply(named, line, name, op, a, b),
            // Of a stream no line says so: those that begin with these words are read otherwise.
            flow::Line::Input(..) => Ok(()),
            flow::Line::Out(..) => Ok(()),
        }
    }

    // `rows N`
    fn add_rows(&mut self, line: u32, count: u32) -> Result<(), SetRefusal>
        ensures { (claimed : Option Topology) (all : List Statement) → Adds self.old self.new claimed all line result (Rows count) }
    {
        if self.count.is_some() {
            return Err(at(line, SetKind::Repeated));
        }
        if !is_count(count) {
            return Err(at(line, SetKind::OverLimit));
        }
        self.count = Some(count);
        Ok(())
    }

    // `input NAME` with an edge
    fn add_input(
        &mut self,
        named: &Named<'_>,
        claimed: Option<&Topo>,
        line: u32,
        name: &[u8],
        edge: Edge,
    ) -> Result<(), SetRefusal>
        ensures { (all : List Statement) → IsNamed named.now all → Adds self.old self.new (option_map (λ topo. topo.now) claimed.entry) all line result (Input name.now edge) }
    {
        expect_seat(claimed, self.size, line, PortKind::Source, edge)?;
        self.expect_new(named, line, name)?;
        let Some(port) = named.sources.find(edge) else {
            return Err(at(line, SetKind::UndeclaredEdge));
        };
        self.add_node(RowNode::Input { port })?;
        Ok(())
    }

    // `def NAME const W`
    fn add_const(
        &mut self,
        named: &Named<'_>,
        line: u32,
        name: &[u8],
        word: u32,
    ) -> Result<(), SetRefusal>
        ensures { (claimed : Option Topology) (all : List Statement) → IsNamed named.now all → Adds self.old self.new claimed all line result (Flow (FlowConst name.now word)) }
    {
        self.expect_new(named, line, name)?;
        self.add_node(RowNode::Const { word })?;
        Ok(())
    }

    // `def NAME OP A B`
    fn add_apply(
        &mut self,
        named: &Named<'_>,
        line: u32,
        name: &[u8],
        op: FlowOp,
        a: &[u8],
        b: &[u8],
    ) -> Result<(), SetRefusal>
        ensures { (claimed : Option Topology) (all : List Statement) → IsNamed named.now all → Adds self.old self.new claimed all line result (Flow (FlowApply name.now op a.now b.now)) }
    {
        self.expect_new(named, line, name)?;
        let Some(a) = self.number(named, a) else {
            return Err(at(line, SetKind::Asm(AsmKind::UnknownName)));
        };
        let Some(b) = self.number(named, b) else {
            return Err(at(line, SetKind::Asm(AsmKind::UnknownName)));
        };
        self.add_node(RowNode::Apply { op, a, b })?;
        Ok(())
    }

    // `def NAME pre A W`
    fn add_pre(
        &mut self,
        named: &Named<'_>,
        line: u32,
        name: &[u8],
        a: &[u8],
        word: u32,
    ) -> Result<(), SetRefusal>
        ensures { (claimed : Option Topology) (all : List Statement) → IsNamed named.now all → Adds self.old self.new claimed all line result (Pre name.now a.now word) }
    {
        self.expect_new(named, line, name)?;
        let Some(a) = named.number(a) else {
            return Err(at(line, SetKind::Asm(AsmKind::UnknownName)));
        };
        self.add_node(RowNode::Pre { a, word })?;
        Ok(())
    }

    // `out NAME` with an edge
    fn add_out(
        &mut self,
        named: &Named<'_>,
        claimed: Option<&Topo>,
        line: u32,
        name: &[u8],
        edge: Edge,
    ) -> Result<(), SetRefusal>
        ensures { (all : List Statement) → IsNamed named.now all → Adds self.old self.new (option_map (λ topo. topo.now) claimed.entry) all line result (Out name.now edge) }
    {
        expect_seat(claimed, self.size, line, PortKind::Sink, edge)?;
        let Some(node) = self.number(named, name) else {
            return Err(at(line, SetKind::Asm(AsmKind::UnknownName)));
        };
        let Some(port) = named.sinks.find(edge) else {
            return Err(at(line, SetKind::UndeclaredEdge));
        };
        self.add_give(StreamOut { port, node })?;
        Ok(())
    }

    // `feed NET X Y SIDE W ..`
    fn add_feed(
        &mut self,
        named: &Named<'_>,
        line: u32,
        edge: Edge,
        words: Vec<u32>,
    ) -> Result<(), SetRefusal>
        ensures { (claimed : Option Topology) (all : List Statement) → IsNamed named.now all → Adds self.old self.new claimed all line result (Feed edge words.items) }
    {
        let Some(port) = named.sources.find(edge) else {
            return Err(at(line, SetKind::UndeclaredEdge));
        };
        self.add_words(Fed { port, words })?;
        Ok(())
    }

    // Adds what a line says.
    fn add(
        &mut self,
        named: &Named<'_>,
        claimed: Option<&Topo>,
        line: u32,
        said: Line<'_>,
    ) -> Result<(), SetRefusal>
        ensures { (all : List Statement) → IsNamed named.now all → Adds self.old self.new (option_map (λ topo. topo.now) claimed.entry) all line result (said_by said.entry) }
    {
        match said {
            Line::Flow(said) => self.add_flow(named, claimed, line, said),
            Line::Rows(count) => self.add_rows(line, count),
            Line::Input(name, edge) => self.add_input(named, claimed, line, name, edge),
            Line::Pre(name, a, word) => self.add_pre(named, line, name, a, word),
            Line::Out(name, edge) => self.add_out(named, claimed, line, name, edge),
            Line::Feed(edge, words) => self.add_feed(named, line, edge, words),
        }
    }

    // The word with which the next line with tokens has to begin, if there is one.
    fn due_word(&self) -> Option<&'static [u8]>
        ensures { option_map (λ word. word.now) result ≡ due_word self.now.size self.now.count }
    {
        match (self.size, self.count) {
            (None, _) => Some(b"grid".as_slice()),
            (Some(_), None) => Some(b"rows".as_slice()),
            (Some(_), Some(_)) => None,
        }
    }

    // Whether a line that begins so has to begin with another word.
    fn is_missing(&self, first: &[u8]) -> bool
        ensures { result ≡ is_missing (due_word self.now.size self.now.count) first.now }
    {
        match self.due_word() {
            Some(word) => first != word,
            None => false,
        }
    }

    /// Adds what the line of this number says, or refuses it.
    #[tactic(auto, unfolding(crate::specs::Faults::line_fault))]
    pub(crate) fn add_line(
        &mut self,
        alloc: Global,
        operations: &Operations,
        named: &Named<'_>,
        claimed: Option<&Topo>,
        number: u32,
        line: &Tokens<'_>,
    ) -> Result<(), SetRefusal>
        ensures fault { (all said rest : List Statement) → IsNamed named.now all → all ≡ said ++ (option_to_list (line_statement (tokens_of line.now)) ++ rest) →
            BuilderStands self.old all said → Answers result number (line_fault (option_map (λ topo. topo.now) claimed.entry) all said (tokens_of line.now)) }
        ensures stands { (all said rest : List Statement) → IsNamed named.now all → all ≡ said ++ (option_to_list (line_statement (tokens_of line.now)) ++ rest) →
            BuilderStands self.old all said → OnOk result (BuilderStands self.new all (said ++ option_to_list (line_statement (tokens_of line.now)))) }
    {
        if line.len() == 0 {
            return Ok(());
        }
        if self.is_missing(line.at(0)) {
            return Err(at(number, SetKind::Missing));
        }
        match read_line(alloc, operations, line) {
            Ok(Some(said)) => self.add(named, claimed, number, said),
            Ok(None) => Err(at(number, SetKind::BadLine)),
            Err(_) => Err(SetRefusal::Memory),
        }
    }
}
