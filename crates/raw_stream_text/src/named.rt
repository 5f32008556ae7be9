//! What all lines of a text define and name.
ghost use Rattle.std.specs.Prelude.{◌≡◌, ◌++◌, ◌∷◌, [], List, IfOk, OnOk};
ghost use Rattle.std.specs.Option.{option_to_list};
ghost use Rattle.raw_asm.specs.NameTable.{value_in};
ghost use Rattle.raw_asm.specs.Tokens.{tokens_of, section_lines};
ghost use Rattle.raw_flow_text.specs.Statement.{said_by as said_by_flow};
ghost use Rattle.raw_stream_text.specs.Statement.{Statement, said_by};
ghost use Rattle.raw_stream_text.specs.Statement.Statement.{Flow, Input};
ghost use Rattle.raw_stream_text.specs.Forms.{line_statement};
ghost use Rattle.raw_stream_text.specs.Meaning.{said_in};
ghost use Rattle.raw_stream_text.specs.Building.{Notes, Defines, IsNamed};

use crate::forms::read_line;
use crate::line::Line;
use crate::seats::Seats;
use raw_asm::{Section, Tokens};
use raw_flow_text as flow;
use raw_flow_text::Operations;
use raw_set_text::Edge;
use std::alloc::{AllocError, Global};
use std::collections::BTreeMap;

/// The names that all lines of a text define, and the edges that they name, whatever else is wrong with the lines.
#[derive(Drop)]
pub struct Named<'a> {
    /// The number of each name: how many lines that define stand before the first one that defines it.
    numbers: BTreeMap<&'a [u8], u32>,
    /// How many lines define.
    count: u32,
    /// The edges of sources.
    pub(crate) sources: Seats,
    /// The edges of sinks.
    pub(crate) sinks: Seats,
}

impl<'a> Named<'a> {
    /// The number of a name.
    pub(crate) fn number(&self, name: &[u8]) -> Option<u32>
        ensures { result ≡ value_in self.now.numbers name.now }
    {
        self.numbers.get(name).copied()
    }

    // Keeps the number of a name, where it has none.
    fn note(&mut self, name: &'a [u8]) -> Result<(), AllocError>
        ensures { OnOk result (Notes self.old self.new name.now) }
    {
        if self.number(name).is_some() {
            return Ok(());
        }
        self.numbers.insert(name, self.count)?;
        Ok(())
    }

    // Adds a line that defines a name. More of them than can be numbered are want of memory.
    fn define(&mut self, name: &'a [u8]) -> Result<(), AllocError>
        ensures { OnOk result (Defines self.old self.new name.now) }
    {
        self.note(name)?;
        if self.count == u32::MAX {
            return Err(AllocError);
        }
        self.count += 1;
        Ok(())
    }

    // Adds what the line of a flow says.
    fn add_flow(&mut self, said: flow::Line<'a>) -> Result<(), AllocError>
        ensures { (all : List Statement) → IsNamed self.old all → OnOk result (IsNamed self.new (all ++ Flow (said_by_flow said.entry) ∷ [])) }
    {
        match said {
            flow::Line::Grid(..) => Ok(()),
            flow::Line::Input(..) => Ok(()),
            flow::Line::Const(name, _) => self.define(name),
            flow::Line::Apply(name, ..) => self.define(name),
            flow::Line::Out(_) => Ok(()),
        }
    }

    // Adds a name for the next word of a source.
    fn add_input(&mut self, name: &'a [u8], edge: Edge) -> Result<(), AllocError>
        ensures { (all : List Statement) → IsNamed self.old all → OnOk result (IsNamed self.new (all ++ Input name.now edge ∷ [])) }
    {
        self.sources.add(edge)?;
        self.define(name)
    }

    // Adds what a line says.
    fn add(&mut self, said: &Line<'a>) -> Result<(), AllocError>
        ensures { (all : List Statement) → IsNamed self.old all → OnOk result (IsNamed self.new (all ++ said_by said.now ∷ [])) }
    {
        match said {
            Line::Flow(said) => self.add_flow(*said),
            Line::Rows(_) => Ok(()),
            Line::Input(name, edge) => self.add_input(name, *edge),
            Line::Pre(name, ..) => self.define(name),
            Line::Out(_, edge) => self.sinks.add(*edge),
            Line::Feed(..) => Ok(()),
        }
    }

    // Adds a line.
    fn add_line(
        &mut self,
        alloc: Global,
        operations: &Operations,
        line: &Tokens<'a>,
    ) -> Result<(), AllocError>
        ensures { (all : List Statement) → IsNamed self.old all → OnOk result (IsNamed self.new (all ++ option_to_list (line_statement (tokens_of line.now)))) }
    {
        if line.len() == 0 {
            return Ok(());
        }
        match read_line(alloc, operations, line) {
            Ok(Some(said)) => self.add(&said),
            Ok(None) => Ok(()),
            Err(failed) => Err(failed),
        }
    }

    /// What lines define and name.
    pub(crate) fn new(
        alloc: Global,
        operations: &Operations,
        lines: &Section<'a>,
    ) -> Result<Named<'a>, AllocError>
        ensures { IfOk result (λ named. IsNamed named (said_in (section_lines lines.now))) }
    {
        let mut named = Named {
            numbers: BTreeMap::new(alloc),
            count: 0,
            sources: Seats::new(alloc),
            sinks: Seats::new(alloc),
        };
        for place in 0..lines.len() {
            named.add_line(alloc, operations, &lines.line(place))?;
        }
        Ok(named)
    }
}
