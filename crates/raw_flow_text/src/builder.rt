//! A flow that is being built, line by line.
ghost use Rattle.std.specs.Prelude.{◌≡◌, ℕ, List, [], ◌∷◌, ◌++◌, Some, None, OnOk, IfOk, IfErr, true, ◌&&◌, if◌then◌else◌};
ghost use Rattle.std.specs.Option.{is_some, option_to_list};
ghost use Rattle.raw_asm.specs.Tokens.{tokens_of};
ghost use Rattle.raw_asm.specs.NameTable.{value_in};
ghost use Rattle.raw_set_text.specs.Faults.{is_within};
ghost use Rattle.raw_flow_text.specs.Statement.{Statement, said_by};
ghost use Rattle.raw_flow_text.specs.Statement.Statement.{Grid, Input, Const, Apply, Out};
ghost use Rattle.raw_flow_text.specs.Flows.{fed_by, IsFed};
ghost use Rattle.raw_flow_text.specs.Faults.{is_unwanted, line_fault, end_fault};
ghost use Rattle.raw_flow_text.specs.Forms.{out_line, line_statement};
ghost use Rattle.raw_flow_text.specs.Building.{BuilderStands, Answers, Adds, Defines};

use crate::forms::read_line;
use crate::input::FlowInput;
use crate::line::Line;
use crate::name::is_name;
use crate::operations::Operations;
use raw_asm::{AsmKind, Tokens};
use raw_flow::{Flow, FlowOp, MAX_NODES, Node};
use raw_grid::MAX_SIZE;
use raw_set_text::{SetKind, SetRefusal};
use std::alloc::{AllocError, Global};
use std::collections::BTreeMap;

/// A flow that is being built.
#[derive(Drop)]
pub struct Builder<'a> {
    /// The columns and rows, once a line gives them.
    size: Option<(u8, u8)>,
    /// The number of the node with each name.
    numbers: BTreeMap<&'a [u8], u32>,
    nodes: Vec<Node>,
    /// The words of the inputs.
    inputs: Vec<u32>,
    /// The numbers of the nodes whose values are wanted.
    outs: Vec<u32>,
}

// A refusal of the line of this number.
fn at(line: u32, kind: SetKind) -> SetRefusal
    ensures { result ≡ SetRefusal.At line kind }
{
    SetRefusal::At { line, kind }
}

// Adds a word to a list.
fn add_word(list: &mut Vec<u32>, word: u32) -> Result<(), AllocError>
    ensures { OnOk result (list.new.items ≡ list.old.items ++ word ∷ []) }
{
    list.push(word)?;
    Ok(())
}

// The size of a grid, if it is one.
fn size_of(columns: u32, rows: u32) -> Option<(u8, u8)>
    ensures { result ≡ (if is_within 1 MAX_SIZE columns && is_within 1 MAX_SIZE rows then Some (columns, rows) else None) }
{
    let sizes = 1..=u32::from(MAX_SIZE);
    if sizes.contains(&columns) && sizes.contains(&rows) {
        Some((columns as u8, rows as u8))
    } else {
        None
    }
}

// Whether a line gives the grid another size than the one that is wanted, where one is.
fn is_unwanted(wanted: Option<(u8, u8)>, said: Line<'_>) -> bool
    ensures { result ≡ is_unwanted wanted (said_by said.entry) }
{
    match (wanted, said) {
        (Some((cols, rows)), Line::Grid(columns, lines)) => {
            !(columns == u32::from(cols) && lines == u32::from(rows))
        }
        _ => false,
    }
}

impl<'a> Builder<'a> {
    /// A flow of which no line is added yet.
    pub fn new(alloc: Global) -> Builder<'a>
        ensures { BuilderStands result [] }
    {
        Builder {
            size: None,
            numbers: BTreeMap::new(alloc),
            nodes: Vec::new(alloc),
            inputs: Vec::new(alloc),
            outs: Vec::new(alloc),
        }
    }

    // The number of the node with this name.
    fn number(&self, name: &[u8]) -> Option<u32>
        ensures { result ≡ value_in self.now.numbers name.now }
    {
        self.numbers.get(name).copied()
    }

    // Refuses a name that is defined.
    fn expect_new(&self, line: u32, name: &[u8]) -> Result<(), SetRefusal>
        ensures new { OnOk result (value_in self.now.numbers name.now ≡ None) }
        ensures defined { IfErr result (λ refusal. (refusal ≡ SetRefusal.At line SetKind.Repeated)
            × (is_some (value_in self.now.numbers name.now) ≡ true)) }
    {
        if self.number(name).is_some() {
            return Err(at(line, SetKind::Repeated));
        }
        Ok(())
    }

    // Adds a node with a name that is new. More nodes than can be numbered are want of memory.
    fn define(&mut self, name: &'a [u8], node: Node) -> Result<(), AllocError>
        requires { value_in self.old.numbers name.now ≡ None }
        ensures { OnOk result (Defines self.old self.new name.now node) }
    {
        let number = self.nodes.len();
        if number > u32::MAX as usize {
            return Err(AllocError);
        }
        self.numbers.insert(name, number as u32)?;
        self.nodes.push(node)?;
        Ok(())
    }

    // `grid C R`
    fn add_grid(&mut self, line: u32, columns: u32, rows: u32) -> Result<(), SetRefusal>
        ensures { Adds self.old self.new line result (Grid columns rows) }
    {
        let Some(size) = size_of(columns, rows) else {
            return Err(at(line, SetKind::BadSize));
        };
        if self.size.is_some() {
            return Err(at(line, SetKind::Repeated));
        }
        self.size = Some(size);
        Ok(())
    }

    // `input NAME W`
    fn add_input(&mut self, line: u32, name: &'a [u8], word: u32) -> Result<(), SetRefusal>
        ensures { Adds self.old self.new line result (Input name.now word) }
    {
        self.expect_new(line, name)?;
        self.define(name, Node::Input)?;
        add_word(&mut self.inputs, word)?;
        Ok(())
    }

    // `def NAME const W`
    fn add_const(&mut self, line: u32, name: &'a [u8], word: u32) -> Result<(), SetRefusal>
        ensures { Adds self.old self.new line result (Const name.now word) }
    {
        self.expect_new(line, name)?;
        self.define(name, Node::Const { word })?;
        Ok(())
    }

    // `def NAME OP A B`
    fn add_apply(
        &mut self,
        line: u32,
        name: &'a [u8],
        op: FlowOp,
        a: &[u8],
        b: &[u8],
    ) -> Result<(), SetRefusal>
        ensures { Adds self.old self.new line result (Apply name.now op a.now b.now) }
    {
        self.expect_new(line, name)?;
        let Some(a) = self.number(a) else {
            return Err(at(line, SetKind::Asm(AsmKind::UnknownName)));
        };
        let Some(b) = self.number(b) else {
            return Err(at(line, SetKind::Asm(AsmKind::UnknownName)));
        };
        self.define(name, Node::Apply { op, a, b })?;
        Ok(())
    }

    // `out NAME`
    fn add_out(&mut self, line: u32, name: &[u8]) -> Result<(), SetRefusal>
        ensures { Adds self.old self.new line result (Out name.now) }
    {
        let Some(number) = self.number(name) else {
            return Err(at(line, SetKind::Asm(AsmKind::UnknownName)));
        };
        add_word(&mut self.outs, number)?;
        Ok(())
    }

    // Adds what a line says.
    fn add(&mut self, line: u32, said: Line<'a>) -> Result<(), SetRefusal>
        ensures { Adds self.old self.new line result (said_by said.entry) }
    {
        match said {
            Line::Grid(columns, rows) => self.add_grid(line, columns, rows),
            Line::Input(name, word) => self.add_input(line, name, word),
            Line::Const(name, word) => self.add_const(line, name, word),
            Line::Apply(name, op, a, b) => self.add_apply(line, name, op, a, b),
            Line::Out(name) => self.add_out(line, name),
        }
    }

    /// Adds what the line of this number says, or refuses it. The grid is to have the size that is wanted, where one is.
    #[tactic(auto, unfolding(crate::specs::Faults::line_fault))]
    pub fn add_line(
        &mut self,
        operations: &Operations,
        wanted: Option<(u8, u8)>,
        number: u32,
        line: &Tokens<'a>,
    ) -> Result<(), SetRefusal>
        ensures fault { (said : List Statement) → BuilderStands self.old said → Answers result number (line_fault wanted said (tokens_of line.now)) }
        ensures stands { (said : List Statement) → BuilderStands self.old said →
            OnOk result (BuilderStands self.new (said ++ option_to_list (line_statement (tokens_of line.now)))) }
    {
        if line.len() == 0 {
            return Ok(());
        }
        if self.size.is_none() && line.at(0) != b"grid".as_slice() {
            return Err(at(number, SetKind::Missing));
        }
        match read_line(operations, line) {
            Some(said) if is_unwanted(wanted, said) => Err(at(number, SetKind::BadSize)),
            Some(said) => self.add(number, said),
            None => Err(at(number, SetKind::BadLine)),
        }
    }

    /// Adds what a line `out NAME` with this name says, or refuses it.
    pub fn add_out_line(&mut self, number: u32, name: &[u8]) -> Result<(), SetRefusal>
        ensures fault { (size : ℕ × ℕ) (said : List Statement) → BuilderStands self.old said →
            Answers result number (line_fault (Some size) said (out_line name.now)) }
        ensures stands { (said : List Statement) → BuilderStands self.old said →
            OnOk result (BuilderStands self.new (said ++ option_to_list (line_statement (out_line name.now)))) }
    {
        if self.size.is_none() {
            return Err(at(number, SetKind::Missing));
        }
        if !is_name(name) {
            return Err(at(number, SetKind::BadLine));
        }
        self.add_out(number, name)
    }

    /// The flow with the words of its inputs, where all lines are added; `end` is the number of the line after the last.
    pub fn finish(self, end: u32) -> Result<FlowInput, SetRefusal>
        requires { (said : List Statement) × (BuilderStands self said) × (end_fault said ≡ None → IsFed (fed_by said)) }
        ensures fault { (said : List Statement) → BuilderStands self.entry said → Answers result end (end_fault said) }
        ensures fed { (said : List Statement) → BuilderStands self.entry said → IfOk result (λ input. input ≡ fed_by said) }
    {
        let Some((cols, rows)) = self.size else {
            return Err(at(end, SetKind::Missing));
        };
        if self.outs.is_empty() {
            return Err(at(end, SetKind::Missing));
        }
        if self.nodes.len() > MAX_NODES {
            return Err(at(end, SetKind::OverLimit));
        }
        match Flow::new(cols, rows, self.nodes, self.outs) {
            Some(flow) => Ok(FlowInput {
                flow,
                inputs: self.inputs,
            }),
            None => unreachable!(),
        }
    }
}
