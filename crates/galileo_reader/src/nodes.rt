//! Which node each name names.

ghost use Rattle.std.specs.Prelude.{◌≡◌, ◌<◌, ◌^◌, None, IfOk, MatchResult, length};
ghost use Rattle.galileo_reader.specs.Nodes.{bad_count, input_of, node_of, place_of, second_line};
ghost use Rattle.galileo_reader.specs.inner.Trees.{HaveNoTree};
ghost use Rattle.galileo_reader.specs.inner.Tables.{AddsLine};

use crate::statement::{PlacedName, Statement};
use crate::tree::{Flaw, GalileoFault};
use indexmap::IndexMap;
use plain_values::Mem;
use round_gates::Input;
use std::alloc::Global;
use std::marker::Model;

/// What is known of the lines so far: the node of each name, how many gates and events there are, and whether there is a top.
#[derive(Drop)]
pub(crate) struct Naming<'a> {
    table: IndexMap<&'a [u8], Input>,
    gates: u32,
    events: u32,
    has_top: bool,
}

impl<'a> Naming<'a> {
    /// Adds a line. The answer is whether it tells of something new: else a line before it has its name, or is of the top too.
    fn add(&mut self, line: &'a Statement) -> Mem<bool>
        requires gates { self.old.gates < 4294967295 }
        requires events { self.old.events < 4294967295 }
        ensures { IfOk result (λ is_new. AddsLine line.now is_new self.old self.new) }
    {
        match line {
            Statement::Top(_, _) => {
                let is_new = !self.has_top;
                self.has_top = true;
                Ok(is_new)
            }
            Statement::Gate(name, _, _, _) => {
                let node = Input::Gate(self.gates);
                self.gates += 1;
                let before = self.table.insert(name.name.items(), node)?;
                Ok(before.is_none())
            }
            Statement::Event(name, _) => {
                let node = Input::Event(self.events);
                self.events += 1;
                let before = self.table.insert(name.name.items(), node)?;
                Ok(before.is_none())
            }
        }
    }
}

/// Which node each name of some lines names. Contracts see it as these lines.
#[derive(Drop)]
pub(crate) struct Nodes<'a> {
    lines: &'a [Statement],
    table: IndexMap<&'a [u8], Input>,
}

impl<'a> Model for Nodes<'a> {
    ghost use Rattle.std.specs.Prelude.{List};
    ghost use Rattle.indexmap.specs.IndexMap.{get};
    ghost use Rattle.galileo_reader.specs.declared.statement.Statement.{Statement};
    ghost use Rattle.galileo_reader.specs.inner.Tables.{KnowsNodes, same_key};

    ghost Value = { List Statement };

    ghost view = { λ nodes. nodes.lines.now };

    ghost invariant = { λ nodes. KnowsNodes nodes.lines.now (get same_key nodes.table) };
}

impl<'a> Nodes<'a> {
    /// The nodes of some lines; refused at the first line that tells again of what an earlier one tells.
    pub fn of(alloc: Global, lines: &'a [Statement]) -> Result<Nodes<'a>, GalileoFault>
        requires few { length lines.now < 2 ^ 32 }
        requires counts { bad_count lines.now ≡ None }
        ensures { MatchResult result (λ nodes. (nodes ≡ lines.now) × (second_line lines.now ≡ None)) (HaveNoTree lines.now) }
    {
        let mut naming = Naming {
            table: IndexMap::new(alloc),
            gates: 0,
            events: 0,
            has_top: false,
        };
        for line in lines {
            if !naming.add(line)? {
                return Err(GalileoFault::Refused(Flaw::DuplicateNode(place_of(line))));
            }
        }
        Ok(Nodes {
            lines,
            table: naming.table,
        })
    }

    /// The lines.
    pub fn lines(&self) -> &[Statement]
        ensures { result.now ≡ self.now }
    {
        self.lines
    }

    /// The node that a name names, where a line tells of it.
    pub fn node(&self, name: &[u8]) -> Option<Input>
        ensures { result ≡ node_of self.now name.now }
    {
        self.table.get(name).copied()
    }

    /// The node that a name names; event 0 where it names none.
    pub fn input(&self, name: &PlacedName) -> Input
        ensures { result ≡ input_of self.now name.now }
    {
        match self.node(name.name.items()) {
            Some(node) => node,
            None => Input::Event(0),
        }
    }
}

/// The place of a line: that of its first byte that is not a blank.
fn place_of(line: &Statement) -> u32
    ensures { result ≡ place_of line.now }
{
    match line {
        Statement::Top(at, _) => *at,
        Statement::Gate(name, _, _, _) | Statement::Event(name, _) => name.at,
    }
}
