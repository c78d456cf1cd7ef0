ghost use Rattle.std.specs.Prelude.{◌≡◌, ◌++◌, ◌∷◌, [], map, slice_get, IfOk, OnOk};
ghost use Rattle.pt_reported.specs.Reported.{act_line, if_any, lines_of, names_of};
ghost use Rattle.pt_tree.specs.StatementFold.{script_of};

use pt_acts::BlockActs;
use pt_base::{ActNo, Line, Memory, Text};
use pt_blocks::{BlockVisitor, visit};
use pt_tree::{Clause, Expr, Parameters, Script, Stmt};
use std::alloc::Global;
use std::marker::Model;

/// The lines of acts and the names of blocks, in their order.
#[derive(Drop)]
pub struct Reported {
    alloc: Global,
    lines: Vec<Line>,
    names: Vec<Text>,
}

impl Model for Reported {
    ghost use Rattle.pt_reported.specs.Reported.{Parts};

    ghost Value = { Parts };

    ghost view = { λ r. record { lines = r.lines.items; names = r.names.items } };
}

fn push_line(lines: &mut Vec<Line>, acts: &BlockActs, act: u32) -> Result<(), Memory>
    ensures { OnOk result
        (lines.new.items ≡ lines.old.items ++ map act_line (if_any (slice_get acts.now act))) }
{
    match acts.get(ActNo(act)) {
        Some(row) => {
            lines.push(row.line)?;
            Ok(())
        }
        None => Ok(()),
    }
}

fn push_lines(lines: &mut Vec<Line>, acts: &BlockActs) -> Result<(), Memory>
    ensures { OnOk result (lines.new.items ≡ lines.old.items ++ map act_line acts.now) }
{
    for act in 0..acts.count() {
        push_line(lines, acts, act)?;
    }
    Ok(())
}

impl Reported {
    fn new(alloc: Global) -> Reported
        ensures { result ≡ record { lines = []; names = [] } }
    {
        Reported {
            alloc,
            lines: Vec::new(alloc),
            names: Vec::new(alloc),
        }
    }

    /// The line of each act, as often as acts have it.
    pub fn lines(&self) -> &[Line]
        ensures { result.now ≡ self.now.lines }
    {
        self.lines.as_slice()
    }

    /// The name of each block, as often as blocks have it.
    pub fn names(&self) -> &[Text]
        ensures { result.now ≡ self.now.names }
    {
        self.names.as_slice()
    }

    fn add_name(&mut self, name: &str) -> Result<(), Memory>
        ensures names { OnOk result (self.new.names ≡ self.old.names ++ name.now ∷ []) }
        ensures lines { self.new.lines ≡ self.old.lines }
    {
        let name = Text::from_str(self.alloc, name)?;
        self.names.push(name)?;
        Ok(())
    }

    fn add_lines(&mut self, acts: &BlockActs) -> Result<(), Memory>
        ensures lines { OnOk result (self.new.lines ≡ self.old.lines ++ map act_line acts.now) }
        ensures names { self.new.names ≡ self.old.names }
    {
        push_lines(&mut self.lines, acts)
    }
}

impl BlockVisitor for Reported {
    ghost use Rattle.pt_reported.specs.Reported.{with_block};

    ghost behind = { with_block };

    fn module(&mut self, body: &[Stmt]) -> Result<(), Memory> {
        let acts = BlockActs::of_statements(self.alloc, body)?;
        self.add_name("<module>")?;
        self.add_lines(&acts)
    }

    fn function(
        &mut self,
        name: &Text,
        _first_line: Line,
        _parameters: &Parameters,
        body: &[Stmt],
    ) -> Result<(), Memory> {
        let acts = BlockActs::of_function(self.alloc, body)?;
        self.add_name(name.as_str())?;
        self.add_lines(&acts)
    }

    fn class(&mut self, name: &Text, _first_line: Line, body: &[Stmt]) -> Result<(), Memory> {
        let acts = BlockActs::of_statements(self.alloc, body)?;
        self.add_name(name.as_str())?;
        self.add_lines(&acts)
    }

    fn lambda(&mut self, line: Line, _parameters: &Parameters, body: &Expr) -> Result<(), Memory> {
        let acts = BlockActs::of_lambda(self.alloc, line, body)?;
        self.add_name("<lambda>")?;
        self.add_lines(&acts)
    }

    fn generator(
        &mut self,
        line: Line,
        item: &Expr,
        first: &Clause,
        rest: &[Clause],
    ) -> Result<(), Memory> {
        let acts = BlockActs::of_generator(self.alloc, line, item, first, rest)?;
        self.add_name("<genexpr>")?;
        self.add_lines(&acts)
    }
}

/// The lines and the names of a script.
pub fn lines_and_names(alloc: Global, script: &Script) -> Result<Reported, Memory>
    ensures { IfOk result (λ r.
        r ≡ record {
          lines = lines_of (script_of script.now);
          names = names_of (script_of script.now);
        }) }
{
    let mut parts = Reported::new(alloc);
    visit(&mut parts, script)?;
    Ok(parts)
}
