ghost use Rattle.std.specs.Prelude.{◌≡◌, [], None, IfOk, OnOk};
ghost use Rattle.pt_scopes.specs.Mentions.{places_script};
ghost use Rattle.pt_scopes.specs.Refusals.{fault_of};
ghost use Rattle.pt_tree.specs.StatementFold.{script_of};
ghost use Rattle.law_files.specs.sem_compile.compile.ScriptCode.{code_of, no_tables};
ghost use Rattle.std.specs.Option.{option_copied};
ghost use Rattle.pt_block_names.specs.Named.{params_of};
ghost use Rattle.law_files.specs.code_files.Numbers.{NumbersFit};
ghost use Rattle.pt_compile.specs.PartialCode.{IsOpen, whole, with_layout};

use crate::heading::{function_kind, heading_of, lambda_kind};
use crate::names::enter_names;
use crate::numbers::check_numbers;
use crate::open_block::OpenBlock;
use pt_assembler::{Heading, Tables, Writer};
use pt_base::{BlockId, Line, Memory, Seq, Shared, Text};
use pt_block_names::{BlockNames, ScriptNames};
use pt_blocks::{BlockVisitor, visit};
use pt_code::{BlockKind, Code, CodeBlock};
use pt_comp::{function_block, generator_block, lambda_block, statement_block};
use pt_script_names::script_names;
use pt_tree::{Clause, Expr, Parameters, Script, Stmt};
use std::alloc::Global;
use std::marker::Model;
use std::mem;

/// The code of a script in the making.
#[derive(Drop)]
struct Compiler {
    alloc: Global,
    names: Shared<ScriptNames>,
    tables: Tables,
    blocks: Seq<CodeBlock>,
}

impl Model for Compiler {
    ghost use Rattle.pt_compile.specs.PartialCode.{PartialCode};

    ghost Value = { PartialCode };

    ghost view = { λ c. record {
      naming = c.names;
      tables = record {
        texts = c.tables.texts;
        constants = c.tables.constants;
        lists = c.tables.lists;
      };
      blocks = c.blocks;
    } };
}

impl Compiler {
    fn new(alloc: Global, names: Shared<ScriptNames>) -> Compiler
        ensures { result ≡ record { naming = names; tables = no_tables; blocks = [] } }
    {
        Compiler {
            alloc,
            names,
            tables: Tables::new(alloc),
            blocks: Seq::new(alloc),
        }
    }

    /// The next block begins over so many slots.
    fn open(
        &mut self,
        name: &str,
        parameters: Option<&Parameters>,
        slots: u32,
    ) -> Result<OpenBlock, Memory>
        ensures open { IfOk result
            (λ b. IsOpen self.old name.now (params_of (option_copied parameters.entry)) slots b) }
        ensures naming { self.new.naming ≡ self.old.naming }
        ensures blocks { self.new.blocks ≡ self.old.blocks }
    {
        let block = BlockId(u32::try_from(self.blocks.len()).map_err(|_| Memory)?);
        let lists = self.names.get().lists(block, parameters)?;
        let names = BlockNames {
            names: self.names.share()?,
            block,
        };
        let tables = mem::replace(&mut self.tables, Tables::new(self.alloc));
        let mut writer = Writer::begin(self.alloc, tables, slots)?;
        let name = writer.text(name)?;
        enter_names(&mut writer, &lists)?;
        Ok(OpenBlock {
            writer,
            names,
            name,
        })
    }

    /// A block is whole.
    fn close(&mut self, writer: Writer, heading: Heading) -> Result<(), Memory>
        ensures { OnOk result (self.new ≡ with_layout heading writer self.old) }
    {
        let (tables, block) = writer.finish(heading)?;
        self.tables = tables;
        self.blocks.push(block)
    }

    fn into_code(self) -> Code
        ensures { result ≡ whole self }
    {
        Code {
            texts: self.tables.texts.into_items(),
            constants: self.tables.constants.into_items(),
            lists: self.tables.lists.into_items(),
            blocks: self.blocks,
        }
    }
}

impl BlockVisitor for Compiler {
    ghost use Rattle.pt_compile.specs.PartialCode.{with_block};

    ghost behind = { with_block };

    fn module(&mut self, body: &[Stmt]) -> Result<(), Memory> {
        let mut block = self.open("<module>", None, 0)?;
        let heading = heading_of(block.name, BlockKind::Module, Line(1), None)?;
        statement_block(&mut block.writer, &block.names, body)?;
        self.close(block.writer, heading)
    }

    fn function(
        &mut self,
        name: &Text,
        first_line: Line,
        parameters: &Parameters,
        body: &[Stmt],
    ) -> Result<(), Memory> {
        let kind = function_kind(self.alloc, body)?;
        let mut block = self.open(name.as_str(), Some(parameters), 0)?;
        let heading = heading_of(block.name, kind, first_line, Some(parameters))?;
        function_block(&mut block.writer, &block.names, body)?;
        self.close(block.writer, heading)
    }

    fn class(&mut self, name: &Text, first_line: Line, body: &[Stmt]) -> Result<(), Memory> {
        let mut block = self.open(name.as_str(), None, 0)?;
        let heading = heading_of(block.name, BlockKind::Class, first_line, None)?;
        statement_block(&mut block.writer, &block.names, body)?;
        self.close(block.writer, heading)
    }

    fn lambda(&mut self, line: Line, parameters: &Parameters, body: &Expr) -> Result<(), Memory> {
        let kind = lambda_kind(self.alloc, line, body)?;
        let mut block = self.open("<lambda>", Some(parameters), 0)?;
        let heading = heading_of(block.name, kind, line, Some(parameters))?;
        lambda_block(&mut block.writer, &block.names, line, body)?;
        self.close(block.writer, heading)
    }

    fn generator(
        &mut self,
        line: Line,
        item: &Expr,
        first: &Clause,
        rest: &[Clause],
    ) -> Result<(), Memory> {
        let mut block = self.open("<genexpr>", None, 1)?;
        let heading = heading_of(block.name, BlockKind::GeneratorExpression, line, None)?;
        generator_block(&mut block.writer, &block.names, line, item, first, rest)?;
        self.close(block.writer, heading)
    }
}

/// The code of a script (Language Reference 4.1): its blocks in the order in which their nodes
/// start, with the texts, constants and lists that they share.
///
/// # Errors
///
/// Want of memory, or of a number: of blocks, acts, labels, texts, operands or bytes.
pub fn compile(alloc: Global, script: &Script) -> Result<Code, Memory>
    requires { fault_of (places_script (script_of script.now)) ≡ None }
    ensures { IfOk result (λ c. (c ≡ code_of (script_of script.now)) × NumbersFit c) }
{
    let names = script_names(alloc, script)?;
    let mut compiler = Compiler::new(alloc, Shared::new(alloc, names)?);
    visit(&mut compiler, script)?;
    let code = compiler.into_code();
    check_numbers(&code)?;
    Ok(code)
}
