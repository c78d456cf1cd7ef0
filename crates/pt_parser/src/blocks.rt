//! Blocks and the statements in them (Language Reference 8).

ghost use Rattle.std.specs.Prelude.{◌≡◌, ◌↔◌, ◌⊎◌, IsTrue, map, []};
ghost use Rattle.pt_wide.specs.StatementFold.{stm_of};
ghost use Rattle.pt_readers.specs.Reading.{next_of};
ghost use Rattle.pt_readers.specs.Settled.{Settled};
ghost use Rattle.pt_readers.proofs.Readers.{left};
ghost use Rattle.pt_grammar.specs.declared.sign.Sign.TheVariants.{Layout as layout_sign};
ghost use Rattle.pt_grammar.specs.declared.sign.Layout.TheVariants.{Dedent, End};
ghost use Rattle.pt_parser.specs.Grammar.{Chosen, Repetition, Iteration, Entering};
ghost use Rattle.pt_parser.specs.Parts.{FitsBlock, IsClause, BeginsCompound, no_clause, a_compound, some_simples, a_stmt, some_stmts, a_block, IsAfterwards, an_afterwards, a_last, a_suite};

use crate::signs::{
    AT, CLASS, COLON, DEDENT, DEF, ELIF, ELSE, EXCEPT, FINALLY, FOR, IF, IN, INDENT, NEWLINE,
    SEMICOLON, TRY, WHILE, WITH,
};
use crate::{Statements, nodes};
use pt_base::{Line, Seq};
use pt_grammar::Sign;
use pt_readers::Halt;
use pt_wide::WideStmt;

impl<'a> Statements<'a> {
    /// Whether the next token goes on with a compound statement before it.
    fn is_clause(&self) -> bool
        ensures { IsTrue result ↔ IsClause (next_of self.now) }
    {
        self.is(ELSE) || self.is(ELIF) || self.is(EXCEPT) || self.is(FINALLY)
    }

    /// Nothing, where a token is next that doesn't go on with the statement before it.
    fn clear(&mut self) -> Result<(), Halt>
        ensures { Settled no_clause (λ u. tt) self.old self.new result }
    {
        if self.is_clause() {
            return Err(Halt::Unexpected);
        }
        if self.is_over() {
            return Err(Halt::Unexpected);
        }
        Ok(())
    }

    /// Simple statements on one line, behind those that are read.
    fn simples(&mut self, all: &mut Seq<WideStmt>) -> Result<(), Halt>
        requires { FitsBlock (map stm_of all.old) }
        ensures { Settled (some_simples (map stm_of all.old)) (λ u. map stm_of all.new) self.old self.new result }
    {
        let first = self.simple()?;
        all.push(first)?;
        'more: loop {
            if self.take(NEWLINE) {
                return Ok(());
            }
            if !self.take(SEMICOLON) {
                return Err(Halt::Unexpected);
            }
            if self.take(NEWLINE) {
                return Ok(());
            }
            let next = self.simple()?;
            all.push(next)?;
        }
    }

    /// A block: simple statements on the same line, or lines that are indented.
    #[cycle(statements)]
    pub(crate) fn block(&mut self) -> Result<Seq<WideStmt>, Halt>
        ensures { Settled a_block (λ all. map stm_of all) self.old self.new result }
    {
        let mut all = Seq::new(self.alloc);
        if !self.take(NEWLINE) {
            self.simples(&mut all)?;
            return Ok(all);
        }
        self.expect(INDENT)?;
        self.statement(&mut all)?;
        self.up_to(DEDENT, &mut all)?;
        Ok(all)
    }

    /// `else` or `finally` and its block, if they are there.
    #[cycle(statements)]
    pub(crate) fn afterwards(&mut self, word: Sign) -> Result<Seq<WideStmt>, Halt>
        requires { IsAfterwards word }
        ensures { Settled (an_afterwards word) (λ all. map stm_of all) self.old self.new result }
    {
        if !self.take(word) {
            self.clear()?;
            return Ok(Seq::new(self.alloc));
        }
        self.last()
    }

    /// `:` and the block with which a statement ends.
    #[cycle(statements)]
    pub(crate) fn last(&mut self) -> Result<Seq<WideStmt>, Halt>
        ensures { Settled a_last (λ all. map stm_of all) self.old self.new result }
    {
        let all = self.suite()?;
        self.clear()?;
        Ok(all)
    }

    /// `:` and a block.
    #[cycle(statements)]
    pub(crate) fn suite(&mut self) -> Result<Seq<WideStmt>, Halt>
        ensures { Settled a_suite (λ all. map stm_of all) self.old self.new result }
    {
        self.expect(COLON)?;
        self.block()
    }

    /// A statement behind those that are read, or several on one line.
    #[cycle(statements)]
    fn statement(&mut self, all: &mut Seq<WideStmt>) -> Result<(), Halt>
        requires { FitsBlock (map stm_of all.old) }
        ensures { Settled (a_stmt (map stm_of all.old)) (λ u. map stm_of all.new) self.old self.new result }
    {
        if self.is_compound() {
            let statement = self.compound()?;
            all.push(statement)?;
            return Ok(());
        }
        self.simples(all)?;
        self.clear()
    }

    /// Statements behind those that are read, and the sign that closes them.
    #[cycle(statements)]
    pub(crate) fn up_to(&mut self, close: Sign, all: &mut Seq<WideStmt>) -> Result<(), Halt>
        requires closes { (close ≡ layout_sign Dedent) ⊎ (close ≡ layout_sign End) }
        requires fits { FitsBlock (map stm_of all.old) }
        ensures { Settled (some_stmts close (map stm_of all.old)) (λ u. map stm_of all.new) self.old self.new result }
    {
        'more: while !self.take(close) {
            self.statement(all)?;
        }
        Ok(())
    }

    /// Whether a compound statement begins here.
    fn is_compound(&self) -> bool
        ensures { IsTrue result ↔ BeginsCompound (next_of self.now) }
    {
        self.is(IF)
            || self.is(WHILE)
            || self.is(FOR)
            || self.is(TRY)
            || self.is(DEF)
            || self.is(CLASS)
            || self.is(AT)
            || self.is(WITH)
    }

    /// A compound statement.
    #[cycle(statements)]
    fn compound(&mut self) -> Result<WideStmt, Halt>
        requires { BeginsCompound (next_of self.old) }
        ensures { Settled a_compound stm_of self.old self.new result }
    {
        let line = self.line();
        if self.take(IF) {
            return self.choice(line);
        }
        if self.take(WHILE) {
            return self.while_statement(line);
        }
        if self.take(FOR) {
            return self.iteration(line);
        }
        if self.take(TRY) {
            return self.attempt(line);
        }
        let decorators = Seq::new(self.alloc);
        if self.take(DEF) {
            return self.function(line, decorators, line);
        }
        if self.take(CLASS) {
            return self.class(line, decorators, line);
        }
        if self.take(WITH) {
            return self.with_statement(line);
        }
        self.skip();
        self.decorated(line)
    }

    /// Behind `if` (Language Reference 8.1).
    #[cycle(statements)]
    fn choice(&mut self, line: Line) -> Result<WideStmt, Halt>
        ensures { Settled (left a_compound (Chosen line.0 line.0 [])) stm_of self.old self.new result }
    {
        let mut branches = Seq::new(self.alloc);
        let mut at = line;
        'more: loop {
            let test = self.expression()?;
            let body = self.suite()?;
            branches.push(nodes::if_branch(at, test, body))?;
            at = self.line();
            if !self.take(ELIF) {
                let otherwise = self.afterwards(ELSE)?;
                return Ok(nodes::choice(line, branches, otherwise));
            }
        }
    }

    /// Behind `while` (Language Reference 8.2).
    #[cycle(statements)]
    fn while_statement(&mut self, line: Line) -> Result<WideStmt, Halt>
        ensures { Settled (left a_compound (Repetition line.0)) stm_of self.old self.new result }
    {
        let test = self.expression()?;
        let body = self.suite()?;
        let otherwise = self.afterwards(ELSE)?;
        Ok(nodes::while_statement(line, test, body, otherwise))
    }

    /// Behind `for` (Language Reference 8.3).
    #[cycle(statements)]
    fn iteration(&mut self, line: Line) -> Result<WideStmt, Halt>
        ensures { Settled (left a_compound (Iteration line.0)) stm_of self.old self.new result }
    {
        let target = self.targets()?;
        self.expect(IN)?;
        let iterable = self.exprs()?;
        let body = self.suite()?;
        let otherwise = self.afterwards(ELSE)?;
        Ok(nodes::iteration(line, target, iterable, body, otherwise))
    }

    /// Behind `with` (Language Reference 8.5).
    #[cycle(statements)]
    fn with_statement(&mut self, line: Line) -> Result<WideStmt, Halt>
        ensures { Settled (left a_compound (Entering line.0)) stm_of self.old self.new result }
    {
        let items = self.with_items()?;
        let body = self.last()?;
        Ok(nodes::with(line, items, body))
    }
}
