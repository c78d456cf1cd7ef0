//! Simple statements that a keyword begins (Language Reference 7.3 to 7.13).

ghost use Rattle.std.specs.Prelude.{◌≡◌, Some};
ghost use Rattle.pt_wide.specs.StatementFold.{stm_of};
ghost use Rattle.pt_readers.specs.Settled.{Settled};
ghost use Rattle.pt_readers.proofs.Readers.{left};
ghost use Rattle.pt_readers.specs.Reading.{next_of};
ghost use Rattle.pt_grammar.specs.declared.sign.Sign.TheVariants.{Keyword as keyword_sign};
ghost use Rattle.pt_grammar.specs.declared.sign.Keyword.TheVariants as keyword;
ghost use Rattle.pt_grammar.specs.Lexemes.{sign, sign_at};
ghost use Rattle.pt_parser.specs.Forms.{Is};
ghost use Rattle.pt_parser.specs.Simple.{Behind};
ghost use Rattle.pt_parser.specs.Limits.{FitsStm};
ghost use Rattle.pt_parser.specs.Parts.{keyword_in, a_simple};

use crate::signs::{COMMA, FROM};
use crate::{Statements, nodes};
use pt_base::Line;
use pt_grammar::{Keyword, Sign};
use pt_readers::Halt;
use pt_wide::WideStmt;

impl<'a> Statements<'a> {
    /// A statement that is read, before its end.
    pub(crate) fn ended(&mut self, statement: WideStmt) -> Result<WideStmt, Halt>
        requires { FitsStm (stm_of statement) }
        ensures { Settled (left a_simple (Is (stm_of statement))) stm_of self.old self.new result }
    {
        self.end()?;
        Ok(statement)
    }

    /// Behind `return` (Language Reference 7.6).
    fn returning(&mut self, line: Line) -> Result<WideStmt, Halt>
        ensures { Settled (left a_simple (Behind line.0 keyword.Return)) stm_of self.old self.new result }
    {
        if self.is_at_end() {
            return self.ended(nodes::returned(line, None));
        }
        let value = self.exprs()?;
        self.ended(nodes::returned(line, Some(value)))
    }

    /// Behind `raise` (Language Reference 7.8).
    fn raising(&mut self, line: Line) -> Result<WideStmt, Halt>
        ensures { Settled (left a_simple (Behind line.0 keyword.Raise)) stm_of self.old self.new result }
    {
        if self.is_at_end() {
            return self.ended(nodes::raised_again(line));
        }
        let exception = self.expression()?;
        let cause = self.optional(FROM)?;
        self.ended(nodes::raised(line, exception, cause))
    }

    /// Behind `global` (Language Reference 7.12).
    fn globals(&mut self, line: Line) -> Result<WideStmt, Halt>
        ensures { Settled (left a_simple (Behind line.0 keyword.Global)) stm_of self.old self.new result }
    {
        let names = self.names()?;
        self.ended(nodes::global(line, names))
    }

    /// Behind `nonlocal` (Language Reference 7.13).
    fn nonlocals(&mut self, line: Line) -> Result<WideStmt, Halt>
        ensures { Settled (left a_simple (Behind line.0 keyword.Nonlocal)) stm_of self.old self.new result }
    {
        let names = self.names()?;
        self.ended(nodes::nonlocal(line, names))
    }

    /// Behind `del` (Language Reference 7.5).
    fn deleting(&mut self, line: Line) -> Result<WideStmt, Halt>
        ensures { Settled (left a_simple (Behind line.0 keyword.Del)) stm_of self.old self.new result }
    {
        let targets = self.several_targets()?;
        self.ended(nodes::deleted(line, targets.items.items))
    }

    /// Behind `assert` (Language Reference 7.3).
    fn asserting(&mut self, line: Line) -> Result<WideStmt, Halt>
        ensures { Settled (left a_simple (Behind line.0 keyword.Assert)) stm_of self.old self.new result }
    {
        let test = self.expression()?;
        let message = self.optional(COMMA)?;
        self.ended(nodes::assertion(line, test, message))
    }

    /// Behind `import` (Language Reference 7.11).
    fn importing(&mut self, line: Line) -> Result<WideStmt, Halt>
        ensures { Settled (left a_simple (Behind line.0 keyword.Import)) stm_of self.old self.new result }
    {
        let names = self.aliases()?;
        self.ended(nodes::import(line, names))
    }

    /// The keyword that the next token is, if it is one of statements.
    pub(crate) fn keyword(&self) -> Option<Keyword>
        ensures { result ≡ keyword_in (sign_at (next_of self.now)) }
    {
        match self.sign() {
            Some(sign) => match sign {
                Sign::Keyword(keyword) => Some(keyword),
                _ => None,
            },
            None => None,
        }
    }

    /// A simple statement that the next token, a keyword on this line, begins.
    fn keyword_statement(&mut self, line: Line, keyword: Keyword) -> Result<WideStmt, Halt>
        requires { next_of self.old ≡ Some (sign line.0 (keyword_sign keyword)) }
        ensures { Settled a_simple stm_of self.old self.new result }
    {
        match keyword {
            Keyword::Pass => {
                self.skip();
                self.ended(nodes::pass(line))
            }
            Keyword::Break => {
                self.skip();
                self.ended(nodes::break_loop(line))
            }
            Keyword::Continue => {
                self.skip();
                self.ended(nodes::continue_loop(line))
            }
            Keyword::Return => {
                self.skip();
                self.returning(line)
            }
            Keyword::Raise => {
                self.skip();
                self.raising(line)
            }
            Keyword::Global => {
                self.skip();
                self.globals(line)
            }
            Keyword::Nonlocal => {
                self.skip();
                self.nonlocals(line)
            }
            Keyword::Del => {
                self.skip();
                self.deleting(line)
            }
            Keyword::Assert => {
                self.skip();
                self.asserting(line)
            }
            Keyword::Import => {
                self.skip();
                self.importing(line)
            }
            _ => Err(Halt::Unexpected),
        }
    }

    /// A simple statement, up to the token that ends it (Language Reference 7).
    pub(crate) fn simple(&mut self) -> Result<WideStmt, Halt>
        ensures { Settled a_simple stm_of self.old self.new result }
    {
        let line = self.line();
        if let Some(keyword) = self.keyword() {
            return self.keyword_statement(line, keyword);
        }
        if self.take(FROM) {
            return self.importing_from(line);
        }
        self.assignment_or_expression()
    }
}
