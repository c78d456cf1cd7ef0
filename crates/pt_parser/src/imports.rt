//! Lists of names, and what is imported (Language Reference 7.11 to 7.13).

ghost use Rattle.std.specs.Prelude.{◌≡◌, ◌↔◌, IsTrue, [], ◌∷◌};
ghost use Rattle.pt_readers.specs.Reading.{next_of};
ghost use Rattle.pt_readers.specs.Settled.{Settled};
ghost use Rattle.pt_parser.specs.Forms.{an_identifier};
ghost use Rattle.pt_wide.specs.StatementFold.{stm_of};
ghost use Rattle.pt_readers.proofs.Readers.{left};
ghost use Rattle.pt_grammar.specs.Lexemes.{sign_at};
ghost use Rattle.pt_parser.specs.Simple.{ImportedFrom};
ghost use Rattle.pt_parser.specs.Parts.{IsEnd, an_end, an_alias, a_list, an_enclosure, imported as imported_part, dots_in, some_dots, a_simple};

use crate::signs::{AS, CLOSE, COMMA, IMPORT, NEWLINE, OPEN, SEMICOLON, STAR};
use crate::{Statements, nodes};
use pt_base::{Line, Seq, Text};
use pt_grammar::{Mark, Sign, Singleton};
use pt_readers::Halt;
use pt_tree::Alias;
use pt_wide::WideStmt;

impl<'a> Statements<'a> {
    /// Whether the next token ends a simple statement.
    pub(crate) fn is_at_end(&self) -> bool
        ensures { IsTrue result ↔ IsEnd (next_of self.now) }
    {
        self.is(SEMICOLON) || self.is(NEWLINE)
    }

    /// The end of a simple statement, which stays.
    pub(crate) fn end(&mut self) -> Result<(), Halt>
        ensures { Settled an_end (λ u. tt) self.old self.new result }
    {
        if !self.is_at_end() {
            return Err(Halt::Unexpected);
        }
        Ok(())
    }

    /// Names up to the end of the statement.
    pub(crate) fn names(&mut self) -> Result<Seq<Text>, Halt>
        ensures { Settled (a_list an_identifier) (λ xs. xs) self.old self.new result }
    {
        let first = self.identifier()?;
        let mut all = Seq::new(self.alloc);
        all.push(first)?;
        'more: while self.take(COMMA) {
            let next = self.identifier()?;
            all.push(next)?;
        }
        self.end()?;
        Ok(all)
    }

    /// A name, and what it is renamed to.
    pub(crate) fn alias(&mut self) -> Result<Alias, Halt>
        ensures { Settled an_alias (λ a. a) self.old self.new result }
    {
        let name = self.identifier()?;
        if !self.take(AS) {
            return Ok(Alias { name, alias: None });
        }
        let alias = self.identifier()?;
        Ok(Alias {
            name,
            alias: Some(alias),
        })
    }

    /// Names and what they are renamed to, up to the end of the statement.
    pub(crate) fn aliases(&mut self) -> Result<Seq<Alias>, Halt>
        ensures { Settled (a_list an_alias) (λ xs. xs) self.old self.new result }
    {
        let first = self.alias()?;
        let mut all = Seq::new(self.alloc);
        all.push(first)?;
        'more: while self.take(COMMA) {
            let next = self.alias()?;
            all.push(next)?;
        }
        self.end()?;
        Ok(all)
    }

    /// Names in parentheses, behind the opening one.
    fn enclosure(&mut self) -> Result<Seq<Alias>, Halt>
        ensures { Settled an_enclosure (λ xs. xs) self.old self.new result }
    {
        let first = self.alias()?;
        let mut all = Seq::new(self.alloc);
        all.push(first)?;
        'more: loop {
            if self.take(CLOSE) {
                return Ok(all);
            }
            if !self.take(COMMA) {
                return Err(Halt::Unexpected);
            }
            if self.take(CLOSE) {
                return Ok(all);
            }
            let next = self.alias()?;
            all.push(next)?;
        }
    }

    /// What is imported from an origin; `None` is `*`.
    fn imported(&mut self) -> Result<Option<Seq<Alias>>, Halt>
        ensures { Settled imported_part (λ xs. xs) self.old self.new result }
    {
        if self.take(STAR) {
            self.end()?;
            return Ok(None);
        }
        if self.take(OPEN) {
            let names = self.enclosure()?;
            self.end()?;
            return Ok(Some(names));
        }
        let names = self.aliases()?;
        Ok(Some(names))
    }

    /// How many dots the next token has.
    fn dots_here(&self) -> u32
        ensures { result ≡ dots_in (sign_at (next_of self.now)) }
    {
        match self.sign() {
            Some(sign) => match sign {
                Sign::Mark(mark) => match mark {
                    Mark::Dot => 1,
                    _ => 0,
                },
                Sign::Singleton(singleton) => match singleton {
                    Singleton::Ellipsis => 3,
                    _ => 0,
                },
                _ => 0,
            },
            None => 0,
        }
    }

    /// The dots before an origin.
    fn dots(&mut self) -> Result<u32, Halt>
        ensures { Settled (some_dots 0) (λ n. n) self.old self.new result }
    {
        let mut count: u32 = 0;
        'more: loop {
            let more = self.dots_here();
            if more == 0 {
                return Ok(count);
            }
            let Some(sum) = count.checked_add(more) else {
                return Err(Halt::Memory);
            };
            self.skip();
            count = sum;
        }
    }

    /// Behind `from` (Language Reference 7.11).
    pub(crate) fn importing_from(&mut self, line: Line) -> Result<WideStmt, Halt>
        ensures { Settled (left a_simple (ImportedFrom line.0)) stm_of self.old self.new result }
    {
        let dots = self.dots()?;
        let origin = self.identifier()?;
        self.expect(IMPORT)?;
        let names = self.imported()?;
        self.ended(nodes::import_from(line, dots, origin, names))
    }
}
