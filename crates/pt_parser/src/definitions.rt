//! Functions, classes, and their decorators (Language Reference 8.7, 8.8).

ghost use Rattle.std.specs.Prelude.{◌≡◌, map};
ghost use Rattle.pt_wide.specs.StatementFold.{stm_of};
ghost use Rattle.pt_readers.specs.Settled.{Settled};
ghost use Rattle.pt_readers.proofs.Readers.{left};
ghost use Rattle.pt_parser.specs.Grammar.{FunctionDef, ClassDef, ClassBody, Decoration};
ghost use Rattle.pt_parser.specs.Limits.{FitsArgs};
ghost use Rattle.pt_parser.specs.Parts.{Each, FitsDecorator, a_compound};
ghost use Rattle.pt_parser.specs.Views.{bases_in, decorator_in};

use crate::heads::Bases;
use crate::signs::{CLASS, DEF, OPEN};
use crate::{Statements, nodes};
use pt_base::{Line, Seq, Text};
use pt_readers::Halt;
use pt_wide::{WideDecorator, WideStmt};

impl<'a> Statements<'a> {
    /// Behind `def`, which stands on that line; the statement starts on this one.
    #[cycle(statements)]
    pub(crate) fn function(
        &mut self,
        line: Line,
        decorators: Seq<WideDecorator>,
        at: Line,
    ) -> Result<WideStmt, Halt>
        requires { Each FitsDecorator (map decorator_in decorators) }
        ensures { Settled (left a_compound (FunctionDef line.0 (map decorator_in decorators) at.0)) stm_of self.old self.new result }
    {
        let signature = self.signature()?;
        let body = self.last()?;
        Ok(nodes::function(line, decorators, at, signature, body))
    }

    /// The block of a class.
    #[cycle(statements)]
    fn class_body(
        &mut self,
        line: Line,
        decorators: Seq<WideDecorator>,
        at: Line,
        name: Text,
        bases: Bases,
    ) -> Result<WideStmt, Halt>
        requires decorators { Each FitsDecorator (map decorator_in decorators) }
        requires bases { FitsArgs (bases_in bases).arguments }
        ensures { Settled (left a_compound (ClassBody line.0 (map decorator_in decorators) at.0 name (bases_in bases))) stm_of self.old self.new result }
    {
        let body = self.last()?;
        Ok(nodes::class(line, decorators, at, name, bases, body))
    }

    /// Behind `class`, which stands on that line; the statement starts on this one.
    #[cycle(statements)]
    pub(crate) fn class(
        &mut self,
        line: Line,
        decorators: Seq<WideDecorator>,
        at: Line,
    ) -> Result<WideStmt, Halt>
        requires { Each FitsDecorator (map decorator_in decorators) }
        ensures { Settled (left a_compound (ClassDef line.0 (map decorator_in decorators) at.0)) stm_of self.old self.new result }
    {
        let name = self.identifier()?;
        if !self.take(OPEN) {
            let arguments = Seq::new(self.alloc);
            let bases = Bases {
                arguments,
                trailing_comma: false,
            };
            return self.class_body(line, decorators, at, name, bases);
        }
        let bases = self.bases()?;
        self.class_body(line, decorators, at, name, bases)
    }

    /// Behind the first `@`.
    #[cycle(statements)]
    pub(crate) fn decorated(&mut self, line: Line) -> Result<WideStmt, Halt>
        ensures { Settled (left a_compound (Decoration line.0)) stm_of self.old self.new result }
    {
        let decorators = self.decorators(line)?;
        let at = self.line();
        if self.take(DEF) {
            return self.function(line, decorators, at);
        }
        if !self.take(CLASS) {
            return Err(Halt::Unexpected);
        }
        self.class(line, decorators, at)
    }
}
