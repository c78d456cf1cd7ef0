//! `try` and its handlers (Language Reference 8.4).

ghost use Rattle.std.specs.Prelude.{◌≡◌, map, []};
ghost use Rattle.pt_wide.specs.StatementFold.{stm_of};
ghost use Rattle.pt_readers.specs.Settled.{Settled};
ghost use Rattle.pt_readers.proofs.Readers.{left};
ghost use Rattle.pt_parser.specs.Grammar.{Attempt, Handling, Closing, Finishing};
ghost use Rattle.pt_parser.specs.Parts.{Each, FitsBlock, FitsHandler, a_compound};
ghost use Rattle.pt_parser.specs.Views.{handler_in};

use crate::signs::{ELSE, EXCEPT, FINALLY};
use crate::{Statements, nodes};
use pt_base::{Line, Seq};
use pt_readers::Halt;
use pt_wide::{WideHandler, WideStmt};

impl<'a> Statements<'a> {
    /// `finally`, if it is there, behind all else.
    #[cycle(statements)]
    fn finishing(
        &mut self,
        line: Line,
        body: Seq<WideStmt>,
        handlers: Seq<WideHandler>,
        otherwise: Seq<WideStmt>,
    ) -> Result<WideStmt, Halt>
        requires body { FitsBlock (map stm_of body) }
        requires handlers { Each FitsHandler (map handler_in handlers) }
        requires otherwise { FitsBlock (map stm_of otherwise) }
        ensures { Settled (left a_compound (Finishing line.0 (map stm_of body) (map handler_in handlers) (map stm_of otherwise))) stm_of self.old self.new result }
    {
        let finally = self.afterwards(FINALLY)?;
        Ok(nodes::attempt(line, body, handlers, otherwise, finally))
    }

    /// Behind the handlers.
    #[cycle(statements)]
    fn closing(
        &mut self,
        line: Line,
        body: Seq<WideStmt>,
        handlers: Seq<WideHandler>,
    ) -> Result<WideStmt, Halt>
        requires body { FitsBlock (map stm_of body) }
        requires handlers { Each FitsHandler (map handler_in handlers) }
        ensures { Settled (left a_compound (Closing line.0 (map stm_of body) (map handler_in handlers))) stm_of self.old self.new result }
    {
        if !self.take(ELSE) {
            let otherwise = Seq::new(self.alloc);
            return self.finishing(line, body, handlers, otherwise);
        }
        let otherwise = self.suite()?;
        self.finishing(line, body, handlers, otherwise)
    }

    /// Handlers, behind the `except` of the first; none follows one that catches all.
    #[cycle(statements)]
    fn handlers(&mut self, line: Line, body: Seq<WideStmt>, first: Line) -> Result<WideStmt, Halt>
        requires { FitsBlock (map stm_of body) }
        ensures { Settled (left a_compound (Handling line.0 (map stm_of body) first.0 [])) stm_of self.old self.new result }
    {
        let mut handlers = Seq::new(self.alloc);
        let mut at = first;
        'more: loop {
            let catch = self.catch()?;
            let names_class = catch.names_class();
            let block = self.suite()?;
            handlers.push(nodes::handler(at, catch, block))?;
            if !names_class {
                return self.closing(line, body, handlers);
            }
            at = self.line();
            if !self.take(EXCEPT) {
                return self.closing(line, body, handlers);
            }
        }
    }

    /// Behind `try`.
    #[cycle(statements)]
    pub(crate) fn attempt(&mut self, line: Line) -> Result<WideStmt, Halt>
        ensures { Settled (left a_compound (Attempt line.0)) stm_of self.old self.new result }
    {
        let body = self.suite()?;
        if self.take(FINALLY) {
            let finally = self.last()?;
            let handlers = Seq::new(self.alloc);
            let otherwise = Seq::new(self.alloc);
            return Ok(nodes::attempt(line, body, handlers, otherwise, finally));
        }
        let first = self.line();
        if !self.take(EXCEPT) {
            return Err(Halt::Unexpected);
        }
        self.handlers(line, body, first)
    }
}
