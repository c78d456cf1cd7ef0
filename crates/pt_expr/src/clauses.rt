//! Clauses of comprehensions (Language Reference 6.2.4).

ghost use Rattle.std.specs.Prelude.{◌≡◌, ◌≤◌, ◌<◌, Some, map};
ghost use Rattle.pt_wide.specs.Fold.{exp_of};
ghost use Rattle.pt_readers.specs.Reading.{next_of};
ghost use Rattle.pt_readers.specs.Settled.{Settled};
ghost use Rattle.pt_grammar.specs.Lexemes.{sign_at};
ghost use Rattle.pt_grammar.specs.declared.sign.Sign.TheVariants.{Word as word_sign};
ghost use Rattle.pt_grammar.specs.declared.sign.Word.TheVariants.{For as for_word};
ghost use Rattle.pt_grammar.specs.Parts.{some_conditions, a_clause, some_clauses};
ghost use Rattle.pt_grammar.specs.Views.{clause_in};
ghost use Rattle.pt_grammar.specs.ReadViews.{clauses_read};

use crate::Reader;
use pt_base::Line;
use pt_grammar::clause_nodes::Clause;
use pt_grammar::deep::{Clauses, Several};
use pt_grammar::{Part, Sign, Word};
use pt_readers::Halt;

impl<'a> Reader<'a> {
    /// Conditions of a clause, each behind its `if`.
    #[cycle(reading)]
    fn conditions(&mut self, room: u32) -> Result<Several, Halt>
        requires some { 0 < room }
        requires few { room ≤ 500 }
        ensures { Settled (some_conditions room) (λ s. map exp_of s.items) self.old.lexemes self.new.lexemes result }
    {
        let mut conditions = Several::new(self.alloc);
        'more: while self.lexemes.is(Sign::Word(Word::If)) {
            self.lexemes.skip();
            let next = self.disjunction(room)?;
            conditions = conditions.with(next)?;
        }
        if !self.lexemes.ends_clause() {
            return Err(Halt::Unexpected);
        }
        Ok(conditions)
    }

    /// A clause behind its `for`, which stands on this line.
    #[cycle(reading)]
    fn clause(&mut self, line: Line, room: u32) -> Result<Clause, Halt>
        requires some { 0 < room }
        requires few { room ≤ 500 }
        ensures { Settled (a_clause line.0 room) (λ c. clause_in c.tree) self.old.lexemes self.new.lexemes result }
    {
        let target = self.exprs(Part::Target, room)?;
        if !self.lexemes.take(Sign::Word(Word::In)) {
            return Err(Halt::Unexpected);
        }
        let iterable = self.disjunction(room)?;
        let conditions = self.conditions(room)?;
        Ok(Clause::new(line, target, iterable, conditions))
    }

    /// The clauses of a comprehension, of which there is one at least.
    #[cycle(reading)]
    pub(crate) fn clauses(&mut self, room: u32) -> Result<Clauses, Halt>
        requires first { sign_at (next_of self.old.lexemes) ≡ Some (word_sign for_word) }
        requires some { 0 < room }
        requires few { room ≤ 500 }
        ensures { Settled (some_clauses room) clauses_read self.old.lexemes self.new.lexemes result }
    {
        let mut clauses = Clauses::new(self.alloc);
        'more: while self.lexemes.is(Sign::Word(Word::For)) {
            let line = self.lexemes.line();
            self.lexemes.skip();
            let next = self.clause(line, room)?;
            clauses = clauses.with(next)?;
        }
        if !self.lexemes.ends_clauses() {
            return Err(Halt::Unexpected);
        }
        Ok(clauses)
    }
}
