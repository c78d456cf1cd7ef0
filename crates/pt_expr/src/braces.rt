//! Displays of sets and dictionaries (Language Reference 6.2.6, 6.2.7).

ghost use Rattle.std.specs.Prelude.{ℕ, ◌≡◌, ◌≢◌, ◌≤◌, ◌<◌, ◌-◌, ◌∷◌, [], Some, map, true};
ghost use Rattle.pt_wide.specs.Fold.{exp_of, entry_of};
ghost use Rattle.pt_wide.specs.Syntax as S;
ghost use Rattle.pt_readers.specs.Reading.{next_of};
ghost use Rattle.pt_readers.specs.Settled.{Settled};
ghost use Rattle.pt_readers.proofs.Readers.{left};
ghost use Rattle.pt_readers.proofs.Pieces.{Made};
ghost use Rattle.pt_grammar.specs.Lexemes.{sign_at};
ghost use Rattle.pt_grammar.specs.Signs.{ends_entry as ends_entry_at};
ghost use Rattle.pt_grammar.specs.declared.sign.Sign.TheVariants.{Mark as mark_sign, Word as word_sign};
ghost use Rattle.pt_grammar.specs.declared.sign.Word.TheVariants.{For as for_word};
ghost use Rattle.pt_grammar.specs.declared.sign.Mark.TheVariants.{OpenBrace as open_brace};
ghost use Rattle.pt_grammar.specs.declared.part.Part.TheVariants.{Whole as whole_part};
ghost use Rattle.pt_grammar.specs.Grammar.{MoreEntries};
ghost use Rattle.pt_grammar.specs.Parts.{Fits, FitsEntry, Stops, an_atom, an_entry, an_expr, item_rank, some_entries};
ghost use Rattle.pt_grammar.specs.Nodes.{clauses_of};
ghost use Rattle.pt_grammar.specs.Views.{clauses_in};
ghost use Rattle.pt_grammar.specs.Braced as place;

use crate::Reader;
use crate::reader::MAX_ITEMS;
use pt_base::{BinOp, Line};
use pt_grammar::brace_nodes::{Entries, Entry};
use pt_grammar::deep::{Clauses, Deep, Several};
use pt_grammar::{Mark, Part, Sign, Word, brace_nodes, comprehension_nodes};
use pt_readers::Halt;
use pt_wide::{Comprehension, WideBinOp};

impl<'a> Reader<'a> {
    /// Whether what is next begins an entry of a dictionary.
    fn begins_entry(&self) -> bool
        ensures { result ≡ place.begins_entry (next_of self.now.lexemes) }
    {
        let star = Sign::Operator(WideBinOp::Plain(BinOp::Mul));
        let double_star = Sign::Operator(WideBinOp::Plain(BinOp::Pow));
        self.lexemes.is(double_star) || (!self.lexemes.is(star) && self.begins_item(Part::Whole))
    }

    /// Whether what is next begins the content of a display that isn't empty.
    fn begins_content(&self) -> bool
        ensures { result ≡ place.begins_content (next_of self.now.lexemes) }
    {
        let double_star = Sign::Operator(WideBinOp::Plain(BinOp::Pow));
        self.lexemes.is(double_star) || self.begins_item(Part::Whole)
    }

    /// What stands behind a key and its colon.
    #[cycle(reading)]
    fn pair(&mut self, key: Deep, room: u32) -> Result<Entry, Halt>
        requires some { 0 < room }
        requires few { room ≤ 500 }
        requires fits { Fits room (exp_of key.tree) }
        ensures { Settled (left (an_entry room) (Made (an_expr room) (S.pair (exp_of key.tree)))) (λ g. entry_of g.tree) self.old.lexemes self.new.lexemes result }
    {
        let value = self.expr(room)?;
        if !self.lexemes.ends_entry() {
            return Err(Halt::Unexpected);
        }
        Ok(Entry::pair(key, value))
    }

    /// `key: value` or `**mapping`.
    #[cycle(reading)]
    fn entry(&mut self, room: u32) -> Result<Entry, Halt>
        requires some { 0 < room }
        requires few { room ≤ 500 }
        ensures { Settled (an_entry room) (λ g. entry_of g.tree) self.old.lexemes self.new.lexemes result }
    {
        let double_star = Sign::Operator(WideBinOp::Plain(BinOp::Pow));
        if !self.lexemes.is(double_star) {
            let key = self.expr(room)?;
            if !self.lexemes.take(Sign::Mark(Mark::Colon)) {
                return Err(Halt::Unexpected);
            }
            return self.pair(key, room);
        }
        let line = self.lexemes.line();
        self.lexemes.skip();
        let mapping = self.binary(6, room)?;
        if !self.lexemes.ends_entry() {
            return Err(Halt::Unexpected);
        }
        Ok(Entry::spread(line, mapping))
    }

    /// What is left of entries with commas between them behind the first, and perhaps one comma behind the last.
    #[cycle(reading)]
    fn more_entries(&mut self, first: Entry, room: u32) -> Result<Entries, Halt>
        requires some { 0 < room }
        requires few { room ≤ 500 }
        requires fits { FitsEntry room (entry_of first.tree) }
        ensures { Settled (left (some_entries room) (MoreEntries (entry_of first.tree ∷ []))) (λ s. map entry_of s.items) self.old.lexemes self.new.lexemes result }
    {
        let mut entries = Entries::new(self.alloc).with(first)?;
        'more: while self.lexemes.take(Sign::Mark(Mark::Comma)) {
            if self.lexemes.is(Sign::Mark(Mark::CloseBrace)) {
                return Ok(entries);
            }
            if !self.begins_entry() {
                return Err(Halt::Unexpected);
            }
            if entries.items.len() >= MAX_ITEMS {
                return Err(Halt::Limit);
            }
            let next = self.entry(room)?;
            entries = entries.with(next)?;
        }
        if !self.lexemes.is(Sign::Mark(Mark::CloseBrace)) {
            return Err(Halt::Unexpected);
        }
        Ok(entries)
    }

    /// What is left of a dictionary that is no comprehension behind its first entry.
    #[cycle(reading)]
    fn more_of_dictionary(&mut self, line: Line, first: Entry, room: u32) -> Result<Deep, Halt>
        requires none { sign_at (next_of self.old.lexemes) ≢ Some (word_sign for_word) }
        requires some { 1 < room }
        requires few { room ≤ 500 }
        requires fits { FitsEntry (room - 1) (entry_of first.tree) }
        ensures { Settled (left (an_atom room) (place.Entered line.0 (entry_of first.tree))) (λ e. exp_of e.tree) self.old.lexemes self.new.lexemes result }
    {
        let entries = self.more_entries(first, room - 1)?;
        if !self.lexemes.take(Sign::Mark(Mark::CloseBrace)) {
            return Err(Halt::Unexpected);
        }
        Ok(brace_nodes::dict(self.alloc, line, entries)?)
    }

    /// The clauses behind the entry of a comprehension, and the closing brace.
    #[cycle(reading)]
    fn entry_clauses(&mut self, line: Line, entry: Entry, room: u32) -> Result<Deep, Halt>
        requires first { sign_at (next_of self.old.lexemes) ≡ Some (word_sign for_word) }
        requires some { 1 < room }
        requires few { room ≤ 500 }
        requires fits { FitsEntry (room - 1) (entry_of entry.tree) }
        ensures { Settled (left (an_atom room) (place.Entered line.0 (entry_of entry.tree))) (λ e. exp_of e.tree) self.old.lexemes self.new.lexemes result }
    {
        let clauses = self.clauses(room - 1)?;
        self.closed_entry(line, entry, clauses)
    }

    /// The closing brace behind the clauses of an entry.
    fn closed_entry(&mut self, line: Line, entry: Entry, clauses: Clauses) -> Result<Deep, Halt>
        requires entry { entry.depth ≤ 500 }
        requires clauses { clauses.depth ≤ 500 }
        requires some { clauses.items ≢ [] }
        ensures { (d : ℕ) → Fits d (S.dict_comprehension line.0 (entry_of entry.tree) (clauses_of (clauses_in clauses.items))) → Settled (left (an_atom d) (place.Closing (S.dict_comprehension line.0 (entry_of entry.tree) (clauses_of (clauses_in clauses.items))))) (λ e. exp_of e.tree) self.old.lexemes self.new.lexemes result }
    {
        if !self.lexemes.take(Sign::Mark(Mark::CloseBrace)) {
            return Err(Halt::Unexpected);
        }
        Ok(brace_nodes::dict_comprehension(self.alloc, line, entry, clauses)?)
    }

    /// What is left of a dictionary behind its first entry.
    #[cycle(reading)]
    fn dictionary(&mut self, line: Line, first: Entry, room: u32) -> Result<Deep, Halt>
        requires some { 1 < room }
        requires few { room ≤ 500 }
        requires fits { FitsEntry (room - 1) (entry_of first.tree) }
        ensures { Settled (left (an_atom room) (place.Entered line.0 (entry_of first.tree))) (λ e. exp_of e.tree) self.old.lexemes self.new.lexemes result }
    {
        if !self.lexemes.is(Sign::Word(Word::For)) {
            return self.more_of_dictionary(line, first, room);
        }
        self.entry_clauses(line, first, room)
    }

    /// What is left of a set behind its first item.
    #[cycle(reading)]
    fn members(&mut self, line: Line, first: Deep, room: u32) -> Result<Deep, Halt>
        requires some { 1 < room }
        requires few { room ≤ 500 }
        requires fits { Fits (room - 1) (exp_of first.tree) }
        requires stops { Stops (item_rank whole_part (exp_of first.tree)) (exp_of first.tree) (next_of self.old.lexemes) }
        ensures { Settled (left (an_atom room) (place.Members line.0 (exp_of first.tree))) (λ e. exp_of e.tree) self.old.lexemes self.new.lexemes result }
    {
        let items = Several::new(self.alloc).with(first)?;
        let listed = self.more_items(Part::Whole, items, room - 1)?;
        if !self.lexemes.take(Sign::Mark(Mark::CloseBrace)) {
            return Err(Halt::Unexpected);
        }
        Ok(brace_nodes::set(self.alloc, line, listed.items)?)
    }

    /// The clauses behind the item of a comprehension, and the closing brace.
    #[cycle(reading)]
    fn item_clauses(&mut self, line: Line, item: Deep, room: u32) -> Result<Deep, Halt>
        requires first { sign_at (next_of self.old.lexemes) ≡ Some (word_sign for_word) }
        requires some { 1 < room }
        requires few { room ≤ 500 }
        requires fits { Fits (room - 1) (exp_of item.tree) }
        ensures { Settled (left (an_atom room) (place.Opened line.0 (exp_of item.tree))) (λ e. exp_of e.tree) self.old.lexemes self.new.lexemes result }
    {
        let clauses = self.clauses(room - 1)?;
        if !self.lexemes.take(Sign::Mark(Mark::CloseBrace)) {
            return Err(Halt::Unexpected);
        }
        let form = Comprehension::Set;
        Ok(comprehension_nodes::comprehension(self.alloc, line, form, item, clauses)?)
    }

    /// What is left behind an expression, which is the first key or the first item.
    #[cycle(reading)]
    fn opened(&mut self, line: Line, first: Deep, room: u32) -> Result<Deep, Halt>
        requires some { 1 < room }
        requires few { room ≤ 500 }
        requires fits { Fits (room - 1) (exp_of first.tree) }
        requires stops { Stops 11 (exp_of first.tree) (next_of self.old.lexemes) }
        ensures { Settled (left (an_atom room) (place.Opened line.0 (exp_of first.tree))) (λ e. exp_of e.tree) self.old.lexemes self.new.lexemes result }
    {
        if self.lexemes.is(Sign::Word(Word::For)) {
            return self.item_clauses(line, first, room);
        }
        if !self.lexemes.take(Sign::Mark(Mark::Colon)) {
            return self.members(line, first, room);
        }
        let entry = self.pair(first, room - 1)?;
        self.dictionary(line, entry, room)
    }

    /// What stands between braces, where something does, and the closing one.
    #[cycle(reading)]
    fn content(&mut self, line: Line, room: u32) -> Result<Deep, Halt>
        requires some { 1 < room }
        requires few { room ≤ 500 }
        ensures { Settled (left (an_atom room) (place.Content line.0)) (λ e. exp_of e.tree) self.old.lexemes self.new.lexemes result }
    {
        let star = Sign::Operator(WideBinOp::Plain(BinOp::Mul));
        let double_star = Sign::Operator(WideBinOp::Plain(BinOp::Pow));
        if self.lexemes.is(double_star) {
            let first = self.entry(room - 1)?;
            return self.dictionary(line, first, room);
        }
        if self.lexemes.is(star) {
            let first = self.item(Part::Whole, room - 1)?;
            return self.members(line, first, room);
        }
        let first = self.expr(room - 1)?;
        self.opened(line, first, room)
    }

    /// `{ .. }`
    #[cycle(reading)]
    pub(crate) fn braces(&mut self, room: u32) -> Result<Deep, Halt>
        requires open { sign_at (next_of self.old.lexemes) ≡ Some (mark_sign open_brace) }
        requires some { 0 < room }
        requires few { room ≤ 500 }
        ensures { Settled (an_atom room) (λ e. exp_of e.tree) self.old.lexemes self.new.lexemes result }
    {
        let line = self.lexemes.line();
        self.lexemes.skip();
        if self.lexemes.take(Sign::Mark(Mark::CloseBrace)) {
            let none = Entries::new(self.alloc);
            return Ok(brace_nodes::dict(self.alloc, line, none)?);
        }
        if !self.begins_content() {
            return Err(Halt::Unexpected);
        }
        if room == 1 {
            return Err(Halt::Limit);
        }
        self.content(line, room)
    }
}
