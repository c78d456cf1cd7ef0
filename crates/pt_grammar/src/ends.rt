//! Which tokens may stand behind what is read (Language Reference 6).

ghost use Rattle.std.specs.Prelude.{◌≡◌};
ghost use Rattle.pt_readers.specs.Reading.{next_of};
ghost use Rattle.pt_grammar.specs.declared.sign.Sign.TheVariants.{Mark as mark_sign, Word as word_sign, Layout as layout_sign};
ghost use Rattle.pt_grammar.specs.declared.part.Part.TheVariants.{Target as target_part};
ghost use Rattle.pt_grammar.specs.Signs as end;

use crate::{Layout, Lexemes, Mark, Part, Sign, Word};

fn mark_ends(part: Part, mark: Mark) -> bool
    ensures { result ≡ end.ends_sign part (mark_sign mark) }
{
    match mark {
        Mark::Close => true,
        Mark::CloseBracket => true,
        Mark::CloseBrace => true,
        Mark::Colon => true,
        Mark::Semicolon => true,
        Mark::Assign => true,
        Mark::Exclamation => true,
        Mark::Open => false,
        Mark::OpenBracket => false,
        Mark::OpenBrace => false,
        Mark::Comma => false,
        Mark::Dot => false,
        Mark::Arrow => false,
        Mark::Tilde => false,
    }
}

fn word_ends_targets(word: Word) -> bool
    ensures { result ≡ end.ends_sign target_part (word_sign word) }
{
    match word {
        Word::In => true,
        Word::And => false,
        Word::Or => false,
        Word::Not => false,
        Word::Is => false,
        Word::If => false,
        Word::Else => false,
        Word::Lambda => false,
        Word::For => false,
        Word::Yield => false,
        Word::From => false,
    }
}

fn word_ends(part: Part, word: Word) -> bool
    ensures { result ≡ end.ends_sign part (word_sign word) }
{
    match part {
        Part::Whole => false,
        Part::Target => word_ends_targets(word),
    }
}

fn layout_ends(part: Part, layout: Layout) -> bool
    ensures { result ≡ end.ends_sign part (layout_sign layout) }
{
    match layout {
        Layout::Newline => true,
        Layout::Indent => false,
        Layout::Dedent => false,
        Layout::End => false,
        Layout::FStart => false,
        Layout::FEnd => false,
    }
}

fn sign_ends(part: Part, sign: Sign) -> bool
    ensures { result ≡ end.ends_sign part sign }
{
    match sign {
        Sign::Mark(mark) => mark_ends(part, mark),
        Sign::Word(word) => word_ends(part, word),
        Sign::Layout(layout) => layout_ends(part, layout),
        Sign::Augmented(_) => true,
        Sign::Operator(_) => false,
        Sign::Comparison(_) => false,
        Sign::Singleton(_) => false,
        Sign::Keyword(_) => false,
    }
}

impl<'a> Lexemes<'a> {
    /// Whether what is next may stand behind expressions or targets with commas between them.
    #[tactic(auto, using(crate::proofs::LexemeLemmas::ends_by_sign))]
    pub fn ends_items(&self, part: Part) -> bool
        ensures { result ≡ end.ends_items part (next_of self.now) }
    {
        match self.sign() {
            Some(sign) => sign_ends(part, sign),
            None => false,
        }
    }

    /// Whether what is next closes brackets.
    fn closes(&self) -> bool
        ensures { result ≡ end.ends_clauses (next_of self.now) }
    {
        self.is(Sign::Mark(Mark::Close))
            || self.is(Sign::Mark(Mark::CloseBracket))
            || self.is(Sign::Mark(Mark::CloseBrace))
    }

    /// Whether what is next may stand behind the clauses of a comprehension.
    pub fn ends_clauses(&self) -> bool
        ensures { result ≡ end.ends_clauses (next_of self.now) }
    {
        self.closes()
    }

    /// Whether what is next may stand behind a clause of a comprehension.
    pub fn ends_clause(&self) -> bool
        ensures { result ≡ end.ends_clause (next_of self.now) }
    {
        self.closes() || self.is(Sign::Word(Word::For))
    }

    /// Whether what is next may stand behind an argument.
    pub fn ends_argument(&self) -> bool
        ensures { result ≡ end.ends_argument (next_of self.now) }
    {
        self.is(Sign::Mark(Mark::Comma)) || self.is(Sign::Mark(Mark::Close))
    }

    /// Whether what is next closes the parameters of a lambda, or of a function that may have annotations.
    pub fn ends_parameters(&self, annotated: bool) -> bool
        ensures { result ≡ end.ends_parameters annotated (next_of self.now) }
    {
        if annotated {
            return self.is(Sign::Mark(Mark::Close));
        }
        self.is(Sign::Mark(Mark::Colon))
    }

    /// Whether what is next may stand behind one of them.
    pub fn ends_parameter(&self, annotated: bool) -> bool
        ensures { result ≡ end.ends_parameter annotated (next_of self.now) }
    {
        self.is(Sign::Mark(Mark::Comma)) || self.ends_parameters(annotated)
    }

    /// Whether what is next may stand behind an entry of a dictionary.
    pub fn ends_entry(&self) -> bool
        ensures { result ≡ end.ends_entry (next_of self.now) }
    {
        self.is(Sign::Mark(Mark::Comma))
            || self.is(Sign::Mark(Mark::CloseBrace))
            || self.is(Sign::Word(Word::For))
    }

    /// Whether what is next may stand behind the text and the fields of an f-string or of a format.
    pub fn ends_formatted(&self) -> bool
        ensures { result ≡ end.ends_formatted (next_of self.now) }
    {
        self.is(Sign::Mark(Mark::CloseBrace)) || self.is(Sign::Layout(Layout::FEnd))
    }
}
