ghost use Rattle.std.specs.Prelude.{◌≡◌, ◌↔◌, IsTrue};

use pt_base::{BinOp, CompareOp};
use pt_wide::WideBinOp;

/// A token that is told by its kind alone: a keyword, an operator, a delimiter, a bound of an
/// f-string, or one that lays out the lines (Language Reference 2.1, 2.3.1, 2.5, 2.6).
#[derive(Clone, Copy, Debug, PartialEq, Eq)]
pub enum Sign {
    /// An operator between two values (Language Reference 6.5, 6.7 to 6.9).
    Operator(WideBinOp),
    /// A comparison that is no word (Language Reference 6.10).
    Comparison(CompareOp),
    /// `+=` and the like (Language Reference 7.2.1).
    Augmented(BinOp),
    Singleton(Singleton),
    Mark(Mark),
    Word(Word),
    Keyword(Keyword),
    Layout(Layout),
}

impl Sign {
    /// Whether it is this sign.
    pub fn same(self, other: Sign) -> bool
        ensures { IsTrue result ↔ (self ≡ other) }
    {
        self == other
    }
}

/// A constant that is a word or a sign of its own (Library Reference, "Built-in Constants").
#[derive(Clone, Copy, Debug, PartialEq, Eq)]
pub enum Singleton {
    None,
    True,
    False,
    Ellipsis,
}

/// A delimiter (Language Reference 2.6), or the `~` of Language Reference 6.6.
#[derive(Clone, Copy, Debug, PartialEq, Eq)]
pub enum Mark {
    Open,
    Close,
    OpenBracket,
    CloseBracket,
    OpenBrace,
    CloseBrace,
    Comma,
    Colon,
    Semicolon,
    Dot,
    Assign,
    Arrow,
    Exclamation,
    Tilde,
}

/// A keyword of expressions (Language Reference 6).
#[derive(Clone, Copy, Debug, PartialEq, Eq)]
pub enum Word {
    And,
    Or,
    Not,
    In,
    Is,
    If,
    Else,
    Lambda,
    For,
    Yield,
    From,
}

/// A keyword of statements alone (Language Reference 7, 8).
#[derive(Clone, Copy, Debug, PartialEq, Eq)]
pub enum Keyword {
    As,
    Assert,
    Break,
    Class,
    Continue,
    Def,
    Del,
    Elif,
    Except,
    Finally,
    Global,
    Import,
    Nonlocal,
    Pass,
    Raise,
    Return,
    Try,
    While,
    With,
}

/// What bounds a line, a block, the text or an f-string (Language Reference 2.1, 2.4.3).
#[derive(Clone, Copy, Debug, PartialEq, Eq)]
pub enum Layout {
    Newline,
    Indent,
    Dedent,
    End,
    FStart,
    FEnd,
}

/// How signs are spelled (Language Reference 2.3.1, 2.5, 2.6).
pub const SIGNS: [(&str, Sign); 79] = [
    ("(", Sign::Mark(Mark::Open)),
    (")", Sign::Mark(Mark::Close)),
    (",", Sign::Mark(Mark::Comma)),
    (".", Sign::Mark(Mark::Dot)),
    ("=", Sign::Mark(Mark::Assign)),
    (":", Sign::Mark(Mark::Colon)),
    ("[", Sign::Mark(Mark::OpenBracket)),
    ("]", Sign::Mark(Mark::CloseBracket)),
    ("{", Sign::Mark(Mark::OpenBrace)),
    ("}", Sign::Mark(Mark::CloseBrace)),
    ("+", Sign::Operator(WideBinOp::Plain(BinOp::Add))),
    ("-", Sign::Operator(WideBinOp::Plain(BinOp::Sub))),
    ("*", Sign::Operator(WideBinOp::Plain(BinOp::Mul))),
    ("/", Sign::Operator(WideBinOp::Plain(BinOp::Div))),
    ("//", Sign::Operator(WideBinOp::Plain(BinOp::FloorDiv))),
    ("%", Sign::Operator(WideBinOp::Plain(BinOp::Mod))),
    ("**", Sign::Operator(WideBinOp::Plain(BinOp::Pow))),
    ("&", Sign::Operator(WideBinOp::Plain(BinOp::BitAnd))),
    ("|", Sign::Operator(WideBinOp::Plain(BinOp::BitOr))),
    ("^", Sign::Operator(WideBinOp::Plain(BinOp::BitXor))),
    ("<<", Sign::Operator(WideBinOp::Plain(BinOp::LeftShift))),
    (">>", Sign::Operator(WideBinOp::Plain(BinOp::RightShift))),
    ("@", Sign::Operator(WideBinOp::MatMul)),
    ("~", Sign::Mark(Mark::Tilde)),
    ("==", Sign::Comparison(CompareOp::Equal)),
    ("!=", Sign::Comparison(CompareOp::NotEqual)),
    ("<", Sign::Comparison(CompareOp::Less)),
    ("<=", Sign::Comparison(CompareOp::LessEqual)),
    (">", Sign::Comparison(CompareOp::Greater)),
    (">=", Sign::Comparison(CompareOp::GreaterEqual)),
    ("if", Sign::Word(Word::If)),
    ("else", Sign::Word(Word::Else)),
    ("for", Sign::Word(Word::For)),
    ("in", Sign::Word(Word::In)),
    ("is", Sign::Word(Word::Is)),
    ("not", Sign::Word(Word::Not)),
    ("and", Sign::Word(Word::And)),
    ("or", Sign::Word(Word::Or)),
    ("lambda", Sign::Word(Word::Lambda)),
    ("yield", Sign::Word(Word::Yield)),
    ("from", Sign::Word(Word::From)),
    ("None", Sign::Singleton(Singleton::None)),
    ("True", Sign::Singleton(Singleton::True)),
    ("False", Sign::Singleton(Singleton::False)),
    ("...", Sign::Singleton(Singleton::Ellipsis)),
    ("return", Sign::Keyword(Keyword::Return)),
    ("def", Sign::Keyword(Keyword::Def)),
    ("class", Sign::Keyword(Keyword::Class)),
    ("pass", Sign::Keyword(Keyword::Pass)),
    ("elif", Sign::Keyword(Keyword::Elif)),
    ("while", Sign::Keyword(Keyword::While)),
    ("break", Sign::Keyword(Keyword::Break)),
    ("continue", Sign::Keyword(Keyword::Continue)),
    ("import", Sign::Keyword(Keyword::Import)),
    ("as", Sign::Keyword(Keyword::As)),
    ("try", Sign::Keyword(Keyword::Try)),
    ("except", Sign::Keyword(Keyword::Except)),
    ("finally", Sign::Keyword(Keyword::Finally)),
    ("raise", Sign::Keyword(Keyword::Raise)),
    ("with", Sign::Keyword(Keyword::With)),
    ("assert", Sign::Keyword(Keyword::Assert)),
    ("del", Sign::Keyword(Keyword::Del)),
    ("global", Sign::Keyword(Keyword::Global)),
    ("nonlocal", Sign::Keyword(Keyword::Nonlocal)),
    (";", Sign::Mark(Mark::Semicolon)),
    ("->", Sign::Mark(Mark::Arrow)),
    ("!", Sign::Mark(Mark::Exclamation)),
    ("+=", Sign::Augmented(BinOp::Add)),
    ("-=", Sign::Augmented(BinOp::Sub)),
    ("*=", Sign::Augmented(BinOp::Mul)),
    ("/=", Sign::Augmented(BinOp::Div)),
    ("//=", Sign::Augmented(BinOp::FloorDiv)),
    ("%=", Sign::Augmented(BinOp::Mod)),
    ("**=", Sign::Augmented(BinOp::Pow)),
    ("&=", Sign::Augmented(BinOp::BitAnd)),
    ("|=", Sign::Augmented(BinOp::BitOr)),
    ("^=", Sign::Augmented(BinOp::BitXor)),
    ("<<=", Sign::Augmented(BinOp::LeftShift)),
    (">>=", Sign::Augmented(BinOp::RightShift)),
];
