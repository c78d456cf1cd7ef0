//! The signs of statements (Language Reference 2.3.1, 2.5, 2.6).

use pt_base::BinOp;
use pt_grammar::{Keyword, Layout, Mark, Sign, Singleton, Word};
use pt_wide::WideBinOp;

pub(crate) const COMMA: Sign = Sign::Mark(Mark::Comma);

pub(crate) const SEMICOLON: Sign = Sign::Mark(Mark::Semicolon);

pub(crate) const ASSIGN: Sign = Sign::Mark(Mark::Assign);

pub(crate) const COLON: Sign = Sign::Mark(Mark::Colon);

pub(crate) const OPEN: Sign = Sign::Mark(Mark::Open);

pub(crate) const CLOSE: Sign = Sign::Mark(Mark::Close);

pub(crate) const DOT: Sign = Sign::Mark(Mark::Dot);

pub(crate) const DOTS: Sign = Sign::Singleton(Singleton::Ellipsis);

pub(crate) const STAR: Sign = Sign::Operator(WideBinOp::Plain(BinOp::Mul));

pub(crate) const FROM: Sign = Sign::Word(Word::From);

pub(crate) const AS: Sign = Sign::Keyword(Keyword::As);

pub(crate) const IMPORT: Sign = Sign::Keyword(Keyword::Import);

pub(crate) const NEWLINE: Sign = Sign::Layout(Layout::Newline);

pub(crate) const INDENT: Sign = Sign::Layout(Layout::Indent);

pub(crate) const DEDENT: Sign = Sign::Layout(Layout::Dedent);

pub(crate) const END: Sign = Sign::Layout(Layout::End);

pub(crate) const YIELD: Sign = Sign::Word(Word::Yield);

pub(crate) const IF: Sign = Sign::Word(Word::If);

pub(crate) const ELSE: Sign = Sign::Word(Word::Else);

pub(crate) const FOR: Sign = Sign::Word(Word::For);

pub(crate) const IN: Sign = Sign::Word(Word::In);

pub(crate) const ELIF: Sign = Sign::Keyword(Keyword::Elif);

pub(crate) const WHILE: Sign = Sign::Keyword(Keyword::While);

pub(crate) const TRY: Sign = Sign::Keyword(Keyword::Try);

pub(crate) const EXCEPT: Sign = Sign::Keyword(Keyword::Except);

pub(crate) const FINALLY: Sign = Sign::Keyword(Keyword::Finally);

pub(crate) const WITH: Sign = Sign::Keyword(Keyword::With);

pub(crate) const DEF: Sign = Sign::Keyword(Keyword::Def);

pub(crate) const CLASS: Sign = Sign::Keyword(Keyword::Class);

pub(crate) const AT: Sign = Sign::Operator(WideBinOp::MatMul);

pub(crate) const ARROW: Sign = Sign::Mark(Mark::Arrow);
