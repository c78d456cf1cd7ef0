//! What signs do between and before values (Language Reference 6.16).

ghost use Rattle.std.specs.Prelude.{◌≡◌, ◌↔◌, IsTrue};
ghost use Rattle.pt_wide.specs.declared.expression.WideBinOp.TheVariants.{Plain as plain};
ghost use Rattle.pt_grammar.specs.declared.sign.Sign.TheVariants.{Operator as operator_sign, Mark as mark_sign, Word as word_sign, Layout as layout_sign};
ghost use Rattle.pt_grammar.specs.declared.part.Part.TheVariants.{Whole as whole_part};
ghost use Rattle.pt_grammar.specs.Signs.{rank_of as rank_of_operator, rank_of_sign, unary_of as unary_of_sign, begins_sign as begins_by_sign};

use crate::{Layout, Mark, Part, Sign, Word};
use pt_base::{BinOp, UnOp};
use pt_wide::WideBinOp;

fn rank_of_plain(operator: BinOp) -> u8
    ensures { result ≡ rank_of_operator (plain operator) }
{
    match operator {
        BinOp::Pow => 1,
        BinOp::Mul => 2,
        BinOp::Div => 2,
        BinOp::FloorDiv => 2,
        BinOp::Mod => 2,
        BinOp::Add => 3,
        BinOp::Sub => 3,
        BinOp::LeftShift => 4,
        BinOp::RightShift => 4,
        BinOp::BitAnd => 5,
        BinOp::BitXor => 6,
        BinOp::BitOr => 7,
    }
}

/// How loosely an operator binds.
pub fn rank_of(operator: WideBinOp) -> u8
    ensures { result ≡ rank_of_operator operator }
{
    match operator {
        WideBinOp::Plain(operator) => rank_of_plain(operator),
        WideBinOp::MatMul => 2,
    }
}

fn unary_of_plain(operator: BinOp) -> Option<UnOp>
    ensures { result ≡ unary_of_sign (operator_sign (plain operator)) }
{
    match operator {
        BinOp::Add => Some(UnOp::Plus),
        BinOp::Sub => Some(UnOp::Minus),
        BinOp::Pow => None,
        BinOp::Mul => None,
        BinOp::Div => None,
        BinOp::FloorDiv => None,
        BinOp::Mod => None,
        BinOp::LeftShift => None,
        BinOp::RightShift => None,
        BinOp::BitAnd => None,
        BinOp::BitXor => None,
        BinOp::BitOr => None,
    }
}

fn unary_of_operator(operator: WideBinOp) -> Option<UnOp>
    ensures { result ≡ unary_of_sign (operator_sign operator) }
{
    match operator {
        WideBinOp::Plain(operator) => unary_of_plain(operator),
        WideBinOp::MatMul => None,
    }
}

fn unary_of_mark(mark: Mark) -> Option<UnOp>
    ensures { result ≡ unary_of_sign (mark_sign mark) }
{
    match mark {
        Mark::Tilde => Some(UnOp::Invert),
        Mark::Open => None,
        Mark::Close => None,
        Mark::OpenBracket => None,
        Mark::CloseBracket => None,
        Mark::OpenBrace => None,
        Mark::CloseBrace => None,
        Mark::Comma => None,
        Mark::Colon => None,
        Mark::Semicolon => None,
        Mark::Dot => None,
        Mark::Assign => None,
        Mark::Arrow => None,
        Mark::Exclamation => None,
    }
}

/// What a sign does before a value.
pub fn unary_of(sign: Sign) -> Option<UnOp>
    ensures { result ≡ unary_of_sign sign }
{
    match sign {
        Sign::Operator(operator) => unary_of_operator(operator),
        Sign::Mark(mark) => unary_of_mark(mark),
        Sign::Comparison(_) => None,
        Sign::Augmented(_) => None,
        Sign::Singleton(_) => None,
        Sign::Word(_) => None,
        Sign::Keyword(_) => None,
        Sign::Layout(_) => None,
    }
}

fn is_comparing_word(word: Word) -> bool
    ensures { IsTrue result ↔ (rank_of_sign (word_sign word) ≡ 8) }
{
    match word {
        Word::In => true,
        Word::Is => true,
        Word::Not => true,
        Word::And => false,
        Word::Or => false,
        Word::If => false,
        Word::Else => false,
        Word::Lambda => false,
        Word::For => false,
        Word::Yield => false,
        Word::From => false,
    }
}

/// Whether a comparison's operator begins so.
#[tactic(auto, using(crate::proofs::OperatorRanks::rank_small, crate::proofs::OperatorRanks::mark_rank))]
pub fn compares(sign: Sign) -> bool
    ensures { IsTrue result ↔ (rank_of_sign sign ≡ 8) }
{
    match sign {
        Sign::Comparison(_) => true,
        Sign::Word(word) => is_comparing_word(word),
        Sign::Operator(_) => false,
        Sign::Augmented(_) => false,
        Sign::Singleton(_) => false,
        Sign::Mark(_) => false,
        Sign::Keyword(_) => false,
        Sign::Layout(_) => false,
    }
}

fn begins_plain(part: Part, operator: BinOp) -> bool
    ensures { result ≡ begins_by_sign part (operator_sign (plain operator)) }
{
    match operator {
        BinOp::Add => true,
        BinOp::Sub => true,
        BinOp::Mul => true,
        BinOp::Pow => false,
        BinOp::Div => false,
        BinOp::FloorDiv => false,
        BinOp::Mod => false,
        BinOp::LeftShift => false,
        BinOp::RightShift => false,
        BinOp::BitAnd => false,
        BinOp::BitXor => false,
        BinOp::BitOr => false,
    }
}

fn begins_operator(part: Part, operator: WideBinOp) -> bool
    ensures { result ≡ begins_by_sign part (operator_sign operator) }
{
    match operator {
        WideBinOp::Plain(operator) => begins_plain(part, operator),
        WideBinOp::MatMul => false,
    }
}

fn begins_mark(part: Part, mark: Mark) -> bool
    ensures { result ≡ begins_by_sign part (mark_sign mark) }
{
    match mark {
        Mark::Tilde => true,
        Mark::Open => true,
        Mark::OpenBracket => true,
        Mark::OpenBrace => true,
        Mark::Close => false,
        Mark::CloseBracket => false,
        Mark::CloseBrace => false,
        Mark::Comma => false,
        Mark::Colon => false,
        Mark::Semicolon => false,
        Mark::Dot => false,
        Mark::Assign => false,
        Mark::Arrow => false,
        Mark::Exclamation => false,
    }
}

fn begins_expression(word: Word) -> bool
    ensures { result ≡ begins_by_sign whole_part (word_sign word) }
{
    match word {
        Word::Not => true,
        Word::Lambda => true,
        Word::In => false,
        Word::Is => false,
        Word::And => false,
        Word::Or => false,
        Word::If => false,
        Word::Else => false,
        Word::For => false,
        Word::Yield => false,
        Word::From => false,
    }
}

fn begins_word(part: Part, word: Word) -> bool
    ensures { result ≡ begins_by_sign part (word_sign word) }
{
    match part {
        Part::Whole => begins_expression(word),
        Part::Target => false,
    }
}

fn begins_layout(part: Part, layout: Layout) -> bool
    ensures { result ≡ begins_by_sign part (layout_sign layout) }
{
    match layout {
        Layout::FStart => true,
        Layout::Newline => false,
        Layout::Indent => false,
        Layout::Dedent => false,
        Layout::End => false,
        Layout::FEnd => false,
    }
}

/// Whether an item of a display or of targets begins so.
pub fn begins_sign(part: Part, sign: Sign) -> bool
    ensures { result ≡ begins_by_sign part sign }
{
    match sign {
        Sign::Singleton(_) => true,
        Sign::Operator(operator) => begins_operator(part, operator),
        Sign::Mark(mark) => begins_mark(part, mark),
        Sign::Word(word) => begins_word(part, word),
        Sign::Comparison(_) => false,
        Sign::Augmented(_) => false,
        Sign::Layout(layout) => begins_layout(part, layout),
        Sign::Keyword(_) => false,
    }
}
