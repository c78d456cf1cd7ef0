use crate::no_row::NoRow;
use pt_base::{BinOp, CompareOp, UnOp};
use pt_content::{Function, Op};

/// Binary operators by their signs.
pub const BINARY: [(&str, BinOp); 12] = [
    ("+", BinOp::Add),
    ("-", BinOp::Sub),
    ("*", BinOp::Mul),
    ("/", BinOp::Div),
    ("//", BinOp::FloorDiv),
    ("%", BinOp::Mod),
    ("**", BinOp::Pow),
    ("&", BinOp::BitAnd),
    ("|", BinOp::BitOr),
    ("^", BinOp::BitXor),
    ("<<", BinOp::LeftShift),
    (">>", BinOp::RightShift),
];

/// Comparisons by their signs, `_` for a blank.
pub const COMPARISONS: [(&str, CompareOp); 10] = [
    ("<", CompareOp::Less),
    ("<=", CompareOp::LessEqual),
    (">", CompareOp::Greater),
    (">=", CompareOp::GreaterEqual),
    ("==", CompareOp::Equal),
    ("!=", CompareOp::NotEqual),
    ("in", CompareOp::In),
    ("not_in", CompareOp::NotIn),
    ("is", CompareOp::Is),
    ("is_not", CompareOp::IsNot),
];

/// Builtin functions and classes by their names.
const FUNCTIONS: [(&str, Function); 20] = [
    ("print", Function::Print),
    ("len", Function::Len),
    ("repr", Function::Repr),
    ("isinstance", Function::Isinstance),
    ("issubclass", Function::Issubclass),
    ("iter", Function::Iter),
    ("next", Function::Next),
    ("abs", Function::Abs),
    ("divmod", Function::Divmod),
    ("ord", Function::Ord),
    ("chr", Function::Chr),
    ("hasattr", Function::Hasattr),
    ("getattr", Function::Getattr),
    ("callable", Function::Callable),
    ("object", Function::Object),
    ("type", Function::Type),
    ("int", Function::Int),
    ("bool", Function::Bool),
    ("str", Function::Str),
    ("range", Function::Range),
];

/// What stands behind a word in a table.
fn behind<T: Copy>(rows: &[(&str, T)], word: &str) -> Result<T, NoRow> {
    for row in rows {
        if row.0 == word {
            return Ok(row.1);
        }
    }
    Err(NoRow)
}

fn unary_of(sign: &str) -> Result<UnOp, NoRow> {
    match sign {
        "+" => Ok(UnOp::Plus),
        "-" => Ok(UnOp::Minus),
        "~" => Ok(UnOp::Invert),
        _ => Err(NoRow),
    }
}

/// The operation that a whole word names.
fn named(word: &str) -> Option<Op> {
    match word {
        "truth" => Some(Op::Truth),
        "not" => Some(Op::Not),
        "tuple" => Some(Op::Tuple),
        "list" => Some(Op::List),
        "item" => Some(Op::Item),
        "iter" => Some(Op::Iter),
        "next" => Some(Op::Next),
        _ => None,
    }
}

/// The operation that a word names by what it begins with.
fn begun(word: &str) -> Result<Op, NoRow> {
    if let Some(name) = word.strip_prefix("call_") {
        return Ok(Op::Call(behind(&FUNCTIONS, name)?));
    }
    if let Some(count) = word.strip_prefix("unpack") {
        return match count.parse::<u32>() {
            Ok(count) => Ok(Op::Unpack { count }),
            Err(_) => Err(NoRow),
        };
    }
    match word.split_at_checked(1) {
        Some(("u", sign)) => Ok(Op::Unary(unary_of(sign)?)),
        Some(("b", sign)) => Ok(Op::Binary(behind(&BINARY, sign)?)),
        Some(("i", sign)) => Ok(Op::InPlace(behind(&BINARY, sign)?)),
        Some(("c", sign)) => Ok(Op::Compare(behind(&COMPARISONS, sign)?)),
        _ => Err(NoRow),
    }
}

/// The operation that a word names.
pub fn operation_of(word: &str) -> Result<Op, NoRow> {
    match named(word) {
        Some(op) => Ok(op),
        None => begun(word),
    }
}
