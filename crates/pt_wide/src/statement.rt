use crate::{WideArgument, WideExpr, WideParameters};
use pt_base::{BinOp, Line, Seq, Text};
use pt_tree::Alias;

/// A script of the wide grammar: the statements of its module (Language Reference 9.2).
#[derive(Drop)]
pub struct WideScript {
    pub body: Seq<WideStmt>,
}

/// A statement, and the line on which it starts: that of its first decorator, if it has one
/// (Language Reference 7, 8).
#[cycle(wide_statement)]
pub struct WideStmt {
    pub line: Line,
    pub node: WideStmtNode,
}

impl Drop for WideStmt {
    #[cycle(wide_statement)]
    fn drop(self) {
        let Self { line: _, node: _ } = self;
    }
}

#[derive(Drop)]
#[cycle(wide_statement)]
pub enum WideStmtNode {
    /// `targets = value`; with no `=` an expression whose value is dropped (Language Reference 7.1, 7.2).
    Assign {
        targets: Seq<WideExpr>,
        value: WideExpr,
    },
    /// `target += value` and the like (Language Reference 7.2.1).
    Augmented {
        target: WideExpr,
        operator: BinOp,
        value: WideExpr,
    },
    /// `target: annotation = value` (Language Reference 7.2.2).
    Annotated {
        target: WideExpr,
        annotation: WideExpr,
        value: Option<WideExpr>,
    },
    /// Language Reference 7.3.
    Assert {
        test: WideExpr,
        message: Option<WideExpr>,
    },
    /// Language Reference 7.4.
    Pass,
    /// Language Reference 7.5.
    Del(Seq<WideExpr>),
    /// Language Reference 7.6.
    Return(Option<WideExpr>),
    /// `raise exception from cause` (Language Reference 7.8).
    Raise {
        exception: WideExpr,
        cause: Option<WideExpr>,
    },
    /// `raise` alone (Language Reference 7.8).
    RaiseAgain,
    /// Language Reference 7.9.
    Break,
    /// Language Reference 7.10.
    Continue,
    /// Language Reference 7.11.
    Import(Seq<Alias>),
    /// `from origin import names` (Language Reference 7.11).
    ImportFrom {
        /// How many dots stand before the origin.
        dots: u32,
        origin: Text,
        /// `None` is `*`.
        names: Option<Seq<Alias>>,
    },
    /// Language Reference 7.12.
    Global(Seq<Text>),
    /// Language Reference 7.13.
    Nonlocal(Seq<Text>),
    /// `if`, each `elif`, and `else` (Language Reference 8.1).
    If {
        branches: Seq<WideBranch>,
        otherwise: Seq<WideStmt>,
    },
    /// Language Reference 8.2.
    While {
        test: WideExpr,
        body: Seq<WideStmt>,
        otherwise: Seq<WideStmt>,
    },
    /// Language Reference 8.3.
    For {
        target: WideExpr,
        iterable: WideExpr,
        body: Seq<WideStmt>,
        otherwise: Seq<WideStmt>,
    },
    /// A part that isn't written has no statements (Language Reference 8.4).
    Try {
        body: Seq<WideStmt>,
        handlers: Seq<WideHandler>,
        otherwise: Seq<WideStmt>,
        finally: Seq<WideStmt>,
    },
    /// Language Reference 8.5.
    With {
        items: Seq<WideItem>,
        body: Seq<WideStmt>,
    },
    /// A function, and the line of its `def` (Language Reference 8.7).
    Def {
        decorators: Seq<WideDecorator>,
        line: Line,
        name: Text,
        parameters: WideParameters,
        returns: Option<WideExpr>,
        body: Seq<WideStmt>,
    },
    /// A class, and the line of its `class` (Language Reference 8.8).
    Class {
        decorators: Seq<WideDecorator>,
        line: Line,
        name: Text,
        arguments: Seq<WideArgument>,
        /// Whether a comma stands before the `)` behind the arguments.
        trailing_comma: bool,
        body: Seq<WideStmt>,
    },
}

/// `if` or `elif`, and the line of that word (Language Reference 8.1).
#[derive(Drop)]
#[cycle(wide_statement)]
pub struct WideBranch {
    pub line: Line,
    pub test: WideExpr,
    pub body: Seq<WideStmt>,
}

/// `except class as name`, and the line of its `except`; `None` where nothing is written
/// (Language Reference 8.4.1, 8.4.2).
#[derive(Drop)]
#[cycle(wide_statement)]
pub struct WideHandler {
    pub line: Line,
    /// Whether a `*` follows `except`.
    pub star: bool,
    pub class: Option<WideExpr>,
    pub name: Option<Text>,
    pub body: Seq<WideStmt>,
}

/// `context as target` of a `with`, and the line on which it starts (Language Reference 8.5).
#[derive(Drop)]
pub struct WideItem {
    pub line: Line,
    pub context: WideExpr,
    pub target: Option<WideExpr>,
}

/// `@value`, and the line on which it stands (Language Reference 8.7, 8.8).
#[derive(Drop)]
pub struct WideDecorator {
    pub line: Line,
    pub value: WideExpr,
}
