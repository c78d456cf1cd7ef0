use crate::{Expr, Parameters, Place, Target};
use pt_base::{BinOp, BlockId, Line, Seq, Text};

/// A script: the statements of its module (Language Reference 9.2).
#[derive(Drop)]
pub struct Script {
    pub body: Seq<Stmt>,
}

/// A statement, and the line on which it starts: that of its first decorator, if it has one
/// (Language Reference 7, 8).
#[cycle(stmt)]
pub struct Stmt {
    pub line: Line,
    pub node: StmtNode,
}

impl Drop for Stmt {
    #[cycle(stmt)]
    fn drop(self) {
        let Self { line: _, node: _ } = self;
    }
}

#[derive(Drop)]
#[cycle(stmt)]
pub enum StmtNode {
    /// An expression whose value is dropped (Language Reference 7.1).
    Expr(Expr),
    /// `targets = value`, with one `=` at least (Language Reference 7.2).
    Assign {
        targets: Seq<Target>,
        value: Expr,
    },
    /// `target += value` and the like (Language Reference 7.2.1).
    Augmented {
        target: Place,
        operator: BinOp,
        value: Expr,
    },
    /// `target: annotation = value` (Language Reference 7.2.2).
    Annotated {
        target: Place,
        annotation: Expr,
        value: Option<Expr>,
    },
    /// Language Reference 7.3.
    Assert {
        test: Expr,
        message: Option<Expr>,
    },
    /// Language Reference 7.4.
    Pass,
    /// Language Reference 7.5.
    Del(Seq<Target>),
    /// Language Reference 7.6.
    Return(Option<Expr>),
    /// `raise exception from cause` (Language Reference 7.8).
    Raise {
        exception: Expr,
        cause: Option<Expr>,
    },
    /// `raise` alone (Language Reference 7.8).
    RaiseAgain,
    /// Language Reference 7.9.
    Break,
    /// Language Reference 7.10.
    Continue,
    /// Language Reference 7.11.
    Import(Seq<Alias>),
    /// `from origin import names` (Language Reference 7.11).
    ImportFrom {
        origin: Text,
        names: Seq<Alias>,
    },
    /// Language Reference 7.12.
    Global(Seq<Text>),
    /// Language Reference 7.13.
    Nonlocal(Seq<Text>),
    /// `if`, each `elif`, and `else` (Language Reference 8.1).
    If {
        branches: Seq<Branch>,
        otherwise: Seq<Stmt>,
    },
    /// Language Reference 8.2.
    While {
        test: Expr,
        body: Seq<Stmt>,
        otherwise: Seq<Stmt>,
    },
    /// Language Reference 8.3.
    For {
        target: Target,
        iterable: Expr,
        body: Seq<Stmt>,
        otherwise: Seq<Stmt>,
    },
    /// A part that isn't written has no statements (Language Reference 8.4).
    Try {
        body: Seq<Stmt>,
        handlers: Seq<Handler>,
        otherwise: Seq<Stmt>,
        finally: Seq<Stmt>,
    },
    /// Language Reference 8.5.
    With {
        items: Seq<WithItem>,
        body: Seq<Stmt>,
    },
    /// A function, the line of its `def` and the number of its block (Language Reference 8.7).
    Def {
        decorators: Seq<Decorator>,
        line: Line,
        block: BlockId,
        name: Text,
        parameters: Parameters,
        returns: Option<Expr>,
        body: Seq<Stmt>,
    },
    /// A class, the line of its `class` and the number of its block (Language Reference 8.8).
    Class {
        decorators: Seq<Decorator>,
        line: Line,
        block: BlockId,
        name: Text,
        base: Option<Expr>,
        body: Seq<Stmt>,
    },
}

/// `name as alias` of an import (Language Reference 7.11).
#[derive(Drop)]
pub struct Alias {
    pub name: Text,
    pub alias: Option<Text>,
}

/// `if` or `elif`, and the line of that word (Language Reference 8.1).
#[derive(Drop)]
#[cycle(stmt)]
pub struct Branch {
    pub line: Line,
    pub test: Expr,
    pub body: Seq<Stmt>,
}

/// `except class as name`, and the line of its `except`; `None` where nothing is written
/// (Language Reference 8.4.1).
#[derive(Drop)]
#[cycle(stmt)]
pub struct Handler {
    pub line: Line,
    pub class: Option<Expr>,
    pub name: Option<Text>,
    pub body: Seq<Stmt>,
}

/// `context as target` of a `with`, and the line on which it starts (Language Reference 8.5).
#[derive(Drop)]
pub struct WithItem {
    pub line: Line,
    pub context: Expr,
    pub target: Option<Target>,
}

/// `@value`, and the line on which it stands (Language Reference 8.7, 8.8).
#[derive(Drop)]
pub struct Decorator {
    pub line: Line,
    pub value: Expr,
}
