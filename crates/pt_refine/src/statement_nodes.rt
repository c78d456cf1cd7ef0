//! Statements of the language, made of their parts (Language Reference 8).

ghost use Rattle.std.specs.Prelude.{◌≡◌};
ghost use Rattle.pt_tree.specs.Fold.{exp_of, opt_exp, parameters_of, target_of};
ghost use Rattle.pt_tree.specs.StatementFold.{decorators_of, stm_of, stms_of};
ghost use Rattle.pt_tree.specs.Syntax as P;

use pt_base::{BlockId, Boxed, Line, Seq, Text};
use pt_tree::{Decorator, Expr, Parameters, Stmt, StmtNode, Target};

pub fn while_of(line: Line, test: Boxed<Expr>, body: Seq<Stmt>, otherwise: Seq<Stmt>) -> Stmt
    ensures { stm_of result ≡ P.while line.0 (exp_of test) (stms_of body) (stms_of otherwise) }
{
    Stmt {
        line,
        node: StmtNode::While {
            test: test.into_inner(),
            body,
            otherwise,
        },
    }
}

pub fn for_of(
    line: Line,
    target: Boxed<Target>,
    iterable: Boxed<Expr>,
    body: Seq<Stmt>,
    otherwise: Seq<Stmt>,
) -> Stmt
    ensures { stm_of result ≡ P.for line.0 (target_of target) (exp_of iterable) (stms_of body) (stms_of otherwise) }
{
    Stmt {
        line,
        node: StmtNode::For {
            target: target.into_inner(),
            iterable: iterable.into_inner(),
            body,
            otherwise,
        },
    }
}

/// A function on a line, whose `def` is on another if it has decorators.
pub fn def_of(
    line: Line,
    decorators: Seq<Decorator>,
    at: Line,
    block: BlockId,
    name: Text,
    parameters: Boxed<Parameters>,
    returns: Boxed<Option<Expr>>,
    body: Seq<Stmt>,
) -> Stmt
    ensures { stm_of result ≡ P.def line.0 (decorators_of decorators) at.0 block.0 name (parameters_of parameters) (opt_exp returns) (stms_of body) }
{
    Stmt {
        line,
        node: StmtNode::Def {
            decorators,
            line: at,
            block,
            name,
            parameters: parameters.into_inner(),
            returns: returns.into_inner(),
            body,
        },
    }
}
