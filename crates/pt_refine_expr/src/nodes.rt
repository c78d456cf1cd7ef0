//! Expressions of the language, made of their parts (Language Reference 6).

ghost use Rattle.std.specs.Prelude.{◌≡◌};
ghost use Rattle.pt_refine_expr.specs.Narrowed.{args_of};
ghost use Rattle.pt_tree.specs.Fold.{exp_of, parameters_of};
ghost use Rattle.pt_tree.specs.Syntax as P;

use pt_base::{BinOp, BlockId, Boxed, Line, Seq, Text, UnOp};
use pt_tree::{Argument, Expr, ExprNode, Parameters};

/// `object.name`
pub fn attribute_of(line: Line, object: Boxed<Expr>, name: Text) -> Expr
    ensures { exp_of result ≡ P.attribute line.0 (exp_of object) name }
{
    Expr {
        line,
        node: ExprNode::Attribute { object, name },
    }
}

/// `object[index]`
pub fn item_of(line: Line, object: Boxed<Expr>, index: Boxed<Expr>) -> Expr
    ensures { exp_of result ≡ P.item line.0 (exp_of object) (exp_of index) }
{
    Expr {
        line,
        node: ExprNode::Item { object, index },
    }
}

/// `-operand` and the like
pub fn unary_of(line: Line, operator: UnOp, operand: Boxed<Expr>) -> Expr
    ensures { exp_of result ≡ P.unary line.0 operator (exp_of operand) }
{
    Expr {
        line,
        node: ExprNode::Unary { operator, operand },
    }
}

/// `not operand`
pub fn not_of(line: Line, operand: Boxed<Expr>) -> Expr
    ensures { exp_of result ≡ P.not_of line.0 (exp_of operand) }
{
    Expr {
        line,
        node: ExprNode::Not(operand),
    }
}

/// `left + right` and the like
pub fn binary_of(line: Line, left: Boxed<Expr>, operator: BinOp, right: Boxed<Expr>) -> Expr
    ensures { exp_of result ≡ P.binary line.0 operator (exp_of left) (exp_of right) }
{
    Expr {
        line,
        node: ExprNode::Binary {
            left,
            operator,
            right,
        },
    }
}

/// `body if test else otherwise`
pub fn conditional_of(
    line: Line,
    test: Boxed<Expr>,
    body: Boxed<Expr>,
    otherwise: Boxed<Expr>,
) -> Expr
    ensures { exp_of result ≡ P.conditional line.0 (exp_of test) (exp_of body) (exp_of otherwise) }
{
    Expr {
        line,
        node: ExprNode::Conditional {
            test,
            body,
            otherwise,
        },
    }
}

/// `callee(arguments)`
pub fn call_of(line: Line, callee: Boxed<Expr>, arguments: Seq<Argument>) -> Expr
    ensures { exp_of result ≡ P.call line.0 (exp_of callee) (args_of arguments) }
{
    Expr {
        line,
        node: ExprNode::Call { callee, arguments },
    }
}

/// `lambda parameters: body`
pub fn lambda_of(
    line: Line,
    block: BlockId,
    parameters: Boxed<Parameters>,
    body: Boxed<Expr>,
) -> Expr
    ensures { exp_of result ≡ P.lambda line.0 block.0 (parameters_of parameters) (exp_of body) }
{
    Expr {
        line,
        node: ExprNode::Lambda {
            block,
            parameters: parameters.into_inner(),
            body,
        },
    }
}
