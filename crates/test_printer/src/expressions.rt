use pt_base::{Boxed, CompareOp, Text, UnOp};
use pt_tree::{
    Argument, Clause, Comparison, Constant, Conversion, Entry, Expr, ExprNode, NamedParameter,
    Parameter, Parameters, Piece, PlaceNode, Target, TargetNode,
};
use test_notation::{Printed, close, open, sign_of, word};

fn sign_of_unary(operator: UnOp) -> &'static str {
    match operator {
        UnOp::Plus => "+",
        UnOp::Minus => "-",
        UnOp::Invert => "~",
    }
}

fn sign_of_comparison(operator: CompareOp) -> &'static str {
    match operator {
        CompareOp::Less => "<",
        CompareOp::LessEqual => "<=",
        CompareOp::Greater => ">",
        CompareOp::GreaterEqual => ">=",
        CompareOp::Equal => "==",
        CompareOp::NotEqual => "!=",
        CompareOp::In => "in",
        CompareOp::NotIn => "not in",
        CompareOp::Is => "is",
        CompareOp::IsNot => "is not",
    }
}

fn quote(out: &mut String, text: &Text) -> Printed {
    out.push_str(" '")?;
    out.push_str(text.as_str())?;
    out.push_str("'")
}

/// Integers other than 0, 1 and 2 are told by their kind alone.
fn constant(out: &mut String, constant: &Constant) -> Printed {
    match constant {
        Constant::None => word(out, "None"),
        Constant::Bool(true) => word(out, "True"),
        Constant::Bool(false) => word(out, "False"),
        Constant::Ellipsis => word(out, "..."),
        Constant::Int(0) => word(out, "0"),
        Constant::Int(1) => word(out, "1"),
        Constant::Int(2) => word(out, "2"),
        Constant::Int(_) => word(out, "int"),
        Constant::Str(text) => quote(out, text),
    }
}

fn conversion(out: &mut String, conversion: Option<Conversion>) -> Printed {
    match conversion {
        Some(Conversion::Str) => word(out, "!s"),
        Some(Conversion::Repr) => word(out, "!r"),
        None => Ok(()),
    }
}

fn star_parameter(out: &mut String, stars: &str, name: &Option<NamedParameter>) -> Printed {
    match name {
        Some(name) => {
            word(out, stars)?;
            out.push_str(name.name.as_str())
        }
        None => Ok(()),
    }
}

/// What the list of an expression begins with; a constant and a name are no lists.
fn head(node: &ExprNode) -> &'static str {
    match node {
        ExprNode::Constant(_) => "constant",
        ExprNode::Name(_) => "name",
        ExprNode::Joined(_) => "joined",
        ExprNode::Tuple(_) => "tuple",
        ExprNode::List(_) => "list",
        ExprNode::Set(_) => "set",
        ExprNode::Dict(_) => "dict",
        ExprNode::Attribute { .. } => ".",
        ExprNode::Item { .. } => "item",
        ExprNode::Slice { .. } => "slice",
        ExprNode::Unary { operator, .. } => sign_of_unary(*operator),
        ExprNode::Not(_) => "not",
        ExprNode::Binary { operator, .. } => sign_of(*operator),
        ExprNode::Compare { .. } => "compare",
        ExprNode::And { .. } => "and",
        ExprNode::Or { .. } => "or",
        ExprNode::Conditional { .. } => "if",
        ExprNode::Call { .. } => "call",
        ExprNode::Lambda { .. } => "lambda",
        ExprNode::ListComprehension { .. } => "list for",
        ExprNode::SetComprehension { .. } => "set for",
        ExprNode::DictComprehension { .. } => "dict for",
        ExprNode::Generator { .. } => "generator",
        ExprNode::Yield(_) => "yield",
        ExprNode::YieldFrom(_) => "yield from",
    }
}

/// An expression, behind a blank.
#[cycle(expressions)]
pub fn expression(out: &mut String, e: &Expr) -> Printed {
    match &e.node {
        ExprNode::Constant(value) => constant(out, value),
        ExprNode::Name(name) => word(out, name.as_str()),
        _ => {
            open(out, head(&e.node))?;
            children(out, &e.node)?;
            close(out)
        }
    }
}

/// What stands in the list of an expression behind its name.
#[cycle(expressions)]
fn children(out: &mut String, node: &ExprNode) -> Printed {
    match node {
        ExprNode::Constant(_) | ExprNode::Name(_) => Ok(()),
        ExprNode::Joined(parts) => pieces(out, parts.as_slice()),
        ExprNode::Tuple(items) => all(out, items.as_slice()),
        ExprNode::List(items) => all(out, items.as_slice()),
        ExprNode::Set(items) => all(out, items.as_slice()),
        ExprNode::Dict(parts) => entries(out, parts.as_slice()),
        ExprNode::Attribute { object, name } => {
            expression(out, object.get())?;
            word(out, name.as_str())
        }
        ExprNode::Item { object, index } => {
            expression(out, object.get())?;
            expression(out, index.get())
        }
        ExprNode::Slice { start, stop, step } => {
            optional_part(out, start)?;
            optional_part(out, stop)?;
            optional_part(out, step)
        }
        ExprNode::Unary { operand, .. } => expression(out, operand.get()),
        ExprNode::Not(operand) => expression(out, operand.get()),
        ExprNode::Binary { left, right, .. } => {
            expression(out, left.get())?;
            expression(out, right.get())
        }
        ExprNode::Compare {
            left,
            operator,
            right,
            rest,
        } => {
            expression(out, left.get())?;
            word(out, sign_of_comparison(*operator))?;
            expression(out, right.get())?;
            comparisons(out, rest.as_slice())
        }
        ExprNode::And { first, rest } => {
            expression(out, first.get())?;
            all(out, rest.as_slice())
        }
        ExprNode::Or { first, rest } => {
            expression(out, first.get())?;
            all(out, rest.as_slice())
        }
        ExprNode::Conditional {
            test,
            body,
            otherwise,
        } => {
            expression(out, test.get())?;
            expression(out, body.get())?;
            expression(out, otherwise.get())
        }
        ExprNode::Call {
            callee,
            arguments: values,
        } => {
            expression(out, callee.get())?;
            arguments(out, values.as_slice())
        }
        ExprNode::Lambda {
            parameters: parts,
            body,
            ..
        } => {
            parameters(out, parts)?;
            expression(out, body.get())
        }
        ExprNode::ListComprehension { item, first, rest } => {
            expression(out, item.get())?;
            clause(out, first.get())?;
            clauses(out, rest.as_slice())
        }
        ExprNode::SetComprehension { item, first, rest } => {
            expression(out, item.get())?;
            clause(out, first.get())?;
            clauses(out, rest.as_slice())
        }
        ExprNode::DictComprehension {
            key,
            value,
            first,
            rest,
        } => {
            expression(out, key.get())?;
            expression(out, value.get())?;
            clause(out, first.get())?;
            clauses(out, rest.as_slice())
        }
        ExprNode::Generator {
            item,
            first,
            rest,
            ..
        } => {
            expression(out, item.get())?;
            clause(out, first.get())?;
            clauses(out, rest.as_slice())
        }
        ExprNode::Yield(value) => optional_part(out, value),
        ExprNode::YieldFrom(value) => expression(out, value.get()),
    }
}

#[cycle(expressions)]
fn all(out: &mut String, parts: &[Expr]) -> Printed {
    for part in parts {
        expression(out, part)?;
    }
    Ok(())
}

#[cycle(expressions)]
fn optional_part(out: &mut String, value: &Option<Boxed<Expr>>) -> Printed {
    match value {
        Some(value) => expression(out, value.get()),
        None => word(out, "-"),
    }
}

#[cycle(expressions)]
fn comparisons(out: &mut String, parts: &[Comparison]) -> Printed {
    for part in parts {
        word(out, sign_of_comparison(part.operator))?;
        expression(out, &part.right)?;
    }
    Ok(())
}

#[cycle(expressions)]
fn entries(out: &mut String, parts: &[Entry]) -> Printed {
    for part in parts {
        expression(out, &part.key)?;
        expression(out, &part.value)?;
    }
    Ok(())
}

#[cycle(expressions)]
fn pieces(out: &mut String, parts: &[Piece]) -> Printed {
    for part in parts {
        piece(out, part)?;
    }
    Ok(())
}

#[cycle(expressions)]
fn piece(out: &mut String, part: &Piece) -> Printed {
    match part {
        Piece::Literal { text, .. } => quote(out, text),
        Piece::Field {
            value,
            conversion: told,
            spec,
            ..
        } => {
            open(out, "field")?;
            expression(out, value.get())?;
            conversion(out, *told)?;
            pieces(out, spec.as_slice())?;
            close(out)
        }
    }
}

#[cycle(expressions)]
fn arguments(out: &mut String, parts: &[Argument]) -> Printed {
    for part in parts {
        argument(out, part)?;
    }
    Ok(())
}

#[cycle(expressions)]
fn argument(out: &mut String, part: &Argument) -> Printed {
    match part {
        Argument::Positional(value) => expression(out, value),
        Argument::Named { name, value } => {
            open(out, "=")?;
            word(out, name.as_str())?;
            expression(out, value)?;
            close(out)
        }
        Argument::Spread(value) => {
            open(out, "spread")?;
            expression(out, value)?;
            close(out)
        }
        Argument::SpreadNamed(value) => {
            open(out, "spread named")?;
            expression(out, value)?;
            close(out)
        }
    }
}

#[cycle(expressions)]
fn clauses(out: &mut String, parts: &[Clause]) -> Printed {
    for part in parts {
        clause(out, part)?;
    }
    Ok(())
}

#[cycle(expressions)]
fn clause(out: &mut String, part: &Clause) -> Printed {
    open(out, "for")?;
    target(out, &part.target)?;
    expression(out, &part.iterable)?;
    all(out, part.conditions.as_slice())?;
    close(out)
}

#[cycle(expressions)]
pub fn target(out: &mut String, part: &Target) -> Printed {
    match &part.node {
        TargetNode::Place(node) => place(out, node),
        TargetNode::Tuple(parts) => {
            open(out, "tuple")?;
            targets(out, parts.as_slice())?;
            close(out)
        }
        TargetNode::List(parts) => {
            open(out, "list")?;
            targets(out, parts.as_slice())?;
            close(out)
        }
        TargetNode::Starred(inner) => {
            open(out, "starred")?;
            target(out, inner.get())?;
            close(out)
        }
    }
}

#[cycle(expressions)]
pub fn targets(out: &mut String, parts: &[Target]) -> Printed {
    for part in parts {
        target(out, part)?;
    }
    Ok(())
}

#[cycle(expressions)]
pub fn place(out: &mut String, node: &PlaceNode) -> Printed {
    match node {
        PlaceNode::Name(name) => word(out, name.as_str()),
        PlaceNode::Attribute { object, name } => {
            open(out, ".")?;
            expression(out, object.get())?;
            word(out, name.as_str())?;
            close(out)
        }
        PlaceNode::Item { object, index } => {
            open(out, "item")?;
            expression(out, object.get())?;
            expression(out, index.get())?;
            close(out)
        }
    }
}

#[cycle(expressions)]
pub fn parameters(out: &mut String, parts: &Parameters) -> Printed {
    open(out, "parameters")?;
    formals(out, parts.positional.as_slice())?;
    star_parameter(out, "*", &parts.star)?;
    open(out, "only")?;
    formals(out, parts.keyword_only.as_slice())?;
    close(out)?;
    star_parameter(out, "**", &parts.double_star)?;
    close(out)
}

#[cycle(expressions)]
fn formals(out: &mut String, parts: &[Parameter]) -> Printed {
    for part in parts {
        open(out, part.name.as_str())?;
        optional_part(out, &part.annotation)?;
        optional_part(out, &part.default)?;
        close(out)?;
    }
    Ok(())
}

pub fn optional_expression(out: &mut String, value: &Option<Expr>) -> Printed {
    match value {
        Some(value) => expression(out, value),
        None => word(out, "-"),
    }
}
