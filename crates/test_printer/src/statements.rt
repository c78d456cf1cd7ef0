use crate::expressions::{expression, optional_expression, parameters, place, target, targets};
use pt_base::{Line, Text};
use pt_tree::{Alias, Branch, Decorator, Handler, Script, Stmt, StmtNode, WithItem};
use test_notation::{Printed, at, close, open, optional_name, sign_of, word};

fn aliases(out: &mut String, names: &[Alias]) -> Printed {
    for name in names {
        word(out, name.name.as_str())?;
        optional_name(out, &name.alias)?;
    }
    Ok(())
}

fn words(out: &mut String, names: &[Text]) -> Printed {
    for name in names {
        word(out, name.as_str())?;
    }
    Ok(())
}

fn items(out: &mut String, parts: &[WithItem]) -> Printed {
    for part in parts {
        open(out, "item")?;
        expression(out, &part.context)?;
        if let Some(part) = &part.target {
            target(out, part)?;
        }
        close(out)?;
    }
    Ok(())
}

/// What a definition begins with: its decorators, its own line and its name.
fn definition_head(out: &mut String, decorators: &[Decorator], line: Line, name: &Text) -> Printed {
    for part in decorators {
        open(out, "@")?;
        at(out, part.line)?;
        expression(out, &part.value)?;
        close(out)?;
    }
    at(out, line)?;
    word(out, name.as_str())
}

/// What the list of a statement begins with, or the whole of a statement that is a word alone.
fn head(node: &StmtNode) -> &'static str {
    match node {
        StmtNode::Expr(_) => "expr",
        StmtNode::Assign { .. } => "assign",
        StmtNode::Augmented { .. } => "augmented",
        StmtNode::Annotated { .. } => "annotated",
        StmtNode::Assert { .. } => "assert",
        StmtNode::Pass => "pass",
        StmtNode::Del(_) => "del",
        StmtNode::Return(_) => "return",
        StmtNode::Raise { .. } => "raise",
        StmtNode::RaiseAgain => "raise",
        StmtNode::Break => "break",
        StmtNode::Continue => "continue",
        StmtNode::Import(_) => "import",
        StmtNode::ImportFrom { .. } => "from",
        StmtNode::Global(_) => "global",
        StmtNode::Nonlocal(_) => "nonlocal",
        StmtNode::If { .. } => "if",
        StmtNode::While { .. } => "while",
        StmtNode::For { .. } => "for",
        StmtNode::Try { .. } => "try",
        StmtNode::With { .. } => "with",
        StmtNode::Def { .. } => "def",
        StmtNode::Class { .. } => "class",
    }
}

/// What stands in the list of a simple statement behind its name (Language Reference 7).
fn simple(out: &mut String, node: &StmtNode) -> Printed {
    match node {
        StmtNode::Expr(value) => expression(out, value),
        StmtNode::Assign {
            targets: parts,
            value,
        } => {
            targets(out, parts.as_slice())?;
            expression(out, value)
        }
        StmtNode::Augmented {
            target,
            operator,
            value,
        } => {
            place(out, &target.node)?;
            word(out, sign_of(*operator))?;
            expression(out, value)
        }
        StmtNode::Annotated {
            target,
            annotation,
            value,
        } => {
            place(out, &target.node)?;
            expression(out, annotation)?;
            optional_expression(out, value)
        }
        StmtNode::Assert { test, message } => {
            expression(out, test)?;
            optional_expression(out, message)
        }
        StmtNode::Del(parts) => targets(out, parts.as_slice()),
        StmtNode::Return(value) => optional_expression(out, value),
        StmtNode::Raise { exception, cause } => {
            expression(out, exception)?;
            optional_expression(out, cause)
        }
        StmtNode::Import(names) => aliases(out, names.as_slice()),
        StmtNode::ImportFrom { origin, names } => {
            word(out, origin.as_str())?;
            aliases(out, names.as_slice())
        }
        StmtNode::Global(names) => words(out, names.as_slice()),
        StmtNode::Nonlocal(names) => words(out, names.as_slice()),
        _ => Ok(()),
    }
}

#[cycle(statements)]
fn block(out: &mut String, body: &[Stmt]) -> Printed {
    open(out, "block")?;
    statements(out, body)?;
    close(out)
}

#[cycle(statements)]
fn statements(out: &mut String, body: &[Stmt]) -> Printed {
    for s in body {
        statement(out, s)?;
    }
    Ok(())
}

#[cycle(statements)]
fn statement(out: &mut String, s: &Stmt) -> Printed {
    at(out, s.line)?;
    match &s.node {
        StmtNode::Pass | StmtNode::RaiseAgain | StmtNode::Break | StmtNode::Continue => {
            word(out, head(&s.node))
        }
        _ => {
            open(out, head(&s.node))?;
            simple(out, &s.node)?;
            compound(out, &s.node)?;
            close(out)
        }
    }
}

/// What stands in the list of a compound statement behind its name (Language Reference 8).
#[cycle(statements)]
fn compound(out: &mut String, node: &StmtNode) -> Printed {
    match node {
        StmtNode::If {
            branches: parts,
            otherwise,
        } => {
            branches(out, parts.as_slice())?;
            block(out, otherwise.as_slice())
        }
        StmtNode::While {
            test,
            body,
            otherwise,
        } => {
            expression(out, test)?;
            block(out, body.as_slice())?;
            block(out, otherwise.as_slice())
        }
        StmtNode::For {
            target: each,
            iterable,
            body,
            otherwise,
        } => {
            target(out, each)?;
            expression(out, iterable)?;
            block(out, body.as_slice())?;
            block(out, otherwise.as_slice())
        }
        StmtNode::Try {
            body,
            handlers: parts,
            otherwise,
            finally,
        } => {
            block(out, body.as_slice())?;
            handlers(out, parts.as_slice())?;
            block(out, otherwise.as_slice())?;
            block(out, finally.as_slice())
        }
        StmtNode::With { items: parts, body } => {
            items(out, parts.as_slice())?;
            block(out, body.as_slice())
        }
        StmtNode::Def {
            decorators,
            line,
            name,
            parameters: parts,
            returns,
            body,
            ..
        } => {
            definition_head(out, decorators.as_slice(), *line, name)?;
            parameters(out, parts)?;
            optional_expression(out, returns)?;
            block(out, body.as_slice())
        }
        StmtNode::Class {
            decorators,
            line,
            name,
            base,
            body,
            ..
        } => {
            definition_head(out, decorators.as_slice(), *line, name)?;
            optional_expression(out, base)?;
            block(out, body.as_slice())
        }
        _ => Ok(()),
    }
}

#[cycle(statements)]
fn branches(out: &mut String, parts: &[Branch]) -> Printed {
    for part in parts {
        open(out, "branch")?;
        at(out, part.line)?;
        expression(out, &part.test)?;
        block(out, part.body.as_slice())?;
        close(out)?;
    }
    Ok(())
}

#[cycle(statements)]
fn handlers(out: &mut String, parts: &[Handler]) -> Printed {
    for part in parts {
        open(out, "except")?;
        at(out, part.line)?;
        optional_expression(out, &part.class)?;
        optional_name(out, &part.name)?;
        block(out, part.body.as_slice())?;
        close(out)?;
    }
    Ok(())
}

/// All statements of a script, each behind the last two digits of its line.
pub fn script(out: &mut String, script: &Script) -> Printed {
    statements(out, script.body.as_slice())
}
