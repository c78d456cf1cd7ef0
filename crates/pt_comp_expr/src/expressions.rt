//! Each form of expressions: operands from left to right, and then its own act.

ghost use Rattle.std.specs.Prelude.{◌≡◌, OnOk};
ghost use Rattle.pt_tree.specs.Fold.{exp_of};
ghost use Rattle.pt_write_leaves.specs.pt_expr_forms.Behind.{behind_exp};

use crate::comprehensions::{begin_comprehension, clauses, iterator};
use crate::functions::function;
use crate::links::links;
use crate::operands::{arguments, dictionary, display_code, operands, optional};
use crate::strings::parts;
use pt_assembler::{Jump, Operation, Writer};
use pt_base::Memory;
use pt_instr::Instr;
use pt_tree::{Expr, ExprNode};
use pt_write_leaves::{
    Built, Display, Surroundings, call_code, delegate, end_comprehension, get_attribute,
    make_generator, name_code, still_due,
};
use pt_write_ops::{constant, plain};

/// The code of an expression. Its first act begins a re-test where it is said so.
#[cycle(expressions)]
pub fn expression(w: &mut Writer, at: &Surroundings, e: &Expr, again: bool) -> Result<(), Memory>
    ensures { OnOk result
        (w.new ≡ behind_exp at.now.names.now at.now.within.now (exp_of e.now) again w.old) }
{
    let line = e.line;
    match &e.node {
        ExprNode::Constant(value) => constant(w, value, line, again),
        ExprNode::Name(name) => name_code(w, at, name.as_str(), line, again),
        ExprNode::Joined(pieces) => {
            let count = parts(w, at, pieces.as_slice(), again)?;
            plain(w, Instr::Join(count), line, still_due(again, count))
        }
        ExprNode::Tuple(items) => display_code(
            w,
            at,
            line,
            Display::Tuple,
            items.as_slice(),
            again,
        ),
        ExprNode::List(items) => display_code(w, at, line, Display::List, items.as_slice(), again),
        ExprNode::Set(items) => display_code(w, at, line, Display::Set, items.as_slice(), again),
        ExprNode::Dict(entries) => dictionary(w, at, line, entries.as_slice(), again),
        ExprNode::Attribute { object, name } => {
            expression(w, at, object.get(), again)?;
            get_attribute(w, at, name.as_str(), line)
        }
        ExprNode::Item { object, index } => {
            expression(w, at, object.get(), again)?;
            expression(w, at, index.get(), false)?;
            plain(w, Instr::Item, line, false)
        }
        ExprNode::Slice { start, stop, step } => {
            let due = optional(w, at, start, again)?;
            let due = optional(w, at, stop, due)?;
            let due = optional(w, at, step, due)?;
            plain(w, Instr::Slice, line, due)
        }
        ExprNode::Unary { operator, operand } => {
            expression(w, at, operand.get(), again)?;
            plain(w, Instr::Unary(*operator), line, false)
        }
        ExprNode::Not(operand) => {
            expression(w, at, operand.get(), again)?;
            plain(w, Instr::Not, line, false)
        }
        ExprNode::Binary {
            left,
            operator,
            right,
        } => {
            expression(w, at, left.get(), again)?;
            expression(w, at, right.get(), false)?;
            plain(w, Instr::Binary(*operator), line, false)
        }
        ExprNode::Compare {
            left,
            operator,
            right,
            rest,
        } => {
            expression(w, at, left.get(), again)?;
            expression(w, at, right.get(), false)?;
            links(w, at, line, *operator, rest.as_slice())
        }
        ExprNode::And { first, rest } => {
            let end = w.label()?;
            expression(w, at, first.get(), again)?;
            operands(w, at, line, Jump::IfFalseKeep, rest.as_slice(), end)?;
            w.bind(end);
            Ok(())
        }
        ExprNode::Or { first, rest } => {
            let end = w.label()?;
            expression(w, at, first.get(), again)?;
            operands(w, at, line, Jump::IfTrueKeep, rest.as_slice(), end)?;
            w.bind(end);
            Ok(())
        }
        ExprNode::Conditional {
            test,
            body,
            otherwise,
        } => {
            let end = w.label()?;
            let other = w.label()?;
            expression(w, at, test.get(), again)?;
            w.act(Operation::To(Jump::IfFalse, other), line, false)?;
            expression(w, at, body.get(), false)?;
            w.step(Operation::To(Jump::Always, end))?;
            w.bind(other);
            expression(w, at, otherwise.get(), false)?;
            w.bind(end);
            Ok(())
        }
        ExprNode::Call {
            callee,
            arguments: passed,
        } => {
            expression(w, at, callee.get(), again)?;
            arguments(w, at, line, passed.as_slice())?;
            call_code(w, at, passed.as_slice(), line)
        }
        ExprNode::Lambda {
            block,
            parameters,
            ..
        } => function(w, at, line, *block, parameters, again),
        ExprNode::ListComprehension { item, first, rest } => {
            let begun = begin_comprehension(
                w,
                at,
                line,
                Built::List,
                first.get(),
                rest.as_slice(),
                again,
            )?;
            let inner = Surroundings {
                names: at.names,
                within: begun.within.as_slice(),
            };
            let innermost = clauses(w, &inner, line, rest.as_slice(), begun.head)?;
            expression(w, &inner, item.get(), false)?;
            end_comprehension(w, line, Built::List, innermost, begun.end)
        }
        ExprNode::SetComprehension { item, first, rest } => {
            let begun = begin_comprehension(
                w,
                at,
                line,
                Built::Set,
                first.get(),
                rest.as_slice(),
                again,
            )?;
            let inner = Surroundings {
                names: at.names,
                within: begun.within.as_slice(),
            };
            let innermost = clauses(w, &inner, line, rest.as_slice(), begun.head)?;
            expression(w, &inner, item.get(), false)?;
            end_comprehension(w, line, Built::Set, innermost, begun.end)
        }
        ExprNode::DictComprehension {
            key,
            value,
            first,
            rest,
        } => {
            let begun = begin_comprehension(
                w,
                at,
                line,
                Built::Dict,
                first.get(),
                rest.as_slice(),
                again,
            )?;
            let inner = Surroundings {
                names: at.names,
                within: begun.within.as_slice(),
            };
            let innermost = clauses(w, &inner, line, rest.as_slice(), begun.head)?;
            expression(w, &inner, key.get(), false)?;
            expression(w, &inner, value.get(), false)?;
            end_comprehension(w, line, Built::Dict, innermost, begun.end)
        }
        ExprNode::Generator { block, first, .. } => {
            iterator(w, at, first.get(), again)?;
            make_generator(w, at, *block, line)
        }
        ExprNode::Yield(value) => {
            let due = optional(w, at, value, again)?;
            plain(w, Instr::Yield, line, due)
        }
        ExprNode::YieldFrom(iterable) => {
            expression(w, at, iterable.get(), again)?;
            delegate(w, line)
        }
    }
}
