//! The code that binds the value on top to a target (Language Reference 7.2).

ghost use Rattle.std.specs.Prelude.{◌≡◌, map, OnOk};
ghost use Rattle.pt_tree.specs.Syntax.{single};
ghost use Rattle.pt_tree.specs.Fold.{place_node_of, target_of, targets_of};
ghost use Rattle.pt_write_leaves.specs.pt_expr_forms.Behind.{behind_target, behind_targets};

use crate::expressions::expression;
use pt_assembler::Writer;
use pt_base::{Line, Memory};
use pt_instr::Instr;
use pt_tree::{PlaceNode, Target, TargetNode};
use pt_write_leaves::{Surroundings, bind_attribute, bind_name, unpack};
use pt_write_ops::plain;

#[cycle(expressions)]
#[tactic(auto, using(crate::proofs::Rules::targets))]
pub fn target(w: &mut Writer, at: &Surroundings, bound: &Target) -> Result<(), Memory>
    ensures { OnOk result (w.new ≡ behind_target at.now.names.now at.now.within.now
        (target_of bound.now) w.old) }
{
    match &bound.node {
        TargetNode::Place(node) => place(w, at, bound.line, node),
        TargetNode::Tuple(targets) => {
            unpack(w, targets.as_slice(), bound.line)?;
            each_target(w, at, targets.as_slice())
        }
        TargetNode::List(targets) => {
            unpack(w, targets.as_slice(), bound.line)?;
            each_target(w, at, targets.as_slice())
        }
        TargetNode::Starred(node) => target(w, at, node.get()),
    }
}

/// The values on top are bound to targets, the first to the value on top.
#[cycle(expressions)]
fn each_target(w: &mut Writer, at: &Surroundings, targets: &[Target]) -> Result<(), Memory>
    ensures { OnOk result (w.new ≡ behind_targets at.now.names.now at.now.within.now
        (targets_of (map target_of targets.now)) w.old) }
{
    for each in targets {
        target(w, at, each)?;
    }
    Ok(())
}

/// The value on top is bound to a name, an attribute or an item.
#[cycle(expressions)]
#[tactic(auto, using(crate::proofs::Rules::places))]
pub fn place(w: &mut Writer, at: &Surroundings, line: Line, node: &PlaceNode) -> Result<(), Memory>
    ensures { OnOk result (w.new ≡ behind_target at.now.names.now at.now.within.now
        (single (place_node_of node.now line.0)) w.old) }
{
    match node {
        PlaceNode::Name(name) => bind_name(w, at, name.as_str(), line),
        PlaceNode::Attribute { object, name } => {
            expression(w, at, object.get(), false)?;
            bind_attribute(w, at, name.as_str(), line)
        }
        PlaceNode::Item { object, index } => {
            expression(w, at, object.get(), false)?;
            expression(w, at, index.get(), false)?;
            plain(w, Instr::SetItem, line, false)
        }
    }
}
