//! The `del` statement (Language Reference 7.5).

ghost use Rattle.std.specs.Prelude.{◌≡◌, map, OnOk};
ghost use Rattle.pt_tree.specs.Fold.{place_node_of, target_of, targets_of};
ghost use Rattle.pt_stm_forms.specs.Simple.{behind_all_deleted, behind_deleted, behind_place_deleted};

use crate::names::{delete_attribute, delete_name};
use crate::values::value_code;
use pt_assembler::Writer;
use pt_base::{Line, Memory};
use pt_block_names::BlockNames;
use pt_instr::Instr;
use pt_tree::{PlaceNode, Target, TargetNode};
use pt_write_ops::plain;

/// The code that unbinds what targets name, each by itself.
///
/// # Errors
///
/// As for an expression.
#[cycle(deletion)]
pub fn deletion(w: &mut Writer, names: &BlockNames, targets: &[Target]) -> Result<(), Memory>
    ensures { OnOk result
        (w.new ≡ behind_all_deleted names.now (targets_of (map target_of targets.now)) w.old) }
{
    for target in targets {
        delete_target(w, names, target)?;
    }
    Ok(())
}

#[cycle(deletion)]
#[tactic(auto, using(pt_tree::proofs::Folds::expressions))]
fn delete_target(w: &mut Writer, names: &BlockNames, target: &Target) -> Result<(), Memory>
    ensures { OnOk result (w.new ≡ behind_deleted names.now (target_of target.now) w.old) }
{
    match &target.node {
        TargetNode::Place(place) => delete_place(w, names, target.line, place),
        TargetNode::Tuple(targets) => deletion(w, names, targets.as_slice()),
        TargetNode::List(targets) => deletion(w, names, targets.as_slice()),
        TargetNode::Starred(target) => delete_target(w, names, target.get()),
    }
}

#[tactic(auto, using(pt_tree::proofs::Folds::expressions))]
fn delete_place(
    w: &mut Writer,
    names: &BlockNames,
    line: Line,
    place: &PlaceNode,
) -> Result<(), Memory>
    ensures { OnOk result
        (w.new ≡ behind_place_deleted names.now (place_node_of place.now line.0) w.old) }
{
    match place {
        PlaceNode::Name(name) => delete_name(w, names, name.as_str(), line),
        PlaceNode::Attribute { object, name } => {
            value_code(w, names, object.get(), false)?;
            delete_attribute(w, names, name.as_str(), line)
        }
        PlaceNode::Item { object, index } => {
            value_code(w, names, object.get(), false)?;
            value_code(w, names, index.get(), false)?;
            plain(w, Instr::DelItem, line, false)
        }
    }
}
