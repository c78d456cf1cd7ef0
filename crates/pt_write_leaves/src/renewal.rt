//! The names that a comprehension has of its own are made anew where it begins
//! (Language Reference 6.2.4).

ghost use Rattle.std.specs.Prelude.{◌≡◌, ◌∷◌, ◌++◌, map, IfOk, OnOk};
ghost use Rattle.pt_tree.specs.Fold.{behind, clause_of, target_of, targets_of, place_node_of};
ghost use Rattle.pt_tree.specs.Syntax.{single};
ghost use Rattle.sem_control.specs.control.Expressions.{target_names, all_target_names, clause_names};
ghost use Rattle.pt_expr_forms.specs.Loops.{behind_renewal};

use crate::surroundings::{Surroundings, inside};
use pt_assembler::Writer;
use pt_base::{ActNo, Memory, Seq};
use pt_tree::{Clause, PlaceNode, Target, TargetNode};
use pt_write_ops::renew;

#[cycle(renewal)]
#[tactic(auto, using(pt_tree::proofs::Folds::expressions))]
fn renew_target(w: &mut Writer, at: &Surroundings, target: &Target) -> Result<(), Memory>
    ensures { OnOk result (w.new ≡ behind_renewal at.now.names.now at.now.within.now
        (target_names (target_of target.now)) w.old) }
{
    match &target.node {
        TargetNode::Place(place) => renew_place(w, at, place),
        TargetNode::Tuple(targets) => renew_targets(w, at, targets.as_slice()),
        TargetNode::List(targets) => renew_targets(w, at, targets.as_slice()),
        TargetNode::Starred(target) => renew_target(w, at, target.get()),
    }
}

#[tactic(auto, using(pt_tree::proofs::Folds::expressions))]
fn renew_place(w: &mut Writer, at: &Surroundings, place: &PlaceNode) -> Result<(), Memory>
    ensures { OnOk result ((l : _) → w.new ≡ behind_renewal at.now.names.now at.now.within.now
        (target_names (single (place_node_of place.now l))) w.old) }
{
    match place {
        PlaceNode::Name(name) => {
            let variable = at.names.variable(at.within, name.as_str())?;
            renew(w, &variable)
        }
        PlaceNode::Attribute { .. } => Ok(()),
        PlaceNode::Item { .. } => Ok(()),
    }
}

#[cycle(renewal)]
#[tactic(auto, using(crate::proofs::LoopLemmas::names))]
fn renew_targets(w: &mut Writer, at: &Surroundings, targets: &[Target]) -> Result<(), Memory>
    ensures { OnOk result (w.new ≡ behind_renewal at.now.names.now at.now.within.now
        (all_target_names (targets_of (map target_of targets.now))) w.old) }
{
    for target in targets {
        renew_target(w, at, target)?;
    }
    Ok(())
}

/// A comprehension with these clauses begins with the next act: the names of its targets are made
/// anew. What is returned are the comprehensions around what stands in it.
pub fn renew_clauses(
    w: &mut Writer,
    at: &Surroundings,
    first: &Clause,
    rest: &[Clause],
) -> Result<Seq<ActNo>, Memory>
    ensures { IfOk result (λ within. (within ≡ record { 0 = w.old.act } ∷ at.now.within.now)
        × (w.new ≡ behind_renewal at.now.names.now (record { 0 = w.old.act } ∷ at.now.within.now)
        (target_names (clause_of first.now).target
        ++ clause_names (behind (clause_of first.now) (map clause_of rest.now))) w.old)) }
{
    let within = inside(at.names.alloc(), ActNo(w.next_act()), at.within)?;
    let inner = Surroundings {
        names: at.names,
        within: within.as_slice(),
    };
    renew_all(w, &inner, first, rest)?;
    Ok(within)
}

#[tactic(auto, using(crate::proofs::LoopLemmas::names))]
fn renew_all(
    w: &mut Writer,
    at: &Surroundings,
    first: &Clause,
    rest: &[Clause],
) -> Result<(), Memory>
    ensures { OnOk result (w.new ≡ behind_renewal at.now.names.now at.now.within.now
        (target_names (clause_of first.now).target
        ++ clause_names (behind (clause_of first.now) (map clause_of rest.now))) w.old) }
{
    renew_target(w, at, &first.target)?;
    for clause in rest {
        renew_target(w, at, &clause.target)?;
    }
    Ok(())
}
