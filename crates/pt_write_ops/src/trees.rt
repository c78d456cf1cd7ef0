//! What the tree says of an operation: how arguments are passed, how a target is unpacked, and how a
//! field is formatted.

ghost use Rattle.std.specs.Prelude.{◌≡◌, ◌<◌, ◌∷◌, length, map, IfOk, IfSome};
ghost use Rattle.pt_tree.specs.Syntax.{no_args};
ghost use Rattle.pt_tree.specs.Fold.{argument_of, chained, target_of, targets_of};
ghost use Rattle.sem_control.specs.control.Expressions.{roles as roles_in};
ghost use Rattle.sem_control.specs.control.Statements.{count as count_of, star_of};
ghost use Rattle.pt_block_names.specs.Named.{around};
ghost use Rattle.pt_assembler.specs.Piece.{plain as plain_op};
ghost use Rattle.sem_compile.specs.emitter.ExpPiece.{unpack_op};
ghost use Rattle.sem_compile.specs.emitter.Ops.{formatting_of};
ghost use Rattle.pt_write_ops.specs.Roles.{role_of};
ghost use Rattle.pt_write_ops.specs.Written.{is_starred as has_star};

use crate::Role;
use crate::operations::operand_count;
use pt_base::{Memory, Seq};
use pt_block_names::BlockNames;
use pt_instr::{Conversion as Formatting, Instr};
use pt_tree::{Argument, Conversion, Target, TargetNode};

/// How arguments are passed, their names as the block spells them.
pub fn roles(names: &BlockNames, arguments: &[Argument]) -> Result<Seq<Role>, Memory>
    ensures { IfOk result (λ rs. map role_of rs ≡ roles_in ((around (tt {0}) names.now).spelled)
        (chained no_args (map argument_of arguments.now))) }
{
    let mut roles = Seq::new(names.alloc());
    for argument in arguments {
        roles.push(role(names, argument)?)?;
    }
    Ok(roles)
}

#[tactic(auto, using(pt_tree::proofs::Folds::expressions))]
fn role(names: &BlockNames, argument: &Argument) -> Result<Role, Memory>
    ensures { IfOk result (λ r. (rest : _)
        → roles_in ((around (tt {0}) names.now).spelled) (argument_of argument.now rest)
        ≡ role_of r ∷ roles_in ((around (tt {0}) names.now).spelled) rest) }
{
    match argument {
        Argument::Positional(_) => Ok(Role::Positional),
        Argument::Named { name, .. } => Ok(Role::Named(names.spelled(name.as_str())?)),
        Argument::Spread(_) => Ok(Role::Spread),
        Argument::SpreadNamed(_) => Ok(Role::SpreadNamed),
    }
}

/// The place of the target with a star among targets (Language Reference 7.2).
#[tactic(auto, using(crate::proofs::RoleLemmas::steps))]
fn star(targets: &[Target]) -> Option<usize>
    ensures is { result ≡ star_of (targets_of (map target_of targets.now)) }
    ensures within { IfSome result (λ k. k < length targets.now) }
{
    for (i, target) in targets.iter().enumerate() {
        if is_starred(target) {
            return Some(i);
        }
    }
    None
}

#[tactic(auto, using(pt_tree::proofs::Folds::expressions))]
fn is_starred(target: &Target) -> bool
    ensures { result ≡ has_star (target_of target.now) }
{
    match &target.node {
        TargetNode::Place(_) => false,
        TargetNode::Tuple(_) => false,
        TargetNode::List(_) => false,
        TargetNode::Starred(_) => true,
    }
}

/// The instruction that unpacks a value for targets.
#[tactic(auto, using(crate::proofs::RoleLemmas::steps))]
pub fn unpacking(targets: &[Target]) -> Result<Instr, Memory>
    ensures { IfOk result (λ i. plain_op i ≡ unpack_op
        (count_of (targets_of (map target_of targets.now)))
        (star_of (targets_of (map target_of targets.now)))) }
{
    let count = operand_count(targets.len())?;
    match star(targets) {
        None => Ok(Instr::Unpack(count)),
        Some(before) => {
            let behind = operand_count(targets.len() - before - 1)?;
            Ok(Instr::UnpackStar(operand_count(before)?, behind))
        }
    }
}

/// How a field with such a conversion is formatted.
pub fn formatting(conversion: Option<Conversion>) -> Formatting
    ensures { result ≡ formatting_of conversion }
{
    match conversion {
        None => Formatting::Plain,
        Some(Conversion::Str) => Formatting::Str,
        Some(Conversion::Repr) => Formatting::Repr,
    }
}
