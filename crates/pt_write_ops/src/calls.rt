//! Calls (Language Reference 6.3.4).

ghost use Rattle.std.specs.Prelude.{◌≡◌, ◌+◌, ◌≤◌, [], length, map, drop, false, IfOk, OnOk};
ghost use Rattle.pt_assembler.specs.Piece.{act};
ghost use Rattle.pt_assembler.specs.Layout.{layout, operation_of, with_operand};
ghost use Rattle.sem_compile.specs.emitter.Ops.{names_alone as names_alone_of, last_names as last_names_of, text_of as text_of_role, is_plain, are_plain as are_plain_roles, call as call_of};
ghost use Rattle.pt_write_ops.specs.Roles.{role_of, is_plain_argument};

use crate::Role;
use crate::operations::operand_count;
use pt_assembler::{Operation, Writer};
use pt_base::{Line, Memory, Seq, Text};
use pt_instr::Instr;
use std::alloc::Global;

/// An act that calls what stands below its arguments, which are passed so. (A name that is empty or
/// one of stars alone is none of an argument, and an instruction that does nothing stands for the
/// call.)
pub fn call(alloc: Global, w: &mut Writer, roles: &[Role], line: Line) -> Result<(), Memory>
    ensures code { OnOk result (w.new ≡ layout
        (act (call_of (map role_of roles.now)) w.old.act line.0 false) [] w.old) }
    ensures act { OnOk result (w.new.act ≡ w.old.act + 1) }
{
    let operation = call_operation(alloc, w, roles)?;
    w.act(operation, line, false)
}

fn call_operation(alloc: Global, w: &mut Writer, roles: &[Role]) -> Result<Operation, Memory>
    ensures { IfOk result (λ o. (o ≡ operation_of (call_of (map role_of roles.now)) [] w.old)
        × (w.new ≡ with_operand (call_of (map role_of roles.now)) w.old)
        × (w.new.act ≡ w.old.act)) }
{
    let count = operand_count(roles.len())?;
    match last_names(alloc, roles)? {
        Some(names) => {
            if names.is_empty() {
                Ok(Operation::Plain(Instr::Call(count)))
            } else {
                Ok(Operation::Plain(Instr::CallKw(count, w.list(names.as_slice())?)))
            }
        }
        None => {
            if are_plain(roles) {
                let texts = texts_of(alloc, roles)?;
                Ok(Operation::Plain(Instr::CallSpread(count, w.list(texts.as_slice())?)))
            } else {
                Ok(Operation::Plain(Instr::Nop))
            }
        }
    }
}

/// How many arguments by position come first.
#[tactic(auto, using(crate::proofs::RoleLemmas::steps))]
fn positional(roles: &[Role]) -> usize
    ensures within { result ≤ length roles.now }
    ensures behind { last_names_of (map role_of roles.now)
        ≡ names_alone_of (map role_of (drop result roles.now)) }
{
    for (i, role) in roles.iter().enumerate() {
        match role {
            Role::Positional => {}
            Role::Named(_) => return i,
            Role::Spread => return i,
            Role::SpreadNamed => return i,
        }
    }
    roles.len()
}

/// The names of the last arguments, where those before them are passed by position and none is spread.
fn last_names(alloc: Global, roles: &[Role]) -> Result<Option<Seq<Text>>, Memory>
    ensures { IfOk result (λ names. names ≡ last_names_of (map role_of roles.now)) }
{
    names_alone(alloc, &roles[positional(roles)..])
}

#[tactic(auto, using(crate::proofs::RoleLemmas::steps))]
fn names_alone(alloc: Global, roles: &[Role]) -> Result<Option<Seq<Text>>, Memory>
    ensures { IfOk result (λ names. names ≡ names_alone_of (map role_of roles.now)) }
{
    let mut names = Seq::new(alloc);
    for role in roles {
        match role {
            Role::Positional => return Ok(None),
            Role::Named(name) => names.push(Text::from_str(alloc, name.as_str())?)?,
            Role::Spread => return Ok(None),
            Role::SpreadNamed => return Ok(None),
        }
    }
    Ok(Some(names))
}

/// Whether a name isn't what stands for an argument without one.
fn is_plain_name(name: &Text) -> bool
    ensures { result ≡ is_plain name.now }
{
    !name.is_empty() && !name.is("*") && !name.is("**")
}

fn is_plain_role(role: &Role) -> bool
    ensures { result ≡ is_plain_argument (role_of role.now) }
{
    match role {
        Role::Positional => true,
        Role::Named(name) => is_plain_name(name),
        Role::Spread => true,
        Role::SpreadNamed => true,
    }
}

#[tactic(auto, using(crate::proofs::RoleLemmas::steps))]
fn are_plain(roles: &[Role]) -> bool
    ensures { result ≡ are_plain_roles (map role_of roles.now) }
{
    for role in roles {
        if !is_plain_role(role) {
            return false;
        }
    }
    true
}

fn text_of(alloc: Global, role: &Role) -> Result<Text, Memory>
    ensures { IfOk result (λ t. t ≡ text_of_role (role_of role.now)) }
{
    match role {
        Role::Positional => Ok(Text::new(alloc)),
        Role::Named(name) => Text::from_str(alloc, name.as_str()),
        Role::Spread => Text::from_str(alloc, "*"),
        Role::SpreadNamed => Text::from_str(alloc, "**"),
    }
}

fn texts_of(alloc: Global, roles: &[Role]) -> Result<Seq<Text>, Memory>
    ensures { IfOk result (λ ts. ts ≡ map text_of_role (map role_of roles.now)) }
{
    let mut texts = Seq::new(alloc);
    for role in roles {
        texts.push(text_of(alloc, role)?)?;
    }
    Ok(texts)
}
