//! Copies of the parts that both trees share.

ghost use Rattle.std.specs.Prelude.{◌≡◌, IfOk};

use pt_base::{Dup, Memory, Seq, Text};
use pt_tree::{Alias, Constant, NamedParameter};
use std::alloc::Global;

pub fn copied_constant(alloc: Global, constant: &Constant) -> Result<Constant, Memory>
    ensures { IfOk result (λ copy. copy ≡ constant.now) }
{
    match constant {
        Constant::None => Ok(Constant::None),
        Constant::Bool(value) => Ok(Constant::Bool(*value)),
        Constant::Ellipsis => Ok(Constant::Ellipsis),
        Constant::Int(value) => Ok(Constant::Int(*value)),
        Constant::Str(text) => {
            let text = text.dup(alloc)?;
            Ok(Constant::Str(text))
        }
    }
}

pub fn copied_parameter(
    alloc: Global,
    parameter: &Option<NamedParameter>,
) -> Result<Option<NamedParameter>, Memory>
    ensures { IfOk result (λ copy. copy ≡ parameter.now) }
{
    match parameter {
        None => Ok(None),
        Some(parameter) => {
            let name = parameter.name.dup(alloc)?;
            Ok(Some(NamedParameter {
                line: parameter.line,
                name,
            }))
        }
    }
}

pub fn copied_name(alloc: Global, name: &Option<Text>) -> Result<Option<Text>, Memory>
    ensures { IfOk result (λ copy. copy ≡ name.now) }
{
    match name {
        None => Ok(None),
        Some(name) => {
            let name = name.dup(alloc)?;
            Ok(Some(name))
        }
    }
}

fn copied_alias(alloc: Global, alias: &Alias) -> Result<Alias, Memory>
    ensures { IfOk result (λ copy. copy ≡ alias.now) }
{
    let name = alias.name.dup(alloc)?;
    let alias = copied_name(alloc, &alias.alias)?;
    Ok(Alias { name, alias })
}

pub fn copied_aliases(alloc: Global, aliases: &[Alias]) -> Result<Seq<Alias>, Memory>
    ensures { IfOk result (λ copy. copy ≡ aliases.now) }
{
    let mut copy = Seq::new(alloc);
    for alias in aliases {
        let alias = copied_alias(alloc, alias)?;
        copy.push(alias)?;
    }
    Ok(copy)
}
