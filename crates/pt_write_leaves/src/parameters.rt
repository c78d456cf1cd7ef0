//! The names of the parameters that have defaults (Language Reference 8.7).

ghost use Rattle.std.specs.Prelude.{◌≡◌, ◌++◌, [], map, IfOk, OnOk};
ghost use Rattle.pt_tree.specs.Syntax.{no_formals};
ghost use Rattle.pt_tree.specs.Fold.{chained, formal_of, parameters_of};
ghost use Rattle.sem_control.specs.control.Expressions.{defaulted, all_defaulted};
ghost use Rattle.pt_expr_forms.specs.Behind.{known};

use pt_base::{Memory, Seq, Text};
use pt_block_names::BlockNames;
use pt_tree::{Parameter, Parameters};

#[tactic(auto, using(pt_tree::proofs::Folds::expressions))]
fn push_defaulted(
    names: &BlockNames,
    parameters: &[Parameter],
    into: &mut Seq<Text>,
) -> Result<(), Memory>
    ensures { OnOk result (into.new ≡ into.old ++ map (known names.now).spelled
        (defaulted (chained no_formals (map formal_of parameters.now)))) }
{
    for parameter in parameters {
        if parameter.default.is_some() {
            into.push(names.spelled(parameter.name.as_str())?)?;
        }
    }
    Ok(())
}

/// The names of the parameters that have defaults, as the block spells them.
#[tactic(auto, using(pt_tree::proofs::Folds::expressions))]
pub fn defaulted_names(names: &BlockNames, parameters: &Parameters) -> Result<Seq<Text>, Memory>
    ensures { IfOk result
        (λ xs. xs ≡ map (known names.now).spelled (all_defaulted (parameters_of parameters.now))) }
{
    let mut into = Seq::new(names.alloc());
    push_defaulted(names, parameters.positional.as_slice(), &mut into)?;
    push_defaulted(names, parameters.keyword_only.as_slice(), &mut into)?;
    Ok(into)
}
