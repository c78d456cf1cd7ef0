//! Arguments of calls, and names with values.
ghost use Rattle.std.specs.Prelude.{◌≡◌, IfOk};
ghost use Rattle.pt_function_rows.specs.Arguments.{named_last};
ghost use Rattle.pt_moves.specs.sem_rows.pt_host.Calls.{defaults_of};

use pt_base::{Dup, Memory, Seq, Text};
use pt_bind::Args;
use pt_heap::{Binding, Value};
use std::alloc::Global;

/// Each name with the value at its place, as long as there are both.
#[tactic(auto, using(crate::proofs::ArgumentLemmas::bound_next, crate::proofs::ArgumentLemmas::no_more_values, crate::proofs::ArgumentLemmas::no_more_names))]
pub fn bindings(alloc: Global, names: &[Text], values: &[Value]) -> Result<Seq<Binding>, Memory>
    ensures { IfOk result (λ bindings. bindings ≡ defaults_of names.now values.now) }
{
    let mut bindings = Seq::new(alloc);
    for at in 0..names.len() {
        if at >= values.len() {
            return Ok(bindings);
        }
        let name = names[at].dup(alloc)?;
        bindings.push(Binding {
            name,
            value: values[at],
        })?;
    }
    Ok(bindings)
}

/// The last arguments have these names, and those before have none.
pub fn named_last(alloc: Global, names: &[Text], values: Seq<Value>) -> Result<Args, Memory>
    ensures { IfOk result (λ args. args ≡ named_last names.now values) }
{
    let plain = values.len().saturating_sub(names.len());
    let named = bindings(alloc, names, &values.as_slice()[plain..])?;
    let mut values = values;
    values.truncate(plain);
    Ok(Args {
        plain: values,
        named,
    })
}
