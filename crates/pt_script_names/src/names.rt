ghost use Rattle.std.specs.Prelude.{◌≡◌, None, IfOk};
ghost use Rattle.sem_names.specs.Script.{naming_script};
ghost use Rattle.pt_scopes.specs.Mentions.{places_script};
ghost use Rattle.pt_scopes.specs.Refusals.{fault_of};
ghost use Rattle.pt_tree.specs.StatementFold.{script_of};

use pt_base::Memory;
use pt_block_names::ScriptNames;
use pt_block_shapes::outline::outline;
use pt_tree::Script;
use std::alloc::Global;

/// The names of a script without faults in its declarations: for each block which variable each name is
/// (Language Reference 4.2.2, 6.2.1, 6.2.4). More acts than can be numbered are want of memory.
pub fn script_names(alloc: Global, script: &Script) -> Result<ScriptNames, Memory>
    requires { fault_of (places_script (script_of script.now)) ≡ None }
    ensures { IfOk result (λ s. s ≡ naming_script (script_of script.now)) }
{
    let (shapes, nexts) = outline(alloc, script)?;
    ScriptNames::new(alloc, script, shapes, nexts)
}
