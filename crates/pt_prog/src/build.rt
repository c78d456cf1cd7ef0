//! The file of a script's code.

ghost use Rattle.std.specs.Prelude.{◌≡◌, ℕ, List, IfOk};
ghost use Rattle.pt_code.specs.File.{HasFile, file};
ghost use Rattle.law_files.specs.sem_compile.compile.ScriptCode.{code_of};
ghost use Rattle.pt_front.specs.Text.{IsScript};
ghost use Rattle.pt_tree.specs.StatementFold.{script_of};

use pt_base::Memory;
use pt_code::write;
use pt_compile::compile;
use pt_tree::Script;
use std::alloc::Global;

/// The file of the code of a script that a text is.
pub fn file_of(alloc: Global, script: &Script) -> Result<Vec<u8>, Memory>
    requires { (text : List ℕ) × IsScript text (script_of script.now) }
    ensures { IfOk result (λ bytes. HasFile (code_of (script_of script.now))
        × (bytes.items ≡ file (code_of (script_of script.now)))) }
{
    let code = compile(alloc, script)?;
    write(alloc, &code)
}
