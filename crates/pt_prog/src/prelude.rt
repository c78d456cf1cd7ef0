//! The prelude, over which each script and code is run.

ghost use Rattle.std.specs.Prelude.{◌≡◌, ℕ, List, IfErr, IfOk};
ghost use Rattle.pt_base.specs.Failures.{IfRefused};
ghost use Rattle.law_files.specs.sem_compile.compile.ScriptCode.{code_of};
ghost use Rattle.pt_prelude.specs.declared.source.TheConstants.{PRELUDE};
ghost use Rattle.pt_prog.specs.Answer.{IsBuilt, IsNoPrelude};
ghost use Rattle.pt_run_script.specs.pt_run_code.law_loading.code_program.Laws.{IsRunnable};
ghost use Rattle.pt_tree.specs.StatementFold.{script_of};

use crate::end::End;
use pt_base::{Failure, Memory};
use pt_code::Code;
use pt_compile::compile;
use pt_front::front;
use pt_supported::first_unbuilt;
use pt_supported_code::unbuilt;
use pt_tree::Script;
use pt_verify::verify;
use std::alloc::Global;

/// The script that the prelude is, all of which is built, or the end where it is none.
pub fn prelude(alloc: Global) -> Result<Script, Failure<End>>
    ensures ok { IfOk result (λ prelude. IsBuilt PRELUDE.now (script_of prelude)) }
    ensures err { IfErr result (IfRefused IsNoPrelude) }
{
    let prelude = match front(alloc, pt_prelude::text().as_bytes()) {
        Ok((prelude, _)) => prelude,
        Err(Failure::Refused(error)) => return Err(Failure::Refused(End::Refused { error })),
        Err(Failure::Memory) => return Err(Failure::Memory),
    };
    match first_unbuilt(&prelude) {
        Some(line) => Err(Failure::Refused(End::Unbuilt { line })),
        None => Ok(prelude),
    }
}

/// The code of the prelude. The run of a code file asks of it what it asks of the file's code: it
/// fits, and all of it is built.
///
/// # Errors
///
/// `Memory` for want of it, where a number of the code has no room in a file, and where the code
/// doesn't fit or isn't built, as that of the program's own prelude does and is.
pub fn prelude_code(alloc: Global, prelude: &Script) -> Result<Code, Memory>
    requires { (source : List ℕ) × IsBuilt source (script_of prelude.now) }
    ensures { IfOk result
        (λ code. (code ≡ code_of (script_of prelude.now)) × IsRunnable code) }
{
    let code = compile(alloc, prelude)?;
    let found = unbuilt(alloc, &code)?;
    if let Some(_) = found {
        return Err(Memory);
    }
    match verify(alloc, code) {
        Ok(verified) => Ok(verified.into_code()),
        Err(_) => Err(Memory),
    }
}
