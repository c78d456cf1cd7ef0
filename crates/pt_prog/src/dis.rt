//! The listing of a script's code, for people (Library Reference, "dis").

ghost use Rattle.std.specs.Prelude.{ℕ, List, IfOk, string_bytes};
ghost use Rattle.law_files.specs.sem_compile.compile.ScriptCode.{code_of};
ghost use Rattle.pt_front.specs.Text.{IsScript};
ghost use Rattle.pt_listing.specs.Listing.{IsListing};
ghost use Rattle.pt_tree.specs.StatementFold.{script_of};

use pt_base::Memory;
use pt_compile::compile;
use pt_listing::listing;
use pt_tree::Script;
use std::alloc::Global;

/// The listing of the code of a script that a text is.
pub fn listing_of(alloc: Global, script: &Script) -> Result<String, Memory>
    requires { (text : List ℕ) × IsScript text (script_of script.now) }
    ensures { IfOk result (λ lines.
        IsListing (code_of (script_of script.now)) (string_bytes lines)) }
{
    let code = compile(alloc, script)?;
    listing(alloc, &code)
}
