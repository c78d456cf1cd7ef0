//! Imports (Language Reference 7.11).

ghost use Rattle.std.specs.Prelude.{◌≡◌, OnOk};
ghost use Rattle.sem_control.specs.control.Statements.{bound_name};
ghost use Rattle.pt_stm_forms.specs.Simple.{behind_imports, behind_module, behind_module_name, behind_module_names};

use crate::names::store_name;
use pt_assembler::{Operation, Writer};
use pt_base::{Line, Memory};
use pt_block_names::BlockNames;
use pt_instr::Instr;
use pt_tree::Alias;

/// The name that an import binds.
fn bound(alias: &Alias) -> &str
    ensures { result.now ≡ bound_name alias.now }
{
    match &alias.alias {
        None => alias.name.as_str(),
        Some(name) => name.as_str(),
    }
}

/// The code of `import names`.
///
/// # Errors
///
/// Want of memory, or of a number: of acts, texts or operands.
pub fn import_statement(
    w: &mut Writer,
    names: &BlockNames,
    line: Line,
    aliases: &[Alias],
) -> Result<(), Memory>
    ensures { OnOk result (w.new ≡ behind_imports names.now aliases.now line.0 w.old) }
{
    for alias in aliases {
        import_module(w, names, line, alias.name.as_str())?;
        store_name(w, names, bound(alias), line)?;
    }
    Ok(())
}

/// An act that gives a module.
fn import_module(w: &mut Writer, names: &BlockNames, line: Line, name: &str) -> Result<(), Memory>
    ensures { OnOk result (w.new ≡ behind_module names.now name.now line.0 w.old) }
{
    let spelling = names.spelled(name)?;
    let text = w.text(spelling.as_str())?;
    w.act(Operation::Plain(Instr::Import(text)), line, false)
}

/// The code of `from origin import names`.
///
/// # Errors
///
/// As for `import`.
pub fn import_from_statement(
    w: &mut Writer,
    names: &BlockNames,
    line: Line,
    origin: &str,
    aliases: &[Alias],
) -> Result<(), Memory>
    ensures { OnOk result (w.new ≡ behind_module_names names.now aliases.now line.0
        (behind_module names.now origin.now line.0 w.old)) }
{
    import_module(w, names, line, origin)?;
    import_names(w, names, line, aliases)
}

/// Names of the module on top, which is dropped behind them.
fn import_names(
    w: &mut Writer,
    names: &BlockNames,
    line: Line,
    aliases: &[Alias],
) -> Result<(), Memory>
    ensures { OnOk result (w.new ≡ behind_module_names names.now aliases.now line.0 w.old) }
{
    for alias in aliases {
        import_name(w, names, line, alias.name.as_str())?;
        store_name(w, names, bound(alias), line)?;
    }
    w.step(Operation::Plain(Instr::Pop))
}

/// An act that gives a name of the module on top.
fn import_name(w: &mut Writer, names: &BlockNames, line: Line, name: &str) -> Result<(), Memory>
    ensures { OnOk result (w.new ≡ behind_module_name names.now name.now line.0 w.old) }
{
    let spelling = names.spelled(name)?;
    let text = w.text(spelling.as_str())?;
    w.act(Operation::Plain(Instr::ImportName(text)), line, false)
}
