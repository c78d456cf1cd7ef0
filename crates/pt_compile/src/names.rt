//! The names of a block, entered before its code.

ghost use Rattle.std.specs.Prelude.{◌≡◌, OnOk};
ghost use Rattle.pt_assembler.specs.Layout.{with_cell, with_free, with_local};
ghost use Rattle.law_files.specs.sem_compile.compile.ScriptCode.{with_all, with_names};
ghost use Rattle.pt_block_names.specs.Named.{lists_of};

use pt_assembler::Writer;
use pt_base::{Memory, Text};
use pt_block_names::NameLists;

/// All names of a block, in their order (Library Reference, "inspect": code objects).
pub fn enter_names(w: &mut Writer, names: &NameLists) -> Result<(), Memory>
    ensures is { OnOk result (w.new ≡ with_names (lists_of names.now) w.old) }
    ensures act { OnOk result (w.new.act ≡ w.old.act) }
{
    enter_locals(w, names.locals.as_slice())?;
    enter_cells(w, names.cells.as_slice())?;
    enter_frees(w, names.frees.as_slice())
}

fn enter_locals(w: &mut Writer, names: &[Text]) -> Result<(), Memory>
    ensures is { OnOk result (w.new ≡ with_all with_local names.now w.old) }
    ensures act { OnOk result (w.new.act ≡ w.old.act) }
{
    for name in names {
        w.local(name.as_str())?;
    }
    Ok(())
}

fn enter_cells(w: &mut Writer, names: &[Text]) -> Result<(), Memory>
    ensures is { OnOk result (w.new ≡ with_all with_cell names.now w.old) }
    ensures act { OnOk result (w.new.act ≡ w.old.act) }
{
    for name in names {
        w.cell(name.as_str())?;
    }
    Ok(())
}

fn enter_frees(w: &mut Writer, names: &[Text]) -> Result<(), Memory>
    ensures is { OnOk result (w.new ≡ with_all with_free names.now w.old) }
    ensures act { OnOk result (w.new.act ≡ w.old.act) }
{
    for name in names {
        w.free(name.as_str())?;
    }
    Ok(())
}
