//! What is raised of a name that has no value.
ghost use Rattle.std.specs.Prelude.{◌≡◌, [], slice_index_or, IfOk};
ghost use Rattle.pt_code_facts.specs.Facts.{facts_view};
ghost use Rattle.std.specs.Option.{option_copied};
ghost use Rattle.pt_builtins.specs.pt_host.Texts.{without_dots};
ghost use Rattle.pt_name_rows.specs.Names.{behind_dot, cell_unbound, global_unbound, free_unbound, local_unbound};
ghost use Rattle.pt_moves.specs.sem_rows.variables.Numbers.{cell_name};

use pt_base::{Memory, Seq, Text};
use pt_builtins::{NAME_ERROR, UNBOUND_LOCAL_ERROR, free_text, local_text, name_text};
use pt_code_facts::BlockFacts;
use pt_moves::Progress;
use std::alloc::Global;

/// What stands behind the dot that a text begins with, if it does.
fn behind_dot(text: &str) -> Option<&str>
    ensures { option_copied result ≡ behind_dot text.now }
{
    match text.strip_prefix('.') {
        Some(behind) => Some(behind),
        None => None,
    }
}

/// A name as it is told: a name of a comprehension begins with dots, which aren't.
#[tactic(auto, using(crate::proofs::DotLemmas::dots_next, crate::proofs::DotLemmas::dots_end, crate::proofs::DotLemmas::dots_shorter))]
fn without_dots(name: &str) -> &str
    ensures { result.now ≡ without_dots name.now }
{
    let mut rest = name;
    while let Some(behind) = behind_dot(rest) {
        rest = behind;
    }
    rest
}

/// The name of this number, or an empty one where there is none.
#[tactic(auto, using(pt_code_facts::proofs::NameLemmas::missing_text))]
pub fn name_at(names: &Seq<Text>, number: usize) -> &str
    ensures { result.now ≡ slice_index_or names.now number [] }
{
    match names.get(number) {
        Some(name) => name.as_str(),
        None => "",
    }
}

/// A local name has no value.
pub fn unbound_local(alloc: Global, name: &str) -> Result<Progress, Memory>
    ensures { IfOk result (λ p. p ≡ local_unbound name.now) }
{
    let text = local_text(alloc, without_dots(name))?;
    Ok(Progress::FailsSaying {
        class: UNBOUND_LOCAL_ERROR,
        text,
    })
}

/// A name of a function around has no value.
fn unbound_free(alloc: Global, name: &str) -> Result<Progress, Memory>
    ensures { IfOk result (λ p. p ≡ free_unbound name.now) }
{
    let text = free_text(alloc, without_dots(name))?;
    Ok(Progress::FailsSaying {
        class: NAME_ERROR,
        text,
    })
}

/// A name of the module has no value.
pub fn unbound_global(alloc: Global, name: &str) -> Result<Progress, Memory>
    ensures { IfOk result (λ p. p ≡ global_unbound name.now) }
{
    let text = name_text(alloc, without_dots(name))?;
    Ok(Progress::FailsSaying {
        class: NAME_ERROR,
        text,
    })
}

/// The cell name of this number, or the free one, which are counted behind the cell names.
#[tactic(auto, using(pt_code_facts::proofs::NameLemmas::among_first, pt_code_facts::proofs::NameLemmas::among_last))]
fn cell_name(facts: &BlockFacts, number: usize) -> &str
    ensures { result.now ≡ cell_name (facts_view facts.now) number }
{
    let cells = facts.cells.len();
    if number < cells {
        name_at(&facts.cells, number)
    } else {
        name_at(&facts.frees, number - cells)
    }
}

/// The cell or free name of this number has no value.
pub fn unbound_cell(alloc: Global, facts: &BlockFacts, number: usize) -> Result<Progress, Memory>
    ensures { IfOk result (λ p. p ≡ cell_unbound (facts_view facts.now) number) }
{
    let name = cell_name(facts, number);
    if number < facts.cells.len() {
        unbound_local(alloc, name)
    } else {
        unbound_free(alloc, name)
    }
}
