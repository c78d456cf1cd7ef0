//! Marks on texts, where texts that are the same have one mark: numbers that rise, so that no mark
//! need be taken off.
ghost use Rattle.std.specs.Prelude.{◌≡◌, ◌+◌, List, map, IfOk};
ghost use Rattle.std.specs.List.{list_all};
ghost use Rattle.pt_tree.specs.Syntax.{Name};
ghost use Rattle.sem_fits.specs.fits.Standing.{are_distinct, is_among};
ghost use Rattle.pt_standing.specs.Texts.{AreFresh, HasMarks, IsIdIn, MarkIs, Marked, MarksOne, text_at};

use pt_base::Memory;
use pt_budget::Budget;
use pt_instr::TextNo;

/// The number of a text that stands for all that are the same.
fn id_of(ids: &[usize], count: usize, text: u32) -> Result<usize, Memory>
    ensures { IfOk result (λ id. IsIdIn ids.now count text id) }
{
    match ids.get(text as usize) {
        Some(id) if *id < count => Ok(*id),
        _ => Err(Memory),
    }
}

fn mark_on(ids: &[usize], marks: &[usize], text: u32) -> Result<usize, Memory>
    ensures { IfOk result (λ mark. MarkIs ids.now marks.now text mark) }
{
    let id = id_of(ids, marks.len(), text)?;
    Ok(marks[id])
}

fn mark(ids: &[usize], marks: &mut [usize], text: u32, by: usize) -> Result<(), Memory>
    ensures { IfOk result (λ _. MarksOne ids.now marks.old marks.new text by) }
{
    let id = id_of(ids, marks.len(), text)?;
    marks[id] = by;
    Ok(())
}

/// Puts a mark on texts, and none has had it before.
pub fn mark_all(
    ids: &[usize],
    marks: &mut [usize],
    texts: &[TextNo],
    by: usize,
) -> Result<(), Memory>
    ensures { IfOk result (λ _. (all : List Name) → AreFresh all ids.now marks.old by
        → Marked all ids.now marks.new by (map (λ t. text_at all t.0) texts.now)) }
{
    for text in texts {
        mark(ids, marks, text.0, by)?;
    }
    Ok(())
}

/// Whether texts have a mark. Each that is looked at takes a step of the budget.
pub fn are_marked(
    ids: &[usize],
    marks: &[usize],
    list: &[u32],
    by: usize,
    budget: &mut Budget,
) -> Result<bool, Memory>
    ensures { IfOk result (λ told. (all names : List Name) → HasMarks all ids.now marks.now by names
        → told ≡ list_all (is_among names) (map (text_at all) list.now)) }
{
    for text in list {
        budget.spend(1)?;
        if mark_on(ids, marks, *text)? != by {
            return Ok(false);
        }
    }
    Ok(true)
}

/// Whether texts are different. They get a mark that none has had before.
pub fn are_distinct(
    ids: &[usize],
    marks: &mut [usize],
    list: &[u32],
    by: usize,
) -> Result<bool, Memory>
    ensures { IfOk result (λ told. (all : List Name) → AreFresh all ids.now marks.old by
        → (told ≡ are_distinct (map (text_at all) list.now))
        × AreFresh all ids.now marks.new (by + 1)) }
{
    for text in list {
        if mark_on(ids, marks, *text)? == by {
            return Ok(false);
        }
        mark(ids, marks, *text, by)?;
    }
    Ok(true)
}
