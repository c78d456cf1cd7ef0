ghost use Rattle.std.specs.Prelude.{◌≡◌, ◌++◌, ◌∷◌, ◌≤◌, [], None, is_some, length, IsTrue};
ghost use Rattle.pt_heap.specs.Entries.{entry, found};
ghost use Rattle.pt_heap.specs.Limits.{entry_limit};
ghost use Rattle.pt_dicts.specs.Adding.{chosen, is_chosen, Adds, AreNew};
ghost use Rattle.pt_dicts.specs.Combine.{combined, difference, is_set_operator, limited, Answers};

use pt_base::{BinOp, Dup};
use pt_heap::{Dict, DictErr, Key, Value};
use std::alloc::Global;

/// Which items of a set are taken, beside another set.
#[derive(Clone, Copy, Debug)]
enum Choice {
    All,
    /// Those that the other set has.
    Common,
    /// Those that it lacks.
    Missing,
}

/// Whether the item with a key is taken.
fn is_chosen(choice: Choice, other: &Dict, key: &Key) -> bool
    ensures { result ≡ is_chosen choice (is_some (found key.now other.now)) }
{
    let there = other.get(key).is_some();
    match choice {
        Choice::All => true,
        Choice::Common => there,
        Choice::Missing => !there,
    }
}

/// Puts a new item behind others.
fn add_item(
    alloc: Global,
    to: &mut Dict,
    key: &Key,
    first: Value,
    value: Value,
) -> Result<(), DictErr>
    requires new { found key.now to.old ≡ None }
    requires room { length to.old ≤ entry_limit }
    ensures { Adds to.new result (limited (to.old ++ entry key.now first value ∷ [])) }
{
    let key = key.dup(alloc)?;
    match to.insert(key, first, value) {
        Ok(_) => Ok(()),
        Err(error) => Err(error),
    }
}

/// Puts the chosen items of a set behind others.
fn add_chosen(
    alloc: Global,
    to: &mut Dict,
    choice: Choice,
    from: &Dict,
    other: &Dict,
) -> Result<(), DictErr>
    requires new { AreNew to.old (chosen choice other.now from.now) }
    requires room { length to.old ≤ entry_limit }
    ensures { Adds to.new result (limited (to.old ++ chosen choice other.now from.now)) }
{
    let mut left = from.entries();
    while let Some(entry) = left.next() {
        if is_chosen(choice, other, entry.key) {
            add_item(alloc, to, entry.key, entry.first, entry.value)?;
        }
    }
    Ok(())
}

/// Puts the chosen items of one set into an empty one, and behind them those that the other has
/// alone.
fn add_both(alloc: Global, to: &mut Dict, choice: Choice, a: &Dict, b: &Dict) -> Result<(), DictErr>
    requires { to.old ≡ [] }
    ensures { Adds to.new result (limited (chosen choice b.now a.now ++ difference b.now a.now)) }
{
    add_chosen(alloc, to, choice, a, b)?;
    add_chosen(alloc, to, Choice::Missing, b, a)
}

/// Puts what an operation on two sets gives into an empty one.
fn add_combined(alloc: Global, to: &mut Dict, op: BinOp, a: &Dict, b: &Dict) -> Result<(), DictErr>
    requires empty { to.old ≡ [] }
    requires operator { IsTrue (is_set_operator op) }
    ensures { Adds to.new result (limited (combined op a.now b.now)) }
{
    match op {
        BinOp::BitOr => add_both(alloc, to, Choice::All, a, b),
        BinOp::BitAnd => add_chosen(alloc, to, Choice::Common, a, b),
        BinOp::Sub => add_chosen(alloc, to, Choice::Missing, a, b),
        BinOp::BitXor => add_both(alloc, to, Choice::Missing, a, b),
        _ => unreachable!(),
    }
}

/// One of the operations `|`, `&`, `-` and `^` on two sets (Library Reference, "Set Types"): the
/// first set's items come in their order, and then the second's. Length where there are more than
/// 4,194,304.
pub fn combine(alloc: Global, op: BinOp, a: &Dict, b: &Dict) -> Result<Dict, DictErr>
    requires { IsTrue (is_set_operator op) }
    ensures { Answers result (limited (combined op a.now b.now)) }
{
    let mut result = Dict::new(alloc, a.seed());
    add_combined(alloc, &mut result, op, a, b)?;
    Ok(result)
}
