//! Numbers of texts, so that two texts are compared in constant time.
ghost use Rattle.std.specs.Prelude.{◌≡◌, ℕ, IfOk, List};
ghost use Rattle.pt_standing.specs.Texts.{AreIds, IdGiven};

use pt_base::{Memory, Text};
use std::alloc::Global;
use std::collections::BTreeMap;

/// The number of a text: the one that it has, or else a new one.
fn id_of(
    alloc: Global,
    known: &mut BTreeMap<String, usize>,
    text: &str,
    number: usize,
) -> Result<usize, Memory>
    ensures { IfOk result (λ id. IdGiven known.old known.new text.now number id) }
{
    if let Some(id) = known.get(text) {
        return Ok(*id);
    }
    known.insert(String::from_str(alloc, text)?, number)?;
    Ok(number)
}

/// A number for each text: the place of the first one that is the same. For texts of n bytes in all
/// it takes time O(n log n).
///
/// # Errors
///
/// `Memory` for want of it.
pub fn ids_of(alloc: Global, texts: &[Text]) -> Result<Vec<usize>, Memory>
    ensures { IfOk result (λ ids. AreIds texts.now ids.items) }
{
    let mut known = BTreeMap::new(alloc);
    let mut ids = Vec::new(alloc);
    for number in 0..texts.len() {
        let id = id_of(alloc, &mut known, texts[number].as_str(), number)?;
        ids.push(id)?;
    }
    Ok(ids)
}
