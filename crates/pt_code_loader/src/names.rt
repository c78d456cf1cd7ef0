//! What the numbers of texts and of lists of texts name.
ghost use Rattle.std.specs.Prelude.{◌≡◌, IfOk, map};
ghost use Rattle.pt_code_tables.specs.pt_builtins.pt_host.Builtins.{meaning};
ghost use Rattle.sem_code.specs.slots.BlockObject.{text_in};
ghost use Rattle.pt_code_tables.specs.pt_builtins.Lookups.{builtin_view};
ghost use Rattle.pt_code_loader.specs.Loaded.{listed_texts};

use pt_base::{Memory, Seq, Text};
use pt_code_tables::{BuiltinLookup, meaning};
use std::alloc::Global;

/// The text of a number; the empty one where there is none.
#[tactic(auto, using(pt_code_facts::proofs::NumberedLemmas::none_in))]
pub fn text_at(texts: &Seq<Text>, number: u32) -> &str
    ensures { result.now ≡ text_in texts.now number }
{
    match texts.get(number as usize) {
        Some(text) => text.as_str(),
        None => "",
    }
}

/// A copy of it.
pub fn text_in(alloc: Global, texts: &Seq<Text>, number: u32) -> Result<Text, Memory>
    ensures { IfOk result (λ text. text ≡ text_in texts.now number) }
{
    Text::from_str(alloc, text_at(texts, number))
}

fn listed_texts(alloc: Global, texts: &Seq<Text>, list: &[u32]) -> Result<Seq<Text>, Memory>
    ensures { IfOk result (λ names. names ≡ listed_texts texts.now list.now) }
{
    let mut names = Seq::new(alloc);
    for number in list {
        let name = text_in(alloc, texts, *number)?;
        names.push(name)?;
    }
    Ok(names)
}

/// The lists of a code as texts.
pub fn lists_of(
    alloc: Global,
    texts: &Seq<Text>,
    lists: &[Seq<u32>],
) -> Result<Seq<Seq<Text>>, Memory>
    ensures { IfOk result (λ named. named ≡ map (listed_texts texts.now) lists.now) }
{
    let mut named = Seq::new(alloc);
    for list in lists {
        let names = listed_texts(alloc, texts, list.as_slice())?;
        named.push(names)?;
    }
    Ok(named)
}

/// What each text means by itself, as a name in hidden blocks, or in others.
pub fn builtins_of(
    alloc: Global,
    hidden: bool,
    texts: &[Text],
) -> Result<Seq<BuiltinLookup>, Memory>
    ensures { IfOk result (λ found. map builtin_view found ≡ map (meaning hidden) texts.now) }
{
    let mut found = Seq::new(alloc);
    for text in texts {
        let lookup = meaning(hidden, text.as_str());
        found.push(lookup)?;
    }
    Ok(found)
}
