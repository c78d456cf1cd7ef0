//! How much text a code names. Before a run its blocks and lists get copies of the texts that they
//! name, and the text of each constant is hashed. So a long text that is named often costs the
//! product of both, in a short code file.

ghost use Rattle.std.specs.Prelude.{◌≡◌, ◌+◌, length, nat_lt};
ghost use Rattle.std.specs.List.{flat_map};
ghost use Rattle.pt_strs.specs.Answer.{counted};
ghost use Rattle.sem_code.specs.slots.BlockObject.{text_in};
ghost use Rattle.pt_run_code.specs.NamedText.{block_text, constant_text, listed_text, names_text};
ghost use Rattle.pt_run_code.specs.NamedText.{named_text, named_text_limit};

use pt_base::{Seq, Text};
use pt_code::{Code, CodeBlock, Const};
use pt_instr::TextNo;

/// How many bytes of text a code may name, each text as often as it is named.
const NAMED_TEXT_LIMIT: u64 = 1_073_741_824;

/// The bytes of the text of a number; none where there is no such text.
#[tactic(auto, using(pt_code_facts::proofs::NumberedLemmas::none_in))]
fn length_in(texts: &Seq<Text>, number: u32) -> u64
    ensures { result ≡ length (text_in texts.now number) }
{
    match texts.get(number as usize) {
        Some(text) => text.as_str().len() as u64,
        None => 0,
    }
}

/// A count of bytes with that of the texts of numbers.
fn with_listed(sum: u64, texts: &Seq<Text>, numbers: &[u32]) -> u64
    ensures { result ≡ counted (sum + length (listed_text texts.now numbers.now)) }
{
    let mut sum = sum;
    for number in numbers {
        sum = sum.saturating_add(length_in(texts, *number));
    }
    sum
}

/// The same of names.
fn with_names(sum: u64, texts: &Seq<Text>, names: &[TextNo]) -> u64
    ensures { result ≡ counted (sum + length (names_text texts.now names.now)) }
{
    let mut sum = sum;
    for name in names {
        sum = sum.saturating_add(length_in(texts, name.0));
    }
    sum
}

/// The same of all that the blocks name.
fn with_blocks(sum: u64, texts: &Seq<Text>, blocks: &[CodeBlock]) -> u64
    ensures { result ≡ counted (sum + length (flat_map (block_text texts.now) blocks.now)) }
{
    let mut sum = sum;
    for block in blocks {
        sum = sum.saturating_add(length_in(texts, block.name.0));
        sum = with_names(sum, texts, block.locals.as_slice());
        sum = with_names(sum, texts, block.cells.as_slice());
        sum = with_names(sum, texts, block.free.as_slice());
    }
    sum
}

/// The same of lists.
fn with_lists(sum: u64, texts: &Seq<Text>, lists: &[Seq<u32>]) -> u64
    ensures { result ≡ counted (sum + length (flat_map (listed_text texts.now) lists.now)) }
{
    let mut sum = sum;
    for list in lists {
        sum = with_listed(sum, texts, list.as_slice());
    }
    sum
}

/// The bytes of a constant that is a text.
fn length_of(texts: &Seq<Text>, constant: Const) -> u64
    ensures { result ≡ length (constant_text texts.now constant) }
{
    match constant {
        Const::Text(number) => length_in(texts, number.0),
        _ => 0,
    }
}

/// A count of bytes with that of constants which are texts.
fn with_constants(sum: u64, texts: &Seq<Text>, constants: &[Const]) -> u64
    ensures { result ≡ counted (sum + length (flat_map (constant_text texts.now) constants.now)) }
{
    let mut sum = sum;
    for constant in constants {
        sum = sum.saturating_add(length_of(texts, *constant));
    }
    sum
}

/// Whether a code names more text than it may, in time linear in the code.
pub fn names_too_much(code: &Code) -> bool
    ensures { result ≡ nat_lt named_text_limit (length (named_text code.now)) }
{
    let sum = with_blocks(0, &code.texts, code.blocks.as_slice());
    let sum = with_lists(sum, &code.texts, code.lists.as_slice());
    let sum = with_constants(sum, &code.texts, code.constants.as_slice());
    sum > NAMED_TEXT_LIMIT
}
