//! The values of constants. Those of texts are objects that stand behind the start objects of a
//! run, one for each text.
ghost use Rattle.std.specs.Prelude.{◌≡◌, ◌+◌, ◌++◌, List, ℕ, IfOk, OnOk, length};
ghost use Rattle.std.specs.Map.{keys_of};
ghost use Rattle.std.specs.Str.{bytes_eq};
ghost use Rattle.pt_assembler.specs.Tables.{kept, number_in};
ghost use Rattle.pt_code_tables.specs.pt_builtins.pt_host.World.{Program};
ghost use Rattle.pt_code_tables.specs.pt_builtins.pt_host.Answers.{constant_value};
ghost use Rattle.sem_code.specs.slots.BlockObject.{constant_of};
ghost use Rattle.pt_builtin_objects.specs.Start.{start_rows};
ghost use Rattle.pt_helper_objects.specs.Objects.{helper_rows};
ghost use Rattle.std.specs.List.{flat_map};
ghost use Rattle.pt_code_loader.specs.Texts.{AreValues, kept_texts, program_texts, text_of};
ghost use Rattle.pt_code_loader.specs.Texts.{values_in};

use crate::names::text_at;
use pt_base::{Memory, ObjId, Seq, Text};
use pt_builtin_objects::START;
use pt_code::{Code, Const};
use pt_heap::{Seed, Value};
use pt_helper_objects::HELPERS;
use pt_names::Names;
use std::alloc::Global;

/// Texts, each once, with the place of each.
#[derive(Drop)]
struct TextPlaces {
    texts: Seq<Text>,
    /// The same as names, which are found by their texts.
    places: Names,
}

/// The place of a text, which is put behind the others where it isn't there.
#[tactic(auto, using(crate::proofs::TextLemmas::names_kept, crate::proofs::TextLemmas::place_is, crate::proofs::TextLemmas::kept_end, crate::proofs::TextLemmas::kept_there))]
fn place_of(alloc: Global, known: &mut TextPlaces, text: &str) -> Result<usize, Memory>
    requires { known.old.texts ≡ keys_of known.old.places }
    ensures texts { OnOk result
        (known.new.texts ≡ kept (bytes_eq text.now) text.now known.old.texts) }
    ensures places { OnOk result (known.new.texts ≡ keys_of known.new.places) }
    ensures place { IfOk result (λ place. place ≡ number_in (bytes_eq text.now) known.old.texts) }
{
    let place = known.places.place(alloc, text)?;
    if place == known.texts.len() {
        let text = Text::from_str(alloc, text)?;
        known.texts.push(text)?;
    }
    Ok(place)
}

/// The object of the text at a place.
#[tactic(auto, using(crate::proofs::TextLemmas::as_many_rows, crate::proofs::TextLemmas::as_many_helpers))]
fn object_at(place: usize) -> Result<ObjId, Memory>
    ensures { IfOk result (λ id. id.0 ≡ length start_rows + length helper_rows + place) }
{
    let number = (START.len() + HELPERS.len())
        .checked_add(place)
        .ok_or(Memory)?;
    let number = u32::try_from(number).map_err(|_| Memory)?;
    Ok(ObjId(number))
}

/// The value of a constant, whose text is known from then on.
fn value_of(
    alloc: Global,
    texts: &Seq<Text>,
    constant: Const,
    known: &mut TextPlaces,
) -> Result<Value, Memory>
    requires { known.old.texts ≡ keys_of known.old.places }
    ensures texts { OnOk result
        (known.new.texts ≡ kept_texts known.old.texts (text_of texts.now constant)) }
    ensures places { OnOk result (known.new.texts ≡ keys_of known.new.places) }
    ensures value { IfOk result (λ value. (program : Program) (more : List (List ℕ))
        → program.texts ≡ known.new.texts ++ more
        → value ≡ constant_value program (constant_of texts.now constant)) }
{
    match constant {
        Const::None => Ok(Value::None),
        Const::False => Ok(Value::Bool(false)),
        Const::True => Ok(Value::Bool(true)),
        Const::Int(number) => Ok(Value::Int(number)),
        Const::Ellipsis => Ok(Value::Ellipsis),
        Const::Text(number) => {
            let place = place_of(alloc, known, text_at(texts, number.0))?;
            Ok(Value::Obj(object_at(place)?))
        }
    }
}

/// The values of the constants of a code with these texts, behind others.
fn values_of(
    alloc: Global,
    texts: &Seq<Text>,
    constants: &[Const],
    known: &mut TextPlaces,
) -> Result<Seq<Value>, Memory>
    requires { known.old.texts ≡ keys_of known.old.places }
    ensures texts { OnOk result (known.new.texts
        ≡ kept_texts known.old.texts (flat_map (text_of texts.now) constants.now)) }
    ensures places { OnOk result (known.new.texts ≡ keys_of known.new.places) }
    ensures values { IfOk result (λ values. (program : Program) (more : List (List ℕ))
        → program.texts ≡ known.new.texts ++ more
        → values ≡ values_in texts.now constants.now program) }
{
    let mut values = Seq::new(alloc);
    for constant in constants {
        let value = value_of(alloc, texts, *constant, known)?;
        values.push(value)?;
    }
    Ok(values)
}

/// The values of the constants of a prelude and of a code over it, and their texts, each once.
#[derive(Drop)]
pub struct Constants {
    pub of_prelude: Seq<Value>,
    pub of_code: Seq<Value>,
    pub texts: Seq<Text>,
}

/// The values of the constants of a code over a prelude. It takes expected constant time for each.
///
/// # Errors
///
/// `Memory` for want of it, and where there are more texts than a run has numbers for objects.
pub fn constants_of(
    alloc: Global,
    seed: Seed,
    prelude: &Code,
    code: &Code,
) -> Result<Constants, Memory>
    ensures texts { IfOk result (λ c. c.texts ≡ program_texts prelude.now code.now) }
    ensures of_prelude { IfOk result
        (λ c. AreValues prelude.now.texts prelude.now.constants c.texts c.of_prelude) }
    ensures of_code { IfOk result
        (λ c. AreValues code.now.texts code.now.constants c.texts c.of_code) }
{
    let mut known = TextPlaces {
        texts: Seq::new(alloc),
        places: Names::new(alloc, seed),
    };
    let of_prelude = values_of(
        alloc,
        &prelude.texts,
        prelude.constants.as_slice(),
        &mut known,
    )?;
    let of_code = values_of(alloc, &code.texts, code.constants.as_slice(), &mut known)?;
    let TextPlaces { texts, places: _ } = known;
    Ok(Constants {
        of_prelude,
        of_code,
        texts,
    })
}
