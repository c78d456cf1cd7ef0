//! The objects of functions written in Python that each run starts with, behind the builtin ones: the
//! functions, what they alone ask, and the empty tuple, which is a default (Library Reference,
//! "Built-in Functions"; Language Reference 8.7).
#![tactic(auto)]

ghost use Rattle.std.specs.Prelude.{◌≡◌, ◌<◌, IfOk, IfSome, Some, codes, length, map, option_map};
ghost use Rattle.std.specs.Prelude.{position};
ghost use Rattle.std.specs.Str.{bytes_eq};
ghost use Rattle.pt_helper_objects.specs.Objects.{bare, bindings, default_names, helper_place};
ghost use Rattle.pt_helper_objects.specs.Objects.{hidden_function, hidden_place, object_of};
ghost use Rattle.pt_helper_objects.specs.Objects.{kind_named, preset_value};
ghost use Rattle.pt_helper_objects.specs.declared.HelperKind.TheVariants as kind;
ghost use Rattle.pt_helper_objects.specs.declared.TheConstants.{EMPTY_TUPLE};
ghost use Rattle.pt_prelude.specs.Helpers.{block_of, name_of};
ghost use Rattle.pt_prelude.specs.declared.kinds.Helper.{Helper as HelperOf};

use pt_base::{BlockId, Memory, ObjId, Seq, Text};
use pt_heap::{Binding, Builtin, Dict, Function, Instance, Object, Seed, Value};
use pt_prelude::{Helper, Preset, block, presets};
use std::alloc::Global;

/// A sort of object that stands behind the builtin ones.
#[derive(Clone, Copy, Debug)]
pub enum HelperKind {
    /// A function of the prelude.
    Function(Helper),
    EmptyTuple,
    /// What only these functions ask, by its number.
    Primitive(u32),
}

/// The names of these objects, in the order of their places: the functions as they stand in the
/// text, and what they ask.
pub const HELPERS: [(&str, HelperKind); 49] = [
    ("iter_of", HelperKind::Function(Helper::IterOf)),
    ("next_of", HelperKind::Function(Helper::NextOf)),
    ("next_or_of", HelperKind::Function(Helper::NextOrOf)),
    ("len_of", HelperKind::Function(Helper::LenOf)),
    ("truth_of", HelperKind::Function(Helper::TruthOf)),
    ("binary_of", HelperKind::Function(Helper::BinaryOf)),
    ("same_of", HelperKind::Function(Helper::SameOf)),
    ("pairs_of", HelperKind::Function(Helper::PairsOf)),
    ("in_of", HelperKind::Function(Helper::InOf)),
    ("list_of", HelperKind::Function(Helper::ListOf)),
    ("take_of", HelperKind::Function(Helper::TakeOf)),
    ("tuple_of", HelperKind::Function(Helper::TupleOf)),
    ("set_of", HelperKind::Function(Helper::SetOf)),
    ("update_of", HelperKind::Function(Helper::UpdateOf)),
    ("dict_of", HelperKind::Function(Helper::DictOf)),
    ("extend_of", HelperKind::Function(Helper::ExtendOf)),
    ("join_of", HelperKind::Function(Helper::JoinOf)),
    ("sum_of", HelperKind::Function(Helper::SumOf)),
    ("any_of", HelperKind::Function(Helper::AnyOf)),
    ("all_of", HelperKind::Function(Helper::AllOf)),
    ("best_of", HelperKind::Function(Helper::BestOf)),
    ("min_of", HelperKind::Function(Helper::MinOf)),
    ("max_of", HelperKind::Function(Helper::MaxOf)),
    ("sorted_of", HelperKind::Function(Helper::SortedOf)),
    ("sort_of", HelperKind::Function(Helper::SortOf)),
    ("repr_of", HelperKind::Function(Helper::ReprOf)),
    ("repr_in", HelperKind::Function(Helper::ReprIn)),
    ("str_of", HelperKind::Function(Helper::StrOf)),
    ("print_of", HelperKind::Function(Helper::PrintOf)),
    ("()", HelperKind::EmptyTuple),
    ("_tuple", HelperKind::Primitive(28)),
    ("_set", HelperKind::Primitive(29)),
    ("_is", HelperKind::Primitive(30)),
    ("_join", HelperKind::Primitive(31)),
    ("_sort", HelperKind::Primitive(32)),
    ("_refill", HelperKind::Primitive(33)),
    ("_has", HelperKind::Primitive(34)),
    ("_get", HelperKind::Primitive(35)),
    ("_bad", HelperKind::Primitive(36)),
    ("_error", HelperKind::Primitive(37)),
    ("_holds", HelperKind::Primitive(38)),
    ("_repr", HelperKind::Primitive(39)),
    ("_dots", HelperKind::Primitive(40)),
    ("_parts", HelperKind::Primitive(41)),
    ("_wrap", HelperKind::Primitive(42)),
    ("_str", HelperKind::Primitive(43)),
    ("_bool", HelperKind::Primitive(44)),
    ("_len", HelperKind::Primitive(45)),
    ("_write", HelperKind::Primitive(46)),
];

/// The place of the empty tuple.
pub const EMPTY_TUPLE: ObjId = ObjId(114);

/// The places of builtin objects end here.
const BUILTIN_COUNT: u32 = 85;

/// The names of parameters that have a default.
fn default_names(helper: Helper) -> &'static [&'static str]
    ensures { map (λ name. name.now) result.now ≡ default_names helper }
{
    match helper {
        Helper::ListOf | Helper::TupleOf | Helper::SetOf | Helper::DictOf => &["x"],
        Helper::SumOf => &["start"],
        Helper::BestOf => &["key"],
        Helper::SortedOf => &["key", "reverse"],
        _ => &[],
    }
}

fn preset_value(preset: Preset) -> Value
    ensures { result ≡ preset_value preset }
{
    match preset {
        Preset::None => Value::None,
        Preset::False => Value::Bool(false),
        Preset::Zero => Value::Int(0),
        Preset::Empty => Value::Obj(EMPTY_TUPLE),
    }
}

/// The defaults of a function by the names of its parameters.
fn bindings(alloc: Global, names: &[&str], presets: &[Preset]) -> Result<Seq<Binding>, Memory>
    ensures { IfOk result (λ defaults.
        defaults ≡ bindings (map (λ name. name.now) names.now) presets.now) }
{
    let mut defaults = Seq::new(alloc);
    let mut others = presets;
    for name in names {
        let Some((preset, rest)) = others.split_first() else {
            return Ok(defaults);
        };
        let name = Text::from_str(alloc, name)?;
        defaults.push(Binding {
            name,
            value: preset_value(*preset),
        })?;
        others = rest;
    }
    Ok(defaults)
}

/// A function of the prelude, whose block this is.
fn hidden_function(alloc: Global, helper: Helper, block: BlockId) -> Result<Object, Memory>
    ensures { IfOk result (λ object. object ≡ hidden_function helper block) }
{
    let defaults = bindings(alloc, default_names(helper), presets(helper))?;
    Ok(Object::Function(Function {
        block,
        hidden: true,
        defaults,
        cells: Seq::new(alloc),
    }))
}

/// A bare object, which no call takes.
fn bare(alloc: Global, seed: Seed) -> Object
    ensures { result ≡ bare }
{
    Object::Instance(Instance {
        class: ObjId(0),
        names: Dict::new(alloc, seed),
    })
}

/// The object of a row. A function stands there if a run has its block.
pub fn object_of(
    alloc: Global,
    seed: Seed,
    stands: bool,
    kind: HelperKind,
) -> Result<Object, Memory>
    ensures { IfOk result (λ object. object ≡ object_of (λ (h : HelperOf). stands) kind) }
{
    match kind {
        HelperKind::Function(helper) => match block(helper) {
            Some(block) if stands => hidden_function(alloc, helper, block),
            _ => Ok(bare(alloc, seed)),
        },
        HelperKind::EmptyTuple => Ok(Object::Tuple(Seq::new(alloc))),
        HelperKind::Primitive(number) => Ok(Object::Builtin(Builtin {
            number,
            receiver: None,
        })),
    }
}

/// The place of the first row with this name.
fn place_in(rows: &[(&str, HelperKind)], name: &str) -> Option<usize>
    ensures place { result ≡ position (bytes_eq name.now) (map (λ r. r.0.now) rows.now) }
    ensures within { IfSome result (λ place. place < length rows.now) }
{
    for at in 0..rows.len() {
        if name == rows[at].0 {
            return Some(at);
        }
    }
    None
}

/// The place of the object of this name, if there is one.
pub fn hidden_place(name: &str) -> Option<ObjId>
    ensures { option_map (λ id. id.0) result ≡ hidden_place name.now }
{
    match place_in(&HELPERS, name) {
        Some(place) => Some(ObjId(BUILTIN_COUNT + place as u32)),
        None => None,
    }
}

/// The place of a function of the prelude, if the text has it: they stand as in the text, in which
/// the module is block 0.
pub fn helper_place(helper: Helper) -> Option<ObjId>
    ensures { option_map (λ id. id.0) result ≡ helper_place helper }
{
    match block(helper) {
        Some(block) => Some(ObjId(BUILTIN_COUNT - 1 + block.0)),
        None => None,
    }
}

/// Each function of the text stands in the row of its name, and the empty tuple at its place.
#[tactic(auto, using(crate::proofs::PlaceLemmas::in_rows))]
pub fn rows_stand_at_their_places()
    ensures functions { (h : HelperOf)
        → kind_named (name_of h) ≡ option_map (λ block. kind.Function h) (block_of h) }
    ensures tuple { kind_named (codes "()") ≡ Some kind.EmptyTuple }
    ensures place { hidden_place (codes "()") ≡ Some EMPTY_TUPLE.0 }
{}
