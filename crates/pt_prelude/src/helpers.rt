ghost use Rattle.std.specs.Prelude.{◌≡◌};
ghost use Rattle.pt_prelude.specs.Helpers.{helper_named, builtin_helper, block_of, presets_of};

use crate::{Helper, Preset};
use pt_base::BlockId;
use pt_tables::Table;

static HELPERS: [(&str, Helper); 39] = [
    ("iter_of", Helper::IterOf),
    ("next_of", Helper::NextOf),
    ("next_or_of", Helper::NextOrOf),
    ("len_of", Helper::LenOf),
    ("truth_of", Helper::TruthOf),
    ("binary_of", Helper::BinaryOf),
    ("same_of", Helper::SameOf),
    ("pairs_of", Helper::PairsOf),
    ("in_of", Helper::InOf),
    ("list_of", Helper::ListOf),
    ("take_of", Helper::TakeOf),
    ("tuple_of", Helper::TupleOf),
    ("set_of", Helper::SetOf),
    ("update_of", Helper::UpdateOf),
    ("dict_of", Helper::DictOf),
    ("extend_of", Helper::ExtendOf),
    ("join_of", Helper::JoinOf),
    ("sum_of", Helper::SumOf),
    ("any_of", Helper::AnyOf),
    ("all_of", Helper::AllOf),
    ("best_of", Helper::BestOf),
    ("min_of", Helper::MinOf),
    ("max_of", Helper::MaxOf),
    ("sorted_of", Helper::SortedOf),
    ("sort_of", Helper::SortOf),
    ("map_go", Helper::MapGo),
    ("map_of", Helper::MapOf),
    ("filter_go", Helper::FilterGo),
    ("filter_of", Helper::FilterOf),
    ("zip_go", Helper::ZipGo),
    ("zip_of", Helper::ZipOf),
    ("enumerate_go", Helper::EnumerateGo),
    ("enumerate_of", Helper::EnumerateOf),
    ("reversed_go", Helper::ReversedGo),
    ("reversed_of", Helper::ReversedOf),
    ("repr_of", Helper::ReprOf),
    ("repr_in", Helper::ReprIn),
    ("str_of", Helper::StrOf),
    ("print_of", Helper::PrintOf),
];

/// The builtins that are functions of the prelude (Library Reference, "Built-in Functions").
static BUILTINS: [(&str, Helper); 15] = [
    ("list", Helper::ListOf),
    ("tuple", Helper::TupleOf),
    ("set", Helper::SetOf),
    ("dict", Helper::DictOf),
    ("sum", Helper::SumOf),
    ("min", Helper::MinOf),
    ("max", Helper::MaxOf),
    ("any", Helper::AnyOf),
    ("all", Helper::AllOf),
    ("sorted", Helper::SortedOf),
    ("map", Helper::MapOf),
    ("filter", Helper::FilterOf),
    ("zip", Helper::ZipOf),
    ("enumerate", Helper::EnumerateOf),
    ("reversed", Helper::ReversedOf),
];

/// The function of the prelude with a name, or `None` where the whole text has none.
pub fn helper(name: &str) -> Option<Helper>
    ensures { result ≡ helper_named name.now }
{
    let table: Table<'_, Helper, 39> = Table::new(&HELPERS);
    table.get(name)
}

/// The function that a builtin of this name is, or `None` where the prelude has none.
pub fn builtin(name: &str) -> Option<Helper>
    ensures { result ≡ builtin_helper name.now }
{
    let table: Table<'_, Helper, 15> = Table::new(&BUILTINS);
    table.get(name)
}

/// The block of a function in the prelude, or `None` where the text lacks it. The module is block
/// 0, and no other block stands beside the functions (Language Reference 4.1).
pub fn block(helper: Helper) -> Option<BlockId>
    ensures { result ≡ block_of helper }
{
    let number = match helper {
        Helper::IterOf => 1,
        Helper::NextOf => 2,
        Helper::NextOrOf => 3,
        Helper::LenOf => 4,
        Helper::TruthOf => 5,
        Helper::BinaryOf => 6,
        Helper::SameOf => 7,
        Helper::PairsOf => 8,
        Helper::InOf => 9,
        Helper::ListOf => 10,
        Helper::TakeOf => 11,
        Helper::TupleOf => 12,
        Helper::SetOf => 13,
        Helper::UpdateOf => 14,
        Helper::DictOf => 15,
        Helper::ExtendOf => 16,
        Helper::JoinOf => 17,
        Helper::SumOf => 18,
        Helper::AnyOf => 19,
        Helper::AllOf => 20,
        Helper::BestOf => 21,
        Helper::MinOf => 22,
        Helper::MaxOf => 23,
        Helper::SortedOf => 24,
        Helper::SortOf => 25,
        Helper::ReprOf => 26,
        Helper::ReprIn => 27,
        Helper::StrOf => 28,
        Helper::PrintOf => 29,
        Helper::MapGo
        | Helper::MapOf
        | Helper::FilterGo
        | Helper::FilterOf
        | Helper::ZipGo
        | Helper::ZipOf
        | Helper::EnumerateGo
        | Helper::EnumerateOf
        | Helper::ReversedGo
        | Helper::ReversedOf => return None,
    };
    Some(BlockId(number))
}

/// The defaults of a function: those of the last of its plain parameters, and then those of its
/// keyword-only ones (Language Reference 8.7).
pub fn presets(helper: Helper) -> &'static [Preset]
    ensures { result.now ≡ presets_of helper }
{
    match helper {
        Helper::ListOf | Helper::TupleOf | Helper::SetOf | Helper::DictOf => &[Preset::Empty],
        Helper::SumOf | Helper::EnumerateOf => &[Preset::Zero],
        Helper::BestOf => &[Preset::None],
        Helper::SortedOf => &[Preset::None, Preset::False],
        _ => &[],
    }
}
