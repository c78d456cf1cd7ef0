ghost use Rattle.std.specs.Prelude.{◌≡◌};
ghost use Rattle.pt_prelude.specs.Asked.{function_of};

use crate::Helper;
use pt_content::Helper as Asked;

/// The function of the prelude that an operation on values asks.
pub fn function_of(asked: Asked) -> Helper
    ensures { result ≡ function_of asked }
{
    match asked {
        Asked::TruthOf => Helper::TruthOf,
        Asked::BinaryOf(_) => Helper::BinaryOf,
        Asked::PrintOf => Helper::PrintOf,
        Asked::StrOf => Helper::StrOf,
        Asked::ReprOf => Helper::ReprOf,
        Asked::LenOf => Helper::LenOf,
        Asked::IterOf => Helper::IterOf,
        Asked::NextOf => Helper::NextOf,
        Asked::NextOrOf => Helper::NextOrOf,
        Asked::InOf => Helper::InOf,
        Asked::SameOf => Helper::SameOf,
        Asked::PairsOf => Helper::PairsOf,
        Asked::TakeOf(_) => Helper::TakeOf,
        Asked::ListOf => Helper::ListOf,
        Asked::TupleOf => Helper::TupleOf,
        Asked::SetOf => Helper::SetOf,
        Asked::DictOf => Helper::DictOf,
        Asked::ExtendOf => Helper::ExtendOf,
        Asked::UpdateOf => Helper::UpdateOf,
        Asked::JoinOf => Helper::JoinOf,
        Asked::SortOf => Helper::SortOf,
    }
}
