ghost use Rattle.std.specs.Prelude.{◌≡◌, IfOk, IsTrue};
ghost use Rattle.pt_content.specs.pt_attrs.pt_dicts.Combine.{is_set_operator};
ghost use Rattle.pt_sets.specs.Operators.{combined_content, combined_in_place};

use pt_base::{BinOp, Memory, ObjId, What};
use pt_content::{Content, Mutable, NewObject, PrimAns, combine};
use pt_heap::{Dict, DictErr, Value};
use pt_mappings::changed;
use std::alloc::Global;

/// `|`, `&`, `-` or `^` of two sets (Library Reference, "Set Types"). Outside with the cause Length
/// for more than 4,194,304 items.
pub fn combined_content(alloc: Global, op: BinOp, a: &Dict, b: &Dict) -> Result<Content, Memory>
    requires { IsTrue (is_set_operator op) }
    ensures { IfOk result (λ content. content ≡ combined_content op a.now b.now) }
{
    match combine(alloc, op, a, b) {
        Ok(set) => Ok(Content::New(NewObject::Set(set))),
        Err(DictErr::Length) => Ok(Content::Outside(What::Length)),
        Err(DictErr::Memory) => Err(Memory),
    }
}

/// The same in an augmented assignment (Language Reference 7.2.1): the first set, which stands at a
/// place, changes.
pub fn combined_in_place(
    alloc: Global,
    op: BinOp,
    id: ObjId,
    a: &Dict,
    b: &Dict,
) -> Result<Content, Memory>
    requires { IsTrue (is_set_operator op) }
    ensures { IfOk result (λ content. content ≡ combined_in_place op id a.now b.now) }
{
    match combine(alloc, op, a, b) {
        Ok(set) => {
            let answer = PrimAns::Value(Value::Obj(id));
            Ok(changed(alloc, id, Mutable::Set(set), answer))
        }
        Err(DictErr::Length) => Ok(Content::Outside(What::Length)),
        Err(DictErr::Memory) => Err(Memory),
    }
}
