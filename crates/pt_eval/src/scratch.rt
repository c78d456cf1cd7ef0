//! A heap above a mark, to which it goes back.
ghost use Rattle.std.specs.Prelude.{◌≡◌, true, IfOk, OnOk};
ghost use Rattle.law_additions.specs.Additions.{only_adds};
ghost use Rattle.pt_prims.specs.Operations.{prim_answer, prim_heap};
ghost use Rattle.pt_eval.specs.Evaluation.{new_object};
ghost use Rattle.pt_eval.specs.Steps.{Comes};

use crate::no_value::NoValue;
use pt_base::{Failure, Memory, What};
use pt_content::{Op, PrimAns};
use pt_heap::{Heap, HeapErr, Mark, Object, Value};
use pt_prims::prim;
use std::alloc::Global;
use std::marker::Model;

/// A heap whose objects above a mark are for an evaluation alone.
#[derive(Drop)]
pub struct Scratch {
    heap: Heap,
    mark: Mark,
}

impl Model for Scratch {
    ghost use Rattle.std.specs.Prelude.{◌≤◌, length, take};
    ghost use Rattle.pt_eval.specs.Scratch.{Marked};

    ghost Value = { Marked };

    ghost view = { λ s. record { objects = s.heap; below = take s.mark.0 s.heap } };

    ghost invariant = { λ s. s.mark.0 ≤ length s.heap };
}

impl Scratch {
    /// Above all objects that a heap has.
    pub fn above(heap: Heap) -> Scratch
        ensures objects { result.objects ≡ heap }
        ensures below { result.below ≡ heap }
    {
        let mark = heap.mark();
        Scratch { heap, mark }
    }

    /// All objects.
    pub fn heap(&self) -> &Heap
        ensures { result.now ≡ self.now.objects }
    {
        &self.heap
    }

    /// An operation that leaves all objects as they are.
    #[tactic(auto, using(crate::proofs::Marks::kept))]
    pub fn prim(&mut self, alloc: Global, op: Op, args: &[Value]) -> Result<PrimAns, Memory>
        requires { only_adds op ≡ true }
        ensures answer { IfOk result (λ a. a ≡ prim_answer op args.now self.old.objects) }
        ensures heap { OnOk result (self.new.objects ≡ prim_heap op args.now self.old.objects) }
        ensures below { self.new.below ≡ self.old.below }
    {
        prim(alloc, op, args, &mut self.heap)
    }

    /// A new object, if there is room for it.
    #[tactic(auto, using(crate::proofs::Marks::kept), unfolding(crate::specs::Evaluation::new_object))]
    pub fn add(&mut self, object: Object) -> Result<Value, Failure<NoValue>>
        ensures came { Comes (new_object object self.old.objects) result self.new.objects }
        ensures below { self.new.below ≡ self.old.below }
    {
        match self.heap.add(object) {
            Ok(id) => Ok(Value::Obj(id)),
            Err(HeapErr::HeapFull) => Err(Failure::Refused(NoValue::Outside(What::Heap))),
            Err(HeapErr::Memory) => Err(Failure::Memory),
        }
    }

    /// The heap as it was.
    pub fn back(self) -> Heap
        ensures { result ≡ self.below }
    {
        let Scratch { mut heap, mark } = self;
        heap.back(mark);
        heap
    }
}
