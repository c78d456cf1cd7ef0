ghost use Rattle.pt_heap.specs.Limits.{object_limit};
ghost use Rattle.pt_heap.specs.Sound.{FitsLast, MayReplace, IsClosedBelow, StaysSound};
ghost use Rattle.pt_heap.specs.declared.heap.HeapErr.TheVariants.{Memory as out_of_memory};
ghost use Rattle.std.specs.Prelude.{◌≡◌, [], ◌∷◌, ◌++◌, ◌<◌, ◌↔◌, Some, Err, length, take, slice_get, slice_set, OnOk, OnErr, IfOk};

use crate::{Object, Seed};
use pt_base::{Dup, Memory, ObjId};
use std::alloc::Global;
use std::marker::Model;
use std::mem;

/// The most objects that a heap may have.
const OBJECT_LIMIT: usize = 16_777_216;

/// Why an object was not added.
#[derive(Clone, Copy, Debug, PartialEq, Eq)]
pub enum HeapErr {
    /// The heap has as many objects as it may have.
    HeapFull,
    Memory,
}

impl From<Memory> for HeapErr {
    ghost from_gives = { λ _ e. e ≡ out_of_memory };

    fn from(_: Memory) -> Self {
        HeapErr::Memory
    }
}

/// How many objects a heap has, to go back to.
#[derive(Clone, Copy, Debug, PartialEq, Eq)]
pub struct Mark(u32);

/// The objects of a run, each at its place. Contracts see the list of the objects.
#[derive(Drop)]
pub struct Heap {
    objects: Vec<Object>,
    seed: Seed,
}

impl Model for Heap {
    ghost use Rattle.std.specs.Prelude.{◌≤◌, List, length};
    ghost use Rattle.pt_heap.specs.Limits.{object_limit};
    ghost use Rattle.pt_heap.specs.declared.object.Object.{Object};

    ghost Value = { List Object };

    ghost view = { λ h. h.objects.items };

    ghost invariant = { λ h. length h.objects.items ≤ object_limit };
}

/// Puts an object behind the last.
fn push(objects: &mut Vec<Object>, object: Object) -> Result<(), Memory>
    ensures ok { OnOk result (objects.new.items ≡ objects.old.items ++ object ∷ []) }
    ensures err { OnErr result (objects.new.items ≡ objects.old.items) }
{
    objects.push(object)?;
    Ok(())
}

impl Heap {
    /// A heap with no object. Dictionaries that go into it are to have the seed.
    pub fn new(alloc: Global, seed: Seed) -> Heap
        ensures { result ≡ [] }
    {
        Heap {
            objects: Vec::new(alloc),
            seed,
        }
    }

    /// The seed of its dictionaries. No clause speaks of it, since nothing that is answered depends
    /// on it.
    pub fn seed(&self) -> Seed {
        self.seed
    }

    /// The number of objects.
    pub fn len(&self) -> u32
        ensures { result ≡ length self.now }
    {
        self.objects.len() as u32
    }

    /// Puts an object behind the last, and answers its place.
    pub fn add(&mut self, object: Object) -> Result<ObjId, HeapErr>
        ensures ok { OnOk result (self.new ≡ self.old ++ object ∷ []) }
        ensures place { IfOk result (λ id. id.0 ≡ length self.old) }
        ensures err { OnErr result (self.new ≡ self.old) }
        ensures full { (result ≡ Err HeapErr.HeapFull) ↔ (length self.old ≡ object_limit) }
        ensures sound { OnOk result (StaysSound self.old self.new (λ _. FitsLast self.old object)) }
    {
        let place = self.objects.len();
        if place >= OBJECT_LIMIT {
            return Err(HeapErr::HeapFull);
        }
        push(&mut self.objects, object)?;
        Ok(ObjId(place as u32))
    }

    /// The object at a place.
    pub fn get(&self, id: ObjId) -> &Object
        requires { id.0 < length self.now }
        ensures { slice_get self.now id.0 ≡ Some result.now }
    {
        &self.objects[id.0 as usize]
    }

    /// Puts an object in the place of another, which it hands back.
    pub fn set(&mut self, id: ObjId, object: Object) -> Object
        requires { id.0 < length self.old }
        ensures new { self.new ≡ slice_set self.old id.0 object }
        ensures old { slice_get self.old id.0 ≡ Some result }
        ensures sound { StaysSound self.old self.new (λ b. MayReplace b self.old id.0 object) }
    {
        mem::replace(&mut self.objects[id.0 as usize], object)
    }

    /// How many objects there are, to go back to.
    pub fn mark(&self) -> Mark
        ensures { result.0 ≡ length self.now }
    {
        Mark(self.objects.len() as u32)
    }

    /// Takes the objects behind a mark off.
    pub fn back(&mut self, mark: Mark)
        ensures new { self.new ≡ take mark.0 self.old }
        ensures sound { StaysSound self.old self.new (λ b. IsClosedBelow b self.old mark.0) }
    {
        self.objects.truncate(mark.0 as usize);
    }
}

impl Dup for Heap {
    fn dup(&self, alloc: Global) -> Result<Heap, Memory> {
        let mut objects = Vec::new(alloc);
        for object in self.objects.as_slice() {
            let object = object.dup(alloc)?;
            objects.push(object)?;
        }
        Ok(Heap {
            objects,
            seed: self.seed,
        })
    }
}
