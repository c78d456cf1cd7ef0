//! A list of kinds, as it is looked at.
ghost use Rattle.std.specs.Prelude.{◌≡◌, ◌<◌, length, slice_get, IfSome};
ghost use Rattle.pt_place_slots.specs.Kinds.{IsKinds, TellsTop, kinds_of};

use pt_instr::Kind;
use pt_kinds::Forest;

/// The kinds of the slots at a place, the top last. It is a view and no slice, since a block that
/// fits may have 16,777,216 slots at each of as many places: its list is kept as runs of one kind.
#[derive(Clone, Copy, Debug)]
pub struct KindsAt<'a> {
    forest: &'a Forest,
    list: usize,
}

/// The slots of one kind on top of a list, and the list below them.
#[derive(Clone, Copy, Debug)]
pub struct TopRun<'a> {
    pub kind: Kind,
    pub count: u64,
    pub below: KindsAt<'a>,
}

impl<'a> KindsAt<'a> {
    pub(crate) fn new(forest: &'a Forest, list: usize) -> KindsAt<'a>
        ensures forest { result.forest.now ≡ forest.now }
        ensures list { result.list ≡ list }
    {
        KindsAt { forest, list }
    }

    /// How many slots there are.
    pub fn len(&self) -> u64
        requires { IsKinds self.now }
        ensures { result ≡ length (kinds_of self.now) }
    {
        self.forest.len(self.list)
    }

    /// The kind of a slot, counted from the lowest. Of a list of n runs it takes O(log n) steps.
    pub fn get(&self, slot: u64) -> Option<Kind>
        requires { IsKinds self.now }
        ensures { result ≡ slice_get (kinds_of self.now) slot }
    {
        self.forest.slot(self.list, slot)
    }

    /// The topmost slots of one kind, and the list below; None of no slots.
    pub fn top(&self) -> Option<TopRun<'a>>
        requires { IsKinds self.now }
        ensures { TellsTop (kinds_of self.now) result }
    {
        if self.list == 0 {
            return None;
        }
        let node = self.forest.nodes[self.list];
        Some(TopRun {
            kind: node.kind,
            count: node.count,
            below: KindsAt {
                forest: self.forest,
                list: node.parent,
            },
        })
    }
}
