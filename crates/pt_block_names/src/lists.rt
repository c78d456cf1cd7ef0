ghost use Rattle.std.specs.Prelude.{◌≡◌, []};

use pt_base::{Seq, Text};
use std::alloc::Global;

/// The names of a block in code, each once: parameters and other local names, names in cells of the
/// block's own, and free names, whose cells it gets as it is made (Language Reference 4.2.2).
#[derive(Debug, Drop)]
pub struct NameLists {
    pub locals: Seq<Text>,
    pub cells: Seq<Text>,
    pub frees: Seq<Text>,
}

impl NameLists {
    /// No names.
    pub fn new(alloc: Global) -> NameLists
        ensures { result ≡ record { locals = []; cells = []; frees = [] } }
    {
        NameLists {
            locals: Seq::new(alloc),
            cells: Seq::new(alloc),
            frees: Seq::new(alloc),
        }
    }
}
