//! Pairs that are known.
ghost use Rattle.std.specs.Prelude.{◌≡◌, [], IfOk};
ghost use Rattle.pt_closure.specs.Closure.{Adds, AreSeen};

use pt_base::Memory;
use std::alloc::Global;
use std::collections::BTreeSet;

/// Pairs in the order in which they were found, each once.
#[derive(Debug, Drop)]
pub struct Found {
    pub pairs: Vec<(usize, usize)>,
    pub seen: BTreeSet<(usize, usize)>,
}

impl Found {
    pub fn new(alloc: Global) -> Found
        ensures none { result.pairs.items ≡ [] }
        ensures seen { AreSeen result }
    {
        Found {
            pairs: Vec::new(alloc),
            seen: BTreeSet::new(alloc),
        }
    }

    /// Adds a pair, unless it is known.
    pub fn add(&mut self, pair: (usize, usize)) -> Result<bool, Memory>
        requires { AreSeen self.old }
        ensures { IfOk result (λ is_new. Adds is_new pair self.old self.new) }
    {
        if !self.seen.insert(pair)? {
            return Ok(false);
        }
        self.pairs.push(pair)?;
        Ok(true)
    }
}
