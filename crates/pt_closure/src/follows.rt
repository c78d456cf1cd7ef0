ghost use Rattle.std.specs.Prelude.{◌≡◌, ◌++◌, List, IfOk};
ghost use Rattle.pt_closure.specs.Closure.{Pair};

use pt_base::Memory;

/// What follows from pairs of numbers. `tells` says what has to be known for it.
pub trait Follows {
    ghost tells: { Self → (Pair → List Pair) → Type 0 };

    /// How many ways on are looked at for what follows from a pair.
    fn looks(&self, pair: (usize, usize)) -> usize;

    /// Adds what follows from a pair.
    ///
    /// # Errors
    ///
    /// `Memory` for want of it.
    fn add_next(&self, pair: (usize, usize), work: &mut Vec<(usize, usize)>) -> Result<(), Memory>
        ensures { IfOk result (λ _. (next : Pair → List Pair) → tells self.now next
            → work.new.items ≡ work.old.items ++ next pair) };
}
