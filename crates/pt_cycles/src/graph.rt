ghost use Rattle.std.specs.Prelude.{◌≡◌, ◌++◌, IfOk};
ghost use Rattle.pt_cycles.specs.Graphs.{Digraph};

use pt_base::Memory;

/// A directed graph that tells where its edges lead. Vertices are numbers below its size.
pub trait Graph {
    ghost edges: { Self → Digraph };

    /// How many vertices there are.
    fn size(&self) -> usize
        ensures { result ≡ (edges self.now).size };

    /// Adds what edges lead to from a vertex. A number that is no vertex may be among it.
    ///
    /// # Errors
    ///
    /// `Memory` for want of it.
    fn add_next(&self, vertex: usize, work: &mut Vec<usize>) -> Result<(), Memory>
        ensures { IfOk result (λ _. work.new.items
            ≡ work.old.items ++ (edges self.now).next vertex) };
}
