//! Laws of the numbers by which comprehensions are known, each the contract of a function that does
//! nothing.

ghost use Rattle.std.specs.Prelude.{◌≡◌, ℕ, slice_get, Some};
ghost use Rattle.pt_scopes.specs.declared.region.Region.{Region};
ghost use Rattle.pt_scopes.specs.Mentions.{places_script};
ghost use Rattle.pt_tree.specs.Syntax.{Stms};
ghost use Rattle.sem_names.specs.Nexts.{nexts_script};
ghost use Rattle.sem_names.specs.Regions.{numbered};

/// A comprehension is the one of its block whose first `Next` has its number: no other of the block
/// has the same (Language Reference 6.2.4).
pub fn a_number_is_of_one_comprehension()
    ensures { (ss : Stms) (r n : ℕ) (here : Region)
        → slice_get (places_script ss).regions r ≡ Some here
        → slice_get (nexts_script ss) r ≡ Some (Some n)
        → numbered (places_script ss).regions (nexts_script ss) here.home n ≡ Some r }
{}
