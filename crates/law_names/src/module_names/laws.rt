//! Laws of the definitions, each the contract of a function that does nothing.

ghost use Rattle.std.specs.Prelude.{◌≡◌, ℕ, List, [], None};
ghost use Rattle.std.specs.List.{AllByRecursion};
ghost use Rattle.pt_scopes.specs.Mentions.{places_script};
ghost use Rattle.pt_scopes.specs.Refusals.{fault_of};
ghost use Rattle.pt_tree.specs.Syntax.{Name, Stms};
ghost use Rattle.sem_control.specs.control.Turn as T;
ghost use Rattle.sem_control.specs.numbering.Numbered.{IsNumbered};
ghost use Rattle.sem_names.specs.Around.{around_of, names_of};
ghost use Rattle.law_names.specs.module_names.Made.{made_stms};

/// In a script without a fault in its declarations no name of the module is free, nor one in a
/// comprehension of the module (Language Reference 4.2.2).
pub fn no_name_of_a_module_is_free<V>()
    ensures { (v : V) (ss : Stms) (within : List ℕ) (x : Name) → fault_of (places_script ss) ≡ None
        → ((around_of v ss 0).variable within x).scope ≡ T.free → ⊥ }
{}

/// No block has a name from further out than the module.
pub fn a_module_passes_no_name_on()
    ensures { (ss : Stms) → (names_of ss 0).frees ≡ [] }
{}

/// Where blocks have their numbers, what the blocks that the module makes take along is none of the
/// module's free names (Language Reference 4.2.2).
pub fn what_a_module_hands_on_is_its_own<V>()
    ensures { (v : V) (ss : Stms) → IsNumbered ss
        → AllByRecursion (λ b. AllByRecursion (λ x. x.scope ≡ T.free → ⊥)
        ((around_of v ss 0).captured b)) (made_stms ss) }
{}
