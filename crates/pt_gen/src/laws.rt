ghost use Rattle.std.specs.Prelude.{◌≡◌, ◌<◌, ℕ, List, Some, Ok, length, slice_get, slice_set};
ghost use Rattle.pt_gen.specs.declared.generator.Generator.{Generator};
ghost use Rattle.pt_gen.specs.declared.generator.Generator.TheVariants.{Suspended};
ghost use Rattle.pt_gen.specs.States.{resumption};
ghost use Rattle.std.specs.Option.{option_map};
ghost use Rattle.pt_gen.specs.declared.generator.How.{How};

/// A generator that is resumed goes on with the activation that was suspended, whatever it is and
/// however the generator is resumed.
pub fn suspended_goes_on<A>()
    ensures { (gens : List (Generator A)) (n : ℕ) (a : A) (how : How) → n < length gens
        → option_map (resumption how) (slice_get (slice_set gens n (Suspended a)) n) ≡ Some (Ok a) }
{}
