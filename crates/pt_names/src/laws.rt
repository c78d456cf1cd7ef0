ghost use Rattle.std.specs.Prelude.{◌≡◌, ℕ, List, Some};
ghost use Rattle.pt_names.specs.Names.{place_of, KeepsPlace, Named, StandsFor};

/// What is done at the place of a name is done to the name, and a name that has a place keeps it,
/// whatever is bound and whatever names are given places.
pub fn a_place_stands_for_its_name()
    ensures stands { (name : List ℕ) (names : Named) (place : ℕ)
        → place_of name names ≡ Some place → StandsFor place name names }
    ensures keeps { (name : List ℕ) (names : Named) (place : ℕ)
        → place_of name names ≡ Some place → KeepsPlace place name names }
{}
