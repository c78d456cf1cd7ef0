//! Laws of the definitions, each the contract of a function that does nothing.

ghost use Rattle.std.specs.Prelude.{◌≡◌, ◌⊎◌, ℕ, List, [], ◌∷◌, length, slice_get, Some, codes};
ghost use Rattle.pt_scopes.specs.declared.region.Region.{Region};
ghost use Rattle.std.specs.Option.{unwrap_or};
ghost use Rattle.pt_scopes.specs.Mentions.{places_script};
ghost use Rattle.pt_scopes.specs.Names.{mangled};
ghost use Rattle.pt_scopes.specs.Places.{Places};
ghost use Rattle.pt_scopes.specs.Rows as row;
ghost use Rattle.pt_tree.specs.Blocks.{Block, blocks_script};
ghost use Rattle.pt_tree.specs.Syntax.{Name, Stms};
ghost use Rattle.sem_control.specs.control.Turn as T;
ghost use Rattle.sem_names.specs.Around.{around_of, names_of};
ghost use Rattle.sem_names.specs.BlockNames.{captured_at, free_names};
ghost use Rattle.sem_names.specs.Laws.{HaveCells, IsClassBody};
ghost use Rattle.sem_names.specs.Naming.{own, owned, variable};

/// A name of a comprehension, as one of a function, is local in its block or in a cell.
pub fn what_is_owned_is_local_or_a_cell()
    ensures { (g : Places) (q : ℕ) (x : Name)
        → ((owned g q x).scope ≡ T.local) ⊎ ((owned g q x).scope ≡ T.cell) }
{}

/// Outside of comprehensions a name has its scope, by its spelling: with the innermost class around
/// its block.
pub fn names_have_their_scopes<V>()
    ensures { (v : V) (ss : Stms) (b : ℕ) (k : Block) (x : Name)
        → slice_get (blocks_script ss) b ≡ Some k
        → (around_of v ss b).variable [] x
        ≡ own (places_script ss) b (mangled (unwrap_or k.class []) x) }
{}

/// Names of a class are those of its body alone, outside of comprehensions.
pub fn names_of_a_class_are_in_its_body<V>()
    ensures { (v : V) (ss : Stms) (b : ℕ) (within : List ℕ) (x : Name)
        → ((around_of v ss b).variable within x).scope ≡ T.of_class
        → (within ≡ []) × IsClassBody (places_script ss) b }
{}

/// What a block takes along is in a cell of its maker: the maker's own, or one that it has from around.
pub fn what_is_taken_along_is_in_a_cell<V>()
    ensures { (v : V) (ss : Stms) (b c : ℕ) → HaveCells ((around_of v ss b).captured c) }
{}

/// A block takes along as many cells as it has free names.
pub fn each_free_name_has_a_cell()
    ensures { (g : Places) (fs : List ℕ) (h : ℕ) (here : Region)
        → slice_get g.regions h ≡ Some here
        → length (captured_at g fs (Some h)) ≡ length (free_names g fs h) }
{}

/// The names of blocks in small scripts.
pub fn names_in_small_scripts()
    ensures cell { names_of row.cell_row 1
        ≡ record { locals = row.g ∷ []; cells = row.x ∷ []; frees = [] } }
    ensures free { names_of row.cell_row 2
        ≡ record { locals = []; cells = []; frees = row.x ∷ [] } }
    ensures passed { names_of row.passed_row 2
        ≡ record { locals = row.h ∷ []; cells = []; frees = row.x ∷ [] } }
    ensures comprehension { names_of row.comprehension_row 1
        ≡ record { locals = []; cells = codes ".x" ∷ []; frees = [] } }
    ensures lambda { names_of row.comprehension_row 2
        ≡ record { locals = []; cells = []; frees = row.x ∷ [] } }
    ensures parameter { names_of row.class_comprehension_row 1
        ≡ record { locals = row.x ∷ codes "C" ∷ []; cells = row.x ∷ []; frees = [] } }
    ensures class { names_of row.class_comprehension_row 2
        ≡ record { locals = codes ".z" ∷ []; cells = []; frees = row.x ∷ [] } }
    ensures method { names_of row.class_row 2
        ≡ record { locals = []; cells = []; frees = codes ".class" ∷ [] } }
    ensures class_cell { names_of row.class_row 0
        ≡ record { locals = []; cells = codes ".class" ∷ []; frees = [] } }
    ensures private { names_of row.private_row 2
        ≡ record { locals = codes "_C__x" ∷ []; cells = []; frees = codes ".class" ∷ [] } }
{}

/// What blocks take along in small scripts.
pub fn cells_in_small_scripts()
    ensures cell { (around_of {V = ℕ} 0 row.cell_row 1).captured 2 ≡ variable T.cell row.x ∷ [] }
    ensures passed { (around_of {V = ℕ} 0 row.passed_row 2).captured 3 ≡ variable T.free row.x ∷ [] }
    ensures comprehension { (around_of {V = ℕ} 0 row.comprehension_row 1).captured 2
        ≡ variable T.cell (codes ".x") ∷ [] }
    ensures class { (around_of {V = ℕ} 0 row.class_row 0).captured 1
        ≡ variable T.cell (codes ".class") ∷ [] }
    ensures method { (around_of {V = ℕ} 0 row.class_row 1).captured 2
        ≡ variable T.free (codes ".class") ∷ [] }
{}

/// What names are in the body of a class: there a name is the class's, and within a comprehension,
/// whose first `Next` is act 5, that of the function around.
pub fn names_in_a_class()
    ensures own { (around_of {V = ℕ} 0 row.class_comprehension_row 2).variable [] row.x
        ≡ variable T.of_class row.x }
    ensures within { (around_of {V = ℕ} 0 row.class_comprehension_row 2).variable (5 ∷ []) row.x
        ≡ variable T.free row.x }
    ensures target { (around_of {V = ℕ} 0 row.class_comprehension_row 2).variable (5 ∷ []) row.z
        ≡ variable T.local (codes ".z") }
{}
