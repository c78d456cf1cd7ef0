//! Laws of the definitions, each the contract of a function that does nothing.

ghost use Rattle.std.specs.Prelude.{◌≡◌, ℕ, List, map, Some, None, codes};
ghost use Rattle.pt_scopes.specs.declared.scope.Scope.{Scope};
ghost use Rattle.pt_scopes.specs.declared.scope.Scope.TheVariants as scope;
ghost use Rattle.pt_scopes.specs.declared.scope.ScopeErr.{ScopeErr};
ghost use Rattle.pt_scopes.specs.declared.scope.ScopeErr.TheVariants.{NoBinding, Twice, LateDecl, Outside};
ghost use Rattle.pt_scopes.specs.declared.scopes.Scopes.{Scopes};
ghost use Rattle.pt_scopes.specs.BlockKinds.{block_kinds, kind_of};
ghost use Rattle.pt_scopes.specs.Mentions.{places_script};
ghost use Rattle.pt_scopes.specs.Refusals.{fault_of};
ghost use Rattle.pt_scopes.specs.Resolved.{IsRefused, IsResolved};
ghost use Rattle.pt_scopes.specs.Rows as row;
ghost use Rattle.pt_scopes.specs.Scope.{scope_of};
ghost use Rattle.pt_tree.specs.Blocks.{blocks_script};
ghost use Rattle.pt_tree.specs.Syntax.{Stms};

/// A name has one scope at most in a block.
pub fn a_name_has_one_scope()
    ensures { (ss : Stms) (b : ℕ) (x : List ℕ) (s t : Scope)
        → scope_of (places_script ss) b x ≡ Some s → scope_of (places_script ss) b x ≡ Some t
        → s ≡ t }
{}

/// A script whose scopes are told is not refused, and one fault at most is told.
pub fn resolved_and_refused_exclude_one_another()
    ensures one { (ss : Stms) (s : Scopes) (e : ScopeErr) → IsResolved (places_script ss) s
        → IsRefused (places_script ss) e → ⊥ }
    ensures same { (ss : Stms) (d e : ScopeErr) → fault_of (places_script ss) ≡ Some d
        → fault_of (places_script ss) ≡ Some e → d ≡ e }
{}

/// The blocks have the numbers that they have in the tree: the regions that are blocks are, in their
/// order, what the blocks of the tree are.
pub fn blocks_are_numbered_as_in_the_tree()
    ensures { (ss : Stms)
        → block_kinds (places_script ss).regions ≡ map kind_of (blocks_script ss) }
{}

/// Names of functions, of classes and of comprehensions in small scripts.
pub fn small_scripts_have_their_scopes()
    ensures cell { scope_of (places_script row.cell_row) 1 row.x ≡ Some scope.Cell }
    ensures free { scope_of (places_script row.cell_row) 2 row.x ≡ Some scope.Free }
    ensures module { scope_of (places_script row.cell_row) 0 row.f ≡ Some scope.Global }
    ensures local { scope_of (places_script row.cell_row) 1 row.g ≡ Some scope.Local }
    ensures unbound { scope_of (places_script row.cell_row) 1 row.y ≡ Some scope.Global }
    ensures no_block { scope_of (places_script row.cell_row) 3 row.x ≡ None }
    ensures passed { scope_of (places_script row.passed_row) 2 row.x ≡ Some scope.Free }
    ensures passed_cell { scope_of (places_script row.passed_row) 1 row.x ≡ Some scope.Cell }
    ensures class { scope_of (places_script row.class_row) 1 row.x ≡ Some scope.Class }
    ensures method { scope_of (places_script row.class_row) 2 row.x ≡ Some scope.Global }
    ensures class_comprehension { scope_of (places_script row.class_comprehension_row) 2 row.x
        ≡ Some scope.Class }
    ensures around_class { scope_of (places_script row.class_comprehension_row) 1 row.x
        ≡ Some scope.Cell }
    ensures comprehension { scope_of (places_script row.comprehension_row) 1 row.x
        ≡ Some scope.Global }
    ensures lambda { scope_of (places_script row.comprehension_row) 2 row.x ≡ Some scope.Free }
    ensures global { scope_of (places_script row.global_row) 3 row.x ≡ Some scope.Global }
    ensures not_captured { scope_of (places_script row.global_row) 1 row.x ≡ Some scope.Local }
    ensures nonlocal { scope_of (places_script row.nonlocal_row) 2 row.x ≡ Some scope.Free }
    ensures bound_inside { scope_of (places_script row.nonlocal_row) 1 row.x ≡ Some scope.Cell }
    ensures private { scope_of (places_script row.private_row) 2 (codes "_C__x")
        ≡ Some scope.Local }
{}

/// The first faults of small scripts.
pub fn small_scripts_have_their_faults()
    ensures none { fault_of (places_script row.nonlocal_row) ≡ None }
    ensures no_binding { fault_of (places_script row.no_binding_row)
        ≡ Some (NoBinding row.x (record { 0 = 2 })) }
    ensures twice { fault_of (places_script row.twice_row) ≡ Some (Twice row.x (record { 0 = 1 })) }
    ensures late { fault_of (places_script row.late_row)
        ≡ Some (LateDecl row.x (record { 0 = 3 })) }
    ensures late_comprehension { fault_of (places_script row.late_comprehension_row)
        ≡ Some (LateDecl row.x (record { 0 = 3 })) }
    ensures misplaced { fault_of (places_script row.return_row)
        ≡ Some (Outside (record { 0 = 1 })) }
    ensures yielded { fault_of (places_script row.yield_row) ≡ Some (Outside (record { 0 = 2 })) }
{}
