//! Laws of the definitions, each the contract of a function that does nothing.

ghost use Rattle.std.specs.Prelude.{◌≡◌, ℕ, length};
ghost use Rattle.pt_tree.specs.Syntax.{Clauses, Exp, Params, Stms, Tgt};
ghost use Rattle.pt_tree.specs.Sizes.{clauses_size, deleted_size, params_size, size, stms_size, target_size};
ghost use Rattle.pt_tree.specs.Acts.{acts_clauses, acts_deleted, acts_exp, acts_params, acts_stms, acts_target};

/// Each part of a tree has as many acts in its block as its size says.
pub fn a_size_counts_the_acts()
    ensures expression { (e : Exp) → length (acts_exp e) ≡ size e }
    ensures clauses { (l : ℕ) (cs : Clauses) → length (acts_clauses l cs) ≡ clauses_size cs }
    ensures target { (t : Tgt) → length (acts_target t) ≡ target_size t }
    ensures deleted { (t : Tgt) → length (acts_deleted t) ≡ deleted_size t }
    ensures parameters { (ps : Params) → length (acts_params ps) ≡ params_size ps }
    ensures statements { (ss : Stms) → length (acts_stms ss) ≡ stms_size ss }
{}
