//! Laws of the definitions, each the contract of a function that does nothing.

ghost use Rattle.std.specs.Prelude.{◌≡◌, ◌+◌, ℕ, [], ◌∷◌, Some, is_some};
ghost use Rattle.pt_wide.specs.Syntax.{Args, Exp, Exps, Opt, Params, Stm, Stms};
ghost use Rattle.pt_refine_expr.specs.declared.stars.Stars.{Stars as Places};
ghost use Rattle.pt_refine_expr.specs.Faults.{bad_target, excluded, faults_args, faults_exp, faults_opt, faults_params, faults_target, faults_targets, is_clean};
ghost use Rattle.pt_refine_expr.specs.Narrow.{narrow_args, narrow_exp, narrow_opt, narrow_params, narrow_target, narrow_targets};
ghost use Rattle.pt_refine_expr.specs.Agreement.{Agrees};
ghost use Rattle.pt_refine_expr.specs.Blocks.{blocks_exp};
ghost use Rattle.pt_refine_expr.specs.Refine.{refine_exp};
ghost use Rattle.pt_refine_expr.specs.StatementBlocks.{blocks_stms};
ghost use Rattle.pt_refine_expr.specs.StatementRefine.{refine_stms};
ghost use Rattle.pt_refine_expr.specs.Rows as row;
ghost use Rattle.pt_refine_expr.specs.StatementFaults.{faults_stm, faults_stms};
ghost use Rattle.pt_refine_expr.specs.StatementNarrow.{narrow_stm, narrow_stms};

/// A tree of the wide grammar is a tree of the language or has a fault, and never both.
pub fn a_tree_has_a_fault_or_is_narrow()
    ensures expression { (n : ℕ) (e : Exp) → is_some (narrow_exp n e) ≡ is_clean (faults_exp e) }
    ensures optional { (n : ℕ) (o : Opt) → is_some (narrow_opt n o) ≡ is_clean (faults_opt o) }
    ensures arguments { (n : ℕ) (args : Args) → is_some (narrow_args n args) ≡ is_clean (faults_args args) }
    ensures parameters { (n : ℕ) (ps : Params) → is_some (narrow_params n ps) ≡ is_clean (faults_params ps) }
    ensures target { (n : ℕ) (s : Places) (e : Exp) → is_some (narrow_target n s e) ≡ is_clean (faults_target s e) }
    ensures targets { (n : ℕ) (s : Places) (es : Exps) → is_some (narrow_targets n s es) ≡ is_clean (faults_targets s es) }
    ensures statement { (n : ℕ) (s : Stm) → is_some (narrow_stm n s) ≡ is_clean (faults_stm s) }
    ensures statements { (n : ℕ) (ss : Stms) → is_some (narrow_stms n ss) ≡ is_clean (faults_stms ss) }
{}

/// In one pass that counts blocks a tree becomes that of the language, or the pass stops at the first
/// of its faults.
pub fn one_pass_makes_the_tree_or_stops_at_its_first_fault()
    ensures expression { (n : ℕ) (e : Exp) → Agrees (faults_exp e) (narrow_exp n e) (n + blocks_exp e) (refine_exp e n) }
    ensures statements { (n : ℕ) (ss : Stms) → Agrees (faults_stms ss) (narrow_stms n ss) (n + blocks_stms ss) (refine_stms ss n) }
{}

/// Small statements have the faults that they are known to have (Language Reference 7, 8).
pub fn small_statements_have_their_faults()
    ensures call { faults_stm row.call_row ≡ bad_target 1 ∷ [] }
    ensures grouped_call { faults_stm row.grouped_call_row ≡ bad_target 2 ∷ [] }
    ensures grouped_condition { faults_stm row.grouped_condition_row ≡ bad_target 1 ∷ [] }
    ensures matrix { faults_stm row.matrix_row ≡ excluded 1 ∷ [] }
    ensures two_stars { faults_stm row.two_stars_row ≡ bad_target 2 ∷ [] }
    ensures nested_stars { faults_stm row.nested_stars_row ≡ [] }
    ensures star { faults_stm row.star_row ≡ bad_target 1 ∷ [] }
    ensures bracketed_star { faults_stm row.bracketed_star_row ≡ [] }
    ensures grouped_star { faults_stm row.grouped_star_row ≡ bad_target 2 ∷ [] }
    ensures empty { faults_stm row.empty_row ≡ bad_target 1 ∷ [] }
    ensures starred_value { faults_stm row.starred_value_row ≡ excluded 1 ∷ [] }
    ensures annotated { faults_stm row.annotated_row ≡ bad_target 1 ∷ [] }
    ensures augmented { faults_stm row.augmented_row ≡ bad_target 1 ∷ [] }
    ensures deleted_star { faults_stm row.deleted_star_row ≡ bad_target 2 ∷ [] }
    ensures entered_star { faults_stm row.entered_star_row ≡ bad_target 2 ∷ [] }
    ensures bases { faults_stm row.bases_row ≡ excluded 2 ∷ [] }
    ensures comma { faults_stm row.comma_row ≡ excluded 2 ∷ [] }
    ensures base { faults_stm row.base_row ≡ [] }
    ensures generator_base { faults_stm row.generator_base_row ≡ excluded 2 ∷ [] }
    ensures grouped_generator_base { faults_stm row.grouped_generator_base_row ≡ [] }
    ensures dots { faults_stm row.dots_row ≡ excluded 1 ∷ [] }
    ensures both { faults_stm row.call_and_matrix_row ≡ bad_target 1 ∷ excluded 2 ∷ [] }
{}

/// A tuple starts at its own parentheses, and blocks are numbered in the order in which they start.
pub fn small_trees_are_narrowed()
    ensures tuple { narrow_exp 1 row.grouped_tuple_row ≡ Some row.tuple_tree }
    ensures blocks { narrow_exp 1 row.lambdas_row ≡ Some (row.lambdas_tree 1 2 3) }
    ensures later { narrow_exp 7 row.lambdas_row ≡ Some (row.lambdas_tree 7 8 9) }
{}
