//! Laws of the code of expressions, each the contract of a function that does nothing.

ghost use Rattle.std.specs.Prelude.{[], false};
ghost use Rattle.sem_control.specs.control.Turn.{Around};
ghost use Rattle.sem_code.specs.slots.CodeObject.{CodeObject};
ghost use Rattle.sem_code.specs.comp_expr.Law.{AllActive, AllBegin, AllFollow, AllLie, AllStore};
ghost use Rattle.sem_code.specs.comp_expr.Places.{Exp_at};
ghost use Rattle.sem_code.specs.comp_expr.Samples.{every_form, every_form_code, sample_block};

/// Where the code of an expression stands, code and control come from its beginning to states that
/// match, and so they do where a value is due to a target. From all states that match, both have the
/// same act or the same ask without a mark, and behind each reply they come to states that match
/// again, until the expression has its value, which is then one slot more than lay there before,
/// until the target has its value, or until a raise leaves them. Whatever goes on behind, and
/// whatever the slots below. In such states the active exception is that of the nest behind, and that
/// of the slots below; control is in the nest behind, and nothing but slots without an exception lies
/// above the slots below.
#[tactic(auto, using(crate::proofs::comp_expr::Steps::follows))]
pub fn the_code_of_an_expression_follows_it<V>()
    ensures begins { (block : Around V) (code : CodeObject V) → AllBegin block code }
    ensures stores { (block : Around V) (code : CodeObject V) → AllStore block code }
    ensures follows { (block : Around V) (code : CodeObject V) → AllFollow block code }
    ensures active { (block : Around V) (code : CodeObject V) → AllActive block code }
    ensures lies { (block : Around V) (code : CodeObject V) → AllLie block code }
{}

/// An expression that holds every form has code that stands so.
#[tactic(auto, using(crate::proofs::comp_expr::Sample::stands))]
pub fn every_form_has_code()
    ensures { Exp_at sample_block every_form_code [] every_form 0 false [] 0 131 }
{}
