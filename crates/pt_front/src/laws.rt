//! Laws of the definitions, each the contract of a function that does nothing.

ghost use Rattle.std.specs.Prelude.{◌≡◌, ℕ, List};
ghost use Rattle.pt_literals.specs.declared.token.Token.{Token};
ghost use Rattle.pt_tree.specs.Syntax.{Exp, Stms};
ghost use Rattle.pt_front.specs.declared.refusal.Refusal.{Refusal as Reason};
ghost use Rattle.pt_front.specs.declared.syntax.SyntaxErr.{SyntaxErr as Error};
ghost use Rattle.pt_front.specs.Syntax.{AreScript, AreNoScript, IsExpr, IsNoExpr};
ghost use Rattle.pt_front.specs.Text.{IsScript, IsRefused};

/// Tokens are one script or are none for one reason, and never both; so it is with the expression
/// that begins at a place.
pub fn tokens_have_one_answer()
    ensures one_script { (ts : List Token) (s t : Stms) → AreScript ts s → AreScript ts t → s ≡ t }
    ensures one_reason { (ts : List Token) (d e : Error) → AreNoScript ts d → AreNoScript ts e → d ≡ e }
    ensures never_both { (ts : List Token) (s : Stms) (e : Error) → AreScript ts s → AreNoScript ts e → ⊥ }
    ensures one_expr { (ts : List Token) (at : ℕ) (e f : Exp) (n m : ℕ) → IsExpr ts at e n → IsExpr ts at f m → (e ≡ f) × (n ≡ m) }
    ensures one_expr_reason { (ts : List Token) (at : ℕ) (d e : Error) → IsNoExpr ts at d → IsNoExpr ts at e → d ≡ e }
    ensures never_both_of_expr { (ts : List Token) (at : ℕ) (x : Exp) (n : ℕ) (e : Error) → IsExpr ts at x n → IsNoExpr ts at e → ⊥ }
{}

/// No text is two scripts, or refused for two reasons, or a script and refused.
pub fn a_text_has_one_answer()
    ensures one_script { (text : List ℕ) (s t : Stms) → IsScript text s → IsScript text t → s ≡ t }
    ensures one_refusal { (text : List ℕ) (q r : Reason) → IsRefused text q → IsRefused text r → q ≡ r }
    ensures never_both { (text : List ℕ) (s : Stms) (r : Reason) → IsScript text s → IsRefused text r → ⊥ }
{}
