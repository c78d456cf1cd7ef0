//! Laws of the tokens of a text, each the contract of a function that does nothing.

ghost use Rattle.std.specs.Prelude.{◌≡◌, ◌⊎◌, ℕ, List};
ghost use Rattle.pt_literals.specs.Source.{end_of, spots_of};
ghost use Rattle.pt_literals.specs.declared.token.LexErr.{LexErr as Refusal};
ghost use Rattle.pt_literals.specs.declared.token.Token.{Token as Lexed};
ghost use Rattle.pt_lexer.specs.Faults.{Faulty, margin, IsTokens, IsRefused};

/// Every text has a list of tokens or a refusal, whatever its bytes and its length. It is refused
/// where anything in it is at fault.
pub fn every_text_has_tokens_or_a_refusal()
    ensures every_text { (bytes : List ℕ) → ((all : List Lexed) × IsTokens bytes all) ⊎ ((e : Refusal) × IsRefused bytes e) }
    ensures every_fault { (bytes : List ℕ) (f : Refusal) (place : ℕ) → Faulty (end_of bytes) margin (spots_of bytes) f place → (e : Refusal) × IsRefused bytes e }
{}

/// No text has two lists of tokens, or two refusals, or one of each.
pub fn a_text_has_one_answer()
    ensures one_list { (bytes : List ℕ) (all every : List Lexed) → IsTokens bytes all → IsTokens bytes every → all ≡ every }
    ensures one_refusal { (bytes : List ℕ) (e f : Refusal) → IsRefused bytes e → IsRefused bytes f → e ≡ f }
    ensures never_both { (bytes : List ℕ) (all : List Lexed) (e : Refusal) → IsTokens bytes all → IsRefused bytes e → ⊥ }
{}
