//! Laws of keys.

ghost use Rattle.std.specs.Prelude.{◌≡◌};
ghost use Rattle.pt_dicts.specs.Codes.{codes_of, AreShort, KeyValue};

/// Two values are written as the same key only where they are equal as keys.
pub fn a_key_is_of_one_value()
    ensures { (a b : KeyValue) → AreShort a → AreShort b → codes_of a ≡ codes_of b → a ≡ b }
{}
