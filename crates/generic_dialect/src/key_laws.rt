//! Laws of keys. Each function takes and does nothing; its contract is the law.
ghost use Rattle.std.specs.Prelude.{◌≡◌, ℕ, List, codes};
ghost use Rattle.hex.specs.Hex.{IsBytes};
ghost use Rattle.generic_dialect.specs.Keys.{HasNoKey, key_name};

/// No two keys have one identifier.
pub fn keys_stand_apart()
    ensures { (a b : List ℕ) → IsBytes a → IsBytes b → key_name a ≡ key_name b → a ≡ b }
{}

/// No key has the identifier of an operation's properties.
pub fn properties_stand_apart()
    ensures { HasNoKey (codes "__properties") }
{}
