//! Laws of JSON texts. Each function's contract is the law, and its body does nothing.

ghost use Rattle.std.specs.Prelude.{◌≡◌, ℕ, List};
ghost use Rattle.esb_json.specs.declared.value.Json.{Json};
ghost use Rattle.esb_json.specs.Texts.{Spells};

/// A text spells one value at most, however deep.
pub fn one_value()
    ensures { (text : List ℕ) (one other : Json) → Spells one text → Spells other text → one ≡ other }
{}
