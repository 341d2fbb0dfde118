//! A law: there is one way to split a text into lines.

ghost use Rattle.std.specs.Prelude.{◌≡◌, ℕ, List};
ghost use Rattle.script_text.specs.Lines.{Splits};

/// A text splits into lines and a rest in one way.
pub fn law_of_one_splitting()
    ensures { (text : List ℕ) (lines others : List (List ℕ)) (rest other : List ℕ)
        → Splits text lines rest → Splits text others other → (lines ≡ others) × (rest ≡ other) }
{}
