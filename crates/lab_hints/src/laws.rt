//! Laws of hints.

ghost use Rattle.std.specs.Prelude.{◌≡◌, ℕ, List, Err};
ghost use Rattle.lab_input.specs.declared.bad.BadInput.{BadInput as BadInputOf};
ghost use Rattle.lab_input.specs.Labs.{input_of};
ghost use Rattle.lab_hints.specs.Hints.{HasHint};

/// Law: each input that is refused has a hint.
pub fn each_refusal_has_a_hint()
    ensures { (bytes : List ℕ) (bad : BadInputOf) → input_of bytes ≡ Err bad → HasHint bytes bad }
{}
