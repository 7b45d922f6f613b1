//! Inputs that expect nothing.

ghost use Rattle.std.specs.Prelude.{◌≡◌, false, codes};
ghost use Rattle.toml.specs.Data.{Members};
ghost use Rattle.lab_keys.specs.Values.{has_member};
ghost use Rattle.lab_input.specs.Plain.{IsPlain};

/// Law: an input without the key `expect` meets the rules exactly where its other keys do, and expects nothing.
pub fn an_input_may_expect_nothing()
    ensures { (doc : Members) → has_member (codes "expect") doc ≡ false → IsPlain doc }
{}
