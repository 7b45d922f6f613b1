//! What an input describes.

ghost use Rattle.std.specs.Prelude.{ℕ, List};
ghost use Rattle.graft_model.specs.Setups.{IsSetup};
ghost use Rattle.graft_laws.specs.Emptied.{EmptyAlone};
ghost use Rattle.graft_laws.specs.Ranges.{IsInRange};
ghost use Rattle.lab_tables.specs.declared.input.LabInput.{LabInput};
ghost use Rattle.lab_input.specs.Labs.{InputOf};
ghost use Rattle.lab_setup.specs.Setups.{setup_of};

/// Whatever bytes are an input: the model's world can begin with the laboratory that it describes.
pub fn accepted_is_a_setup()
    ensures { (bytes : List ℕ) (input : LabInput) → InputOf bytes input → IsSetup (setup_of input) }
{}

/// Whatever bytes are an input: AS numbers and MEDs of the laboratory that it describes have 32 bits, and what its
/// remotes say are octets.
pub fn accepted_is_in_range()
    ensures { (bytes : List ℕ) (input : LabInput) → InputOf bytes input → IsInRange (setup_of input) }
{}

/// Whatever bytes are an input: in a group with an evacuate step no other step moves a session.
pub fn accepted_evacuations_are_alone()
    ensures { (bytes : List ℕ) (input : LabInput) → InputOf bytes input → EmptyAlone (setup_of input) }
{}
