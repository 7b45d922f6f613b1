//! Laws of the budgets of an input.

ghost use Rattle.std.specs.Prelude.{◌≡◌, ◌≤◌, ℕ, List, length};
ghost use Rattle.std.specs.List.{AllByRecursion};
ghost use Rattle.graft_model.specs.Setups.{groups_in};
ghost use Rattle.lab_tables.specs.declared.input.LabInput.{LabInput};
ghost use Rattle.lab_input.specs.Labs.{InputOf};
ghost use Rattle.lab_setup.specs.Setups.{setup_of};
ghost use Rattle.node_configs.specs.Budgets.{budgets_in, IsSoundBudget};

/// Each group of the laboratory that an input describes has one budget, and there are no others.
pub fn each_group_has_a_budget()
    ensures { (input : LabInput) → length (budgets_in input) ≡ groups_in (setup_of input) }
{}

/// For all bytes that are an input: each budget allows at least one round, and no fewer than the least number.
pub fn budgets_are_sound()
    ensures { (bytes : List ℕ) (input : LabInput) → InputOf bytes input → AllByRecursion IsSoundBudget (budgets_in input) }
{}

/// For all bytes that are an input: no planned fault holds its segment back for more than six turns.
pub fn accepted_faults_are_short()
    ensures { (bytes : List ℕ) (input : LabInput) → InputOf bytes input → AllByRecursion (λ fault. fault.after ≤ 6) input.faults }
{}
