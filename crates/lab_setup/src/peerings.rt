//! How the remote of a peering speaks.

ghost use Rattle.std.specs.Prelude.{ℕ, ◌≡◌};
ghost use Rattle.graft_model.specs.Setups.{keepalive_interval_of as keepalive_interval_of_lem};
ghost use Rattle.lab_tables.specs.declared.input.LabInput.{LabInput};
ghost use Rattle.lab_input.specs.Counts.{is_wide as is_wide_lem};
ghost use Rattle.lab_setup.specs.Setups.{peering_setup};

use lab_tables::PeeringInput;

/// Whether the remote of a peering speaks with AS numbers of four octets: both sides support them (RFC 6793, section 4.1).
pub fn is_wide(peering: &PeeringInput) -> bool
    ensures { result ≡ is_wide_lem peering.now }
{
    peering.as4 && peering.remote_as4
}

/// After how many turns the remote says a KEEPALIVE again: a third of the hold time in force, or 0 where it doesn't.
pub fn keepalive_interval_of(peering: &PeeringInput) -> u32
    ensures { (input : LabInput) (p : ℕ) → result ≡ keepalive_interval_of_lem (peering_setup input (p, peering.now)) }
{
    if peering.beats {
        u32::from(peering.home_hold.min(peering.hold) / 3)
    } else {
        0
    }
}
