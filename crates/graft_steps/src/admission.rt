//! Whether a router accepts a session that a graft brings.

ghost use Rattle.std.specs.Prelude.{◌≡◌};
ghost use Rattle.std.specs.Result.{result_err};
ghost use Rattle.graft_steps.specs.Refusals.{admit_refusal};

use crate::refusal::Refusal;
use graft_edge::Name;

/// Checks whether the target of a graft accepts the session. `held` is how many of its places for
/// sessions are taken, by sessions that it holds and by those that it sent away in grafts that haven't
/// ended; `room` is how many places it has; `missing` is the name of the first of the peering's import
/// and export policies that it doesn't have. The result is `RouterFull` if and only if `held` is at
/// least `room`, else `PolicyMissing` if and only if a policy is missing.
pub fn admit(held: u32, room: u32, missing: Option<Name>) -> Result<(), Refusal>
    ensures { result_err result ≡ admit_refusal held room missing }
{
    if held >= room {
        return Err(Refusal::RouterFull(room));
    }
    missing.map_or(Ok(()), |name| Err(Refusal::PolicyMissing(name)))
}
