//! Law: grafts where nothing moves.
#![tactic(auto)]

ghost use Rattle.still_grafts.specs.Still.{StillWorldsHaveNoGraftLeft};

/// If nothing of a graft is on its way, no graft is stored at a router, and the operator may order no step, then no
/// graft is left: no router has anything of one, each that was ordered has its outcome, and each step of the current
/// group was ordered.
pub fn still_worlds_have_no_graft_left()
    ensures { StillWorldsHaveNoGraftLeft }
{}
