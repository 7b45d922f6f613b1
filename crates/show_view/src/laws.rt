//! What holds of the reasons that are given.

ghost use Rattle.show_view.specs.Laws.{StillToBeTold};

/// A best route is still to be told on an established session exactly where `tell_out` of `route_policy` tells something of it.
pub fn still_to_be_told()
    ensures { StillToBeTold }
{}
