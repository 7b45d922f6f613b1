//! Whose item an event takes.

ghost use Rattle.audit_ruling.specs.Senders.{RoutersTakeFromTheNamed, FarSidesTakeFromTheNamed, TheOperatorTakesFromTheNamed};

/// An event takes an item of the actor that it names, or none if it names none.
pub fn events_name_their_senders()
    ensures router { RoutersTakeFromTheNamed }
    ensures far { FarSidesTakeFromTheNamed }
    ensures operator { TheOperatorTakesFromTheNamed }
{}
