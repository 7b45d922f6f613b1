//! Conditions of an event's row, each with a part of a router that only this condition forbids.

ghost use Rattle.std.specs.Prelude.{ℕ, List, [], Option, None};
ghost use Rattle.bgp_story.specs.WorkedSessions.{ten};
ghost use Rattle.graft_model.specs.declared.event.RouterEvent.TheVariants.{Put, Decide};
ghost use Rattle.graft_model.specs.Parts.{RouterPart};
ghost use Rattle.graft_model.specs.RouterRows.{RouterTaken, RouterSent, PutsSome};
ghost use Rattle.graft_model.specs.Setups.{Setup};
ghost use Rattle.graft_model.specs.Steps.{router_row};
ghost use Rattle.graft_worked.specs.Base.{base};
ghost use Rattle.graft_worked.specs.Due as due;
ghost use Rattle.graft_worked.specs.Graft.{b_landed, b_decided};
ghost use Rattle.graft_worked.specs.Next as next;
ghost use Rattle.graft_worked.specs.Puts.{a_to_put, a_has_put};

/// An UPDATE takes the prefixes that are to be told the same as the first one of all, as many as its event says. If
/// 9.0.0.0/8 and 10.0.0.0/8 are due with different attributes, the second one isn't put first. Two conditions together
/// forbid it: that an UPDATE begins with the first one of all, and that its attributes are those of the first one.
/// Without either of them it is allowed. One prefix isn't put as two; only the count forbids that.
pub fn an_update_is_the_next_one()
    ensures none_lost { (but : next.Condition) (setup : Setup) (r p n : ℕ)
        (before : RouterPart) (taken : Option RouterTaken) (sent : List RouterSent) (after : RouterPart)
        → PutsSome setup r p n before taken sent after → next.PutsSomeBut but setup r p n before taken sent after }
    ensures whole { (setup : Setup) (r p n : ℕ)
        (before : RouterPart) (taken : Option RouterTaken) (sent : List RouterSent) (after : RouterPart)
        → next.PutsSomeBut next.Whole setup r p n before taken sent after → PutsSome setup r p n before taken sent after }
    ensures one { router_row base 0 (Put 0 1) a_to_put None [] a_has_put }
    ensures one_as_two { ¬ router_row base 0 (Put 0 2) a_to_put None [] a_has_put }
    ensures size { next.PutsSomeBut next.Size base 0 0 2 a_to_put None [] a_has_put }
    ensures second { ¬ router_row base 0 (Put 0 1) next.a_two_due None [] next.a_second_put }
    ensures least { next.PutsSomeBut next.Least base 0 0 1 next.a_two_due None [] next.a_second_put }
    ensures told_first { next.PutsSomeBut next.ToldFirst base 0 0 1 next.a_two_due None [] next.a_second_put }
{}

/// A new best route is due to the other routers, and on the peerings whose session is established here: not to the
/// router itself, not on a peering whose place is vacant, and not on a session that has only put its OPEN.
pub fn a_best_route_is_due_to_others()
    ensures due { router_row base 1 (Decide ten) b_landed None [] b_decided }
    ensures itself { ¬ router_row base 1 (Decide ten) b_landed None [] due.b_due_to_itself }
    ensures vacant { ¬ router_row base 1 (Decide ten) b_landed None [] due.b_due_on_vacant }
    ensures early { router_row base 0 (Decide ten) due.a_opening None [] due.a_opening_decided }
    ensures too_early { ¬ router_row base 0 (Decide ten) due.a_opening None [] due.a_due_too_early }
{}
