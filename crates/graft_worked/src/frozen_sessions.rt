//! The session that lands or comes back: in worked runs of the laboratory it is the one that was frozen; in worlds to
//! which no run leads it is another one.

ghost use Rattle.std.specs.Prelude.{◌≡◌, ℕ, List, [], ◌∷◌, ◌++◌, Some, None};
ghost use Rattle.graft_steps.specs.declared.refusal.Refusal.TheVariants.{RouterFull};
ghost use Rattle.graft_model.specs.Claims.{FrozenBefore, Unchanged, sessions_at, sessions_of};
ghost use Rattle.graft_model.specs.First.{first_world};
ghost use Rattle.graft_model.specs.Parts.{Live, Owing, Moved, Back, World};
ghost use Rattle.graft_model.specs.Setups.{Setup};
ghost use Rattle.graft_model.specs.declared.event.RouterEvent.TheVariants.{Refuse, Land, Return};
ghost use Rattle.graft_model.specs.Steps.{Event, ByRouter, Step};
ghost use Rattle.graft_worked.specs.Base.{base};
ghost use Rattle.graft_worked.specs.Graft.{session, to_a, graft_events};
ghost use Rattle.graft_worked.specs.Refused.{refusing, returned_events, with_returned};
ghost use Rattle.graft_worked.specs.Start.{session_joined, start_events};
ghost use Rattle.graft_worked.specs.Unchanged as unchanged;

/// The session of the worked graft is frozen at router a and lands at router b, from the first world on. There it is
/// live and unchanged, and router b owes word of it to router a.
pub fn a_frozen_session_lands()
    ensures frozen { FrozenBefore base (first_world base) (start_events ++ graft_events) 0 1 0 1 session
        1 0 (Land 0) (Moved 1 0 session) unchanged.with_landing }
    ensures landed { (unchanged.with_landing.router 1).places 0 ≡ Live session (Some (Owing to_a)) }
{}

/// The session of a graft that router b turns back is frozen at router a and comes back there, from the first world on.
/// It is live again and unchanged.
pub fn a_frozen_session_returns()
    ensures frozen { FrozenBefore refusing (first_world refusing) returned_events 0 1 0 1 session_joined
        0 1 (Return 1) (Back 1 0 session_joined (RouterFull 0)) with_returned }
    ensures returned { (with_returned.router 0).places 0 ≡ Live session_joined None }
{}

/// Every field of `Unchanged` but one can be false alone. The worlds for this have a capsule for the graft on its way
/// before the freeze. From them another session lands, or the session lands where it wasn't to go; or another session
/// comes back, or the session comes back to a router that didn't freeze it. All other fields hold there. The remaining
/// field, that a graft which the source refuses changes no session, holds for all events of all worlds
/// (`a_refusal_at_the_source_changes_no_session`), so the claim is the same without it.
pub fn each_field_of_unchanged_can_be_false()
    ensures none_lost { (field : unchanged.UnchangedField) (setup : Setup) (start : World) (events : List Event)
        → Unchanged setup start events → unchanged.UnchangedBut field setup start events }
    ensures refused { (setup : Setup) (start : World) (events : List Event)
        → unchanged.UnchangedBut unchanged.Refused setup start events → Unchanged setup start events }
    ensures landed { ¬ Unchanged base unchanged.with_another_moved unchanged.landing_events }
    ensures landed_alone { unchanged.UnchangedBut unchanged.Landed base unchanged.with_another_moved unchanged.landing_events }
    ensures target { ¬ Unchanged base unchanged.with_another_target unchanged.landing_events }
    ensures target_alone { unchanged.UnchangedBut unchanged.Landed base unchanged.with_another_target unchanged.landing_events }
    ensures returned { ¬ Unchanged base unchanged.with_another_back unchanged.returning_events }
    ensures returned_alone { unchanged.UnchangedBut unchanged.Returned base unchanged.with_another_back unchanged.returning_events }
    ensures source { ¬ Unchanged base unchanged.with_another_source unchanged.straying_events }
    ensures source_alone { unchanged.UnchangedBut unchanged.Returned base unchanged.with_another_source unchanged.straying_events }
{}

/// A graft that its source refuses changes no session: each stays the same, and stays where it is.
pub fn a_refusal_at_the_source_changes_no_session()
    ensures sessions { (setup : Setup) (r k p : ℕ) (w u : World) → Step setup (ByRouter r (Refuse k)) w u → sessions_of setup u p ≡ sessions_of setup w p }
    ensures places { (setup : Setup) (r k p : ℕ) (w u : World) → Step setup (ByRouter r (Refuse k)) w u
        → (q : ℕ) → sessions_at ((u.router q).places p) ≡ sessions_at ((w.router q).places p) }
{}
