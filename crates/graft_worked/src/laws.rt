//! Laws of the worked worlds. For each of the 32 kinds of events there is a world among them in which it can happen,
//! and one in which it can't:
//!
//! | Kinds | Can happen | Can't happen, of router a, router b, the far side or the operator |
//! |---|---|---|
//! | Emit, Send | in the run from the first world (`base_runs_to_its_end`) | at its end (`nothing_is_sent_at_the_end`) |
//! | Order, Say, Pass, Arrive, Got, Take, Reach, Decide, Put of none, Tell, Hear | in the same run | at its end (`some_events_never_happen`) |
//! | Go, Admit, Freeze, Leave, Land, Point, Confirm, Clear, Note | in the graft (`a_graft_runs_to_its_end`) | at its end |
//! | Put of one | `an_update_may_be_put` | at its end |
//! | Refuse, TurnBack, Return | in grafts that are refused (`refused_grafts_run_to_their_end`) | at its end |
//! | Stray, Lose, Beat, Tick | `other_events_may_happen` | at its end |
//! | Ask, Answer, Collect | `every_router_is_asked` | at its end |

ghost use Rattle.std.specs.Prelude.{◌≡◌, ◌≢◌, ◌++◌, ℕ, suc, List, [], ◌∷◌, Option, Some, None};
ghost use Rattle.graft_model.specs.Claims.{Transparent, Solves};
ghost use Rattle.graft_model.specs.First.{first_world};
ghost use Rattle.graft_model.specs.Laws.{MayStillHappen};
ghost use Rattle.graft_model.specs.Quiet.{Quiet};
ghost use Rattle.graft_model.specs.Setups.{IsSetup};
ghost use Rattle.graft_model.specs.declared.event.RouterEvent.TheVariants.{Put, Emit, Tick, Stray, Ask, Answer, Collect, Confirm};
ghost use Rattle.graft_model.specs.declared.event.FarEvent.TheVariants.{Send, Lose, Beat};
ghost use Rattle.graft_model.specs.declared.event.OperatorEvent.TheVariants.{Go, Order};
ghost use Rattle.graft_model.specs.Steps.{Run, Step, Event, ByRouter, ByFar, ByOperator, router_row, operator_row};
ghost use Rattle.session_value.specs.Sessions.{SessionValue};
ghost use Rattle.tcp_seq.specs.declared.segment.Way.TheVariants.{Home};
ghost use Rattle.graft_model.specs.Parts.{RouterPart, OperatorPart, World, Asked, Answered, Done, Unmade, To, Stays};
ghost use Rattle.graft_model.specs.RouterRows.{RouterTaken, MeshIn, RouterSent, MeshTo};
ghost use Rattle.graft_model.specs.OperatorRows.{OperatorTaken, OperatorSent, OrderTo};
ghost use Rattle.graft_worked.specs.Asked.{three, landed, asking, b_asked, confirmed};
ghost use Rattle.graft_worked.specs.Emptied.{emptying, with_room, without_room, order_of_c2, with_order};
ghost use Rattle.graft_worked.specs.Places.{idle_router};
ghost use Rattle.graft_worked.specs.Others as others;
ghost use Rattle.graft_worked.specs.Puts.{with_route_due, with_route_put, with_link_at_source};
ghost use Rattle.graft_worked.specs.Base.{base};
ghost use Rattle.graft_worked.specs.First.{first_worked};
ghost use Rattle.graft_worked.specs.Graft.{session, before_graft, graft_events, after_graft, with_entry_kept};
ghost use Rattle.graft_worked.specs.Refused.{refusing, refused_events, with_refusal, returned_events, with_returned};
ghost use Rattle.graft_worked.specs.Start.{start_events};
ghost use Rattle.graft_worked.specs.Alone as alone;
ghost use Rattle.graft_worked.specs.Weaker as weaker;
ghost use Rattle.graft_worked.specs.Wrong.{with_session_kept, with_session_begun_again, with_telling_on_its_way};

/// A laboratory may begin with the worked setup.
pub fn base_is_a_setup()
    ensures setup { IsSetup base }
{}

/// The worked setup begins with its session at router a, with its OPEN put and not emitted. The remote has said its
/// OPEN and a KEEPALIVE, the link points at a, and nothing is dirty, due or on its way.
pub fn base_begins()
    ensures world { first_world base ≡ first_worked }
{}

/// The worked graft, from one quiet world to another. The last world is transparent and solves, and it doesn't solve if
/// the source's entry is kept.
pub fn a_graft_runs_to_its_end()
    ensures before { Quiet base before_graft }
    ensures run { Run base before_graft graft_events after_graft }
    ensures quiet { Quiet base after_graft }
    ensures solves { Solves base after_graft }
    ensures transparent { Transparent base after_graft 0 }
    ensures entry_kept { ¬ Solves base with_entry_kept }
{}

/// The worked run from the first world: the session comes up, the remote announces and all settles; and the graft after it.
pub fn base_runs_to_its_end()
    ensures start { Run base (first_world base) start_events before_graft }
    ensures whole { Run base (first_world base) (start_events ++ graft_events) after_graft }
{}

/// Grafts that are refused, each from the first world of a laboratory in which router b has no room. One that is ordered before its session is established is
/// refused at the source. One that is ordered after that is frozen, leaves and is turned back, and the session is live again as it was.
pub fn refused_grafts_run_to_their_end()
    ensures setup { IsSetup refusing }
    ensures refused { Run refusing (first_world refusing) refused_events with_refusal }
    ensures returned { Run refusing (first_world refusing) returned_events with_returned }
{}

/// Events that don't occur in the worked runs, each from a world in which it may happen.
pub fn other_events_may_happen()
    ensures stray { Step base (ByRouter 0 (Stray 0)) others.with_stray others.without_stray }
    ensures lose { Step base (ByFar 0 (Lose Home 0)) others.with_segment others.without_segment }
    ensures beat { Step others.beating (ByFar 0 (Beat 30)) before_graft others.with_beat }
    ensures tick { Step others.beating (ByRouter 0 (Tick 0 1)) others.with_round_due others.with_round }
{}

/// If there is a third router, the target of a graft asks it before it tells the source; the third answers, and its
/// answer is counted once. Word isn't given before.
pub fn every_router_is_asked()
    ensures asked { router_row three 1 (Ask 1 2) landed None (MeshTo 2 (Asked 1 0) ∷ []) asking }
    ensures answered { router_row three 2 (Answer 1) idle_router (Some (MeshIn 1 (Asked 1 0))) (MeshTo 1 (Answered 1 0) ∷ []) idle_router }
    ensures counted { router_row three 1 (Collect 2) asking (Some (MeshIn 2 (Answered 1 0))) [] b_asked }
    ensures again { router_row three 1 (Collect 2) b_asked (Some (MeshIn 2 (Answered 1 0))) [] b_asked }
    ensures confirmed { router_row three 1 (Confirm 1) b_asked None (MeshTo 0 (Done 1 0) ∷ []) confirmed }
    ensures not_before { (taken : Option RouterTaken) (sent : List RouterSent) (after : RouterPart) → ¬ router_row three 1 (Confirm 1) landed taken sent after }
{}

/// A router of three sessions is emptied in the first group. The first session goes to router c, which has one free
/// place, and the other two go to router b. If b has no free place, these two stay. The session at b is given nothing.
/// A graft that has a target may be ordered under its number; none is ordered for a session that stays or is elsewhere.
pub fn emptied_routers_are_worked()
    ensures setup { IsSetup (emptying 4) }
    ensures first { with_room.given 1 ≡ To 2 }
    ensures second { with_room.given 2 ≡ To 1 }
    ensures third { with_room.given 3 ≡ To 1 }
    ensures elsewhere { with_room.given 4 ≡ Unmade }
    ensures one_place { without_room.given 1 ≡ To 2 }
    ensures full { (without_room.given 2 ≡ Stays 0) × (without_room.given 3 ≡ Stays 0) × (without_room.given 4 ≡ Unmade) }
    ensures ordered { operator_row (emptying 4) (Order 0 2) with_room None (OrderTo 0 order_of_c2 ∷ []) with_order }
    ensures unmade { (taken : Option OperatorTaken) (sent : List OperatorSent) (after : OperatorPart)
        → ¬ operator_row (emptying 4) (Order 0 4) with_room taken sent after }
    ensures stays { (taken : Option OperatorTaken) (sent : List OperatorSent) (after : OperatorPart)
        → ¬ operator_row (emptying 1) (Order 0 2) without_room taken sent after }
{}

/// At the end of the worked run no item is taken and nothing is put, said, delivered, decided or moved. No further group begins, no round
/// passes on the session, which has no hold time, and its remote never says a KEEPALIVE by a timer.
pub fn some_events_never_happen()
    ensures others { (event : Event) (after : World) → Step base event after_graft after → MayStillHappen event }
    ensures go { (after : World) → ¬ Step base (ByOperator Go) after_graft after }
    ensures tick { (round : ℕ) (after : World) → ¬ Step base (ByRouter 1 (Tick 0 round)) after_graft after }
    ensures beat { (round : ℕ) (after : World) → ¬ Step base (ByFar 0 (Beat round)) after_graft after }
{}

/// An UPDATE of one prefix is put, for a route that another router told.
pub fn an_update_may_be_put()
    ensures { Step base (ByRouter 0 (Put 0 1)) with_route_due with_route_put }
{}

/// At the end of the worked run all that was put and said is acknowledged: no bytes are sent on either
/// side, a segment of the remote has place 91, and router a, which holds no session, sends none.
pub fn nothing_is_sent_at_the_end()
    ensures emit { (from len : ℕ) (after : World) → ¬ Step base (ByRouter 0 (Emit 0 from len)) after_graft after }
    ensures emit_bytes { (from n : ℕ) (after : World) → ¬ Step base (ByRouter 1 (Emit 0 from (suc n))) after_graft after }
    ensures send_bytes { (from n : ℕ) (after : World) → ¬ Step base (ByFar 0 (Send from (suc n))) after_graft after }
    ensures send_elsewhere { (from len : ℕ) (after : World) → from ≢ 91 → ¬ Step base (ByFar 0 (Send from len)) after_graft after }
{}

/// The last world doesn't solve if the link still points at the source.
pub fn a_link_left_behind_solves_nothing()
    ensures { ¬ Solves base with_link_at_source }
{}

/// The worlds to which wrong rules would lead during the worked graft violate the claims. If the source keeps the
/// session that left, there are two sessions. If the target begins a new one, its OPEN is put again, and the remote
/// received bytes that the new one never put. If an item between routers is forgotten, the tables don't solve though
/// all else is done.
pub fn wrong_rules_lead_elsewhere()
    ensures kept { ¬ Transparent base with_session_kept 0 }
    ensures begun_again { ¬ Transparent base with_session_begun_again 0 }
    ensures forgotten { ¬ Solves base with_telling_on_its_way }
{}

/// Every field of `Transparent` and of `Solves` is needed. Each of these worlds differs in one thing from the last
/// world of the worked graft, which makes that field false, while all other fields hold (`fields_are_false_alone`). The
/// laws above have such worlds for `one`, `linked` and `tellings`.
pub fn each_field_of_a_claim_can_be_false()
    ensures own { ¬ Transparent base weaker.with_other_address 0 }
    ensures legal { ¬ Transparent base weaker.with_second_open 0 }
    ensures received { ¬ Transparent base weaker.with_octet_received 0 }
    ensures got { ¬ Transparent base weaker.with_update_unsaid 0 }
    ensures adj_rib_in { ¬ Transparent base weaker.with_route_unheard 0 }
    ensures adj_rib_out { ¬ Transparent base weaker.with_route_told 0 }
    ensures placed { ¬ Solves base weaker.with_word_owed }
    ensures all_told { ¬ Solves base weaker.with_route_told }
    ensures all_received { ¬ Solves base weaker.with_keepalive_missing }
    ensures all_got { ¬ Solves base weaker.with_keepalive_said }
    ensures all_said { ¬ Solves base weaker.with_update_unsaid }
    ensures all_whole { ¬ Solves base weaker.with_empty_line }
    ensures elsewhere { ¬ Solves base weaker.with_shadow_left }
    ensures best { ¬ Solves base weaker.with_best_missing }
{}

/// In each of the worlds of `each_field_of_a_claim_can_be_false`, and in three more that violate a claim, all fields of
/// the claim but one hold. With no field left out, this is the claim itself.
pub fn fields_are_false_alone()
    ensures transparent { (w : World) (s : SessionValue) → alone.TransparentBut alone.Best w s → Transparent base w 0 }
    ensures solves { (w : World) (s : SessionValue) → alone.SolvesBut alone.Own w s → Solves base w }
    ensures none_lost { (field : alone.AloneField) (w : World) (t : Transparent base w 0) → alone.TransparentBut field w t.session }
    ensures one { alone.TransparentBut alone.One with_session_kept session }
    ensures own { alone.TransparentBut alone.Own weaker.with_other_address weaker.addressed }
    ensures legal { alone.TransparentBut alone.Legal weaker.with_second_open weaker.opened_twice }
    ensures received { alone.TransparentBut alone.Received weaker.with_octet_received session }
    ensures got { alone.TransparentBut alone.Got weaker.with_update_unsaid session }
    ensures adj_rib_in { alone.TransparentBut alone.AdjRibIn weaker.with_route_unheard weaker.unhearing }
    ensures adj_rib_out { alone.TransparentBut alone.AdjRibOut weaker.with_route_told weaker.telling }
    ensures placed { alone.SolvesBut alone.Placed weaker.with_word_owed session }
    ensures all_told { alone.SolvesBut alone.AdjRibOut weaker.with_route_told weaker.telling }
    ensures all_received { alone.SolvesBut alone.Received weaker.with_keepalive_missing session }
    ensures all_got { alone.SolvesBut alone.Got weaker.with_keepalive_said session }
    ensures all_said { alone.SolvesBut alone.Got weaker.with_update_unsaid session }
    ensures all_whole { alone.SolvesBut alone.Got weaker.with_empty_line weaker.interrupted }
    ensures linked { alone.SolvesBut alone.Linked with_link_at_source session }
    ensures elsewhere { alone.SolvesBut alone.Elsewhere weaker.with_shadow_left session }
    ensures best { alone.SolvesBut alone.Best weaker.with_best_missing session }
    ensures tellings { alone.SolvesBut alone.Tellings with_telling_on_its_way session }
{}

/// Every field of `Quiet` is needed in the same way, and so is each part of its field `places`.
pub fn each_field_of_quiet_can_be_false()
    ensures mesh { ¬ Quiet base weaker.with_word_on_its_way }
    ensures outward { ¬ Quiet base weaker.with_segment_outward }
    ensures inward { ¬ Quiet base weaker.with_segment_inward }
    ensures orders { ¬ Quiet base weaker.with_order_on_its_way }
    ensures reports { ¬ Quiet base weaker.with_report_on_its_way }
    ensures says { ¬ Quiet base weaker.with_say_on_its_way }
    ensures homeward { ¬ Quiet base weaker.with_segment_homeward }
    ensures remoteward { ¬ Quiet base weaker.with_segment_remoteward }
    ensures decided { ¬ Quiet base weaker.with_prefix_dirty }
    ensures told_in { ¬ Quiet base weaker.with_prefix_due_in }
    ensures told_out { ¬ Quiet base weaker.with_prefix_due_out }
    ensures errand { ¬ Quiet base weaker.with_word_owed }
    ensures all_read { ¬ Quiet base weaker.with_update_unread }
    ensures home_received { ¬ Quiet base weaker.with_update_missing }
    ensures remote_received { ¬ Quiet base weaker.with_keepalive_missing }
    ensures remote_acked { ¬ Quiet base weaker.with_remote_unanswered }
    ensures home_acked { ¬ Quiet base weaker.with_session_unanswered }
    ensures issued { ¬ Quiet base weaker.with_say_unordered }
    ensures ended { ¬ Quiet base weaker.with_outcome_unknown }
{}
