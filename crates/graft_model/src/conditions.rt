//! Laws: when an event can't happen, whatever the rest of the world is.

ghost use Rattle.std.specs.Prelude.{◌≡◌, ◌≢◌, ◌<◌, ◌≤◌, ◌+◌, ◌%◌, ◌⊎◌, ℕ, true, false, List, [], ◌∷◌, Option, Some, None, slice_get, length};
ghost use Rattle.bgp_types.specs.Prefixes.{PrefixValue};
ghost use Rattle.bgp_types.specs.declared.message.SessionState.TheVariants.{Established, Closed};
ghost use Rattle.graft_steps.specs.declared.refusal.Refusal.{Refusal};
ghost use Rattle.graft_steps.specs.declared.refusal.Outcome.TheVariants.{Refused};
ghost use Rattle.tcp_seq.specs.Endpoint.{received};
ghost use Rattle.session_value.specs.declared.config.SessionConfig.{SessionConfig};
ghost use Rattle.session_value.specs.Sessions.{SessionValue, state, hold_time};
ghost use Rattle.session_value.specs.Sets.{has};
ghost use Rattle.graft_steps.specs.Landings.{IsNextToAsk, AreAllAsked};
ghost use Rattle.graft_model.specs.Setups.{Setup, PeeringSetup, ScriptGraft, SayStep, MoveStep, EvacuateStep, peerings_in};
ghost use Rattle.graft_model.specs.Setups.{routers_in, room_of, missing_policy, group_of, groups_in, grafts_in};
ghost use Rattle.graft_model.specs.Setups.{grafts_before, graft_at, keepalive_interval_of, rules_named};
ghost use Rattle.graft_model.specs.Parts.{RouterPart, FarPart, OperatorPart, World, GraftOrder, Errand, Vacant, Live, Frozen};
ghost use Rattle.graft_model.specs.Parts.{Shadow, Leaving, Owing, Moved, Back, Asked, Done, PointAt, Unmade};
ghost use Rattle.graft_model.specs.RouterRows.{RouterTaken, OrderIn, MeshIn, RouterSent, MeshTo, ReportOut};
ghost use Rattle.graft_model.specs.FarRows.{FarTaken, OutwardIn, FarSent};
ghost use Rattle.graft_model.specs.OperatorRows.{OperatorTaken, OperatorSent, OrderTo, SayTo, target_in, placement};
ghost use Rattle.graft_model.specs.Evacuations.{peerings_at, loads_of, rooms_of, targets_from, gift_in, gift_to, AreGivenWell};
ghost use Rattle.evacuation.specs.Plans.{Plan};
ghost use Rattle.graft_edge.specs.declared.ids.RouterId.{RouterId};
ghost use Rattle.graft_model.specs.Taking.{RouterMayTake, FarMayTake, OperatorMayTake};
ghost use Rattle.graft_model.specs.Steps.{Step, RouterEvent, FarEvent, OperatorEvent, ByOperator, Go, Put, Emit, Arrive};
ghost use Rattle.graft_model.specs.Steps.{Stray, Got, Tell, Admit, Refuse, Freeze, Leave, Land, TurnBack, Return, Clear, Ask};
ghost use Rattle.graft_model.specs.Steps.{Confirm, Tick, Point, Beat, router_row, far_row, operator_row};
ghost use Rattle.graft_model.specs.Steps.{Order as OrderOf};
ghost use Rattle.graft_model.specs.Quiet.{Quiet};
ghost use Rattle.graft_model.specs.Claims.{sessions_at};
ghost use Rattle.graft_model.specs.GraftRows.{taken_in};
ghost use Rattle.graft_model.specs.Conditions.{HasNoLive, MayFreeze, IsWhyNotFrozen, vacant_in, HasRoom, IsWhyNot};

/// Only live sessions act: on a session that is frozen, away or absent nothing is put, emitted or got, no round passes,
/// and no segment arrives. Where a session is live, no segment strays.
pub fn live_sessions_alone_act()
    ensures put { (setup : Setup) (r p n : ℕ) (before after : RouterPart) (taken : Option RouterTaken) (sent : List RouterSent)
        → HasNoLive (before.places p) → ¬ router_row setup r (Put p n) before taken sent after }
    ensures emit { (setup : Setup) (r p from len : ℕ) (before after : RouterPart) (taken : Option RouterTaken) (sent : List RouterSent)
        → HasNoLive (before.places p) → ¬ router_row setup r (Emit p from len) before taken sent after }
    ensures arrive { (setup : Setup) (r p : ℕ) (before after : RouterPart) (taken : Option RouterTaken) (sent : List RouterSent)
        → HasNoLive (before.places p) → ¬ router_row setup r (Arrive p) before taken sent after }
    ensures got { (setup : Setup) (r p : ℕ) (before after : RouterPart) (taken : Option RouterTaken) (sent : List RouterSent)
        → HasNoLive (before.places p) → ¬ router_row setup r (Got p) before taken sent after }
    ensures tick { (setup : Setup) (r p round : ℕ) (before after : RouterPart) (taken : Option RouterTaken) (sent : List RouterSent)
        → HasNoLive (before.places p) → ¬ router_row setup r (Tick p round) before taken sent after }
    ensures stray { (setup : Setup) (r p : ℕ) (session : SessionValue) (errand : Option Errand)
        (before after : RouterPart) (taken : Option RouterTaken) (sent : List RouterSent)
        → before.places p ≡ Live session errand → ¬ router_row setup r (Stray p) before taken sent after }
{}

/// The state that a session needs to act: established to put an UPDATE, not closed to get, with a running hold time for
/// a round to pass.
pub fn sessions_act_in_their_states()
    ensures put { (setup : Setup) (r p n : ℕ) (session : SessionValue) (errand : Option Errand)
        (before after : RouterPart) (taken : Option RouterTaken) (sent : List RouterSent)
        → before.places p ≡ Live session errand → router_row setup r (Put p n) before taken sent after → state session ≡ Established }
    ensures got { (setup : Setup) (r p : ℕ) (session : SessionValue) (errand : Option Errand)
        (before after : RouterPart) (taken : Option RouterTaken) (sent : List RouterSent)
        → before.places p ≡ Live session errand → router_row setup r (Got p) before taken sent after → state session ≢ Closed }
    ensures tick { (setup : Setup) (r p round : ℕ) (session : SessionValue) (errand : Option Errand)
        (before after : RouterPart) (taken : Option RouterTaken) (sent : List RouterSent)
        → before.places p ≡ Live session errand → router_row setup r (Tick p round) before taken sent after
        → (0 < hold_time session) × (state session ≢ Closed) }
{}

/// A dirty prefix is neither told nor put.
pub fn dirty_prefixes_wait()
    ensures tell { (setup : Setup) (r q : ℕ) (prefix : PrefixValue) (before after : RouterPart) (taken : Option RouterTaken) (sent : List RouterSent)
        → has before.dirty prefix ≡ true → ¬ router_row setup r (Tell q prefix) before taken sent after }
    ensures put { (setup : Setup) (r p n : ℕ) (before after : RouterPart) (taken : Option RouterTaken) (sent : List RouterSent)
        → ((x : PrefixValue) → has (before.due_out p) x ≡ true → has before.dirty x ≡ true) → ¬ router_row setup r (Put p n) before taken sent after }
    ensures still_due { (setup : Setup) (r p n : ℕ) (x : PrefixValue) (before after : RouterPart) (taken : Option RouterTaken) (sent : List RouterSent)
        → router_row setup r (Put p n) before taken sent after → has before.dirty x ≡ true → has (before.due_out p) x ≡ true → has (after.due_out p) x ≡ true }
    ensures undue { (setup : Setup) (r q : ℕ) (prefix : PrefixValue) (before after : RouterPart) (taken : Option RouterTaken) (sent : List RouterSent)
        → has (before.due_in q) prefix ≡ false → ¬ router_row setup r (Tell q prefix) before taken sent after }
{}

/// A graft goes on only from its current step. Its order is taken only by a live session without an errand, and only
/// for one of the routers. The session is frozen only as `MayFreeze` says, and refused only with a reason against that.
/// It leaves only once it is frozen, and only its shadow is cleared or made live again. Its source is told of the
/// landing only if the session is live, word of the landing is owed and all other routers were asked; these are asked
/// in their order.
pub fn grafts_go_on_where_they_stand()
    ensures admit { (setup : Setup) (r k : ℕ) (order : GraftOrder) (before after : RouterPart) (sent : List RouterSent)
        → router_row setup r (Admit k) before (Some (OrderIn order)) sent after
        → (order.graft ≡ k) × (order.target < routers_in setup) × (session : SessionValue) × (before.places order.peering ≡ Live session None) }
    ensures freeze { (setup : Setup) (r k : ℕ) (before after : RouterPart) (taken : Option RouterTaken) (sent : List RouterSent)
        → router_row setup r (Freeze k) before taken sent after → MayFreeze r k before }
    ensures refuse { (setup : Setup) (r k : ℕ) (before after : RouterPart) (taken : Option RouterTaken) (sent : List RouterSent)
        → router_row setup r (Refuse k) before taken sent after
        → (p : ℕ) × (session : SessionValue) × (target : ℕ) × (refusal : Refusal)
        × (before.places p ≡ Live session (Some (Leaving (record { graft = k; target = target }))))
        × IsWhyNotFrozen r target session refusal × (sent ≡ ReportOut (record { graft = k; outcome = Refused refusal }) ∷ []) }
    ensures leave { (setup : Setup) (r k : ℕ) (before after : RouterPart) (taken : Option RouterTaken) (sent : List RouterSent)
        → router_row setup r (Leave k) before taken sent after
        → (p : ℕ) × (session : SessionValue) × (target : ℕ)
        × (before.places p ≡ Frozen session (record { graft = k; target = target })) × (sent ≡ MeshTo target (Moved k p session) ∷ []) }
    ensures confirm { (setup : Setup) (r k : ℕ) (before after : RouterPart) (taken : Option RouterTaken) (sent : List RouterSent)
        → router_row setup r (Confirm k) before taken sent after
        → (p : ℕ) × (session : SessionValue) × (source : ℕ) × (next : ℕ)
        × (before.places p ≡ Live session (Some (Owing (record { graft = k; source = source; next = next }))))
        × AreAllAsked source r (routers_in setup) next × (sent ≡ MeshTo source (Done k p) ∷ []) }
    ensures ask { (setup : Setup) (r k q : ℕ) (before after : RouterPart) (taken : Option RouterTaken) (sent : List RouterSent)
        → router_row setup r (Ask k q) before taken sent after
        → (p : ℕ) × (session : SessionValue) × (source : ℕ) × (next : ℕ)
        × (before.places p ≡ Live session (Some (Owing (record { graft = k; source = source; next = next }))))
        × IsNextToAsk source r (routers_in setup) next q × (sent ≡ MeshTo q (Asked k p) ∷ []) }
    ensures comes_back { (setup : Setup) (r q k p : ℕ) (session : SessionValue) (refusal : Refusal) (before after : RouterPart) (sent : List RouterSent)
        → router_row setup r (Return q) before (Some (MeshIn q (Back k p session refusal))) sent after → before.places p ≡ Shadow k }
    ensures clear { (setup : Setup) (r q k p : ℕ) (before after : RouterPart) (sent : List RouterSent)
        → router_row setup r (Clear q) before (Some (MeshIn q (Done k p))) sent after → before.places p ≡ Shadow k }
{}

/// A router is asked only if no prefix is dirty and nothing is due to that router. A source is told of a landing only
/// if nothing is due to any other router.
pub fn word_waits_for_what_is_told()
    ensures decided { (setup : Setup) (r k : ℕ) (x : PrefixValue) (before after : RouterPart) (taken : Option RouterTaken) (sent : List RouterSent)
        → has before.dirty x ≡ true → ¬ router_row setup r (Confirm k) before taken sent after }
    ensures told { (setup : Setup) (r k q : ℕ) (x : PrefixValue) (before after : RouterPart) (taken : Option RouterTaken) (sent : List RouterSent)
        → has (before.due_in q) x ≡ true → ¬ router_row setup r (Confirm k) before taken sent after }
    ensures decided_before_asking { (setup : Setup) (r k q : ℕ) (x : PrefixValue)
        (before after : RouterPart) (taken : Option RouterTaken) (sent : List RouterSent)
        → has before.dirty x ≡ true → ¬ router_row setup r (Ask k q) before taken sent after }
    ensures told_before_asking { (setup : Setup) (r k q : ℕ) (x : PrefixValue) (before after : RouterPart) (taken : Option RouterTaken) (sent : List RouterSent)
        → has (before.due_in q) x ≡ true → ¬ router_row setup r (Ask k q) before taken sent after }
{}

/// A session lands only at a vacant place of a known peering, at a router with room beside all its sessions and
/// shadows, and with the session's policies. It is turned back only from such a place, with the reason.
pub fn landings_have_room()
    ensures counted { (setup : Setup) (part : RouterPart) → taken_in setup part + vacant_in setup part ≡ peerings_in setup }
    ensures land { (setup : Setup) (r q k p : ℕ) (session : SessionValue) (before after : RouterPart) (sent : List RouterSent)
        → router_row setup r (Land q) before (Some (MeshIn q (Moved k p session))) sent after
        → (before.places p ≡ Vacant) × (p < peerings_in setup) × HasRoom setup r before × (missing_policy setup r session.config ≡ None) }
    ensures turn_back { (setup : Setup) (r q k p : ℕ) (session : SessionValue) (before after : RouterPart) (sent : List RouterSent)
        → router_row setup r (TurnBack q) before (Some (MeshIn q (Moved k p session))) sent after
        → (before.places p ≡ Vacant) × (p < peerings_in setup) × (refusal : Refusal)
        × IsWhyNot setup r before session refusal × (sent ≡ MeshTo q (Back k p session refusal) ∷ []) }
{}

/// The next group begins only in a quiet world, and only if there is one.
pub fn groups_begin_in_quiet_worlds()
    ensures quiet { (setup : Setup) (before after : World) → Step setup (ByOperator Go) before after → Quiet setup before }
    ensures further { (setup : Setup) (before after : World) → Step setup (ByOperator Go) before after → before.operator.group + 1 < groups_in setup }
{}

/// Only word of a later graft than the last one followed turns a link; otherwise it stays where it is.
pub fn later_grafts_alone_turn_links()
    ensures later { (setup : Setup) (p r k : ℕ) (before after : FarPart) (sent : List FarSent)
        → far_row setup p (Point r) before (Some (OutwardIn r (PointAt k))) sent after → before.followed < k → (after.pointer ≡ r) × (after.followed ≡ k) }
    ensures not_later { (setup : Setup) (p r k : ℕ) (before after : FarPart) (sent : List FarSent)
        → far_row setup p (Point r) before (Some (OutwardIn r (PointAt k))) sent after → k ≤ before.followed → after ≡ before }
{}

/// A say is ordered once, in its step's group, after the earlier says of its peering in the group.
pub fn says_wait_for_earlier_ones()
    ensures group { (setup : Setup) (step number : ℕ) (before after : OperatorPart) (taken : Option OperatorTaken) (sent : List OperatorSent)
        → operator_row setup (OrderOf step number) before taken sent after → group_of setup step ≡ before.group }
    ensures once { (setup : Setup) (step number p : ℕ) (bytes : List ℕ) (before after : OperatorPart) (taken : Option OperatorTaken) (sent : List OperatorSent)
        → operator_row setup (OrderOf step number) before taken sent after → slice_get setup.steps step ≡ Some (SayStep p bytes)
        → (before.issued step ≡ false) × (after.issued step ≡ true) × (sent ≡ SayTo p step ∷ []) }
    ensures say { (setup : Setup) (step number m p : ℕ) (bytes other : List ℕ)
        (before after : OperatorPart) (taken : Option OperatorTaken) (sent : List OperatorSent)
        → operator_row setup (OrderOf step number) before taken sent after → slice_get setup.steps step ≡ Some (SayStep p bytes)
        → m < step → group_of setup m ≡ before.group → slice_get setup.steps m ≡ Some (SayStep p other) → before.issued m ≡ true }
{}

/// A graft is ordered once, at the router where its session belongs by the log, to its target, and after the earlier
/// grafts of its peering have their outcomes.
pub fn grafts_wait_for_earlier_ones()
    ensures sends { (setup : Setup) (step number r : ℕ) (order : GraftOrder)
        (before after : OperatorPart) (taken : Option OperatorTaken) (sent : List OperatorSent)
        → operator_row setup (OrderOf step number) before taken sent after → sent ≡ OrderTo r order ∷ []
        → (r ≡ placement setup before order.peering) × (graft : ScriptGraft) × (graft_at setup order.graft ≡ Some graft) × (graft.step ≡ step)
        × (graft.peering ≡ order.peering) × (target_in setup before graft ≡ Some order.target) }
    ensures once { (setup : Setup) (step number r : ℕ) (order : GraftOrder)
        (before after : OperatorPart) (taken : Option OperatorTaken) (sent : List OperatorSent)
        → operator_row setup (OrderOf step number) before taken sent after → sent ≡ OrderTo r order ∷ []
        → (before.source order.graft ≡ None) × (after.source order.graft ≡ Some r) }
    ensures earlier { (setup : Setup) (step number r : ℕ) (order : GraftOrder) (other : ScriptGraft)
        (before after : OperatorPart) (taken : Option OperatorTaken) (sent : List OperatorSent)
        → operator_row setup (OrderOf step number) before taken sent after → sent ≡ OrderTo r order ∷ []
        → graft_at setup other.graft ≡ Some other → other.peering ≡ order.peering → other.graft < order.graft
        → target_in setup before other ≢ None → before.outcome other.graft ≢ None }
    ensures noted { (setup : Setup) (step number router r : ℕ) (order : GraftOrder)
        (before after : OperatorPart) (taken : Option OperatorTaken) (sent : List OperatorSent)
        → operator_row setup (OrderOf step number) before taken sent after → sent ≡ OrderTo r order ∷ []
        → slice_get setup.steps step ≡ Some (EvacuateStep router) → number ≡ order.graft }
{}

/// A graft step takes one number, and an evacuate step one for each peering, in their order. Numbers start at 1 and run
/// through the whole script.
pub fn grafts_are_numbered()
    ensures step { (setup : Setup) (n p target : ℕ) → slice_get setup.steps n ≡ Some (MoveStep p target)
        → graft_at setup (grafts_before setup n + 1) ≡ Some (record { graft = grafts_before setup n + 1; peering = p; step = n }) }
    ensures evacuation { (setup : Setup) (n router p : ℕ) → slice_get setup.steps n ≡ Some (EvacuateStep router) → p < peerings_in setup
        → graft_at setup (grafts_before setup n + p + 1) ≡ Some (record { graft = grafts_before setup n + p + 1; peering = p; step = n }) }
    ensures known { (setup : Setup) (k : ℕ) (graft : ScriptGraft) → graft_at setup k ≡ Some graft
        → (graft.graft ≡ k) × (0 < k) × (k ≤ length (grafts_in setup)) }
{}

/// As a group begins, its evacuate steps give each peering that is placed at their router what the plan has for it, and
/// give other peerings nothing. What other grafts were given stays the same.
pub fn emptied_routers_give_by_plan()
    ensures given { (setup : Setup) (before after : World) (graft : ScriptGraft) (router : ℕ)
        → Step setup (ByOperator Go) before after → graft_at setup graft.graft ≡ Some graft
        → group_of setup graft.step ≡ before.operator.group + 1
        → slice_get setup.steps graft.step ≡ Some (EvacuateStep router) → before.operator.given graft.graft ≡ Unmade
        → after.operator.given graft.graft ≡ gift_to setup (placement setup before.operator) router graft.peering }
    ensures others { (setup : Setup) (before after : World) (graft : ScriptGraft)
        → Step setup (ByOperator Go) before after → graft_at setup graft.graft ≡ Some graft
        → group_of setup graft.step ≢ before.operator.group + 1 → after.operator.given graft.graft ≡ before.operator.given graft.graft }
    ensures there { (setup : Setup) (placed : ℕ → ℕ) (router i p : ℕ) (target : Option RouterId) → slice_get (peerings_at setup placed router) i ≡ Some p
        → slice_get (targets_from setup placed router) i ≡ Some target → gift_to setup placed router p ≡ gift_in router target }
    ensures elsewhere { (setup : Setup) (placed : ℕ → ℕ) (router p : ℕ) → placed p ≢ router → gift_to setup placed router p ≡ Unmade }
    ensures well { (setup : Setup) (placed : ℕ → ℕ) (router : ℕ) → AreGivenWell setup placed router }
    ensures plan { (setup : Setup) (placed : ℕ → ℕ) (router : ℕ)
        → Plan (rooms_of setup) router (loads_of setup placed) (length (peerings_at setup placed router)) (targets_from setup placed router) }
{}

/// A remote says a KEEPALIVE by its timer only if it has an interval, in a round that is a multiple of it and above the
/// last one, and at most 27,594 times.
pub fn beats_are_few_and_later()
    ensures { (setup : Setup) (p round : ℕ) (peering : PeeringSetup) (before after : FarPart) (taken : Option FarTaken) (sent : List FarSent)
        → slice_get setup.peerings p ≡ Some peering → far_row setup p (Beat round) before taken sent after
        → (0 < keepalive_interval_of peering) × (round % keepalive_interval_of peering ≡ 0) × (before.last_keepalive < round)
        × (before.keepalives + 1 ≤ 27594) × (after.keepalives ≡ before.keepalives + 1) }
{}

/// In a quiet world each session that a router holds is live and has no errand, and it and its remote received and
/// acknowledged all that the other put or said.
pub fn quiet_sessions_are_settled()
    ensures live { (setup : Setup) (w : World) (r p : ℕ) → Quiet setup w → sessions_at ((w.router r).places p) ≢ [] → ¬ HasNoLive ((w.router r).places p) }
    ensures unordered { (setup : Setup) (w : World) (r p : ℕ) (session : SessionValue) (errand : Option Errand)
        → Quiet setup w → (w.router r).places p ≡ Live session errand → errand ≡ None }
    ensures received { (setup : Setup) (w : World) (r p : ℕ) (session : SessionValue) (errand : Option Errand)
        → Quiet setup w → (w.router r).places p ≡ Live session errand
        → (received session.end ≡ length (w.far p).end.stream) × (received (w.far p).end ≡ length session.end.stream) }
    ensures acknowledged { (setup : Setup) (w : World) (r p : ℕ) (session : SessionValue) (errand : Option Errand)
        → Quiet setup w → (w.router r).places p ≡ Live session errand
        → ((w.far p).end.acked ≡ length (w.far p).end.stream) × (session.end.acked ≡ length session.end.stream) }
{}

/// The policy named as missing at a landing is the import policy if the router doesn't have it, and otherwise the
/// export policy.
pub fn missing_policies_are_named()
    ensures import { (setup : Setup) (r : ℕ) (config : SessionConfig) (name : List ℕ) → config.import ≡ Some name → rules_named setup r name ≡ None
        → missing_policy setup r config ≡ Some name }
    ensures export { (setup : Setup) (r : ℕ) (config : SessionConfig) (name other : List ℕ) → config.import ≡ Some other → rules_named setup r other ≢ None
        → config.export ≡ Some name → rules_named setup r name ≡ None → missing_policy setup r config ≡ Some name }
    ensures neither { (setup : Setup) (r : ℕ) (config : SessionConfig) → config.import ≡ None → config.export ≡ None → missing_policy setup r config ≡ None }
{}

/// An event takes only an item that its actor may take, whatever the event.
pub fn items_are_taken_where_they_may_be()
    ensures router { (setup : Setup) (r : ℕ) (event : RouterEvent) (before after : RouterPart) (item : RouterTaken) (sent : List RouterSent)
        → router_row setup r event before (Some item) sent after → RouterMayTake setup before item }
    ensures far { (setup : Setup) (p : ℕ) (event : FarEvent) (before after : FarPart) (item : FarTaken) (sent : List FarSent)
        → far_row setup p event before (Some item) sent after → FarMayTake setup p before item }
    ensures operator { (setup : Setup) (event : OperatorEvent) (before after : OperatorPart) (item : OperatorTaken) (sent : List OperatorSent)
        → operator_row setup event before (Some item) sent after → OperatorMayTake before item }
{}
