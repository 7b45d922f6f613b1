//! Laws that hold for every event and every step of the world.

ghost use Rattle.std.specs.Prelude.{◌≡◌, ◌≢◌, ◌<◌, ℕ, suc, List, [], ◌∷◌, ◌++◌, Option, Some, None};
ghost use Rattle.std.specs.List.{flat_map};
ghost use Rattle.std.specs.FinMap as map;
ghost use Rattle.graft_steps.specs.declared.refusal.Refusal.{Refusal};
ghost use Rattle.graft_steps.specs.declared.refusal.Outcome.TheVariants.{Accepted, Refused};
ghost use Rattle.session_value.specs.Sessions.{SessionValue};
ghost use Rattle.graft_model.specs.declared.event.ActorEvent.{ActorEvent};
ghost use Rattle.graft_model.specs.Setups.{Setup};
ghost use Rattle.graft_model.specs.Parts.{RouterPart, FarPart, OperatorPart, World, Order, Word, Vacant, Live, Frozen};
ghost use Rattle.graft_model.specs.Parts.{Shadow, Owing, Asking, Moved, Back, Asked, Answered, Done, PointAt};
ghost use Rattle.graft_model.specs.RouterRows.{RouterTaken, MeshIn, RouterSent, MeshTo, OutwardTo, ReportOut};
ghost use Rattle.graft_model.specs.FarRows.{FarTaken, FarSent};
ghost use Rattle.graft_model.specs.OperatorRows.{OperatorTaken, OperatorSent};
ghost use Rattle.graft_model.specs.Steps.{Event, Step, RouterEvent, Stray, Leave, Land, TurnBack, Return, Clear, Ask, Answer, Collect, Confirm};
ghost use Rattle.graft_model.specs.Steps.{FarEvent, OperatorEvent, RouterStep, FarStep, OperatorStep, router_row, far_row, operator_row};
ghost use Rattle.graft_model.specs.Quiet.{Quiet};
ghost use Rattle.graft_model.specs.Claims.{Transparent, Solves, SolvesOn, sessions_at};
ghost use Rattle.graft_model.specs.Codes.{router_code, far_code, operator_code, actor_code};
ghost use Rattle.graft_model.specs.Laws.{LeavesByRouter, LeavesByFar, LeavesByOperator, MayStillHappen};
ghost use Rattle.graft_model.specs.Laws.{HasOnce, HasOneOutcome, taken_on, sent_on, KeepsSessions};
ghost use Rattle.graft_model.specs.SmallWorlds as small;

/// An event changes neither the parts of other actors nor a channel of which its actor is neither sender nor receiver.
pub fn steps_leave_the_rest()
    ensures router { (setup : Setup) (r : ℕ) (event : RouterEvent) (before after : World)
        → RouterStep setup r event before after → LeavesByRouter r before after }
    ensures far { (setup : Setup) (p : ℕ) (event : FarEvent) (before after : World) → FarStep setup p event before after → LeavesByFar p before after }
    ensures operator { (setup : Setup) (event : OperatorEvent) (before after : World) → OperatorStep setup event before after → LeavesByOperator before after }
{}

/// The kind and the arguments of an event identify it among all events, of its actor and of others.
pub fn codes_are_exact()
    ensures router { (one other : RouterEvent) → router_code one ≡ router_code other → one ≡ other }
    ensures far { (one other : FarEvent) → far_code one ≡ far_code other → one ≡ other }
    ensures operator { (one other : OperatorEvent) → operator_code one ≡ operator_code other → one ≡ other }
    ensures any { (one other : ActorEvent) → actor_code one ≡ actor_code other → one ≡ other }
    ensures above { (event : ActorEvent) → 0 < (actor_code event).kind }
{}

/// In a quiet world no item is taken and nothing is put, said, delivered, decided or moved, and no session is away from its router.
pub fn nothing_moves_at_quiet()
    ensures still { (setup : Setup) (event : Event) (before after : World) → Quiet setup before → Step setup event before after → MayStillHappen event }
    ensures no_shadow { (setup : Setup) (w : World) (r p k : ℕ) → Quiet setup w → (w.router r).places p ≢ Shadow k }
    ensures no_link { (setup : Setup) (w : World) (p : ℕ) → Quiet setup w → ((w.far p).homeward ≡ []) × ((w.far p).remoteward ≡ []) }
{}

/// What an actor sends and its part after an event are determined by the event, its part before and what it takes.
pub fn rows_are_exact()
    ensures router { (setup : Setup) (r : ℕ) (event : RouterEvent) (before after other : RouterPart) (taken : Option RouterTaken) (sent items : List RouterSent)
        → HasOneOutcome event before → router_row setup r event before taken sent after → router_row setup r event before taken items other
        → (items ≡ sent) × (other ≡ after) }
    ensures far { (setup : Setup) (p : ℕ) (event : FarEvent) (before after other : FarPart) (taken : Option FarTaken) (sent items : List FarSent)
        → far_row setup p event before taken sent after → far_row setup p event before taken items other → (items ≡ sent) × (other ≡ after) }
    ensures operator { (setup : Setup) (event : OperatorEvent) (before after other : OperatorPart)
        (taken : Option OperatorTaken) (sent items : List OperatorSent)
        → operator_row setup event before taken sent after → operator_row setup event before taken items other → (items ≡ sent) × (other ≡ after) }
{}

/// An event leads from a world to only one world, if no two places of a router have the same graft.
pub fn events_lead_to_one_world()
    ensures { (setup : Setup) (event : Event) (w u v : World) → ((r k : ℕ) → HasOnce k (w.router r)) → Step setup event w u → Step setup event w v → v ≡ u }
{}

/// A graft makes, loses and changes no session: the sessions of a peering that a router held or took are those that it
/// then holds or sent, in every field.
pub fn grafts_keep_sessions()
    ensures { (setup : Setup) (r p : ℕ) (event : RouterEvent) (before after : RouterPart) (taken : Option RouterTaken) (sent : List RouterSent)
        → KeepsSessions event → router_row setup r event before taken sent after
        → sessions_at (after.places p) ++ flat_map (sent_on p) sent ≡ taken_on p taken ++ sessions_at (before.places p) }
{}

/// Where a session is after an event of its graft. It leaves for the target of the order for which it was frozen, and
/// its shadow stays. It is live where it lands and where it comes back; nothing of it is left at its source when the
/// graft ends. Word of a landing goes to the far side, and is owed to the source, which gets it once the other routers
/// were asked one after another. Word of the outcome goes to the operator.
pub fn grafts_move_sessions()
    ensures left { (setup : Setup) (r k p : ℕ) (session : SessionValue) (order : Order)
        (before after : RouterPart) (taken : Option RouterTaken) (sent : List RouterSent)
        → HasOnce k before → before.places p ≡ Frozen session order → order.graft ≡ k → router_row setup r (Leave k) before taken sent after
        → (sent ≡ MeshTo order.target (Moved k p session) ∷ []) × (after.places p ≡ Shadow k) }
    ensures landed { (setup : Setup) (r q k p : ℕ) (session : SessionValue) (before after : RouterPart) (sent : List RouterSent)
        → router_row setup r (Land q) before (Some (MeshIn q (Moved k p session))) sent after
        → (after.places p ≡ Live session (Some (Owing (record { graft = k; source = q; next = 0 })))) × (sent ≡ OutwardTo p (PointAt k) ∷ []) }
    ensures asked { (setup : Setup) (r k q p : ℕ) (session : SessionValue) (word : Word)
        (before after : RouterPart) (taken : Option RouterTaken) (sent : List RouterSent)
        → HasOnce k before → before.places p ≡ Live session (Some (Owing word)) → word.graft ≡ k → router_row setup r (Ask k q) before taken sent after
        → (sent ≡ MeshTo q (Asked k p) ∷ []) × (after.places p ≡ Live session (Some (Asking (record word { next = q })))) }
    ensures counted { (setup : Setup) (r q p : ℕ) (session : SessionValue) (word : Word) (before after : RouterPart) (sent : List RouterSent)
        → before.places p ≡ Live session (Some (Asking word)) → word.next ≡ q
        → router_row setup r (Collect q) before (Some (MeshIn q (Answered word.graft p))) sent after
        → after.places p ≡ Live session (Some (Owing (record word { next = suc q }))) }
    ensures confirmed { (setup : Setup) (r k p : ℕ) (session : SessionValue) (word : Word)
        (before after : RouterPart) (taken : Option RouterTaken) (sent : List RouterSent)
        → HasOnce k before → before.places p ≡ Live session (Some (Owing word)) → word.graft ≡ k → router_row setup r (Confirm k) before taken sent after
        → (sent ≡ MeshTo word.source (Done k p) ∷ []) × (after.places p ≡ Live session None) }
    ensures back { (setup : Setup) (r q k p : ℕ) (session : SessionValue) (refusal : Refusal) (before after : RouterPart) (sent : List RouterSent)
        → router_row setup r (Return q) before (Some (MeshIn q (Back k p session refusal))) sent after
        → (after.places p ≡ Live session None) × (sent ≡ ReportOut (record { graft = k; outcome = Refused refusal }) ∷ []) }
    ensures cleared { (setup : Setup) (r q k p : ℕ) (before after : RouterPart) (sent : List RouterSent)
        → router_row setup r (Clear q) before (Some (MeshIn q (Done k p))) sent after
        → (after.places p ≡ Vacant) × (after.entries p ≡ map.empty) × (sent ≡ ReportOut (record { graft = k; outcome = Accepted }) ∷ []) }
{}

/// A segment that strays, a session that is turned back and a question that is answered don't change the router.
pub fn refused_items_change_nothing()
    ensures strays { (setup : Setup) (r p : ℕ) (before after : RouterPart) (taken : Option RouterTaken) (sent : List RouterSent)
        → router_row setup r (Stray p) before taken sent after → (after ≡ before) × (sent ≡ []) }
    ensures turned_back { (setup : Setup) (r q : ℕ) (before after : RouterPart) (taken : Option RouterTaken) (sent : List RouterSent)
        → router_row setup r (TurnBack q) before taken sent after → after ≡ before }
    ensures answered { (setup : Setup) (r q k p : ℕ) (before after : RouterPart) (sent : List RouterSent)
        → router_row setup r (Answer q) before (Some (MeshIn q (Asked k p))) sent after → (after ≡ before) × (sent ≡ MeshTo q (Answered k p) ∷ []) }
{}

/// Each claim can be false in each of its fields. Each of these worlds differs in one thing from a small one in which
/// nothing is left to do, which makes the field false that the clause is named after; `all_received` is the field
/// `received` of `SolvesOn`.
pub fn claims_can_be_false()
    ensures one { ¬ Transparent small.pair small.with_session_lost 0 }
    ensures legal { ¬ Transparent small.pair (small.with_session small.opened_twice) 0 }
    ensures received { ¬ Transparent small.pair small.with_octet_received 0 }
    ensures adj_rib_in { ¬ Transparent small.pair (small.with_session small.hearing) 0 }
    ensures linked { ¬ Solves small.pair small.with_link_elsewhere }
    ensures all_received { ¬ SolvesOn small.pair small.with_nothing_received 0 }
    ensures elsewhere { ¬ SolvesOn small.pair small.with_shadow_left 0 }
    ensures tellings { ¬ Solves small.pair small.with_route_kept }
    ensures mesh { ¬ Quiet small.pair small.with_word }
{}
