//! Laws: what an event changes and what it leaves, for the sets and tables that rows describe by their members.

ghost use Rattle.std.specs.Prelude.{◌≡◌, ◌≢◌, ◌<◌, ◌≤◌, ◌+◌, ◌++◌, ◌^◌, ℕ, suc, Bool, true, false, List, [], ◌∷◌};
ghost use Rattle.std.specs.Prelude.{length, Option, Some, None, slice_get, unwrap_or, is_some};
ghost use Rattle.std.specs.FinMap as map;
ghost use Rattle.bgp_types.specs.Prefixes.{PrefixValue};
ghost use Rattle.bgp_types.specs.declared.message.SessionState.TheVariants.{OpenConfirm, Established, Closed};
ghost use Rattle.bgp_types.specs.declared.attrs.Route.{Route};
ghost use Rattle.graft_steps.specs.declared.refusal.Refusal.{Refusal};
ghost use Rattle.tcp_seq.specs.Endpoint.{PlacedSegment};
ghost use Rattle.session_value.specs.Sessions.{SessionValue, state};
ghost use Rattle.session_value.specs.Sets.{has};
ghost use Rattle.graft_model.specs.Setups.{Setup, RouterSetup, SayStep, routers_in, cost_between};
ghost use Rattle.graft_model.specs.Parts.{RouterPart, FarPart, Errand, Live, Told, Seg, Moved, Back, Done};
ghost use Rattle.graft_model.specs.RouterRows.{RouterTaken, MeshIn, RouterSent, OutwardTo};
ghost use Rattle.graft_model.specs.FarRows.{FarTaken, FarSent};
ghost use Rattle.graft_model.specs.Steps.{Put, Emit, Decide, Got, Hear, Tick, Leave, Land, Return, Clear, Say, Send, Pass, router_row, far_row};
ghost use Rattle.graft_model.specs.Decisions.{chosen, to_tell};
ghost use Rattle.graft_model.specs.Conditions.{HasEstablished};

/// What becomes due when a router decides a prefix. If the best route changes, the prefix becomes due to each other
/// router and on each established session, live or frozen, and nothing else becomes due, neither to any other number
/// nor to the router itself. If the best route stays the same, nothing becomes due.
pub fn another_best_route_is_due()
    ensures unchanged { (setup : Setup) (r : ℕ) (prefix : PrefixValue) (before after : RouterPart) (taken : Option RouterTaken) (sent : List RouterSent)
        → router_row setup r (Decide prefix) before taken sent after → chosen setup r before prefix ≡ map.get before.best prefix
        → (after.due_in ≡ before.due_in) × (after.due_out ≡ before.due_out) }
    ensures others { (setup : Setup) (r q : ℕ) (prefix : PrefixValue) (before after : RouterPart) (taken : Option RouterTaken) (sent : List RouterSent)
        → router_row setup r (Decide prefix) before taken sent after → chosen setup r before prefix ≢ map.get before.best prefix
        → q < routers_in setup → q ≢ r → has (after.due_in q) prefix ≡ true }
    ensures itself { (setup : Setup) (r : ℕ) (prefix : PrefixValue) (before after : RouterPart) (taken : Option RouterTaken) (sent : List RouterSent)
        → router_row setup r (Decide prefix) before taken sent after → after.due_in r ≡ before.due_in r }
    ensures beyond { (setup : Setup) (r q : ℕ) (prefix : PrefixValue) (before after : RouterPart) (taken : Option RouterTaken) (sent : List RouterSent)
        → router_row setup r (Decide prefix) before taken sent after → routers_in setup ≤ q → after.due_in q ≡ before.due_in q }
    ensures sessions { (setup : Setup) (r p : ℕ) (prefix : PrefixValue) (before after : RouterPart) (taken : Option RouterTaken) (sent : List RouterSent)
        → router_row setup r (Decide prefix) before taken sent after → chosen setup r before prefix ≢ map.get before.best prefix
        → HasEstablished (before.places p) → has (after.due_out p) prefix ≡ true }
    ensures no_session { (setup : Setup) (r p : ℕ) (prefix : PrefixValue) (before after : RouterPart) (taken : Option RouterTaken) (sent : List RouterSent)
        → router_row setup r (Decide prefix) before taken sent after → (¬ HasEstablished (before.places p)) → after.due_out p ≡ before.due_out p }
    ensures alone { (setup : Setup) (r n : ℕ) (prefix x : PrefixValue) (before after : RouterPart) (taken : Option RouterTaken) (sent : List RouterSent)
        → router_row setup r (Decide prefix) before taken sent after → x ≢ prefix
        → (has (after.due_in n) x ≡ has (before.due_in n) x)
        × (has (after.due_out n) x ≡ has (before.due_out n) x) × (map.get after.best x ≡ map.get before.best x) }
{}

/// On a session that has landed, or is back at its source, exactly those prefixes are due that were told on it or have
/// a best route. What is due on the other peerings stays the same.
pub fn moved_sessions_are_told_again()
    ensures told { (setup : Setup) (r q k p : ℕ) (session : SessionValue) (x : PrefixValue) (before after : RouterPart) (sent : List RouterSent)
        → router_row setup r (Land q) before (Some (MeshIn q (Moved k p session))) sent after
        → map.get session.adj_rib_out x ≢ None → has (after.due_out p) x ≡ true }
    ensures best { (setup : Setup) (r q k p : ℕ) (session : SessionValue) (x : PrefixValue) (before after : RouterPart) (sent : List RouterSent)
        → router_row setup r (Land q) before (Some (MeshIn q (Moved k p session))) sent after
        → map.get before.best x ≢ None → has (after.due_out p) x ≡ true }
    ensures neither { (setup : Setup) (r q k p : ℕ) (session : SessionValue) (x : PrefixValue) (before after : RouterPart) (sent : List RouterSent)
        → router_row setup r (Land q) before (Some (MeshIn q (Moved k p session))) sent after
        → map.get session.adj_rib_out x ≡ None → map.get before.best x ≡ None → has (after.due_out p) x ≡ false }
    ensures back_told { (setup : Setup) (r q k p : ℕ) (session : SessionValue)
        (refusal : Refusal) (x : PrefixValue) (before after : RouterPart) (sent : List RouterSent)
        → router_row setup r (Return q) before (Some (MeshIn q (Back k p session refusal))) sent after
        → map.get session.adj_rib_out x ≢ None → has (after.due_out p) x ≡ true }
    ensures back_best { (setup : Setup) (r q k p : ℕ) (session : SessionValue)
        (refusal : Refusal) (x : PrefixValue) (before after : RouterPart) (sent : List RouterSent)
        → router_row setup r (Return q) before (Some (MeshIn q (Back k p session refusal))) sent after
        → map.get before.best x ≢ None → has (after.due_out p) x ≡ true }
    ensures back_neither { (setup : Setup) (r q k p : ℕ) (session : SessionValue)
        (refusal : Refusal) (x : PrefixValue) (before after : RouterPart) (sent : List RouterSent)
        → router_row setup r (Return q) before (Some (MeshIn q (Back k p session refusal))) sent after
        → map.get session.adj_rib_out x ≡ None → map.get before.best x ≡ None → has (after.due_out p) x ≡ false }
{}

/// When a session leaves, its entries and all tables stay the same, and nothing is due on its peering.
pub fn leaving_keeps_the_entries()
    ensures { (setup : Setup) (r k : ℕ) (before after : RouterPart) (taken : Option RouterTaken) (sent : List RouterSent)
        → router_row setup r (Leave k) before taken sent after
        → (after.entries ≡ before.entries) × (after.tellings ≡ before.tellings)
        × (after.best ≡ before.best) × (after.dirty ≡ before.dirty) × (after.due_in ≡ before.due_in) }
{}

/// A segment without bytes has the offset that is emitted next. Any emitted segment begins at the offset that the event
/// names, and has as many bytes as it names.
pub fn segments_are_what_events_name()
    ensures empty_out { (setup : Setup) (r p from : ℕ) (session : SessionValue) (errand : Option Errand)
        (before after : RouterPart) (taken : Option RouterTaken) (sent : List RouterSent)
        → router_row setup r (Emit p from 0) before taken sent after → before.places p ≡ Live session errand → from ≡ session.end.emitted }
    ensures empty_home { (setup : Setup) (p from : ℕ) (before after : FarPart) (taken : Option FarTaken) (sent : List FarSent)
        → far_row setup p (Send from 0) before taken sent after → from ≡ before.end.emitted }
    ensures out { (setup : Setup) (r p from len : ℕ) (segment : PlacedSegment) (before after : RouterPart) (taken : Option RouterTaken)
        → router_row setup r (Emit p from len) before taken (OutwardTo p (Seg segment) ∷ []) after → (segment.offset ≡ from) × (length segment.bytes ≡ len) }
    ensures passed { (setup : Setup) (p index router : ℕ) (keep : Bool) (segment : PlacedSegment)
        (before after : FarPart) (taken : Option FarTaken) (sent : List FarSent)
        → far_row setup p (Pass index keep router) before taken sent after → slice_get before.homeward index ≡ Some segment
        → (router < routers_in setup) × (sent ≡ record { router = router; segment = segment } ∷ []) }
{}

/// After a session puts an UPDATE, its stream has at most 1,044,480 bytes, so that a NOTIFICATION still has room.
pub fn what_is_put_has_room()
    ensures { (setup : Setup) (r p n : ℕ) (next : SessionValue) (errand : Option Errand)
        (before after : RouterPart) (taken : Option RouterTaken) (sent : List RouterSent)
        → router_row setup r (Put p (suc n)) before taken sent after → after.places p ≡ Live next errand → length next.end.stream ≤ 1044480 }
{}

/// What a remote is to say is added to the end of its stream, which then has at most 1 MiB, and nothing else of it
/// changes.
pub fn sayings_join_the_stream()
    ensures { (setup : Setup) (p step : ℕ) (bytes : List ℕ) (before after : FarPart) (taken : Option FarTaken) (sent : List FarSent)
        → slice_get setup.steps step ≡ Some (SayStep p bytes) → far_row setup p (Say step) before taken sent after
        → (after.end.stream ≡ before.end.stream ++ bytes) × (length after.end.stream ≤ 2 ^ 20)
        × (after.end.emitted ≡ before.end.emitted) × (after.homeward ≡ before.homeward) }
{}

/// What is told on a session depends on the AS of its remote, on its own address and on its export policy here, and not
/// on its import policy. The interior cost from a router to another is the one that its setup gives, or 1.
pub fn policies_and_costs_are_the_routers_own()
    ensures export { (setup : Setup) (r : ℕ) (part : RouterPart) (one other : SessionValue) (prefix : PrefixValue)
        → one.config.peering ≡ other.config.peering → one.config.remote_as ≡ other.config.remote_as
        → one.config.local_address ≡ other.config.local_address → one.config.export ≡ other.config.export
        → to_tell setup r part one prefix ≡ to_tell setup r part other prefix }
    ensures cost { (setup : Setup) (r q : ℕ) (router : RouterSetup) → slice_get setup.routers r ≡ Some router
        → cost_between setup r q ≡ unwrap_or (slice_get router.costs q) 1 }
{}

/// A prefix whose candidates at a router changed is dirty: another router told a different route, a session that landed
/// brought in an entry, or the entries of a session that left were cleared.
pub fn what_changed_is_dirty()
    ensures hear { (setup : Setup) (r q : ℕ) (prefix : PrefixValue) (route : Option Route) (before after : RouterPart) (sent : List RouterSent)
        → router_row setup r (Hear q) before (Some (MeshIn q (Told prefix route))) sent after
        → route ≢ map.get (before.tellings q) prefix → has after.dirty prefix ≡ true }
    ensures land { (setup : Setup) (r q k p : ℕ) (session : SessionValue) (x : PrefixValue) (before after : RouterPart) (sent : List RouterSent)
        → router_row setup r (Land q) before (Some (MeshIn q (Moved k p session))) sent after
        → map.get (after.entries p) x ≢ map.get (before.entries p) x → has after.dirty x ≡ true }
    ensures clear { (setup : Setup) (r q k p : ℕ) (x : PrefixValue) (before after : RouterPart) (sent : List RouterSent)
        → router_row setup r (Clear q) before (Some (MeshIn q (Done k p))) sent after
        → map.get (before.entries p) x ≢ None → has after.dirty x ≡ true }
    ensures got { (setup : Setup) (r p : ℕ) (x : PrefixValue) (before after : RouterPart) (taken : Option RouterTaken) (sent : List RouterSent)
        → router_row setup r (Got p) before taken sent after
        → map.get (after.entries p) x ≢ map.get (before.entries p) x → has after.dirty x ≡ true }
    ensures stays { (setup : Setup) (r q k p : ℕ) (session : SessionValue) (x : PrefixValue) (before after : RouterPart) (sent : List RouterSent)
        → router_row setup r (Land q) before (Some (MeshIn q (Moved k p session))) sent after
        → has before.dirty x ≡ true → has after.dirty x ≡ true }
{}

/// Nothing is due on the peering of a session that has closed, and all best routes are due once it has been
/// established.
pub fn states_say_what_is_due()
    ensures closed { (setup : Setup) (r p : ℕ) (next : SessionValue) (errand : Option Errand)
        (x : PrefixValue) (before after : RouterPart) (taken : Option RouterTaken) (sent : List RouterSent)
        → router_row setup r (Got p) before taken sent after → after.places p ≡ Live next errand → state next ≡ Closed → has (after.due_out p) x ≡ false }
    ensures expired { (setup : Setup) (r p round : ℕ) (next : SessionValue) (errand : Option Errand)
        (x : PrefixValue) (before after : RouterPart) (taken : Option RouterTaken) (sent : List RouterSent)
        → router_row setup r (Tick p round) before taken sent after
        → after.places p ≡ Live next errand → state next ≡ Closed → has (after.due_out p) x ≡ false }
    ensures established { (setup : Setup) (r p : ℕ) (session next : SessionValue) (errand other : Option Errand)
        (x : PrefixValue) (before after : RouterPart) (taken : Option RouterTaken) (sent : List RouterSent)
        → router_row setup r (Got p) before taken sent after → before.places p ≡ Live session errand → state session ≡ OpenConfirm
        → after.places p ≡ Live next other → state next ≡ Established → has (after.due_out p) x ≡ is_some (map.get before.best x) }
{}
