//! Laws that hold after every list of events.

ghost use Rattle.std.specs.Prelude.{ℕ, ◌≡◌, ◌≢◌, ◌<◌, ◌≤◌, ◌+◌, ◌^◌, List, [], ◌∷◌, length, true, false, Option, Some, None, slice_get};
ghost use Rattle.std.specs.List.{AllByRecursion};
ghost use Rattle.bgp_types.specs.declared.attrs.Attrs.{Attrs};
ghost use Rattle.bgp_types.specs.Prefixes.{PrefixValue};
ghost use Rattle.bgp_types.specs.Writable.{IsWritableAttrs};
ghost use Rattle.session_value.specs.Sessions.{SessionValue};
ghost use Rattle.graft_model.specs.Setups.{Setup, PeeringSetup, ScriptGraft, SayStep, IsSetup, peerings_in, graft_at};
ghost use Rattle.graft_model.specs.Decisions.{to_tell};
ghost use Rattle.graft_model.specs.Parts.{Errand, Live, World};
ghost use Rattle.graft_model.specs.Placements.{target_in, placement};
ghost use Rattle.graft_model.specs.First.{first_world};
ghost use Rattle.graft_model.specs.declared.event.RouterEvent.{RouterEvent};
ghost use Rattle.graft_model.specs.declared.event.FarEvent.{FarEvent};
ghost use Rattle.graft_model.specs.declared.event.OperatorEvent.{OperatorEvent};
ghost use Rattle.graft_model.specs.Steps.{Event, Run, RouterStep, FarStep, OperatorStep};
ghost use Rattle.graft_model.specs.Claims.{holders, sessions_at, sessions_of, Transparent, Unchanged, MadeBeforeBroken, Solves};
ghost use Rattle.graft_model.specs.Laws.{HasOnce};
ghost use Rattle.graft_model.specs.Quiet.{Quiet};
ghost use Rattle.graft_laws.specs.Phases.{Stage, Phase, Busy};
ghost use Rattle.graft_laws.specs.Owned.{Owned, Stands};
ghost use Rattle.graft_laws.specs.Keeps.{Reached, Has};
ghost use Rattle.graft_laws.specs.Configs.{HasOwnConfig};
ghost use Rattle.graft_laws.specs.Moves.{RouterMoves, FarMoves, OperatorMoves};
ghost use Rattle.graft_laws.specs.Facts.{NothingIsDropped, IsNowhereElse, IsUnderWay};
ghost use Rattle.graft_laws.specs.Streams.{IsUnbroken, ArePlaced};
ghost use Rattle.graft_laws.specs.Said.{Said, IsSayOf};
ghost use Rattle.graft_laws.specs.Pointing.{Points};
ghost use Rattle.graft_laws.specs.Ranges.{IsInRange};
ghost use Rattle.graft_laws.specs.Avoiding.{AvoidsRemote};
ghost use Rattle.graft_laws.specs.Emptied.{AreEmptied, EmptyAlone, GiveByPlan};
ghost use Rattle.graft_laws.specs.Tables.{Decided, Informed, Answered, DueIsHeld, IsWhole};

/// Each channel is a queue. What an event takes is at the head of its channel, what it sends is added to the ends of
/// channels in the order of sending, and nothing else of a channel changes: no item overtakes another, is lost or is
/// duplicated.
pub fn channels_are_queues()
    ensures router { (setup : Setup) (r : ℕ) (event : RouterEvent) (before after : World) (step : RouterStep setup r event before after)
        → RouterMoves r step.taken step.sent step.part before after }
    ensures far { (setup : Setup) (p : ℕ) (event : FarEvent) (before after : World) (step : FarStep setup p event before after)
        → FarMoves p step.taken step.sent step.part before after }
    ensures operator { (setup : Setup) (event : OperatorEvent) (before after : World) (step : OperatorStep setup event before after)
        → OperatorMoves step.taken step.sent step.part before after }
{}

/// Each peering has one session, and is in one phase of its last graft. Every place, every channel and the log have
/// just what that phase says of the peering.
pub fn every_world_is_owned()
    ensures { (setup : Setup) (events : List Event) (w : World) → IsSetup setup → Run setup (first_world setup) events w → Owned setup w }
{}

/// A peering is in one phase with one session, which is the only one of the peering in the whole world, including
/// moving capsules. If a router holds it, no other router does, and none is on its way.
pub fn one_session_is_held()
    ensures phase { (setup : Setup) (w : World) (p : ℕ) (phase next : Phase) (s t : SessionValue)
        → Stands setup w p phase s → Stands setup w p next t → phase ≡ next }
    ensures one { (setup : Setup) (w : World) (p : ℕ) (phase : Phase) (s : SessionValue) → Stands setup w p phase s → sessions_of setup w p ≡ s ∷ [] }
    ensures count { (setup : Setup) (w : World) (p : ℕ) → IsSetup setup → Reached setup w → p < peerings_in setup → holders setup w p ≡ 1 }
    ensures alone { (setup : Setup) (w : World) (p r : ℕ) → IsSetup setup → Reached setup w
        → p < peerings_in setup → sessions_at ((w.router r).places p) ≢ [] → IsNowhereElse w p r }
{}

/// Each actor may take the next item of each channel that leads to it, so that none is dropped.
pub fn no_item_is_dropped()
    ensures { (setup : Setup) (w : World) → IsSetup setup → Reached setup w → NothingIsDropped setup w }
{}

/// A graft that was ordered and has no outcome is under way in exactly one phase, from the router to which it was
/// ordered to its target. A graft that wasn't ordered is in none. No two places of a router have the same graft.
pub fn grafts_are_in_one_phase()
    ensures ordered { (setup : Setup) (w : World) (graft : ScriptGraft) → IsSetup setup
        → Reached setup w → graft_at setup graft.graft ≡ Some graft → w.operator.source graft.graft ≢ None
        → w.operator.outcome graft.graft ≡ None → (target : ℕ) × (target_in setup w.operator graft ≡ Some target)
        × (w.operator.source graft.graft ≡ Some (placement setup w.operator graft.peering))
        × IsUnderWay setup w graft.peering (placement setup w.operator graft.peering) graft.graft target }
    ensures unordered { (setup : Setup) (w : World) (graft : ScriptGraft) (x q t : ℕ) (stage : Stage) (s : SessionValue) → IsSetup setup → Reached setup w
        → graft_at setup graft.graft ≡ Some graft → w.operator.source graft.graft ≡ None → Stands setup w x (Busy q graft.graft t stage) s → ⊥ }
    ensures once { (setup : Setup) (w : World) (r k : ℕ) → IsSetup setup → Reached setup w → HasOnce k (w.router r) }
{}

/// A list of events leads from the first world to only one world.
pub fn runs_lead_to_one_world()
    ensures { (setup : Setup) (events : List Event) (u v : World) → IsSetup setup
        → Run setup (first_world setup) events u → Run setup (first_world setup) events v → v ≡ u }
{}

/// The session of a peering keeps its configuration.
pub fn sessions_keep_their_config()
    ensures { (setup : Setup) (w : World) (p : ℕ) → IsSetup setup → Reached setup w → p < peerings_in setup → Has setup (HasOwnConfig setup) w p }
{}

/// Every word of a landing that is on its way to a far side, and the last one that it followed, are of the last graft
/// of its peering that landed or of earlier ones. If the word of the last one isn't on its way, the link points to the
/// router where the session is at home.
pub fn links_follow_landings()
    ensures { (setup : Setup) (w : World) (p : ℕ) → IsSetup setup → Reached setup w → p < peerings_in setup → Has setup (Points setup) w p }
{}

/// A graft that lands or is turned back leaves the session as the freeze found it, a landing at the target and a return at the source. A graft that
/// the source refuses leaves every session as it is.
pub fn always_unchanged()
    ensures { (setup : Setup) (events : List Event) → IsSetup setup → Unchanged setup (first_world setup) events }
{}

/// A source clears its shadow of a session that has landed only once it has the target's routes: what it has heard from
/// the target is, for each prefix, what the target told of the best route that it chose with the session's routes. Each
/// other router has heard such routes from the target too, or what the target told it later. So no route that stays
/// valid is withdrawn because a session moved.
pub fn always_made_before_broken()
    ensures { (setup : Setup) (events : List Event) → IsSetup setup → MadeBeforeBroken setup (first_world setup) events }
{}

/// After every list of events, in whatever order its turns come and whatever a link loses, repeats or reorders, each
/// peering is transparent: it has one session, with a legal story and the tables of that story; the remote received the
/// first bytes of what the story put, and the story got the first bytes of what the remote said (RFC 4271, sections
/// 3.1, 6 and 8.2.2).
pub fn always_transparent()
    ensures { (setup : Setup) (events : List Event) (w : World) (p : ℕ) → IsSetup setup
        → Run setup (first_world setup) events w → p < peerings_in setup → Transparent setup w p }
{}

/// Each peering has one unbroken session. Each segment of it in a link or a channel, however old and from any router,
/// is a slice of the stream of the side that it comes from, as that side emitted it, and its places are within streams
/// of at most 1 MiB.
pub fn sessions_are_unbroken()
    ensures unbroken { (setup : Setup) (w : World) (p : ℕ) → IsSetup setup → Reached setup w → p < peerings_in setup → Has setup (IsUnbroken setup) w p }
    ensures placed { (setup : Setup) (w : World) (p : ℕ) → IsSetup setup → Reached setup w → p < peerings_in setup → ArePlaced w p }
{}

/// What a remote is ordered to say always exists and has room in its stream, as does each KEEPALIVE of its timer: what
/// it says over the whole script has at most 1 MiB, each step is ordered once, and a timer runs at most 27,594 times.
pub fn what_is_said_has_room()
    ensures sum { (setup : Setup) (p : ℕ) (peering : PeeringSetup) (w : World) → IsSetup setup
        → Reached setup w → slice_get setup.peerings p ≡ Some peering → Said setup p peering w }
    ensures orders { (setup : Setup) (p : ℕ) (w : World) → IsSetup setup → Reached setup w
        → p < peerings_in setup → AllByRecursion (IsSayOf setup p) (w.says p) }
    ensures room { (setup : Setup) (p step : ℕ) (rest bytes : List ℕ) (w : World) → IsSetup setup → Reached setup w → p < peerings_in setup
        → w.says p ≡ step ∷ rest → slice_get setup.steps step ≡ Some (SayStep p bytes) → length (w.far p).end.stream + length bytes ≤ 2 ^ 20 }
{}

/// A router's best route to each prefix that isn't dirty is the choice between its candidates. What it has heard from
/// another router is what that one tells of its best route, except for what is due or on its way. What was told on a
/// live established session is what is to be told on it, except for what is due (RFC 4271, sections 9.1.2, 9.1.3 and
/// 9.2). Nothing is assumed of the time during which a session was away: what was told, and what is best, is due again.
pub fn tables_are_what_is_decided()
    ensures decided { (setup : Setup) (w : World) (r : ℕ) → Reached setup w → Decided setup r (w.router r) }
    ensures informed { (setup : Setup) (w : World) (a b : ℕ) → Reached setup w → Informed setup a b w }
    ensures answered { (setup : Setup) (w : World) (r : ℕ) → IsSetup setup → Reached setup w → Answered setup r (w.router r) }
    ensures whole { (setup : Setup) (w : World) (p : ℕ) → IsSetup setup → Reached setup w → p < peerings_in setup → Has setup (IsWhole setup) w p }
{}

/// Something is due on a peering only at a router that holds its session, established, live or frozen.
pub fn what_is_due_is_held()
    ensures { (setup : Setup) (w : World) (r : ℕ) → IsSetup setup → Reached setup w → DueIsHeld (w.router r) }
{}

/// What is to be told on a live session can be written, with that session's own address as next hop (RFC 4271, sections
/// 4.3 and 5.1.3). The setup's numbers must be in the ranges of their types, as are those of every setup that a program
/// reads.
pub fn what_is_told_can_be_written()
    ensures { (setup : Setup) (w : World) (r p : ℕ) (session : SessionValue) (errand : Option Errand) (x : PrefixValue) (attrs : Attrs)
        → IsSetup setup → IsInRange setup → Reached setup w
        → (w.router r).places p ≡ Live session errand → to_tell setup r (w.router r) session x ≡ Some attrs → IsWritableAttrs attrs }
{}

/// If a remote is in another AS than the home routers, no path that was told on its session has its AS, in a sequence
/// or in a set, wherever the session is and whatever the export policies are. Otherwise the remote would find its own
/// AS in the path and exclude the route from its choice (RFC 4271, section 9.1.2).
pub fn told_paths_avoid_the_remote_as()
    ensures { (setup : Setup) (w : World) (p : ℕ) → IsSetup setup → Reached setup w → p < peerings_in setup → Has setup (AvoidsRemote setup) w p }
{}

/// If nothing is left to do, the tables of all routers solve the decision equations (RFC 4271, section 9.1) for the
/// placement by the operator's log: each best route is the choice between the router's own network, what the sessions
/// that it holds heard, and what the others tell now; each session is live where it belongs, with the link pointing
/// there; its remote received all that was told, and all that the remote said was got; and no other router has anything
/// of it.
pub fn quiet_solves()
    ensures { (setup : Setup) (events : List Event) (w : World) → IsSetup setup → Run setup (first_world setup) events w → Quiet setup w → Solves setup w }
{}

/// Whenever a group begins, each of its evacuate steps gives the sessions of its router to the other routers by the
/// plan, by where sessions belong at that moment.
pub fn evacuations_go_by_plan()
    ensures { (setup : Setup) (events : List Event) → IsSetup setup → GiveByPlan setup events }
{}

/// Once nothing is left to do, each session that an evacuate step gave to a router is at that router, unless it was
/// refused or moved again. If no other step of such a group moves sessions, none was refused for lack of room.
pub fn emptied_routers_are_left()
    ensures { (setup : Setup) (w : World) → IsSetup setup → EmptyAlone setup → Reached setup w → Quiet setup w → AreEmptied setup w.operator }
{}
