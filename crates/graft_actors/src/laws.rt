//! Laws: what actors do in the world, and which items are welcome, case by case.

ghost use Rattle.std.specs.Prelude.{ℕ, ◌≡◌, ◌≢◌, ◌<◌, ◌≤◌, ◌+◌, ◌^◌, ◌↔◌, List, length, Option, Some, None, option_map, slice_get};
ghost use Rattle.ring_net.specs.declared.entry.JournalEntry.{JournalEntry};
ghost use Rattle.graft_edge.specs.declared.ids.PeeringId.{PeeringId};
ghost use Rattle.graft_edge.specs.declared.ids.RouterId.{RouterId};
ghost use Rattle.tcp_seq.specs.declared.segment.Segment.{Segment};
ghost use Rattle.tcp_seq.specs.declared.segment.Way.TheVariants.{Home, Remote};
ghost use Rattle.graft_steps.specs.declared.item.Item.{Item};
ghost use Rattle.graft_steps.specs.declared.item.Item.TheVariants as items;
ghost use Rattle.graft_steps.specs.declared.refusal.Outcome.{Outcome};
ghost use Rattle.graft_steps.specs.declared.refusal.Refusal.{Refusal};
ghost use Rattle.bgp_types.specs.Prefixes.{PrefixValue};
ghost use Rattle.bgp_types.specs.declared.attrs.Route.{Route};
ghost use Rattle.session_value.specs.Sessions.{SessionValue};
ghost use Rattle.graft_model.specs.Setups.{Setup, SayStep, routers_in, peerings_in};
ghost use Rattle.graft_model.specs.Parts.{RouterPart, FarPart, OperatorPart, Vacant, Live, Shadow};
ghost use Rattle.graft_actors.specs.Actors.{RouterIs, FarIs, OperatorIs, Router, FarSide, Operator, actor_at, ActorPart};
ghost use Rattle.graft_actors.specs.Makes.{makes, PartWithSetup};
ghost use Rattle.graft_actors.specs.Items.{thing_of, IsOnItsWay, IsSegmentOf};
ghost use Rattle.graft_actors.specs.Acts.{OwnPart, IsWelcome, TakesWelcome, ActsAs, things};
ghost use Rattle.graft_model.specs.First.{first_world};
ghost use Rattle.graft_model.specs.declared.event.RouterEvent.TheVariants.{Emit};
ghost use Rattle.graft_model.specs.Steps.{ByRouter};
ghost use Rattle.graft_actors.specs.Laws.{AnEventIsAStep, ANetRunIsARun, AJournalIsARun, AGroupIsARun, RouterRowsAreMade, FarRowsAreMade};
ghost use Rattle.graft_actors.specs.Laws.{OperatorRowsAreMade, OneWorldIsSeen, OneEventHasTheEntry, OneListHasTheEntries, IsEntryOf};
ghost use Rattle.graft_actors.specs.Laws.{SetupsAreKept, JournalsOfParts, ActorsHaveNumbers, NumbersAreOfActors};
ghost use Rattle.graft_actors.specs.Seen.{Net, Sees, IsFirstNet};

use graft_model::codes_are_exact;

/// An act of an actor that takes a welcome item, or none, is an event by its row in the model. Only the entry of a
/// dropped item has kind 0.
pub fn acts_are_events<C>()
    ensures rows { (session : C → SessionValue) (n : ℕ) (before after : OwnPart) (entry : JournalEntry) (taken : Option (ℕ × Item C)) (sent : List (ℕ × Item C))
        → actor_at before.setup n ≡ Some before.name → ActsAs session before entry taken sent after → TakesWelcome session before taken
        → makes before.setup n before.part entry (option_map (λ x. (x.0, thing_of session before.setup x.1)) taken)
        (things session before.setup sent) after.part }
    ensures dropped { (session : C → SessionValue) (before after : OwnPart) (entry : JournalEntry) (taken : Option (ℕ × Item C)) (sent : List (ℕ × Item C))
        → ActsAs session before entry taken sent after → (entry.kind ≡ 0) ↔ (TakesWelcome session before taken → ⊥) }
{}

/// A router takes from a far side the segments of its peering. From the operator it takes the order of a graft to one
/// of the routers, if the session is live here without an errand. From another router it takes what that one tells, a
/// session that moves here if its place is vacant, and a session that comes back, or word of a landing, if its shadow
/// for that graft is here. Both kinds of sessions must be established, with the initial sequence numbers of their
/// peerings.
pub fn routers_take_what_comes<C>()
    ensures segment { (session : C → SessionValue) (setup : Setup) (r n : ℕ) (part : RouterPart) (g : Segment)
        → IsWelcome session (record { setup = setup; name = Router r; part = RouterIs part }) n (items.Seg g)
        ↔ ((p : ℕ) × (actor_at setup n ≡ Some (FarSide p)) × IsSegmentOf setup p Home g) }
    ensures order { (session : C → SessionValue) (setup : Setup) (r n k : ℕ) (part : RouterPart) (peering : PeeringId) (target : RouterId)
        → IsWelcome session (record { setup = setup; name = Router r; part = RouterIs part }) n (items.GraftOrder k peering target)
        ↔ ((actor_at setup n ≡ Some Operator) × (target.0 < routers_in setup) × (s : SessionValue) × (part.places peering.0 ≡ Live s None)) }
    ensures told { (session : C → SessionValue) (setup : Setup) (r n : ℕ) (part : RouterPart) (prefix : PrefixValue) (route : Option Route)
        → IsWelcome session (record { setup = setup; name = Router r; part = RouterIs part }) n (items.Told prefix route)
        ↔ ((q : ℕ) × (actor_at setup n ≡ Some (Router q))) }
    ensures moved { (session : C → SessionValue) (setup : Setup) (r n k : ℕ) (part : RouterPart) (capsule : C)
        → IsWelcome session (record { setup = setup; name = Router r; part = RouterIs part }) n (items.Moved k capsule)
        ↔ (((q : ℕ) × (actor_at setup n ≡ Some (Router q))) × IsOnItsWay setup (session capsule)
        × ((session capsule).config.peering.0 < peerings_in setup) × (part.places (session capsule).config.peering.0 ≡ Vacant)) }
    ensures back { (session : C → SessionValue) (setup : Setup) (r n k : ℕ) (part : RouterPart) (capsule : C) (refusal : Refusal)
        → IsWelcome session (record { setup = setup; name = Router r; part = RouterIs part }) n (items.Back k capsule refusal)
        ↔ (((q : ℕ) × (actor_at setup n ≡ Some (Router q))) × IsOnItsWay setup (session capsule)
        × (part.places (session capsule).config.peering.0 ≡ Shadow k)) }
    ensures asked { (session : C → SessionValue) (setup : Setup) (r n k : ℕ) (part : RouterPart) (peering : PeeringId)
        → IsWelcome session (record { setup = setup; name = Router r; part = RouterIs part }) n (items.Asked k peering)
        ↔ ((q : ℕ) × (actor_at setup n ≡ Some (Router q))) }
    ensures answered { (session : C → SessionValue) (setup : Setup) (r n k : ℕ) (part : RouterPart) (peering : PeeringId)
        → IsWelcome session (record { setup = setup; name = Router r; part = RouterIs part }) n (items.Answered k peering)
        ↔ ((q : ℕ) × (actor_at setup n ≡ Some (Router q))) }
    ensures done { (session : C → SessionValue) (setup : Setup) (r n k : ℕ) (part : RouterPart) (peering : PeeringId)
        → IsWelcome session (record { setup = setup; name = Router r; part = RouterIs part }) n (items.Done k peering)
        ↔ (((q : ℕ) × (actor_at setup n ≡ Some (Router q))) × (part.places peering.0 ≡ Shadow k)) }
    ensures no_pointing { (session : C → SessionValue) (setup : Setup) (r n k : ℕ) (part : RouterPart)
        → ¬ IsWelcome session (record { setup = setup; name = Router r; part = RouterIs part }) n (items.PointAt k) }
    ensures no_report { (session : C → SessionValue) (setup : Setup) (r n k : ℕ) (part : RouterPart) (outcome : Outcome)
        → ¬ IsWelcome session (record { setup = setup; name = Router r; part = RouterIs part }) n (items.Report k outcome) }
    ensures no_say { (session : C → SessionValue) (setup : Setup) (r n step : ℕ) (part : RouterPart)
        → ¬ IsWelcome session (record { setup = setup; name = Router r; part = RouterIs part }) n (items.SayOrder step) }
{}

/// A far side takes from a router the segments of its peering, and word of landings. From the operator it takes the
/// order to say a step of its remote, if the stream has room.
pub fn far_sides_take_what_comes<C>()
    ensures segment { (session : C → SessionValue) (setup : Setup) (p n : ℕ) (part : FarPart) (g : Segment)
        → IsWelcome session (record { setup = setup; name = FarSide p; part = FarIs part }) n (items.Seg g)
        ↔ ((r : ℕ) × (actor_at setup n ≡ Some (Router r)) × IsSegmentOf setup p Remote g) }
    ensures point { (session : C → SessionValue) (setup : Setup) (p n k : ℕ) (part : FarPart)
        → IsWelcome session (record { setup = setup; name = FarSide p; part = FarIs part }) n (items.PointAt k)
        ↔ ((r : ℕ) × (actor_at setup n ≡ Some (Router r))) }
    ensures say { (session : C → SessionValue) (setup : Setup) (p n step : ℕ) (part : FarPart)
        → IsWelcome session (record { setup = setup; name = FarSide p; part = FarIs part }) n (items.SayOrder step)
        ↔ ((actor_at setup n ≡ Some Operator) × (bytes : List ℕ)
        × (slice_get setup.steps step ≡ Some (SayStep p bytes)) × (length part.end.stream + length bytes ≤ 2 ^ 20)) }
    ensures no_other { (session : C → SessionValue) (setup : Setup) (p n k : ℕ) (part : FarPart) (prefix : PrefixValue)
        (route : Option Route) (capsule : C) (refusal : Refusal) (peering : PeeringId) (target : RouterId) (outcome : Outcome)
        → (¬ IsWelcome session (record { setup = setup; name = FarSide p; part = FarIs part }) n (items.Told prefix route))
        × (¬ IsWelcome session (record { setup = setup; name = FarSide p; part = FarIs part }) n (items.Moved k capsule))
        × (¬ IsWelcome session (record { setup = setup; name = FarSide p; part = FarIs part }) n (items.Back k capsule refusal))
        × (¬ IsWelcome session (record { setup = setup; name = FarSide p; part = FarIs part }) n (items.Asked k peering))
        × (¬ IsWelcome session (record { setup = setup; name = FarSide p; part = FarIs part }) n (items.Answered k peering))
        × (¬ IsWelcome session (record { setup = setup; name = FarSide p; part = FarIs part }) n (items.Done k peering))
        × (¬ IsWelcome session (record { setup = setup; name = FarSide p; part = FarIs part }) n (items.GraftOrder k peering target))
        × (¬ IsWelcome session (record { setup = setup; name = FarSide p; part = FarIs part }) n (items.Report k outcome)) }
{}

/// The operator takes from a router the report of a graft that was ordered and has no outcome.
pub fn the_operator_takes_what_comes<C>()
    ensures report { (session : C → SessionValue) (setup : Setup) (n k : ℕ) (part : OperatorPart) (outcome : Outcome)
        → IsWelcome session (record { setup = setup; name = Operator; part = OperatorIs part }) n (items.Report k outcome)
        ↔ (((r : ℕ) × (actor_at setup n ≡ Some (Router r))) × (part.source k ≢ None) × (part.outcome k ≡ None)) }
    ensures no_other { (session : C → SessionValue) (setup : Setup) (n k : ℕ) (part : OperatorPart) (g : Segment)
        (prefix : PrefixValue) (route : Option Route) (capsule : C) (refusal : Refusal) (peering : PeeringId) (target : RouterId)
        → (¬ IsWelcome session (record { setup = setup; name = Operator; part = OperatorIs part }) n (items.Seg g))
        × (¬ IsWelcome session (record { setup = setup; name = Operator; part = OperatorIs part }) n (items.PointAt k))
        × (¬ IsWelcome session (record { setup = setup; name = Operator; part = OperatorIs part }) n (items.Told prefix route))
        × (¬ IsWelcome session (record { setup = setup; name = Operator; part = OperatorIs part }) n (items.Moved k capsule))
        × (¬ IsWelcome session (record { setup = setup; name = Operator; part = OperatorIs part }) n (items.Back k capsule refusal))
        × (¬ IsWelcome session (record { setup = setup; name = Operator; part = OperatorIs part }) n (items.Asked k peering))
        × (¬ IsWelcome session (record { setup = setup; name = Operator; part = OperatorIs part }) n (items.Answered k peering))
        × (¬ IsWelcome session (record { setup = setup; name = Operator; part = OperatorIs part }) n (items.Done k peering))
        × (¬ IsWelcome session (record { setup = setup; name = Operator; part = OperatorIs part }) n (items.GraftOrder k peering target))
        × (¬ IsWelcome session (record { setup = setup; name = Operator; part = OperatorIs part }) n (items.SayOrder k)) }
{}

/// An event that an actor of a net makes by its row, taking the head of a channel and sending to the ends of others, is
/// a step of the world that the net is seen as. After it the net is seen as the world after that step. A Go needs a
/// quiet world.
pub fn an_event_is_a_step()
    ensures { AnEventIsAStep }
{}

/// A run of a net that is seen as a world is a run of that world, by the events of its entries in their order, to the world that the
/// net is seen as at its end. Each Go needs a quiet world; a journal without a Go needs nothing.
pub fn a_journal_is_a_run<A>()
    ensures deeds { ANetRunIsARun }
    ensures journal { (part : A → ActorPart) → AJournalIsARun part }
    ensures without_go { (part : A → ActorPart) → AGroupIsARun part }
{}

/// If all actors begin with the same setup beside their parts, all keep it, and their run or merged journal is one of
/// the parts alone.
pub fn actors_keep_their_setup<A>()
    ensures run { SetupsAreKept }
    ensures journal { (part : A → PartWithSetup) → JournalsOfParts part }
{}

/// The parts with which actors begin, and empty channels, are seen as the first world.
pub fn parts_begin_as_the_first_world()
    ensures { (setup : Setup) (net : Net) → IsFirstNet setup net → Sees setup net (first_world setup) }
{}

/// Routers have the numbers from 0, far sides those after them in the order of their peerings, and the operator the one
/// after these. No other number is an actor's.
pub fn actors_have_their_numbers()
    ensures numbers { ActorsHaveNumbers }
    ensures actors { NumbersAreOfActors }
{}

/// Every row of the model is an event that its actor makes, at any clock, with what the row takes and sends as items by
/// the numbers of their senders and receivers, if each receiver exists.
pub fn rows_are_made()
    ensures router { RouterRowsAreMade }
    ensures far { FarRowsAreMade }
    ensures operator { OperatorRowsAreMade }
{}

/// A net is seen as one world only.
pub fn a_net_is_one_world()
    ensures { OneWorldIsSeen }
{}

/// An entry belongs to one event only, and a journal to one list of events. For example, if a router emits 20 bytes of
/// peering 5 from offset 10 on, the entry has kind 2 and arguments 5, 10 and 20.
pub fn an_entry_is_of_one_event()
    ensures one { OneEventHasTheEntry }
    ensures all { OneListHasTheEntries }
    ensures worked { (setup : Setup) (clock r : ℕ) → r < routers_in setup
        → IsEntryOf setup (ByRouter r (Emit 5 10 20)) (record { clock = clock; actor = r; kind = 2; a = 5; b = 10; c = 20 }) }
{
    codes_are_exact();
}
