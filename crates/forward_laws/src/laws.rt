//! Laws: where packets go once the tables of all routers solve the decision equations.

ghost use Rattle.std.specs.Prelude.{ℕ, ◌≡◌, ◌≢◌, ◌<◌, [], Some};
ghost use Rattle.graft_edge.specs.declared.ids.RouterId.{RouterId};
ghost use Rattle.graft_edge.specs.declared.ids.PeeringId.{PeeringId};
ghost use Rattle.bgp_types.specs.Prefixes.{PrefixValue};
ghost use Rattle.bgp_types.specs.declared.rank.From.TheVariants.{Peering, Router};
ghost use Rattle.forward_walk.specs.declared.walk.Walk.{Walk};
ghost use Rattle.forward_walk.specs.declared.walk.Walk.TheVariants.{Leaves};
ghost use Rattle.forward_walk.specs.Solved.{AreSolved, TwoRoutersAtMost};
ghost use Rattle.forward_walk.specs.Tables.{from_at};
ghost use Rattle.forward_walk.specs.Walks.{WalksTo};
ghost use Rattle.graft_model.specs.Setups.{Setup, IsSetup, routers_in, peerings_in};
ghost use Rattle.graft_model.specs.Parts.{World};
ghost use Rattle.graft_model.specs.OperatorRows.{placement};
ghost use Rattle.graft_model.specs.Claims.{Solves};
ghost use Rattle.forward_laws.specs.Forwards.{AllTransparent, forward_maps};

/// If the tables of all routers solve the decision equations, they are those of a solved network: a router has a route
/// from another one only if that one's best route is its own or from a remote, and a prefix for which some router has
/// such a route is in the tables of all routers (RFC 4271, sections 9.1.2 and 9.2).
pub fn solved_networks_forward()
    ensures { (setup : Setup) (w : World) → IsSetup setup → Solves setup w → AreSolved (forward_maps setup w) }
{}

/// A packet leaves the home network over a peering only at the router where the session of that peering belongs by the
/// operator's log: a route from a remote is the best one only where its session is. The world must be one in which each
/// session belongs to its peering, as is the case after every list of events.
pub fn packets_leave_where_sessions_are()
    ensures { (setup : Setup) (w : World) (r : RouterId) (p : PeeringId) (prefix : PrefixValue)
        → IsSetup setup → Solves setup w → AllTransparent setup w
        → from_at (forward_maps setup w) r prefix ≡ Some (Peering p) → (r.0 ≡ placement setup w.operator p.0) × (p.0 < peerings_in setup) }
{}

/// A router whose best route comes from a router has it from another one of the home network, never from itself.
pub fn named_routers_are_there()
    ensures { (setup : Setup) (w : World) (r q : RouterId) (prefix : PrefixValue)
        → IsSetup setup → Solves setup w
        → from_at (forward_maps setup w) r prefix ≡ Some (Router q) → (q.0 < routers_in setup) × (q ≢ r) }
{}

/// A packet that starts at a router of the home network passes at most two routers, and neither of them twice. If it
/// leaves over a peering, it leaves at the router where the session of that peering belongs by the operator's log. It
/// finds no route only if no router has a prefix that covers its address.
pub fn solved_walks()
    ensures two { (setup : Setup) (w : World) (address : ℕ) (from : RouterId) (walk : Walk)
        → IsSetup setup → Solves setup w → from.0 < routers_in setup
        → WalksTo (forward_maps setup w) address [] from walk → TwoRoutersAtMost (forward_maps setup w) address from walk }
    ensures leaves { (setup : Setup) (w : World) (address : ℕ) (from r : RouterId) (p : PeeringId) (prefix : PrefixValue)
        → IsSetup setup → Solves setup w → AllTransparent setup w → from.0 < routers_in setup
        → WalksTo (forward_maps setup w) address [] from (Leaves r p prefix) → r.0 ≡ placement setup w.operator p.0 }
{}
