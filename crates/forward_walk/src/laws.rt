//! What holds of walks in a solved network.

ghost use Rattle.std.specs.Prelude.{ℕ, ◌<◌, List, [], length};
ghost use Rattle.graft_edge.specs.declared.ids.RouterId.{RouterId};
ghost use Rattle.forward_walk.specs.declared.walk.Walk.{Walk};
ghost use Rattle.forward_walk.specs.Solved.{AreSolved, TwoRoutersAtMost};
ghost use Rattle.forward_walk.specs.Tables.{ForwardMap};
ghost use Rattle.forward_walk.specs.Walks.{WalksTo};

/// In a solved network a walk visits at most two routers, and none of them twice. It ends where a
/// packet leaves by the longest prefix that covers its address, and ends without a route only if no
/// router has a prefix that covers the address.
pub fn walks_end()
    ensures { (tables : List ForwardMap) (address : ℕ) (from : RouterId) (walk : Walk) → AreSolved tables
        → from.0 < length tables → WalksTo tables address [] from walk → TwoRoutersAtMost tables address from walk }
{}
