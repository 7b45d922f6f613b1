//! What the two ends of a connection receive.

ghost use Rattle.std.specs.Prelude.{◌≡◌, ◌++◌, ℕ, List, length, take, drop};
ghost use Rattle.graft_edge.specs.declared.ids.PeeringId.{PeeringId};
ghost use Rattle.tcp_seq.specs.declared.seq.Seq.{Seq};
ghost use Rattle.tcp_seq.specs.declared.segment.Way.{Way};
ghost use Rattle.tcp_seq.specs.Connection.{Connection, IsConnection};
ghost use Rattle.tcp_seq.specs.Endpoint.{Endpoint, received_bytes};
ghost use Rattle.tcp_seq.specs.declared.state.EndState.{EndState};
ghost use Rattle.tcp_end.specs.State.{got};
ghost use Rattle.tcp_end.specs.Standing.{EndStands};
ghost use Rattle.tcp_end.specs.Whole.{endpoint_of};
ghost use Rattle.tcp_end.specs.Ends.{EndPair, fresh_pair, PairStep, PairRun, PairStands, PairBecomes, PairFollows};

/// Each call on an end is a step of the connection of two endpoints, or leaves it as it is.
pub fn calls_are_steps()
    ensures step { (before after : EndPair) (c : Connection) → PairStands before c → IsConnection c → PairStep before after → PairBecomes c after }
    ensures run { (peering : PeeringId) (near_way far_way : Way) (near_first far_first : Seq) (pairs : List EndPair) (last : EndPair)
        → PairRun (fresh_pair peering near_way far_way near_first far_first) pairs last → PairFollows last }
{}

/// What was read of the other side's stream, followed by what is ready, is the first part of that
/// stream, as long as what was received.
pub fn received_are_first_bytes()
    ensures there { (pair : EndPair) (c : Connection) → PairStands pair c → IsConnection c
        → take pair.far.state.taken c.near.end.stream ++ pair.far.state.ready ≡ take (got pair.far.state) c.near.end.stream }
    ensures back { (pair : EndPair) (c : Connection) → PairStands pair c → IsConnection c
        → take pair.near.state.taken c.far.end.stream ++ pair.near.state.ready ≡ take (got pair.near.state) c.far.end.stream }
{}

/// The endpoint that a state stands for is determined by its stream and by the bytes that were read.
pub fn an_endpoint_is_its_state()
    ensures { (s : EndState) (e : Endpoint) (stream read : List ℕ) → EndStands s e
        → e.stream ≡ stream → take e.read (received_bytes e) ≡ read → e ≡ endpoint_of stream read s }
{}
