//! What the groups rely on.

ghost use Rattle.std.specs.Prelude.{◌≡◌, List, option_map, option_and_then};
ghost use Rattle.bgp_types.specs.declared.rank.From as from;
ghost use Rattle.bgp_types.specs.declared.rank.Rank as rank;
ghost use Rattle.decision_core.specs.Choice.{choice};
ghost use Rattle.decision_groups.specs.Order.{RankedSource, IsInOrder};
ghost use Rattle.decision_groups.specs.Champions.{champions, choice_without_med};
ghost use Rattle.decision_groups.specs.Sources.{ranked_sources, candidate_from};

/// The choice among all candidates is the choice, without MED, among the champions of the neighbour
/// ASes.
pub fn champions_decide()
    ensures { (candidates : List RankedSource) → IsInOrder candidates → choice candidates ≡ choice_without_med (champions candidates) }
{}

/// The choice among candidates and the choice among their sources agree. Candidates are named by any
/// `K`, such as whole routes, and have different sources, in the order in which a `GroupSet` has these:
/// the source that `GroupSet::best` returns is that of the chosen candidate, and the candidate with
/// that source is the chosen one.
pub fn choice_by_sources<K>()
    ensures source { (source : K → from.From) (candidates : List (K × rank.Rank))
        → choice (ranked_sources source candidates) ≡ option_map source (choice candidates) }
    ensures candidate { (source : K → from.From) (candidates : List (K × rank.Rank)) → IsInOrder (ranked_sources source candidates)
        → option_and_then (candidate_from source candidates) (choice (ranked_sources source candidates)) ≡ choice candidates }
{}
