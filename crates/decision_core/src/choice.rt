//! The nine rules that choose between the routes to one prefix: the home network's own routes first,
//! then the degree of preference (RFC 4271, section 9.1.2), then the seven tie-breaks of section
//! 9.1.2.2.

ghost use Rattle.std.specs.Prelude.{◌≡◌, ◌↔◌, [], IsNone, IsPermutation, AllPairs, option_map, option_and_then, slice_get};
ghost use Rattle.decision_core.specs.Choice.{choice as choice_of, ranks_by_index, ranks_left, first, AreEqual, has_lower_med as has_lower_med_lem};
ghost use Rattle.decision_core.specs.Search.{leads as leads_lem, is_nearer as is_nearer_lem, best_by, takes_out as takes_out_lem};
ghost use Rattle.decision_core.specs.Search.{is_taken_out as is_taken_out_lem, improves as improves_lem, is_next as is_next_lem};

use bgp_types::Rank;

/// Whether the first rank is better by the rules before MED, which are applied in order.
pub fn leads(a: &Rank, b: &Rank) -> bool
    ensures { result ≡ leads_lem a.now b.now }
{
    if a.own != b.own {
        return a.own;
    }
    if a.pref != b.pref {
        return a.pref > b.pref;
    }
    if a.path_len != b.path_len {
        return a.path_len < b.path_len;
    }
    a.origin < b.origin
}

/// Whether the first rank has the lower MED. Only routes from the same neighbour AS are compared.
fn has_lower_med(a: &Rank, b: &Rank) -> bool
    ensures { result ≡ has_lower_med_lem a.now b.now }
{
    a.neighbour == b.neighbour && a.med < b.med
}

/// Whether the first rank is better by the rules after MED, which are applied in order.
pub fn is_nearer(a: &Rank, b: &Rank) -> bool
    ensures { result ≡ is_nearer_lem a.now b.now }
{
    if a.external != b.external {
        return a.external;
    }
    if a.cost != b.cost {
        return a.cost < b.cost;
    }
    if a.identifier != b.identifier {
        return a.identifier < b.identifier;
    }
    a.address < b.address
}

/// Returns the first of the ranks that no other one leads.
fn leader(list: &[Rank]) -> Option<Rank>
    ensures { result ≡ best_by leads_lem list.now }
{
    let (first, others) = list.split_first()?;
    let mut leader = *first;
    for rank in others {
        if leads(rank, &leader) {
            leader = *rank;
        }
    }
    Some(leader)
}

/// Whether one rank eliminates another by MED, where `leader` is a rank that no other leads.
fn takes_out(leader: &Rank, rank: &Rank, other: &Rank) -> bool
    ensures { result ≡ takes_out_lem leader.now rank.now other.now }
{
    has_lower_med(rank, other) && !leads(leader, rank)
}

/// Whether some rank in the list eliminates this one by MED, where `leader` is a rank that no other
/// leads.
fn is_taken_out(list: &[Rank], leader: &Rank, rank: &Rank) -> bool
    ensures { result ≡ is_taken_out_lem leader.now list.now rank.now }
{
    list.iter().any(|other| takes_out(leader, other, rank))
}

/// Whether a rank is nearer than the nearest one so far, which is given with its index.
fn improves(nearest: &Option<(usize, Rank)>, rank: &Rank) -> bool
    ensures { result ≡ improves_lem nearest.now rank.now }
{
    match nearest {
        Some((_, nearest)) => is_nearer(rank, nearest),
        None => true,
    }
}

/// Whether a rank is nearer than the nearest one so far, and isn't eliminated by the rules up to MED,
/// where `leader` is a rank that no other leads.
fn is_next(list: &[Rank], leader: &Rank, nearest: &Option<(usize, Rank)>, rank: &Rank) -> bool
    ensures { result ≡ is_next_lem leader.now list.now nearest.now rank.now }
{
    // Looking through all ranks for a lower MED is the expensive check, so it comes last.
    !leads(leader, rank) && improves(nearest, rank) && !is_taken_out(list, leader, rank)
}

/// Returns the index in the list, counted from 0, of the route that the nine rules of the decision
/// process choose. Each rule is applied to all the routes that the rules before it leave, so the routes
/// that are left in the end don't depend on the order in which they arrived (RFC 4271, section
/// 9.1.2.2). Those are equal by all nine rules, and the first of them is chosen. A route that is equal
/// to it but was eliminated, by the MED of a third route, may stand before it. It allocates nothing.
pub fn best(list: &[Rank]) -> Option<usize>
    ensures empty { IsNone result ↔ (list.now ≡ []) }
    ensures choice { result ≡ choice_of (ranks_by_index list.now) }
{
    let leader = leader(list)?;
    let mut nearest: Option<(usize, Rank)> = None;
    for (index, rank) in list.iter().enumerate() {
        if is_next(list, &leader, &nearest, rank) {
            nearest = Some((index, *rank));
        }
    }
    nearest.map(|(index, _)| index)
}

/// In any other order of the list the nine rules leave the same ranks. These are equal by all nine
/// rules, and the first of them is chosen.
pub fn order_matters_only_among_equals(list: &[Rank], other: &[Rank])
    requires { IsPermutation list.now other.now }
    ensures same { IsPermutation (ranks_left list.now) (ranks_left other.now) }
    ensures equal { AllPairs AreEqual (ranks_left list.now) }
    ensures first { option_and_then (λ index. slice_get list.now index) (choice_of (ranks_by_index list.now)) ≡ first (ranks_left list.now) }
{}
