//! The first of the things that are left to do.

ghost use Rattle.settled_check.specs.Firsts.{IsFirstOf, IsEither};
ghost use Rattle.settled_check.specs.Named.{RouterNames, FarNames, OperatorNames};

use graft_steps::{FarRest, OperatorRest, Pending, RouterRest, pending_order};

/// Returns the first thing that a router's rest names, in the order of pending things, or `None` if it names none.
pub fn router_rest(rest: &RouterRest) -> Option<Pending>
    ensures { IsFirstOf (RouterNames rest.now) result }
{
    if let Some(graft) = rest.graft {
        return Some(Pending::Graft(graft));
    }
    if let Some(peering) = rest.stream {
        return Some(Pending::Stream(peering));
    }
    if rest.dirty {
        return Some(Pending::Dirty(rest.number));
    }
    if let Some(router) = rest.due_in {
        return Some(Pending::DueIn(rest.number, router));
    }
    rest.due_out.map(Pending::DueOut)
}

/// Returns the first thing that a far side's rest names, if any.
pub fn far_rest(rest: &FarRest) -> Option<Pending>
    ensures { IsFirstOf (FarNames rest.now) result }
{
    let bag = (rest.bag > 0).then_some(Pending::Bag(rest.peering));
    bag.or(rest.unacked.then_some(Pending::Stream(rest.peering)))
}

/// Returns the first thing that the operator's rest names, if any.
pub fn operator_rest(rest: &OperatorRest) -> Option<Pending>
    ensures { IsFirstOf (OperatorNames rest.now) result }
{
    let script = rest.unissued.then_some(Pending::Script);
    script.or(rest.graft.map(Pending::Graft))
}

/// Returns the first of the things that two answers name, if any.
pub fn first_pending(one: Option<Pending>, other: Option<Pending>) -> Option<Pending>
    ensures { IsFirstOf (IsEither one other) result }
{
    pending_order();
    match (one, other) {
        (Some(one), Some(other)) => Some(one.min(other)),
        (one, None) => one,
        (None, other) => other,
    }
}
