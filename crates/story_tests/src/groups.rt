//! A rank that is added, moved to another neighbour AS or removed, and the choice after it.

use bgp_types::{From, PeeringId, Rank, RouterId};
use decision_groups::{GroupSet, choice_by_sources};
use route_policy::Best;
use std::test::Fail;

const RANK: Rank = Rank {
    own: false,
    pref: 100,
    path_len: 1,
    origin: 0,
    neighbour: 65001,
    med: 0,
    external: true,
    cost: 0,
    identifier: 0xC000_0201,
    address: 0xC000_0201,
};

#[test]
fn a_rank_that_comes_or_goes_changes_the_choice(rt: HostRuntime) -> Result<(), Fail> {
    choice_by_sources::<Best>();
    let first = From::Peering(PeeringId(0));
    let second = From::Peering(PeeringId(1));
    let third = From::Router(RouterId(0));
    let mut set = GroupSet::new(rt.alloc());
    assert!(rt; set.is_empty() && set.best() == None && !set.remove(first));
    set.set(first, Rank { med: 20, ..RANK })?;
    set.set(
        second,
        Rank {
            neighbour: 65002,
            identifier: 0xC000_0205,
            ..RANK
        },
    )?;
    assert_eq!(rt; set.best(), Some(first));
    let low_med = Rank {
        med: 10,
        identifier: 0xC000_0209,
        ..RANK
    };
    // the third eliminates the first by its MED, and the second has the lower identifier
    set.set(third, low_med)?;
    assert_eq!(rt; set.best(), Some(second));
    assert_eq!(rt; set.len(), 3);
    // told by a neighbour AS of its own, it eliminates nothing
    set.set(
        third,
        Rank {
            neighbour: 65003,
            ..low_med
        },
    )?;
    assert_eq!(rt; set.best(), Some(first));
    assert!(rt; set.remove(first) && set.remove(second));
    assert_eq!(rt; set.best(), Some(third));
    assert_eq!(rt; set.get(third).map(|rank| rank.med), Some(10));
    Ok(())
}
