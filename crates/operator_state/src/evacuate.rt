//! What evacuate steps give as their group begins: a target router for each session of the router that is emptied.

ghost use Rattle.std.specs.Prelude.{◌≡◌, ◌≤◌, ◌<◌, ◌+◌, ◌^◌, All, length, IfOk};
ghost use Rattle.operator_state.specs.Evacuate.{seated_from, load_of as load_of_lem, seat_loads, gifts_to, given_slot, give as give_lem};

use crate::grafts::{Move, Seat, Slot, waiting_entry};
use evacuation::{a_plan_is_the_only_one, plan, there_is_a_plan};
use graft_edge::{Items, NoMemory, PeeringId, RouterId};
use std::alloc::Global;

/// What an evacuate step gives for a session that belongs at its router: the number of the graft, the peering, the
/// router that is emptied, and the target, if one has a free place.
#[derive(Clone, Copy, Debug, PartialEq, Eq, Hash)]
pub struct Gift {
    pub graft: u32,
    pub peering: PeeringId,
    pub router: RouterId,
    pub target: Option<RouterId>,
}

pub type Gifts = Items<Gift>;

/// Returns the number of sessions that belong at a router.
fn load_of(seats: &[Seat], router: usize) -> u32
    requires { length seats.now ≤ 256 }
    ensures { result ≡ load_of_lem seats.now router }
{
    seats
        .iter()
        .filter(|seat| usize::from(seat.place.0) == router)
        .count() as u32
}

/// Returns how many sessions belong at each of `count` routers.
pub(crate) fn loads_of(
    alloc: Global,
    seats: &[Seat],
    routers: usize,
) -> Result<Items<u32>, NoMemory>
    requires { length seats.now ≤ 256 }
    ensures { IfOk result (λ loads. loads ≡ seat_loads seats.now routers) }
{
    let mut loads = Items::new(alloc);
    for router in 0..routers {
        loads.push(load_of(seats, router))?;
    }
    Ok(loads)
}

/// Returns the peerings whose sessions belong at the router, in ascending order.
fn peerings_at(
    alloc: Global,
    seats: &[Seat],
    router: RouterId,
) -> Result<Items<PeeringId>, NoMemory>
    requires { length seats.now ≤ 256 }
    ensures { IfOk result (λ peerings. peerings ≡ seated_from 0 router seats.now) }
{
    let mut peerings = Items::new(alloc);
    for (number, seat) in seats.iter().enumerate() {
        if seat.place == router {
            peerings.push(PeeringId(number as u8))?;
        }
    }
    Ok(peerings)
}

/// Returns what an evacuate step gives, with its grafts numbered from `first` on. Each session of the router in turn
/// goes to the other router with the least load among those with a free place.
pub(crate) fn gifts_from(
    alloc: Global,
    first: u32,
    router: RouterId,
    seats: &[Seat],
    loads: &[u32],
    rooms: &[u32],
) -> Result<Gifts, NoMemory>
    requires few { length seats.now ≤ 256 }
    requires numbered { first + 256 < 2 ^ 32 }
    requires same_length { length rooms.now ≡ length loads.now }
    requires routers { length loads.now ≤ 256 }
    ensures { IfOk result (λ gifts. gifts ≡ gifts_to first router seats.now loads.now rooms.now) }
{
    there_is_a_plan();
    a_plan_is_the_only_one();
    let peerings = peerings_at(alloc, seats, router)?;
    let targets = plan(alloc, loads, rooms, router, peerings.len() as u32)?;
    let mut gifts = Items::new(alloc);
    for (peering, target) in peerings.iter().zip(targets.iter()) {
        gifts.push(Gift {
            graft: first + u32::from(peering.0),
            peering: *peering,
            router,
            target: *target,
        })?;
    }
    Ok(gifts)
}

/// Returns the slot for what an evacuate step gives.
fn slot_of(gift: &Gift) -> Slot
    ensures { result ≡ given_slot gift.now }
{
    let Gift {
        graft,
        peering,
        router,
        target,
    } = *gift;
    match target {
        Some(target) => Slot::Made(waiting_entry(graft, Move { peering, target })),
        None => Slot::Stays {
            graft,
            peering,
            router,
        },
    }
}

/// Puts what evacuate steps give into the slots of their grafts.
pub fn give(slots: &mut [Slot], gifts: &[Gift])
    requires { All (λ gift. (1 ≤ gift.graft) × (gift.graft ≤ length slots.old)) gifts.now }
    ensures { slots.new ≡ give_lem gifts.now slots.old }
{
    for gift in gifts {
        slots[gift.graft as usize - 1] = slot_of(gift);
    }
}
