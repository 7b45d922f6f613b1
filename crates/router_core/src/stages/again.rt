//! Retransmission turns.

ghost use Rattle.router_core.specs.Visits.{sending_again};

use super::send::{again, outlet_of};
use super::visit::Visit;
use crate::fields::Fields;
use bgp_session::Capsule;
use graft_edge::NoMemory;
use graft_steps::Item;
use ring_net::Post;

/// The stage at which each session makes its retransmission turn.
#[derive(Drop)]
pub(crate) struct SendAgain;

impl Visit for SendAgain {
    ghost stage = { λ stage. sending_again };

    fn visit(
        &self,
        router: &mut Fields,
        n: usize,
        post: &mut Post<Item<Capsule>>,
    ) -> Result<(), NoMemory> {
        let outlet = outlet_of(router, n);
        let Some(segment) = again(&mut router.places, n)? else {
            return Ok(());
        };
        outlet.send(segment, post)
    }
}
