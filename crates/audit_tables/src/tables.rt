//! A router's tables.

ghost use Rattle.std.specs.Prelude.{ℕ, ◌≡◌, ◌<◌, ◌≤◌, None, IfOk, length, replicate, slice_set};
ghost use Rattle.session_value.specs.Sets.{has};
ghost use Rattle.graft_model.specs.First.{first_router};
ghost use Rattle.graft_model.specs.Parts.{Place};
ghost use Rattle.graft_model.specs.Setups.{missing_policy as missing_policy_lem};
ghost use Rattle.audit_tables.specs.Parts.{part_with, TablesInvariant};

use crate::pending::Pending;
use actor_configs::Policies;
use bgp_types::Prefix;
use graft_actors::Known;
use graft_edge::{Name, NoMemory, RouterId};
use rib_stages::{Rib, RibConfig};
use router_tables::{DueSets, missing_policy};
use session_value::SessionConfig;
use std::alloc::Global;

/// A router's tables: what peerings and other routers gave, the best routes, the dirty prefixes, and those that are due
/// to each router and on each peering.
#[derive(Drop)]
pub struct Tables {
    pub(crate) alloc: Global,
    /// The laboratory, which is only for proofs.
    pub(crate) known: Known,
    pub(crate) number: RouterId,
    /// The AS of the home network.
    pub(crate) home_as: u32,
    pub(crate) policies: Policies,
    pub(crate) rib: Rib,
    pub(crate) due_in: DueSets,
    pub(crate) due_out: DueSets,
    /// What is to be told on each peering, where it was found and nothing has changed it since.
    pub(crate) pending: Vec<Option<Pending>>,
}

/// Returns for each of `count` peerings that it isn't known what is to be told there.
fn nothing_known(alloc: Global, count: usize) -> Result<Vec<Option<Pending>>, NoMemory>
    ensures { IfOk result (λ pending. pending.items ≡ replicate count None) }
{
    let mut pending = Vec::new(alloc);
    for _p in 0..count {
        pending.push(None)?;
    }
    Ok(pending)
}

impl Tables {
    ghost use Rattle.actor_configs.specs.Configs.{ArePoliciesOf, IsRibOf};
    ghost use Rattle.graft_model.specs.Setups.{routers_in, peerings_in};
    ghost use Rattle.audit_tables.specs.Parts.{NothingIsKnown};

    /// Returns the tables of a router that begins: its own networks are dirty, and nothing is due.
    pub fn new(
        alloc: Global,
        known: Known,
        number: RouterId,
        peerings: usize,
        routers: u32,
        policies: Policies,
        config: RibConfig,
    ) -> Result<Tables, NoMemory>
        requires there { number.0 < routers_in known.setup }
        requires routers { routers ≡ routers_in known.setup }
        requires few_routers { routers_in known.setup ≤ 256 }
        requires peerings { peerings ≡ peerings_in known.setup }
        requires few_peerings { peerings_in known.setup ≤ 256 }
        requires policies { ArePoliciesOf known.setup number.0 policies }
        requires rib { IsRibOf known.setup number.0 config }
        ensures setup { IfOk result (λ tables. tables.known.setup ≡ known.setup) }
        ensures number { IfOk result (λ tables. tables.number ≡ number) }
        ensures first { IfOk result (λ tables. (places : ℕ → Place) → places ≡ (first_router known.setup number.0).places
            → part_with places tables ≡ first_router known.setup number.0) }
        ensures unknown { IfOk result NothingIsKnown }
        ensures sound { IfOk result TablesInvariant }
    {
        let home_as = config.home_as;
        let rib = Rib::new(alloc, config)?;
        let due_in = DueSets::new(alloc, routers as usize)?;
        let due_out = DueSets::new(alloc, peerings)?;
        let pending = nothing_known(alloc, peerings)?;
        Ok(Tables {
            alloc,
            known,
            number,
            home_as,
            policies,
            rib,
            due_in,
            due_out,
            pending,
        })
    }

    /// Forgets what is to be told on each peering, since the tables change.
    pub(crate) fn forget_all(&mut self)
        ensures same { self.new ≡ record self.old { pending = self.new.pending } }
        ensures count { length self.new.pending.items ≡ length self.old.pending.items }
        ensures unknown { NothingIsKnown self.new }
    {
        for p in 0..self.pending.len() {
            self.pending[p] = None;
        }
    }

    /// Forgets what is to be told on a peering.
    pub fn forget(&mut self, p: usize)
        requires { p < length self.old.pending.items }
        ensures same { self.new ≡ record self.old { pending = self.new.pending } }
        ensures forgets { self.new.pending.items ≡ slice_set self.old.pending.items p None }
    {
        self.pending[p] = None;
    }

    /// Returns whether a prefix is dirty.
    pub fn is_dirty(&self, prefix: Prefix) -> bool
        ensures { result ≡ has self.now.rib.dirty prefix }
    {
        self.rib.is_dirty(prefix)
    }

    /// Returns the number of the router.
    pub fn number(&self) -> RouterId
        ensures { result ≡ self.now.number }
    {
        self.number
    }

    /// Returns the first policy name of a session for which the router has no policy. The import policy comes before
    /// the export policy.
    pub fn missing_policy(&self, config: &SessionConfig) -> Result<Option<Name>, NoMemory>
        requires { TablesInvariant self.now }
        ensures { IfOk result (λ missing. missing ≡ missing_policy_lem self.now.known.setup self.now.number.0 config.now) }
    {
        missing_policy(&self.policies, config)
    }
}
