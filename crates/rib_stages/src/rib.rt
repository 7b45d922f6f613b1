//! The routes of a router.

ghost use Rattle.std.specs.Prelude.{◌≡◌, ◌≢◌, false, Some, None, IfOk, OnOk, OnErr, MatchBool, option_copied};
ghost use Rattle.std.specs.FinMap as map;
ghost use Rattle.bgp_types.specs.Tables.{first_above};
ghost use Rattle.bgp_types.specs.declared.rank.From.TheVariants.{Own};
ghost use Rattle.loc_rib.specs.Values.{with_best, DifferIf};
ghost use Rattle.route_policy.specs.Candidates.{own_route as own_route_lem, rank_of};
ghost use Rattle.route_policy.specs.Telling.{tell_in as tell_in_lem, tell_out as tell_out_lem, out_side_of_view};
ghost use Rattle.session_value.specs.Sets.{has};
ghost use Rattle.rib_stages.specs.Values.{rib_of, set_of, table_from, tables_of};
ghost use Rattle.rib_stages.specs.Choosing.{rib_choice, IsDecided, route_from, prefixes_from, cost_to as cost_to_lem, identifier_of as identifier_of_lem};
ghost use Rattle.rib_stages.specs.Ranks.{route_at, HasOwnRanks};
ghost use Rattle.rib_stages.specs.Steps.{SetsIn, Enters, IsOther, MayMark, DropsAll, DropsSome, given, taken};

use crate::config::{InEntry, RibConfig};
use crate::ranks::{Choices, best_from};
use crate::sources::Sources;
use bgp_types::{
    Attrs, From, Items, NoMemory, Origin, Prefix, PrefixList, Rank, Route, SharedAttrs, Table,
};
use prefix_trie::TrieTable;
use route_policy::{Best, Entry, OutView, PREFERENCE, own_rank, router_rank, session_rank};
use std::alloc::Global;
use std::marker::Model;

/// What the peerings and the other home routers gave a router, the best route to each prefix, and the
/// dirty prefixes, which have to be decided again. For a prefix that isn't dirty, the best route is the
/// chosen one of its candidates.
///
/// A call for one prefix makes a few descents of at most 33 steps, however many prefixes there are. A
/// change of one route looks through the candidates of one neighbour AS for its prefix, and a decision
/// through one champion of each neighbour AS. `drop_from` takes that time for each route that it drops.
#[derive(Drop)]
pub struct Rib {
    config: RibConfig,
    own_route: Route,
    networks: TrieTable<()>,
    peerings: Sources<Entry>,
    routers: Sources<Route>,
    choices: Choices,
}

impl Model for Rib {
    ghost use Rattle.rib_stages.specs.Values.{RibStore, coded_rib, contents_of, tables_of};
    ghost use Rattle.rib_stages.specs.Ranks.{IsRib};
    ghost use Rattle.route_policy.specs.contracts.best.Best as best_type;
    ghost use Rattle.route_policy.specs.contracts.entry.Entry as entry_type;
    ghost use Rattle.bgp_types.specs.contracts.attrs.Route as route_type;

    ghost Value = { RibStore };

    ghost coded = { coded_rib entry_type.the_row.coded route_type.the_row.coded best_type.the_row.coded };

    ghost view = { λ r. record {
      config = r.config;
      entries = contents_of r.peerings;
      tellings = contents_of r.routers;
      best = r.choices.loc.best;
      dirty = r.choices.loc.dirty;
    } };

    ghost invariant = { λ r. IsRib (record {
      config = r.config;
      entries = tables_of r.peerings;
      tellings = tables_of r.routers;
      best = r.choices.loc.best;
      dirty = r.choices.loc.dirty;
    }) r.choices.groups.contents r.networks.contents r.own_route };
}

/// Returns the route to a network of the router's own.
fn own_route(alloc: Global) -> Result<Route, NoMemory>
    ensures { IfOk result (λ route. route ≡ own_route_lem) }
{
    let attrs = Attrs {
        origin: Origin::Igp,
        path: Items::new(alloc),
        next_hop: 0,
        med: None,
        atomic: false,
        aggregator: None,
        unknown: Items::new(alloc),
    };
    Ok(Route {
        attrs: SharedAttrs::new(attrs)?,
        pref: PREFERENCE,
    })
}

/// Whether a peering's entry is this one, or both are absent.
#[tactic(auto, using(bgp_types::proofs::Equality::route_equal))]
fn is_same_entry(held: Option<&Entry>, entry: &InEntry) -> bool
    ensures { MatchBool result (given entry.now ≡ option_copied held.entry) (given entry.now ≢ option_copied held.entry) }
{
    match (held, &entry.route) {
        (None, None) => true,
        (Some(held), Some(route)) => {
            held.route == *route
                && held.identifier == entry.identifier
                && held.address == entry.address
        }
        _ => false,
    }
}

/// Whether two routes are the same, or both are absent.
#[tactic(auto, using(bgp_types::proofs::Equality::route_equal))]
fn is_same_route(held: Option<&Route>, route: &Option<Route>) -> bool
    ensures { MatchBool result (route.now ≡ option_copied held.entry) (route.now ≢ option_copied held.entry) }
{
    match (held, route) {
        (None, None) => true,
        (Some(held), Some(route)) => held == route,
        _ => false,
    }
}

/// Returns the route to a prefix from this source, where `own` is the route to an own network.
fn route_of<'a>(
    own: &'a Route,
    peerings: &'a Sources<Entry>,
    routers: &'a Sources<Route>,
    from: From,
    prefix: Prefix,
) -> Option<&'a Route>
    ensures { option_copied result ≡ route_at own.now (tables_of peerings.now) (tables_of routers.now) from prefix }
{
    match from {
        From::Own => Some(own),
        From::Peering(p) => {
            let entry = peerings.get(p.0, prefix)?;
            Some(&entry.route)
        }
        From::Router(q) => routers.get(q.0, prefix),
    }
}

/// Returns the interior cost to a router: 1 if none is given.
fn cost_to(config: &RibConfig, q: usize) -> u32
    ensures { result ≡ cost_to_lem config.now q }
{
    config.costs.get(q).copied().unwrap_or(1)
}

/// Returns the BGP Identifier of a router: 0 if none is given.
fn identifier_of(config: &RibConfig, q: usize) -> u32
    ensures { result ≡ identifier_of_lem config.now q }
{
    config.identifiers.get(q).copied().unwrap_or(0)
}

/// Returns the rank of a route that a router told.
fn telling_rank(config: &RibConfig, q: u8, route: &Route) -> Rank
    ensures { result ≡ rank_of config.now.home_as false (cost_to_lem config.now q) (identifier_of_lem config.now q) (identifier_of_lem config.now q) route.now }
{
    let number = usize::from(q);
    let cost = cost_to(config, number);
    router_rank(config.home_as, cost, identifier_of(config, number), route)
}

/// Returns the set of the prefixes in a list.
fn set_from(alloc: Global, list: &[Prefix]) -> Result<TrieTable<()>, NoMemory>
    ensures { IfOk result (λ set. set.contents ≡ set_of list.now) }
{
    let mut set = TrieTable::new(alloc);
    for prefix in list {
        match set.set(*prefix, ()) {
            Ok(_) => {}
            Err(_) => return Err(NoMemory),
        }
    }
    Ok(set)
}

/// Returns the ranks of the own networks, with each network dirty.
fn own_choices(alloc: Global, rank: Rank, list: &[Prefix]) -> Result<Choices, NoMemory>
    ensures ranks { IfOk result (λ choices. HasOwnRanks rank list.now choices.groups.contents) }
    ensures loc { IfOk result (λ choices. choices.loc ≡ record { best = map.empty; dirty = set_of list.now }) }
{
    let mut choices = Choices::new(alloc);
    for network in list {
        choices.set_rank(*network, From::Own, rank)?;
    }
    Ok(choices)
}

impl Rib {
    /// Returns the routes of a router at its start: none but those of its own networks, which are
    /// dirty. If memory runs out, the configuration is lost.
    pub fn new(alloc: Global, config: RibConfig) -> Result<Rib, NoMemory>
        ensures { IfOk result (λ rib. rib_of rib
            ≡ record { config = config; entries = λ p. map.empty; tellings = λ q. map.empty; best = map.empty; dirty = set_of config.networks }) }
    {
        let networks = config.networks.as_slice();
        Ok(Rib {
            own_route: own_route(alloc)?,
            networks: set_from(alloc, networks)?,
            peerings: Sources::new(alloc)?,
            routers: Sources::new(alloc)?,
            choices: own_choices(alloc, own_rank(config.home_as), networks)?,
            config,
        })
    }

    /// Sets the entry of a peering for a prefix, or the route that another router tells for it. The
    /// prefix is dirty if that changes anything. Own networks are configured: from `Own` nothing is
    /// accepted. If memory runs out, the prefix may be dirty, and nothing else changes.
    pub fn set_in(&mut self, from: From, entry: InEntry) -> Result<(), NoMemory>
        ensures ok { OnOk result (SetsIn (rib_of self.old) from entry (rib_of self.new)) }
        ensures err { OnErr result (MayMark (rib_of self.old) entry.prefix (rib_of self.new)) }
    {
        if self.is_set(from, &entry) {
            return Ok(());
        }
        let InEntry {
            prefix,
            route,
            identifier,
            address,
        } = entry;
        match route {
            Some(route) => self.put(
                from,
                prefix,
                Entry {
                    route,
                    identifier,
                    address,
                },
            ),
            None => self.take(from, prefix),
        }
    }

    /// Whether setting this changes nothing.
    fn is_set(&self, from: From, entry: &InEntry) -> bool
        ensures { MatchBool result (SetsIn (rib_of self.now) from entry.now (rib_of self.now)) (IsOther (rib_of self.now) from entry.now) }
    {
        match from {
            From::Own => true,
            From::Peering(p) => is_same_entry(self.peerings.get(p.0, entry.prefix), entry),
            From::Router(q) => is_same_route(self.routers.get(q.0, entry.prefix), &entry.route),
        }
    }

    /// Sets what a peering or another router gives for a prefix, and marks the prefix as dirty. Of what
    /// a router tells only the route counts. If memory runs out, the prefix may be dirty, and nothing
    /// else changes.
    fn put(&mut self, from: From, prefix: Prefix, entry: Entry) -> Result<(), NoMemory>
        requires { from ≢ Own }
        ensures ok { OnOk result (Enters (rib_of self.old) from prefix (Some (taken from entry)) (rib_of self.new)) }
        ensures err { OnErr result (MayMark (rib_of self.old) prefix (rib_of self.new)) }
    {
        match from {
            From::Own => unreachable!(),
            From::Peering(p) => {
                let rank = session_rank(
                    self.config.home_as,
                    entry.identifier,
                    entry.address,
                    &entry.route,
                );
                self.peerings
                    .put(p.0, prefix, entry, &mut self.choices, from, rank)?;
            }
            From::Router(q) => {
                let rank = telling_rank(&self.config, q.0, &entry.route);
                self.routers
                    .put(q.0, prefix, entry.route, &mut self.choices, from, rank)?;
            }
        }
        Ok(())
    }

    /// Removes what a peering or another router gave for a prefix, and marks the prefix as dirty. If
    /// memory runs out, nothing changes.
    fn take(&mut self, from: From, prefix: Prefix) -> Result<(), NoMemory>
        requires { from ≢ Own }
        ensures ok { OnOk result (Enters (rib_of self.old) from prefix None (rib_of self.new)) }
        ensures err { OnErr result (rib_of self.new ≡ rib_of self.old) }
    {
        self.choices.drop_rank(prefix, from)?;
        match from {
            From::Own => unreachable!(),
            From::Peering(p) => self.peerings.remove(p.0, prefix),
            From::Router(q) => self.routers.remove(q.0, prefix),
        }
        Ok(())
    }

    /// Removes all that a peering or another router gave, and marks its prefixes as dirty. If memory
    /// runs out, some of it may be removed.
    pub fn drop_from(&mut self, from: From) -> Result<(), NoMemory>
        ensures ok { OnOk result (DropsAll (rib_of self.old) from (rib_of self.new)) }
        ensures err { OnErr result (DropsSome (rib_of self.old) from (rib_of self.new)) }
    {
        if from == From::Own {
            return Ok(());
        }
        while let Some(prefix) = self.next_entry(from, None) {
            self.take(from, prefix)?;
        }
        Ok(())
    }

    /// Marks a prefix as dirty. If memory runs out, nothing changes.
    pub fn mark(&mut self, prefix: Prefix) -> Result<(), NoMemory>
        ensures ok { OnOk result (self.new ≡ record self.old { dirty = map.insert self.old.dirty prefix tt }) }
        ensures err { OnErr result (self.new ≡ self.old) }
    {
        self.choices.loc.mark(prefix)
    }

    /// Sets the best route of a prefix to the chosen one of its candidates, or to none if there is no
    /// candidate, and returns whether it changed. The prefix is no longer dirty. If memory runs out,
    /// nothing changes.
    pub fn decide(&mut self, prefix: Prefix) -> Result<bool, NoMemory>
        ensures changed { IfOk result (λ changed. DifferIf (rib_choice (rib_of self.old) prefix) (map.get self.old.best prefix) changed) }
        ensures ok { OnOk result (self.new
            ≡ record self.old { best = with_best self.old.best prefix (rib_choice (rib_of self.old) prefix); dirty = map.remove self.old.dirty prefix }) }
        ensures err { OnErr result (self.new ≡ self.old) }
    {
        let Some(from) = best_from(&self.choices.groups, prefix) else {
            let changed = self.choices.loc.set(prefix, None)?;
            self.choices.loc.settle(prefix);
            return Ok(changed);
        };
        let Some(route) = route_of(&self.own_route, &self.peerings, &self.routers, from, prefix)
        else {
            unreachable!()
        };
        let changed = self.choices.loc.set_copy(prefix, from, route)?;
        self.choices.loc.settle(prefix);
        Ok(changed)
    }

    /// Returns the AS number of the home network.
    pub fn home_as(&self) -> u32
        ensures { result ≡ self.now.config.home_as }
    {
        self.config.home_as
    }

    /// Returns the least dirty prefix.
    pub fn next_dirty(&self) -> Option<Prefix>
        ensures next { result ≡ first_above None (map.keys self.now.dirty) }
        ensures decided { IsDecided (rib_of self.now) }
    {
        self.choices.loc.next_dirty()
    }

    /// Whether a prefix is dirty, so that it has to be decided again.
    pub fn is_dirty(&self, prefix: Prefix) -> bool
        ensures { result ≡ has self.now.dirty prefix }
    {
        self.choices.loc.is_dirty(prefix)
    }

    /// Returns the best route to a prefix.
    pub fn best(&self, prefix: Prefix) -> Option<&Best>
        ensures best { option_copied result ≡ map.get self.now.best prefix }
        ensures decided { has self.now.dirty prefix ≡ false → option_copied result ≡ rib_choice (rib_of self.now) prefix }
    {
        self.choices.loc.get(prefix)
    }

    /// Returns the route to a prefix from this source.
    pub fn entry(&self, from: From, prefix: Prefix) -> Option<&Route>
        ensures { option_copied result ≡ route_from (rib_of self.now) from prefix }
    {
        if from == From::Own {
            self.networks.get(prefix)?;
        }
        route_of(&self.own_route, &self.peerings, &self.routers, from, prefix)
    }

    /// Returns the least prefix with a best route that is above another, or the least of all for
    /// `None`.
    pub fn next_best(&self, after: Option<Prefix>) -> Option<Prefix>
        ensures { result ≡ first_above after (map.keys self.now.best) }
    {
        self.choices.loc.next_after(after)
    }

    /// Returns the prefixes with a best route, in ascending order. It visits each of them once, and
    /// allocates once.
    pub fn best_prefixes(&self) -> Result<PrefixList, NoMemory>
        ensures { IfOk result (λ prefixes. prefixes ≡ map.keys self.now.best) }
    {
        self.choices.loc.prefixes()
    }

    /// Returns the least prefix with a route from this source that is above another, or the least of
    /// all for `None`.
    pub fn next_entry(&self, from: From, after: Option<Prefix>) -> Option<Prefix>
        ensures { result ≡ first_above after (prefixes_from (rib_of self.now) from) }
    {
        match from {
            From::Own => self.networks.next_after(after),
            From::Peering(p) => self.peerings.next_after(p.0, after),
            From::Router(q) => self.routers.next_after(q.0, after),
        }
    }

    /// Returns the prefixes with a route from this source, in ascending order. It visits each of them
    /// once, and allocates once.
    pub fn entry_prefixes(&self, from: From) -> Result<PrefixList, NoMemory>
        ensures { IfOk result (λ prefixes. prefixes ≡ prefixes_from (rib_of self.now) from) }
    {
        match from {
            From::Own => self.networks.prefixes(),
            From::Peering(p) => self.peerings.prefixes(p.0),
            From::Router(q) => self.routers.prefixes(q.0),
        }
    }

    /// Returns what another home router is told of a prefix: a copy of the best route if that is own or
    /// external.
    pub fn tell_in(&self, prefix: Prefix) -> Result<Option<Route>, NoMemory>
        ensures { IfOk result (λ told. told ≡ tell_in_lem (map.get self.now.best prefix)) }
    {
        route_policy::tell_in(self.choices.loc.get(prefix))
    }

    /// Returns what is told of a prefix on a session, made from one copy of the best route.
    pub fn tell_out(&self, prefix: Prefix, view: &OutView<'_>) -> Result<Option<Attrs>, NoMemory>
        ensures { IfOk result (λ told. told ≡ tell_out_lem self.now.config.home_as (out_side_of_view view.now) prefix (map.get self.now.best prefix)) }
    {
        route_policy::tell_out(
            self.config.home_as,
            view,
            prefix,
            self.choices.loc.get(prefix),
        )
    }
}
