//! The entries of a peering.

ghost use Rattle.std.specs.Prelude.{◌≡◌, ◌<◌, OnOk};
ghost use Rattle.std.specs.FinMap as map;
ghost use Rattle.session_value.specs.Sets.{Marks};
ghost use Rattle.graft_model.specs.Setups.{peerings_in};
ghost use Rattle.router_tables.specs.Entering.{entry_here};
ghost use Rattle.audit_tables.specs.Changes.{ChangesEntries, EntersHere};
ghost use Rattle.audit_tables.specs.Parts.{TablesInvariant, entries_at};

use crate::tables::Tables;
use bgp_session::Session;
use bgp_types::{From, NoMemory, Prefix};
use graft_edge::PeeringId;
use router_tables::enter;

impl Tables {
    /// Sets the session's entry for each of the prefixes to what the session brings in here, or removes it.
    pub fn enter(&mut self, session: &Session, prefixes: &[Prefix]) -> Result<(), NoMemory>
        requires sound { TablesInvariant self.old }
        requires there { session.now.session.config.peering.0 < peerings_in self.old.known.setup }
        ensures { OnOk result (EntersHere session.now.session.config.peering.0
            (entry_here self.old.home_as self.old.policies session.now.session) prefixes.now self.old self.new) }
    {
        self.forget_all();
        enter(
            &mut self.rib,
            self.home_as,
            &self.policies,
            session,
            prefixes,
        )
    }

    /// Removes all entries of a peering.
    pub fn drop_entries(&mut self, p: PeeringId) -> Result<(), NoMemory>
        requires { TablesInvariant self.old }
        ensures none { OnOk result (entries_at self.new p.0 ≡ map.empty) }
        ensures dirty { OnOk result (Marks self.old.rib.dirty (entries_at self.old p.0) map.empty self.new.rib.dirty) }
        ensures changes { OnOk result (ChangesEntries p.0 self.old self.new) }
    {
        self.forget_all();
        self.rib.drop_from(From::Peering(p))
    }
}
