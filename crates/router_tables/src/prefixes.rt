//! The prefixes of tables, and sets of them.

ghost use Rattle.std.specs.Prelude.{IfOk, OnOk};
ghost use Rattle.router_tables.specs.Dues.{AddsAll, IsDueAgain, IsDueBest};

use bgp_session::Session;
use bgp_types::{NoMemory, Prefix};
use prefix_set::PrefixSet;
use rib_stages::Rib;
use std::alloc::Global;

/// Adds prefixes to a set.
fn add_all(set: &mut PrefixSet, prefixes: &[Prefix]) -> Result<(), NoMemory>
    ensures { OnOk result (AddsAll set.old prefixes.now set.new) }
{
    for prefix in prefixes {
        set.insert(*prefix)?;
    }
    Ok(())
}

/// Returns the set of the prefixes that have a best route: those that are due on a session once it is established.
pub fn all_best(alloc: Global, rib: &Rib) -> Result<PrefixSet, NoMemory>
    ensures { IfOk result (λ set. IsDueBest rib.now.best set) }
{
    let mut set = PrefixSet::new(alloc);
    add_all(&mut set, rib.best_prefixes()?.as_slice())?;
    Ok(set)
}

/// Returns the set of the prefixes that were told on a session or have a best route: those that are due on a session
/// that is live again.
pub fn due_again(alloc: Global, rib: &Rib, session: &Session) -> Result<PrefixSet, NoMemory>
    ensures { IfOk result (λ set. IsDueAgain session.now.session.adj_rib_out rib.now.best set) }
{
    let mut set = all_best(alloc, rib)?;
    add_all(&mut set, session.told().prefixes()?.as_slice())?;
    Ok(set)
}
