//! Sets of prefixes that are due: what is added to them, and what is removed.

ghost use Rattle.std.specs.Prelude.{ℕ, ◌≡◌, ◌<◌, ◌↔◌, IsTrue, OnOk, false, length, not};
ghost use Rattle.std.specs.List.{list_any};
ghost use Rattle.bgp_types.specs.Prefixes.{PrefixValue, same_prefix};
ghost use Rattle.session_value.specs.Sets.{has};
ghost use Rattle.rib_stages.specs.Values.{table_at};
ghost use Rattle.router_tables.specs.Dues.{AddsBelow};
ghost use Rattle.audit_tables.specs.Dues.{DropsAt, is_other, is_up_in};

use bgp_types::{NoMemory, Prefix, RouterId};
use rib_stages::Rib;
use router_tables::{DueSets, add_where};

/// Makes a prefix due to each router but this one.
pub(crate) fn due_to_others(
    due: &mut DueSets,
    own: RouterId,
    prefix: Prefix,
) -> Result<(), NoMemory>
    ensures { OnOk result (AddsBelow (length due.old) (is_other (length due.old) own.0) prefix due.old due.new) }
{
    let own = usize::from(own.0);
    for q in 0..due.len() {
        add_where(due, q, prefix, q != own)?;
    }
    Ok(())
}

/// Makes a prefix due on each peering for which `up` says that its session is established.
pub(crate) fn due_where_up(due: &mut DueSets, up: &[bool], prefix: Prefix) -> Result<(), NoMemory>
    requires { length up.now ≡ length due.old }
    ensures { OnOk result (AddsBelow (length due.old) (is_up_in up.now) prefix due.old due.new) }
{
    for p in 0..up.len() {
        add_where(due, p, prefix, up[p])?;
    }
    Ok(())
}

/// Returns whether nothing is due in any set.
pub(crate) fn are_empty(due: &DueSets) -> bool
    ensures { IsTrue result ↔ ((n : ℕ) (x : PrefixValue) → has (table_at due.now n) x ≡ false) }
{
    for n in 0..due.len() {
        if due.first(n).is_some() {
            return false;
        }
    }
    true
}

/// Removes prefixes from a set.
pub(crate) fn drop_listed(due: &mut DueSets, p: usize, prefixes: &[Prefix])
    requires { p < length due.old }
    ensures { DropsAt p (λ x. list_any (same_prefix x) prefixes.now) due.old due.new }
{
    for prefix in prefixes {
        due.remove(p, *prefix);
    }
}

/// Removes the prefixes that aren't dirty from a set.
pub(crate) fn drop_clean(due: &mut DueSets, p: usize, rib: &Rib) -> Result<(), NoMemory>
    requires { p < length due.old }
    ensures { OnOk result (DropsAt p (λ x. not (has rib.now.dirty x)) due.old due.new) }
{
    let prefixes = due.set(p).prefixes()?;
    for prefix in prefixes.iter() {
        if rib.is_dirty(*prefix) {
            continue;
        }
        due.remove(p, *prefix);
    }
    Ok(())
}
