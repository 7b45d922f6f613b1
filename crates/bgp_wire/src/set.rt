//! Sets of prefixes, used to find out whether a prefix occurred before.

ghost use Rattle.std.specs.Prelude.{◌≡◌, [], true, not, IfOk, OnOk, if◌then◌else◌};
ghost use Rattle.bgp_types.specs.Prefixes.{PrefixValue, same_prefix, put_once};
ghost use Rattle.bgp_wire.specs.Sets.{has, IsSetOf};

use bgp_types::{NoMemory, Prefix, PrefixList};
use std::alloc::Global;
use std::collections::BTreeSet;

/// A set of prefixes.
#[derive(Drop)]
pub struct SeenPrefixes {
    prefixes: BTreeSet<Prefix>,
}

impl SeenPrefixes {
    /// Returns an empty set.
    pub fn new(alloc: Global) -> SeenPrefixes
        ensures { IsSetOf result [] }
    {
        SeenPrefixes {
            prefixes: BTreeSet::new(alloc),
        }
    }

    /// Adds a prefix, and returns whether it is new.
    #[tactic(auto, using(crate::proofs::SetLaws::is_same))]
    fn put(&mut self, prefix: Prefix) -> Result<bool, NoMemory>
        ensures new { IfOk result (λ new. new ≡ not (has self.old prefix)) }
        ensures all { OnOk result ((p : PrefixValue) → has self.new p ≡ (if same_prefix p prefix then true else has self.old p)) }
    {
        Ok(self.prefixes.insert(prefix)?)
    }

    /// Returns the set of these prefixes.
    pub fn of(alloc: Global, prefixes: &[Prefix]) -> Result<SeenPrefixes, NoMemory>
        ensures { IfOk result (λ set. IsSetOf set prefixes.now) }
    {
        let mut set = SeenPrefixes::new(alloc);
        for prefix in prefixes {
            set.put(*prefix)?;
        }
        Ok(set)
    }

    pub fn has(&self, prefix: Prefix) -> bool
        ensures { result ≡ has self.now prefix }
    {
        self.prefixes.contains(&prefix)
    }
}

/// Appends a prefix to a list, unless the list has it; the set holds the prefixes of the list.
pub fn put_once(
    set: &mut SeenPrefixes,
    list: &mut PrefixList,
    prefix: Prefix,
) -> Result<(), NoMemory>
    requires { IsSetOf set.old list.old }
    ensures list { OnOk result (list.new ≡ put_once list.old prefix) }
    ensures set { OnOk result (IsSetOf set.new list.new) }
{
    if set.put(prefix)? {
        list.push(prefix)?;
    }
    Ok(())
}
