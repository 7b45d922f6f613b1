//! Lists of prefixes, each once.

ghost use Rattle.std.specs.Prelude.{◌≡◌, ◌++◌, ◌∷◌, [], IfOk, OnOk, if◌then◌else◌};
ghost use Rattle.bgp_types.specs.Prefixes.{once_after};

use bgp_types::{Items, NoMemory, Prefix, PrefixList};
use std::alloc::Global;
use std::collections::HashSet;

/// Adds a prefix at the end, if the test is true.
fn push_if(list: &mut PrefixList, test: bool, prefix: Prefix) -> Result<(), NoMemory>
    ensures { OnOk result (list.new ≡ (if test then list.old ++ prefix ∷ [] else list.old)) }
{
    if test {
        list.push(prefix)?;
    }
    Ok(())
}

/// Returns the prefixes of a list without repetitions, each where it first stands.
pub fn each_once(alloc: Global, prefixes: &[Prefix]) -> Result<PrefixList, NoMemory>
    ensures { IfOk result (λ once. once ≡ once_after [] prefixes.now) }
{
    let mut once = Items::from_vec(Vec::with_capacity(alloc, prefixes.len())?);
    let mut seen = HashSet::with_capacity(alloc, prefixes.len())?;
    for prefix in prefixes {
        let is_new = seen.insert(*prefix)?;
        push_if(&mut once, is_new, *prefix)?;
    }
    Ok(once)
}
