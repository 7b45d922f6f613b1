//! Tables from prefixes to values. Each is a finite map, however it is kept.

ghost use Rattle.std.specs.Prelude.{◌≡◌, ◌+◌, ◌≤◌, ℕ, IsOk, IsSome, IfOk, IfErr, OnOk, OnErr, option_copied};
ghost use Rattle.std.specs.Cmp.{IsTotalOrder};
ghost use Rattle.std.specs.FinMap as map;
ghost use Rattle.bgp_types.specs.Prefixes.{PrefixValue};
ghost use Rattle.bgp_types.specs.Tables.{prefix_cmp, first_above};

use crate::prefix::Prefix;
use graft_edge::NoMemory;

/// A finite map from prefixes to values.
pub trait Table<V> {
    /// The map of its prefixes and values.
    ghost contents: { Self → map.FinMap prefix_cmp V };

    /// A number of further prefixes for which it is certain to have memory.
    ghost room: { Self → ℕ };

    /// Returns the value of a prefix.
    fn get(&self, prefix: Prefix) -> Option<&V>
        ensures { option_copied result ≡ map.get (contents self.now) prefix };

    /// Sets the value of a prefix, and returns the value that this replaces. If memory runs out, the
    /// new value is returned as the error and nothing changes; it fails for no other reason.
    fn set(&mut self, prefix: Prefix, value: V) -> Result<Option<V>, V>
        ensures before { IfOk result (λ before. before ≡ map.get (contents self.old) prefix) }
        ensures ok { OnOk result (contents self.new ≡ map.insert (contents self.old) prefix value) }
        ensures room { OnOk result (room self.old ≤ room self.new + 1) }
        ensures back { IfErr result (λ back. back ≡ value) }
        ensures err { OnErr result (contents self.new ≡ contents self.old) }
        ensures err_room { OnErr result (room self.new ≡ room self.old) }
        // It can't fail where the prefix has a value, or where the table has memory for a further prefix.
        ensures present { IsSome (map.get (contents self.old) prefix) → IsOk result }
        ensures spared { 1 ≤ room self.old → IsOk result };

    /// Removes a prefix, and returns its value.
    fn remove(&mut self, prefix: Prefix) -> Option<V>
        ensures before { result ≡ map.get (contents self.old) prefix }
        ensures removed { contents self.new ≡ map.remove (contents self.old) prefix }
        ensures room { room self.old ≤ room self.new };

    /// Returns the least prefix that is above another, or the least of all for `None`. Calls that go on
    /// from each answer walk the table in ascending order.
    fn next_after(&self, prefix: Option<Prefix>) -> Option<Prefix>
        ensures { result ≡ first_above prefix (map.keys (contents self.now)) };

    /// Returns the number of prefixes that have a value.
    fn len(&self) -> usize
        ensures { result ≡ map.len (contents self.now) };
}

/// A table that can allocate memory ahead.
pub trait SpareTable<V>: Table<V> {
    /// Allocates memory for `more` further prefixes. If memory runs out, nothing changes.
    fn reserve(&mut self, more: usize) -> Result<(), NoMemory>
        ensures contents { Self.contents self.new ≡ Self.contents self.old }
        ensures ok { OnOk result (more ≤ Self.room self.new) }
        ensures kept { OnOk result (Self.room self.old ≤ Self.room self.new) }
        ensures err { OnErr result (Self.room self.new ≡ Self.room self.old) }
        // If it has the memory already, it succeeds.
        ensures spared { more ≤ Self.room self.old → IsOk result };

    /// Returns the number of further prefixes for which it has memory.
    fn spare(&self) -> usize
        ensures { result ≡ Self.room self.now };

    /// Sets the value of a prefix without allocating, and returns the value that this replaces. The
    /// table must have memory for at least one further prefix.
    fn set_reserved(&mut self, prefix: Prefix, value: V) -> Option<V>
        requires { 1 ≤ Self.room self.old }
        ensures before { result ≡ map.get (Self.contents self.old) prefix }
        ensures set { Self.contents self.new ≡ map.insert (Self.contents self.old) prefix value }
        ensures room { Self.room self.old ≤ Self.room self.new + 1 };
}

/// Prefixes are in a total order: by address, and then by length. Of two different prefixes one is
/// below the other.
pub fn prefix_order()
    ensures derived { (p : PrefixValue) (q : PrefixValue) → ⟦<Prefix as Ord>⟧.cmp p q ≡ prefix_cmp p q }
    ensures total { IsTotalOrder prefix_cmp }
    ensures exact { map.IsAntisymmetric prefix_cmp }
{}
