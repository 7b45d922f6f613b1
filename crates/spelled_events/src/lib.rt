//! Law: the prefixes of events.
#![tactic(auto)]

ghost use Rattle.spelled_events.specs.Spelled.{PrefixesAreSpelled};

/// After every list of events, each event that may happen names only prefixes that have no bit set past their length: a
/// router is dirty by its own networks and by what it heard, and what it hears was read from an UPDATE, or was told by a
/// router that read it. The setup's numbers must be in the ranges of their types, as are those of every setup that a
/// program reads.
pub fn prefixes_are_spelled()
    ensures { PrefixesAreSpelled }
{}
