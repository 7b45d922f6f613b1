//! What holds of a plan as it is carried out.

ghost use Rattle.std.specs.Prelude.{◌≡◌, ◌∷◌, List, Option, Bool, not, ◌&&◌, All};
ghost use Rattle.std.specs.List.{list_any};
ghost use Rattle.bgp_types.specs.declared.attrs.Attrs.{Attrs};
ghost use Rattle.bgp_types.specs.Prefixes.{PrefixValue, IsPrefix, same_prefix};
ghost use Rattle.bgp_story.specs.Legal.{IsOneWay};
ghost use Rattle.bgp_story.specs.Readings.{Routes, apply};
ghost use Rattle.session_value.specs.Cases.{Changes, update_for};
ghost use Rattle.session_value.specs.Sets.{Prefixes, has};
ghost use Rattle.update_plan.specs.declared.batch.Batch.{Batch};
ghost use Rattle.update_plan.specs.Plans.{IsNext, IsPlan, IsWritableFor};
ghost use Rattle.update_plan.specs.ToTell.{IsPrefixToTell};

/// The next UPDATE of a plan changes what was told for each of its prefixes.
pub fn next_update_changes()
    ensures { (due dirty : Prefixes) (adj_rib_out : Routes) (to_tell : PrefixValue → Option Attrs) (wide : Bool) (batch : Batch)
        → IsNext (IsPrefixToTell due dirty adj_rib_out to_tell) to_tell wide batch → Changes adj_rib_out (update_for batch.attrs batch.prefixes) }
{}

/// The next UPDATE of a plan either withdraws or announces, and if its attributes can be written, it
/// can be written.
pub fn next_update_is_one_way()
    ensures { (due dirty : Prefixes) (adj_rib_out : Routes) (to_tell : PrefixValue → Option Attrs) (wide : Bool) (batch : Batch)
        → IsNext (IsPrefixToTell due dirty adj_rib_out to_tell) to_tell wide batch → All IsPrefix batch.prefixes
        → IsWritableFor batch → IsOneWay (update_for batch.attrs batch.prefixes) wide }
{}

/// Once the next UPDATE is told, and its prefixes are no longer due, the rest of the plan is the plan
/// for the new state.
pub fn rest_is_planned()
    ensures { (due then_due dirty : Prefixes) (adj_rib_out : Routes) (to_tell : PrefixValue → Option Attrs) (wide : Bool) (batch : Batch) (batches : List Batch)
        → IsPlan (IsPrefixToTell due dirty adj_rib_out to_tell) to_tell wide (batch ∷ batches)
        → ((x : PrefixValue) → has then_due x ≡ (has due x && not (list_any (same_prefix x) batch.prefixes)))
        → IsPlan (IsPrefixToTell then_due dirty (apply adj_rib_out (update_for batch.attrs batch.prefixes)) to_tell) to_tell wide batches }
{}
