//! What holds of candidates, and of marking prefixes.

ghost use Rattle.std.specs.Prelude.{◌≡◌, ℕ, ◌≤◌, Option};
ghost use Rattle.std.specs.List.{range_with_len};
ghost use Rattle.std.specs.FinMap as map;
ghost use Rattle.bgp_types.specs.Prefixes.{PrefixValue};
ghost use Rattle.bgp_types.specs.Tables.{prefix_cmp};
ghost use Rattle.decision_core.specs.Choice.{choice};
ghost use Rattle.loc_rib.specs.Values.{with_value};
ghost use Rattle.session_value.specs.Sets.{Prefixes, Marks, MarksOne};
ghost use Rattle.rib_stages.specs.Values.{RibValue};
ghost use Rattle.rib_stages.specs.Choosing.{rib_choice, candidates_among, NoneBehind};

/// If no peering from number `peerings` on and no router from number `routers` on has a route to a
/// prefix, the choice is that among the others.
pub fn choice_among_fewer()
    ensures { (rib : RibValue) (prefix : PrefixValue) (peerings routers : ℕ) → peerings ≤ 256 → routers ≤ 256 → NoneBehind peerings routers rib prefix
        → rib_choice rib prefix ≡ choice (candidates_among (range_with_len 0 peerings) (range_with_len 0 routers) rib prefix) }
{}

/// If prefixes get their new values one by one, each once, they are marked one by one: one more is
/// marked if and only if its value changed.
pub fn marks_one_by_one<V>()
    ensures { (before : Prefixes) (marked : Prefixes) (after : Prefixes) (old : map.FinMap prefix_cmp V)
        (now : map.FinMap prefix_cmp V) (prefix : PrefixValue) (value : Option V)
        → Marks before old now marked → map.get now prefix ≡ map.get old prefix
        → MarksOne marked prefix (map.get now prefix) value after → Marks before old (with_value now prefix value) after }
{}
