//! What holds of what is told, and what the definitions say of a worked route.

ghost use Rattle.std.specs.Prelude.{ℕ, ◌≡◌, ◌≢◌, Option, true, false, [], ◌∷◌, Some, None, map, IsSome};
ghost use Rattle.bgp_types.specs.Prefixes.{PrefixValue};
ghost use Rattle.bgp_types.specs.declared.attrs.Attrs.{Attrs};
ghost use Rattle.route_policy.specs.Candidates.{imported, candidates};
ghost use Rattle.route_policy.specs.Rules.{holds_as};
ghost use Rattle.route_policy.specs.Telling.{OutSide, tell_in, tell_out};
ghost use Rattle.route_policy.specs.declared.best.Best.{Best};
ghost use Rattle.route_policy.specs.Worked.{worked_prefix, attrs_heard, raising_session, raised_route, telling_router, interior_best};
ghost use Rattle.route_policy.specs.Worked.{three_sources, two_ranks, raising_side, silent_side, best_of_size, best_through};
ghost use Rattle.route_policy.specs.Worked.{best_aggregated, attrs_told, attrs_told_plainly, attrs_told_through};

/// No path that is told on a session contains the remote's AS, unless that is the home AS.
pub fn told_paths_avoid_the_remote_as()
    ensures { (home_as : ℕ) (out : OutSide) (prefix : PrefixValue) (best : Option Best) (attrs : Attrs)
        → home_as ≢ out.remote_as → tell_out home_as out prefix best ≡ Some attrs → holds_as attrs.path out.remote_as ≡ false }
{}

/// A route that is heard: what the import policy makes of it, that a path with the home AS gives no
/// candidate, and the order and the ranks of the candidates.
pub fn worked_candidates()
    ensures raised { imported 65000 worked_prefix raising_session raising_session.heard ≡ Some raised_route }
    ensures looped { imported 65001 worked_prefix raising_session raising_session.heard ≡ None }
    ensures order { map (λ c. c.0.from) (candidates 65000 worked_prefix true (raising_session ∷ []) (telling_router ∷ [])) ≡ three_sources }
    ensures ranks { map (λ c. c.1) (candidates 65000 worked_prefix false (raising_session ∷ []) (telling_router ∷ [])) ≡ two_ranks }
{}

/// A best route that is told on a session, or isn't: because it came from that session, because it went
/// through the remote's AS, because the policy denies it, or because its UPDATE has more than 4,096
/// octets. It isn't told to another home router if it was learned from a third one.
pub fn worked_telling()
    ensures told { tell_out 65000 raising_side worked_prefix (Some (best_of_size 1)) ≡ Some attrs_told }
    ensures plainly { tell_out 65000 (record raising_side { export_rules = None }) worked_prefix (Some (best_of_size 1)) ≡ Some attrs_told_plainly }
    ensures longest { IsSome (tell_out 65000 raising_side worked_prefix (Some (best_of_size 4029))) }
    ensures too_long { tell_out 65000 raising_side worked_prefix (Some (best_of_size 4030)) ≡ None }
    ensures back { tell_out 65000 (record raising_side { peering = raising_session.peering }) worked_prefix (Some (best_of_size 1)) ≡ None }
    ensures through { tell_out 65000 raising_side worked_prefix (Some best_through) ≡ None }
    ensures aggregated { tell_out 65000 raising_side worked_prefix (Some best_aggregated) ≡ None }
    ensures elsewhere { tell_out 65000 (record raising_side { remote_as = 65004 }) worked_prefix (Some best_through) ≡ Some attrs_told_through }
    ensures denied { tell_out 65000 silent_side worked_prefix (Some (best_of_size 1)) ≡ None }
    ensures inside { tell_in (Some interior_best) ≡ None }
{}
