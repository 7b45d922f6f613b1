//! Where the script alone decides what becomes of its grafts.
#![tactic(auto)]

ghost use Rattle.std.specs.Prelude.{◌≡◌, [], ◌∷◌, Some, None};
ghost use Rattle.graft_steps.specs.declared.refusal.Outcome.TheVariants.{Accepted, Refused};
ghost use Rattle.graft_steps.specs.declared.refusal.Refusal.TheVariants.{SameRouter, PolicyMissing};
ghost use Rattle.sure_results.specs.Laws.{SureLaboratoriesHaveResults};
ghost use Rattle.sure_results.specs.Results.{IsSure, result_of};
ghost use Rattle.sure_results.specs.Worked.{moving_laboratory, exporting, graft};

/// Where no session has a timer, each router has room for all sessions, no graft stands in the first group, no step empties a router
/// and the sessions that the script moves stay established: the log of each settled run has, for each graft, what the script says
/// becomes of it. A graft to the router where the session is then is refused as `SameRouter`, one to a router that lacks a policy of
/// the session as `PolicyMissing`, and each other one is accepted.
pub fn sure_laboratories_have_results()
    ensures { SureLaboratoriesHaveResults }
{}

/// A worked laboratory of two routers is sure, and its script says what becomes of each of its grafts: the first is accepted, the
/// second finds the session at its target, and the third is accepted again. Where the session names an export policy that no router
/// has, the first is refused for it.
pub fn a_laboratory_is_sure()
    ensures sure { IsSure (moving_laboratory None) }
    ensures moves { result_of (moving_laboratory None) (exporting None).config (graft 1 2) 1 ≡ Accepted }
    ensures stays { result_of (moving_laboratory None) (exporting None).config (graft 2 3) 1 ≡ Refused SameRouter }
    ensures returns { result_of (moving_laboratory None) (exporting None).config (graft 3 4) 0 ≡ Accepted }
    ensures lacks { result_of (moving_laboratory (Some (0x78 ∷ []))) (exporting (Some (0x78 ∷ []))).config (graft 1 2) 1 ≡ Refused (PolicyMissing (0x78 ∷ [])) }
{}
