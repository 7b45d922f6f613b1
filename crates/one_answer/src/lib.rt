//! Settled runs of one laboratory with the same graft results have the same tables.
#![tactic(auto)]

ghost use Rattle.one_answer.specs.Laws.{SettledRunsHaveOneAnswer};

/// Two settled runs of one laboratory in which no session has a timer, with the same log of grafts, have the same best routes
/// at every router, tell the same, and have every session at the same router with the same routes, where routes for one prefix
/// from one neighbour AS never differ in MED (RFC 4271, section 9.1.2.2 (c)).
pub fn settled_runs_have_one_answer()
    ensures { SettledRunsHaveOneAnswer }
{}
