//! What holds of the candidates that are shown, and those of a worked run.

ghost use Rattle.std.specs.Prelude.{◌≡◌};
ghost use Rattle.bgp_story.specs.WorkedSessions.{ten};
ghost use Rattle.why_view.specs.Laws.{RulesAreTheNine, TheWinnerIsTheBest, WhatARuleLeavesOutGoesThere, WhatGoesNowhereIsLeft};
ghost use Rattle.why_view.specs.Why.{why_text};
ghost use Rattle.why_view.specs.Worked.{worked_lab, worked_text};

/// The rules at which candidates go are the nine of the decision process, in their order.
pub fn rules_are_the_nine()
    ensures { RulesAreTheNine }
{}

/// Where a router's best route to a prefix is the choice between its candidates, as in the tables of a settled run, it is the candidate
/// that is shown as the best.
pub fn the_winner_is_the_best()
    ensures { TheWinnerIsTheBest }
{}

/// A candidate goes at none of the nine rules exactly where they leave its rank.
pub fn what_goes_nowhere_is_left()
    ensures { WhatGoesNowhereIsLeft }
{}

/// A candidate whose rank the first rules leave, and the next one doesn't, goes at this next one.
pub fn what_a_rule_leaves_out_goes_there()
    ensures { WhatARuleLeavesOutGoesThere }
{}

/// A router that holds three sessions has a candidate from one of them and one from another router. The route of the second session is
/// denied by its import policy, and that of the third has the home AS in its path. Two further sessions, one that another router holds and
/// one on its way, have no line.
pub fn worked_why()
    ensures { why_text worked_lab 0 ten ≡ worked_text }
{}
