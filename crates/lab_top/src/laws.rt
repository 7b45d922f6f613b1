//! What a report and the headline say, part by part: each part is taken from them here, so that none is lost unnoticed.

ghost use Rattle.std.specs.Prelude.{◌≡◌, ◌<◌, ◌+◌, ◌-◌, ◌∷◌, ℕ, List, true, length, map};
ghost use Rattle.journal_merge.specs.Merges.{AreSorted};
ghost use Rattle.graft_model.specs.Setups.{router_numbers, peering_numbers, peerings_in};
ghost use Rattle.graft_model.specs.Parts.{World};
ghost use Rattle.graft_model.specs.First.{first_world};
ghost use Rattle.graft_model.specs.Steps.{Run};
ghost use Rattle.graft_model.specs.Claims.{Unchanged, MadeBeforeBroken, Solves};
ghost use Rattle.graft_model.specs.Quiet.{Quiet};
ghost use Rattle.graft_laws.specs.Emptied.{GiveByPlan, AreEmptied};
ghost use Rattle.graft_actors.specs.Laws.{AreEntriesOf};
ghost use Rattle.operator_state.specs.Grafts.{log_of};
ghost use Rattle.world_runs.specs.Marks.{IsWorldAtMark};
ghost use Rattle.world_runs.specs.Runs.{TransparentThroughout};
ghost use Rattle.run_clocks.specs.Clocks.{AreClocked, clocked_in};
ghost use Rattle.real_rounds.specs.Whole.{RealRounds, round_by_round};
ghost use Rattle.silent_rounds.specs.Silence.{AreSilent};
ghost use Rattle.bounded_moves.specs.Moves.{MovesEnd};
ghost use Rattle.one_answer.specs.Laws.{IsTheOneAnswer};
ghost use Rattle.even_inputs.specs.Laws.{IsTheAnswer};
ghost use Rattle.sure_results.specs.Results.{HasResults};
ghost use Rattle.sure_inputs.specs.Sure.{is_sure};
ghost use Rattle.node_configs.specs.Budgets.{budgets_in};
ghost use Rattle.lab_tables.specs.declared.input.RouterInput.{RouterInput};
ghost use Rattle.lab_report.specs.declared.lab.Lab.{Lab};
ghost use Rattle.lab_report.specs.declared.lab.RunEnd.TheVariants.{Settled};
ghost use Rattle.lab_report.specs.Report.{report_text};
ghost use Rattle.lab_report.specs.Traces.{IsReport};
ghost use Rattle.lab_seen.specs.Seen.{SeesSession, far_view, router_table_of};
ghost use Rattle.lab_run.specs.Ends.{HasMarks};
ghost use Rattle.lab_run.specs.Forwards.{Forwards};
ghost use Rattle.lab_run.specs.Runs.{HoldsAlong};
ghost use Rattle.lab_top.specs.Laws.{JournalsPass, Says};

use journal_form::{a_text_is_read_in_one_way, journals_read_back};
use lab_setup::{accepted_is_a_setup, accepted_is_in_range};
use run_auditor::answers_tell_of_runs;

/// A text that has no line of where packets go is no report of a run, where its input has an address to trace and a router.
pub fn reports_have_their_traces()
    ensures { (lab : Lab) (address : ℕ) (addresses : List ℕ) (router : RouterInput) (routers : List RouterInput)
        → lab.input.trace ≡ address ∷ addresses → lab.input.routers ≡ router ∷ routers → ¬ (IsReport lab (report_text lab)) }
{}

/// An audit of what `journal` writes says that a run has this journal. The entries' numbers must be in the ranges of
/// their fields, as those of every journal of a run are.
pub fn what_is_journaled_passes()
    ensures { JournalsPass }
{
    journals_read_back();
    a_text_is_read_in_one_way();
    answers_tell_of_runs();
    accepted_is_a_setup();
    accepted_is_in_range();
}

/// What the headline says of a run, part by part.
pub fn the_headline_says()
    // The journal has the entries of a list of events, which leads from the first world of the input's laboratory to the last one.
    ensures entries_of { Says (λ lab setup ran. AreEntriesOf setup ran.events lab.journal) }
    ensures run { Says (λ lab setup ran. Run setup (first_world setup) ran.events ran.world) }

    // It ascends by clock, and at one clock by actor. Each clock follows the last one of its actor and the stamp of what is taken,
    // and that of a group's beginning follows all.
    ensures rises { Says (λ lab setup ran. AreSorted lab.journal) }
    ensures clocks { Says (λ lab setup ran. AreClocked (clocked_in setup (first_world setup) ran.events lab.journal ran.world ran.run)) }

    // What is reported is what is seen of the last world: what became of the grafts; of each peering where its session is, and the
    // session's story; what each remote said and received; and the tables of each router.
    ensures log { Says (λ lab setup ran. lab.log ≡ log_of setup ran.world.operator) }
    ensures placed { Says (λ lab setup ran. length lab.placement ≡ peerings_in setup) }
    ensures viewed { Says (λ lab setup ran. length lab.sessions ≡ peerings_in setup) }
    ensures sessions { Says (λ lab setup ran. (p : ℕ) → p < peerings_in setup → SeesSession setup ran.world lab p) }
    ensures far { Says (λ lab setup ran. lab.far ≡ map (λ p. far_view (ran.world.far p)) (peering_numbers setup)) }
    ensures tables { Says (λ lab setup ran. lab.tables ≡ map (λ r. router_table_of setup (ran.world.router r)) (router_numbers setup)) }

    // From each mark to the next one every actor did what a round asks of it. One world stands at a mark, and at the last mark it is
    // the last one. The marks say how the run went on there, and how it ended.
    ensures real { Says (λ lab setup ran. RealRounds setup lab.input.faults lab.journal lab.marks) }
    ensures one { Says (λ lab setup ran. (mark : List ℕ) (u v : World) → IsWorldAtMark setup lab.journal mark u
        → IsWorldAtMark setup lab.journal mark v → v ≡ u) }
    ensures last { Says (λ lab setup ran. ran.real.world (length lab.marks - 1) ≡ ran.world) }
    ensures marks { Says (λ lab setup ran. HasMarks setup lab.journal ran.real.world (budgets_in lab.input) lab.marks lab.rounds lab.end) }

    // At every moment each peering has one session, which nothing but its bytes shows; a graft leaves its session as it was; a source
    // clears a session's routes only with its target's routes at hand; and evacuate steps give sessions by the plan. The same holds
    // of the events round by round.
    ensures transparent { Says (λ lab setup ran. TransparentThroughout setup ran.events) }
    ensures unchanged { Says (λ lab setup ran. Unchanged setup (first_world setup) ran.events) }
    ensures made { Says (λ lab setup ran. MadeBeforeBroken setup (first_world setup) ran.events) }
    ensures emptied { Says (λ lab setup ran. GiveByPlan setup ran.events) }
    ensures in_rounds { Says (λ lab setup ran. HoldsAlong setup (round_by_round ran.real.events (length lab.marks - 1))) }

    // Where eight rounds have no event, nothing was left to do. A frozen session has landed or come back four rounds later.
    ensures stalls { Says (λ lab setup ran. (k : ℕ) → k + 8 < length lab.marks → AreSilent ran.real.events k 8 → Quiet setup (ran.real.world k)) }
    ensures moves { Says (λ lab setup ran. MovesEnd ran.real.events ran.real.world (length lab.marks)) }

    // Once settled, nothing is left to do, and the tables solve the decision equations. They are the answer of the laboratory where
    // no session has a timer and MEDs are even. The grafts of a sure input came out as its script says. Packets meet two routers at
    // most, and leave where sessions are. Emptied routers have only what was given to them.
    ensures quiet { Says (λ lab setup ran. lab.end ≡ Settled → Quiet setup ran.world) }
    ensures solves { Says (λ lab setup ran. lab.end ≡ Settled → Solves setup ran.world) }
    ensures answers { Says (λ lab setup ran. lab.end ≡ Settled → IsTheAnswer setup ran.world) }
    ensures agrees { Says (λ lab setup ran. lab.end ≡ Settled → IsTheOneAnswer setup ran.world) }
    ensures results { Says (λ lab setup ran. lab.end ≡ Settled → is_sure lab.input ≡ true → HasResults setup ran.world.operator) }
    ensures forwards { Says (λ lab setup ran. lab.end ≡ Settled → Forwards lab setup ran.world) }
    ensures left { Says (λ lab setup ran. lab.end ≡ Settled → AreEmptied setup ran.world.operator) }
{}
