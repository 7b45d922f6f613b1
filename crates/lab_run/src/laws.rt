//! What a run tells.

ghost use Rattle.lab_run.specs.Runs.{LabsTellOfRuns};

use bounded_moves::moves_are_bounded;
use even_inputs::settled_worlds_are_the_solution;
use forward_laws::solved_walks;
use graft_laws::{
    always_made_before_broken, always_transparent, always_unchanged, emptied_routers_are_left,
    evacuations_go_by_plan, quiet_solves,
};
use one_answer::settled_runs_have_one_answer;
use real_rounds::rounds_are_real;
use run_clocks::journals_are_clocked;
use silent_rounds::silent_worlds_are_quiet;
use sure_results::sure_laboratories_have_results;
use world_nodes::the_way_is_a_run;
use world_runs::{marks_stand_for_one_world, runs_are_transparent};

/// Whatever way the net of an accepted input's laboratory went to its end: a lab that tells of that end has the journal of a run of the world, and is
/// what is seen of the run's last world. In the journal each clock is one above the greater of its actor's last one and the stamp of what is taken, and
/// that of a group's beginning is one above all before it. One world stands at each mark, from the first world to the run's last one, and from each to
/// the next one leads a round in which every actor did what was asked of it; the marks name of their worlds how the run went on. Along the journal, and
/// along the rounds one after another, each peering is transparent; a refused graft changed no session, and a landing was made before its source's
/// routes went; and each evacuate step gave by the plan. Where eight rounds behind a mark have no event, nothing was left to do at it; and a session
/// that is frozen has landed or come back four rounds later, where few items are in its source's channels. Where the run is settled, its last world is
/// quiet and solves the decision equations; where no session has a timer and the input's MEDs are even, tables and sessions are those that the laboratory
/// has for the places by the log; where those left at the end are, they are those of every settled run with that log; where the laboratory is sure, the
/// log has what the script says; a packet meets at most two routers and leaves where the session of its peering belongs, and what evacuate steps gave is
/// where they gave it or was refused.
pub(crate) fn labs_tell_of_runs()
    ensures { LabsTellOfRuns }
{
    the_way_is_a_run();
    runs_are_transparent();
    always_unchanged();
    always_made_before_broken();
    quiet_solves();
    always_transparent();
    solved_walks();
    evacuations_go_by_plan();
    emptied_routers_are_left();
    marks_stand_for_one_world();
    rounds_are_real();
    journals_are_clocked();
    silent_worlds_are_quiet();
    moves_are_bounded();
    settled_worlds_are_the_solution();
    settled_runs_have_one_answer();
    sure_laboratories_have_results();
}
