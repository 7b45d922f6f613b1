//! That the merged list of journals is a run, and where it can be cut.

ghost use Rattle.journal_merge.specs.Laws.{MergedOnce, InterleavedOnce, RunsJoin, MergedEach, MergedUpto, CutsAtLevel};
ghost use Rattle.journal_merge.specs.Laws.{MergeRuns, GrowsOn, LevelGrows, PhaseGrows, BetweenGrows};

use ring_net::Actor;

/// Journals have exactly one merge.
pub fn one_merge()
    ensures merged { MergedOnce }
    ensures each { InterleavedOnce }
{}

/// In the merge of journals the entries of each actor are its journal, in its order.
pub fn each_actor_has_its_journal()
    ensures { MergedEach }
{}

/// The entries before a mark are the merge of what each journal has before it. They aren't the first
/// part of the merged list, since clocks go on across a mark.
pub fn entries_before_a_mark()
    ensures { MergedUpto }
{}

/// Where all clocks are level the merged list can be cut in two, and each part is a merge.
pub fn levels_cut<A: Actor>()
    ensures { CutsAtLevel A.part A.makes }
{}

/// The merge of what was added to the journals between two moments is a run, from each world that the
/// net is at the first moment to a world that it is at the second.
pub fn the_merge_is_a_run<A: Actor>()
    ensures { MergeRuns A.part A.makes }
{}

/// Runs that follow one another make one run.
pub fn runs_join<A: Actor>()
    ensures { RunsJoin A.makes }
{}

/// Two pieces that follow one another make one piece.
pub fn pieces_grow<A: Actor>()
    ensures { GrowsOn A.part A.makes }
{}

/// A phase is a piece.
pub fn phases_grow<A: Actor>()
    ensures { PhaseGrows A.part A.makes A.took A.turned }
{}

/// What an actor does at a mark is a piece, and so is a levelling.
pub fn marks_grow<A: Actor>()
    ensures between { BetweenGrows A.part A.makes A.paused }
    ensures level { LevelGrows A.part A.makes }
{}
