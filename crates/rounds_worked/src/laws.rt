//! Laws of the worked marks and rounds.

ghost use Rattle.std.specs.Prelude.{◌≤◌, ℕ, List, [], ◌∷◌, length, map};
ghost use Rattle.ring_net.specs.declared.entry.JournalEntry.{JournalEntry};
ghost use Rattle.graft_steps.specs.declared.rest.Pending.TheVariants.{Script};
ghost use Rattle.graft_model.specs.Parts.{RouterPart, FarPart, OperatorPart, World};
ghost use Rattle.graft_model.specs.Setups.{Setup};
ghost use Rattle.lab_run.specs.Ends.{HasMarks};
ghost use Rattle.node_configs.specs.declared.budget.Budget.{Budget};
ghost use Rattle.lab_report.specs.declared.lab.RunEnd.{RunEnd};
ghost use Rattle.lab_report.specs.declared.lab.RunEnd.TheVariants.{Settled, Unsettled, StreamFull, JournalFull};
ghost use Rattle.graft_model.specs.declared.event.OperatorEvent.{OperatorEvent};
ghost use Rattle.graft_model.specs.declared.event.OperatorEvent.TheVariants.{Go};
ghost use Rattle.graft_model.specs.declared.event.RouterEvent.{RouterEvent};
ghost use Rattle.graft_model.specs.declared.event.RouterEvent.TheVariants.{Arrive, Tick};
ghost use Rattle.graft_model.specs.declared.event.FarEvent.{FarEvent};
ghost use Rattle.ring_net.specs.Deeds.{Climbs};
ghost use Rattle.router_core.specs.Rounds.{RouterGoes, IsNewWork};
ghost use Rattle.router_core.specs.Turned.{stage_of, answers_on};
ghost use Rattle.far_side.specs.Turns.{SendsAnswer, FarGoes};
ghost use Rattle.link_bag.specs.declared.plan.Fault.{Fault};
ghost use Rattle.real_rounds.specs.Fars.{Links, empty_links, RealFar};
ghost use Rattle.real_rounds.specs.Routers.{RealRouter, RealOperator};
ghost use Rattle.real_rounds.specs.Whole.{Slices, RoundGoes, Drains};
ghost use Rattle.graft_model.specs.First.{first_operator, first_world};
ghost use Rattle.graft_model.specs.Steps.{Event};
ghost use Rattle.graft_worked.specs.Base.{base};
ghost use Rattle.graft_worked.specs.First.{operator_first};
ghost use Rattle.graft_worked.specs.Others.{beating};
ghost use Rattle.graft_worked.specs.Places.{idle_router, idle_far};
ghost use Rattle.run_clocks.specs.Clocks.{AreClocked};
ghost use Rattle.rounds_worked.specs.Clocks.{four_at};
ghost use Rattle.rounds_worked.specs.Fars as fars;
ghost use Rattle.rounds_worked.specs.Fars.{saying, with_slice_sent, one_put, two_put, one_to_lose, one_elsewhere};
ghost use Rattle.rounds_worked.specs.Fars.{one_never_put, one_to_remote, one_gone, both_octets, one_octet, other_octet};
ghost use Rattle.rounds_worked.specs.Fars.{an_answer, a_delivery, one_taken, a_take, a_loss, a_point, a_beat};
ghost use Rattle.rounds_worked.specs.Routers as routers;
ghost use Rattle.rounds_worked.specs.Routers.{undecided, open_unsent, waiting, timed, all_octets, ten_octets, other_octets, stray};
ghost use Rattle.rounds_worked.specs.Whole as whole;
ghost use Rattle.rounds_worked.specs.Whole.{thrice, first_group, last_group, two_gos, none_noted, slices_of_one};
ghost use Rattle.rounds_worked.specs.Whole.{groups_in_order, out_of_order, ordered, admitted};
ghost use Rattle.rounds_worked.specs.Marks as marks;
ghost use Rattle.rounds_worked.specs.Marks.{once, twice, calm, busy_at, usual, patient, one, busy, hear_entry, begun_entry};
ghost use Rattle.rounds_worked.specs.Marks.{note_entry, begun_second, mark_of, one_round, two_rounds, go_behind, two_behind};

/// Small runs that have their marks: of one round in which nothing happens, and of two groups, the second of which
/// begins after the first round.
pub fn small_runs_have_their_marks()
    ensures one { HasMarks once [] (calm once) (usual ∷ []) one_round (1 ∷ []) Settled }
    ensures two { HasMarks twice (begun_entry ∷ []) (calm twice) (usual ∷ usual ∷ []) go_behind (1 ∷ 1 ∷ []) Settled }
{}

/// Each field of `HasMarks` can be false while all others hold: each of these runs differs in one thing from those of
/// `small_runs_have_their_marks`. With no field left out, this is `HasMarks` itself.
pub fn each_field_of_marks_is_needed()
    ensures all { (setup : Setup) (journal : List JournalEntry) (world : ℕ → World) (budgets : List Budget) (all : List (List ℕ)) (made : List ℕ) (end : RunEnd)
        → marks.HasMarksBut marks.NoField setup journal world budgets all made end → HasMarks setup journal world budgets all made end }
    ensures none_lost { (field : marks.MarksField) (setup : Setup) (journal : List JournalEntry) (world : ℕ → World)
        (budgets : List Budget) (all : List (List ℕ)) (made : List ℕ) (end : RunEnd)
        → HasMarks setup journal world budgets all made end → marks.HasMarksBut field setup journal world budgets all made end }
    ensures is { marks.FalseAloneInMarks marks.Is once [] (calm once) (usual ∷ []) (mark_of 0 0 ∷ []) (1 ∷ []) Settled }
    ensures empty { marks.FalseAloneInMarks marks.Empty once (hear_entry ∷ []) (calm once) (usual ∷ []) (mark_of 1 0 ∷ mark_of 1 0 ∷ []) (1 ∷ []) Settled }
    ensures begins_none { marks.FalseAloneInMarks marks.BeginsNone once (begun_entry ∷ [])
        (calm once) (usual ∷ []) (mark_of 0 0 ∷ mark_of 0 1 ∷ []) (1 ∷ []) Settled }
    ensures is_last { marks.FalseAloneInMarks marks.IsLast once (hear_entry ∷ []) (calm once) (usual ∷ []) one_round (1 ∷ []) Settled }
    ensures whole { marks.FalseAloneInMarks marks.Whole once (hear_entry ∷ []) (calm once) (usual ∷ []) one_round (1 ∷ []) Settled }
{}

/// Marks whose decisions don't fit their worlds are not those of a run: a round though all is quiet, or past the
/// budget; Settled while an item is on its way, or before the least number of rounds; a wrong count of rounds;
/// Unsettled within the budget; and a limit that isn't reached. All other fields of `HasMarks` hold for them.
pub fn marks_name_what_their_worlds_are()
    ensures round_though_quiet { marks.FalseAloneInMarks marks.Name once [] (calm once) (usual ∷ []) two_rounds (2 ∷ []) Settled }
    ensures round_past_budget { marks.FalseAloneInMarks marks.Name once [] (busy_at 1 once) (one ∷ []) two_rounds (2 ∷ []) Settled }
    ensures settled_though_busy { marks.FalseAloneInMarks marks.Name once [] (busy_at 1 once) (usual ∷ []) one_round (1 ∷ []) Settled }
    ensures settled_before_least { marks.FalseAloneInMarks marks.Name once [] (calm once) (patient ∷ []) one_round (1 ∷ []) Settled }
    ensures made { marks.FalseAloneInMarks marks.Name once [] (calm once) (usual ∷ []) one_round (2 ∷ []) Settled }
    ensures unsettled_in_budget { marks.FalseAloneInMarks marks.Name once [] (busy_at 1 once) (usual ∷ []) one_round (1 ∷ []) (Unsettled 1 1 Script) }
    ensures journal_not_full { marks.FalseAloneInMarks marks.Name once [] (calm once) (usual ∷ []) one_round (1 ∷ []) (JournalFull 0) }
    ensures stream_not_full { marks.FalseAloneInMarks marks.Name once [] (calm once) (usual ∷ []) one_round (1 ∷ []) (StreamFull (record { 0 = 0 }) 1044500) }
{}

/// A group begins right after the mark at which the previous one ended, and nowhere else. In these runs no group begins
/// there, or one begins one entry later, or two begin; or one begins after the mark of another round. All other fields
/// of `HasMarks` hold for them.
pub fn groups_begin_behind_their_marks()
    ensures none { marks.FalseAloneInMarks marks.Name twice [] (calm twice) (usual ∷ usual ∷ []) two_rounds (1 ∷ 1 ∷ []) Settled }
    ensures late { marks.FalseAloneInMarks marks.Name twice (note_entry ∷ begun_second ∷ []) (calm twice) (usual ∷ usual ∷ []) two_behind (1 ∷ 1 ∷ []) Settled }
    ensures two { marks.FalseAloneInMarks marks.Name twice (begun_entry ∷ begun_second ∷ []) (calm twice) (usual ∷ usual ∷ []) two_behind (1 ∷ 1 ∷ []) Settled }
    ensures busy { marks.FalseAloneInMarks marks.Name once (begun_entry ∷ []) (busy_at 1 once) (usual ∷ []) go_behind (2 ∷ []) Settled }
{}

/// Small rounds that are real: a router, an operator or a far side that has nothing to do does nothing; a router emits what was put, and again while
/// nothing of it is acknowledged; and a far side sends what the remote said.
pub fn small_rounds_are_real()
    ensures idle { RealRouter base 0 1 idle_router [] idle_router }
    ensures emits { RealRouter base 0 1 open_unsent (all_octets ∷ []) waiting }
    ensures emits_again { RealRouter base 0 1 waiting (all_octets ∷ []) waiting }
    ensures operator { RealOperator once (first_operator once) [] (first_operator once) }
    ensures far_side { RealFar base [] 0 1 idle_far empty_links [] idle_far empty_links }
    ensures far_sends { RealFar base [] 0 1 (saying 0) empty_links (both_octets ∷ []) (with_slice_sent (saying 0) 0 2) one_put }
{}

/// Fields of `RealRouter` that can be false while all others hold: each of these rounds differs in one thing from those
/// of `small_rounds_are_real`. With no field left out, this is `RealRouter` itself.
pub fn fields_of_a_routers_round_are_needed()
    ensures all { (setup : Setup) (r round : ℕ) (start : RouterPart) (events : List RouterEvent) (end : RouterPart)
        → routers.RealRouterBut routers.NoField setup r round start events end → RealRouter setup r round start events end }
    ensures none_lost { (field : routers.RouterField) (setup : Setup) (r round : ℕ) (start : RouterPart) (events : List RouterEvent) (end : RouterPart)
        → RealRouter setup r round start events end → routers.RealRouterBut field setup r round start events end }
    ensures is { routers.FalseAloneInRouter routers.Is base 1 idle_router (all_octets ∷ []) idle_router }
    ensures takes { routers.FalseAloneInRouter routers.Takes base 1 open_unsent (all_octets ∷ stray ∷ []) waiting }
    ensures sends { routers.FalseAloneInRouter routers.Sends base 1 waiting (ten_octets ∷ []) waiting }
    ensures works { routers.FalseAloneInRouter routers.Works base 1 open_unsent (ten_octets ∷ other_octets ∷ []) waiting }
    ensures in_order { routers.FalseAloneInRouter routers.InOrder base 1 open_unsent (all_octets ∷ stray ∷ []) waiting }
    ensures rested { routers.FalseAloneInRouter routers.Rested base 1 undecided [] undecided }
    ensures goes_on { routers.FalseAloneInRouter routers.GoesOn base 1 waiting [] waiting }
    ensures ticks { routers.FalseAloneInRouter routers.Ticks beating 1 timed [] timed }
{}

/// Rounds that no router makes, whatever its parts at their start and end are: one whose turn begins with the Tick of
/// another round's number, where a session may close; and one in which an old slice is sent twice, after a segment that
/// may have acknowledged what came before it.
pub fn some_rounds_are_never_real()
    ensures tick { (start end : RouterPart) (events : List RouterEvent) → ¬ RealRouter base 0 2 start (Tick 0 1 ∷ events) end }
    ensures twice { (start end : RouterPart) → ¬ RealRouter base 0 1 start (Arrive 0 ∷ other_octets ∷ other_octets ∷ []) end }
{}

/// Each field of `RealOperator` can be false while the other holds: what the remote is to say isn't ordered, or a group
/// begins that the script doesn't have.
pub fn each_field_of_the_operators_round_is_needed()
    ensures all { (setup : Setup) (start : OperatorPart) (events : List OperatorEvent) (end : OperatorPart)
        → routers.RealOperatorBut routers.NoOperatorField setup start events end → RealOperator setup start events end }
    ensures none_lost { (field : routers.OperatorField) (setup : Setup) (start : OperatorPart) (events : List OperatorEvent) (end : OperatorPart)
        → RealOperator setup start events end → routers.RealOperatorBut field setup start events end }
    ensures goes { routers.OperatorFalseAlone routers.Goes once (first_operator once) (Go ∷ []) (first_operator once) }
    ensures issued { routers.OperatorFalseAlone routers.Issued base operator_first [] operator_first }
{}

/// Fields of `RealFar` that can be false while all others hold: each of these rounds differs in one thing from those of
/// `small_rounds_are_real`. With no field left out, this is `RealFar` itself.
pub fn fields_of_a_far_sides_round_are_needed()
    ensures all { (setup : Setup) (faults : List Fault) (p round : ℕ) (start : FarPart) (before : Links) (events : List FarEvent) (end : FarPart)
        (after : Links)
        → fars.RealFarBut fars.NoField setup faults p round start before events end after → RealFar setup faults p round start before events end after }
    ensures none_lost { (field : fars.FarField) (setup : Setup) (faults : List Fault) (p round : ℕ) (start : FarPart) (before : Links) (events : List FarEvent)
        (end : FarPart) (after : Links)
        → RealFar setup faults p round start before events end after → fars.RealFarBut field setup faults p round start before events end after }
    ensures is { fars.FalseAloneInFar fars.Is base 1 idle_far empty_links (one_octet ∷ []) idle_far empty_links }
    ensures takes { fars.FalseAloneInFar fars.Takes base 1 (saying 0) empty_links (both_octets ∷ a_point ∷ []) (saying 2) empty_links }
    ensures delivers { fars.FalseAloneInFar fars.Delivers base 1 idle_far one_put (a_delivery ∷ []) idle_far one_gone }
    ensures resends { fars.FalseAloneInFar fars.Resends base 1 (saying 2) empty_links (one_octet ∷ []) (with_slice_sent (saying 2) 0 1) one_put }
    ensures says { fars.FalseAloneInFar fars.Says beating 30 idle_far empty_links (a_beat ∷ []) idle_far empty_links }
    ensures sends { fars.FalseAloneInFar fars.Sends base 1 (saying 0) empty_links
        (one_octet ∷ other_octet ∷ []) (with_slice_sent (with_slice_sent (saying 0) 0 1) 1 1) two_put }
    ensures replies { fars.FalseAloneInFar fars.Replies base 1 idle_far empty_links (an_answer ∷ []) (with_slice_sent idle_far 0 0) one_put }
    ensures due { fars.FalseAloneInFar fars.Due beating 30 idle_far empty_links [] idle_far empty_links }
    ensures rested { fars.FalseAloneInFar fars.Rested base 1 (saying 0) empty_links [] (saying 0) empty_links }
    ensures goes_on { fars.FalseAloneInFar fars.GoesOn base 1 (saying 2) empty_links [] (saying 2) empty_links }
    ensures are_taken { fars.FalseAloneInFar fars.AreTaken base 1 idle_far empty_links (a_take ∷ a_loss ∷ []) idle_far one_taken }
    ensures are_sent { fars.FalseAloneInFar fars.AreSent base 1 (saying 0) empty_links (both_octets ∷ []) (with_slice_sent (saying 0) 0 2) one_to_lose }
    ensures pointed { fars.FalseAloneInFar fars.AreSent base 1 (saying 0) empty_links (both_octets ∷ []) (with_slice_sent (saying 0) 0 2) one_elsewhere }
    ensures home { fars.FalseAloneInFar fars.Home base 1 idle_far empty_links [] idle_far one_never_put }
    ensures remote { fars.FalseAloneInFar fars.Remote base 1 idle_far empty_links [] idle_far one_to_remote }
{}

/// That a router or a far side sends at most one acknowledgement in a round follows from the other conditions on
/// acknowledgements: each must be owed, and after one has been sent none is.
pub fn one_answer_follows()
    ensures router { (setup : Setup) (r p : ℕ) (start end : RouterPart) (work : List RouterEvent) (parts : List RouterPart)
        → RouterGoes setup r (IsNewWork setup r) start work parts end
        → Climbs 1 (map stage_of work) → answers_on p work ≤ 1 }
    ensures far_side { (setup : Setup) (p : ℕ) (level end : FarPart) (answers : List FarEvent) → FarGoes setup p SendsAnswer level answers end
        → length answers ≤ 1 }
{}

/// Each field of `RoundGoes` can be false while the others hold: entries that aren't in the order of their clocks, or
/// one that is no event's; events without entries; and a world to which no event led. With no field left out, this is
/// `RoundGoes` itself, and it holds for two groups that begin one after the other.
pub fn each_field_of_a_rounds_run_is_needed()
    ensures all { (setup : Setup) (start : World) (slices : Slices) (events : List Event) (end : World)
        → whole.RoundGoesBut whole.NoField setup start slices events end → RoundGoes setup start slices events end }
    ensures none_lost { (field : whole.RoundField) (setup : Setup) (start : World) (slices : Slices) (events : List Event) (end : World)
        → RoundGoes setup start slices events end → whole.RoundGoesBut field setup start slices events end }
    ensures holds { RoundGoes thrice first_group (slices_of_one 1 groups_in_order) two_gos last_group }
    ensures by_clock { whole.FalseAloneInRound whole.Merged thrice first_group (slices_of_one 1 out_of_order) two_gos last_group }
    ensures of_none { whole.FalseAloneInRound whole.Merged once (first_world once) (slices_of_one 0 (hear_entry ∷ [])) [] (first_world once) }
    ensures entries_of { whole.FalseAloneInRound whole.EntriesOf thrice first_group none_noted two_gos last_group }
    ensures run { whole.FalseAloneInRound whole.Runs once (first_world once) none_noted [] (busy (first_world once)) }
{}

/// An order on its way to a router is taken in one of two rounds; it isn't left in the channel for both.
pub fn an_order_is_not_left_for_two_rounds()
    ensures taken { Drains once ordered none_noted (slices_of_one 0 (admitted ∷ [])) }
    ensures left { ¬ Drains once ordered none_noted none_noted }
{}

/// The clocks of four events: a router sends an item to another, which takes it, then a group begins, and the other
/// router does something. They follow if they are 1 to 4. They don't if all are 0, if the clock of the event that takes
/// isn't above the stamp, if that of the group's beginning isn't above every clock, or if the beginning didn't level
/// the other router's clock.
pub fn each_clock_follows()
    ensures follow { AreClocked (four_at 1 2 3 4) }
    ensures all_zero { ¬ AreClocked (four_at 0 0 0 0) }
    ensures stamp_forgotten { ¬ AreClocked (four_at 1 1 2 3) }
    ensures not_above_all { ¬ AreClocked (four_at 1 2 2 3) }
    ensures not_levelled { ¬ AreClocked (four_at 1 2 3 3) }
{}
