//! The rounds of a worked journal.

ghost use Rattle.std.specs.Prelude.{◌≡◌, [], ◌∷◌};
ghost use Rattle.entry_rounds.specs.Rounds.{entry_rounds};
ghost use Rattle.entry_rounds.specs.Worked.{worked_marks, worked_journal};

/// In a run of three rounds two actors make six entries. The first actor makes two in round 1 and one in round 3, the second one in round 1 and
/// one in round 2; one more entry of the second comes behind the last mark.
pub fn worked_rounds()
    ensures { entry_rounds worked_marks worked_journal ≡ 1 ∷ 1 ∷ 2 ∷ 1 ∷ 3 ∷ 4 ∷ [] }
{}
