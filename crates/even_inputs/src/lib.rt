//! Laboratories whose settled runs have one answer: the tables and sessions that the script gives for the places of the sessions by the log.
#![tactic(auto)]

ghost use Rattle.std.specs.Prelude.{◌≡◌, [], ◌∷◌, true, false};
ghost use Rattle.bgp_story.specs.WorkedSessions.{update_bytes};
ghost use Rattle.even_inputs.specs.Evenness.{is_even};
ghost use Rattle.even_inputs.specs.Worked.{even_laboratory, with_med, from_another, of_eleven, sets_med};
ghost use Rattle.even_inputs.specs.Laws.{EvenLaboratoriesSettleEvenly, SettledWorldsAreTheSolution};

/// Where no session has a timer, what the routers of an even laboratory have by themselves when all is settled is even for each
/// prefix (RFC 4271, section 9.1.2.2 (c)).
pub fn even_laboratories_settle_evenly()
    ensures { EvenLaboratoriesSettleEvenly }
{}

/// What became of the grafts tells where the sessions of a settled run belong. Where the laboratory is even and no session has a
/// timer, the best routes are then those of the solution, which the laboratory and these places give, and each session has the
/// state and the routes that the reading of all that its remote says has.
pub fn settled_worlds_are_the_solution()
    ensures { SettledWorldsAreTheSolution }
{}

/// Two remotes of AS 65001 announce one prefix to two routers. With MEDs 0 and 1 that laboratory isn't even; with an absent MED and 0 it
/// is, and so it is where the second route is from another AS or to another prefix. With one MED it isn't even where the routers' import
/// policy sets another one, for it may come in by a session without that policy, as the routes are announced.
pub fn some_laboratories_are_even()
    ensures uneven { is_even (even_laboratory (with_med 0) (with_med 1) []) ≡ false }
    ensures absent { is_even (even_laboratory update_bytes (with_med 0) []) ≡ true }
    ensures another { is_even (even_laboratory (with_med 0) (from_another 1) []) ≡ true }
    ensures prefixes { is_even (even_laboratory (with_med 0) (of_eleven 1) []) ≡ true }
    ensures set { is_even (even_laboratory (with_med 0) (with_med 0) (sets_med ∷ [])) ≡ false }
    ensures same { is_even (even_laboratory (with_med 5) (with_med 5) (sets_med ∷ [])) ≡ true }
{}
