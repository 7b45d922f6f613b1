//! The laws of silent rounds.

ghost use Rattle.silent_rounds.specs.Laws.{SilentLinksAreEmpty, SilentWorldsAreQuiet};

use graft_actors::actors_have_their_numbers;
use graft_laws::{sessions_are_unbroken, what_is_told_can_be_written};
use settled_check::quiet_is_found;
use still_grafts::still_worlds_have_no_graft_left;
use world_runs::worlds_are_on_the_way;

/// After seven rounds without an event no link holds a segment: a fault holds one back for at most six turns.
pub fn silent_links_are_empty()
    ensures { SilentLinksAreEmpty }
{}

/// If the eight rounds after a mark have no event, and no session is stuck at the next mark, nothing was left to do at
/// the mark before those rounds.
pub fn silent_worlds_are_quiet()
    ensures { SilentWorldsAreQuiet }
{
    silent_links_are_empty();
    actors_have_their_numbers();
    what_is_told_can_be_written();
    sessions_are_unbroken();
    quiet_is_found();
    worlds_are_on_the_way();
    still_worlds_have_no_graft_left();
}
