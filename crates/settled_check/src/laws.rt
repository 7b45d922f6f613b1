//! Laws: what rests say about parts, and when nothing is left to do.

ghost use Rattle.settled_check.specs.Worlds.{RouterRestsTell, FarRestsTell, OperatorRestsTell, QuietIsNothingLeft, QuietIsFound};

use graft_actors::actors_have_their_numbers;

/// The first thing that an actor's rest names is the first one left to do in the actor's part of the world.
pub fn rests_tell_what_is_left()
    ensures router { RouterRestsTell }
    ensures far { FarRestsTell }
    ensures operator { OperatorRestsTell }
{}

/// In the worlds of a run, nothing is left to do exactly in a quiet world. Exactly there all channels are empty and the
/// rests of all actors name nothing.
pub fn quiet_is_found()
    ensures nothing { QuietIsNothingLeft }
    ensures found { QuietIsFound }
{
    actors_have_their_numbers();
}
