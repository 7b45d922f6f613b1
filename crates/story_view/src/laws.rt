//! The story of a worked run.

ghost use Rattle.std.specs.Prelude.{◌≡◌, []};
ghost use Rattle.story_view.specs.Story.{story_text};
ghost use Rattle.story_view.specs.Worked.{worked_lab, worked_text};

/// A session puts its OPEN at router `a`, gets an OPEN, a KEEPALIVE and an UPDATE, the last one at router `b`, and puts an UPDATE; then one
/// second has no answer, one a KEEPALIVE, and in the last one the hold time runs out. Each line has the round and the router of its
/// event in the journal. A peering that the input doesn't have has no story.
pub fn worked_story()
    ensures text { story_text worked_lab 0 ≡ worked_text }
    ensures none { story_text worked_lab 1 ≡ [] }
{}
