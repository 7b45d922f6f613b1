//! The law of readings.

ghost use Rattle.story_readings.specs.Laws.{StoriesReadAlike};

/// Two sessions of one peering that got all of the same bytes, and in which no round passed, are in the same state,
/// have heard the same routes, and got the same OPEN. It doesn't matter how the bytes arrived and what was put in
/// between.
pub fn stories_read_alike()
    ensures { StoriesReadAlike }
{}
