//! Answers to entries.

/// What an entry is in the world so far.
#[derive(Clone, Copy, Debug, PartialEq, Eq, Hash)]
pub enum Step {
    /// It is that of an event that could happen, and has happened now. It took an item of the actor of number `from`, and
    /// sent one to that of number `to`, if these are named.
    Made {
        from: Option<usize>,
        to: Option<usize>,
    },
    /// Its kind and arguments are those of no event of its actor.
    Kind,
    /// It is that of an event that can't happen.
    Condition,
}
