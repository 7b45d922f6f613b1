//! Law: how long a session is on its way.
#![tactic(auto)]

ghost use Rattle.bounded_moves.specs.Laws.{MovesAreBounded};

/// A session that is frozen in a round has landed or come back four rounds later, if each channel from its source holds
/// at most 256 items at the end of that round, and each channel to its source does two rounds later.
pub fn moves_are_bounded()
    ensures { MovesAreBounded }
{}
