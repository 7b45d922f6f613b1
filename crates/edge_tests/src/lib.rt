//! Tables over the public calls of `graft_edge`: sources and sinks that give and take a few bytes at a time or fail,
//! the queue of bytes, and the lists, names and words that every crate uses.
#![tactic(auto)]

#[cfg(test)]
mod tests;
