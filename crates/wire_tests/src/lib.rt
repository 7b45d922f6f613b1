//! Tests of what no clause of the message crates says: that texts, streams and faults of the standard's cases are as
//! worked out by hand. Frames and the answers of a session to them are the rows of the program `wire_rows`.
#![tactic(auto)]

#[cfg(test)]
mod streams;
#[cfg(test)]
mod values;
