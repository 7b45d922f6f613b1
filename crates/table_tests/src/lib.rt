//! The two tables of prefixes, sets of prefixes, an Adj-RIB and a Loc-RIB: each call of them answers, by worked values; and the two tables
//! answer the same generated commands alike.
#![tactic(auto)]

#[cfg(test)]
mod tests;
