//! Nets of toy actors that run in threads, and the merge of journals: what no contract covers.
#![tactic(auto)]

#[cfg(test)]
mod tests;
