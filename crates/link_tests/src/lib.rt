//! Tests of sequence numbers, reassembly, links and endpoints. What their contracts say is proved for all inputs; here
//! are rows worked out by hand from RFC 9293, each call once, and an exchange despite loss.
#![tactic(auto)]

#[cfg(test)]
mod ends;
#[cfg(test)]
mod exchange;
#[cfg(test)]
mod tests;
