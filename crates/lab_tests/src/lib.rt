//! Whole laboratories that run in threads: what no contract says of them. What a run tells is proved for all inputs, workers
//! and gates; these tests show that workers run side by side, and that a run comes to its end.
#![tactic(auto)]

#[cfg(test)]
mod gates;
#[cfg(test)]
mod labs;
#[cfg(test)]
mod workers;
