//! The tables of an input.

/// A table of an input, by its index in the array that holds it, and by the indices of the tables around it. Indices
/// count from 0.
#[derive(Clone, Copy, Debug, PartialEq, Eq)]
pub enum TableAt {
    Top,
    Router(usize),
    Policy(usize, usize),
    Rule(usize, usize, usize),
    Cost(usize),
    Peering(usize),
    Fault(usize),
    Step(usize),
    Expect(usize),
}
