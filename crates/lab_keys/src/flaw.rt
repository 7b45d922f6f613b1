//! Flaws: what is wrong with a value.

use crate::spot::Spot;

/// The flaw of a value: it is missing or has a wrong shape, or a number or a count is beyond its limits.
#[derive(Debug, Drop)]
pub enum Flaw<'a> {
    Shape(Spot<'a>),
    Limit(Spot<'a>, u64),
}
