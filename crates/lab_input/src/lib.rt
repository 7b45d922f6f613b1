//! The input of a laboratory: which bytes are an input, and why others aren't.
#![tactic(auto)]

mod bad;
mod counts;
mod expects;
mod faults;
mod laws;
mod named;
mod names;
mod naming;
mod read;
mod shape;
mod told;

pub use bad::{BadInput, LabStop};
pub use counts::{
    MOST_GRAFTS, MOST_OCTETS, MOST_OCTETS_BEATING, MOST_PREFIXES, MOST_SETTLES, peerings_at,
    update_of,
};
pub use lab_tables::{
    CostInput, CostInputs, Expectation, Expectations, ExpectedValue, Faults, LabInput, Numbers,
    PeeringInput, PeeringInputs, PolicyInput, PolicyInputs, RouterInput, RouterInputs, Step, Steps,
};
pub use laws::an_input_may_expect_nothing;
pub use read::{MOST_BYTES, read_lab, too_long};
