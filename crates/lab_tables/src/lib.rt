//! The tables of an input in TOML: their keys, the first flaw of a document, and its value.
#![tactic(auto)]

mod costs;
mod expectation;
mod expects;
mod input;
mod labs;
mod name_index;
mod numbers;
mod once;
mod opening;
mod peerings;
mod routers;
mod rows;
mod rules;
mod said;
mod scripts;
mod shapes;
mod step_keys;
mod steps;
mod wants;
mod words;

pub use costs::fault_of;
pub use expectation::{Expectation, Expectations, ExpectedValue};
pub use input::{
    CostInput, CostInputs, Faults, LabInput, Numbers, PeeringInput, PeeringInputs, PolicyInput,
    PolicyInputs, RouterInput, RouterInputs, Step, Steps,
};
pub use labs::{lab_of, peering_names, router_names};
pub use name_index::NameIndex;
pub use once::each_once;
pub use opening::default_opening;
pub use rows::{keys_at, table_at};
pub use shapes::shaped;
pub use words::word_at;
