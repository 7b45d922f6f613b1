//! What is said of an accepted input and of a run, as JSON: one object in one line, with what the texts of the same jobs say.
#![tactic(auto)]

mod check;
mod grafts;
mod laws;
mod peerings;
mod routers;
mod run;
mod summary;
mod text;
mod traces;
mod values;

pub use check::check_json;
pub use grafts::{graft_value, refusal_value, source_value, stage_refusal};
pub use laws::worked_values;
pub use peerings::{is_moving, write_holder};
pub use routers::{from_value, path_value, write_from, write_path};
pub use run::{end_value, report_json, write_end};
pub use summary::summary_json;
pub use text::{JsonText, write_address, write_count_or_null, write_prefix, write_text_or_null};
pub use values::{
    address_value, count_or_null, json_line, prefix_value, push_value, put_text, text_or_null,
};
