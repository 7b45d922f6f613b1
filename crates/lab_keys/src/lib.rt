//! The keys of an input in TOML: the kind of the value at each key, the first flaw of a table's values, and the values
//! themselves.
#![tactic(auto)]

mod arrays;
mod flaw;
mod key;
mod keys;
mod kinds;
mod paths;
mod readers;
mod reported;
mod spot;
mod table_at;
mod tables;
mod texts;
mod values;
mod words;

pub use arrays::{addresses_at, items_at, numbers_at, prefixes_at, push_some};
pub use flaw::Flaw;
pub use key::{Counts, Key, Kind};
pub use keys::{key_flaw, keys_flaw, stray_flaw, stray_in, value_at};
pub use kinds::{beyond, flaw_if};
pub use paths::path_of;
pub use readers::{TableReader, tables_in, values_at};
pub use reported::{first_word, further_words, is_best, is_outcome, state_in};
pub use spot::Spot;
pub use table_at::TableAt;
pub use tables::{TableKind, tables_flaw};
pub use texts::{address_in, host_in, is_hex, is_name, prefix_in};
pub use values::{
    address_or, flag_or, has, maybe_number, maybe_prefix, maybe_text, number_or, octets_at,
    short_or, small_or, text_at,
};
pub use words::{StepWord, fault_kind_in, origin_in, step_word_in, way_in};
