//! What the words of a table stand for. The defaults stand where a word is missing or unknown, so that the table has a
//! flaw.

ghost use Rattle.std.specs.Prelude.{◌≡◌};
ghost use Rattle.toml.specs.View.{table_view};
ghost use Rattle.lab_tables.specs.Meanings.{origin_at as origin_at_lem, way_at as way_at_lem};
ghost use Rattle.lab_tables.specs.Meanings.{fault_kind_at as fault_kind_at_lem, word_at as word_at_lem};

use bgp_types::Origin;
use lab_keys::{StepWord, fault_kind_in, maybe_text, origin_in, step_word_in, text_at, way_in};
use link_bag::FaultKind;
use tcp_seq::Way;
use toml::Table;

/// Returns the origin at a key.
pub(crate) fn origin_at(key: &str, table: &Table) -> Option<Origin>
    ensures { result ≡ origin_at_lem key.now (table_view table.now) }
{
    origin_in(maybe_text(key, table)?)
}

/// Returns the side that the segment of a planned fault goes to.
pub(crate) fn way_at(table: &Table) -> Way
    ensures { result ≡ way_at_lem (table_view table.now) }
{
    way_in(text_at("way", table)).unwrap_or(Way::Home)
}

/// Returns what a planned fault does.
pub(crate) fn fault_kind_at(table: &Table) -> FaultKind
    ensures { result ≡ fault_kind_at_lem (table_view table.now) }
{
    fault_kind_in(text_at("kind", table)).unwrap_or(FaultKind::Lose)
}

/// Returns what a step does. The default neither ends a group nor evacuates.
pub fn word_at(table: &Table) -> StepWord
    ensures { result ≡ word_at_lem (table_view table.now) }
{
    step_word_in(text_at("do", table)).unwrap_or(StepWord::Announces)
}
