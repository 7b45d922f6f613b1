//! The first wrong shape or limit, as it is reported.

ghost use Rattle.std.specs.Prelude.{◌≡◌, IfOk, option_map};
ghost use Rattle.toml.specs.View.{table_view};
ghost use Rattle.lab_tables.specs.Documents.{shaped as shaped_lem};
ghost use Rattle.lab_input.specs.Labs.{bad_of as bad_of_lem};

use crate::bad::BadInput;
use bgp_types::NoMemory;
use lab_keys::{Flaw, path_of};
use lab_tables::shaped;
use std::alloc::Global;
use toml::Table;

/// Returns a flaw as it is reported.
fn bad_of<'a>(alloc: Global, flaw: Flaw<'a>) -> Result<BadInput, NoMemory>
    ensures { IfOk result (λ bad. bad ≡ bad_of_lem flaw.entry) }
{
    match flaw {
        Flaw::Shape(spot) => Ok(BadInput::Shape(path_of(alloc, spot)?)),
        Flaw::Limit(spot, n) => Ok(BadInput::Limit(path_of(alloc, spot)?, n)),
    }
}

/// Returns the first flaw of a document, as it is reported.
pub(crate) fn shape_of(alloc: Global, doc: &Table) -> Result<Option<BadInput>, NoMemory>
    ensures { IfOk result (λ bad. bad ≡ option_map bad_of_lem (shaped_lem (table_view doc.now))) }
{
    match shaped(doc) {
        Some(flaw) => Ok(Some(bad_of(alloc, flaw)?)),
        None => Ok(None),
    }
}
