//! Reading an input.

ghost use Rattle.std.specs.Prelude.{◌≡◌, Some, IfOk};
ghost use Rattle.toml.specs.View.{table_view};
ghost use Rattle.lab_input.specs.Labs.{input_in, input_of, ReaderAnswers};

use crate::bad::{BadInput, LabStop};
use crate::counts::counted;
use crate::naming::named;
use crate::shape::shape_of;
use crate::told::first;
use bgp_types::{Name, NoMemory};
use lab_tables::{LabInput, lab_of};
use std::alloc::Global;
use toml::Table;

/// The limit of bytes of an input.
pub const MOST_BYTES: usize = 4_194_304;

/// Returns the first rule on names and counts that a document and its value don't meet.
fn later_bad(alloc: Global, doc: &Table, lab: &LabInput) -> Result<Option<BadInput>, NoMemory>
    requires { lab.now ≡ lab_of_lem (table_view doc.now) }
    ensures { IfOk result (λ bad. bad ≡ option_or (named_lem (table_view doc.now)) (option_or (count_fault lab.now) None)) }
{
    let name = named(alloc, doc, lab)?;
    let count = counted(alloc, lab)?;
    Ok(first(name, first(count, None)))
}

/// Returns the input that a document stands for, whose shapes must be right.
fn read_shaped(alloc: Global, doc: &Table) -> Result<LabInput, LabStop>
    ensures { ReaderAnswers (input_unless (option_or (named_lem (table_view doc.now)) (option_or (count_fault (lab_of_lem (table_view doc.now))) None))
        (lab_of_lem (table_view doc.now))) result }
{
    let lab = lab_of(alloc, doc)?;
    let found = later_bad(alloc, doc, &lab)?;
    match found {
        Some(bad) => Err(LabStop::Bad(bad)),
        None => Ok(lab),
    }
}

/// Returns the input that a document stands for.
fn read_document(alloc: Global, doc: &Table) -> Result<LabInput, LabStop>
    ensures { ReaderAnswers (input_in (Some (table_view doc.now))) result }
{
    let shape = shape_of(alloc, doc)?;
    match shape {
        Some(bad) => Err(LabStop::Bad(bad)),
        None => read_shaped(alloc, doc),
    }
}

/// Returns the fault of more bytes than an input may have.
pub fn too_long(alloc: Global) -> Result<BadInput, NoMemory>
    ensures { IfOk result (λ bad. bad ≡ too_long_bad) }
{
    let name = Name::from_text(alloc, "input")?;
    Ok(BadInput::Limit(name, MOST_BYTES as u64 + 1))
}

/// Reads the input from its bytes. `Bad` has the first rule that they don't meet: at most 4 MiB; a TOML document;
/// shapes and limits of its keys; names; and counts over the whole.
pub fn read_lab(alloc: Global, bytes: &[u8]) -> Result<LabInput, LabStop>
    ensures { ReaderAnswers (input_of bytes.now) result }
{
    if bytes.len() > MOST_BYTES {
        return Err(LabStop::Bad(too_long(alloc)?));
    }
    let text = match std::str::from_utf8(bytes) {
        Ok(text) => text,
        Err(_) => return Err(LabStop::Bad(BadInput::NotToml)),
    };
    match toml::table_from_str(alloc, text) {
        Ok(doc) => read_document(alloc, &doc),
        Err(error) => {
            if error.is_memory() {
                Err(LabStop::NoMemory)
            } else {
                Err(LabStop::Bad(BadInput::NotToml))
            }
        }
    }
}

ghost use Rattle.std.specs.Prelude.{None};
ghost use Rattle.std.specs.Option.{option_or};
ghost use Rattle.lab_tables.specs.Documents.{lab_of as lab_of_lem};
ghost use Rattle.lab_input.specs.Names.{named as named_lem};
ghost use Rattle.lab_input.specs.Counts.{count_fault};
ghost use Rattle.lab_input.specs.Labs.{input_unless, too_long as too_long_bad};
