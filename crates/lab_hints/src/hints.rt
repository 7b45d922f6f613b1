//! The hint for an input that is refused.

ghost use Rattle.std.specs.Prelude.{◌≡◌, ◌≤◌, ◌++◌, ◌∷◌, [], IfOk, OnOk, string_bytes, length, codes};
ghost use Rattle.toml.specs.View.{table_view};
ghost use Rattle.toml.specs.Parse.{parse_document};
ghost use Rattle.lab_hints.specs.Hints.{hint_line, long_words, place_words, document_words, flaw_words, IsReadHint, IsHint, IsNameHint};

use crate::later::{push_later, push_unknown};
use crate::place::push_place;
use crate::shape::push_shape;
use bgp_types::{Items, NoMemory, Octets};
use lab_input::{BadInput, LabInput, MOST_BYTES};
use lab_tables::{lab_of, shaped};
use std::alloc::Global;
use std::fmt::Write;
use toml::Table;

/// Returns the front of a hint.
fn front(alloc: Global) -> Result<String, NoMemory>
    ensures { IfOk result (λ text. string_bytes text ≡ codes "hint: ") }
{
    Ok(String::from_str(alloc, "hint: ")?)
}

/// Returns a text as a line.
fn ended(text: String) -> Result<Octets, NoMemory>
    ensures { IfOk result (λ line. line ≡ string_bytes text ++ 10 ∷ []) }
{
    let mut text = text;
    text.push_str("\n")?;
    Ok(Items::from_vec(text.into_bytes()))
}

/// Returns the hint for more bytes than an input has.
pub fn long_hint(alloc: Global) -> Result<Octets, NoMemory>
    ensures { IfOk result (λ text. text ≡ hint_line long_words) }
{
    let mut text = front(alloc)?;
    write!(text, "an input has at most {MOST_BYTES} bytes")?;
    ended(text)
}

/// Returns the hint for a place in the bytes.
fn place_hint(alloc: Global, bytes: &[u8], at: usize, message: &str) -> Result<Octets, NoMemory>
    requires { at ≤ length bytes.now }
    ensures { IfOk result (λ text. text ≡ hint_line (place_words bytes.now at message.now)) }
{
    let mut text = front(alloc)?;
    push_place(&mut text, bytes, at, message)?;
    ended(text)
}

/// Adds the hint for the first flaw of a document, or for its names or counts.
fn push_document(
    alloc: Global,
    text: &mut String,
    doc: &Table,
    bad: &BadInput,
) -> Result<(), NoMemory>
    ensures { OnOk result (string_bytes text.new ≡ string_bytes text.old ++ document_words (table_view doc.now) bad.now) }
{
    match shaped(doc) {
        Some(flaw) => push_shape(alloc, text, doc, flaw),
        None => {
            let lab = lab_of(alloc, doc)?;
            push_later(alloc, text, &lab, bad)
        }
    }
}

/// Returns the hint for a document that is refused.
fn document_hint(alloc: Global, doc: &Table, bad: &BadInput) -> Result<Octets, NoMemory>
    ensures { IfOk result (λ text. text ≡ hint_line (document_words (table_view doc.now) bad.now)) }
{
    let mut text = front(alloc)?;
    push_document(alloc, &mut text, doc, bad)?;
    ended(text)
}

/// Returns the hint for a text that is refused.
fn text_hint(alloc: Global, text: &str, bad: &BadInput) -> Result<Octets, NoMemory>
    ensures { IfOk result (λ hint. IsReadHint (parse_document text.now) text.now bad.now hint) }
{
    match toml::table_from_str(alloc, text) {
        Ok(doc) => document_hint(alloc, &doc, bad),
        Err(error) => match error.span() {
            Some(span) => place_hint(alloc, text.as_bytes(), span.start, error.message()),
            None => Err(NoMemory),
        },
    }
}

/// Returns the hint for bytes that are refused as an input, given why: what is wanted at the place of the first fault.
pub fn hint_text(alloc: Global, bytes: &[u8], bad: &BadInput) -> Result<Octets, NoMemory>
    ensures { IfOk result (IsHint bytes.now bad.now) }
{
    if bytes.len() > MOST_BYTES {
        return long_hint(alloc);
    }
    match std::str::from_utf8(bytes) {
        Ok(text) => text_hint(alloc, text, bad),
        Err(error) => place_hint(alloc, bytes, error.valid_up_to(), "invalid UTF-8"),
    }
}

/// Returns the hint for an input that hasn't the router or peering that the words of a command name.
pub fn name_hint(alloc: Global, lab: &LabInput, name: &str) -> Result<Octets, NoMemory>
    ensures { IfOk result (IsNameHint lab.now name.now) }
{
    let mut text = front(alloc)?;
    push_unknown(alloc, &mut text, lab, name)?;
    ended(text)
}
