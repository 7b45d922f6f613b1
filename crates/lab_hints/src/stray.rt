//! A key that no row has.

ghost use Rattle.std.specs.Prelude.{◌≡◌, ◌++◌, ◌&&◌, Some, OnOk, IfOk, string_bytes, map, option_map, codes};
ghost use Rattle.std.specs.List.{list_all};
ghost use Rattle.near_names.specs.Nearness.{is_near as is_near_lem};
ghost use Rattle.lab_keys.specs.Keys.{names_of as names_of_lem};
ghost use Rattle.lab_hints.specs.Wanted.{listed};
ghost use Rattle.lab_hints.specs.Shapes.{is_bare_char as is_bare_char_lem, is_bare as is_bare_lem, instead_words, known_words, stray_words};

use crate::wanted::{push_listed, push_words};
use bgp_types::{Items, NoMemory};
use lab_keys::Key;
use near_names::{is_near, nearest};
use std::alloc::Global;

fn is_bare_char(c: u8) -> bool
    ensures { result ≡ is_bare_char_lem c }
{
    c.is_ascii_lowercase() || c.is_ascii_digit() || c == b'-' || c.is_ascii_uppercase() || c == b'_'
}

fn are_bare_chars(bytes: &[u8]) -> bool
    ensures { result ≡ list_all is_bare_char_lem bytes.now }
{
    bytes.iter().all(|c| is_bare_char(*c))
}

/// Returns whether TOML takes a key without quotes, and it isn't long. Such a key can be quoted in a line.
fn is_bare(key: &str) -> bool
    ensures { result ≡ is_bare_lem key.now }
{
    let bytes = key.as_bytes();
    if bytes.is_empty() || bytes.len() > 32 {
        return false;
    }
    are_bare_chars(bytes)
}

/// Returns the names of rows.
fn names_of(alloc: Global, keys: &[Key]) -> Result<Items<&'static str>, NoMemory>
    ensures { IfOk result (λ names. map (λ name. name.now) names ≡ names_of_lem keys.now) }
{
    let mut names = Items::new(alloc);
    for key in keys {
        names.push(key.name())?;
    }
    Ok(names)
}

/// Returns whether a key can be quoted in a line, and is so near to a name that the name may be meant.
fn may_mean(alloc: Global, key: &str, name: &str) -> Result<bool, NoMemory>
    ensures { IfOk result (λ may. may ≡ (is_bare_lem key.now && is_near_lem key.now name.now)) }
{
    if !is_bare(key) {
        return Ok(false);
    }
    Ok(is_near(alloc, key, name)?)
}

/// Adds that no key is called so.
fn push_no_key(text: &mut String, key: &str) -> Result<(), NoMemory>
    ensures { OnOk result (string_bytes text.new ≡ string_bytes text.old ++ (codes "; no key is called " ++ key.now)) }
{
    text.push_str("; no key is called ")?;
    push_words(text, key)
}

/// Adds a key that nothing has, if a missing one may be meant by it.
fn push_misspelt(alloc: Global, text: &mut String, key: &str, name: &str) -> Result<(), NoMemory>
    ensures { OnOk result (string_bytes text.new ≡ string_bytes text.old ++ instead_words (Some key.now) name.now) }
{
    if may_mean(alloc, key, name)? {
        return push_no_key(text, key);
    }
    Ok(())
}

/// Adds the misspelt key that stands in place of a missing one, if there is such a key.
pub(crate) fn push_instead(
    alloc: Global,
    text: &mut String,
    stray: Option<&str>,
    name: &str,
) -> Result<(), NoMemory>
    ensures { OnOk result (string_bytes text.new ≡ string_bytes text.old ++ instead_words (option_map (λ key. key.now) stray.entry) name.now) }
{
    match stray {
        Some(key) => push_misspelt(alloc, text, key, name),
        None => Ok(()),
    }
}

/// Adds the name that may be meant.
pub(crate) fn push_question(text: &mut String, name: &str) -> Result<(), NoMemory>
    ensures { OnOk result (string_bytes text.new ≡ string_bytes text.old ++ (codes "; did you mean " ++ name.now ++ codes "?")) }
{
    text.push_str("; did you mean ")?;
    text.push_str(name)?;
    push_words(text, "?")
}

/// Adds all names of keys.
fn push_names(text: &mut String, names: &[&str]) -> Result<(), NoMemory>
    ensures { OnOk result (string_bytes text.new ≡ string_bytes text.old ++ (codes "; the keys are" ++ listed (map (λ name. name.now) names.now))) }
{
    text.push_str("; the keys are")?;
    push_listed(text, names)
}

/// Adds the name that may be meant, or all names.
fn push_known(text: &mut String, near: Option<&str>, names: &[&str]) -> Result<(), NoMemory>
    ensures { OnOk result (string_bytes text.new
        ≡ string_bytes text.old ++ known_words (option_map (λ name. name.now) near.entry) (map (λ name. name.now) names.now)) }
{
    match near {
        Some(name) => push_question(text, name),
        None => push_names(text, names),
    }
}

/// Adds the hint for a key that is none of these.
fn push_unlisted(
    alloc: Global,
    text: &mut String,
    key: &str,
    names: &[&str],
) -> Result<(), NoMemory>
    ensures { OnOk result (string_bytes text.new ≡ string_bytes text.old ++ stray_words key.now (map (λ name. name.now) names.now)) }
{
    if !is_bare(key) {
        text.push_str("no key here is called so")?;
        return push_known(text, None, names);
    }
    let near = nearest(alloc, names, key)?;
    text.push_str("no key here is called ")?;
    text.push_str(key)?;
    push_known(text, near, names)
}

/// Adds the hint for a key that none of these rows has.
pub(crate) fn push_stray(
    alloc: Global,
    text: &mut String,
    key: &str,
    keys: &[Key],
) -> Result<(), NoMemory>
    ensures { OnOk result (string_bytes text.new ≡ string_bytes text.old ++ stray_words key.now (names_of_lem keys.now)) }
{
    let names = names_of(alloc, keys)?;
    push_unlisted(alloc, text, key, &names)
}
