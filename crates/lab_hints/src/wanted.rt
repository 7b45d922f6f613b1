//! What may stand at a key, in words.

ghost use Rattle.std.specs.Prelude.{◌≡◌, ◌++◌, OnOk, string_bytes, map, codes};
ghost use Rattle.lab_hints.specs.Wanted.{spaced, listed, range_words, name_words, misplaced_words, kind_words, heading_front};
ghost use Rattle.lab_hints.specs.Wanted.{members_words, wanted_words};

use bgp_types::NoMemory;
use lab_keys::{Key, Kind, TableAt};
use std::fmt::Write;

/// Adds words.
pub(crate) fn push_words(text: &mut String, words: &str) -> Result<(), NoMemory>
    ensures { OnOk result (string_bytes text.new ≡ string_bytes text.old ++ words.now) }
{
    Ok(text.push_str(words)?)
}

/// Adds what a name is.
pub(crate) fn push_name_form(text: &mut String) -> Result<(), NoMemory>
    ensures { OnOk result (string_bytes text.new ≡ string_bytes text.old ++ name_words) }
{
    push_words(
        text,
        "a string of 1 to 16 characters, a to z, 0 to 9 or -, the first one a letter",
    )
}

/// Adds a word behind a space.
fn push_spaced(text: &mut String, word: &str) -> Result<(), NoMemory>
    ensures { OnOk result (string_bytes text.new ≡ string_bytes text.old ++ spaced word.now) }
{
    text.push_str(" ")?;
    text.push_str(word)?;
    Ok(())
}

/// Adds words, each behind a space.
pub(crate) fn push_listed(text: &mut String, words: &[&str]) -> Result<(), NoMemory>
    ensures { OnOk result (string_bytes text.new ≡ string_bytes text.old ++ listed (map (λ word. word.now) words.now)) }
{
    for word in words {
        push_spaced(text, *word)?;
    }
    Ok(())
}

/// Adds that a string is one of these.
fn push_choice(text: &mut String, words: &[&str]) -> Result<(), NoMemory>
    ensures { OnOk result (string_bytes text.new ≡ string_bytes text.old ++ (codes "a string, one of" ++ listed (map (λ word. word.now) words.now))) }
{
    text.push_str("a string, one of")?;
    push_listed(text, words)
}

/// Adds the limits of an integer.
fn push_integer(text: &mut String, low: u32, high: u32) -> Result<(), NoMemory>
    ensures { OnOk result (string_bytes text.new ≡ string_bytes text.old ++ (codes "an integer from " ++ range_words low high)) }
{
    write!(text, "an integer from {low} to {high}")?;
    Ok(())
}

/// Adds the limits of a number of octets.
fn push_octets(text: &mut String, low: usize, high: usize) -> Result<(), NoMemory>
    ensures { OnOk result (string_bytes text.new
        ≡ string_bytes text.old ++ (codes "a string with " ++ range_words low high ++ codes " octets, two hexadecimal digits each")) }
{
    write!(
        text,
        "a string with {low} to {high} octets, two hexadecimal digits each"
    )?;
    Ok(())
}

/// Adds beside what a key may stand that stands only beside certain others.
fn push_misplaced(text: &mut String, key: &str) -> Result<(), NoMemory>
    ensures { OnOk result (string_bytes text.new ≡ string_bytes text.old ++ misplaced_words key.now) }
{
    if key == "after" {
        return push_words(text, "only for the kinds repeat, hold and stray");
    }
    push_words(text, "only for a rule with a prefix")
}

/// Adds what a value of a kind is, at this key.
fn push_kind(text: &mut String, key: &str, kind: Kind) -> Result<(), NoMemory>
    ensures { OnOk result (string_bytes text.new ≡ string_bytes text.old ++ kind_words key.now kind) }
{
    match kind {
        Kind::Number { low, high } => push_integer(text, low, high),
        Kind::HoldTime => push_words(text, "a number of seconds, 0 or from 3 to 65535"),
        Kind::Name => push_name_form(text),
        Kind::Host => push_words(text, "a string with the address of a host, like 192.0.2.1"),
        Kind::Address => push_words(text, "a string with an IPv4 address, like 192.0.2.1"),
        Kind::Prefix => push_words(text, "a string with an IPv4 prefix, like 192.0.2.0/24"),
        Kind::Flag => push_words(text, "true or false"),
        Kind::Origin => push_choice(text, &["igp", "egp", "incomplete"]),
        Kind::Way => push_choice(text, &["home", "remote"]),
        Kind::FaultKind => push_choice(text, &["lose", "repeat", "hold", "stray"]),
        Kind::StepWord => push_choice(
            text,
            &["announce", "withdraw", "raw", "graft", "settle", "evacuate"],
        ),
        Kind::State => push_choice(text, &["OpenSent", "OpenConfirm", "Established", "Closed"]),
        Kind::Outcome => push_words(
            text,
            "a string, accepted, or refused and a reason as the report writes it, like refused RouterFull(4)",
        ),
        Kind::Best => push_words(
            text,
            "a string, none, own, or peering or router and a name, like peering c1",
        ),
        Kind::Hex { low, high } => push_octets(text, low, high),
        Kind::Table => push_words(text, "a table"),
        Kind::Misplaced => push_misplaced(text, key),
    }
}

/// Returns the arrays around the tables of an array, as they stand in front of its key in a heading.
fn heading_front(at: TableAt) -> &'static str
    ensures { result.now ≡ heading_front at }
{
    match at {
        TableAt::Router(_) => "router.",
        TableAt::Policy(_, _) => "router.policy.",
        _ => "",
    }
}

/// Adds how the heading of tables is.
fn push_tables(text: &mut String, at: TableAt, key: &str) -> Result<(), NoMemory>
    ensures { OnOk result (string_bytes text.new
        ≡ string_bytes text.old ++ (codes "tables, each under [[" ++ heading_front at ++ key.now ++ codes "]]")) }
{
    text.push_str("tables, each under [[")?;
    text.push_str(heading_front(at))?;
    text.push_str(key)?;
    text.push_str("]]")?;
    Ok(())
}

/// Adds what values are.
fn push_values(text: &mut String, key: &str, kind: Kind) -> Result<(), NoMemory>
    ensures { OnOk result (string_bytes text.new ≡ string_bytes text.old ++ (codes "values, each " ++ kind_words key.now kind)) }
{
    text.push_str("values, each ")?;
    push_kind(text, key, kind)
}

/// Adds what the members of an array are.
fn push_members(text: &mut String, at: TableAt, key: &str, kind: Kind) -> Result<(), NoMemory>
    ensures { OnOk result (string_bytes text.new ≡ string_bytes text.old ++ members_words at key.now kind) }
{
    match kind {
        Kind::Table => push_tables(text, at, key),
        _ => push_values(text, key, kind),
    }
}

/// Adds what an array is.
fn push_array(
    text: &mut String,
    at: TableAt,
    key: &str,
    kind: Kind,
    low: usize,
    high: usize,
) -> Result<(), NoMemory>
    ensures { OnOk result (string_bytes text.new
        ≡ string_bytes text.old ++ (codes "an array of " ++ range_words low high ++ codes " " ++ members_words at key.now kind)) }
{
    write!(text, "an array of {low} to {high} ")?;
    push_members(text, at, key, kind)
}

/// Adds what is wanted at the key of a row.
pub(crate) fn push_wanted(text: &mut String, at: TableAt, row: &Key) -> Result<(), NoMemory>
    ensures { OnOk result (string_bytes text.new ≡ string_bytes text.old ++ wanted_words at row.now) }
{
    match row.counts() {
        None => push_kind(text, row.name(), row.kind()),
        Some(counts) => push_array(text, at, row.name(), row.kind(), counts.low, counts.high),
    }
}
