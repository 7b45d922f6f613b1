//! The flaws of values.

ghost use Rattle.std.specs.Prelude.{◌≡◌, ℕ, List, Bool, IsTrue, is_some, map};
ghost use Rattle.toml.specs.View.{view};
ghost use Rattle.lab_keys.specs.Spots.{spot_of, member_of};
ghost use Rattle.lab_keys.specs.Texts.{is_hex as is_hex_lem};
ghost use Rattle.lab_keys.specs.Kinds.{beyond as beyond_lem, number_flaw as number_flaw_lem, hold_time_flaw as hold_time_flaw_lem};
ghost use Rattle.lab_keys.specs.Kinds.{hex_flaw as hex_flaw_lem, flag_flaw as flag_flaw_lem, kind_flaw as kind_flaw_lem};
ghost use Rattle.lab_keys.specs.Kinds.{flaw_if as flaw_if_lem, text_flaw as text_flaw_lem, is_formed as is_formed_lem, each_from};
ghost use Rattle.lab_keys.specs.Kinds.{any_table_flaw as any_table_flaw_lem};

use crate::flaw::Flaw;
use crate::key::Kind;
use crate::reported::{is_best, is_outcome, state_in};
use crate::spot::Spot;
use crate::table_at::TableAt;
use crate::texts::{address_in, host_in, is_hex, is_name, prefix_in};
use crate::words::{fault_kind_in, origin_in, step_word_in, way_in};
use toml::Value;

/// Returns the flaw of a number or a count that is beyond its limits.
pub fn beyond<'a>(at: Spot<'a>, low: u64, high: u64, n: u64) -> Option<Flaw<'a>>
    ensures { result ≡ beyond_lem at.entry low high n }
{
    if n < low || n > high {
        return Some(Flaw::Limit(at, n));
    }
    None
}

/// Returns the flaw if the test is true.
pub fn flaw_if<'a>(test: bool, flaw: Flaw<'a>) -> Option<Flaw<'a>>
    ensures { result ≡ flaw_if_lem test flaw.entry }
{
    if test { Some(flaw) } else { None }
}

fn number_flaw<'a>(at: Spot<'a>, low: u32, high: u32, value: &Value) -> Option<Flaw<'a>>
    ensures { result ≡ number_flaw_lem at.entry low high (view value.now) }
{
    match value {
        Value::Integer(n) => {
            if *n < 0 {
                Some(Flaw::Limit(at, 0))
            } else {
                beyond(at, low as u64, high as u64, *n as u64)
            }
        }
        _ => Some(Flaw::Shape(at)),
    }
}

fn hold_time_flaw<'a>(at: Spot<'a>, value: &Value) -> Option<Flaw<'a>>
    ensures { result ≡ hold_time_flaw_lem at.entry (view value.now) }
{
    match value {
        Value::Integer(n) => {
            if *n < 0 {
                Some(Flaw::Limit(at, 0))
            } else if *n == 1 || *n == 2 || *n > i64::from(u16::MAX) {
                Some(Flaw::Limit(at, *n as u64))
            } else {
                None
            }
        }
        _ => Some(Flaw::Shape(at)),
    }
}

fn flag_flaw<'a>(at: Spot<'a>, value: &Value) -> Option<Flaw<'a>>
    ensures { result ≡ flag_flaw_lem at.entry (view value.now) }
{
    match value {
        Value::Boolean(_) => None,
        _ => Some(Flaw::Shape(at)),
    }
}

fn any_table_flaw<'a>(at: Spot<'a>, value: &Value) -> Option<Flaw<'a>>
    ensures { result ≡ any_table_flaw_lem at.entry (view value.now) }
{
    match value {
        Value::Table(_) => None,
        _ => Some(Flaw::Shape(at)),
    }
}

fn hex_flaw<'a>(at: Spot<'a>, low: usize, high: usize, value: &Value) -> Option<Flaw<'a>>
    ensures { result ≡ hex_flaw_lem at.entry low high (view value.now) }
{
    let Some(text) = value.as_str() else {
        return Some(Flaw::Shape(at));
    };
    if !is_hex(text) {
        return Some(Flaw::Shape(at));
    }
    beyond(at, low as u64, high as u64, (text.len() / 2) as u64)
}

/// Returns whether a text has the form of a kind of texts.
fn is_formed(kind: Kind, text: &str) -> bool
    ensures { result ≡ is_formed_lem kind text.now }
{
    match kind {
        Kind::Name => is_name(text),
        Kind::Host => host_in(text).is_some(),
        Kind::Address => address_in(text).is_some(),
        Kind::Prefix => prefix_in(text).is_some(),
        Kind::Origin => origin_in(text).is_some(),
        Kind::Way => way_in(text).is_some(),
        Kind::FaultKind => fault_kind_in(text).is_some(),
        Kind::StepWord => step_word_in(text).is_some(),
        Kind::State => state_in(text).is_some(),
        Kind::Outcome => is_outcome(text),
        Kind::Best => is_best(text),
        _ => false,
    }
}

fn text_flaw<'a>(at: Spot<'a>, kind: Kind, value: &Value) -> Option<Flaw<'a>>
    ensures { result ≡ text_flaw_lem at.entry (is_formed_lem kind) (view value.now) }
{
    let Some(text) = value.as_str() else {
        return Some(Flaw::Shape(at));
    };
    flaw_if(!is_formed(kind, text), Flaw::Shape(at))
}

/// Returns the first flaw of a value of a kind.
pub fn kind_flaw<'a>(kind: Kind, at: Spot<'a>, value: &Value) -> Option<Flaw<'a>>
    ensures { result ≡ kind_flaw_lem kind at.entry (view value.now) }
{
    match kind {
        Kind::Number { low, high } => number_flaw(at, low, high, value),
        Kind::HoldTime => hold_time_flaw(at, value),
        Kind::Flag => flag_flaw(at, value),
        Kind::Hex { low, high } => hex_flaw(at, low, high, value),
        Kind::Table => any_table_flaw(at, value),
        Kind::Misplaced => Some(Flaw::Shape(at)),
        _ => text_flaw(at, kind, value),
    }
}

/// Returns the first flaw of the members of an array.
pub fn members_flaw<'a>(kind: Kind, at: TableAt, key: &'a str, values: &[Value]) -> Option<Flaw<'a>>
    ensures { result ≡ each_from (λ i. kind_flaw_lem kind (member_of (spot_of at key.now) i)) 0 (map view values.now) }
{
    for (i, value) in values.iter().enumerate() {
        if let Some(flaw) = kind_flaw(kind, Spot::of(at, key).member(i), value) {
            return Some(flaw);
        }
    }
    None
}
