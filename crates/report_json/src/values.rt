//! JSON values by their parts, and the line of one.

ghost use Rattle.std.specs.Prelude.{◌≡◌, [], ◌∷◌, ◌++◌, false, map, option_map, IfOk, OnOk, string_bytes};
ghost use Rattle.serde_json.specs.Data.{string, put as with_member};
ghost use Rattle.serde_json.specs.View.{view, members_view};
ghost use Rattle.serde_json.specs.Written.{has_float};
ghost use Rattle.bgp_types.specs.Texts.{address_text, prefix_text};
ghost use Rattle.report_json.specs.Values.{count_or_null as count_or_null_lem, text_or_null as text_or_null_lem, json_line as json_line_lem};

use bgp_types::{Address, Prefix};
use graft_edge::{Items, NoMemory, Octets};
use serde_json::{Map, Value, put};
use std::alloc::Global;
use std::fmt::Write;

/// Sets a member of an object to a text.
pub fn put_text(
    map: &mut Map<String, Value>,
    alloc: Global,
    name: &str,
    text: &str,
) -> Result<(), NoMemory>
    ensures { OnOk result (members_view map.new.entries ≡ with_member name.now (string text.now) (members_view map.old.entries)) }
{
    let value = Value::try_from_str(alloc, text)?;
    Ok(put(map, alloc, name, value)?)
}

/// Adds a value to a list.
pub fn push_value(list: &mut Vec<Value>, value: Value) -> Result<(), NoMemory>
    ensures { OnOk result (map view list.new.items ≡ map view list.old.items ++ view value ∷ []) }
{
    list.push(value)?;
    Ok(())
}

/// The text of a prefix.
pub(crate) fn prefix_string(alloc: Global, prefix: Prefix) -> Result<String, NoMemory>
    ensures { IfOk result (λ s. string_bytes s ≡ prefix_text prefix) }
{
    let mut text = String::new(alloc);
    write!(text, "{prefix}")?;
    Ok(text)
}

/// The text of an address.
pub(crate) fn address_string(alloc: Global, address: u32) -> Result<String, NoMemory>
    ensures { IfOk result (λ s. string_bytes s ≡ address_text address) }
{
    let address = Address(address);
    let mut text = String::new(alloc);
    write!(text, "{address}")?;
    Ok(text)
}

/// Returns a prefix.
pub fn prefix_value(alloc: Global, prefix: Prefix) -> Result<Value, NoMemory>
    ensures { IfOk result (λ v. view v ≡ string (prefix_text prefix)) }
{
    Ok(Value::from(prefix_string(alloc, prefix)?))
}

/// Returns an address.
pub fn address_value(alloc: Global, address: u32) -> Result<Value, NoMemory>
    ensures { IfOk result (λ v. view v ≡ string (address_text address)) }
{
    Ok(Value::from(address_string(alloc, address)?))
}

/// Returns a number, or null.
pub fn count_or_null(number: Option<u32>) -> Value
    ensures { view result ≡ count_or_null_lem number }
{
    match number {
        Some(number) => Value::from(number),
        None => Value::Null,
    }
}

/// Returns a text, or null.
pub fn text_or_null(alloc: Global, text: Option<&str>) -> Result<Value, NoMemory>
    ensures { IfOk result (λ v. view v ≡ text_or_null_lem (option_map (λ t. t.now) text.entry)) }
{
    match text {
        Some(text) => Ok(Value::try_from_str(alloc, text)?),
        None => Ok(Value::Null),
    }
}

/// Returns the text of a value without floats, with no space, and a newline behind it.
pub fn json_line(alloc: Global, value: &Value) -> Result<Octets, NoMemory>
    requires { has_float (view value.now) ≡ false }
    ensures { IfOk result (λ text. text ≡ json_line_lem (view value.now)) }
{
    let mut text = value.to_string(alloc)?;
    text.push_str("\n")?;
    Ok(Items::from_vec(text.into_bytes()))
}
