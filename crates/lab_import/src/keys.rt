//! Lines of a text in TOML.

ghost use Rattle.std.specs.Prelude.{◌≡◌, ◌++◌, OnOk, string_bytes};
ghost use Rattle.hex.specs.Hex.{encode_lower};
ghost use Rattle.bgp_types.specs.Texts.{address_text};
ghost use Rattle.lab_import.specs.Texts.{number_key, peering_name, text_key, flag_text as flag_text_lem, flag_key};

use bgp_types::Address;
use graft_edge::NoMemory;
use std::alloc::Global;
use std::fmt::Write;

/// Adds a key with a number.
#[tactic(auto, unfolding(crate::specs::Texts::number_key))]
pub(crate) fn push_number(text: &mut String, key: &str, number: u64) -> Result<(), NoMemory>
    ensures { OnOk result (string_bytes text.new ≡ string_bytes text.old ++ number_key key.now number) }
{
    write!(text, "{key} = {number}\n")?;
    Ok(())
}

/// Adds a key with a text in which nothing is to be escaped.
#[tactic(auto, unfolding(crate::specs::Texts::text_key))]
pub(crate) fn push_text(text: &mut String, key: &str, value: &str) -> Result<(), NoMemory>
    ensures { OnOk result (string_bytes text.new ≡ string_bytes text.old ++ text_key key.now value.now) }
{
    write!(text, "{key} = \"{value}\"\n")?;
    Ok(())
}

/// Adds a key with the name of a connection's peering.
#[tactic(auto, unfolding(crate::specs::Texts::text_key))]
pub(crate) fn push_peering_name(text: &mut String, key: &str, peer: usize) -> Result<(), NoMemory>
    ensures { OnOk result (string_bytes text.new ≡ string_bytes text.old ++ text_key key.now (peering_name peer)) }
{
    let number = (peer as u64).checked_add(1).ok_or(NoMemory)?;
    write!(text, "{key} = \"p{number}\"\n")?;
    Ok(())
}

/// Adds a key with an address.
#[tactic(auto, unfolding(crate::specs::Texts::text_key))]
pub(crate) fn push_address(text: &mut String, key: &str, address: u32) -> Result<(), NoMemory>
    ensures { OnOk result (string_bytes text.new ≡ string_bytes text.old ++ text_key key.now (address_text address)) }
{
    let address = Address(address);
    write!(text, "{key} = \"{address}\"\n")?;
    Ok(())
}

/// Adds a key with octets in hexadecimal.
pub(crate) fn push_octets(
    text: &mut String,
    alloc: Global,
    key: &str,
    octets: &[u8],
) -> Result<(), NoMemory>
    ensures { OnOk result (string_bytes text.new ≡ string_bytes text.old ++ text_key key.now (encode_lower octets.now)) }
{
    let digits = hex::encode(alloc, octets)?;
    push_text(text, key, digits.as_str())
}

/// Returns the text of a flag.
fn flag_text(flag: bool) -> &'static str
    ensures { result.now ≡ flag_text_lem flag }
{
    if flag { "true" } else { "false" }
}

/// Adds a key with a flag.
#[tactic(auto, unfolding(crate::specs::Texts::flag_key))]
pub(crate) fn push_flag(text: &mut String, key: &str, flag: bool) -> Result<(), NoMemory>
    ensures { OnOk result (string_bytes text.new ≡ string_bytes text.old ++ flag_key key.now flag) }
{
    let value = flag_text(flag);
    write!(text, "{key} = {value}\n")?;
    Ok(())
}
