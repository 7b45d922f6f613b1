//! A text of JSON that grows by its parts.

ghost use Rattle.std.specs.Prelude.{◌≡◌, [], ◌∷◌, ◌++◌, option_map, IfOk, OnOk};
ghost use Rattle.json.specs.Token.{begin_object, end_object, begin_array, end_array, key};
ghost use Rattle.serde_json.specs.Data.{Data, null, boolean, string};
ghost use Rattle.bgp_types.specs.Texts.{address_text, prefix_text};
ghost use Rattle.report_json.specs.Tokens.{with_value};
ghost use Rattle.report_json.specs.Values.{count, count_or_null, text_or_null, json_line};

use crate::values::{address_string, prefix_string};
use bgp_types::Prefix;
use graft_edge::{Items, NoMemory, Octets};
use json::Writer;
use std::alloc::Global;
use std::marker::Model;

/// A text of JSON that grows by its parts. It sets the commas and the colons. Who begins an object or a list ends it, and puts the members of an
/// object in rising order of their names.
#[derive(Drop)]
pub struct JsonText {
    out: Writer,
}

impl Model for JsonText {
    ghost use Rattle.std.specs.Prelude.{◌≡◌, [], List};
    ghost use Rattle.json.specs.Token.{Token, tokens_code};

    ghost Value = { List Token };

    ghost coded = { tokens_code };

    ghost view = { λ text. text.out.tokens };

    ghost invariant = { λ text. text.out.before ≡ [] };
}

impl JsonText {
    /// Returns an empty text.
    pub fn new(alloc: Global) -> JsonText
        ensures { result ≡ [] }
    {
        JsonText {
            out: Writer::new(Vec::new(alloc)),
        }
    }

    /// Begins an object.
    pub fn begin_object(&mut self) -> Result<(), NoMemory>
        ensures { OnOk result (self.new ≡ self.old ++ begin_object ∷ []) }
    {
        Ok(self.out.begin_object()?)
    }

    /// Ends an object.
    pub fn end_object(&mut self) -> Result<(), NoMemory>
        ensures { OnOk result (self.new ≡ self.old ++ end_object ∷ []) }
    {
        Ok(self.out.end_object()?)
    }

    /// Begins a list.
    pub fn begin_list(&mut self) -> Result<(), NoMemory>
        ensures { OnOk result (self.new ≡ self.old ++ begin_array ∷ []) }
    {
        Ok(self.out.begin_array()?)
    }

    /// Ends a list.
    pub fn end_list(&mut self) -> Result<(), NoMemory>
        ensures { OnOk result (self.new ≡ self.old ++ end_array ∷ []) }
    {
        Ok(self.out.end_array()?)
    }

    /// Adds the name of a member, whose value comes next.
    pub fn name(&mut self, name: &str) -> Result<(), NoMemory>
        ensures { OnOk result (self.new ≡ self.old ++ key name.now ∷ []) }
    {
        Ok(self.out.key(name)?)
    }

    /// Adds a text.
    pub fn text(&mut self, text: &str) -> Result<(), NoMemory>
        ensures { OnOk result (self.new ≡ with_value (string text.now) self.old) }
    {
        Ok(self.out.string(text)?)
    }

    /// Adds a number.
    pub fn number(&mut self, number: u64) -> Result<(), NoMemory>
        ensures { OnOk result (self.new ≡ with_value (count number) self.old) }
    {
        Ok(self.out.u64(number)?)
    }

    /// Adds true or false.
    pub fn truth(&mut self, truth: bool) -> Result<(), NoMemory>
        ensures { OnOk result (self.new ≡ with_value (boolean truth) self.old) }
    {
        Ok(self.out.boolean(truth)?)
    }

    /// Adds null.
    pub fn null(&mut self) -> Result<(), NoMemory>
        ensures { OnOk result (self.new ≡ with_value null self.old) }
    {
        Ok(self.out.null()?)
    }

    /// Returns the text of the one value that was added, and a newline behind it.
    pub fn into_line(self) -> Result<Octets, NoMemory>
        ensures { (value : Data) → self ≡ with_value value [] → IfOk result (λ text. text ≡ json_line value) }
    {
        let mut text = self.out.into_inner();
        text.push(b'\n')?;
        Ok(Items::from_vec(text))
    }
}

/// Adds a prefix.
pub fn write_prefix(out: &mut JsonText, alloc: Global, prefix: Prefix) -> Result<(), NoMemory>
    ensures { OnOk result (out.new ≡ with_value (string (prefix_text prefix)) out.old) }
{
    let text = prefix_string(alloc, prefix)?;
    out.text(text.as_str())
}

/// Adds an address.
pub fn write_address(out: &mut JsonText, alloc: Global, address: u32) -> Result<(), NoMemory>
    ensures { OnOk result (out.new ≡ with_value (string (address_text address)) out.old) }
{
    let text = address_string(alloc, address)?;
    out.text(text.as_str())
}

/// Adds a number, or null.
pub fn write_count_or_null(out: &mut JsonText, number: Option<u32>) -> Result<(), NoMemory>
    ensures { OnOk result (out.new ≡ with_value (count_or_null number) out.old) }
{
    match number {
        Some(number) => out.number(u64::from(number)),
        None => out.null(),
    }
}

/// Adds a text, or null.
pub fn write_text_or_null(out: &mut JsonText, text: Option<&str>) -> Result<(), NoMemory>
    ensures { OnOk result (out.new ≡ with_value (text_or_null (option_map (λ t. t.now) text.entry)) out.old) }
{
    match text {
        Some(text) => out.text(text),
        None => out.null(),
    }
}
