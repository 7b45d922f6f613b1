//! Names by index in a list.

ghost use Rattle.std.specs.Prelude.{◌≡◌, IfOk};
ghost use Rattle.std.specs.List.{list_any, position};
ghost use Rattle.std.specs.Str.{bytes_eq};
ghost use Rattle.lab_tables.specs.Meanings.{index_of_name};

use bgp_types::{Items, Name, NoMemory};
use std::marker::Model;

/// A list of names, each of which stands for its index.
#[derive(Drop)]
pub struct NameIndex {
    names: Items<Name>,
}

impl Model for NameIndex {
    ghost use Rattle.std.specs.Prelude.{ℕ, List, length, ◌<◌};

    ghost Value = { List (List ℕ) };

    ghost view = { λ p. p.names };

    ghost invariant = { λ p. length p.names < 256 };
}

/// Returns whether a text is this name.
fn is_name_of(text: &str, name: &Name) -> bool
    ensures { result ≡ bytes_eq text.now name.now }
{
    text == name.as_str()
}

/// Returns the index of the first of these names that equals a text.
fn index_in(text: &str, names: &[Name]) -> Option<usize>
    ensures { result ≡ position (bytes_eq text.now) names.now }
{
    names.iter().position(|name| is_name_of(text, name))
}

impl NameIndex {
    /// Returns a list of these names. More than 255 of them are refused with `NoMemory`; no input that meets the rules
    /// has more than 255.
    pub fn of(names: Items<Name>) -> Result<NameIndex, NoMemory>
        ensures { IfOk result (λ index. index ≡ names) }
    {
        if names.len() > 255 {
            return Err(NoMemory);
        }
        Ok(NameIndex { names })
    }

    /// Returns whether the list has this name.
    pub fn has(&self, text: &str) -> bool
        ensures { result ≡ list_any (bytes_eq text.now) self.now }
    {
        self.names.iter().any(|name| is_name_of(text, name))
    }

    /// Returns the index of a name, or 0 if there is no such name.
    pub fn number_of(&self, text: &str) -> u8
        ensures { result ≡ index_of_name self.now text.now }
    {
        match index_in(text, &self.names) {
            Some(index) => index as u8,
            None => 0,
        }
    }
}
