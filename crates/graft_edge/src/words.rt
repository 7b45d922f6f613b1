//! The words of a command.

ghost use Rattle.std.specs.Prelude.{◌≡◌, ◌<◌, ◌↔◌, ◌++◌, ◌∷◌, [], length, IsTrue, OnOk, OnErr, slice_get, Some};

use crate::items::Items;
use crate::memory::NoMemory;
use crate::name::Name;
use std::alloc::Global;
use std::marker::Model;

/// The words of a command, in order. Contracts see the list of their bytes.
#[derive(Debug, Drop)]
pub struct Words {
    words: Items<Name>,
    alloc: Global,
}

impl Model for Words {
    ghost use Rattle.std.specs.Prelude.{ℕ, List};

    ghost Value = { List (List ℕ) };

    ghost view = { λ words. words.words };
}

impl Words {
    /// Returns a list of no words.
    pub fn new(alloc: Global) -> Words
        ensures { result ≡ [] }
    {
        Words {
            words: Items::new(alloc),
            alloc,
        }
    }

    /// Adds a word at the end. If memory runs out, nothing changes.
    pub fn push(&mut self, word: &str) -> Result<(), NoMemory>
        ensures ok { OnOk result (self.new ≡ self.old ++ word.now ∷ []) }
        ensures err { OnErr result (self.new ≡ self.old) }
    {
        let word = Name::from_text(self.alloc, word)?;
        self.words.push(word)
    }

    /// Returns the number of words.
    pub fn len(&self) -> usize
        ensures { result ≡ length self.now }
    {
        self.words.len()
    }

    /// Whether there are no words.
    pub fn is_empty(&self) -> bool
        ensures { IsTrue result ↔ (self.now ≡ []) }
    {
        self.words.is_empty()
    }

    /// Returns the word at index `k`, counted from 0, which has to be below `len()`.
    pub fn get(&self, k: usize) -> &str
        requires { k < length self.now }
        ensures { slice_get self.now k ≡ Some result.now }
    {
        self.words[k].as_str()
    }
}
