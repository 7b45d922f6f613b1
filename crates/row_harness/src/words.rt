//! The words of a call.

ghost use Rattle.std.specs.Prelude.{◌≡◌, [], MatchOption, slice_get};

use anyhow::Result;
use std::alloc::{AllocError, Global};

/// Returns the words of a call: what stands between single spaces. An empty call has none.
pub fn words_of(alloc: Global, call: &str) -> Result<Vec<&str>, AllocError> {
    if call.is_empty() {
        return Ok(Vec::new(alloc));
    }
    call.split(' ').collect(alloc)
}

/// Returns the word at an index in a call; empty past its end.
pub fn word<'a>(words: &[&'a str], index: usize) -> &'a str
    ensures { MatchOption (slice_get words.now index) (result.now ≡ []) (λ word. result.now ≡ word.now) }
{
    words.get(index).copied().unwrap_or("")
}

/// Returns the number at an index in a call.
pub fn number(words: &[&str], index: usize) -> Result<u32> {
    Ok(word(words, index).parse::<u32>()?)
}

/// Returns the one-octet number at an index in a call.
pub fn small(words: &[&str], index: usize) -> Result<u8> {
    Ok(word(words, index).parse::<u8>()?)
}

/// Returns the word after a key, if the call has the key.
pub fn value<'a>(words: &[&'a str], key: &str) -> Option<&'a str> {
    let index = words.iter().position(|word| *word == key)?;
    words.get(index.saturating_add(1)).copied()
}
