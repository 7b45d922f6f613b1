//! A list over a `Vec`, which contracts see as a list.

ghost use Rattle.std.specs.Prelude.{◌≡◌, ◌≤◌, ◌↔◌, [], ◌∷◌, ◌++◌, length, IsTrue, OnOk, OnErr, IfOk};

use crate::memory::{NoMemory, TryCopy};
use std::alloc::Global;
use std::marker::Model;
use std::ops::DerefSlice;
use std::slice;

/// A list of values, which is read as a slice: `items[k]`, `items.get(k)`, `items.iter()`, `&items[a..b]`,
/// `for item in &items`.
///
/// In an invariant of a loop `for x in items.iter()` the values so far are `take l.x-index l.items`, as
/// for a slice. In one of `for x in &items` they are `map (λ x. x.now) l.yielded`.
#[derive(Debug, Drop)]
pub struct Items<T> {
    vec: Vec<T>,
}

/// A list of octets.
pub type Octets = Items<u8>;

impl<T> Model for Items<T> {
    ghost use Rattle.std.specs.Prelude.{List};

    ghost Value = { List T };

    ghost view = { λ list. list.vec.items };
}

impl<T> Items<T> {
    /// Returns an empty list.
    pub fn new(alloc: Global) -> Items<T>
        ensures { result ≡ [] }
    {
        Items {
            vec: Vec::new(alloc),
        }
    }

    /// Returns the list of a vector's values. It allocates nothing.
    pub fn from_vec(vec: Vec<T>) -> Items<T>
        ensures { result ≡ vec.items }
    {
        Items { vec }
    }

    /// Returns the vector of the values. It allocates nothing.
    pub fn into_vec(self) -> Vec<T>
        ensures { result.items ≡ self }
    {
        let Items { vec } = self;
        vec
    }

    /// Returns its values as a slice.
    pub fn as_slice(&self) -> &[T]
        ensures { result.now ≡ self.now }
    {
        self.vec.as_slice()
    }

    /// Returns the number of values.
    pub fn len(&self) -> usize
        ensures { result ≡ length self.now }
    {
        self.vec.len()
    }

    /// Whether there are no values.
    pub fn is_empty(&self) -> bool
        ensures { IsTrue result ↔ (self.now ≡ []) }
    {
        self.vec.is_empty()
    }
}

impl<T> DerefSlice for Items<T> {
    type Elem = T;

    ghost deref_gives = { λ list values. values ≡ list };

    fn deref(&self) -> &[T] {
        self.as_slice()
    }
}

impl<'a, T> IntoIterator for &'a Items<T> {
    ghost use Rattle.std.specs.Prelude.{◌<◌, ◌^◌};
    ghost use Rattle.std.specs.Iterator.Runs.{EveryRun, ItemsMapTo};
    ghost use Rattle.std.specs.Slice.Iter.{iter_rest, iter_steps};

    type Item = &'a T;

    type IntoIter = slice::Iter<'a, T>;

    ghost into_iter_gives = { λ list it. (iter_rest it ≡ list.now) × (length (iter_rest it) < 2 ^ 64)
        × EveryRun (iter_steps {A = T}) (λ p. ItemsMapTo p (λ x. x.now) (iter_rest p.from)) };

    fn into_iter(self) -> slice::Iter<'a, T> {
        self.as_slice().iter()
    }
}

impl<T: PartialEq> PartialEq for Items<T> {
    ghost use Rattle.std.specs.Cmp.{on_per};
    ghost use Rattle.std.specs.Cmp.Lexicographic.{pointwise, lists_per};

    ghost eq = { pointwise T.eq };

    ghost laws = { lists_per T.laws };

    fn eq(&self, other: &Items<T>) -> bool {
        self.vec == other.vec
    }
}

impl<T: Eq> Eq for Items<T> {
    ghost use Rattle.std.specs.Cmp.Lexicographic.{lists_equiv};

    ghost laws = { lists_equiv T.Eq.laws };
}

impl<T: Drop> Items<T> {
    /// Returns the list of one value.
    pub fn one(alloc: Global, value: T) -> Result<Items<T>, NoMemory>
        ensures { IfOk result (λ list. list ≡ value ∷ []) }
    {
        let mut list = Items::new(alloc);
        list.push(value)?;
        Ok(list)
    }

    /// Adds a value at the end. If memory runs out, nothing changes.
    pub fn push(&mut self, value: T) -> Result<(), NoMemory>
        ensures ok { OnOk result (self.new ≡ self.old ++ value ∷ []) }
        ensures err { OnErr result (self.new ≡ self.old) }
    {
        Ok(self.vec.push(value)?)
    }
}

impl<T: Copy> Items<T> {
    /// Returns a copy of a slice's values.
    pub fn from_slice(alloc: Global, values: &[T]) -> Result<Items<T>, NoMemory>
        ensures { IfOk result (λ list. list ≡ values.now) }
    {
        Ok(Items {
            vec: Vec::from_slice(alloc, values)?,
        })
    }

    /// Returns a copy with room for `more` further values, so that adding the first `more` takes no
    /// memory.
    pub fn with_room(&self, more: usize) -> Result<Items<T>, NoMemory>
        ensures { IfOk result (λ list. list ≡ self.now) }
    {
        let len = self.len().saturating_add(more);
        let mut vec = Vec::with_capacity(*self.vec.allocator(), len)?;
        vec.extend_from_slice(self.as_slice())?;
        Ok(Items { vec })
    }

    /// Adds a slice's values at the end. If memory runs out, nothing changes.
    pub fn extend(&mut self, values: &[T]) -> Result<(), NoMemory>
        ensures ok { OnOk result (self.new ≡ self.old ++ values.now) }
        ensures err { OnErr result (self.new ≡ self.old) }
    {
        Ok(self.vec.extend_from_slice(values)?)
    }
}

impl<T: TryCopy> TryCopy for Items<T> {
    fn copy(&self) -> Result<Items<T>, NoMemory> {
        let mut copy = Items::from_vec(Vec::with_capacity(*self.vec.allocator(), self.len())?);
        for value in self.iter() {
            copy.push(value.copy()?)?;
        }
        Ok(copy)
    }
}
