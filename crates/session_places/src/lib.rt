//! Numbered places for values. Only a limited number of them may be taken at once.
#![tactic(auto)]

ghost use Rattle.std.specs.Prelude.{◌≡◌, ◌≤◌, ◌<◌, None, Some, IfOk, count_by, is_some, length, option_copied, replicate, slice_index_or};
ghost use Rattle.std.specs.Option.{option_copied_mut};
ghost use Rattle.std.specs.Borrow.{sem};
ghost use Rattle.session_places.specs.Places.{value_at, with_place, values_in};

use graft_edge::{Items, NoMemory};
use slab::Slab;
use std::alloc::Global;
use std::marker::Model;

/// Numbered places, each vacant or taken by a value. At most `room` of them are taken at once, and the
/// memory for `room` values is reserved when the places are created.
#[derive(Drop)]
pub struct Places<V> {
    /// The key of the value at each place.
    keys: Vec<Option<usize>>,
    values: Slab<V>,
    room: usize,
}

impl<V> Model for Places<V> {
    ghost use Rattle.session_places.specs.Places.{PlaceList, place_list_code};

    ghost Value = { PlaceList V };

    ghost coded = { place_list_code V.code };

    ghost use Rattle.session_places.specs.Keys.{place_list, AreSoundKeys};

    ghost view = { λ p. place_list p.values p.keys.items p.room };

    ghost invariant = { λ p. AreSoundKeys p.values p.keys.items p.room };
}

/// Returns the key at a place, if there is one.
fn key_at(keys: &[Option<usize>], n: usize) -> Option<usize>
    ensures { result ≡ slice_index_or keys.now n None }
{
    *keys.get(n)?
}

impl<V> Places<V> {
    ghost use Rattle.session_places.specs.Lends.{lends_place};

    /// Returns `count` vacant places. This is the only call that allocates memory for them.
    pub fn new(alloc: Global, count: usize, room: usize) -> Result<Places<V>, NoMemory>
        ensures places { IfOk result (λ made. made.places ≡ replicate count None) }
        ensures room { IfOk result (λ made. made.room ≡ room) }
    {
        Ok(Places {
            keys: vec![in alloc; None; count]?,
            values: Slab::with_capacity(alloc, room)?,
            room,
        })
    }

    /// Returns the number of places.
    pub fn len(&self) -> usize
        ensures { result ≡ length self.now.places }
    {
        self.keys.len()
    }

    /// Returns how many places may be taken at once.
    pub fn room(&self) -> usize
        ensures { result ≡ self.now.room }
    {
        self.room
    }

    /// Returns how many places are taken.
    pub fn taken(&self) -> usize
        ensures count { result ≡ count_by is_some self.now.places }
        ensures within_room { result ≤ self.now.room }
    {
        self.values.len()
    }

    /// Returns the value at a place, or `None` if the place is vacant or doesn't exist.
    pub fn get(&self, n: usize) -> Option<&V>
        ensures { option_copied result ≡ value_at self.now n }
    {
        let key = key_at(&self.keys, n)?;
        self.values.get(key)
    }

    /// Returns the value at a place, for writing. What is written stays at that place.
    pub fn get_mut(&mut self, n: usize) -> Option<&mut V>
        ensures* writes_back { sem 𝓛 (lends_place V.row self.entry n result) }
        ensures value { option_copied_mut result ≡ value_at self.old n }
    {
        let key = key_at(&self.keys, n)?;
        self.values.get_mut(key)
    }

    /// Removes and returns the value at a place, which is vacant then.
    pub fn remove(&mut self, n: usize) -> Option<V>
        ensures value { result ≡ value_at self.old n }
        ensures vacant { self.new ≡ with_place self.old n None }
    {
        let key = self.keys.get_mut(n)?.take()?;
        self.values.try_remove(key)
    }

    /// Puts a value into a vacant place, using the reserved memory. Fewer than `room` places may be
    /// taken.
    pub fn put(&mut self, n: usize, value: V)
        requires there { n < length self.old.places }
        requires vacant { value_at self.old n ≡ None }
        requires room { count_by is_some self.old.places < self.old.room }
        ensures { self.new ≡ with_place self.old n (Some value) }
    {
        self.keys[n] = Some(self.values.insert_reserved(value));
    }
}

impl<V: Drop> Places<V> {
    /// Returns the values in the order of their places. If memory runs out, the places are lost.
    pub fn into_values(mut self, alloc: Global) -> Result<Items<V>, NoMemory>
        ensures { IfOk result (λ values. values ≡ values_in self) }
    {
        let mut values = Items::new(alloc);
        for n in 0..self.len() {
            if let Some(value) = self.remove(n) {
                values.push(value)?;
            }
        }
        Ok(values)
    }
}

/// Requires of a type that its values may be sent to another thread.
fn goes_to_threads<T: Send>() {}

/// Places may be sent to another thread if their values may.
pub fn places_go_to_threads<V: Send>() {
    goes_to_threads::<Places<V>>()
}
