//! Where a value is in an input.

ghost use Rattle.std.specs.Prelude.{◌≡◌};
ghost use Rattle.lab_keys.specs.Spots.{spot_of as spot_of_lem, member_of as member_of_lem};

use crate::table_at::TableAt;
use std::marker::Model;

/// A spot in an input: a key of a table and, for a member of the array at that key, its index.
#[derive(Debug, Drop)]
pub struct Spot<'a> {
    table: TableAt,
    key: &'a str,
    member: Option<usize>,
}

impl<'a> Model for Spot<'a> {
    ghost use Rattle.lab_keys.specs.Spots.{KeySpot};

    ghost Value = { KeySpot };

    ghost view = { λ s. record { table = s.table; key = s.key.now; member = s.member } };
}

impl<'a> Spot<'a> {
    /// Returns the spot of a key of a table.
    pub fn of(table: TableAt, key: &'a str) -> Spot<'a>
        ensures { result ≡ spot_of_lem table key.now }
    {
        Spot {
            table,
            key,
            member: None,
        }
    }

    /// Returns the spot of member `i` of the array there.
    pub fn member(self, i: usize) -> Spot<'a>
        ensures { result ≡ member_of_lem self.entry i }
    {
        Spot {
            table: self.table,
            key: self.key,
            member: Some(i),
        }
    }

    /// Returns the table, the key, and the index in the array.
    pub fn into_parts(self) -> (TableAt, &'a str, Option<usize>)
        ensures table { result.0 ≡ self.entry.table }
        ensures key { result.1.now ≡ self.entry.key }
        ensures member { result.2 ≡ self.entry.member }
    {
        (self.table, self.key, self.member)
    }
}
