//! The MEDs of routes, by prefix and neighbour AS.

ghost use Rattle.std.specs.Prelude.{ℕ, ◌≡◌, [], ◌∷◌, OnOk};
ghost use Rattle.even_inputs.specs.Evenness.{med_of};
ghost use Rattle.lab_answers.specs.Noted.{own_med, KeepsFirstMeds, NotesMeds};

use bgp_types::{NoMemory, Prefix, Route, neighbour};
use std::alloc::Global;
use std::collections::HashMap;

/// Between which routes MEDs are compared: those to one prefix from one neighbour AS (RFC 4271, section 9.1.2.2 (c)).
#[derive(Clone, Copy, Debug, PartialEq, Eq, Hash)]
struct Between {
    prefix: Prefix,
    neighbour: u32,
}

/// The first MED of each prefix and neighbour AS among the routes that were noted, and whether each of them has the first one's. To
/// note a route takes the same time however many there were.
#[derive(Drop)]
pub(crate) struct Meds {
    first: HashMap<Between, u32>,
    even: bool,
}

impl Meds {
    /// No route is noted yet.
    pub fn new(alloc: Global) -> Meds
        ensures { KeepsFirstMeds [] result }
    {
        Meds {
            first: HashMap::new(alloc),
            even: true,
        }
    }

    /// Notes a route to a prefix from a neighbour AS with this MED.
    fn note(&mut self, prefix: Prefix, neighbour: u32, med: u32) -> Result<(), NoMemory>
        ensures { OnOk result (NotesMeds (record { prefix = prefix; neighbour = neighbour; med = med } ∷ []) self.old self.new) }
    {
        let between = Between { prefix, neighbour };
        if let Some(first) = self.first.get(&between) {
            self.even &= med == *first;
            return Ok(());
        }
        self.first.insert(between, med)?;
        Ok(())
    }

    /// Notes a network of a home router.
    pub fn note_own(&mut self, home_as: u32, prefix: Prefix) -> Result<(), NoMemory>
        ensures { OnOk result (NotesMeds (own_med home_as prefix ∷ []) self.old self.new) }
    {
        self.note(prefix, home_as, 0)
    }

    /// Notes a route. An absent MED is 0.
    pub fn note_route(
        &mut self,
        home_as: u32,
        prefix: Prefix,
        route: &Route,
    ) -> Result<(), NoMemory>
        ensures { OnOk result (NotesMeds (med_of home_as prefix route.now ∷ []) self.old self.new) }
    {
        let from = neighbour(&route.attrs.path, home_as);
        self.note(prefix, from, route.attrs.med.unwrap_or(0))
    }

    /// Whether all routes to one prefix from one neighbour AS that were noted have one MED.
    pub fn are_even(&self) -> bool
        ensures { result ≡ self.now.even }
    {
        self.even
    }
}
