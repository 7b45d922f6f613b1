//! The routes that a session's remote announces, as they are and as routers let them in.

ghost use Rattle.std.specs.Prelude.{◌≡◌, [], IfOk, OnOk, option_map};
ghost use Rattle.std.specs.List.{cons_option, filter_map, flat_map};
ghost use Rattle.even_inputs.specs.Announced.{announced_by};
ghost use Rattle.even_inputs.specs.Evenness.{med_of, announced_route};
ghost use Rattle.lab_answers.specs.Imports.{let_in_by, meds_of_route, meds_of};
ghost use Rattle.lab_answers.specs.Noted.{NotesMeds};

use crate::meds::Meds;
use bgp_types::{Attrs, Items, NoMemory, Prefix, Route, SharedAttrs, TryCopy, Update};
use route_policy::{PREFERENCE, Policy};
/// How routes of a session are let in: the policies of its name that routers have, and the AS numbers of both sides.
#[derive(Drop)]
pub(crate) struct Imports {
    pub home_as: u32,
    pub remote_as: u32,
    pub policies: Items<Policy>,
}

/// An announced route.
fn announced(attrs: &Attrs) -> Result<Route, NoMemory>
    ensures { IfOk result (λ route. route ≡ announced_route attrs.now) }
{
    Ok(Route {
        attrs: SharedAttrs::new(attrs.copy()?)?,
        pref: PREFERENCE,
    })
}

impl Imports {
    /// Notes what a policy lets in.
    fn note_if(
        &self,
        meds: &mut Meds,
        prefix: Prefix,
        route: &Option<Route>,
    ) -> Result<(), NoMemory>
        ensures { OnOk result (NotesMeds (cons_option (option_map (med_of self.now.home_as prefix) route.now) []) meds.old meds.new) }
    {
        match route {
            Some(route) => meds.note_route(self.home_as, prefix, route),
            None => Ok(()),
        }
    }

    /// Notes what each policy makes of a route.
    fn note_let_in(&self, meds: &mut Meds, prefix: Prefix, route: &Route) -> Result<(), NoMemory>
        ensures { OnOk result (NotesMeds (filter_map (let_in_by self.now prefix route.now) self.now.policies) meds.old meds.new) }
    {
        for policy in self.policies.iter() {
            let answer = policy.apply(prefix, route.copy()?, self.remote_as)?;
            self.note_if(meds, prefix, &answer)?;
        }
        Ok(())
    }

    /// Notes a route to prefixes, to each as it is and as each policy lets it in.
    fn note_prefixes(
        &self,
        meds: &mut Meds,
        prefixes: &[Prefix],
        route: &Route,
    ) -> Result<(), NoMemory>
        ensures { OnOk result (NotesMeds (flat_map (λ prefix. meds_of_route self.now prefix route.now) prefixes.now) meds.old meds.new) }
    {
        for prefix in prefixes {
            meds.note_route(self.home_as, *prefix, route)?;
            self.note_let_in(meds, *prefix, route)?;
        }
        Ok(())
    }

    /// Notes the routes that an UPDATE announces.
    pub fn note_update(&self, meds: &mut Meds, update: &Update) -> Result<(), NoMemory>
        ensures { OnOk result (NotesMeds (flat_map (meds_of self.now) (announced_by update.now)) meds.old meds.new) }
    {
        match &update.attrs {
            Some(attrs) => self.note_prefixes(meds, &update.nlri, &announced(attrs)?),
            None => Ok(()),
        }
    }
}
