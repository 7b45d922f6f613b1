//! The nearest of several names.

ghost use Rattle.std.specs.Prelude.{◌≡◌, IfOk, map, option_map};
ghost use Rattle.near_names.specs.Nearness.{distance as distance_lem, most_edits as most_edits_lem, is_near as is_near_lem, nearest as nearest_lem};

use graft_edge::NoMemory;
use std::alloc::Global;
use strsim::osa_distance;

/// Returns the number of edits from one text to another.
#[tactic(auto, unfolding(crate::specs::Nearness::distance))]
fn distance(alloc: Global, from: &str, to: &str) -> Result<usize, NoMemory>
    ensures { IfOk result (λ edits. edits ≡ distance_lem from.now to.now) }
{
    Ok(osa_distance(alloc, from, to)?)
}

/// Returns the number of edits up to which a name may be meant.
fn most_edits(text: &str) -> usize
    ensures { result ≡ most_edits_lem text.now }
{
    (text.len() + 1) / 3
}

/// Returns whether a name is so near to a text that it may be meant.
pub fn is_near(alloc: Global, text: &str, name: &str) -> Result<bool, NoMemory>
    ensures { IfOk result (λ near. near ≡ is_near_lem text.now name.now) }
{
    let edits = distance(alloc, text, name)?;
    Ok(edits <= most_edits(text))
}

/// Returns the first of the names that are nearest to a text, if it is so near that it may be meant.
pub fn nearest<'a>(
    alloc: Global,
    names: &[&'a str],
    text: &str,
) -> Result<Option<&'a str>, NoMemory>
    ensures { IfOk result (λ near. option_map (λ name. name.now) near ≡ nearest_lem (map (λ name. name.now) names.now) text.now) }
{
    let mut near = None;
    let mut least = most_edits(text) + 1;
    for name in names {
        let edits = distance(alloc, text, name)?;
        if edits < least {
            near = Some(*name);
            least = edits;
        }
    }
    Ok(near)
}
