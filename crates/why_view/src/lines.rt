//! The lines that tell why.

ghost use Rattle.std.specs.Prelude.{◌≡◌, ◌++◌, None, Some, codes, option_and_then, option_copied, slice_get, unwrap_or, IfOk, OnOk, string_bytes};
ghost use Rattle.std.specs.List.{flat_map, enumerate_from};
ghost use Rattle.route_policy.specs.Rules.{holds_as as holds_as_lem};
ghost use Rattle.why_view.specs.Rules.{lost_words};
ghost use Rattle.why_view.specs.Why.{best_line, candidate_lines, candidate_words, denial_words, denied_line, excluded_line, excluded_lines};
ghost use Rattle.why_view.specs.Why.{first_match as first_match_lem, heard_words, import_name as import_name_lem, looped_line, lost_line};
ghost use Rattle.why_view.specs.Why.{matching as matching_lem, number_text, origin_text, route_words, source_words, unless_best, winner_lines};
ghost use Rattle.why_view.specs.Winners.{is_index as is_index_lem};

use crate::candidates::{Candidate, imported, ranks_of};
use crate::entries::SessionEntry;
use crate::rules::{DecisionRule, goes_at};
use bgp_types::{
    Address, From, Name, NoMemory, PeeringId, Prefix, Rank, Route, SharedAttrs, TryCopy, holds_as,
};
use decision_core::best;
use lab_report::{push_from, push_path, yes_or_no};
use lab_tables::LabInput;
use route_policy::{PREFERENCE, Policy};
use std::alloc::Global;
use std::fmt::Write;

/// Returns the name of an ORIGIN, by its number.
pub fn origin_name(origin: u8) -> &'static str
    ensures { result.now ≡ origin_text origin }
{
    match origin {
        0 => "igp",
        1 => "egp",
        _ => "incomplete",
    }
}

/// What the first five rules compare, in their order.
fn push_route(text: &mut String, rank: &Rank) -> Result<(), NoMemory>
    ensures { OnOk result (string_bytes text.new ≡ string_bytes text.old ++ route_words rank.now) }
{
    let pref = rank.pref;
    let path_len = rank.path_len;
    let neighbour = rank.neighbour;
    let med = rank.med;
    write!(text, " own {}", yes_or_no(rank.own))?;
    write!(text, " pref {pref} path-length {path_len}")?;
    write!(text, " origin {}", origin_name(rank.origin))?;
    write!(text, " neighbour {neighbour} med {med}")?;
    Ok(())
}

/// What the other four compare.
fn push_source(text: &mut String, rank: &Rank) -> Result<(), NoMemory>
    ensures { OnOk result (string_bytes text.new ≡ string_bytes text.old ++ source_words rank.now) }
{
    let cost = rank.cost;
    let identifier = Address(rank.identifier);
    let address = Address(rank.address);
    write!(text, " external {}", yes_or_no(rank.external))?;
    write!(text, " cost {cost} identifier {identifier}")?;
    write!(text, " address {address}")?;
    Ok(())
}

/// A candidate: where it comes from, what the rules compare, and its path.
fn push_candidate(
    text: &mut String,
    input: &LabInput,
    candidate: &Candidate,
) -> Result<(), NoMemory>
    ensures { OnOk result (string_bytes text.new ≡ string_bytes text.old ++ candidate_words input.now candidate.now) }
{
    push_from(text, input, candidate.0.from)?;
    push_route(text, &candidate.1)?;
    push_source(text, &candidate.1)?;
    text.push_str(" path ")?;
    push_path(text, &candidate.0.route.attrs.path)
}

/// The line of the best candidate.
fn push_best(text: &mut String, input: &LabInput, candidate: &Candidate) -> Result<(), NoMemory>
    ensures { OnOk result (string_bytes text.new ≡ string_bytes text.old ++ best_line input.now candidate.now) }
{
    text.push_str("best ")?;
    push_candidate(text, input, candidate)?;
    text.push_str("\n")?;
    Ok(())
}

/// Why a candidate isn't the best.
fn push_lost_words(text: &mut String, rule: Option<DecisionRule>) -> Result<(), NoMemory>
    ensures { OnOk result (string_bytes text.new ≡ string_bytes text.old ++ lost_words rule) }
{
    match rule {
        Some(rule) => {
            let number = rule.number();
            write!(text, "rule {number} {}", rule.name())?;
        }
        None => text.push_str("equal")?,
    }
    Ok(())
}

/// The line of a candidate that isn't the best.
fn push_lost(
    text: &mut String,
    alloc: Global,
    input: &LabInput,
    ranks: &[Rank],
    candidate: &Candidate,
) -> Result<(), NoMemory>
    ensures { OnOk result (string_bytes text.new ≡ string_bytes text.old ++ lost_line input.now ranks.now candidate.now) }
{
    let rule = goes_at(alloc, ranks, &candidate.1)?;
    text.push_str("lost ")?;
    push_candidate(text, input, candidate)?;
    text.push_str(" ")?;
    push_lost_words(text, rule)?;
    text.push_str("\n")?;
    Ok(())
}

/// The line of the best candidate, if there is any.
fn push_winner(
    text: &mut String,
    input: &LabInput,
    winner: Option<&Candidate>,
) -> Result<(), NoMemory>
    ensures { OnOk result (string_bytes text.new ≡ string_bytes text.old ++ winner_lines input.now (option_copied winner.entry)) }
{
    match winner {
        Some(candidate) => push_best(text, input, candidate),
        None => Ok(()),
    }
}

/// Returns whether this is the index of the best candidate.
pub fn is_index(best: Option<usize>, index: usize) -> bool
    ensures { result ≡ is_index_lem best index }
{
    match best {
        Some(best) => best == index,
        None => false,
    }
}

/// The line of a candidate at an index, unless it is the best.
fn push_unless_best(
    text: &mut String,
    alloc: Global,
    input: &LabInput,
    ranks: &[Rank],
    best: Option<usize>,
    index: usize,
    candidate: &Candidate,
) -> Result<(), NoMemory>
    ensures { OnOk result (string_bytes text.new ≡ string_bytes text.old ++ unless_best input.now ranks.now best (index, candidate.now)) }
{
    if is_index(best, index) {
        return Ok(());
    }
    push_lost(text, alloc, input, ranks, candidate)
}

/// The lines of the candidates that aren't the best.
fn push_others(
    text: &mut String,
    alloc: Global,
    input: &LabInput,
    ranks: &[Rank],
    best: Option<usize>,
    candidates: &[Candidate],
) -> Result<(), NoMemory>
    ensures { OnOk result
        (string_bytes text.new ≡ string_bytes text.old ++ flat_map (unless_best input.now ranks.now best) (enumerate_from 0 candidates.now)) }
{
    for (index, candidate) in candidates.iter().enumerate() {
        push_unless_best(text, alloc, input, ranks, best, index, candidate)?;
    }
    Ok(())
}

/// Returns the best candidate, which stands at this index.
pub fn winner(candidates: &[Candidate], best: Option<usize>) -> Option<&Candidate>
    ensures { option_copied result ≡ option_and_then (λ i. slice_get candidates.now i) best }
{
    match best {
        Some(index) => candidates.get(index),
        None => None,
    }
}

/// The candidates: the best one, and behind it the others in their order.
pub(crate) fn push_candidates(
    text: &mut String,
    alloc: Global,
    input: &LabInput,
    candidates: &[Candidate],
) -> Result<(), NoMemory>
    ensures { OnOk result (string_bytes text.new ≡ string_bytes text.old ++ candidate_lines input.now candidates.now) }
{
    let ranks = ranks_of(alloc, candidates)?;
    let list = ranks.as_slice();
    let index = best(list);
    let first = winner(candidates, index);
    push_winner(text, input, first)?;
    push_others(text, alloc, input, list, index, candidates)?;
    Ok(())
}

/// Where a route that was heard comes from, and its path.
fn push_heard(
    text: &mut String,
    input: &LabInput,
    session: &SessionEntry,
    heard: &SharedAttrs,
) -> Result<(), NoMemory>
    ensures { OnOk result (string_bytes text.new ≡ string_bytes text.old ++ heard_words input.now session.now heard.now) }
{
    push_from(text, input, From::Peering(session.peering))?;
    text.push_str(" path ")?;
    push_path(text, &heard.path)
}

/// The line of a route whose path has the home AS.
fn push_looped(
    text: &mut String,
    input: &LabInput,
    session: &SessionEntry,
    heard: &SharedAttrs,
) -> Result<(), NoMemory>
    ensures { OnOk result (string_bytes text.new ≡ string_bytes text.old ++ looped_line input.now session.now heard.now) }
{
    text.push_str("looped ")?;
    push_heard(text, input, session, heard)?;
    text.push_str(" own AS in the path\n")?;
    Ok(())
}

/// Returns the index of the first rule of a policy that matches a route as it was heard, with preference 100.
pub fn first_match(
    policy: &Policy,
    prefix: Prefix,
    heard: &SharedAttrs,
) -> Result<Option<usize>, NoMemory>
    ensures { IfOk result (λ index. index ≡ first_match_lem policy.now prefix heard.now) }
{
    let route = Route {
        attrs: heard.copy()?,
        pref: PREFERENCE,
    };
    Ok(policy.matching(prefix, &route))
}

/// Returns the index of the first rule of a session's import policy that matches a route which was heard.
pub fn matching(
    prefix: Prefix,
    session: &SessionEntry,
    heard: &SharedAttrs,
) -> Result<Option<usize>, NoMemory>
    ensures { IfOk result (λ index. index ≡ matching_lem prefix session.now heard.now) }
{
    match &session.import {
        Some(policy) => first_match(policy, prefix, heard),
        None => Ok(None),
    }
}

/// Adds the number of a rule, from 1; a dash where there is none.
pub fn push_number(text: &mut String, index: Option<usize>) -> Result<(), NoMemory>
    ensures { OnOk result (string_bytes text.new ≡ string_bytes text.old ++ number_text index) }
{
    match index {
        Some(index) => write!(text, "{}", index as u128 + 1)?,
        None => text.push_str("-")?,
    }
    Ok(())
}

/// Returns a name, or a dash where there is none.
pub fn name_or_dash(name: &Option<Name>) -> &str
    ensures { result.now ≡ unwrap_or name.now (codes "-") }
{
    match name {
        Some(name) => name.as_str(),
        None => "-",
    }
}

/// The name of a peering's import policy.
fn import_name(input: &LabInput, peering: PeeringId) -> &str
    ensures { result.now ≡ import_name_lem input.now peering.0 }
{
    match input.peerings.get(usize::from(peering.0)) {
        Some(peering) => name_or_dash(&peering.import),
        None => "-",
    }
}

/// The rule that denies a route, and the name of its policy.
fn push_denial(
    text: &mut String,
    input: &LabInput,
    prefix: Prefix,
    session: &SessionEntry,
    heard: &SharedAttrs,
) -> Result<(), NoMemory>
    ensures { OnOk result (string_bytes text.new ≡ string_bytes text.old ++ denial_words input.now prefix session.now heard.now) }
{
    let rule = matching(prefix, session, heard)?;
    text.push_str(" rule ")?;
    push_number(text, rule)?;
    text.push_str(" of ")?;
    text.push_str(import_name(input, session.peering))?;
    Ok(())
}

/// The line of a route that the import policy denied.
fn push_denied(
    text: &mut String,
    input: &LabInput,
    prefix: Prefix,
    session: &SessionEntry,
    heard: &SharedAttrs,
) -> Result<(), NoMemory>
    ensures { OnOk result (string_bytes text.new ≡ string_bytes text.old ++ denied_line input.now prefix session.now heard.now) }
{
    text.push_str("denied ")?;
    push_heard(text, input, session, heard)?;
    push_denial(text, input, prefix, session, heard)?;
    text.push_str("\n")?;
    Ok(())
}

/// Returns whether a path has the home AS, which is a loop (RFC 4271, section 9.1.2).
pub fn is_loop(input: &LabInput, heard: &SharedAttrs) -> bool
    ensures { result ≡ holds_as_lem heard.now.path input.now.home_as }
{
    holds_as(&heard.path, input.home_as)
}

/// The line of a route that was heard and not let in.
fn push_kept_out(
    text: &mut String,
    input: &LabInput,
    prefix: Prefix,
    session: &SessionEntry,
    heard: &SharedAttrs,
) -> Result<(), NoMemory>
    ensures { OnOk result (string_bytes text.new ≡ string_bytes text.old ++ excluded_line input.now prefix session.now (Some heard.now) None) }
{
    if is_loop(input, heard) {
        return push_looped(text, input, session, heard);
    }
    push_denied(text, input, prefix, session, heard)
}

/// The line of a route that was heard, unless it was let in.
fn push_unless_in(
    text: &mut String,
    input: &LabInput,
    prefix: Prefix,
    session: &SessionEntry,
    heard: &SharedAttrs,
    route: &Option<Route>,
) -> Result<(), NoMemory>
    ensures { OnOk result (string_bytes text.new ≡ string_bytes text.old ++ excluded_line input.now prefix session.now (Some heard.now) route.now) }
{
    match route {
        Some(_) => Ok(()),
        None => push_kept_out(text, input, prefix, session, heard),
    }
}

/// The line of what a session heard, if it heard the prefix and this isn't a route that was let in.
fn push_excluded(
    text: &mut String,
    input: &LabInput,
    prefix: Prefix,
    session: &SessionEntry,
    route: &Option<Route>,
) -> Result<(), NoMemory>
    ensures { OnOk result (string_bytes text.new ≡ string_bytes text.old ++ excluded_line input.now prefix session.now session.now.heard route.now) }
{
    match &session.heard {
        Some(heard) => push_unless_in(text, input, prefix, session, heard, route),
        None => Ok(()),
    }
}

/// The routes that sessions heard and that are no candidates.
pub(crate) fn push_all_excluded(
    text: &mut String,
    input: &LabInput,
    prefix: Prefix,
    sessions: &[SessionEntry],
) -> Result<(), NoMemory>
    ensures { OnOk result (string_bytes text.new ≡ string_bytes text.old ++ flat_map (excluded_lines input.now prefix) sessions.now) }
{
    for session in sessions {
        let route = imported(input.home_as, prefix, session)?;
        push_excluded(text, input, prefix, session, &route)?;
    }
    Ok(())
}
