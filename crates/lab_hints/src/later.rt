//! Names and counts that don't fit together, where all shapes are right.

ghost use Rattle.std.specs.Prelude.{◌≡◌, ◌++◌, IfOk, OnOk, string_bytes, option_map, codes};
ghost use Rattle.near_names.specs.Nearness.{nearest as nearest_lem};
ghost use Rattle.lab_hints.specs.Wanted.{name_words};
ghost use Rattle.lab_hints.specs.Later.{all_names as all_names_lem, meant_words, unnamed_words, unknown_words, repeated_words, said_words};
ghost use Rattle.lab_hints.specs.Later.{grafts_words, settles_words, prefixes_words, count_words, later_words};

use crate::crowd::push_sessions;
use crate::names::{all_names, is_peering, is_policy, is_router};
use crate::stray::push_question;
use crate::wanted::{push_name_form, push_words};
use bgp_types::NoMemory;
use lab_input::{
    BadInput, LabInput, MOST_GRAFTS, MOST_OCTETS, MOST_OCTETS_BEATING, MOST_PREFIXES, MOST_SETTLES,
};
use lab_keys::is_name;
use near_names::nearest;
use std::alloc::Global;
use std::fmt::Write;

// ---- names

/// Adds the name that may be meant, if there is one.
fn push_meant(text: &mut String, near: Option<&str>) -> Result<(), NoMemory>
    ensures { OnOk result (string_bytes text.new ≡ string_bytes text.old ++ meant_words (option_map (λ name. name.now) near.entry)) }
{
    match near {
        Some(name) => push_question(text, name),
        None => Ok(()),
    }
}

/// Returns the name that may be meant by one that nothing has.
fn meant_by<'a>(alloc: Global, lab: &'a LabInput, name: &str) -> Result<Option<&'a str>, NoMemory>
    ensures { IfOk result (λ near. option_map (λ name. name.now) near ≡ nearest_lem (all_names_lem lab.now) name.now) }
{
    let names = all_names(alloc, lab)?;
    Ok(nearest(alloc, names.as_slice(), name)?)
}

/// Adds that nothing has this name, and the name that may be meant.
fn push_uncalled(text: &mut String, name: &str, near: Option<&str>) -> Result<(), NoMemory>
    ensures { OnOk result (string_bytes text.new
        ≡ string_bytes text.old ++ (codes "no router, peering or policy is called " ++ name.now ++ meant_words (option_map (λ name. name.now) near.entry))) }
{
    text.push_str("no router, peering or policy is called ")?;
    text.push_str(name)?;
    push_meant(text, near)
}

/// Adds what a name is, since this is none.
fn push_no_name(text: &mut String) -> Result<(), NoMemory>
    ensures { OnOk result (string_bytes text.new ≡ string_bytes text.old ++ (codes "a name is " ++ name_words)) }
{
    text.push_str("a name is ")?;
    push_name_form(text)
}

/// Adds that nothing has this name.
fn push_unnamed(
    alloc: Global,
    text: &mut String,
    lab: &LabInput,
    name: &str,
) -> Result<(), NoMemory>
    ensures { OnOk result (string_bytes text.new ≡ string_bytes text.old ++ unnamed_words lab.now name.now) }
{
    if !is_name(name) {
        return push_no_name(text);
    }
    let near = meant_by(alloc, lab, name)?;
    push_uncalled(text, name, near)
}

/// Adds a name and what is said of it.
fn push_of_name(text: &mut String, name: &str, words: &str) -> Result<(), NoMemory>
    ensures { OnOk result (string_bytes text.new ≡ string_bytes text.old ++ (name.now ++ words.now)) }
{
    text.push_str(name)?;
    text.push_str(words)?;
    Ok(())
}

/// Adds that nothing that may be named there has this name.
pub(crate) fn push_unknown(
    alloc: Global,
    text: &mut String,
    lab: &LabInput,
    name: &str,
) -> Result<(), NoMemory>
    ensures { OnOk result (string_bytes text.new ≡ string_bytes text.old ++ unknown_words lab.now name.now) }
{
    if is_router(lab, name) {
        return push_of_name(
            text,
            name,
            " is a router; another kind of name belongs here",
        );
    }
    if is_peering(lab, name) {
        return push_of_name(
            text,
            name,
            " is a peering; another kind of name belongs here",
        );
    }
    if is_policy(lab, name) {
        return push_of_name(
            text,
            name,
            " is a policy; a peering names policies of its own router, and nothing else does",
        );
    }
    push_unnamed(alloc, text, lab, name)
}

/// Adds what stands there again, and what may stand once.
fn push_repeated(text: &mut String, again: &str) -> Result<(), NoMemory>
    ensures { OnOk result (string_bytes text.new ≡ string_bytes text.old ++ repeated_words again.now) }
{
    text.push_str(again)?;
    text.push_str(
        " stands there again; each of these stands once: the name and id of a router, its networks and the names of its policies, ",
    )?;
    text.push_str(
        "the name and remote address of a peering, the ends of a cost and the segment of a fault",
    )?;
    Ok(())
}

// ---- counts

/// Adds how much a remote may say.
fn push_said(text: &mut String) -> Result<(), NoMemory>
    ensures { OnOk result (string_bytes text.new ≡ string_bytes text.old ++ said_words) }
{
    write!(
        text,
        "a remote says at most {MOST_OCTETS} octets, and at most {MOST_OCTETS_BEATING} where beats is true"
    )?;
    Ok(())
}

/// Adds the limit of grafts.
fn push_grafts(text: &mut String) -> Result<(), NoMemory>
    ensures { OnOk result (string_bytes text.new ≡ string_bytes text.old ++ grafts_words) }
{
    write!(
        text,
        "at most {MOST_GRAFTS} grafts; an evacuate step counts as one for each peering"
    )?;
    Ok(())
}

/// Adds the limit of settles.
fn push_settles(text: &mut String) -> Result<(), NoMemory>
    ensures { OnOk result (string_bytes text.new ≡ string_bytes text.old ++ settles_words) }
{
    write!(
        text,
        "at most {MOST_SETTLES} settle steps; one is added where the last step isn't one"
    )?;
    Ok(())
}

/// Adds the limit of prefixes.
fn push_prefixes(text: &mut String) -> Result<(), NoMemory>
    ensures { OnOk result (string_bytes text.new ≡ string_bytes text.old ++ prefixes_words) }
{
    write!(
        text,
        "at most {MOST_PREFIXES} different prefixes of networks and steps"
    )?;
    Ok(())
}

/// Adds the limit of a count, by its name.
fn push_count(text: &mut String, lab: &LabInput, what: &str) -> Result<(), NoMemory>
    ensures { OnOk result (string_bytes text.new ≡ string_bytes text.old ++ count_words lab.now what.now) }
{
    match what {
        "sessions" => push_sessions(text, lab),
        "said" => push_said(text),
        "grafts" => push_grafts(text),
        "settles" => push_settles(text),
        _ => push_prefixes(text),
    }
}

// ---- the whole

/// Adds the hint for a fault of names or counts.
pub(crate) fn push_later(
    alloc: Global,
    text: &mut String,
    lab: &LabInput,
    bad: &BadInput,
) -> Result<(), NoMemory>
    ensures { OnOk result (string_bytes text.new ≡ string_bytes text.old ++ later_words lab.now bad.now) }
{
    match bad {
        BadInput::Unknown(name) => push_unknown(alloc, text, lab, name.as_str()),
        BadInput::Repeated(again) => push_repeated(text, again.as_str()),
        BadInput::Limit(what, _) => push_count(text, lab, what.as_str()),
        _ => push_words(
            text,
            "an input is a TOML document with the keys of docs/INPUT.md",
        ),
    }
}
