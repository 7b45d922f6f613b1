//! The flaws of steps.

ghost use Rattle.std.specs.Prelude.{◌≡◌, codes, map};
ghost use Rattle.std.specs.List.{list_any, take_while};
ghost use Rattle.toml.specs.View.{view, table_view};
ghost use Rattle.lab_keys.specs.declared.table_at.TableAt.TheVariants.{Top};
ghost use Rattle.lab_keys.specs.Spots.{spot_of, member_of};
ghost use Rattle.lab_keys.specs.Kinds.{each_from, table_flaw};
ghost use Rattle.lab_keys.specs.Keys.{keys_flaw as keys_flaw_lem, tables_flaw as tables_flaw_lem};
ghost use Rattle.lab_keys.specs.Values.{items_at as items_at_lem};
ghost use Rattle.lab_tables.specs.Scripts.{is_word, is_settle_word, is_evacuate, evacuates as evacuates_lem};
ghost use Rattle.lab_tables.specs.Scripts.{group_from, is_crowded as is_crowded_lem, least_flaw as least_flaw_lem};
ghost use Rattle.lab_tables.specs.Scripts.{worded_flaw as worded_flaw_lem, grouped_flaw as grouped_flaw_lem, step_flaw as step_flaw_lem};

use crate::step_keys::{
    announce_keys, do_key, evacuate_keys, graft_keys, raw_keys, settle_keys, withdraw_keys,
};
use crate::words::word_at;
use lab_keys::{
    Flaw, Key, Spot, StepWord, TableAt, beyond, flaw_if, keys_flaw, number_or, stray_flaw, value_at,
};
use toml::{Table, Value};

/// Returns whether a value in the array of steps ends a group.
fn ends_group(step: &Value) -> bool
    ensures { result ≡ is_word is_settle_word (view step.now) }
{
    let Some(table) = step.as_table() else {
        return false;
    };
    matches!(word_at(table), StepWord::Settles)
}

/// Returns whether a value in the array of steps evacuates a router.
fn evacuates(step: &Value) -> bool
    ensures { result ≡ is_word is_evacuate (view step.now) }
{
    let Some(table) = step.as_table() else {
        return false;
    };
    matches!(word_at(table), StepWord::Evacuates)
}

/// Returns whether some step evacuates a router, up to the next one that ends a group.
fn evacuates_in(steps: &[Value]) -> bool
    ensures { result ≡ list_any (λ v. is_word is_evacuate (view v)) (take_while (λ v. not (is_word is_settle_word (view v))) steps.now) }
{
    steps
        .iter()
        .take_while(|step| !ends_group(step))
        .any(|step| evacuates(step))
}

/// Returns whether a step isn't allowed in its group, given whether a step evacuates before it, and anywhere in the
/// group.
fn is_crowded(before: bool, whole: bool, word: StepWord) -> bool
    ensures { result ≡ is_crowded_lem before whole word }
{
    match word {
        StepWord::Grafts => whole,
        StepWord::Evacuates => before,
        _ => false,
    }
}

/// Returns the first flaw of the keys of a step after its word, which is the first key, or of an unknown key.
fn rows_flaw<'a>(at: TableAt, keys: &[Key], table: &'a Table) -> Option<Flaw<'a>>
    requires { 0 < length keys.now }
    ensures { result ≡ option_or (keys_flaw_lem at (drop 1 keys.now) (table_view table.now))
        (option_or (stray_flaw_lem at (names_of keys.now) (table_view table.now)) None) }
{
    if let Some(flaw) = keys_flaw(at, &keys[1..], table) {
        return Some(flaw);
    }
    stray_flaw(at, keys, table)
}

fn announce_flaw<'a>(i: usize, table: &'a Table) -> Option<Flaw<'a>>
    ensures { result ≡ worded_flaw_lem words.Announces i (table_view table.now) }
{
    rows_flaw(TableAt::Step(i), &announce_keys(), table)
}

fn withdraw_flaw<'a>(i: usize, table: &'a Table) -> Option<Flaw<'a>>
    ensures { result ≡ worded_flaw_lem words.Withdraws i (table_view table.now) }
{
    rows_flaw(TableAt::Step(i), &withdraw_keys(), table)
}

fn raw_flaw<'a>(i: usize, table: &'a Table) -> Option<Flaw<'a>>
    ensures { result ≡ worded_flaw_lem words.SaysRaw i (table_view table.now) }
{
    rows_flaw(TableAt::Step(i), &raw_keys(), table)
}

fn graft_flaw<'a>(i: usize, table: &'a Table) -> Option<Flaw<'a>>
    ensures { result ≡ worded_flaw_lem words.Grafts i (table_view table.now) }
{
    rows_flaw(TableAt::Step(i), &graft_keys(), table)
}

/// Returns the flaw of a least number of rounds above the greatest one.
fn least_flaw<'a>(i: usize, table: &Table) -> Option<Flaw<'a>>
    ensures { result ≡ least_flaw_lem words.Settles i (table_view table.now) }
{
    let least = number_or(0, "least", table);
    let spot = Spot::of(TableAt::Step(i), "least");
    flaw_if(
        number_or(least, "rounds", table) < least,
        Flaw::Limit(spot, least as u64),
    )
}

fn settle_flaw<'a>(i: usize, table: &'a Table) -> Option<Flaw<'a>>
    ensures { result ≡ worded_flaw_lem words.Settles i (table_view table.now) }
{
    let at = TableAt::Step(i);
    let rows = settle_keys();
    let keys = &rows[..];
    if let Some(flaw) = keys_flaw(at, &keys[1..], table) {
        return Some(flaw);
    }
    if let Some(flaw) = least_flaw(i, table) {
        return Some(flaw);
    }
    stray_flaw(at, keys, table)
}

fn evacuate_flaw<'a>(i: usize, table: &'a Table) -> Option<Flaw<'a>>
    ensures { result ≡ worded_flaw_lem words.Evacuates i (table_view table.now) }
{
    rows_flaw(TableAt::Step(i), &evacuate_keys(), table)
}

/// Returns the first flaw of a step after its word.
fn worded_flaw<'a>(word: StepWord, i: usize, table: &'a Table) -> Option<Flaw<'a>>
    ensures { result ≡ worded_flaw_lem word i (table_view table.now) }
{
    match word {
        StepWord::Announces => announce_flaw(i, table),
        StepWord::Withdraws => withdraw_flaw(i, table),
        StepWord::SaysRaw => raw_flaw(i, table),
        StepWord::Grafts => graft_flaw(i, table),
        StepWord::Settles => settle_flaw(i, table),
        StepWord::Evacuates => evacuate_flaw(i, table),
    }
}

/// Returns the first flaw of the step at index `i`, given whether a step evacuates before it in its group, and anywhere
/// in it.
fn grouped_flaw<'a>(before: bool, whole: bool, i: usize, table: &'a Table) -> Option<Flaw<'a>>
    ensures { result ≡ grouped_flaw_lem before whole i (table_view table.now) }
{
    let at = TableAt::Step(i);
    if let Some(flaw) = keys_flaw(at, &[do_key()], table) {
        return Some(flaw);
    }
    let word = word_at(table);
    if is_crowded(before, whole, word) {
        return Some(Flaw::Shape(Spot::of(at, "do")));
    }
    worded_flaw(word, i, table)
}

/// Returns the first flaw of a value in the array of steps.
fn item_flaw<'a>(before: bool, whole: bool, i: usize, step: &'a Value) -> Option<Flaw<'a>>
    ensures { result ≡ table_flaw (member_of (spot_of Top (codes "step")) i) (grouped_flaw_lem before whole i) (view step.now) }
{
    let Some(table) = step.as_table() else {
        return Some(Flaw::Shape(Spot::of(TableAt::Top, "step").member(i)));
    };
    grouped_flaw(before, whole, i, table)
}

/// Returns whether a step evacuates before the next one in its group, given whether one does before this one.
fn before_next(before: bool, step: &Value) -> bool
    ensures { result ≡ (if is_word is_settle_word (view step.now) then false else (is_word is_evacuate (view step.now) || before)) }
{
    if ends_group(step) {
        return false;
    }
    evacuates(step) || before
}

/// Returns whether a step evacuates in the group of the next one, given whether one does in the group of this one.
fn whole_next(whole: bool, step: &Value, further: &[Value]) -> bool
    ensures { result ≡ (if is_word is_settle_word (view step.now) then list_any (λ v. is_word is_evacuate (view v))
        (take_while (λ v. not (is_word is_settle_word (view v))) further.now) else whole) }
{
    if ends_group(step) {
        return evacuates_in(further);
    }
    whole
}

/// Returns the first flaw of the values of the array of steps.
fn items_flaw<'a>(steps: &'a [Value]) -> Option<Flaw<'a>>
    ensures { result ≡ each_from (λ i. table_flaw (member_of (spot_of Top (codes "step")) i) (step_flaw_lem (map view steps.now) i)) 0 (map view steps.now) }
{
    let mut before = false;
    let mut whole = evacuates_in(steps);
    for (i, step) in steps.iter().enumerate() {
        if let Some(flaw) = item_flaw(before, whole, i, step) {
            return Some(flaw);
        }
        before = before_next(before, step);
        whole = whole_next(whole, step, &steps[i + 1..]);
    }
    None
}

/// Returns the first flaw of the steps of an input.
pub(crate) fn steps_flaw<'a>(doc: &'a Table) -> Option<Flaw<'a>>
    ensures { result ≡ tables_flaw_lem Top (codes "step") false 0 4096 (step_flaw_lem (items_at_lem (codes "step") (table_view doc.now))) (table_view doc.now) }
{
    let value = value_at(doc, "step")?;
    let Some(array) = value.as_array() else {
        return Some(Flaw::Shape(Spot::of(TableAt::Top, "step")));
    };
    let steps = array.as_slice();
    if let Some(flaw) = beyond(Spot::of(TableAt::Top, "step"), 0, 4096, steps.len() as u64) {
        return Some(flaw);
    }
    items_flaw(steps)
}

ghost use Rattle.std.specs.Prelude.{◌<◌, ◌∷◌, ◌||◌, [], None, drop, length, false, not, if◌then◌else◌};
ghost use Rattle.std.specs.Option.{option_or};
ghost use Rattle.lab_keys.specs.Keys.{stray_flaw as stray_flaw_lem, names_of};
ghost use Rattle.lab_keys.specs.declared.words.StepWord.TheVariants as words;
