//! The flaws of expectations.

ghost use Rattle.std.specs.Prelude.{◌≡◌, ◌++◌, min, length, sum_by, nat_lt, codes};
ghost use Rattle.toml.specs.View.{view, table_view};
ghost use Rattle.lab_keys.specs.declared.flaw.Flaw.TheVariants.{Limit};
ghost use Rattle.lab_keys.specs.declared.table_at.TableAt.TheVariants as tables;
ghost use Rattle.lab_keys.specs.Spots.{spot_of};
ghost use Rattle.lab_keys.specs.Kinds.{flaw_if as flaw_if_lem};
ghost use Rattle.lab_keys.specs.Values.{items_at as items_at_lem, number_or as number_or_lem};
ghost use Rattle.lab_tables.specs.Expects.{form_by as form_by_lem, form_of as form_of_lem, word_grafts as word_grafts_lem, grafts_of as grafts_of_lem};
ghost use Rattle.lab_tables.specs.Expects.{most_graft as most_graft_lem, graft_expect_ends, graft_expect_rest, graft_expect_flaw};
ghost use Rattle.lab_tables.specs.Expects.{session_expect_keys as session_expect_keys_lem, session_expect_flaw, wants_nothing as wants_nothing_lem};
ghost use Rattle.lab_tables.specs.Expects.{route_expect_keys as route_expect_keys_lem, route_expect_flaw, expect_spot as expect_spot_lem};
ghost use Rattle.lab_tables.specs.Expects.{expect_flaw as expect_flaw_lem};

use crate::numbers::ANY_NUMBER;
use crate::words::word_at;
use lab_keys::{
    Flaw, Key, Kind, Spot, StepWord, TableAt, TableKind, flaw_if, has, items_at, keys_flaw,
    number_or, stray_flaw,
};
use toml::{Table, Value};

/// What an expectation is of.
#[derive(Clone, Copy, Debug, PartialEq, Eq)]
pub(crate) enum ExpectForm {
    /// How a graft ends.
    Graft,
    /// The session of a peering.
    Session,
    /// A router's best route to a prefix.
    Route,
}

/// Returns the form of an expectation, given which of the three keys it has that tell one. It has exactly one of them.
fn form_by(graft: bool, peering: bool, router: bool) -> Option<ExpectForm>
    ensures { result ≡ form_by_lem graft peering router }
{
    if graft {
        return if peering || router {
            None
        } else {
            Some(ExpectForm::Graft)
        };
    }
    if peering {
        return if router {
            None
        } else {
            Some(ExpectForm::Session)
        };
    }
    if router {
        Some(ExpectForm::Route)
    } else {
        None
    }
}

/// Returns the form of an expectation, if its table has one.
pub(crate) fn form_of(table: &Table) -> Option<ExpectForm>
    ensures { result ≡ form_of_lem (table_view table.now) }
{
    form_by(
        has("graft", table),
        has("peering", table),
        has("router", table),
    )
}

// ---- the numbers of grafts

/// Returns how many numbers of grafts a step of this word takes.
fn word_grafts(peerings: u64, word: StepWord) -> u64
    ensures { result ≡ word_grafts_lem peerings word }
{
    match word {
        StepWord::Grafts => 1,
        StepWord::Evacuates => peerings,
        _ => 0,
    }
}

/// Returns how many numbers of grafts a value in the array of steps takes.
fn grafts_of(peerings: u64, step: &Value) -> u64
    ensures { result ≡ grafts_of_lem peerings (view step.now) }
{
    match step.as_table() {
        Some(table) => word_grafts(peerings, word_at(table)),
        None => 0,
    }
}

/// Returns the greatest number of a graft that these steps take.
fn most_of(peerings: u64, steps: &[Value]) -> u32
    ensures { result ≡ min 4294967295 (sum_by (λ step. grafts_of_lem peerings (view step)) steps.now) }
{
    let mut most = 0u32;
    for step in steps {
        let more = grafts_of(peerings, step).min(0xFFFF_FFFF) as u32;
        most = most.saturating_add(more);
    }
    most
}

/// Returns the length of the array at a key.
fn count_at(key: &str, doc: &Table) -> u64
    ensures { result ≡ length (items_at_lem key.now (table_view doc.now)) }
{
    match items_at(key, doc) {
        Some(values) => values.len() as u64,
        None => 0,
    }
}

/// Returns the greatest number of a graft that the steps of a document take.
pub(crate) fn most_graft(doc: &Table) -> u32
    ensures { result ≡ most_graft_lem (table_view doc.now) }
{
    let peerings = count_at("peering", doc);
    match items_at("step", doc) {
        Some(steps) => most_of(peerings, steps),
        None => 0,
    }
}

// ---- flaws

/// Returns the keys of an expectation of a graft: its number, and how it ends.
pub(crate) fn graft_expect_keys() -> [Key; 2]
    ensures { result ≡ graft_expect_ends ++ graft_expect_rest }
{
    [
        Key::required(
            "graft",
            Kind::Number {
                low: 1,
                high: u32::MAX,
            },
        ),
        Key::required("outcome", Kind::Outcome),
    ]
}

/// Returns the flaw of a graft's number above the greatest one.
fn graft_limit<'a>(most: u32, i: usize, table: &Table) -> Option<Flaw<'a>>
    ensures { result ≡ flaw_if_lem (nat_lt most (number_or_lem 32 0 (codes "graft") (table_view table.now)))
        (Limit (spot_of (tables.Expect i) (codes "graft")) (number_or_lem 32 0 (codes "graft") (table_view table.now))) }
{
    let graft = number_or(0, "graft", table);
    let spot = Spot::of(TableAt::Expect(i), "graft");
    flaw_if(most < graft, Flaw::Limit(spot, u64::from(graft)))
}

fn graft_flaw<'a>(most: u32, i: usize, table: &'a Table) -> Option<Flaw<'a>>
    ensures { result ≡ graft_expect_flaw most i (table_view table.now) }
{
    let at = TableAt::Expect(i);
    let rows = graft_expect_keys();
    let keys = &rows[..];
    if let Some(flaw) = keys_flaw(at, &keys[..1], table) {
        return Some(flaw);
    }
    if let Some(flaw) = graft_limit(most, i, table) {
        return Some(flaw);
    }
    if let Some(flaw) = keys_flaw(at, &keys[1..], table) {
        return Some(flaw);
    }
    stray_flaw(at, keys, table)
}

/// Returns the spot of the expectation at index `i` as a whole.
fn expect_spot<'a>(i: usize) -> Spot<'a>
    ensures { result ≡ expect_spot_lem i }
{
    Spot::of(TableAt::Top, "expect").member(i)
}

/// Returns whether nothing is wanted of a session.
fn wants_nothing(table: &Table) -> bool
    ensures { result ≡ wants_nothing_lem (table_view table.now) }
{
    !(has("at", table) || has("state", table) || has("heard", table) || has("told", table))
}

/// Returns the keys of an expectation of a session.
pub(crate) fn session_expect_keys() -> [Key; 5]
    ensures { result ≡ session_expect_keys_lem }
{
    [
        Key::required("peering", Kind::Name),
        Key::optional("at", Kind::Name),
        Key::optional("state", Kind::State),
        Key::optional("heard", ANY_NUMBER),
        Key::optional("told", ANY_NUMBER),
    ]
}

fn session_flaw<'a>(i: usize, table: &'a Table) -> Option<Flaw<'a>>
    ensures { result ≡ session_expect_flaw i (table_view table.now) }
{
    let at = TableAt::Expect(i);
    let keys = session_expect_keys();
    if let Some(flaw) = keys_flaw(at, &keys, table) {
        return Some(flaw);
    }
    if let Some(flaw) = stray_flaw(at, &keys, table) {
        return Some(flaw);
    }
    flaw_if(wants_nothing(table), Flaw::Shape(expect_spot(i)))
}

/// Returns the keys of an expectation of a best route.
pub(crate) fn route_expect_keys() -> [Key; 3]
    ensures { result ≡ route_expect_keys_lem }
{
    [
        Key::required("router", Kind::Name),
        Key::required("prefix", Kind::Prefix),
        Key::required("best", Kind::Best),
    ]
}

fn route_flaw<'a>(i: usize, table: &'a Table) -> Option<Flaw<'a>>
    ensures { result ≡ route_expect_flaw i (table_view table.now) }
{
    let at = TableAt::Expect(i);
    let keys = route_expect_keys();
    if let Some(flaw) = keys_flaw(at, &keys, table) {
        return Some(flaw);
    }
    stray_flaw(at, &keys, table)
}

/// Returns the first flaw of the expectation at index `i`, given the greatest number of a graft.
fn expect_flaw<'a>(most: u32, i: usize, table: &'a Table) -> Option<Flaw<'a>>
    ensures { result ≡ expect_flaw_lem most i (table_view table.now) }
{
    match form_of(table) {
        Some(ExpectForm::Graft) => graft_flaw(most, i, table),
        Some(ExpectForm::Session) => session_flaw(i, table),
        Some(ExpectForm::Route) => route_flaw(i, table),
        None => Some(Flaw::Shape(expect_spot(i))),
    }
}

/// The array of expectations of an input, whose grafts have the numbers from 1 to this one.
#[derive(Drop)]
pub(crate) struct ExpectTables {
    pub most: u32,
}

impl TableKind for ExpectTables {
    ghost flaw_of = { λ k. expect_flaw_lem k.most };

    fn flaw<'a>(&self, i: usize, table: &'a Table) -> Option<Flaw<'a>> {
        expect_flaw(self.most, i, table)
    }
}
