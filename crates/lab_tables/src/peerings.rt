//! Peerings.

ghost use Rattle.std.specs.Prelude.{◌≡◌, Option, IfOk, option_copied, codes};
ghost use Rattle.std.specs.List.{list_any};
ghost use Rattle.toml.specs.View.{view, table_view};
ghost use Rattle.lab_keys.specs.Values.{text_at as text_at_lem, maybe_text as maybe_text_lem, items_at as items_at_lem};
ghost use Rattle.lab_tables.specs.Peerings.{peering_ends, peering_rest, peering_last, is_raw_of as is_raw_of_lem};
ghost use Rattle.lab_tables.specs.Peerings.{may_beat as may_beat_lem, peering_flaw as peering_flaw_lem};
ghost use Rattle.lab_tables.specs.Peerings.{remote_id_of as remote_id_of_lem, remote_as4_of as remote_as4_of_lem};
ghost use Rattle.lab_tables.specs.Peerings.{opening_of as opening_of_lem, peering_input};

use crate::input::PeeringInput;
use crate::name_index::NameIndex;
use crate::numbers::{ANY_NUMBER, AS_NUMBER, MOST_OCTETS};
use crate::opening::default_opening;
use crate::words::word_at;
use bgp_types::{Name, NoMemory, Octets, RouterId};
use lab_keys::{
    Flaw, Key, Kind, Spot, StepWord, TableAt, TableKind, TableReader, address_or, flag_or, has,
    items_at, keys_flaw, maybe_text, number_or, octets_at, short_or, stray_flaw, text_at,
};
use std::alloc::Global;
use toml::{Table, Value};

/// The number of keys of a peering up to its AS number.
const END_KEYS: usize = 3;

/// The number of keys of a peering up to `beats`.
const FIRST_KEYS: usize = 16;

/// Returns the keys of a peering.
pub(crate) fn peering_keys() -> [Key; 17]
    ensures { result ≡ peering_ends ++ peering_rest ++ peering_last }
{
    [
        Key::required("name", Kind::Name),
        Key::required("at", Kind::Name),
        Key::required("remote_as", AS_NUMBER),
        Key::required("remote_address", Kind::Host),
        Key::required("local_address", Kind::Host),
        Key::optional("remote_id", Kind::Host),
        Key::optional("import", Kind::Name),
        Key::optional("export", Kind::Name),
        Key::optional("home_seq", ANY_NUMBER),
        Key::optional("remote_seq", ANY_NUMBER),
        Key::optional("hold", Kind::HoldTime),
        Key::optional(
            "opening",
            Kind::Hex {
                low: 0,
                high: MOST_OCTETS,
            },
        ),
        Key::optional("as4", Kind::Flag),
        Key::optional("remote_as4", Kind::Flag),
        Key::optional("home_hold", Kind::HoldTime),
        Key::optional("beats", Kind::Flag),
        Key::optional("unicast", Kind::Flag),
    ]
}

/// Returns whether a step says raw octets on the peering of this name.
fn is_raw_of(name: &str, step: &Value) -> bool
    ensures { result ≡ is_raw_of_lem name.now (view step.now) }
{
    match step.as_table() {
        Some(table) => {
            matches!(word_at(table), StepWord::SaysRaw) && text_at("peering", table) == name
        }
        None => false,
    }
}

/// Returns whether one of these steps says raw octets on the peering of this name.
fn any_raw(name: &str, steps: &[Value]) -> bool
    ensures { result ≡ list_any (λ step. is_raw_of_lem name.now (view step)) steps.now }
{
    steps.iter().any(|step| is_raw_of(name, step))
}

/// Returns whether some step says raw octets on the peering of this name.
fn has_raw(name: &str, doc: &Table) -> bool
    ensures { result ≡ list_any (is_raw_of_lem name.now) (items_at_lem (codes "step") (table_view doc.now)) }
{
    match items_at("step", doc) {
        Some(steps) => any_raw(name, steps),
        None => false,
    }
}

/// Returns whether some step says raw octets on the peering of this table.
fn says_raw(doc: &Table, table: &Table) -> bool
    ensures { result ≡ list_any (is_raw_of_lem (text_at_lem (codes "name") (table_view table.now))) (items_at_lem (codes "step") (table_view doc.now)) }
{
    has_raw(text_at("name", table), doc)
}

/// Returns the remote's hold time.
fn hold_of(table: &Table) -> u16
    ensures { result ≡ number_or_lem 16 180 (codes "hold") (table_view table.now) }
{
    short_or(180, "hold", table)
}

/// Returns whether the hold times of both sides are above 0.
fn both_hold(table: &Table) -> bool
    ensures { result
        ≡ (nat_lt 0 (number_or_lem 16 0 (codes "home_hold") (table_view table.now)) && nat_lt 0 (number_or_lem 16 180 (codes "hold") (table_view table.now))) }
{
    short_or(0, "home_hold", table) > 0 && hold_of(table) > 0
}

/// Returns whether the remote of a peering can send KEEPALIVEs of its own: both sides' hold times are above 0, and all
/// that it says is said by its steps and the default opening.
fn may_beat(doc: &Table, table: &Table) -> bool
    ensures { result ≡ may_beat_lem (table_view doc.now) (table_view table.now) }
{
    both_hold(table) && !has("opening", table) && !says_raw(doc, table)
}

/// Returns whether `beats` is given as true though the remote can't send KEEPALIVEs of its own.
fn beats_wrongly(doc: &Table, table: &Table) -> bool
    ensures { result ≡ (flag_or_lem false (codes "beats") (table_view table.now) && not (may_beat_lem (table_view doc.now) (table_view table.now))) }
{
    flag_or(false, "beats", table) && !may_beat(doc, table)
}

/// Returns the first flaw of the peering at index `i`.
fn peering_flaw<'a>(doc: &Table, i: usize, table: &'a Table) -> Option<Flaw<'a>>
    ensures { result ≡ peering_flaw_lem (table_view doc.now) i (table_view table.now) }
{
    let at = TableAt::Peering(i);
    let rows = peering_keys();
    let keys = &rows[..];
    if let Some(flaw) = keys_flaw(at, &keys[..END_KEYS], table) {
        return Some(flaw);
    }
    if number_or(0, "remote_as", table) == number_or(0, "home_as", doc) {
        return Some(Flaw::Shape(Spot::of(at, "remote_as")));
    }
    if let Some(flaw) = keys_flaw(at, &keys[END_KEYS..FIRST_KEYS], table) {
        return Some(flaw);
    }
    if beats_wrongly(doc, table) {
        return Some(Flaw::Shape(Spot::of(at, "beats")));
    }
    if let Some(flaw) = keys_flaw(at, &keys[FIRST_KEYS..], table) {
        return Some(flaw);
    }
    stray_flaw(at, keys, table)
}

/// The array of peerings of an input.
#[derive(Drop)]
pub(crate) struct PeeringTables<'d> {
    pub doc: &'d Table,
}

impl<'d> TableKind for PeeringTables<'d> {
    ghost flaw_of = { λ k. peering_flaw_lem (table_view k.doc.now) };

    fn flaw<'a>(&self, i: usize, table: &'a Table) -> Option<Flaw<'a>> {
        peering_flaw(self.doc, i, table)
    }
}

/// Returns the remote's BGP Identifier, which is its address if none is given.
fn remote_id_of(table: &Table) -> u32
    ensures { result ≡ remote_id_of_lem (table_view table.now) }
{
    address_or(address_or(0, "remote_address", table), "remote_id", table)
}

/// Returns whether the remote supports four-octet AS numbers. If this isn't given, it is as on the home side.
fn remote_as4_of(table: &Table) -> bool
    ensures { result ≡ remote_as4_of_lem (table_view table.now) }
{
    flag_or(flag_or(false, "as4", table), "remote_as4", table)
}

/// Returns what the remote says at first.
fn opening_of(alloc: Global, table: &Table) -> Result<Octets, NoMemory>
    ensures { IfOk result (λ octets. octets ≡ opening_of_lem (table_view table.now)) }
{
    if has("opening", table) {
        return octets_at(alloc, "opening", table);
    }
    let remote_as = number_or(0, "remote_as", table);
    default_opening(
        alloc,
        remote_as,
        hold_of(table),
        remote_id_of(table),
        remote_as4_of(table),
    )
}

/// Returns the name at a key.
fn name_at(alloc: Global, key: &str, table: &Table) -> Result<Option<Name>, NoMemory>
    ensures { IfOk result (λ name. name ≡ maybe_text_lem key.now (table_view table.now)) }
{
    match maybe_text(key, table) {
        Some(text) => Ok(Some(Name::from_text(alloc, text)?)),
        None => Ok(None),
    }
}

/// Returns the peering that a table stands for.
fn peering_of(
    alloc: Global,
    doc: &Table,
    routers: &NameIndex,
    table: &Table,
) -> Result<PeeringInput, NoMemory>
    ensures { IfOk result (λ peering. peering ≡ peering_input (table_view doc.now) routers.now (table_view table.now)) }
{
    Ok(PeeringInput {
        name: Name::from_text(alloc, text_at("name", table))?,
        at: RouterId(routers.number_of(text_at("at", table))),
        remote_as: number_or(0, "remote_as", table),
        remote_address: address_or(0, "remote_address", table),
        local_address: address_or(0, "local_address", table),
        remote_id: remote_id_of(table),
        import: name_at(alloc, "import", table)?,
        export: name_at(alloc, "export", table)?,
        home_seq: number_or(1000, "home_seq", table),
        remote_seq: number_or(5000, "remote_seq", table),
        hold: hold_of(table),
        opening: opening_of(alloc, table)?,
        as4: flag_or(false, "as4", table),
        remote_as4: remote_as4_of(table),
        home_hold: short_or(0, "home_hold", table),
        beats: flag_or(may_beat(doc, table), "beats", table),
        unicast: flag_or(false, "unicast", table),
    })
}

/// Peering reader, for these routers.
#[derive(Drop)]
pub(crate) struct PeeringReader<'d> {
    pub doc: &'d Table,
    pub routers: &'d NameIndex,
}

impl<'d> TableReader<PeeringInput> for PeeringReader<'d> {
    ghost value_of = { λ r. peering_input (table_view r.doc.now) r.routers.now };

    fn value(&self, alloc: Global, table: &Table) -> Result<PeeringInput, NoMemory> {
        peering_of(alloc, self.doc, self.routers, table)
    }
}

ghost use Rattle.std.specs.Prelude.{◌&&◌, ◌++◌, false, not};
ghost use Rattle.std.specs.Prelude.{nat_lt};
ghost use Rattle.lab_keys.specs.Values.{flag_or as flag_or_lem, number_or as number_or_lem};
