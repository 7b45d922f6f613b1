//! The attributes of a route, as JSON.

ghost use Rattle.std.specs.Prelude.{◌≡◌, map, OnOk};
ghost use Rattle.report_json.specs.Tokens.{with_value};
ghost use Rattle.report_json.specs.Values.{list_of};
ghost use Rattle.message_json.specs.Attrs.{speaker_json, aggregator_json, raw_json, attrs_json};

use crate::messages::write_octets;
use bgp_types::{Aggregator, Attrs, NoMemory, RawAttr};
use message_words::origin_name;
use report_json::{JsonText, write_address, write_count_or_null, write_path};
use std::alloc::Global;

/// Adds the speaker that formed an aggregate.
fn write_speaker(out: &mut JsonText, alloc: Global, speaker: Aggregator) -> Result<(), NoMemory>
    ensures { OnOk result (out.new ≡ with_value (speaker_json speaker) out.old) }
{
    out.begin_object()?;
    out.name("address")?;
    write_address(out, alloc, speaker.address)?;
    out.name("as")?;
    out.number(u64::from(speaker.as_number))?;
    out.name("partial")?;
    out.truth(speaker.partial)?;
    out.end_object()
}

/// Adds the speaker that formed the aggregate, or null.
fn write_aggregator(
    out: &mut JsonText,
    alloc: Global,
    aggregator: Option<Aggregator>,
) -> Result<(), NoMemory>
    ensures { OnOk result (out.new ≡ with_value (aggregator_json aggregator) out.old) }
{
    match aggregator {
        Some(speaker) => write_speaker(out, alloc, speaker),
        None => out.null(),
    }
}

/// Adds an attribute of an unknown type.
fn write_raw(out: &mut JsonText, alloc: Global, raw: &RawAttr) -> Result<(), NoMemory>
    ensures { OnOk result (out.new ≡ with_value (raw_json raw.now) out.old) }
{
    out.begin_object()?;
    out.name("octets")?;
    write_octets(out, alloc, &raw.bytes)?;
    out.name("partial")?;
    out.truth(raw.partial)?;
    out.name("type")?;
    out.number(u64::from(raw.kind))?;
    out.end_object()
}

/// Adds attributes of unknown types.
fn write_unknown(out: &mut JsonText, alloc: Global, unknown: &[RawAttr]) -> Result<(), NoMemory>
    ensures { OnOk result (out.new ≡ with_value (list_of (map raw_json unknown.now)) out.old) }
{
    out.begin_list()?;
    for raw in unknown {
        write_raw(out, alloc, raw)?;
    }
    out.end_list()
}

/// Adds all attributes of a route to a text.
pub fn write_attrs(out: &mut JsonText, alloc: Global, attrs: &Attrs) -> Result<(), NoMemory>
    ensures { OnOk result (out.new ≡ with_value (attrs_json attrs.now) out.old) }
{
    out.begin_object()?;
    out.name("aggregator")?;
    write_aggregator(out, alloc, attrs.aggregator)?;
    out.name("atomic")?;
    out.truth(attrs.atomic)?;
    out.name("med")?;
    write_count_or_null(out, attrs.med)?;
    out.name("next_hop")?;
    write_address(out, alloc, attrs.next_hop)?;
    out.name("origin")?;
    out.text(origin_name(attrs.origin))?;
    out.name("path")?;
    write_path(out, &attrs.path)?;
    out.name("unknown")?;
    write_unknown(out, alloc, &attrs.unknown)?;
    out.end_object()
}
