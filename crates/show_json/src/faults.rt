//! The planned faults whose segments never came, as JSON.

ghost use Rattle.std.specs.Prelude.{◌≡◌, List, length, OnOk};
ghost use Rattle.std.specs.List.{flat_map};
ghost use Rattle.ring_net.specs.declared.entry.JournalEntry.{JournalEntry};
ghost use Rattle.report_json.specs.Tokens.{with_value, with_values};
ghost use Rattle.report_json.specs.Values.{list_of};
ghost use Rattle.show_view.specs.Links.{AreCounted};
ghost use Rattle.show_json.specs.Show.{never_came, fault_json};

use bgp_types::NoMemory;
use lab_report::{Lab, peering_name};
use lab_tables::LabInput;
use link_bag::Fault;
use report_json::JsonText;
use show_view::{Segments, count_segments, kind_name, segments_on, way_name};
use std::alloc::Global;

/// Adds a fault whose segment never came.
fn write_never_came(out: &mut JsonText, input: &LabInput, fault: &Fault) -> Result<(), NoMemory>
    ensures { OnOk result (out.new ≡ with_value (never_came input.now fault.now) out.old) }
{
    out.begin_object()?;
    out.name("kind")?;
    out.text(kind_name(fault.kind))?;
    out.name("peering")?;
    out.text(peering_name(input, fault.peering.0))?;
    out.name("segment")?;
    out.number(u64::from(fault.segment))?;
    out.name("way")?;
    out.text(way_name(fault.way))?;
    out.end_object()
}

/// Adds a fault, if its segment never came.
fn write_fault(
    out: &mut JsonText,
    input: &LabInput,
    all: &[Segments],
    fault: &Fault,
) -> Result<(), NoMemory>
    requires { length all.now ≡ 256 }
    ensures { (journal : List JournalEntry) → AreCounted (length input.now.routers) journal all.now
        → OnOk result (out.new ≡ with_values (fault_json input.now journal fault.now) out.old) }
{
    if segments_on(all, fault.peering, fault.way) < u64::from(fault.segment) {
        return write_never_came(out, input, fault);
    }
    Ok(())
}

/// Adds the faults whose segments never came.
fn write_counted(
    out: &mut JsonText,
    input: &LabInput,
    all: &[Segments],
    faults: &[Fault],
) -> Result<(), NoMemory>
    requires { length all.now ≡ 256 }
    ensures { (journal : List JournalEntry) → AreCounted (length input.now.routers) journal all.now
        → OnOk result (out.new ≡ with_value (list_of (flat_map (fault_json input.now journal) faults.now)) out.old) }
{
    out.begin_list()?;
    for fault in faults {
        write_fault(out, input, all, fault)?;
    }
    out.end_list()
}

/// Adds the planned faults of a run whose segments never came. It goes through the journal once.
pub(crate) fn write_faults(out: &mut JsonText, alloc: Global, lab: &Lab) -> Result<(), NoMemory>
    ensures { OnOk result (out.new
        ≡ with_value (list_of (flat_map (fault_json lab.now.input lab.now.journal) lab.now.input.faults)) out.old) }
{
    let all = count_segments(alloc, lab.input.routers.len(), &lab.journal)?;
    write_counted(out, &lab.input, &all, &lab.input.faults)
}
