//! The planned faults whose segments never came.

ghost use Rattle.std.specs.Prelude.{◌≡◌, ◌++◌, ◌∷◌, [], ℕ, List, length, OnOk, IfOk, string_bytes};
ghost use Rattle.std.specs.List.{flat_map};
ghost use Rattle.ring_net.specs.declared.entry.JournalEntry.{JournalEntry};
ghost use Rattle.show_view.specs.Links.{AreCounted, HasRoom, HaveRoom, fault_line, kind_text, never_came_line, peering_at as peering_at_lem};
ghost use Rattle.show_view.specs.Links.{segments_on as segments_on_lem, way_text, with_event as with_event_lem};

use bgp_types::{Items, NoMemory, PeeringId};
use lab_report::{Lab, peering_name};
use lab_tables::LabInput;
use link_bag::{Fault, FaultKind};
use ring_net::JournalEntry;
use std::alloc::Global;
use std::fmt::Write;
use tcp_seq::Way;

/// One more than the greatest number of a peering.
const PEERINGS: usize = 256;

/// The numbers of the events of a far side by which segments come into its links.
const SEND: u16 = 18;

const TAKE: u16 = 19;

/// How many segments came into the links of a peering, towards home and towards the remote.
#[derive(Clone, Copy, Debug)]
pub struct Segments {
    pub home: u64,
    pub remote: u64,
}

/// Returns the peering whose far side an actor is, where there are so many routers.
fn peering_at(routers: usize, actor: u16) -> Option<usize>
    ensures { result ≡ peering_at_lem routers actor }
{
    let actor = usize::from(actor);
    if actor >= routers && actor - routers < PEERINGS {
        return Some(actor - routers);
    }
    None
}

/// Counts the segment that comes into a link by an event of this kind, if one does.
fn with_event(segments: Segments, kind: u16) -> Segments
    requires { HasRoom segments }
    ensures { result ≡ with_event_lem segments kind }
{
    match kind {
        SEND => Segments {
            home: segments.home + 1,
            ..segments
        },
        TAKE => Segments {
            remote: segments.remote + 1,
            ..segments
        },
        _ => segments,
    }
}

/// Counts the segment that came into a link by an entry of a journal, if one did.
#[tactic(auto)]
fn pass(all: &mut [Segments], routers: usize, entry: &JournalEntry)
    requires places { length all.old ≡ 256 }
    requires room { HaveRoom all.old }
    ensures { (journal : List JournalEntry) → AreCounted routers journal all.old → AreCounted routers (journal ++ entry.now ∷ []) all.new }
{
    if let Some(peering) = peering_at(routers, entry.actor) {
        all[peering] = with_event(all[peering], entry.kind);
    }
}

/// Returns how many segments came into the links of each peering, where there are so many routers.
#[tactic(auto, using(crate::proofs::Counting::none_counted))]
pub fn count_segments(
    alloc: Global,
    routers: usize,
    journal: &[JournalEntry],
) -> Result<Vec<Segments>, NoMemory>
    ensures { IfOk result (λ all. AreCounted routers journal.now all.items) }
{
    let start = Segments { home: 0, remote: 0 };
    let mut all = vec![in alloc; start; PEERINGS]?;
    for entry in journal {
        pass(&mut all, routers, entry);
    }
    Ok(all)
}

/// Returns how many segments came into the link of a peering, towards this side.
pub fn segments_on(all: &[Segments], peering: PeeringId, way: Way) -> u64
    requires { length all.now ≡ 256 }
    ensures { (routers : ℕ) (journal : List JournalEntry) → AreCounted routers journal all.now
        → result ≡ segments_on_lem routers journal peering.0 way }
{
    let segments = all[usize::from(peering.0)];
    match way {
        Way::Home => segments.home,
        Way::Remote => segments.remote,
    }
}

/// Returns the name of a side.
pub fn way_name(way: Way) -> &'static str
    ensures { result.now ≡ way_text way }
{
    match way {
        Way::Home => "home",
        Way::Remote => "remote",
    }
}

/// Returns the name of a kind of fault.
pub fn kind_name(kind: FaultKind) -> &'static str
    ensures { result.now ≡ kind_text kind }
{
    match kind {
        FaultKind::Lose => "lose",
        FaultKind::Repeat => "repeat",
        FaultKind::Hold => "hold",
        FaultKind::Stray => "stray",
    }
}

/// Adds the line of a fault whose segment never came.
fn push_never_came(text: &mut String, input: &LabInput, fault: &Fault) -> Result<(), NoMemory>
    ensures { OnOk result (string_bytes text.new ≡ string_bytes text.old ++ never_came_line input.now fault.now) }
{
    let segment = fault.segment;
    text.push_str("fault ")?;
    text.push_str(peering_name(input, fault.peering.0))?;
    text.push_str(" ")?;
    text.push_str(way_name(fault.way))?;
    write!(text, " segment {segment} ")?;
    text.push_str(kind_name(fault.kind))?;
    text.push_str(" never came\n")?;
    Ok(())
}

/// Adds the line of a fault, if its segment never came.
fn push_fault(
    text: &mut String,
    input: &LabInput,
    all: &[Segments],
    fault: &Fault,
) -> Result<(), NoMemory>
    requires { length all.now ≡ 256 }
    ensures { (journal : List JournalEntry) → AreCounted (length input.now.routers) journal all.now
        → OnOk result (string_bytes text.new ≡ string_bytes text.old ++ fault_line input.now journal fault.now) }
{
    if segments_on(all, fault.peering, fault.way) < u64::from(fault.segment) {
        return push_never_came(text, input, fault);
    }
    Ok(())
}

/// Adds the lines of the faults whose segments never came.
fn push_counted(
    text: &mut String,
    input: &LabInput,
    all: &[Segments],
    faults: &[Fault],
) -> Result<(), NoMemory>
    requires { length all.now ≡ 256 }
    ensures { (journal : List JournalEntry) → AreCounted (length input.now.routers) journal all.now
        → OnOk result (string_bytes text.new ≡ string_bytes text.old ++ flat_map (fault_line input.now journal) faults.now) }
{
    for fault in faults {
        push_fault(text, input, all, fault)?;
    }
    Ok(())
}

/// Adds the lines of the planned faults of a run whose segments never came. It goes through the journal once.
pub(crate) fn push_faults(text: &mut String, alloc: Global, lab: &Lab) -> Result<(), NoMemory>
    ensures { OnOk result (string_bytes text.new ≡ string_bytes text.old ++ flat_map (fault_line lab.now.input lab.now.journal) lab.now.input.faults) }
{
    let all = count_segments(alloc, lab.input.routers.len(), &lab.journal)?;
    push_counted(text, &lab.input, &all, &lab.input.faults)
}
