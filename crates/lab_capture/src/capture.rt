//! The capture of a run.

ghost use Rattle.std.specs.Prelude.{◌≡◌, length, IfOk};
ghost use Rattle.node_configs.specs.Accepted.{IsAccepted};
ghost use Rattle.lab_capture.specs.Captures.{IsLabCapture};
ghost use Rattle.lab_capture.specs.Places.{ArePlaces};
ghost use Rattle.lab_capture.specs.Tapping.{AllShort, AreOfRun};

use crate::tap::tap;
use crate::timed::{Timed, by_round, captured, places_of, push_timed};
use entry_rounds::entry_rounds;
use graft_actors::an_entry_is_of_one_event;
use graft_edge::{NoMemory, Octets};
use lab_report::Lab;
use lab_setup::{accepted_is_a_setup, accepted_is_in_range};
use lab_tables::LabInput;
use pcap_form::write_capture;
use ring_net::JournalEntry;
use run_auditor::Auditor;
use spelled_events::prefixes_are_spelled;
use std::alloc::Global;

/// Returns the packets that are tapped at the entries of a journal, with their rounds and places, in the order of the journal.
/// The world of the run is kept along it. If the journal is that of no run, nothing is said of the packets but that they are
/// short enough for IPv4.
fn tapped_packets(
    alloc: Global,
    input: &LabInput,
    journal: &[JournalEntry],
    rounds: &[usize],
    places: &[usize],
) -> Result<Vec<Timed>, NoMemory>
    requires accepted { IsAccepted input.now }
    requires rounds { length rounds.now ≡ length journal.now }
    requires places { ArePlaces rounds.now places.now }
    ensures tapped { IfOk result (λ packets. AreOfRun input.now rounds.now journal.now packets.items) }
    ensures short { IfOk result (λ packets. AllShort packets.items) }
{
    an_entry_is_of_one_event();
    prefixes_are_spelled();
    accepted_is_a_setup();
    accepted_is_in_range();
    let mut auditor = Auditor::new(alloc, input)?;
    let mut packets = Vec::new(alloc);
    for (index, entry) in journal.iter().enumerate() {
        let packet = tap(alloc, input, &mut auditor, entry)?;
        push_timed(&mut packets, rounds[index], places[index], packet)?;
    }
    Ok(packets)
}

/// Returns the capture of a run, as a pcap file of IPv4 packets: what a tap at each remote's side of its link sees, which is
/// each segment as the remote sends it, and each as it reaches the remote, those that are repeated or come late too. It
/// stands in the order of rounds: a packet's second is its round, and its microsecond how many entries of that round come
/// before its own in the journal, at most 999,999. The world of the run is kept along its journal; the time that it takes
/// grows with the number of entries. Of a journal that no run of the lab's input has nothing is said.
pub fn capture_octets(alloc: Global, lab: &Lab) -> Result<Octets, NoMemory>
    requires { IsAccepted lab.now.input }
    ensures { IfOk result (IsLabCapture lab.now) }
{
    let rounds = entry_rounds(alloc, &lab.marks, &lab.journal)?;
    let places = places_of(alloc, &rounds, lab.marks.len() + 1)?;
    let packets = tapped_packets(alloc, &lab.input, &lab.journal, &rounds, &places)?;
    let packets = captured(alloc, by_round(packets)?)?;
    write_capture(alloc, &packets)
}
