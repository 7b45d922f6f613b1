//! Gates that hold one worker until the other one has gone on. Each run is one of two routers, `a` and `b`, each with a remote that
//! announces prefixes, one of them a round later than the other. In the first round in which prefixes are decided and told, one worker lets
//! all actors act, since there was little to do before. In the round behind it, when the late remote's prefixes come, two workers do: the
//! routers have the most to do, and so are dealt to different ones, and at least one of the remotes and the operator acts after each. Where
//! workers didn't run side by side, a gate would never open.

use crate::labs::run;
use graft_edge::{FreeGate, Gate, NoMemory};
use lab_report::{Lab, RunEnd};
use std::alloc::Global;
use std::fmt::Write;
use std::hint::spin_loop;
use std::process::Abort;
use std::sync::atomic::{AtomicU64, Ordering};
use std::test::Fail;
use std::thread::Threads;

/// Two routers, each with a remote.
const TWO_ROUTERS: &str = r#"
home_as = 65000

[[router]]
name = "a"
id = "10.255.0.1"
sessions = 4

[[router]]
name = "b"
id = "10.255.0.2"
sessions = 4

[[peering]]
name = "c1"
at = "a"
remote_as = 65001
remote_address = "192.0.2.1"
local_address = "192.0.2.2"

[[peering]]
name = "c2"
at = "b"
remote_as = 65002
remote_address = "192.0.2.5"
local_address = "192.0.2.6"
"#;

// The actors of this input.
const ROUTER_A: usize = 0;

const ROUTER_B: usize = 1;

/// The two remotes and the operator.
const OTHERS: [usize; 3] = [2, 3, 4];

/// The kind of an event by which a router tells another one a route.
const TELL: u16 = 7;

/// The kind of an event by which a router hears what another one told.
const HEAR: u16 = 8;

/// How many entries a round with much to do has at least: a router decides 200 prefixes and tells them the other one. Together with the
/// 200 items on their way behind it they are enough load for two workers.
const MUCH: u64 = 400;

/// How often a gate looks whether it may open: for some seconds, so that a thread that waits for a processor is waited for.
const MOST_LOOKS: u32 = 100_000_000;

/// Holds one pass of an actor, until others have passed often enough.
#[derive(Drop)]
struct Hold {
    held: usize,
    others: [usize; 3],
    /// Which of its passes is held, counted from 1: the number of the round.
    round: u64,
    /// How many passes of the others it waits for.
    wanted: u64,
    held_passes: AtomicU64,
    other_passes: AtomicU64,
    missed: AtomicU64,
}

impl Hold {
    fn new(held: usize, others: [usize; 3], round: u64, wanted: u64) -> Hold {
        Hold {
            held,
            others,
            round,
            wanted,
            held_passes: AtomicU64::new(0),
            other_passes: AtomicU64::new(0),
            missed: AtomicU64::new(0),
        }
    }

    /// Holds an actor in a round until another one has passed in it.
    fn until(held: usize, other: usize, round: u64) -> Hold {
        Hold::new(held, [other, other, other], round, round)
    }

    /// Holds a router in a round until one of the remotes and the operator has passed in it.
    fn until_any(held: usize, round: u64) -> Hold {
        let wanted = round.saturating_mul(3).saturating_sub(2);
        Hold::new(held, OTHERS, round, wanted)
    }

    /// Waits until the others have passed often enough.
    fn wait(&self) {
        for _ in 0..MOST_LOOKS {
            if self.other_passes.load(Ordering::SeqCst) >= self.wanted {
                return;
            }
            spin_loop();
        }
        self.missed.fetch_add(1, Ordering::SeqCst);
    }

    /// Whether the wait came to its end within the looks.
    fn has_opened(&self) -> bool {
        self.missed.load(Ordering::SeqCst) == 0
    }
}

impl Gate for Hold {
    fn pass(&self, actor: usize) {
        if self.others.contains(&actor) {
            self.other_passes.fetch_add(1, Ordering::SeqCst);
        }
        if actor == self.held {
            let before = self.held_passes.fetch_add(1, Ordering::SeqCst);
            if before.saturating_add(1) == self.round {
                self.wait();
            }
        }
    }
}

/// Adds the step in which a peering's remote announces 200 prefixes.
fn push_announcement(text: &mut String, peering: &str, second: u8) -> Result<(), NoMemory> {
    write!(
        text,
        "\n[[step]]\ndo = \"announce\"\npeering = \"{peering}\"\n"
    )?;
    write!(text, "prefixes = [\"11.{second}.0.0/16\"")?;
    for prefix in 0..199u8 {
        write!(text, ", \"10.{second}.{prefix}.0/24\"")?;
    }
    text.push_str("]\n")?;
    Ok(())
}

/// Returns the input in which both remotes announce prefixes, and the link of one peering delivers them a round late.
fn with_late_prefixes(alloc: Global, late: &str) -> Result<String, NoMemory> {
    let mut text = String::new(alloc);
    text.push_str(TWO_ROUTERS)?;
    write!(text, "\n[[fault]]\npeering = \"{late}\"\nway = \"home\"\n")?;
    // The fourth segment is the first one that has prefixes.
    text.push_str("segment = 4\nkind = \"hold\"\nafter = 1\n")?;
    push_announcement(&mut text, "c1", 1)?;
    push_announcement(&mut text, "c2", 2)?;
    Ok(text)
}

/// How many entries all actors had at the mark of this number, from 0.
fn length_of_all(lab: &Lab, mark: usize) -> Option<u64> {
    let lengths = lab.marks.get(mark)?;
    let mut sum = 0u64;
    for length in lengths.iter() {
        sum = sum.saturating_add(*length);
    }
    Some(sum)
}

/// The number of the round, counted from 1, behind the first round with much to do.
fn round_behind(lab: &Lab) -> Option<usize> {
    for round in 1..lab.marks.len() {
        let before = length_of_all(lab, round - 1)?;
        let behind = length_of_all(lab, round)?;
        if behind.saturating_sub(before) >= MUCH {
            return Some(round + 1);
        }
    }
    None
}

/// How many entries an actor had at the mark of this number, from 0.
fn length_at(lab: &Lab, mark: usize, actor: usize) -> Option<usize> {
    let lengths = lab.marks.get(mark)?;
    let length = lengths.get(actor)?;
    Some(*length as usize)
}

/// How many events of this kind an actor had made at the mark of this number, from 0.
fn made_at(lab: &Lab, mark: usize, actor: usize, kind: u16) -> Option<usize> {
    let length = length_at(lab, mark, actor)?;
    let mut its_own = lab
        .journal
        .iter()
        .filter(|entry| usize::from(entry.actor) == actor);
    Some(
        its_own
            .take(length)
            .filter(|entry| entry.kind == kind)
            .count(),
    )
}

/// Whether a router heard something in the round of this number, from 1, that the other one told in it: so it is where it had heard more at
/// the end of the round than had been told at its beginning.
fn hears_what_is_told(lab: &Lab, round: usize, hears: usize, tells: usize) -> Option<bool> {
    let told = made_at(lab, round.saturating_sub(1), tells, TELL)?;
    let heard = made_at(lab, round, hears, HEAR)?;
    Some(heard > told)
}

/// Runs the input by one worker, and returns the number of the round that two workers would make.
fn dealt_round<R: Threads + Sync + Abort + AllocGlobal>(
    rt: &R,
    input: &str,
) -> Result<usize, Fail> {
    let lab = run(rt, input, 1, &FreeGate)?;
    let round = round_behind(&lab).unwrap_or(0);
    assert!(rt; round > 1);
    Ok(round)
}

/// Each router waits until the other one, which another worker turns, has passed: neither worker waits for the other's turns to end.
#[test]
fn workers_run_side_by_side(rt: HostRuntime) -> Result<(), Fail> {
    let input = with_late_prefixes(rt.alloc(), "c1")?;
    let round = dealt_round(&rt, input.as_str())?;
    for (held, other) in [(ROUTER_A, ROUTER_B), (ROUTER_B, ROUTER_A)] {
        let gate = Hold::until(held, other, round as u64);
        let lab = run(&rt, input.as_str(), 2, &gate)?;
        assert!(rt; gate.has_opened());
        assert_eq!(rt; lab.end, RunEnd::Settled);
    }
    Ok(())
}

/// Holds a router until one of the remotes and the operator passes, which can only be one that acts after the other router; and checks that
/// it hears what that one told in the same round. The other router has something to tell, since its remote, whose peering this is, is late.
fn hear_in_the_round<R: Threads + Sync + Abort + AllocGlobal>(
    rt: &R,
    late: &str,
    tells: usize,
    hears: usize,
) -> Result<(), Fail> {
    let input = with_late_prefixes(rt.alloc(), late)?;
    let round = dealt_round(rt, input.as_str())?;
    let gate = Hold::until_any(hears, round as u64);
    let lab = run(rt, input.as_str(), 2, &gate)?;
    assert!(rt; gate.has_opened());
    assert_eq!(rt; lab.end, RunEnd::Settled);
    assert_eq!(rt; hears_what_is_told(&lab, round, hears, tells), Some(true));
    Ok(())
}

/// From router `a` to router `b`, which takes the item in the round in which it was pushed.
#[test]
fn an_item_from_a_is_taken_in_its_round(rt: HostRuntime) -> Result<(), Fail> {
    hear_in_the_round(&rt, "c1", ROUTER_A, ROUTER_B)
}

/// From router `b` to router `a`. No fixed order, in which all actors act one after another, passes both this test and the one above.
#[test]
fn an_item_from_b_is_taken_in_its_round(rt: HostRuntime) -> Result<(), Fail> {
    hear_in_the_round(&rt, "c2", ROUTER_B, ROUTER_A)
}
