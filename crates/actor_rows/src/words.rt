//! The words of a row: faults, and items to be taken.

use anyhow::{Context, Result, bail};
use bgp_types::Prefix;
use graft_edge::{Items, PeeringId, RouterId};
use graft_steps::{Item, Outcome, Refusal};
use link_bag::{Fault, FaultKind};
use row_harness::{number, small, word};
use std::alloc::Global;
use tcp_seq::{Segment, Seq, Way};

fn way_of(word: &str) -> Option<Way> {
    match word {
        "home" => Some(Way::Home),
        "remote" => Some(Way::Remote),
        _ => None,
    }
}

fn kind_of(word: &str) -> Option<FaultKind> {
    match word {
        "lose" => Some(FaultKind::Lose),
        "repeat" => Some(FaultKind::Repeat),
        "hold" => Some(FaultKind::Hold),
        "stray" => Some(FaultKind::Stray),
        _ => None,
    }
}

/// Returns the fault of the first segment one way: `WAY KIND AFTER` from the second word on.
pub fn fault_of(words: &[&str]) -> Result<Fault> {
    Ok(Fault {
        peering: PeeringId(0),
        way: way_of(word(words, 1)).context("a way")?,
        segment: 1,
        kind: kind_of(word(words, 2)).context("a fault")?,
        after: number(words, 3)?,
    })
}

/// Returns a segment: `PEERING WAY SEQ ACK LENGTH` from the fourth word on.
fn segment_of(alloc: Global, words: &[&str]) -> Result<Segment> {
    let peering = small(words, 3)?;
    let way = way_of(word(words, 4)).context("a way")?;
    let seq = number(words, 5)?;
    let ack = number(words, 6)?;
    let len = number(words, 7)?;
    Ok(Segment {
        peering: PeeringId(peering),
        way,
        seq: Seq(seq),
        ack: Seq(ack),
        window: 16_384,
        bytes: Items::from_vec(vec![in alloc; 9; len as usize]?),
    })
}

/// Returns an item of a graft: its name is the third word, and the graft's number the fourth.
fn item_of_graft(words: &[&str]) -> Result<Item<u8>> {
    let graft = number(words, 3)?;
    Ok(match word(words, 2) {
        "point" => Item::PointAt { graft },
        "moved" => Item::Moved { graft, capsule: 0 },
        "back" => Item::Back {
            graft,
            capsule: 0,
            refusal: Refusal::SameRouter,
        },
        "asked" => Item::Asked {
            graft,
            peering: PeeringId(0),
        },
        "answered" => Item::Answered {
            graft,
            peering: PeeringId(0),
        },
        "done" => Item::Done {
            graft,
            peering: PeeringId(0),
        },
        "order" => Item::GraftOrder {
            graft,
            peering: PeeringId(0),
            target: RouterId(1),
        },
        "accepted" => Item::Report {
            graft,
            outcome: Outcome::Accepted,
        },
        "refused" => Item::Report {
            graft,
            outcome: Outcome::Refused(Refusal::RouterFull(4)),
        },
        _ => bail!("an item"),
    })
}

/// Returns the item that a row has an actor take.
pub fn item_of(alloc: Global, words: &[&str]) -> Result<Item<u8>> {
    match word(words, 2) {
        "segment" => Ok(Item::Seg(segment_of(alloc, words)?)),
        "say" => Ok(Item::SayOrder {
            step: number(words, 3)?,
        }),
        "told" => Ok(Item::Told {
            prefix: Prefix::new(0, 0).context("a prefix")?,
            route: None,
        }),
        _ => item_of_graft(words),
    }
}
