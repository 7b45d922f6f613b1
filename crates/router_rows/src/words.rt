//! The words of a row: octets, and items to be taken.

use anyhow::{Context, Result, bail};
use bgp_session::Capsule;
use bgp_types::Prefix;
use graft_edge::{Items, PeeringId, RouterId};
use graft_steps::{Item, Outcome};
use row_harness::{number, small, word};
use std::alloc::Global;
use tcp_seq::{Segment, Seq, Way};

/// Returns the octets that the words of a row spell in hexadecimal, from an index on; `*` stands for sixteen octets of
/// all ones.
pub fn octets(alloc: Global, words: &[&str], index: usize) -> Result<Vec<u8>> {
    let mut text = String::new(alloc);
    for word in words.iter().skip(index) {
        match word.strip_prefix('*') {
            Some(rest) => write!(text, "FFFFFFFFFFFFFFFFFFFFFFFFFFFFFFFF{rest}")?,
            None => text.push_str(word)?,
        }
    }
    Ok(hex::decode(alloc, text.as_str())?)
}

fn way_of(word: &str) -> Option<Way> {
    match word {
        "home" => Some(Way::Home),
        "remote" => Some(Way::Remote),
        _ => None,
    }
}

/// Returns a segment: `PEERING WAY SEQ ACK LENGTH` from the fifth word on.
fn segment_of(alloc: Global, words: &[&str]) -> Result<Segment> {
    let peering = small(words, 4)?;
    let way = way_of(word(words, 5)).context("a way")?;
    let seq = number(words, 6)?;
    let ack = number(words, 7)?;
    let len = number(words, 8)?;
    Ok(Segment {
        peering: PeeringId(peering),
        way,
        seq: Seq(seq),
        ack: Seq(ack),
        window: 16_384,
        bytes: Items::from_vec(vec![in alloc; 9; len as usize]?),
    })
}

/// Returns an item of a graft: its name is the fourth word, and the graft's number the fifth.
fn item_of_graft(words: &[&str]) -> Result<Item<Capsule>> {
    let graft = number(words, 4)?;
    Ok(match word(words, 3) {
        "point" => Item::PointAt { graft },
        "say" => Item::SayOrder { step: graft },
        "asked" => Item::Asked {
            graft,
            peering: PeeringId(small(words, 5)?),
        },
        "answered" => Item::Answered {
            graft,
            peering: PeeringId(small(words, 5)?),
        },
        "done" => Item::Done {
            graft,
            peering: PeeringId(small(words, 5)?),
        },
        "order" => Item::GraftOrder {
            graft,
            peering: PeeringId(small(words, 5)?),
            target: RouterId(small(words, 6)?),
        },
        "report" => Item::Report {
            graft,
            outcome: Outcome::Accepted,
        },
        _ => bail!("an item"),
    })
}

/// Returns the item that a row has a router take: `take ROUTER FROM ITEM ..`.
pub fn item_of(alloc: Global, words: &[&str]) -> Result<Item<Capsule>> {
    match word(words, 3) {
        "segment" => Ok(Item::Seg(segment_of(alloc, words)?)),
        "none" => Ok(Item::Told {
            prefix: Prefix::new(number(words, 4)?, small(words, 5)?).context("a prefix")?,
            route: None,
        }),
        _ => item_of_graft(words),
    }
}
