//! A cell: an actor with its post and its ends of the rings, and what it does in a phase.

ghost use Rattle.std.specs.Prelude.{◌≡◌, ◌≢◌, ◌≤◌, ◌<◌, ◌+◌, ◌++◌, ℕ, None, length, slice_index_or, is_some};
ghost use Rattle.rtrb.specs.Ring.{sent, received, known_free, SameProducer, SameConsumer, consumer_capacity};
ghost use Rattle.ring_net.specs.Posts.{box_items, SameEdges};
ghost use Rattle.ring_net.specs.Ends.{Flushed, SameIn, SameOut};
ghost use Rattle.ring_net.specs.Peers.{ListsIndices};

use crate::actor::Actor;
use crate::ends::Ends;
use crate::entry::{Stamp, Stamped};
use crate::post::Post;
use graft_edge::NoMemory;
use rtrb::{Consumer, Producer};
use std::collections::VecDeque;

/// An actor with its post, the ends of the rings that lead from it, by the number of the receiver, and
/// the ends of those that lead to it, by the number of the sender.
#[derive(Drop)]
pub struct Cell<A: Actor> {
    pub(crate) actor: A,
    pub(crate) post: Post<A::Item>,
    pub(crate) rings: Ends<Producer<Stamped<A::Item>>>,
    pub(crate) ins: Ends<Consumer<Stamped<A::Item>>>,
    pub(crate) has_failed: bool,
}

/// Moves waiting items from an outbox into its ring, until the outbox is empty or the ring is full.
fn flush<T: Drop>(out: &mut Producer<T>, outbox: &mut VecDeque<T>)
    ensures ring { SameProducer out.old out.new }
    ensures said { sent out.new ++ outbox.new.items ≡ sent out.old ++ outbox.old.items }
    // At least the slots that were known to be free are filled, if items are left.
    ensures pushes { (0 < length outbox.new.items) → length (sent out.old) + known_free out.old ≤ length (sent out.new) }
{
    let free = out.slots();
    for _ in 0..free {
        match outbox.pop_front() {
            Some(item) => out.push_reserved(item),
            None => return,
        }
    }
}

/// Moves waiting items into a ring as `flush` does, if there are a ring and an outbox.
fn flush_one<I: Drop>(
    ring: &mut Option<Producer<Stamped<I>>>,
    outbox: &mut Option<VecDeque<Stamped<I>>>,
)
    ensures { Flushed ring.old outbox.old ring.new outbox.new }
{
    let Some(out) = ring else {
        return;
    };
    let Some(queue) = outbox else {
        return;
    };
    flush(out, queue);
}

/// Moves items that wait for `b` into its ring, until it is full.
fn flush_at<I: Drop>(
    rings: &mut [Option<Producer<Stamped<I>>>],
    boxes: &mut [Option<VecDeque<Stamped<I>>>],
    b: usize,
)
    requires { b < length rings.old }
    ensures here { Flushed (slice_index_or rings.old b None) (slice_index_or boxes.old b None)
        (slice_index_or rings.new b None) (slice_index_or boxes.new b None) }
    ensures others { (x : ℕ) → x ≢ b
        → (slice_index_or rings.new x None ≡ slice_index_or rings.old x None) × (slice_index_or boxes.new x None ≡ slice_index_or boxes.old x None) }
{
    if b < boxes.len() {
        flush_one(&mut rings[b], &mut boxes[b]);
    }
}

/// Moves items that wait for each receiver into its ring, until it is full.
fn flush_each<I: Drop>(
    receivers: &[usize],
    rings: &mut [Option<Producer<Stamped<I>>>],
    boxes: &mut [Option<VecDeque<Stamped<I>>>],
)
    requires { ListsIndices rings.old receivers.now }
    ensures { (b : ℕ)
        → Flushed (slice_index_or rings.old b None) (slice_index_or boxes.old b None) (slice_index_or rings.new b None) (slice_index_or boxes.new b None) }
{
    for b in receivers {
        flush_at(rings, boxes, *b);
    }
}

/// Moves all items that wait in a cell into their rings, until these are full.
fn flush_all<I: Drop>(
    rings: &mut Ends<Producer<Stamped<I>>>,
    boxes: &mut [Option<VecDeque<Stamped<I>>>],
)
    ensures { (b : ℕ) → Flushed (slice_index_or rings.old.slots.items b None) (slice_index_or boxes.old b None)
        (slice_index_or rings.new.slots.items b None) (slice_index_or boxes.new b None) }
{
    flush_each(rings.peers.as_slice(), rings.slots.as_mut_slice(), boxes);
}

ghost use Rattle.std.specs.Prelude.{true, false, max, OnOk};
ghost use Rattle.ring_net.specs.Posts.{TookItem};
ghost use Rattle.ring_net.specs.Ends.{IsSmall};
ghost use Rattle.ring_net.specs.Takes.{TookFrom, TookOne, TookEach, Acts};
ghost use Rattle.ring_net.specs.Cells.{CellTurned};

/// The most items that are taken from one channel in one phase.
const MOST: u32 = 256;

/// Takes one item.
fn take_one<A: Actor>(
    actor: &mut A,
    from: usize,
    mail: Stamped<A::Item>,
    post: &mut Post<A::Item>,
) -> Result<(), NoMemory>
    ensures edges { SameEdges post.old post.new }
    ensures took { OnOk result
        (TookItem A.part A.makes A.took from mail.item actor.old (record post.old { clock = max post.old.clock mail.stamp.0 }) actor.new post.new) }
{
    let Stamped { stamp, item } = mail;
    post.meet(stamp);
    actor.take(from, item, post)
}

/// Takes the items in a ring, at most 256.
fn take_from<A: Actor>(
    actor: &mut A,
    from: usize,
    into: &mut Consumer<Stamped<A::Item>>,
    post: &mut Post<A::Item>,
) -> Result<(), NoMemory>
    ensures ring { SameConsumer into.old into.new }
    ensures edges { SameEdges post.old post.new }
    ensures took { OnOk result (TookFrom A.part A.makes A.took from actor.old post.old into.old actor.new post.new into.new) }
{
    for _ in 0..MOST {
        match into.pop() {
            Ok(mail) => take_one(actor, from, mail, post)?,
            Err(_) => return Ok(()),
        }
    }
    Ok(())
}

/// Takes the items in a ring as `take_from` does, if there is a ring.
fn take_maybe<A: Actor>(
    actor: &mut A,
    from: usize,
    into: &mut Option<Consumer<Stamped<A::Item>>>,
    post: &mut Post<A::Item>,
) -> Result<(), NoMemory>
    ensures ring { SameIn into.old into.new }
    ensures edges { SameEdges post.old post.new }
    ensures took { OnOk result (TookOne A.part A.makes A.took from actor.old post.old into.old actor.new post.new into.new) }
{
    match into {
        Some(ring) => take_from(actor, from, ring, post),
        None => Ok(()),
    }
}

/// Takes the items that the sender `from` has put into its ring, at most 256.
fn take_at<A: Actor>(
    actor: &mut A,
    ins: &mut [Option<Consumer<Stamped<A::Item>>>],
    from: usize,
    post: &mut Post<A::Item>,
) -> Result<(), NoMemory>
    requires { from < length ins.old }
    ensures ring { SameIn (slice_index_or ins.old from None) (slice_index_or ins.new from None) }
    ensures edges { SameEdges post.old post.new }
    ensures others { (a : ℕ) → a ≢ from → slice_index_or ins.new a None ≡ slice_index_or ins.old a None }
    ensures took { OnOk result
        (TookOne A.part A.makes A.took from actor.old post.old (slice_index_or ins.old from None) actor.new post.new (slice_index_or ins.new from None)) }
{
    take_maybe(actor, from, &mut ins[from], post)
}

/// Takes the items of each sender in turn, at most 256 of each.
fn take_each<A: Actor>(
    actor: &mut A,
    senders: &[usize],
    ins: &mut [Option<Consumer<Stamped<A::Item>>>],
    post: &mut Post<A::Item>,
) -> Result<(), NoMemory>
    requires { ListsIndices ins.old senders.now }
    ensures rings { (a : ℕ) → SameIn (slice_index_or ins.old a None) (slice_index_or ins.new a None) }
    ensures edges { SameEdges post.old post.new }
    ensures took { OnOk result (TookEach A.part A.makes A.took actor.old post.old ins.old actor.new post.new ins.new) }
{
    for from in senders {
        take_at(actor, ins, *from, post)?;
    }
    Ok(())
}

/// Does all that an actor does in a phase: its takes, then its turn.
fn act<A: Actor>(
    actor: &mut A,
    ins: &mut Ends<Consumer<Stamped<A::Item>>>,
    post: &mut Post<A::Item>,
) -> Result<(), NoMemory>
    ensures rings { (a : ℕ) → SameIn (slice_index_or ins.old.slots.items a None) (slice_index_or ins.new.slots.items a None) }
    ensures edges { SameEdges post.old post.new }
    ensures acts { OnOk result (Acts A.part A.makes A.took A.turned actor.old post.old ins.old.slots.items actor.new post.new ins.new.slots.items) }
{
    take_each(actor, ins.peers.as_slice(), ins.slots.as_mut_slice(), post)?;
    actor.turn(post)
}

/// Lets a cell's actor act, and moves waiting items into the rings.
pub(crate) fn turn<A: Actor>(cell: &mut Cell<A>)
    ensures { CellTurned A.part A.makes A.took A.turned cell.old cell.new }
{
    let acted = act(&mut cell.actor, &mut cell.ins, &mut cell.post);
    flush_all(&mut cell.rings, cell.post.boxes.as_mut_slice());
    if let Err(NoMemory) = acted {
        cell.has_failed = true;
    }
}
