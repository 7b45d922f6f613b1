//! What an actor writes while it acts: entries of its journal, and items for others.

ghost use Rattle.std.specs.Prelude.{◌≡◌, ◌+◌, ◌++◌, ◌∷◌, ◌≢◌, ◌↔◌, [], ℕ, max, option_map, None, true, OnOk};
ghost use Rattle.std.specs.Prelude.{OnErr, IfOk, IfErr, IfSome, IfNone, IsNone, Contains, IsTrue};
ghost use Rattle.std.specs.List.{list_any};
ghost use Rattle.ring_net.specs.Posts.{actor_of, clock_of, entries_in, has_edge, waits, NotesEntry, SendsItem, Wrote, SameEdges};

use crate::entry::{JournalEntry, Stamp, Stamped};
use crate::parts::Journal;
use graft_edge::{Items, NoMemory};
use std::alloc::Global;
use std::collections::VecDeque;

/// What an actor writes while it acts. It holds the actor's journal and clock, and an outbox for each
/// edge that leads from the actor to another.
#[derive(Drop)]
pub struct Post<I> {
    pub(crate) actor: u16,
    pub(crate) clock: u64,
    pub(crate) entries: Vec<JournalEntry>,
    // The outboxes, by the number of the receiver.
    pub(crate) boxes: Vec<Option<VecDeque<Stamped<I>>>>,
}

impl<I: Drop> Post<I> {
    /// Returns the post of this actor with this last clock and no entry, and an empty outbox to each
    /// actor of `edges`.
    pub fn begin(alloc: Global, actor: u16, clock: u64, edges: &[u16]) -> Result<Post<I>, NoMemory>
        ensures actor { IfOk result (λ post. actor_of post ≡ actor) }
        ensures clock { IfOk result (λ post. clock_of post ≡ clock) }
        ensures entries { IfOk result (λ post. entries_in post ≡ []) }
        ensures edges { IfOk result (λ post. (b : ℕ) → has_edge post b ≡ list_any (λ to. to == b) edges.now) }
        ensures boxes { IfOk result (λ post. (b : ℕ) → waits post b ≡ []) }
    {
        let mut boxes = Vec::new(alloc);
        for to in edges {
            open_box(alloc, &mut boxes, usize::from(*to))?;
        }
        Ok(Post {
            actor,
            clock,
            entries: Vec::new(alloc),
            boxes,
        })
    }

    /// Raises the clock to this stamp, if it is lower.
    pub(crate) fn meet(&mut self, stamp: Stamp)
        ensures { self.new ≡ record self.old { clock = max self.old.clock stamp.0 } }
    {
        if self.clock < stamp.0 {
            self.clock = stamp.0;
        }
    }

    /// Adds an entry of the actor with the next clock. If memory runs out, nothing changes. Clock
    /// overflow is `NoMemory` too: there is no memory for that many entries.
    pub fn note(&mut self, kind: u16, a: u32, b: u32, c: u32) -> Result<(), NoMemory>
        ensures ok { OnOk result (NotesEntry self.old
            (record { clock = clock_of self.old + 1; actor = actor_of self.old; kind = kind; a = a; b = b; c = c }) self.new) }
        ensures err { OnErr result (Wrote self.old [] self.new) }
    {
        let Some(clock) = self.clock.checked_add(1) else {
            return Err(NoMemory);
        };
        self.entries.push(JournalEntry {
            clock,
            actor: self.actor,
            kind,
            a,
            b,
            c,
        })?;
        self.clock = clock;
        Ok(())
    }

    /// Appends the item to the outbox for its receiver, with the last clock as its stamp. If no edge
    /// leads from this actor to `to`, the item is dropped. If memory runs out, the item is returned and
    /// nothing changes.
    pub fn send(&mut self, to: usize, item: I) -> Result<(), I>
        ensures ok { OnOk result (SendsItem self.old to item self.new) }
        ensures err { IfErr result (λ back. (back ≡ item) × Wrote self.old [] self.new) }
    {
        if to >= self.boxes.len() {
            return Ok(());
        }
        let stamp = Stamp(self.clock);
        push_stamped(&mut self.boxes[to], Stamped { stamp, item })
    }

    /// Returns the entries in order.
    pub fn entries(&self) -> &[JournalEntry]
        ensures { result.now ≡ entries_in self.now }
    {
        self.entries.as_slice()
    }

    /// Returns only the entries. It allocates nothing.
    pub(crate) fn into_journal(self) -> Journal
        ensures { result ≡ entries_in self }
    {
        let Post { entries, .. } = self;
        Items::from_vec(entries)
    }

    /// Removes and returns the head of the outbox for this receiver. Returns `None` if and only if that
    /// outbox is empty or no edge leads there.
    pub fn take_sent(&mut self, to: usize) -> Option<(Stamp, I)>
        ensures none { IsNone result ↔ (waits self.old to ≡ []) }
        ensures head { IfSome result (λ sent. waits self.old to ≡ record { stamp = sent.0; item = sent.1 } ∷ waits self.new to) }
        ensures others { (b : ℕ) → b ≢ to → waits self.new b ≡ waits self.old b }
        ensures same { SameEdges self.old self.new × (clock_of self.new ≡ clock_of self.old) × (entries_in self.new ≡ entries_in self.old) }
    {
        if to >= self.boxes.len() {
            return None;
        }
        match pop_stamped(&mut self.boxes[to]) {
            Some(sent) => Some((sent.stamp, sent.item)),
            None => None,
        }
    }
}

ghost use Rattle.ring_net.specs.Posts.{box_items};
ghost use Rattle.std.specs.Prelude.{is_some, slice_index_or, if◌then◌else◌, ◌==◌};
ghost use Rattle.std.specs.Option.{option_to_list};

/// Appends an item to an outbox. If there is no outbox, the item is dropped. If memory runs out, the
/// item is returned and nothing changes.
fn push_stamped<I: Drop>(
    outbox: &mut Option<VecDeque<Stamped<I>>>,
    item: Stamped<I>,
) -> Result<(), I>
    ensures edge { is_some outbox.new ≡ is_some outbox.old }
    ensures ok { OnOk result (is_some outbox.old ≡ true → box_items outbox.new ≡ box_items outbox.old ++ item ∷ []) }
    ensures err { IfErr result (λ back. (back ≡ item.item) × (box_items outbox.new ≡ box_items outbox.old)) }
{
    let Some(queue) = outbox else {
        return Ok(());
    };
    match queue.push_back(item) {
        Ok(()) => Ok(()),
        Err(refused) => Err(refused.value.item),
    }
}

/// Removes and returns the head of an outbox.
fn pop_stamped<I: Drop>(outbox: &mut Option<VecDeque<Stamped<I>>>) -> Option<Stamped<I>>
    ensures edge { is_some outbox.new ≡ is_some outbox.old }
    ensures items { box_items outbox.old ≡ option_to_list result ++ box_items outbox.new }
    ensures none { IfNone result (box_items outbox.old ≡ []) }
{
    match outbox {
        Some(queue) => queue.pop_front(),
        None => None,
    }
}

/// Creates an empty outbox for this receiver.
pub(crate) fn open_box<I: Drop>(
    alloc: Global,
    boxes: &mut Vec<Option<VecDeque<Stamped<I>>>>,
    to: usize,
) -> Result<(), NoMemory>
    ensures edges { OnOk result ((b : ℕ) → is_some (slice_index_or boxes.new.items b None)
        ≡ (if b == to then true else is_some (slice_index_or boxes.old.items b None))) }
    ensures boxes { OnOk result (((b : ℕ) → box_items (slice_index_or boxes.old.items b None) ≡ [])
        → (b : ℕ) → box_items (slice_index_or boxes.new.items b None) ≡ []) }
{
    while boxes.len() <= to {
        boxes.push(None)?;
    }
    boxes[to] = Some(VecDeque::new(alloc));
    Ok(())
}
