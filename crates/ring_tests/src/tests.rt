//! Toy actors in nets, and merged journals.

ghost use Rattle.std.specs.Prelude.{ℕ, ◌≡◌, ◌+◌, ◌∷◌, [], Option, OnOk, IfOk};
ghost use Rattle.ring_net.specs.Posts.{actor_of, clock_of, Wrote, SameEdges};

use graft_edge::{FreeGate, Gate, Items, NoMemory};
use journal_merge::merge;
use ring_net::{Actor, Journal, JournalEntry, Journals, Net, Parts, Post, Stamp};
use std::alloc::Global;
use std::sync::atomic::{AtomicU64, Ordering};
use std::test::Fail;

/// An actor that sends a number of items in its next turn and another number in the one after it, and passes on what it takes.
#[derive(Drop)]
struct Toy {
    next: usize,
    to_send: u32,
    then: u32,
    seen: u32,
    last: u32,
}

/// Writes an event to the journal, and sends an item.
fn event(post: &mut Post<u32>, kind: u16, to: usize, item: u32) -> Result<(), NoMemory>
    ensures ok { OnOk result ((taken : Option (ℕ × ℕ)) → Wrote post.old
        (record {
          entry = record { clock = clock_of post.old + 1; actor = actor_of post.old; kind = kind; a = item; b = 0; c = 0 };
          taken = taken;
          sent = (to, item) ∷ [];
        } ∷ []) post.new) }
    ensures edges { SameEdges post.old post.new }
{
    post.note(kind, item, 0, 0)?;
    match post.send(to, item) {
        Ok(()) => Ok(()),
        Err(_item) => Err(NoMemory),
    }
}

impl Actor for Toy {
    type Item = u32;

    ghost Part = { Unit {0} };

    ghost part = { λ _. tt };

    ghost makes = { λ _ _ _ _ _ _. Unit {0} };

    ghost took = { λ _ _ _ _ _. Unit {0} };

    ghost turned = { λ _ _ _. Unit {0} };

    ghost paused = { λ _ _ _. Unit {0} };

    fn take(&mut self, _from: usize, item: u32, post: &mut Post<u32>) -> Result<(), NoMemory> {
        self.seen = self.seen.saturating_add(1);
        self.last = item;
        event(post, 1, self.next, item)?;
        Ok(())
    }

    fn turn(&mut self, post: &mut Post<u32>) -> Result<(), NoMemory> {
        for item in 0..self.to_send {
            event(post, 2, self.next, item)?;
        }
        self.to_send = self.then;
        self.then = 0;
        Ok(())
    }

    fn between(&mut self, _post: &mut Post<u32>) -> Result<bool, NoMemory> {
        Ok(false)
    }
}

fn make_toy(next: usize, to_send: u32) -> Toy {
    Toy {
        next,
        to_send,
        then: 0,
        seen: 0,
        last: 0,
    }
}

/// Returns two toys. The second sends `to_send` items to the first, which passes them on to no actor.
fn pair(alloc: Global, to_send: u32) -> Result<Net<Toy>, NoMemory> {
    let mut actors = Items::new(alloc);
    actors.push(make_toy(9, 0))?;
    actors.push(make_toy(0, to_send))?;
    Net::build(alloc, actors, &[(0, 1), (1, 0)])
}

/// An outbox of 1,000 items drains by 256 in a round, and the marks tell how many events there were.
#[test]
fn an_outbox_drains_by_256(rt: HostRuntime) -> Result<(), Fail> {
    let mut net = pair(rt.alloc(), 1000)?;
    let rows = [
        (1000usize, 0u64),
        (744, 256),
        (488, 512),
        (232, 768),
        (0, 1000),
        (0, 1000),
    ];
    for (left, seen) in rows {
        net.phase(&rt, 1, &FreeGate)?;
        net.mark()?;
        assert_eq!(rt; net.in_flight(1, 0), left);
        assert_eq!(rt; net.in_flight(0, 1), 0);
        assert_eq!(rt; net.events(), 1000 + seen);
    }
    Ok(())
}

/// A gate that holds one actor until another one has passed, for a limited number of looks.
#[derive(Drop)]
struct Hold {
    held: usize,
    until: usize,
    passed: AtomicU64,
    missed: AtomicU64,
}

fn make_hold(held: usize, until: usize) -> Hold {
    Hold {
        held,
        until,
        passed: AtomicU64::new(0),
        missed: AtomicU64::new(0),
    }
}

impl Gate for Hold {
    fn pass(&self, actor: usize) {
        if actor == self.until {
            self.passed.store(1, Ordering::SeqCst);
        }
        if actor != self.held {
            return;
        }
        for _ in 0..100_000_000u32 {
            if self.passed.load(Ordering::SeqCst) == 1 {
                return;
            }
        }
        self.missed.store(1, Ordering::SeqCst);
    }
}

/// Returns a toy that sends 120 items in its first turn, and one in the second.
fn busy_toy(next: usize) -> Toy {
    let mut toy = make_toy(next, 120);
    toy.then = 1;
    toy
}

/// Returns four toys. The first two send to each other.
fn four(alloc: Global) -> Result<Net<Toy>, NoMemory> {
    let mut actors = Items::new(alloc);
    actors.push(busy_toy(1))?;
    actors.push(busy_toy(0))?;
    actors.push(make_toy(9, 0))?;
    actors.push(make_toy(9, 0))?;
    Net::build(alloc, actors, &[(0, 1), (1, 0)])
}

/// After a phase with much to do the first two toys are dealt to two workers, and the third and the fourth act after one of them each.
/// The workers run at the same time: one of the first two is held until the other one's turn is over. What that one pushed is taken in
/// the same phase. This holds in both directions.
#[test]
fn two_workers_hand_over(rt: HostRuntime) -> Result<(), Fail> {
    for (held, other, until, events) in [(0usize, 1usize, 3usize, 603u64), (1, 0, 2, 843)] {
        let mut net = four(rt.alloc())?;
        net.phase(&rt, 2, &FreeGate)?;
        assert_eq!(rt; net.in_flight(1, 0), 240);
        let gate = make_hold(held, until);
        net.phase(&rt, 2, &gate)?;
        assert_eq!(rt; gate.missed.load(Ordering::SeqCst), 0);
        assert_eq!(rt; net.in_flight(other, held), 0);
        assert_eq!(rt; net.events(), events);
    }
    Ok(())
}

/// A gate that keeps the digits of the actors that passed, each plus one.
#[derive(Drop)]
struct Digits {
    passed: AtomicU64,
}

impl Gate for Digits {
    fn pass(&self, actor: usize) {
        let before = self.passed.load(Ordering::SeqCst);
        let digits = before.saturating_mul(10).saturating_add(actor as u64);
        self.passed
            .store(digits.saturating_add(1), Ordering::SeqCst);
    }
}

/// One worker lets the actors act in the order of their numbers, and so do several where there is little to do.
#[test]
fn few_items_are_for_one_worker(rt: HostRuntime) -> Result<(), Fail> {
    for (workers, phases) in [(1usize, 3u32), (8, 1)] {
        let mut net = four(rt.alloc())?;
        for _ in 0..phases {
            let gate = Digits {
                passed: AtomicU64::new(0),
            };
            net.phase(&rt, workers, &gate)?;
            assert_eq!(rt; gate.passed.load(Ordering::SeqCst), 1234);
        }
    }
    Ok(())
}

/// Any number of workers leaves the same actors, if their result doesn't depend on the schedule.
#[test]
fn workers_leave_the_same(rt: HostRuntime) -> Result<(), Fail> {
    for workers in [1usize, 2, 3, 8] {
        let mut net = pair(rt.alloc(), 300)?;
        for _ in 0..4u32 {
            net.phase(&rt, workers, &FreeGate)?;
        }
        net.level();
        assert!(rt; !net.between(0)?);
        assert_eq!(rt; net.events(), 600);
        assert_eq!(rt; net.actor(0).last, 299);
    }
    Ok(())
}

/// A post keeps the pending items of each receiver, with their stamps, and drops items without a receiver.
#[test]
fn a_post_keeps_what_was_sent(rt: HostRuntime) -> Result<(), Fail> {
    let mut post = Post::begin(rt.alloc(), 3, 7, &[2, 5])?;
    event(&mut post, 1, 5, 50)?;
    event(&mut post, 1, 4, 40)?;
    event(&mut post, 1, 5, 51)?;
    assert_eq!(rt; post.entries().len(), 3);
    assert!(rt; post.take_sent(4).is_none());
    let mut sent = Vec::new(rt.alloc());
    for _ in 0..3u32 {
        if let Some((stamp, item)) = post.take_sent(5) {
            sent.push((stamp, item))?;
        }
    }
    assert_eq!(rt;
        sent.as_slice(),
        [(Stamp(8), 50), (Stamp(10), 51)].as_slice()
    );
    Ok(())
}

/// A net leaves its actors, journals and marks, and the items of each channel in their order.
#[test]
fn a_net_leaves_its_parts(rt: HostRuntime) -> Result<(), Fail> {
    let mut net = pair(rt.alloc(), 300)?;
    net.phase(&rt, 1, &FreeGate)?;
    net.mark()?;
    let Parts {
        actors,
        journals,
        marks,
        left,
    } = net.finish()?;
    assert_eq!(rt; actors.len(), 2);
    let lengths: [u64; 2] = [0, 300];
    for (journal, mark) in journals.as_slice().iter().zip(&lengths) {
        assert_eq!(rt; journal.len() as u64, *mark);
    }
    assert_eq!(rt; marks.len(), 2);
    assert_eq!(rt; left.len(), 2);
    let mut next = 0u32;
    for channel in left.as_slice() {
        for item in channel.items.as_slice() {
            assert_eq!(rt; *item, next);
            next = next.saturating_add(1);
        }
    }
    assert_eq!(rt; next, 300);
    Ok(())
}

fn entry(clock: u64, actor: u16) -> JournalEntry
    ensures { result ≡ record { clock = clock; actor = actor; kind = 1; a = 0; b = 0; c = 0 } }
{
    JournalEntry {
        clock,
        actor,
        kind: 1,
        a: 0,
        b: 0,
        c: 0,
    }
}

/// Returns a journal of two entries.
fn two(alloc: Global, first: JournalEntry, second: JournalEntry) -> Result<Journal, NoMemory>
    ensures { IfOk result (λ journal. journal ≡ first ∷ second ∷ []) }
{
    let mut journal = Items::one(alloc, first)?;
    journal.push(second)?;
    Ok(journal)
}

/// Returns the journals of three actors. The second one is empty.
fn three(alloc: Global) -> Result<Journals, NoMemory> {
    let first = two(alloc, entry(2, 0), entry(5, 0))?;
    let third = two(alloc, entry(1, 2), entry(2, 2))?;
    let mut list = Items::one(alloc, first)?;
    list.push(Items::new(alloc))?;
    list.push(third)?;
    Ok(Journals::from_items(list))
}

/// The entries are in the order of their clocks, and two with the same clock in the order of their actors.
#[test]
fn entries_stand_by_clock_and_actor(rt: HostRuntime) -> Result<(), Fail> {
    let merged = merge(rt.alloc(), three(rt.alloc())?)?;
    let expected = [entry(1, 2), entry(2, 0), entry(2, 2), entry(5, 0)];
    assert_eq!(rt; merged.as_slice(), expected.as_slice());
    Ok(())
}
