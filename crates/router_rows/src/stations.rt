//! A router with its post.

use anyhow::Result;
use bgp_session::Capsule;
use graft_edge::NoMemory;
use graft_model::{ActorEvent, Code, event_of};
use graft_steps::Item;
use ring_net::{JournalEntry, Post};
use router_core::Router;
use std::alloc::Global;

/// A router, its post, and how many of its journal entries were already shown.
#[derive(Drop)]
pub struct Station {
    pub router: Router,
    post: Post<Item<Capsule>>,
    seen: usize,
}

/// Appends a router's event by its name and its three arguments.
fn put_entry(alloc: Global, text: &mut String, entry: &JournalEntry) -> Result<()> {
    let code = Code {
        kind: entry.kind,
        a: entry.a,
        b: entry.b,
        c: entry.c,
    };
    let Some(ActorEvent::OfRouter(event)) = event_of(code) else {
        text.push_str("dropped")?;
        return Ok(());
    };
    let written = format!(in alloc; "{event:?}")?;
    let name = written.split(' ').next().unwrap_or("");
    write!(text, "{name} {} {} {}", code.a, code.b, code.c)?;
    Ok(())
}

impl Station {
    /// Returns a router of this number, at its beginning.
    pub fn new(alloc: Global, number: u16, router: Router) -> Result<Station, NoMemory> {
        Ok(Station {
            router,
            post: Post::begin(alloc, number, 0, &[0, 1, 2, 3, 4, 5, 6, 7, 8])?,
            seen: 0,
        })
    }

    /// Takes an item.
    pub fn take(&mut self, from: usize, item: Item<Capsule>) -> Result<(), NoMemory> {
        self.router.take(from, item, &mut self.post)
    }

    /// Makes a turn.
    pub fn turn(&mut self) -> Result<(), NoMemory> {
        self.router.turn(&mut self.post)
    }

    /// Calls the router at a mark. Returns whether it did anything.
    pub fn between(&mut self) -> Result<bool, NoMemory> {
        self.router.between(&mut self.post)
    }

    /// Removes and returns the next item that was sent to an actor.
    pub fn take_sent(&mut self, to: usize) -> Option<Item<Capsule>> {
        let (_stamp, item) = self.post.take_sent(to)?;
        Some(item)
    }

    /// Returns the events since the last look, each by its kind and its three arguments.
    pub fn news(&mut self, alloc: Global) -> Result<String> {
        let mut news = String::new(alloc);
        for entry in self.post.entries().iter().skip(self.seen) {
            if !news.is_empty() {
                news.push_str(", ")?;
            }
            put_entry(alloc, &mut news, entry)?;
        }
        if news.is_empty() {
            news.push_str("nothing")?;
        }
        self.seen = self.post.entries().len();
        Ok(news)
    }
}
