//! One actor under test.

use crate::laboratory::{far_side, operator};
use crate::plans::plans_that_come_through;
use crate::words::{fault_of, item_of};
use anyhow::{Result, bail};
use far_side::Far;
use graft_edge::NoMemory;
use graft_model::{ActorEvent, Code, event_of};
use graft_steps::{GraftLog, Item};
use operator_core::Operator;
use ring_net::{JournalEntry, Post};
use row_harness::{Table, number, word};
use settled_check::{far_rest, operator_rest};
use std::alloc::Global;

/// The two actors.
#[derive(Drop)]
enum Actor {
    FarSide(Far),
    TheOperator(Operator),
}

/// An actor, its post, and how many of its journal entries were already shown.
#[derive(Drop)]
pub struct Bench {
    actor: Actor,
    post: Post<Item<u8>>,
    seen: usize,
}

/// Returns the text of an event of a far side or the operator; empty for a router's event.
fn written(alloc: Global, event: ActorEvent) -> Result<String> {
    match event {
        ActorEvent::OfRouter(_) => Ok(String::new(alloc)),
        ActorEvent::OfFar(event) => Ok(format!(in alloc; "{event:?}")?),
        ActorEvent::OfOperator(event) => Ok(format!(in alloc; "{event:?}")?),
    }
}

/// Appends an event by its name and its three arguments.
fn put_entry(alloc: Global, text: &mut String, entry: &JournalEntry) -> Result<()> {
    let code = Code {
        kind: entry.kind,
        a: entry.a,
        b: entry.b,
        c: entry.c,
    };
    let Some(event) = event_of(code) else {
        text.push_str("dropped")?;
        return Ok(());
    };
    let written = written(alloc, event)?;
    let name = written.split(' ').next().unwrap_or("");
    write!(text, "{name} {} {} {}", code.a, code.b, code.c)?;
    Ok(())
}

/// Returns the text of each graft of a log.
fn log_text(alloc: Global, log: &GraftLog) -> Result<String> {
    let mut text = String::new(alloc);
    for entry in log {
        if !text.is_empty() {
            text.push_str(", ")?;
        }
        write!(text, "{} {:?} {:?}", entry.graft, entry.source, entry.stage)?;
    }
    Ok(text)
}

/// Returns the far side with the fault that a row has, if it has one.
fn far_of(alloc: Global, words: &[&str]) -> Result<Far> {
    if words.len() == 1 {
        return Ok(far_side(alloc, &[])?);
    }
    let fault = fault_of(words)?;
    Ok(far_side(alloc, &[fault])?)
}

/// Reports for how many plans of faults both streams come through.
fn through(alloc: Global, words: &[&str]) -> Result<String> {
    let plans = number(words, 1)?;
    let through = plans_that_come_through(alloc, plans)?;
    Ok(format!(in alloc; "{through}")?)
}

impl Bench {
    fn new(alloc: Global, actor: Actor) -> Result<Bench, NoMemory> {
        Ok(Bench {
            actor,
            post: Post::begin(alloc, 0, 0, &[0, 1, 2, 3, 4, 5])?,
            seen: 0,
        })
    }

    pub fn of_operator(alloc: Global) -> Result<Bench, NoMemory> {
        Bench::new(alloc, Actor::TheOperator(operator(alloc)?))
    }

    fn take(&mut self, from: usize, item: Item<u8>) -> Result<(), NoMemory> {
        match &mut self.actor {
            Actor::FarSide(far) => far.take(from, item, &mut self.post),
            Actor::TheOperator(operator) => operator.take(from, item, &mut self.post),
        }
    }

    fn turn(&mut self) -> Result<(), NoMemory> {
        match &mut self.actor {
            Actor::FarSide(far) => far.turn(&mut self.post),
            Actor::TheOperator(operator) => operator.turn(&mut self.post),
        }
    }

    fn between(&mut self) -> Result<bool, NoMemory> {
        match &mut self.actor {
            Actor::FarSide(far) => far.between(&mut self.post),
            Actor::TheOperator(operator) => operator.between(&mut self.post),
        }
    }

    /// Returns the events since the last look, each by its kind and its three arguments.
    fn news(&mut self, alloc: Global) -> Result<String> {
        let mut news = String::new(alloc);
        for entry in self.post.entries().iter().skip(self.seen) {
            if !news.is_empty() {
                news.push_str(", ")?;
            }
            put_entry(alloc, &mut news, entry)?;
        }
        if news.is_empty() {
            news.push_str("nothing")?;
        }
        self.seen = self.post.entries().len();
        Ok(news)
    }

    /// Calls the actor at a mark, and returns the outcome and its events.
    fn pause(&mut self, alloc: Global) -> Result<String> {
        let made = self.between()?;
        let news = self.news(alloc)?;
        Ok(format!(in alloc; "{made}, {news}")?)
    }

    /// Returns the first thing that it still has to do.
    fn first_pending(&self, alloc: Global) -> Result<String> {
        let first = match &self.actor {
            Actor::FarSide(far) => far_rest(&far.rest()),
            Actor::TheOperator(operator) => operator_rest(&operator.rest()),
        };
        Ok(format!(in alloc; "{first:?}")?)
    }

    /// Returns the operator's log: for each graft its number, where it was ordered, and its stage.
    fn log(&self, alloc: Global) -> Result<String> {
        match &self.actor {
            Actor::FarSide(_) => bail!("the operator's"),
            Actor::TheOperator(operator) => log_text(alloc, &operator.log()?),
        }
    }

    /// Returns, for a far side, how much its remote said and received, and where its link points.
    fn state(&self, alloc: Global) -> Result<String> {
        match &self.actor {
            Actor::FarSide(far) => {
                let (said, received) = (far.said().len(), far.received().len());
                Ok(format!(in alloc; "said {said}, received {received}, at {}", far.pointer().0)?)
            }
            Actor::TheOperator(_) => bail!("a far side's"),
        }
    }

    /// Returns the next item that it sent to an actor.
    fn sent(&mut self, alloc: Global, words: &[&str]) -> Result<String> {
        let to = number(words, 1)?;
        match self.post.take_sent(to as usize) {
            Some((_stamp, item)) => Ok(format!(in alloc; "{item:?}")?),
            None => Ok(format!(in alloc; "nothing")?),
        }
    }

    /// Starts again with the operator, or the far side with the fault that the row has, if it has one.
    fn begin(&mut self, alloc: Global, words: &[&str]) -> Result<()> {
        let actor = if word(words, 0) == "operator" {
            Actor::TheOperator(operator(alloc)?)
        } else {
            Actor::FarSide(far_of(alloc, words)?)
        };
        *self = Bench::new(alloc, actor)?;
        Ok(())
    }

    /// Takes the item of a row.
    fn take_item(&mut self, alloc: Global, words: &[&str]) -> Result<()> {
        let from = number(words, 1)?;
        let item = item_of(alloc, words)?;
        self.take(from as usize, item)?;
        Ok(())
    }

    /// Returns the answer to a row that looks at the actor.
    fn look(&mut self, alloc: Global, words: &[&str]) -> Result<String> {
        match word(words, 0) {
            "rest" => self.first_pending(alloc),
            "log" => self.log(alloc),
            "state" => self.state(alloc),
            "sent" => self.sent(alloc, words),
            "plans" => through(alloc, words),
            _ => bail!("a call"),
        }
    }
}

impl Table for Bench {
    fn answer(&mut self, alloc: Global, words: &[&str]) -> Result<String> {
        match word(words, 0) {
            "operator" | "far" => self.begin(alloc, words)?,
            "take" => self.take_item(alloc, words)?,
            "turn" => self.turn()?,
            "between" => return self.pause(alloc),
            _ => return self.look(alloc, words),
        }
        self.news(alloc)
    }
}
