//! The stamps of what is on its way between actors.

ghost use Rattle.std.specs.Prelude.{ℕ, ◌≡◌, ◌<◌, length, IfSome, OnOk};
ghost use Rattle.item_channels.specs.Channels.{items_between, IsSquare};
ghost use Rattle.audit_clocks.specs.Stamps.{next_stamp, without_next, with_stamp};

use graft_edge::NoMemory;
use item_channels::{Inbox, first, receive, send};

/// Returns the stamp of what an actor takes next from a sender: 0 without a sender, or if nothing is on its way.
pub(crate) fn next_from(stamps: &[Inbox<u64>], from: Option<usize>, to: usize) -> u64
    requires from { IfSome from (λ n. n < length stamps.now) }
    requires to { to < length stamps.now }
    requires square { IsSquare (length stamps.now) stamps.now }
    ensures { result ≡ next_stamp (items_between stamps.now) from to }
{
    let Some(from) = from else {
        return 0;
    };
    first(stamps, from, to).copied().unwrap_or(0)
}

/// Takes the next stamp out that leads from a sender to an actor, if there is a sender and a stamp.
pub(crate) fn take_next(stamps: &mut [Inbox<u64>], from: Option<usize>, to: usize)
    requires from { IfSome from (λ n. n < length stamps.old) }
    requires to { to < length stamps.old }
    requires square { IsSquare (length stamps.old) stamps.old }
    ensures square { IsSquare (length stamps.old) stamps.new }
    ensures rest { (a b : ℕ) → items_between stamps.new a b ≡ without_next (items_between stamps.old) from to a b }
{
    if let Some(from) = from {
        receive(stamps, from, to);
    }
}

/// Puts a stamp behind those that lead from an actor to a receiver, if there is one.
pub(crate) fn put(
    stamps: &mut [Inbox<u64>],
    from: usize,
    to: Option<usize>,
    stamp: u64,
) -> Result<(), NoMemory>
    requires from { from < length stamps.old }
    requires to { IfSome to (λ n. n < length stamps.old) }
    requires square { IsSquare (length stamps.old) stamps.old }
    ensures square { IsSquare (length stamps.old) stamps.new }
    ensures more { OnOk result ((a b : ℕ) → items_between stamps.new a b ≡ with_stamp (items_between stamps.old) from to stamp a b) }
{
    match to {
        Some(to) => send(stamps, from, to, stamp),
        None => Ok(()),
    }
}
