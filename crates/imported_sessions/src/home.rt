//! The AS of the home side.

ghost use Rattle.std.specs.Prelude.{ℕ, ◌≡◌, ◌<◌, ◌≤◌, ◌==◌, true, false, IfOk, option_copied, option_map};
ghost use Rattle.std.specs.BTreeSet.{contains};
ghost use Rattle.std.specs.List.{list_any};
ghost use Rattle.std.specs.Ordering.{nat_cmp};
ghost use Rattle.captured_streams.specs.declared.streams.Streams.{Streams};
ghost use Rattle.imported_sessions.specs.Opened.{AreAllOpened};
ghost use Rattle.imported_sessions.specs.Opens.{first_home as first_home_lem, IsHomeAs, remote_opens};

use crate::opened::{Opened, as_of};
use bgp_types::{NoMemory, OpenMsg};
use std::alloc::Global;
use std::collections::BTreeSet;

/// The first AS for private use (RFC 6996).
const FIRST_PRIVATE: u32 = 64512;

/// Returns the first OPEN of the home side, if one was captured.
fn first_home(opened: &[Opened]) -> Option<&OpenMsg>
    ensures { (s : Streams) → AreAllOpened s opened.now → option_copied result ≡ first_home_lem s }
{
    for session in opened {
        if let Some(home) = &session.home {
            return Some(home);
        }
    }
    None
}

/// Returns the BGP Identifier of that OPEN.
pub(crate) fn home_id(opened: &[Opened]) -> Option<u32>
    ensures { (s : Streams) → AreAllOpened s opened.now → result ≡ option_map (λ o. o.identifier) (first_home_lem s) }
{
    Some(first_home(opened)?.identifier)
}

/// Returns the ASes of the remotes.
fn remote_ases(alloc: Global, opened: &[Opened]) -> Result<BTreeSet<u32>, NoMemory>
    ensures { IfOk result (λ ases. (a : ℕ) → contains nat_cmp ases a ≡ list_any (λ session. session.remote_as == a) opened.now) }
{
    let mut ases = BTreeSet::new(alloc);
    for session in opened {
        ases.insert(session.remote_as)?;
    }
    Ok(ases)
}

/// Returns the least AS for private use that isn't taken.
fn least_free(taken: &BTreeSet<u32>) -> Result<u32, NoMemory>
    ensures from { IfOk result (λ a. 64512 ≤ a) }
    ensures free { IfOk result (λ a. contains nat_cmp taken.now a ≡ false) }
    ensures least { IfOk result (λ a. (b : ℕ) → 64512 ≤ b → b < a → contains nat_cmp taken.now b ≡ true) }
{
    let mut free = FIRST_PRIVATE;
    while taken.contains(&free) {
        free = free.checked_add(1).ok_or(NoMemory)?;
    }
    Ok(free)
}

/// Returns the AS of the home side.
pub(crate) fn home_as(alloc: Global, opened: &[Opened]) -> Result<u32, NoMemory>
    ensures { IfOk result (λ a. (s : Streams) → AreAllOpened s opened.now → IsHomeAs (remote_opens s) (first_home_lem s) a) }
{
    match first_home(opened) {
        Some(home) => Ok(as_of(home)),
        None => least_free(&remote_ases(alloc, opened)?),
    }
}
