//! Writing events to a journal, by posts.

ghost use Rattle.std.specs.Prelude.{◌∷◌, [], OnOk};
ghost use Rattle.ring_net.specs.Posts.{SameEdges};
ghost use Rattle.graft_model.specs.Codes.{router_code, far_code, operator_code};
ghost use Rattle.graft_actors.specs.Notes.{WroteOne, dropped};

use graft_edge::NoMemory;
use graft_model::{Code, FarEvent, OperatorEvent, RouterEvent};
use ring_net::Post;

/// Writes an event to the journal, by its code.
fn note<I: Drop>(post: &mut Post<I>, code: Code) -> Result<(), NoMemory>
    ensures ok { OnOk result (WroteOne post.old code [] post.new) }
    ensures edges { SameEdges post.old post.new }
{
    post.note(code.kind, code.a, code.b, code.c)
}

/// Writes an event to the journal, by its code, and sends an item.
fn note_and_send<I: Drop>(
    post: &mut Post<I>,
    code: Code,
    to: usize,
    item: I,
) -> Result<(), NoMemory>
    ensures ok { OnOk result (WroteOne post.old code ((to, item) ∷ []) post.new) }
    ensures edges { SameEdges post.old post.new }
{
    post.note(code.kind, code.a, code.b, code.c)?;
    match post.send(to, item) {
        Ok(()) => Ok(()),
        Err(_) => Err(NoMemory),
    }
}

/// Writes a router's event that sends nothing to the journal. Which item it takes is known to the caller, here and in
/// the calls below.
pub fn note_router<I: Drop>(post: &mut Post<I>, event: RouterEvent) -> Result<(), NoMemory>
    ensures ok { OnOk result (WroteOne post.old (router_code event) [] post.new) }
    ensures edges { SameEdges post.old post.new }
{
    note(post, event.code())
}

/// Writes a router's event to the journal, and sends an item.
pub fn note_router_sent<I: Drop>(
    post: &mut Post<I>,
    event: RouterEvent,
    to: usize,
    item: I,
) -> Result<(), NoMemory>
    ensures ok { OnOk result (WroteOne post.old (router_code event) ((to, item) ∷ []) post.new) }
    ensures edges { SameEdges post.old post.new }
{
    note_and_send(post, event.code(), to, item)
}

/// Writes a far side's event that sends nothing to the journal.
pub fn note_far<I: Drop>(post: &mut Post<I>, event: FarEvent) -> Result<(), NoMemory>
    ensures ok { OnOk result (WroteOne post.old (far_code event) [] post.new) }
    ensures edges { SameEdges post.old post.new }
{
    note(post, event.code())
}

/// Writes a far side's event to the journal, and sends an item.
pub fn note_far_sent<I: Drop>(
    post: &mut Post<I>,
    event: FarEvent,
    to: usize,
    item: I,
) -> Result<(), NoMemory>
    ensures ok { OnOk result (WroteOne post.old (far_code event) ((to, item) ∷ []) post.new) }
    ensures edges { SameEdges post.old post.new }
{
    note_and_send(post, event.code(), to, item)
}

/// Writes an event of the operator that sends nothing to the journal.
pub fn note_operator<I: Drop>(post: &mut Post<I>, event: OperatorEvent) -> Result<(), NoMemory>
    ensures ok { OnOk result (WroteOne post.old (operator_code event) [] post.new) }
    ensures edges { SameEdges post.old post.new }
{
    note(post, event.code())
}

/// Writes an event of the operator to the journal, and sends an item.
pub fn note_operator_sent<I: Drop>(
    post: &mut Post<I>,
    event: OperatorEvent,
    to: usize,
    item: I,
) -> Result<(), NoMemory>
    ensures ok { OnOk result (WroteOne post.old (operator_code event) ((to, item) ∷ []) post.new) }
    ensures edges { SameEdges post.old post.new }
{
    note_and_send(post, event.code(), to, item)
}

/// Writes to the journal that an item was dropped, which is no event.
pub fn note_dropped<I: Drop>(post: &mut Post<I>) -> Result<(), NoMemory>
    ensures ok { OnOk result (WroteOne post.old dropped [] post.new) }
    ensures edges { SameEdges post.old post.new }
{
    post.note(0, 0, 0, 0)
}
