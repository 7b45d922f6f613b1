//! Events of the operator: orders, outcomes that are noted, and groups that begin.

ghost use Rattle.std.specs.Prelude.{ℕ, ◌≡◌, ◌<◌, ◌∷◌, length, Some, None, IfOk, slice_get};
ghost use Rattle.graft_steps.specs.declared.item.Item.TheVariants as items;
ghost use Rattle.graft_model.specs.declared.event.OperatorEvent.TheVariants.{Order, Note, Go};
ghost use Rattle.graft_actors.specs.Actors.{Router};
ghost use Rattle.audit_channels.specs.Channels.{parcels_in};
ghost use Rattle.audit_operator.specs.Decides.{DecidesOperator, DecidesOperatorTaking, NothingIsLeft};
ghost use Rattle.audit_operator.specs.Parts.{OperatorStands};
ghost use Rattle.audit_operator.specs.Opens.{Ends, HaveSeats, IsMadeAt, IssuesGraft};
ghost use Rattle.operator_state.specs.Notes.{IsOpenIndex};
ghost use Rattle.operator_state.specs.Slots.{move_of, slot_at};
ghost use Rattle.audit_operator.specs.Tasks.{IsNamed, reported, says_in};

use crate::operator::AuditedOperator;
use audit_channels::Channel;
use audit_ruling::Ruling;
use graft_edge::{NoMemory, PeeringId, RouterId};
use graft_steps::{Item, Outcome};
use operator_state::{Move, Seat, Task, end, give, group_from, issue, moved, open_graft};

/// Returns the graft whose outcome a router reports next, if a report is next.
fn next_report(channel: &Channel) -> Option<u32>
    ensures { result ≡ reported (slice_get (parcels_in channel.now) 0) }
{
    match channel.first()? {
        Item::Report { graft, .. } => Some(*graft),
        _ => None,
    }
}

/// Takes the report that is next out of a channel, and returns its outcome.
fn take_outcome(channel: &mut Channel) -> Outcome
    requires { (graft : ℕ) × (reported (slice_get (parcels_in channel.old) 0) ≡ Some graft) }
    ensures { (graft : ℕ) → reported (slice_get (parcels_in channel.old) 0) ≡ Some graft
        → parcels_in channel.old ≡ items.Report graft result ∷ parcels_in channel.new }
{
    let Some(Item::Report { outcome, .. }) = channel.take() else {
        unreachable!()
    };
    outcome
}

impl AuditedOperator {
    /// Orders a task, which stands at this index and has a remote say something, unless an earlier say of that remote
    /// waits.
    fn order_say(&mut self, index: usize, task: Task, peering: PeeringId) -> Ruling
        requires sound { OperatorStands self.old }
        requires there { slice_get self.old.tasks.items index ≡ Some task }
        requires says { says_in self.old task ≡ Some peering }
        ensures { (step number : ℕ) → IsNamed self.old step number index task → DecidesOperator (Order step number) self.old result self.new }
    {
        if self.is_say_before(index, peering) {
            return Ruling::Refused;
        }
        self.tasks.remove(index);
        Ruling::Sends {
            to: self.script.rooms.len() + usize::from(peering.0),
            item: Item::SayOrder { step: task.step },
        }
    }

    /// Returns the seat of a peering.
    fn seat(&self, peering: PeeringId) -> Seat
        requires { peering.0 < length self.now.seats.items }
        ensures { slice_get self.now.seats.items peering.0 ≡ Some result }
    {
        self.seats[usize::from(peering.0)]
    }

    /// Records that the graft of a task was ordered at the router where the session belongs, and returns that router.
    fn issue_graft(&mut self, task: Task, moves: Move) -> RouterId
        requires seated { moves.peering.0 < length self.old.seats.items }
        requires made { move_of (slot_at self.old.slots.items task.graft) ≡ Some moves }
        ensures { IssuesGraft self.old task self.new result }
    {
        let seat = self.seats[usize::from(moves.peering.0)];
        issue(&mut self.slots[task.graft as usize - 1], seat.place);
        self.seats[usize::from(moves.peering.0)] = Seat {
            place: seat.place,
            moving: true,
        };
        seat.place
    }

    /// Orders a task, which stands at this index and is a graft, at the router where the session belongs, unless an
    /// earlier graft of the peering waits or hasn't ended.
    fn order_graft(&mut self, index: usize, task: Task) -> Ruling
        requires sound { OperatorStands self.old }
        requires there { slice_get self.old.tasks.items index ≡ Some task }
        requires graft { says_in self.old task ≡ None }
        ensures { (step number : ℕ) → IsNamed self.old step number index task → DecidesOperator (Order step number) self.old result self.new }
    {
        let Some(moves) = self.moves(task) else {
            return Ruling::Refused;
        };
        let seat = self.seat(moves.peering);
        if seat.moving {
            return Ruling::Refused;
        }
        if self.is_graft_before(index, moves.peering) {
            return Ruling::Refused;
        }
        let place = self.issue_graft(task, moves);
        self.tasks.remove(index);
        Ruling::Sends {
            to: usize::from(place.0),
            item: Item::GraftOrder {
                graft: task.graft,
                peering: moves.peering,
                target: moves.target,
            },
        }
    }

    /// Orders a step of the current group, or the graft of this number that it makes.
    pub fn order(&mut self, step: u32, number: u32) -> Ruling
        requires { OperatorStands self.old }
        ensures { DecidesOperator (Order step number) self.old result self.new }
    {
        let Some(index) = self.find_task(step, number) else {
            return Ruling::Refused;
        };
        let task = self.task(index);
        match self.says(task) {
            Some(peering) => self.order_say(index, task, peering),
            None => self.order_graft(index, task),
        }
    }

    /// Returns the index of a graft of this number that was ordered and hasn't ended.
    fn open_index(&self, graft: u32) -> Option<usize>
        ensures { IsOpenIndex self.now.slots.items graft result }
    {
        let index = (graft as usize).checked_sub(1)?;
        let slot = self.slots.get(index)?;
        open_graft(slot).is_some().then_some(index)
    }

    /// Records how the graft at this index, which was ordered, ended.
    fn end(&mut self, index: usize, outcome: Outcome)
        requires made { IsMadeAt self.old index }
        requires seated { HaveSeats self.old }
        ensures { Ends self.old index outcome self.new }
    {
        let Some(Move { peering, target }) = moved(&self.slots[index]) else {
            return;
        };
        let seat = usize::from(peering.0);
        let place_after = if let Outcome::Accepted = outcome {
            target
        } else {
            self.seats[seat].place
        };
        self.seats[seat] = Seat {
            place: place_after,
            moving: false,
        };
        end(&mut self.slots[index], outcome);
    }

    /// Notes the outcome that a router reports next, of a graft that was ordered and has none.
    pub fn note(&mut self, router: RouterId, channel: &mut Channel) -> Ruling
        requires { OperatorStands self.old }
        ensures { DecidesOperatorTaking (Note router.0) (Router router.0) self.old (parcels_in channel.old) result self.new (parcels_in channel.new) }
    {
        let Some(graft) = next_report(channel) else {
            return Ruling::Refused;
        };
        let Some(index) = self.open_index(graft) else {
            return Ruling::Refused;
        };
        let outcome = take_outcome(channel);
        self.end(index, outcome);
        Ruling::Silent
    }

    /// Begins the next group, if there is one. Nothing of the current group may be left.
    pub fn go(&mut self) -> Result<Ruling, NoMemory>
        requires sound { OperatorStands self.old }
        requires nothing { NothingIsLeft self.old }
        ensures { IfOk result (λ ruling. DecidesOperator Go self.old ruling self.new) }
    {
        if self.next == self.script.steps.len() {
            return Ok(Ruling::Refused);
        }
        let group = group_from(
            self.alloc,
            &self.script,
            self.numbers.as_slice(),
            &self.seats,
            self.next,
        )?;
        give(&mut self.slots, group.gifts.as_slice());
        self.group += 1;
        self.next = group.next;
        self.tasks = group.tasks;
        Ok(Ruling::Silent)
    }
}
