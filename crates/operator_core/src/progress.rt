//! The operator's progress.

ghost use Rattle.std.specs.Prelude.{◌≡◌, ◌≤◌, ◌<◌, ◌+◌, ◌-◌, ◌∷◌, [], ℕ, None, Some, length, OnOk, OnErr, IfOk};
ghost use Rattle.std.specs.Prelude.{IsTrue, ◌↔◌, slice_get, slice_set, Option, false, true, filter, not};
ghost use Rattle.ring_net.specs.Posts.{Wrote, SameEdges};
ghost use Rattle.graft_steps.specs.declared.item.Item.{Item};
ghost use Rattle.graft_model.specs.declared.event.OperatorEvent.TheVariants as events;
ghost use Rattle.graft_model.specs.Codes.{operator_code};
ghost use Rattle.graft_actors.specs.Notes.{deed_of};
ghost use Rattle.operator_state.specs.Tasks.{task_issued};
ghost use Rattle.operator_state.specs.Slots.{slot_at, move_of};

use actor_configs::{Script, ScriptStep};
use graft_actors::{
    Known, actors_have_their_numbers, note_dropped, note_operator, note_operator_sent,
    the_operator_takes_what_comes,
};
use graft_edge::{Items, NoMemory, PeeringId};
use graft_model::OperatorEvent;
use graft_steps::{GraftLog, Item, OperatorRest, Outcome};
use operator_state::{
    Move, Seat, Slot, Task, drop_issued, end, first_open, first_seats, first_slots, give,
    graft_numbers, group_from, has_unissued, issue, logged, moved, open_graft,
};
use ring_net::Post;
use std::alloc::Global;

/// The operator's progress through its script.
#[derive(Drop)]
pub(crate) struct Progress {
    pub(crate) alloc: Global,
    pub(crate) known: Known,
    pub(crate) script: Script,
    /// By index of the script: the number that the first graft there has or would have.
    pub(crate) numbers: Items<u32>,
    /// The number of the current group, from 0, and where the steps after it begin.
    pub(crate) group: usize,
    pub(crate) next: usize,
    /// The tasks of the group in their order. Those that were issued may be left out.
    pub(crate) tasks: Vec<Task>,
    /// The slots, by number of the script's grafts, from 1.
    pub(crate) slots: Vec<Slot>,
    /// The seats, by peering.
    pub(crate) seats: Vec<Seat>,
}

/// Writes the order of a step, or of this graft of it, to the journal, and sends it.
fn note_order<C: Drop>(
    post: &mut Post<Item<C>>,
    step: u32,
    graft: u32,
    to: usize,
    item: Item<C>,
) -> Result<(), NoMemory>
    ensures ok { OnOk result (Wrote post.old (deed_of post.old (operator_code (events.Order step graft)) None ((to, item) ∷ []) ∷ []) post.new) }
    ensures edges { SameEdges post.old post.new }
{
    note_operator_sent(post, OperatorEvent::Order { step, graft }, to, item)
}

impl Progress {
    ghost use Rattle.operator_state.specs.declared.groups.Task.{Task};
    ghost use Rattle.operator_state.specs.declared.grafts.Move.{Move};
    ghost use Rattle.operator_core.specs.Progresses.{progress_state, IsKnown, ProgressInvariant, HaveSeats, IsMadeAt};
    ghost use Rattle.operator_state.specs.Notes.{IsOpenIndex};
    ghost use Rattle.operator_core.specs.Progresses.{Ends, SameScript, IssuesGraft, IsUnchanged, VisitsTask};
    ghost use Rattle.operator_core.specs.Progresses.{Turns, TakesItem, BeginsNextGroup, IsNewProgress, IsOrderOf};
    ghost use Rattle.settled_check.specs.Rests.{IsOperatorRest};
    ghost use Rattle.operator_state.specs.Grafts.{log_of};
    ghost use Rattle.operator_state.specs.States.{part_of_state};
    ghost use Rattle.operator_state.specs.Holds.{IsHeldUp};
    ghost use Rattle.actor_configs.specs.Scripts.{IsScriptOf, IsWorkable};

    /// Returns the progress before anything is issued.
    pub(crate) fn new(alloc: Global, known: Known, script: Script) -> Result<Progress, NoMemory>
        requires script { IsScriptOf known.setup script }
        requires sound { IsWorkable script }
        ensures { IfOk result (IsNewProgress known) }
    {
        let steps = script.steps.as_slice();
        let peerings = script.starts.len();
        let numbers = graft_numbers(alloc, steps, peerings as u32)?;
        let mut slots = first_slots(alloc, steps, peerings)?;
        let seats = first_seats(alloc, script.starts.as_slice())?;
        let first = group_from(alloc, &script, numbers.as_slice(), &seats, 0)?;
        give(&mut slots, first.gifts.as_slice());
        Ok(Progress {
            alloc,
            known,
            script,
            numbers,
            group: 0,
            next: first.next,
            tasks: first.tasks,
            slots,
            seats,
        })
    }

    /// Orders the far side of the peering to say the bytes of the step.
    fn issue_say<C: Drop>(
        &self,
        step: u32,
        peering: PeeringId,
        post: &mut Post<Item<C>>,
    ) -> Result<(), NoMemory>
        requires few { length self.now.script.rooms ≤ 256 }
        ensures ok { OnOk result (Wrote post.old (deed_of post.old (operator_code (events.Order step 0)) None
            ((length self.now.script.rooms + peering.0, Item.SayOrder step) ∷ []) ∷ []) post.new) }
        ensures edges { SameEdges post.old post.new }
    {
        let far_side = self.script.rooms.len() + usize::from(peering.0);
        note_order(post, step, 0, far_side, Item::SayOrder { step })
    }

    /// Orders the graft of a task at the router where the session belongs. `number` is the graft's number in the
    /// journal entry.
    fn issue_graft<C: Drop>(
        &mut self,
        task: Task,
        moves: Move,
        number: u32,
        post: &mut Post<Item<C>>,
    ) -> Result<(), NoMemory>
        requires seated { moves.peering.0 < length self.old.seats.items }
        requires made { move_of (slot_at self.old.slots.items task.graft) ≡ Some moves }
        ensures ok { OnOk result (IssuesGraft self.old task moves number post.old self.new post.new) }
        ensures err { OnErr result (IsUnchanged self.old self.new) }
        ensures edges { SameEdges post.old post.new }
    {
        let Move { peering, target } = moves;
        let seat = self.seats[usize::from(peering.0)];
        let order = Item::GraftOrder {
            graft: task.graft,
            peering,
            target,
        };
        note_order(post, task.step, number, usize::from(seat.place.0), order)?;
        issue(&mut self.slots[task.graft as usize - 1], seat.place);
        self.seats[usize::from(peering.0)] = Seat {
            place: seat.place,
            moving: true,
        };
        Ok(())
    }

    fn task(&self, index: usize) -> Task
        requires { index < length self.now.tasks.items }
        ensures { slice_get self.now.tasks.items index ≡ Some result }
    {
        self.tasks[index]
    }

    /// Marks the task at this index as issued.
    fn mark(&mut self, index: usize, task: Task)
        requires { index < length self.old.tasks.items }
        ensures same { SameScript self.old self.new }
        ensures slots { self.new.slots.items ≡ self.old.slots.items }
        ensures seats { self.new.seats.items ≡ self.old.seats.items }
        ensures tasks { self.new.tasks.items ≡ slice_set self.old.tasks.items index (task_issued task) }
    {
        self.tasks[index] = Task {
            issued: true,
            ..task
        };
    }

    /// Issues the task at this index, which has a remote say something.
    fn visit_say<C: Drop>(
        &mut self,
        index: usize,
        task: Task,
        peering: PeeringId,
        post: &mut Post<Item<C>>,
    ) -> Result<(), NoMemory>
        requires known { IsKnown self.old }
        requires task { slice_get self.old.tasks.items index ≡ Some task }
        requires waits { task.issued ≡ false }
        requires counted { index < length self.old.tasks.items }
        requires is { slice_get self.old.script.steps task.step ≡ Some (ScriptStep.Say peering) }
        ensures ok { OnOk result (VisitsTask self.old index post.old self.new post.new) }
        ensures err { OnErr result (IsUnchanged self.old self.new) }
        ensures edges { SameEdges post.old post.new }
    {
        actors_have_their_numbers();
        self.issue_say(task.step, peering, post)?;
        self.mark(index, task);
        Ok(())
    }

    /// Returns what the graft of this number moves, if it exists.
    fn moved(&self, graft: u32) -> Option<Move>
        ensures { result ≡ move_of (slot_at self.now.slots.items graft) }
    {
        let index = (graft as usize).checked_sub(1)?;
        moved(self.slots.get(index)?)
    }

    fn seat(&self, peering: PeeringId) -> Seat
        requires { peering.0 < length self.now.seats.items }
        ensures { slice_get self.now.seats.items peering.0 ≡ Some result }
    {
        self.seats[usize::from(peering.0)]
    }

    /// Issues the task at this index, which orders a graft, unless it is held up. `number` is the graft's number in the
    /// journal entry.
    fn visit_graft<C: Drop>(
        &mut self,
        index: usize,
        task: Task,
        number: u32,
        post: &mut Post<Item<C>>,
    ) -> Result<(), NoMemory>
        requires known { IsKnown self.old }
        requires task { slice_get self.old.tasks.items index ≡ Some task }
        requires waits { task.issued ≡ false }
        requires counted { index < length self.old.tasks.items }
        requires seated { HaveSeats self.old }
        requires is { IsOrderOf self.old task number }
        ensures ok { OnOk result (VisitsTask self.old index post.old self.new post.new) }
        ensures err { OnErr result (IsUnchanged self.old self.new) }
        ensures edges { SameEdges post.old post.new }
    {
        actors_have_their_numbers();
        let Some(moves) = self.moved(task.graft) else {
            return Ok(());
        };
        let seat = self.seat(moves.peering);
        if seat.moving {
            return Ok(());
        }
        self.issue_graft(task, moves, number, post)?;
        self.mark(index, task);
        Ok(())
    }

    /// Issues the task at this index, unless it is held up.
    fn visit<C: Drop>(
        &mut self,
        index: usize,
        task: Task,
        post: &mut Post<Item<C>>,
    ) -> Result<(), NoMemory>
        requires known { IsKnown self.old }
        requires task { slice_get self.old.tasks.items index ≡ Some task }
        requires waits { task.issued ≡ false }
        requires counted { index < length self.old.tasks.items }
        requires within { task.step < length self.old.script.steps }
        requires seated { HaveSeats self.old }
        ensures ok { OnOk result (VisitsTask self.old index post.old self.new post.new) }
        ensures err { OnErr result (IsUnchanged self.old self.new) }
        ensures edges { SameEdges post.old post.new }
    {
        match self.script.steps[task.step as usize] {
            ScriptStep::Say { peering } => self.visit_say(index, task, peering, post),
            ScriptStep::Graft { .. } => self.visit_graft(index, task, 0, post),
            ScriptStep::Evacuate { .. } => self.visit_graft(index, task, task.graft, post),
            ScriptStep::Settle => Ok(()),
        }
    }

    /// Issues each task of the group that may be issued, in their order.
    pub(crate) fn turn<C: Drop>(&mut self, post: &mut Post<Item<C>>) -> Result<(), NoMemory>
        requires { ProgressInvariant self.old }
        ensures ok { OnOk result (Turns self.old post.old self.new post.new) }
        ensures err { OnErr result (ProgressInvariant self.new) }
        ensures edges { SameEdges post.old post.new }
    {
        for index in 0..self.tasks.len() {
            let task = self.task(index);
            if !task.issued {
                self.visit(index, task, post)?;
            }
        }
        self.forget_issued();
        Ok(())
    }

    /// Removes the tasks that were issued.
    fn forget_issued(&mut self)
        ensures same { SameScript self.old self.new }
        ensures slots { self.new.slots.items ≡ self.old.slots.items }
        ensures seats { self.new.seats.items ≡ self.old.seats.items }
        ensures tasks { self.new.tasks.items ≡ filter (λ task. not task.issued) self.old.tasks.items }
    {
        drop_issued(&mut self.tasks);
    }

    /// Returns the index of a graft of this number that was ordered and hasn't ended.
    fn open_index(&self, graft: u32) -> Option<usize>
        ensures { IsOpenIndex self.now.slots.items graft result }
    {
        let index = (graft as usize).checked_sub(1)?;
        let slot = self.slots.get(index)?;
        open_graft(slot).is_some().then_some(index)
    }

    /// Notes how the graft at this index ended.
    fn end(&mut self, index: usize, outcome: Outcome)
        requires made { IsMadeAt self.old index }
        requires seated { HaveSeats self.old }
        ensures { Ends self.old index outcome self.new }
    {
        let Some(Move { peering, target }) = moved(&self.slots[index]) else {
            return;
        };
        let seat = usize::from(peering.0);
        let place_after = if let Outcome::Accepted = outcome {
            target
        } else {
            self.seats[seat].place
        };
        self.seats[seat] = Seat {
            place: place_after,
            moving: false,
        };
        end(&mut self.slots[index], outcome);
    }

    /// Notes the report of an outstanding graft, from a router. Any other item is dropped.
    pub(crate) fn take<C: Drop>(
        &mut self,
        from: usize,
        item: Item<C>,
        post: &mut Post<Item<C>>,
    ) -> Result<(), NoMemory>
        requires { ProgressInvariant self.old }
        ensures ok { OnOk result (TakesItem from item self.old post.old self.new post.new) }
        ensures err { OnErr result (ProgressInvariant self.new) }
        ensures edges { SameEdges post.old post.new }
    {
        actors_have_their_numbers();
        the_operator_takes_what_comes::<C>();
        let Item::Report { graft, outcome } = item else {
            return note_dropped(post);
        };
        if from >= self.script.rooms.len() {
            return note_dropped(post);
        }
        let Some(index) = self.open_index(graft) else {
            return note_dropped(post);
        };
        let router = from as u32;
        note_operator(post, OperatorEvent::Note { router })?;
        self.end(index, outcome);
        Ok(())
    }

    /// Returns whether a task of the group wasn't issued, or a graft of it hasn't ended, or there is no further group.
    fn is_held_up(&self) -> bool
        requires { ProgressInvariant self.now }
        ensures { IsTrue result ↔ IsHeldUp self.now.known.setup (part_of_state (progress_state self.now)) }
    {
        if has_unissued(self.tasks.as_slice()) {
            return true;
        }
        if first_open(self.slots.as_slice()).is_some() {
            return true;
        }
        self.next == self.script.steps.len()
    }

    /// Begins the next group, if each task of the current one was issued, each of its grafts has ended, and there is a
    /// further group. Returns whether it did.
    pub(crate) fn go<C: Drop>(&mut self, post: &mut Post<Item<C>>) -> Result<bool, NoMemory>
        requires { ProgressInvariant self.old }
        ensures ok { IfOk result (BeginsNextGroup self.old post.old self.new post.new) }
        ensures err { OnErr result (ProgressInvariant self.new) }
        ensures edges { SameEdges post.old post.new }
    {
        if self.is_held_up() {
            return Ok(false);
        }
        let group = group_from(
            self.alloc,
            &self.script,
            self.numbers.as_slice(),
            &self.seats,
            self.next,
        )?;
        note_operator(post, OperatorEvent::Go)?;
        give(&mut self.slots, group.gifts.as_slice());
        self.group += 1;
        self.next = group.next;
        self.tasks = group.tasks;
        Ok(true)
    }

    /// Returns the log of grafts.
    pub(crate) fn log(&self) -> Result<GraftLog, NoMemory>
        requires { ProgressInvariant self.now }
        ensures { IfOk result (λ log. log ≡ log_of self.now.known.setup (part_of_state (progress_state self.now))) }
    {
        logged(self.alloc, self.slots.as_slice())
    }

    /// Returns what is left to do.
    pub(crate) fn outstanding(&self) -> OperatorRest
        requires { ProgressInvariant self.now }
        ensures { IsOperatorRest self.now.known.setup (part_of_state (progress_state self.now)) result }
    {
        OperatorRest {
            unissued: has_unissued(self.tasks.as_slice()),
            graft: first_open(self.slots.as_slice()),
        }
    }
}
