//! The groups of a script, and the numbers of its grafts.

ghost use Rattle.std.specs.Prelude.{◌≡◌, ◌≤◌, ◌<◌, ◌-◌, ◌+◌, ◌^◌, ◌++◌, length, OnOk, IfOk, slice_get, not, filter};
ghost use Rattle.std.specs.List.{list_any};
ghost use Rattle.operator_state.specs.Tasks.{task_of, tasks_by, given_tasks};
ghost use Rattle.operator_state.specs.Evacuate.{gifts_by};
ghost use Rattle.operator_state.specs.Groups.{grafts_by as grafts_by_lem, AreNumbers, EndsAfter, IsGroupFrom, NumbersFit};

use crate::evacuate::{Gift, Gifts, gifts_from, loads_of};
use crate::grafts::Seat;
use actor_configs::{Script, ScriptStep};
use graft_edge::{Items, NoMemory};
use std::alloc::Global;

/// One thing to be ordered in the current group: the index of its step in the script, the number of the graft (0 if a
/// remote is to say something), and whether it was ordered.
#[derive(Clone, Copy, Debug, PartialEq, Eq, Hash)]
pub struct Task {
    pub step: u32,
    pub graft: u32,
    pub issued: bool,
}

/// A group as it begins: its tasks, what its evacuate steps give, and where the steps after it begin.
#[derive(Drop)]
pub struct Group {
    pub tasks: Vec<Task>,
    pub gifts: Gifts,
    pub next: usize,
}

fn new_task(step: usize, graft: u32) -> Task
    requires { step < 4097 }
    ensures { result ≡ task_of step graft }
{
    Task {
        step: step as u32,
        graft,
        issued: false,
    }
}

/// Returns whether some task wasn't issued.
pub fn has_unissued(tasks: &[Task]) -> bool
    ensures { result ≡ list_any (λ task. not task.issued) tasks.now }
{
    tasks.iter().any(|task| !task.issued)
}

/// Removes the tasks that were issued.
pub fn drop_issued(tasks: &mut Vec<Task>)
    ensures { tasks.new.items ≡ filter (λ task. not task.issued) tasks.old.items }
{
    tasks.retain(|task| !task.issued);
}

/// Adds a task for each graft that an evacuate step makes.
fn add_given(tasks: &mut Vec<Task>, step: usize, gifts: &[Gift]) -> Result<(), NoMemory>
    requires { step < 4097 }
    ensures { OnOk result (tasks.new.items ≡ tasks.old.items ++ given_tasks step gifts.now) }
{
    for gift in gifts {
        if gift.target.is_some() {
            tasks.push(new_task(step, gift.graft))?;
        }
    }
    Ok(())
}

/// Adds the tasks of the step at an index of the script. Its first graft has number `number`, and `gifts` is what it
/// gives.
fn add_tasks(
    tasks: &mut Vec<Task>,
    index: usize,
    step: ScriptStep,
    number: u32,
    gifts: &[Gift],
) -> Result<(), NoMemory>
    requires { index < 4097 }
    ensures { OnOk result (tasks.new.items ≡ tasks.old.items ++ tasks_by index number step gifts.now) }
{
    match step {
        ScriptStep::Say { .. } => Ok(tasks.push(new_task(index, 0))?),
        ScriptStep::Graft { .. } => Ok(tasks.push(new_task(index, number))?),
        ScriptStep::Evacuate { .. } => add_given(tasks, index, gifts),
        ScriptStep::Settle => Ok(()),
    }
}

/// Returns what a step gives. Its first graft has number `number`.
fn step_gifts(
    alloc: Global,
    step: ScriptStep,
    number: u32,
    seats: &[Seat],
    loads: &[u32],
    rooms: &[u32],
) -> Result<Gifts, NoMemory>
    requires few { length seats.now ≤ 256 }
    requires numbered { number + 256 < 2 ^ 32 }
    requires same_length { length rooms.now ≡ length loads.now }
    requires routers { length loads.now ≤ 256 }
    ensures { IfOk result (λ gifts. gifts ≡ gifts_by seats.now loads.now rooms.now number step) }
{
    match step {
        ScriptStep::Evacuate { router } => {
            gifts_from(alloc, number, router, seats, loads, rooms)
        }
        ScriptStep::Say { .. } | ScriptStep::Graft { .. } | ScriptStep::Settle => {
            Ok(Items::new(alloc))
        }
    }
}

/// Returns the index of the first step from `from` on that ends a group. The last step must end one.
fn group_end(steps: &[ScriptStep], from: usize) -> usize
    requires within { from < length steps.now }
    requires ended { slice_get steps.now (length steps.now - 1) ≡ Some ScriptStep.Settle }
    ensures { EndsAfter steps.now from result }
{
    for index in from..steps.len() {
        if let ScriptStep::Settle = steps[index] {
            return index;
        }
    }
    steps.len()
}

/// Returns the group that begins at the index `from` of the script, where sessions belong at these seats.
pub fn group_from(
    alloc: Global,
    script: &Script,
    numbers: &[u32],
    seats: &[Seat],
    from: usize,
) -> Result<Group, NoMemory>
    requires few { length seats.now ≤ 256 }
    requires routers { length script.now.rooms ≤ 256 }
    requires short { length script.now.steps ≤ 4097 }
    requires numbered { NumbersFit script.now.steps numbers.now }
    requires within { from < length script.now.steps }
    requires ended { slice_get script.now.steps (length script.now.steps - 1) ≡ Some ScriptStep.Settle }
    ensures { IfOk result (IsGroupFrom script.now numbers.now seats.now from) }
{
    let rooms = script.rooms.as_slice();
    let steps = script.steps.as_slice();
    let counts = loads_of(alloc, seats, rooms.len())?;
    let loads = counts.as_slice();
    let end = group_end(steps, from);
    let mut tasks = Vec::new(alloc);
    let mut gifts = Items::new(alloc);
    for index in from..end {
        let (step, number) = (steps[index], numbers[index]);
        let given = step_gifts(alloc, step, number, seats, loads, rooms)?;
        add_tasks(&mut tasks, index, step, number, given.as_slice())?;
        gifts.extend(given.as_slice())?;
    }
    Ok(Group {
        tasks,
        gifts,
        next: end + 1,
    })
}

/// Returns how many grafts a step has in a laboratory of `peerings` peerings.
fn grafts_by(step: ScriptStep, peerings: u32) -> u32
    ensures { result ≡ grafts_by_lem peerings step }
{
    match step {
        ScriptStep::Graft { .. } => 1,
        ScriptStep::Evacuate { .. } => peerings,
        ScriptStep::Say { .. } | ScriptStep::Settle => 0,
    }
}

/// Returns, for each index of the script, the number that the first graft there has or would have: one above the number
/// of grafts before it.
pub fn graft_numbers(
    alloc: Global,
    steps: &[ScriptStep],
    peerings: u32,
) -> Result<Items<u32>, NoMemory>
    requires short { length steps.now ≤ 4097 }
    requires few { peerings ≤ 256 }
    ensures { IfOk result (AreNumbers peerings steps.now) }
{
    let mut numbers = Items::new(alloc);
    let mut next = 1u32;
    for step in steps {
        numbers.push(next)?;
        next += grafts_by(*step, peerings);
    }
    Ok(numbers)
}
