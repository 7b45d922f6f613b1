//! Events as a journal stores them: a kind by its number, and three arguments.

ghost use Rattle.std.specs.Prelude.{◌≡◌, ◌≢◌, Bool, IfSome, IfNone};
ghost use Rattle.tcp_seq.specs.declared.segment.Way.{Way};
ghost use Rattle.graft_model.specs.declared.event.ActorEvent.{ActorEvent};
ghost use Rattle.graft_model.specs.Codes.{flag as flag_lem, way_number as way_number_lem, prefix_of_args, router_code};
ghost use Rattle.graft_model.specs.Codes.{far_code, operator_code, actor_code, HasPrefix, EventHasPrefix};

use crate::event::{ActorEvent, FarEvent, OperatorEvent, RouterEvent};
use bgp_types::Prefix;
use tcp_seq::Way;

/// An event without its actor and its clock. Arguments that a kind doesn't have are 0.
#[derive(Clone, Copy, Debug, PartialEq, Eq, Hash)]
pub struct Code {
    pub kind: u16,
    pub a: u32,
    pub b: u32,
    pub c: u32,
}

/// Returns the code of this kind with these arguments.
fn coded(kind: u16, a: u32, b: u32, c: u32) -> Code
    ensures { result ≡ record { kind = kind; a = a; b = b; c = c } }
{
    Code { kind, a, b, c }
}

/// Returns a flag as a number.
fn flag_number(keep: bool) -> u32
    ensures { result ≡ flag_lem keep }
{
    if keep { 1 } else { 0 }
}

/// Returns the number of the side that a segment goes to.
fn way_number(way: Way) -> u32
    ensures { result ≡ way_number_lem way }
{
    match way {
        Way::Home => 0,
        Way::Remote => 1,
    }
}

/// Returns the code of a kind whose arguments are a prefix: its address and its length.
fn with_prefix(kind: u16, prefix: Prefix) -> Code
    ensures { result ≡ record { kind = kind; a = prefix.address; b = prefix.len; c = 0 } }
{
    coded(kind, prefix.address(), u32::from(prefix.len()), 0)
}

impl RouterEvent {
    /// Returns the event as a journal stores it.
    pub fn code(self) -> Code
        ensures { result ≡ router_code self }
    {
        match self {
            RouterEvent::Put { peering, count } => coded(1, peering, count, 0),
            RouterEvent::Emit { peering, from, len } => coded(2, peering, from, len),
            RouterEvent::Arrive { peering } => coded(3, peering, 0, 0),
            RouterEvent::Stray { peering } => coded(4, peering, 0, 0),
            RouterEvent::Got { peering } => coded(5, peering, 0, 0),
            RouterEvent::Decide { prefix } => with_prefix(6, prefix),
            RouterEvent::Tell { router, prefix } => {
                coded(7, router, prefix.address(), u32::from(prefix.len()))
            }
            RouterEvent::Hear { router } => coded(8, router, 0, 0),
            RouterEvent::Admit { graft } => coded(9, graft, 0, 0),
            RouterEvent::Refuse { graft } => coded(10, graft, 0, 0),
            RouterEvent::Freeze { graft } => coded(11, graft, 0, 0),
            RouterEvent::Leave { graft } => coded(12, graft, 0, 0),
            RouterEvent::Land { router } => coded(13, router, 0, 0),
            RouterEvent::TurnBack { router } => coded(14, router, 0, 0),
            RouterEvent::Return { router } => coded(15, router, 0, 0),
            RouterEvent::Clear { router } => coded(16, router, 0, 0),
            RouterEvent::Tick { peering, round } => coded(31, peering, round, 0),
            RouterEvent::Confirm { graft } => coded(33, graft, 0, 0),
            RouterEvent::Ask { graft, router } => coded(34, graft, router, 0),
            RouterEvent::Answer { router } => coded(35, router, 0, 0),
            RouterEvent::Collect { router } => coded(36, router, 0, 0),
        }
    }
}

impl FarEvent {
    /// Returns the event as a journal stores it.
    pub fn code(self) -> Code
        ensures { result ≡ far_code self }
    {
        match self {
            FarEvent::Say { step } => coded(17, step, 0, 0),
            FarEvent::Send { from, len } => coded(18, from, len, 0),
            FarEvent::Take { router } => coded(19, router, 0, 0),
            FarEvent::Pass {
                index,
                keep,
                router,
            } => coded(20, index, flag_number(keep), router),
            FarEvent::Reach { index, keep } => coded(21, index, flag_number(keep), 0),
            FarEvent::Lose { way, index } => coded(22, way_number(way), index, 0),
            FarEvent::Point { router } => coded(23, router, 0, 0),
            FarEvent::Beat { round } => coded(32, round, 0, 0),
        }
    }
}

impl OperatorEvent {
    /// Returns the event as a journal stores it.
    pub fn code(self) -> Code
        ensures { result ≡ operator_code self }
    {
        match self {
            OperatorEvent::Order { step, graft } => coded(24, step, graft, 0),
            OperatorEvent::Note { router } => coded(25, router, 0, 0),
            OperatorEvent::Go => coded(26, 0, 0, 0),
        }
    }
}

/// Returns the only argument of a code, or `None` if another one isn't 0.
fn one(code: Code) -> Option<u32>
    ensures some { IfSome result (λ a. (a ≡ code.a) × (code.b ≡ 0) × (code.c ≡ 0)) }
    ensures none { IfNone result ((code.b ≡ 0) → (code.c ≡ 0) → ⊥) }
{
    if code.b != 0 || code.c != 0 {
        return None;
    }
    Some(code.a)
}

/// Returns the two arguments of a code, or `None` if the third isn't 0.
fn two(code: Code) -> Option<(u32, u32)>
    ensures some { IfSome result (λ x. (x ≡ (code.a, code.b)) × (code.c ≡ 0)) }
    ensures none { IfNone result ((code.c ≡ 0) → ⊥) }
{
    if code.c != 0 {
        return None;
    }
    Some((code.a, code.b))
}

/// Returns the flag that an argument stands for, or `None` if it is above 1.
fn flag(number: u32) -> Option<bool>
    ensures some { IfSome result (λ keep. flag_lem keep ≡ number) }
    ensures none { IfNone result ((keep : Bool) → flag_lem keep ≢ number) }
{
    match number {
        0 => Some(false),
        1 => Some(true),
        _ => None,
    }
}

/// Returns the side that an argument stands for, or `None` if it is above 1.
fn way(number: u32) -> Option<Way>
    ensures some { IfSome result (λ way. way_number_lem way ≡ number) }
    ensures none { IfNone result ((way : Way) → way_number_lem way ≢ number) }
{
    match number {
        0 => Some(Way::Home),
        1 => Some(Way::Remote),
        _ => None,
    }
}

/// Returns the prefix of this address and length, or `None` if the length is above 32 or the address has a bit set past
/// the length.
fn prefix(address: u32, len: u32) -> Option<Prefix>
    ensures { result ≡ prefix_of_args address len }
{
    let len = u8::try_from(len).ok()?;
    Prefix::new(address, len).filter(|prefix| prefix.address() == address)
}

/// Returns the router's event with this code, or `None` if no router's event has it.
fn router_event(code: Code) -> Option<RouterEvent>
    ensures some { IfSome result (λ event. (router_code event ≡ code) × HasPrefix event) }
    ensures none { IfNone result ((event : RouterEvent) → HasPrefix event → router_code event ≢ code) }
{
    Some(match code.kind {
        1 => {
            let (peering, count) = two(code)?;
            RouterEvent::Put { peering, count }
        }
        2 => RouterEvent::Emit {
            peering: code.a,
            from: code.b,
            len: code.c,
        },
        3 => RouterEvent::Arrive {
            peering: one(code)?,
        },
        4 => RouterEvent::Stray {
            peering: one(code)?,
        },
        5 => RouterEvent::Got {
            peering: one(code)?,
        },
        6 => {
            let (address, len) = two(code)?;
            RouterEvent::Decide {
                prefix: prefix(address, len)?,
            }
        }
        7 => RouterEvent::Tell {
            router: code.a,
            prefix: prefix(code.b, code.c)?,
        },
        8 => RouterEvent::Hear { router: one(code)? },
        9 => RouterEvent::Admit { graft: one(code)? },
        10 => RouterEvent::Refuse { graft: one(code)? },
        11 => RouterEvent::Freeze { graft: one(code)? },
        12 => RouterEvent::Leave { graft: one(code)? },
        13 => RouterEvent::Land { router: one(code)? },
        14 => RouterEvent::TurnBack { router: one(code)? },
        15 => RouterEvent::Return { router: one(code)? },
        16 => RouterEvent::Clear { router: one(code)? },
        31 => {
            let (peering, round) = two(code)?;
            RouterEvent::Tick { peering, round }
        }
        33 => RouterEvent::Confirm { graft: one(code)? },
        34 => {
            let (graft, router) = two(code)?;
            RouterEvent::Ask { graft, router }
        }
        35 => RouterEvent::Answer { router: one(code)? },
        36 => RouterEvent::Collect { router: one(code)? },
        _ => return None,
    })
}

/// Returns the far side's event with this code, or `None` if no far side's event has it.
fn far_event(code: Code) -> Option<FarEvent>
    ensures some { IfSome result (λ event. far_code event ≡ code) }
    ensures none { IfNone result ((event : FarEvent) → far_code event ≢ code) }
{
    Some(match code.kind {
        17 => FarEvent::Say { step: one(code)? },
        18 => {
            let (from, len) = two(code)?;
            FarEvent::Send { from, len }
        }
        19 => FarEvent::Take { router: one(code)? },
        20 => FarEvent::Pass {
            index: code.a,
            keep: flag(code.b)?,
            router: code.c,
        },
        21 => {
            let (index, keep) = two(code)?;
            FarEvent::Reach {
                index,
                keep: flag(keep)?,
            }
        }
        22 => {
            let (side, index) = two(code)?;
            FarEvent::Lose {
                way: way(side)?,
                index,
            }
        }
        23 => FarEvent::Point { router: one(code)? },
        32 => FarEvent::Beat { round: one(code)? },
        _ => return None,
    })
}

/// Returns the operator's event with this code, or `None` if no event of the operator has it.
fn operator_event(code: Code) -> Option<OperatorEvent>
    ensures some { IfSome result (λ event. operator_code event ≡ code) }
    ensures none { IfNone result ((event : OperatorEvent) → operator_code event ≢ code) }
{
    let (number, graft) = two(code)?;
    match code.kind {
        24 => Some(OperatorEvent::Order {
            step: number,
            graft,
        }),
        25 if graft == 0 => Some(OperatorEvent::Note { router: number }),
        26 if number == 0 && graft == 0 => Some(OperatorEvent::Go),
        _ => None,
    }
}

/// Returns the event with this code, or `None` exactly if no event has it. The entry of a dropped item, which has kind
/// 0, belongs to no event.
pub fn event_of(code: Code) -> Option<ActorEvent>
    ensures some { IfSome result (λ event. (actor_code event ≡ code) × EventHasPrefix event) }
    ensures none { IfNone result ((event : ActorEvent) → EventHasPrefix event → actor_code event ≢ code) }
{
    if let Some(event) = router_event(code) {
        return Some(ActorEvent::OfRouter(event));
    }
    if let Some(event) = far_event(code) {
        return Some(ActorEvent::OfFar(event));
    }
    Some(ActorEvent::OfOperator(operator_event(code)?))
}
