//! Whose item an event takes.

ghost use Rattle.std.specs.Prelude.{◌≡◌};
ghost use Rattle.std.specs.Option.{option_map};
ghost use Rattle.audit_ruling.specs.Named.{name_of};
ghost use Rattle.audit_ruling.specs.Senders.{far_sender as far_sender_lem, operator_sender as operator_sender_lem, router_sender as router_sender_lem};

use graft_model::{FarEvent, OperatorEvent, RouterEvent};

/// An actor whose item an event takes, by its number among those of its kind.
#[derive(Clone, Copy, Debug, PartialEq, Eq, Hash)]
pub enum Sender {
    Router(u32),
    FarSide(u32),
    Operator,
}

/// Returns the actor whose item an event of a router takes, if it takes one.
pub fn router_sender(event: RouterEvent) -> Option<Sender>
    ensures { option_map name_of result ≡ router_sender_lem event }
{
    match event {
        RouterEvent::Arrive { peering } => Some(Sender::FarSide(peering)),
        RouterEvent::Stray { peering } => Some(Sender::FarSide(peering)),
        RouterEvent::Hear { router } => Some(Sender::Router(router)),
        RouterEvent::Admit { .. } => Some(Sender::Operator),
        RouterEvent::Land { router } => Some(Sender::Router(router)),
        RouterEvent::TurnBack { router } => Some(Sender::Router(router)),
        RouterEvent::Return { router } => Some(Sender::Router(router)),
        RouterEvent::Clear { router } => Some(Sender::Router(router)),
        RouterEvent::Answer { router } => Some(Sender::Router(router)),
        RouterEvent::Collect { router } => Some(Sender::Router(router)),
        _ => None,
    }
}

/// Returns the actor whose item an event of a far side takes, if it takes one.
pub fn far_sender(event: FarEvent) -> Option<Sender>
    ensures { option_map name_of result ≡ far_sender_lem event }
{
    match event {
        FarEvent::Say { .. } => Some(Sender::Operator),
        FarEvent::Take { router } => Some(Sender::Router(router)),
        FarEvent::Point { router } => Some(Sender::Router(router)),
        _ => None,
    }
}

/// Returns the actor whose item an event of the operator takes, if it takes one.
pub fn operator_sender(event: OperatorEvent) -> Option<Sender>
    ensures { option_map name_of result ≡ operator_sender_lem event }
{
    match event {
        OperatorEvent::Note { router } => Some(Sender::Router(router)),
        _ => None,
    }
}
