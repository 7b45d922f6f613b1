//! How an auditor takes an entry.

ghost use Rattle.std.specs.Prelude.{All, ◌≡◌, ◌<◌, ◌↔◌, Some, IsTrue, IfOk, IfSome, IfNone};
ghost use Rattle.std.specs.Option.{option_map};
ghost use Rattle.graft_model.specs.Setups.{routers_in, peerings_in};
ghost use Rattle.graft_model.specs.Steps.{ByRouter, ByFar, ByOperator};
ghost use Rattle.graft_model.specs.declared.event.OperatorEvent.TheVariants.{Note, Go};
ghost use Rattle.graft_actors.specs.Actors.{ActorName, IsActor, Operator, number_in};
ghost use Rattle.audit_ruling.specs.Named.{name_of};
ghost use Rattle.audit_far.specs.Parts.{FarInvariant};
ghost use Rattle.audit_router.specs.Parts.{RouterInvariant};
ghost use Rattle.run_auditor.specs.Rests.{FarRests, RouterRests, TellsQuiet};
ghost use Rattle.run_auditor.specs.Ruled.{AnswersActor, RulesOn, sender_in};
ghost use Rattle.run_auditor.specs.Sound.{AuditorInvariant};
ghost use Rattle.run_auditor.specs.Steps.{TakesEntry};

use crate::auditor::Auditor;
use crate::laws::rulings_have_grounds;
use crate::step::Step;
use audit_channels::{are_empty, send};
use audit_far::AuditedFar;
use audit_router::AuditedRouter;
use audit_ruling::{Ruling, Sender, far_sender, operator_sender, router_sender};
use graft_edge::{NoMemory, RouterId};
use graft_model::{
    ActorEvent, Code, FarEvent, OperatorEvent, RouterEvent, codes_are_exact, event_of,
};
use ring_net::{JournalEntry, Stamp};
use settled_check::quiet_is_found;
use world_runs::worlds_are_on_the_way;

/// Returns the kind and the arguments of an entry.
fn code_of(entry: &JournalEntry) -> Code
    ensures { result ≡ record { kind = entry.now.kind; a = entry.now.a; b = entry.now.b; c = entry.now.c } }
{
    Code {
        kind: entry.kind,
        a: entry.a,
        b: entry.b,
        c: entry.c,
    }
}

/// Returns the actor whose item an event takes, if it takes one.
fn sender_of(event: ActorEvent) -> Option<Sender>
    ensures { option_map name_of result ≡ sender_in event }
{
    match event {
        ActorEvent::OfRouter(event) => router_sender(event),
        ActorEvent::OfFar(event) => far_sender(event),
        ActorEvent::OfOperator(event) => operator_sender(event),
    }
}

/// Returns whether no far side has anything left to do.
fn far_sides_rest(far_sides: &[AuditedFar]) -> bool
    requires { All FarInvariant far_sides.now }
    ensures { IsTrue result ↔ All FarRests far_sides.now }
{
    for far in far_sides {
        if !far.is_at_rest() {
            return false;
        }
    }
    true
}

/// Returns whether no router has anything left to do.
fn routers_rest(routers: &[AuditedRouter]) -> bool
    requires { All RouterInvariant routers.now }
    ensures { IsTrue result ↔ All RouterRests routers.now }
{
    for router in routers {
        if !router.is_at_rest() {
            return false;
        }
    }
    true
}

impl Auditor {
    /// Returns the number of the operator, among all actors.
    fn operator_number(&self) -> usize
        requires { AuditorInvariant self.now }
        ensures { result ≡ number_in self.now.known.setup Operator }
    {
        self.routers.len() + self.far_sides.len()
    }

    /// Returns the number of an actor whose item an event takes, if it exists.
    fn number_of(&self, sender: Sender) -> Option<usize>
        requires { AuditorInvariant self.now }
        ensures some { IfSome result (λ n. IsActor self.now.known.setup (name_of sender) × (n ≡ number_in self.now.known.setup (name_of sender))) }
        ensures none { IfNone result (¬ IsActor self.now.known.setup (name_of sender)) }
    {
        let (routers, far_sides) = (self.routers.len(), self.far_sides.len());
        match sender {
            Sender::Router(r) if (r as usize) < routers => Some(r as usize),
            Sender::FarSide(p) if (p as usize) < far_sides => Some(routers + p as usize),
            Sender::Operator => Some(routers + far_sides),
            _ => None,
        }
    }

    /// Returns the number of the actor whose item an event takes, if it takes one and that actor exists.
    fn giver_of(&self, event: &ActorEvent) -> Option<usize>
        requires { AuditorInvariant self.now }
        ensures { ((x : ActorName) → sender_in event.now ≡ Some x → IsActor self.now.known.setup x)
            → result ≡ option_map (number_in self.now.known.setup) (sender_in event.now) }
    {
        self.number_of(sender_of(*event)?)
    }

    /// Returns whether nothing is left to do in the world.
    pub fn is_quiet(&self) -> bool
        requires { AuditorInvariant self.now }
        ensures { TellsQuiet self.now result }
    {
        worlds_are_on_the_way();
        quiet_is_found();
        if !are_empty(self.inboxes.as_slice()) {
            return false;
        }
        if !self.operator.is_at_rest() {
            return false;
        }
        far_sides_rest(&self.far_sides) && routers_rest(&self.routers)
    }

    /// Lets an event of a router happen, if it can. What it sends is still to be sent.
    fn rule_router(&mut self, r: usize, event: &RouterEvent) -> Result<Ruling, NoMemory>
        requires sound { AuditorInvariant self.old }
        requires there { r < routers_in self.old.known.setup }
        ensures { IfOk result (λ ruling. RulesOn (ByRouter r event.now) ruling self.old self.new) }
    {
        rulings_have_grounds();
        let Some(sender) = router_sender(*event) else {
            return self.routers[r].decide(*event);
        };
        let Some(from) = self.number_of(sender) else {
            return Ok(Ruling::Refused);
        };
        self.routers[r].decide_taking(*event, &mut self.inboxes[r].channels[from])
    }

    /// Lets an event of a far side happen, if it can. What it sends is still to be sent.
    fn rule_far(&mut self, p: usize, event: FarEvent) -> Result<Ruling, NoMemory>
        requires sound { AuditorInvariant self.old }
        requires there { p < peerings_in self.old.known.setup }
        ensures { IfOk result (λ ruling. RulesOn (ByFar p event) ruling self.old self.new) }
    {
        rulings_have_grounds();
        let Some(sender) = far_sender(event) else {
            return self.far_sides[p].decide(event);
        };
        let Some(from) = self.number_of(sender) else {
            return Ok(Ruling::Refused);
        };
        let channel = &mut self.inboxes[self.routers.len() + p].channels[from];
        match event {
            FarEvent::Say { step } => self.far_sides[p].say(step, channel),
            FarEvent::Take { router } => self.far_sides[p].take(RouterId(router as u8), channel),
            FarEvent::Point { router } => self.far_sides[p].point(RouterId(router as u8), channel),
            _ => Ok(Ruling::Refused),
        }
    }

    /// Lets the next group begin, if nothing is left to do and there is one.
    fn rule_go(&mut self) -> Result<Ruling, NoMemory>
        requires { AuditorInvariant self.old }
        ensures { IfOk result (λ ruling. RulesOn (ByOperator Go) ruling self.old self.new) }
    {
        rulings_have_grounds();
        if !self.is_quiet() {
            return Ok(Ruling::Refused);
        }
        self.operator.go()
    }

    /// Lets the operator note what a router reports next, if it can.
    fn rule_note(&mut self, router: u32) -> Ruling
        requires { AuditorInvariant self.old }
        ensures { RulesOn (ByOperator (Note router)) result self.old self.new }
    {
        rulings_have_grounds();
        let Some(from) = self.number_of(Sender::Router(router)) else {
            return Ruling::Refused;
        };
        let own = self.operator_number();
        self.operator.note(
            RouterId(router as u8),
            &mut self.inboxes[own].channels[from],
        )
    }

    /// Lets an event of the operator happen, if it can. What it sends is still to be sent.
    fn rule_operator(&mut self, event: OperatorEvent) -> Result<Ruling, NoMemory>
        requires { AuditorInvariant self.old }
        ensures { IfOk result (λ ruling. RulesOn (ByOperator event) ruling self.old self.new) }
    {
        rulings_have_grounds();
        match event {
            OperatorEvent::Order { step, graft } => Ok(self.operator.order(step, graft)),
            OperatorEvent::Note { router } => Ok(self.rule_note(router)),
            OperatorEvent::Go => self.rule_go(),
        }
    }

    /// Lets an event of the actor of this number happen, if it can. `None` if that actor has no such events.
    fn rule(&mut self, actor: usize, event: ActorEvent) -> Result<Option<Ruling>, NoMemory>
        requires { AuditorInvariant self.old }
        ensures { IfOk result (λ answer. AnswersActor actor event answer self.old self.new) }
    {
        let (routers, operator) = (self.routers.len(), self.operator_number());
        match event {
            ActorEvent::OfRouter(event) if actor < routers => {
                Ok(Some(self.rule_router(actor, &event)?))
            }
            ActorEvent::OfFar(event) if routers <= actor && actor < operator => {
                Ok(Some(self.rule_far(actor - routers, event)?))
            }
            ActorEvent::OfOperator(event) if actor == operator => {
                Ok(Some(self.rule_operator(event)?))
            }
            _ => Ok(None),
        }
    }

    /// Takes an entry: its event happens, if it can. `Made` just where there is an event of this kind and these arguments,
    /// and it can happen in the world so far: then the auditor stands for the world to which it leads. `Kind` where no event
    /// of the entry's actor has this kind and these arguments, and `Condition` where its event can't happen: then the auditor
    /// stands for the same world as before. An entry's clock isn't compared. If memory runs out, the auditor is of no more use.
    pub fn step(&mut self, entry: &JournalEntry) -> Result<Step, NoMemory>
        requires { AuditorInvariant self.old }
        ensures { IfOk result (λ step. TakesEntry entry.now self.old step self.new) }
    {
        codes_are_exact();
        let Some(event) = event_of(code_of(entry)) else {
            return Ok(Step::Kind);
        };
        let from = self.giver_of(&event);
        let actor = usize::from(entry.actor);
        let Some(ruling) = self.rule(actor, event)? else {
            return Ok(Step::Kind);
        };
        match ruling {
            Ruling::Refused => Ok(Step::Condition),
            Ruling::Silent => Ok(Step::Made { from, to: None }),
            Ruling::Sends { to, item } => {
                let stamp = Stamp(entry.clock);
                send(self.inboxes.as_mut_slice(), actor, to, stamp, item)?;
                Ok(Step::Made { from, to: Some(to) })
            }
        }
    }
}
