//! The auditor, and how it begins.

ghost use Rattle.std.specs.Prelude.{◌≡◌, IfOk};
ghost use Rattle.graft_model.specs.First.{first_world};
ghost use Rattle.graft_model.specs.Setups.{Setup};
ghost use Rattle.lab_setup.specs.Setups.{setup_of};
ghost use Rattle.node_configs.specs.Accepted.{IsAccepted};
ghost use Rattle.run_auditor.specs.Begins.{AreFirstFarSides, AreFirstRouters};
ghost use Rattle.run_auditor.specs.Sound.{AuditorInvariant};
ghost use Rattle.run_auditor.specs.States.{StandsFor};

use audit_channels::{Inbox, empty_inboxes};
use audit_far::AuditedFar;
use audit_operator::AuditedOperator;
use audit_router::AuditedRouter;
use graft_actors::{Known, parts_begin_as_the_first_world};
use graft_edge::{NoMemory, PeeringId, RouterId};
use lab_tables::LabInput;
use node_configs::{far_config, operator_script, router_config};
use std::alloc::Global;

/// Replays the journal of a laboratory entry by entry: the actors of the laboratory as the entries so far have left
/// them, and what is on its way between them.
#[derive(Drop)]
pub struct Auditor {
    /// The laboratory, which is only for proofs.
    pub(crate) known: Known,
    /// The routers and the far sides, by their numbers.
    pub(crate) routers: Vec<AuditedRouter>,
    pub(crate) far_sides: Vec<AuditedFar>,
    pub(crate) operator: AuditedOperator,
    /// The inboxes of all actors: of the routers, then of the far sides, then of the operator.
    pub(crate) inboxes: Vec<Inbox>,
}

/// Returns the laboratory that the caller's proof names, which must be the one that the input describes.
fn known_for(_input: &LabInput) -> Known
    ghost setup: { Setup }
    ensures { result.setup ≡ setup }
{
    Known::new()
}

/// Returns the routers, as they begin.
fn first_routers(alloc: Global, input: &LabInput) -> Result<Vec<AuditedRouter>, NoMemory>
    requires { IsAccepted input.now }
    ensures { IfOk result (λ routers. AreFirstRouters (setup_of input.now) routers.items) }
{
    let mut routers = Vec::new(alloc);
    for n in 0..input.routers.len() {
        let config = router_config(alloc, input, RouterId(n as u8))?;
        let router = AuditedRouter::new(alloc, known_for(input), config)?;
        routers.push(router)?;
    }
    Ok(routers)
}

/// Returns the far sides, as they begin.
fn first_far_sides(alloc: Global, input: &LabInput) -> Result<Vec<AuditedFar>, NoMemory>
    requires { IsAccepted input.now }
    ensures { IfOk result (λ far_sides. AreFirstFarSides (setup_of input.now) far_sides.items) }
{
    let mut far_sides = Vec::new(alloc);
    for n in 0..input.peerings.len() {
        let config = far_config(alloc, input, PeeringId(n as u8))?;
        let far = AuditedFar::new(alloc, known_for(input), config)?;
        far_sides.push(far)?;
    }
    Ok(far_sides)
}

impl Auditor {
    /// Returns an auditor of an accepted input, before the first entry: it stands for the first world.
    pub fn new(alloc: Global, input: &LabInput) -> Result<Auditor, NoMemory>
        requires { IsAccepted input.now }
        ensures setup { IfOk result (λ auditor. auditor.known.setup ≡ setup_of input.now) }
        ensures first { IfOk result (λ auditor. StandsFor auditor (first_world (setup_of input.now))) }
        ensures sound { IfOk result AuditorInvariant }
    {
        parts_begin_as_the_first_world();
        let script = operator_script(alloc, input)?;
        let operator = AuditedOperator::new(alloc, known_for(input), script)?;
        let actors = input.routers.len() + input.peerings.len() + 1;
        let inboxes = empty_inboxes(alloc, actors)?;
        let routers = first_routers(alloc, input)?;
        let far_sides = first_far_sides(alloc, input)?;
        let known = known_for(input);
        Ok(Auditor {
            known,
            routers,
            far_sides,
            operator,
            inboxes,
        })
    }

    /// Returns the far sides, by the numbers of their peerings, to look at.
    pub fn far_sides(&self) -> &[AuditedFar]
        ensures { result.now ≡ self.now.far_sides.items }
    {
        self.far_sides.as_slice()
    }
}
