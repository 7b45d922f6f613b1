//! The operator's log.

use crate::refusal::Outcome;
use graft_edge::{Items, NoMemory, PeeringId, RouterId, TryCopy};

/// The grafts of a script, in the order of their numbers: those of its graft steps, and those that its
/// evacuate steps made when their groups began.
pub type GraftLog = Items<GraftEntry>;

/// A graft in the log: its number, its peering, the router at which it was ordered, which is none
/// before it is ordered, its target, and how far it is.
///
/// Numbers count from 1 over the script. A graft step takes one number, and an evacuate step one for
/// each peering of the laboratory, in their order. If no router has a free place for a session of a
/// router that is evacuated, source and target are that router, and the graft ended with `NoTarget`.
#[derive(Debug, Drop)]
pub struct GraftEntry {
    pub graft: u32,
    pub peering: PeeringId,
    pub source: Option<RouterId>,
    pub target: RouterId,
    pub stage: GraftStage,
}

/// How far a graft is, as far as the operator knows.
#[derive(Debug, Drop)]
pub enum GraftStage {
    /// It isn't ordered yet.
    Waiting,
    /// It was ordered, and the source hasn't reported.
    Issued,
    /// The source reported how it ended.
    Ended(Outcome),
}

impl TryCopy for GraftEntry {
    fn copy(&self) -> Result<GraftEntry, NoMemory> {
        Ok(GraftEntry {
            graft: self.graft,
            peering: self.peering,
            source: self.source,
            target: self.target,
            stage: self.stage.copy()?,
        })
    }
}

impl TryCopy for GraftStage {
    fn copy(&self) -> Result<GraftStage, NoMemory> {
        match self {
            GraftStage::Waiting => Ok(GraftStage::Waiting),
            GraftStage::Issued => Ok(GraftStage::Issued),
            GraftStage::Ended(outcome) => Ok(GraftStage::Ended(outcome.copy()?)),
        }
    }
}
