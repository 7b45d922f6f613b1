//! The best route that a router selected.

use bgp_types::{From, NoMemory, Route, TryCopy};

/// The best route to a prefix, and its source.
#[derive(Debug, PartialEq, Eq, Drop)]
pub struct Best {
    pub from: From,
    pub route: Route,
}

impl TryCopy for Best {
    fn copy(&self) -> Result<Best, NoMemory> {
        Ok(Best {
            from: self.from,
            route: self.route.copy()?,
        })
    }
}
