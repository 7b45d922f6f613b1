//! The bytes that the steps of a script have a remote say.

use graft_edge::{Items, NoMemory, Octets};
use std::alloc::Global;
use std::collections::HashMap;

/// The bytes that a step has a remote say. The step is its index among all steps of the script, from 0.
#[derive(Debug, Drop)]
pub struct Say {
    pub step: u32,
    pub bytes: Octets,
}

/// A list of steps with their bytes, in ascending order of the steps.
pub type Says = Items<Say>;

/// The bytes by step. A look-up takes constant time in the number of steps.
#[derive(Drop)]
pub struct SayTable {
    bytes: HashMap<u32, Octets>,
}

impl SayTable {
    ghost use Rattle.std.specs.Prelude.{ℕ, ◌≡◌, IfOk};
    ghost use Rattle.std.specs.Option.{option_copied};
    ghost use Rattle.actor_configs.specs.Says.{bytes_to_say, bytes_at};

    /// Returns the table of a list. If a step occurs twice, the first occurrence counts.
    pub fn new(alloc: Global, says: Says) -> Result<SayTable, NoMemory>
        ensures { IfOk result (λ table. (step : ℕ) → bytes_at table step ≡ bytes_to_say says step) }
    {
        let mut left = says.into_vec();
        let mut table = HashMap::new(alloc);
        while let Some(say) = left.pop() {
            let Say { step, bytes } = say;
            table.insert(step, bytes)?;
        }
        Ok(SayTable { bytes: table })
    }

    /// Returns the bytes of a step, if it has the remote say any.
    pub fn get(&self, step: u32) -> Option<&Octets>
        ensures { option_copied result ≡ bytes_at self.now step }
    {
        self.bytes.get(&step)
    }
}
