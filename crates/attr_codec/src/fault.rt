//! Why bytes couldn't be read.

ghost use Rattle.std.specs.Prelude.{◌≡◌, Some};
ghost use Rattle.attr_codec.specs.Decoding.{Stops};
ghost use Rattle.bgp_types.specs.Faults.{bare, about};

use bgp_types::{NoMemory, Notice, Octets};
use std::alloc::Global;
use thiserror::Error;

/// The error code of a fault in an UPDATE.
const UPDATE_FAULT: u8 = 3;

/// The most octets of data that fit in a NOTIFICATION.
const MOST_DATA: usize = 4075;

/// Why bytes couldn't be read.
#[derive(Debug, Drop, Error)]
pub enum CodecFault {
    /// The first fault of the bytes, as the NOTIFICATION that answers it.
    #[error("a faulty message")]
    Wire(Notice),
    #[error("no memory")]
    NoMemory,
}

impl std::convert::From<NoMemory> for CodecFault {
    ghost use Rattle.std.specs.Prelude.{◌≡◌};
    ghost use Rattle.attr_codec.specs.declared.fault.CodecFault.TheVariants as stops;

    ghost from_gives = { λ _ stop. stop ≡ stops.NoMemory };

    fn from(_error: NoMemory) -> CodecFault {
        CodecFault::NoMemory
    }
}

/// Returns a fault of an UPDATE without data. If memory runs out, it returns `NoMemory`.
pub fn bare_fault(alloc: Global, subcode: u8) -> CodecFault
    ensures { Stops result (Some (bare subcode)) }
{
    CodecFault::Wire(Notice {
        code: UPDATE_FAULT,
        subcode,
        info: Octets::new(alloc),
    })
}

/// Returns a fault of an UPDATE with these octets as its data, cut where there are too many. If memory
/// runs out, it returns `NoMemory`.
#[tactic(auto, using(std::proofs::lemmas::List::take_min))]
pub fn fault_about(alloc: Global, subcode: u8, octets: &[u8]) -> CodecFault
    ensures { Stops result (Some (about subcode octets.now)) }
{
    let (data, _) = octets.split_at(MOST_DATA.min(octets.len()));
    match Octets::from_slice(alloc, data) {
        Ok(info) => CodecFault::Wire(Notice {
            code: UPDATE_FAULT,
            subcode,
            info,
        }),
        Err(NoMemory) => CodecFault::NoMemory,
    }
}
