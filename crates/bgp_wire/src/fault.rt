//! Faults by their codes.

ghost use Rattle.std.specs.Prelude.{Some};
ghost use Rattle.attr_codec.specs.Decoding.{Stops};
ghost use Rattle.bgp_wire.specs.Faults.{notice};

use attr_codec::CodecFault;
use bgp_types::{NoMemory, Notice, Octets};
use std::alloc::Global;

/// Returns a fault with these octets as its data. If memory runs out, it returns `NoMemory`.
pub fn fault(alloc: Global, code: u8, subcode: u8, info: &[u8]) -> CodecFault
    ensures { Stops result (Some (notice code subcode info.now)) }
{
    match Octets::from_slice(alloc, info) {
        Ok(info) => CodecFault::Wire(Notice {
            code,
            subcode,
            info,
        }),
        Err(NoMemory) => CodecFault::NoMemory,
    }
}
