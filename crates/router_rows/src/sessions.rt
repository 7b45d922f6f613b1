//! The sessions of the laboratory, and the endpoints of their remotes.

ghost use Rattle.std.specs.Prelude.{◌≡◌, IfOk};
ghost use Rattle.router_rows.specs.Laboratory.{all_firsts, first_numbers as first_numbers_lem, session_of};

use actor_configs::Firsts;
use graft_edge::{Items, Name, NoMemory, PeeringId};
use session_value::SessionConfig;
use std::alloc::Global;
use tcp_end::End;
use tcp_seq::{Seq, Way};

/// The initial sequence numbers: of each home side, and of each remote.
const OURS: u32 = 1_000;

const THEIRS: u32 = 5_000;

/// Returns the initial sequence numbers of a peering.
fn first_numbers() -> Firsts
    ensures { result ≡ first_numbers_lem }
{
    Firsts {
        home: Seq(OURS),
        remote: Seq(THEIRS),
    }
}

/// Returns the initial sequence numbers of all five peerings.
pub fn firsts(alloc: Global) -> Result<Items<Firsts>, NoMemory>
    ensures { IfOk result (λ firsts. firsts ≡ all_firsts) }
{
    let one = first_numbers();
    let firsts = Vec::from_array(alloc, [one, one, one, one, one])?;
    Ok(Items::from_vec(firsts))
}

/// Returns the configuration of a peering's session. Its remote has AS 65001 + `peering`, and the address 192.0.2.1 + 4
/// `peering`; the home side has the next address.
pub fn session(
    peering: u8,
    identifier: u32,
    home_hold: u16,
    import: Option<Name>,
    export: Option<Name>,
) -> SessionConfig
    ensures { result ≡ session_of peering identifier home_hold import export }
{
    let address = 0xC000_0201 + 4 * u32::from(peering);
    SessionConfig {
        peering: PeeringId(peering),
        home_as: 65_000,
        identifier,
        remote_as: 65_001 + u32::from(peering),
        offered: false,
        unicast: false,
        home_hold,
        remote_address: address,
        local_address: address + 1,
        send_first: Seq(OURS),
        receive_first: Seq(THEIRS),
        import,
        export,
    }
}

/// Returns the endpoint of a peering's remote.
pub fn remote(alloc: Global, peering: u8) -> Result<End, NoMemory> {
    End::new(alloc, Way::Home, PeeringId(peering), Seq(THEIRS), Seq(OURS))
}
