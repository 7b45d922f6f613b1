//! The beginning of a session: its OPEN is put.

ghost use Rattle.std.specs.Prelude.{◌≡◌, ◌≤◌, ◌^◌, length, false, IfOk};
ghost use Rattle.bgp_types.specs.Spelling.{spell};
ghost use Rattle.bgp_types.specs.declared.message.Message.TheVariants as messages;
ghost use Rattle.tcp_seq.specs.declared.segment.Way.TheVariants as ways;
ghost use Rattle.tcp_end.specs.State.{fresh_end};
ghost use Rattle.bgp_story.specs.Legal.{IsPeering};
ghost use Rattle.bgp_story.specs.Opens.{as_cap as as_cap_lem, unicast_cap as unicast_cap_lem, home_caps as home_caps_lem};
ghost use Rattle.session_value.specs.Sessions.{begun, peering_of};
ghost use Rattle.bgp_session.specs.Inner.{SessionInvariant, value_of};

use crate::parts::{Parts, send};
use adj_rib::AdjRib;
use bgp_story::Story;
use bgp_types::{Cap, Caps, Items, Message, NoMemory, Octets, OpenMsg, narrow_as};
use bgp_wire::{FOUR_OCTET_AS, write_message};
use session_value::SessionConfig;
use std::alloc::Global;
use tcp_end::End;
use tcp_seq::Way;

/// Capability code for multiprotocol extensions (RFC 4760, section 8).
const MULTIPROTOCOL: u8 = 1;

/// The value of that capability for IPv4 unicast: AFI 1 in two octets, a reserved octet, and SAFI 1.
const IPV4_UNICAST: [u8; 4] = [0, 1, 0, 1];

/// Returns the capability for multiprotocol extensions, for IPv4 unicast.
fn unicast_cap(alloc: Global) -> Result<Cap, NoMemory>
    ensures { IfOk result (λ cap. cap ≡ unicast_cap_lem) }
{
    Ok(Cap {
        code: MULTIPROTOCOL,
        bytes: Octets::from_slice(alloc, &IPV4_UNICAST)?,
    })
}

/// Returns the capability for four-octet AS numbers, which carries the AS number (RFC 6793, section 3).
fn as_cap(alloc: Global, as_number: u32) -> Result<Cap, NoMemory>
    ensures { IfOk result (λ cap. cap ≡ as_cap_lem as_number) }
{
    Ok(Cap {
        code: FOUR_OCTET_AS,
        bytes: Octets::from_slice(alloc, &as_number.to_be_bytes())?,
    })
}

/// Returns the capabilities in the OPEN that the session puts: IPv4 unicast if the configuration asks for it, then
/// four-octet AS numbers if it offers them.
fn home_caps(alloc: Global, config: &SessionConfig) -> Result<Caps, NoMemory>
    ensures { IfOk result (λ caps. caps ≡ home_caps_lem config.now.home_as config.now.offered config.now.unicast) }
{
    let mut caps = Items::new(alloc);
    if config.unicast {
        caps.push(unicast_cap(alloc)?)?;
    }
    if config.offered {
        caps.push(as_cap(alloc, config.home_as)?)?;
    }
    Ok(caps)
}

/// Returns the OPEN that the session puts.
fn first_open(alloc: Global, config: &SessionConfig) -> Result<OpenMsg, NoMemory>
    ensures { IfOk result (λ first. first ≡ (peering_of config.now).first) }
{
    Ok(OpenMsg {
        as_number: u32::from(narrow_as(config.home_as)),
        hold: config.home_hold,
        identifier: config.identifier,
        caps: home_caps(alloc, config)?,
    })
}

/// Returns the octets of the OPEN that the session puts.
fn first_octets(alloc: Global, config: &SessionConfig) -> Result<Octets, NoMemory>
    requires { IsPeering (peering_of config.now) }
    ensures { IfOk result (λ octets. octets ≡ spell (messages.OpenMsg (peering_of config.now).first) false) }
{
    let open = first_open(alloc, config)?;
    write_message(alloc, &Message::OpenMsg(open), false)
}

/// Returns the endpoint of a new session, with these octets waiting to be sent.
fn first_end(alloc: Global, config: &SessionConfig, octets: &[u8]) -> Result<End, NoMemory>
    requires { length octets.now ≤ 2 ^ 20 }
    ensures { IfOk result
        (λ end. end ≡ record (fresh_end ways.Remote config.now.peering config.now.send_first config.now.receive_first) { waiting = octets.now }) }
{
    let mut end = End::new(
        alloc,
        Way::Remote,
        config.peering,
        config.send_first,
        config.receive_first,
    )?;
    send(&mut end, octets)?;
    Ok(end)
}

/// Returns the parts of a session that has put its OPEN.
pub(crate) fn first_parts(alloc: Global, config: SessionConfig) -> Result<Parts, NoMemory>
    requires { IsPeering (peering_of config) }
    ensures value { IfOk result (λ parts. value_of parts ≡ begun config) }
    ensures keeps { IfOk result SessionInvariant }
{
    let octets = first_octets(alloc, &config)?;
    let end = first_end(alloc, &config, octets.as_slice())?;
    let open = first_open(alloc, &config)?;
    let story = Story::begin(alloc, open, config.remote_as)?;
    Ok(Parts {
        alloc,
        config,
        story,
        adj_rib_in: AdjRib::new(alloc),
        adj_rib_out: AdjRib::new(alloc),
        end,
        opened: None,
        left: 0,
        next_round: 0,
    })
}
