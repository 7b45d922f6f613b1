//! The capsule that has given parts.

ghost use Rattle.std.specs.Prelude.{◌≡◌, ◌≤◌, ◌-◌, ◌++◌, Err, length, IfOk, OnOk};
ghost use Rattle.session_value.specs.Ties.{IsOfStory};
ghost use Rattle.bgp_session.specs.Running.{RunningSession};
ghost use Rattle.capsule_parts.specs.Parts.{parts_of, config_of};
ghost use Rattle.capsule_parts.specs.Sound.{IsAtRest, IsSound, got_octets as got_octets_lem};
ghost use Rattle.capsule_parts.specs.Retold.{HasSoundEnd, with_ready};

use crate::check::has_sound_end;
use crate::retell::retold;
use crate::stop::PartsStop;
use crate::story::{got_octets, put_octets};
use bgp_session::Capsule;
use bgp_types::Octets;
use capsule_bytes::{CapsuleParts, PartLines};
use session_value::SessionConfig;
use std::alloc::Global;
use tcp_seq::EndState;

/// Takes parts apart: the configuration, the end as it goes on, with what is held as ready, and the story.
fn apart(parts: CapsuleParts) -> (SessionConfig, EndState, PartLines)
    requires { length parts.held ≤ parts.end.taken }
    ensures config { result.0 ≡ config_of parts }
    ensures end { result.1 ≡ with_ready parts (parts.end.taken - length parts.held) }
    ensures story { result.2 ≡ parts.story }
{
    let CapsuleParts {
        peering,
        remote_as,
        home_as,
        identifier,
        remote_address,
        local_address,
        home_hold,
        offered,
        unicast,
        import,
        export,
        mut end,
        held,
        story,
        ..
    } = parts;
    let config = SessionConfig {
        peering,
        home_as,
        identifier,
        remote_as,
        offered,
        unicast,
        home_hold,
        remote_address,
        local_address,
        send_first: end.send_first,
        receive_first: end.receive_first,
        import,
        export,
    };
    end.taken -= held.len() as u32;
    end.ready = held;
    (config, end, story)
}

/// Returns the octets that the session with these parts has received: those that its story got, and those that are held.
/// The parts are refused if their end isn't sound.
fn received_octets(alloc: Global, parts: &CapsuleParts) -> Result<Octets, PartsStop>
    ensures octets { IfOk result (λ octets. octets ≡ got_octets_lem parts.now.story ++ parts.now.held) }
    ensures sound { OnOk result (HasSoundEnd parts.now) }
    ensures unsound { result ≡ Err PartsStop.Unsound → ¬ HasSoundEnd parts.now }
{
    let put = put_octets(alloc, parts.story.as_slice())?;
    let mut received = got_octets(alloc, parts.story.as_slice())?;
    received.extend(parts.held.as_slice())?;
    if !has_sound_end(parts, put.as_slice(), received.len()) {
        return Err(PartsStop::Unsound);
    }
    Ok(received)
}

/// Returns the capsule that has these parts. They are refused where no capsule has them. The routes of its session are
/// told again by its story.
pub fn from_parts(alloc: Global, parts: CapsuleParts) -> Result<Capsule, PartsStop>
    ensures sound { OnOk result (IsSound parts) }
    ensures unsound { result ≡ Err PartsStop.Unsound → ¬ IsSound parts }
    ensures parts { IfOk result (λ capsule. parts_of capsule ≡ parts) }
    ensures at_rest { IfOk result IsAtRest }

    // A capsule whose parts these are is what is returned.
    ensures same { (capsule : RunningSession) → IsOfStory capsule.session → parts_of capsule ≡ parts → IfOk result (λ made. made ≡ capsule) }
{
    let received = received_octets(alloc, &parts)?;
    let (config, end, story) = apart(parts);
    let mut session = retold(alloc, config, received, story.as_slice())?;
    session.set_end(end);
    Ok(session.freeze().leave())
}
