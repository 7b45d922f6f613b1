//! A worked session, line by line.

ghost use Rattle.std.specs.Prelude.{◌≡◌, ◌++◌, ◌∷◌, [], false, IfOk};
ghost use Rattle.bgp_types.specs.Values.{is_short_hold};
ghost use Rattle.bgp_story.specs.WorkedSessions.{open_bytes, keepalive_bytes, update_bytes, sent_lines, confirmed_lines, joined_lines, heard_lines};
ghost use Rattle.bgp_story.specs.declared.line.Line.TheVariants.{Put, Tick};
ghost use Rattle.bgp_types.specs.declared.message.Message.TheVariants.{KeepaliveMsg};

use bgp_story::Story;
use bgp_types::{Caps, Message, Octets, OpenMsg, SessionState};
use std::alloc::Global;
use std::test::*;

/// Returns an OPEN of the remote, with hold time 180.
fn remote_open(alloc: Global) -> Result<Octets, Fail>
    ensures { IfOk result (λ octets. octets ≡ open_bytes) }
{
    Ok(Octets::from_slice(
        alloc,
        &[
            0xFF, 0xFF, 0xFF, 0xFF, 0xFF, 0xFF, 0xFF, 0xFF, 0xFF, 0xFF, 0xFF, 0xFF, 0xFF, 0xFF,
            0xFF, 0xFF, 0x00, 0x1D, 0x01, 0x04, 0xFD, 0xE9, 0x00, 0xB4, 0xC0, 0x00, 0x02, 0x01,
            0x00,
        ],
    )?)
}

fn keepalive(alloc: Global) -> Result<Octets, Fail>
    ensures { IfOk result (λ octets. octets ≡ keepalive_bytes) }
{
    Ok(Octets::from_slice(
        alloc,
        &[
            0xFF, 0xFF, 0xFF, 0xFF, 0xFF, 0xFF, 0xFF, 0xFF, 0xFF, 0xFF, 0xFF, 0xFF, 0xFF, 0xFF,
            0xFF, 0xFF, 0x00, 0x13, 0x04,
        ],
    )?)
}

/// Returns the announcement of 10.0.0.0/8.
fn announcement(alloc: Global) -> Result<Octets, Fail>
    ensures { IfOk result (λ octets. octets ≡ update_bytes) }
{
    Ok(Octets::from_slice(
        alloc,
        &[
            0xFF, 0xFF, 0xFF, 0xFF, 0xFF, 0xFF, 0xFF, 0xFF, 0xFF, 0xFF, 0xFF, 0xFF, 0xFF, 0xFF,
            0xFF, 0xFF, 0x00, 0x2B, 0x02, 0x00, 0x00, 0x00, 0x12, 0x40, 0x01, 0x01, 0x00, 0x40,
            0x02, 0x04, 0x02, 0x01, 0xFD, 0xE9, 0x40, 0x03, 0x04, 0xC0, 0x00, 0x02, 0x01, 0x08,
            0x0A,
        ],
    )?)
}

/// Returns the story of a session whose OPEN was put.
fn sent(alloc: Global, hold: u16) -> Result<Story, Fail>
    requires { is_short_hold hold ≡ false }
    ensures { IfOk result (λ story. story ≡ record { lines = sent_lines hold; remote_as = 65001 }) }
{
    let first = OpenMsg {
        as_number: 65000,
        hold,
        identifier: 0x0AFF_0001,
        caps: Caps::new(alloc),
    };
    Ok(Story::begin(alloc, first, 65001)?)
}

/// Returns the story of a session whose OPENs were put and got.
fn confirmed(alloc: Global, hold: u16) -> Result<Story, Fail>
    requires { is_short_hold hold ≡ false }
    ensures { IfOk result (λ story. story ≡ record { lines = confirmed_lines hold; remote_as = 65001 }) }
{
    let mut story = sent(alloc, hold)?;
    let open = remote_open(alloc)?;
    story.got(open)?;
    story.put(Message::KeepaliveMsg)?;
    Ok(story)
}

/// Returns the story of a session that took the KEEPALIVE of the remote.
fn joined(alloc: Global) -> Result<Story, Fail>
    ensures { IfOk result (λ story. story ≡ record { lines = joined_lines 0; remote_as = 65001 }) }
{
    let mut story = confirmed(alloc, 0)?;
    let reply = keepalive(alloc)?;
    story.got(reply)?;
    Ok(story)
}

/// Returns the story of a session that heard an announcement.
fn heard(alloc: Global) -> Result<Story, Fail>
    ensures { IfOk result (λ story. story ≡ record { lines = heard_lines 0; remote_as = 65001 }) }
{
    let mut story = joined(alloc)?;
    let update = announcement(alloc)?;
    story.got(update)?;
    Ok(story)
}

/// Returns the story of a session with hold time 90 that put a KEEPALIVE in round 30.
fn beaten(alloc: Global) -> Result<Story, Fail>
    ensures { IfOk result (λ story. story ≡ record { lines = confirmed_lines 90 ++ Tick 30 ∷ Put KeepaliveMsg ∷ []; remote_as = 65001 }) }
{
    let mut story = confirmed(alloc, 90)?;
    story.tick(30)?;
    story.put(Message::KeepaliveMsg)?;
    Ok(story)
}

#[test]
fn states_of_a_session(rt: HostRuntime) -> Result<(), Fail> {
    let alloc = rt.alloc();
    let story = sent(alloc, 0)?;
    assert_eq!(rt; story.state(), SessionState::OpenSent);
    assert_eq!(rt; story.remote_as(), 65001);
    let story = confirmed(alloc, 0)?;
    assert_eq!(rt; story.state(), SessionState::OpenConfirm);
    let story = heard(alloc)?;
    assert_eq!(rt; story.state(), SessionState::Established);
    assert_eq!(rt; story.lines().len(), 5);
    let story = beaten(alloc)?;
    assert_eq!(rt; story.state(), SessionState::OpenConfirm);
    Ok(())
}
