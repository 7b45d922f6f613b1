//! What is asked of the end in the parts of a capsule.

ghost use Rattle.std.specs.Prelude.{◌≡◌, ◌≢◌, ◌↔◌, ◌+◌, ◌≤◌, length, drop, IsTrue, MatchBool};
ghost use Rattle.session_value.specs.Fronts.{BeginsNothing};
ghost use Rattle.capsule_parts.specs.Sound.{IsInFlight, put_octets, got_octets};
ghost use Rattle.capsule_parts.specs.Retold.{HasSoundEnd, HasSoundStreams, HasTaken};

use crate::pieces::lie_above;
use bgp_frame::first_frame;
use bgp_session::MOST_PUT;
use capsule_bytes::CapsuleParts;
use tcp_seq::{EndState, Way};

/// The most bytes that may be emitted and not acknowledged.
const FLIGHT: u32 = 15_360;

/// The most bytes that a session receives: 1 MiB.
const MOST_RECEIVED: u32 = 1_048_576;

/// How far ahead of the bytes received in order other bytes may be.
const WINDOW: usize = 16_384;

/// Returns whether octets begin with no whole message and no faulty header.
fn begins_nothing(octets: &[u8]) -> bool
    ensures { MatchBool result (BeginsNothing octets.now) (¬ BeginsNothing octets.now) }
{
    match first_frame(octets) {
        Ok(None) => true,
        Ok(Some(_front)) => false,
        Err(_fault) => false,
    }
}

/// Returns whether the end may have emitted as much of a stream of this length as it says.
fn is_in_flight(end: &EndState, put: usize) -> bool
    ensures { IsTrue result ↔ IsInFlight end.now put }
{
    end.acked <= end.sent
        && end.sent - end.acked <= FLIGHT
        && end.sent as usize <= put
        && put <= MOST_PUT
}

/// Returns whether what waits at the end is what isn't acknowledged of these octets.
fn is_waiting(end: &EndState, put: &[u8]) -> bool
    requires { end.now.acked ≤ length put.now }
    ensures { MatchBool result (end.now.waiting ≡ drop end.now.acked put.now) (end.now.waiting ≢ drop end.now.acked put.now) }
{
    end.waiting.as_slice() == &put[end.acked as usize..]
}

/// Returns whether the end has taken as many bytes as were received, and these are few enough.
fn is_taken(end: &EndState, received: usize) -> bool
    ensures { IsTrue result ↔ HasTaken end.now received }
{
    end.taken as usize == received && end.taken <= MOST_RECEIVED && end.ready.is_empty()
}

/// Returns whether the end sends these octets, and has taken as many as were received.
fn has_sound_streams(end: &EndState, put: &[u8], received: usize) -> bool
    ensures { IsTrue result ↔ HasSoundStreams end.now put.now received }
{
    if !is_in_flight(end, put.len()) {
        return false;
    }
    if !is_waiting(end, put) {
        return false;
    }
    end.acked_at_turn <= end.acked && is_taken(end, received)
}

/// Returns whether the end in parts is sound. `put` is what their story puts, and `received` how much it got and is held.
pub(crate) fn has_sound_end(parts: &CapsuleParts, put: &[u8], received: usize) -> bool
    requires put { put.now ≡ put_octets parts.now.story }
    requires received { received ≡ length (got_octets parts.now.story) + length parts.now.held }
    ensures { IsTrue result ↔ HasSoundEnd parts.now }
{
    let end = &parts.end;
    if !has_sound_streams(end, put, received) {
        return false;
    }
    if !begins_nothing(parts.held.as_slice()) {
        return false;
    }
    if !lie_above(end.ahead.as_slice(), received, received + WINDOW) {
        return false;
    }
    end.peering == parts.peering && end.way == Way::Remote && parts.late.is_empty()
}
