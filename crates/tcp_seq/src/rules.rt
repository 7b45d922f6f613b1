//! Which segments are acceptable, and what an acknowledgement says.

ghost use Rattle.std.specs.Prelude.{◌≡◌, ◌↔◌, ◌≤◌, ◌^◌, IsTrue};
ghost use Rattle.tcp_seq.specs.Numbers.{offset_from};
ghost use Rattle.tcp_seq.specs.Rules.{Acceptable, IsAck};

use crate::seq::Seq;

/// Whether a segment of `len` bytes at `seq` is acceptable to a receiver that expects `next` and has
/// this receive window (RFC 9293, section 3.4).
pub fn acceptable(next: Seq, window: u32, seq: Seq, len: u32) -> bool
    ensures { IsTrue result ↔ Acceptable next.0 window seq.0 len }
{
    match (len, window) {
        (0, 0) => seq == next,
        (0, _) => seq.offset_from(next) < window,
        (_, 0) => false,
        (_, _) => { seq.offset_from(next) < window || seq.plus(len - 1).offset_from(next) < window }
    }
}

/// What an acknowledgement says to a sender.
#[derive(Clone, Copy, Debug, PartialEq, Eq, Hash)]
pub enum AckKind {
    /// It acknowledges bytes that weren't acknowledged before.
    New,
    /// It acknowledges nothing that wasn't acknowledged before.
    Old,
    /// It acknowledges bytes that weren't sent.
    Beyond,
}

/// Returns what the acknowledgement `ack` says to a sender whose oldest unacknowledged number is `una`
/// and whose next number is `nxt`, at most 1,048,576 numbers after `una` (RFC 9293, sections 3.4 and
/// 3.10.7.4). A number whose offset from `una` is 2^31 or more counts as older; this bound is the
/// project's own.
pub fn ack_kind(una: Seq, nxt: Seq, ack: Seq) -> AckKind
    requires { offset_from nxt.0 una.0 ≤ 2 ^ 20 }
    ensures { IsAck result una.0 nxt.0 ack.0 }
{
    let offset = ack.offset_from(una);
    if offset == 0 || offset >= 1 << 31 {
        AckKind::Old
    } else if offset <= nxt.offset_from(una) {
        AckKind::New
    } else {
        AckKind::Beyond
    }
}
