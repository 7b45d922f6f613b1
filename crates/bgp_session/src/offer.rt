//! Putting UPDATEs on a session.

ghost use Rattle.std.specs.Prelude.{ℕ, ◌≡◌, ◌<◌, Ok, OnOk};
ghost use Rattle.bgp_types.specs.declared.message.SessionState.TheVariants as states;
ghost use Rattle.bgp_story.specs.Legal.{IsOneWay, is_wide};
ghost use Rattle.bgp_story.specs.Readings.{apply_if, update_in};
ghost use Rattle.bgp_story.specs.States.{state_of};
ghost use Rattle.session_value.specs.Sessions.{peering_of};
ghost use Rattle.session_value.specs.Cases.{Changes, PutsUpdate};
ghost use Rattle.bgp_session.specs.Steps.{offered_length};
ghost use Rattle.bgp_session.specs.Inner.{SessionInvariant, value_of};

use crate::answers::OfferStop;
use crate::parts::Parts;
use adj_rib::AdjRib;
use bgp_story::Line;
use bgp_types::{Message, NoMemory, Update, message_len};
use bgp_wire::write_message;

/// The limit of the bytes put on a session that isn't closed, so that a NOTIFICATION has room after them in a stream of
/// 1,048,576.
pub const MOST_PUT: usize = 1_044_480;

/// Applies a message to the routes that were told. Only an UPDATE changes them.
fn tell(adj_rib_out: &mut AdjRib, message: &Message) -> Result<(), NoMemory>
    ensures { OnOk result (adj_rib_out.new ≡ apply_if adj_rib_out.old (update_in (Ok message.now))) }
{
    if let Message::UpdateMsg(update) = message {
        adj_rib_out.apply(update)?;
    }
    Ok(())
}

impl Parts {
    /// Puts an UPDATE. If the stream is full, nothing changes.
    pub(crate) fn offer(&mut self, update: Update) -> Result<(), OfferStop>
        requires keeps { SessionInvariant self.old }
        requires established { state_of self.old.story.lines ≡ states.Established }
        requires one_way { IsOneWay update (is_wide (peering_of self.old.config) self.old.story.lines) }
        requires changes { Changes self.old.adj_rib_out update }
        ensures ok { OnOk result (PutsUpdate (value_of self.old) update (value_of self.new)) }
        ensures full { 1044480 < offered_length (value_of self.old) update → result ≡ Err (OfferStop.StreamFull (offered_length (value_of self.old) update)) }
        ensures only_full { (n : ℕ) → result ≡ Err (OfferStop.StreamFull n)
            → (n ≡ offered_length (value_of self.old) update) × (1044480 < n) × (self.new ≡ self.old) }
        ensures same_turn { self.new.end.acked_at_turn ≡ self.old.end.acked_at_turn }
        ensures keeps { SessionInvariant self.new }
    {
        let message = Message::UpdateMsg(update);
        let wide = self.wide();
        let length = self.end.stream_len() as usize + message_len(&message, wide);
        if length > MOST_PUT {
            return Err(OfferStop::StreamFull { length });
        }
        let octets = write_message(self.alloc, &message, wide)?;
        tell(&mut self.adj_rib_out, &message)?;
        self.write_down(octets.as_slice(), Line::Put(message), None)?;
        Ok(())
    }
}
