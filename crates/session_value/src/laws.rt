//! What holds of every session that the cases of this crate lead to.

ghost use Rattle.std.specs.Prelude.{ℕ, ◌≡◌, ◌≢◌, ◌≤◌, ◌<◌, ◌+◌, ◌++◌, ◌⊎◌, ◌∷◌, [], List, Bool, true, length, Some};
ghost use Rattle.bgp_types.specs.declared.fault.Expected.{Expected};
ghost use Rattle.bgp_types.specs.declared.message.Message.TheVariants.{OpenMsg, NoticeMsg, KeepaliveMsg};
ghost use Rattle.bgp_types.specs.declared.message.Notice.{Notice};
ghost use Rattle.bgp_types.specs.declared.message.OpenMsg as open_type;
ghost use Rattle.bgp_types.specs.declared.message.SessionState.{SessionState};
ghost use Rattle.bgp_types.specs.declared.message.SessionState.TheVariants.{Closed};
ghost use Rattle.bgp_types.specs.declared.message.Update.{Update};
ghost use Rattle.bgp_types.specs.FirstFault.{first_fault, message_of};
ghost use Rattle.bgp_types.specs.Spelling.{spell};
ghost use Rattle.tcp_seq.specs.Endpoint.{Endpoint, PlacedSegment, received_bytes, EmitsSlice, EmitsNext, EmitsAgain, EmitsEmpty, TakesSegment};
ghost use Rattle.bgp_story.specs.declared.line.Line.{Line};
ghost use Rattle.bgp_story.specs.declared.line.Line.TheVariants.{Got, Tick};
ghost use Rattle.bgp_story.specs.Legal.{IsPeering, IsGot, expected_next, hold_expired, is_up, reply_at, reply_to, silence};
ghost use Rattle.bgp_story.specs.Opens.{IsHomeOpen};
ghost use Rattle.bgp_story.specs.Readings.{got_bytes, put_bytes};
ghost use Rattle.session_value.specs.declared.config.SessionConfig.{SessionConfig};
ghost use Rattle.session_value.specs.Cases.{GetsFrame, PutsUpdate, PassesRound, put_by};
ghost use Rattle.session_value.specs.Fronts.{AreFirst};
ghost use Rattle.session_value.specs.Sessions.{SessionValue, peering_of, state, unread, hold_time, begun};
ghost use Rattle.session_value.specs.Ties.{IsTied, IsOfStory, most_put};

/// The messages that a session puts by itself are short: a KEEPALIVE has 19 octets, its OPEN at most
/// 45, the NOTIFICATION that the hold timer expired 21, and one for a fault at most 4,096 (RFC 4271,
/// section 4).
pub fn own_messages_are_short()
    ensures keepalive { (wide : Bool) → length (spell KeepaliveMsg wide) ≡ 19 }
    ensures open { (first : open_type.OpenMsg) (wide : Bool) → IsHomeOpen first → length (spell (OpenMsg first) wide) ≤ 45 }
    ensures expired { (wide : Bool) → length (spell (NoticeMsg hold_expired) wide) ≡ 21 }
    ensures fault { (bytes : List ℕ) (expected : Expected) (notice : Notice) (wide : Bool)
        → first_fault bytes expected ≡ Some notice → length (spell (NoticeMsg notice) wide) ≤ 4096 }
{}

/// The answer to what is got, and to a round, fits in the stream.
pub fn answers_have_room()
    ensures got { (session : SessionValue) (bytes : List ℕ) (answer : List Line) (next : SessionState)
        → IsTied session → state session ≢ Closed
        → reply_to (message_of (expected_next (peering_of session.config) session.story (state session)) bytes) ≡ (answer, next)
        → length session.end.stream + length (put_by session (session.story ++ Got bytes ∷ answer) answer) ≤ most_put next }
    ensures passed { (session : SessionValue) (round : ℕ) (answer : List Line) (next : SessionState)
        → is_up (state session) ≡ true → length session.end.stream ≤ 1044461
        → reply_at (hold_time session) (silence session.story + 1) round (state session) ≡ (answer, next)
        → length session.end.stream + length (put_by session (session.story ++ Tick round ∷ answer) answer) ≤ most_put next }
{}

/// A session that has just begun is what its story says.
pub fn a_begun_session_is_of_its_story()
    ensures { (config : SessionConfig) → IsPeering (peering_of config) → IsOfStory (begun config) }
{}

/// Whatever happens to a session, its endpoint stays tied to its story.
pub fn sessions_stay_tied()
    ensures gets { (before after : SessionValue) (bytes : List ℕ) → IsTied before → GetsFrame before bytes after → IsTied after }
    ensures puts { (before after : SessionValue) (update : Update) → IsTied before → PutsUpdate before update after → IsTied after }
    ensures passes { (before after : SessionValue) (round : ℕ) → IsTied before → PassesRound before round after → IsTied after }
    ensures emits { (session : SessionValue) (segment : PlacedSegment) (end : Endpoint)
        → IsTied session → EmitsSlice session.end segment end ⊎ EmitsEmpty session.end segment end → IsTied (record session { end = end }) }
    ensures takes { (session : SessionValue) (segment : PlacedSegment) (end : Endpoint)
        → IsTied session → TakesSegment session.end segment end → IsTied (record session { end = end }) }
{}

/// Whatever happens to a session, its story stays legal, and its tables stay those of the story.
pub fn sessions_stay_of_their_story()
    ensures gets { (before after : SessionValue) (bytes : List ℕ) → IsOfStory before → GetsFrame before bytes after → IsOfStory after }
    ensures puts { (before after : SessionValue) (update : Update) → IsOfStory before → PutsUpdate before update after → IsOfStory after }
    ensures passes { (before after : SessionValue) (round : ℕ) → IsOfStory before → PassesRound before round after → IsOfStory after }
    ensures emits { (session : SessionValue) (segment : PlacedSegment) (end : Endpoint)
        → IsOfStory session → EmitsSlice session.end segment end ⊎ EmitsEmpty session.end segment end → IsOfStory (record session { end = end }) }
    ensures takes { (session : SessionValue) (segment : PlacedSegment) (end : Endpoint)
        → IsOfStory session → TakesSegment session.end segment end → IsOfStory (record session { end = end }) }
{}

/// What a session received is what its story got, followed by what is unread. What was read of it has
/// the length of what the story got, and its stream is at most 1 MiB long.
pub fn ties_say_what_was_received()
    ensures received { (session : SessionValue) → IsTied session → received_bytes session.end ≡ got_bytes session.story ++ unread session }
    ensures got { (session : SessionValue) → IsTied session → AreFirst (got_bytes session.story) (received_bytes session.end) }
    ensures read { (session : SessionValue) → IsTied session → session.end.read ≡ length (got_bytes session.story) }
    ensures stream { (session : SessionValue) → IsTied session → length session.end.stream ≤ 1048576 }
{}
