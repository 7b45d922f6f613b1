//! What holds of legal stories.

ghost use Rattle.std.specs.Prelude.{◌≡◌, ◌≢◌, ℕ, ◌*◌, ◌^◌, ◌<◌, ◌≤◌, ◌⊎◌, List, [], ◌∷◌, ◌++◌, Contains, Some, None, IsSome, true, false, fold};
ghost use Rattle.std.specs.FinMap as map;
ghost use Rattle.std.specs.List.{AllByRecursion, flat_map};
ghost use Rattle.bgp_types.specs.declared.message.Message.TheVariants.{NoticeMsg, UpdateMsg};
ghost use Rattle.bgp_types.specs.declared.message.Notice.{Notice};
ghost use Rattle.bgp_types.specs.declared.message.SessionState.{SessionState};
ghost use Rattle.bgp_types.specs.declared.message.SessionState.TheVariants.{Closed, OpenConfirm, Established};
ghost use Rattle.bgp_types.specs.declared.message.Update.{Update};
ghost use Rattle.bgp_types.specs.OpenBody.{as_said};
ghost use Rattle.bgp_types.specs.PathOctets.{narrow_as};
ghost use Rattle.bgp_types.specs.Prefixes.{PrefixValue};
ghost use Rattle.bgp_types.specs.Writable.{IsWritable};
ghost use Rattle.bgp_story.specs.declared.line.Line.{Line};
ghost use Rattle.bgp_story.specs.declared.line.Line.TheVariants.{Put};
ghost use Rattle.bgp_story.specs.Laws.{OpensOnce, IsGotLine, HasCause};
ghost use Rattle.bgp_story.specs.Legal.{Peering, Allowed, is_up, is_wide, hold, expected_next};
ghost use Rattle.bgp_story.specs.Opens.{IsHomeOpen};
ghost use Rattle.bgp_story.specs.Readings.{IsLegal, put_bytes, put_in, got_bytes, told, heard, tell, hear};
ghost use Rattle.bgp_story.specs.States.{BeginsStory, state_of};
ghost use Rattle.bgp_story.specs.WorkedSessions as worked;

/// A legal story has the form that the laws below require, and that the type `Story` keeps.
pub fn legal_is_allowed()
    ensures allowed { (p : Peering) (lines : List Line) (state : SessionState) → IsLegal p lines state → Allowed p lines state }
    ensures begins { (p : Peering) (lines more : List Line) (state : SessionState) → IsLegal p (lines ++ more) state → BeginsStory p.remote_as lines }
{}

/// The OPEN of a legal story is one that a home side can put: its hold time is 0, or at least 3
/// seconds, its identifier is the address of a host, and the ASes of both sides are at least 1 (RFC
/// 4271, section 4.2; RFC 6793, section 4.1; RFC 7607, section 2).
pub fn open_is_in_range()
    ensures home { (p : Peering) (lines : List Line) (state : SessionState) → Allowed p lines state → IsHomeOpen p.first }
    ensures hold { (p : Peering) (lines : List Line) (state : SessionState) → Allowed p lines state
        → (p.first.hold ≡ 0) ⊎ ((3 ≤ p.first.hold) × (p.first.hold < 2 ^ 16)) }
    ensures identifier { (p : Peering) (lines : List Line) (state : SessionState)
        → Allowed p lines state → (0 < p.first.identifier) × (p.first.identifier < 224 * 2 ^ 24) }
    ensures home_as { (p : Peering) (lines : List Line) (state : SessionState)
        → Allowed p lines state → (0 < p.first.as_number) × (p.first.as_number < 2 ^ 16) }
    ensures wide_as { (p : Peering) (lines : List Line) (state : SessionState) (as_number : ℕ) → Allowed p lines state
        → as_said p.first.caps ≡ Some as_number → (0 < as_number) × (as_number < 2 ^ 32) × (p.first.as_number ≡ narrow_as as_number) }
    ensures remote_as { (p : Peering) (lines : List Line) (state : SessionState) → Allowed p lines state → (0 < p.remote_as) × (p.remote_as < 2 ^ 32) }
{}

/// The state of a legal story is the one that its lines give.
pub fn state_by_lines()
    ensures { (p : Peering) (lines : List Line) (state : SessionState) → Allowed p lines state → state_of lines ≡ state }
{}

/// A legal story begins with the OPEN of the home side, and no other OPEN is put.
pub fn opens_once()
    ensures { (p : Peering) (lines : List Line) (state : SessionState) → Allowed p lines state → OpensOnce p lines }
{}

/// Everything that a legal story got is a whole message with a sound header, or a header with a fault.
pub fn got_in_frames()
    ensures { (p : Peering) (lines : List Line) (state : SessionState) → Allowed p lines state → AllByRecursion IsGotLine lines }
{}

/// Nothing follows in state Closed.
pub fn closed_is_the_end()
    ensures legal { (p : Peering) (lines more : List Line) (state : SessionState) → Allowed p lines Closed → Allowed p (lines ++ more) state → more ≡ [] }
    ensures begun { (remote_as : ℕ) (lines more : List Line) (line : Line) → BeginsStory remote_as (lines ++ line ∷ more) → state_of lines ≢ Closed }
{}

/// A NOTIFICATION is put only after a message with its fault was got, or when the hold time has
/// expired.
pub fn notifications_have_causes()
    ensures { (p : Peering) (lines more : List Line) (n : Notice) (state : SessionState)
        → Allowed p (lines ++ Put (NoticeMsg n) ∷ more) state → HasCause p lines n }
{}

/// An UPDATE is put in Established. It either withdraws or announces, and it can be written in the
/// session's width of AS numbers.
pub fn updates_are_one_way()
    ensures before { (p : Peering) (lines more : List Line) (u : Update) (state : SessionState)
        → IsLegal p (lines ++ Put (UpdateMsg u) ∷ more) state → IsLegal p lines Established }
    ensures one_way { (p : Peering) (lines more : List Line) (u : Update) (state : SessionState)
        → IsLegal p (lines ++ Put (UpdateMsg u) ∷ more) state → ((u.withdrawn ≢ []) × (u.nlri ≡ [])) ⊎ ((u.withdrawn ≡ []) × (u.nlri ≢ [])) }
    ensures writable { (p : Peering) (lines more : List Line) (u : Update) (state : SessionState)
        → IsLegal p (lines ++ Put (UpdateMsg u) ∷ more) state → IsWritable (UpdateMsg u) (is_wide p lines) }
{}

/// An UPDATE that is put changes what was told for each of its prefixes, and for no other prefix: after
/// it an announced prefix has its attributes, and a withdrawn one has none (RFC 4271, section 3.1).
pub fn updates_change_what_was_told()
    ensures changed { (p : Peering) (lines more : List Line) (u : Update) (state : SessionState) (prefix : PrefixValue)
        → IsLegal p (lines ++ Put (UpdateMsg u) ∷ more) state → Contains (u.withdrawn ++ u.nlri) prefix
        → map.get (told (lines ++ Put (UpdateMsg u) ∷ [])) prefix ≢ map.get (told lines) prefix }
    ensures announced { (p : Peering) (lines more : List Line) (u : Update) (state : SessionState) (prefix : PrefixValue)
        → IsLegal p (lines ++ Put (UpdateMsg u) ∷ more) state → Contains u.nlri prefix → map.get (told (lines ++ Put (UpdateMsg u) ∷ [])) prefix ≡ u.attrs }
    ensures attributes { (p : Peering) (lines more : List Line) (u : Update) (state : SessionState) (prefix : PrefixValue)
        → IsLegal p (lines ++ Put (UpdateMsg u) ∷ more) state → Contains u.nlri prefix → IsSome u.attrs }
    ensures withdrawn { (p : Peering) (lines more : List Line) (u : Update) (state : SessionState) (prefix : PrefixValue)
        → IsLegal p (lines ++ Put (UpdateMsg u) ∷ more) state → Contains u.withdrawn prefix → map.get (told (lines ++ Put (UpdateMsg u) ∷ [])) prefix ≡ None }
    ensures others { (p : Peering) (lines more : List Line) (u : Update) (state : SessionState) (prefix : PrefixValue)
        → IsLegal p (lines ++ Put (UpdateMsg u) ∷ more) state → ¬ Contains (u.withdrawn ++ u.nlri) prefix
        → map.get (told (lines ++ Put (UpdateMsg u) ∷ [])) prefix ≡ map.get (told lines) prefix }
{}

/// Once the OPEN of the remote is accepted, the width of AS numbers and the hold time no longer change.
pub fn width_and_hold_stay()
    ensures width { (p : Peering) (lines more : List Line) (state : SessionState)
        → Allowed p lines state → is_up state ≡ true → is_wide p (lines ++ more) ≡ is_wide p lines }
    ensures hold { (p : Peering) (lines more : List Line) (state : SessionState)
        → Allowed p lines state → is_up state ≡ true → hold p (lines ++ more) ≡ hold p lines }
{}

/// The octets put so far are the first part of the octets put later; the same holds for the octets got.
pub fn octets_grow()
    ensures put { (p : Peering) (lines more : List Line) (state : SessionState) → Allowed p lines state
        → put_bytes p (lines ++ more) ≡ put_bytes p lines ++ flat_map (put_in (is_wide p (lines ++ more))) more }
    ensures got { (lines more : List Line) → got_bytes (lines ++ more) ≡ got_bytes lines ++ got_bytes more }
{}

/// The tables change as each further line says while the session isn't closed; once it is closed they
/// are empty.
pub fn tables_grow()
    ensures told { (lines more : List Line) → state_of lines ≢ Closed → state_of (lines ++ more) ≢ Closed → told (lines ++ more) ≡ fold tell (told lines) more }
    ensures heard { (p : Peering) (lines more : List Line) (state : SessionState) → Allowed p lines state → state ≢ Closed
        → state_of (lines ++ more) ≢ Closed → heard p (lines ++ more) ≡ fold (hear (expected_next p (lines ++ more) Established)) (heard p lines) more }
    ensures none_told { (lines : List Line) → state_of lines ≡ Closed → told lines ≡ map.empty }
    ensures none_heard { (p : Peering) (lines : List Line) → state_of lines ≡ Closed → heard p lines ≡ map.empty }
{}

/// Worked stories are legal: a route is heard, a route is told and withdrawn, a KEEPALIVE is put at a
/// third of the hold time, a hold time of 3 seconds expires, and a session has AS numbers of four
/// octets. The hold time is the smaller one of the two OPENs, and AS numbers have two octets where only
/// home offers four (RFC 4271, sections 4.2, 4.4 and 6.5; RFC 6793, section 4.1). The capability of
/// IPv4 unicast stands in front of that of four-octet AS numbers, and alone it doesn't offer these (RFC
/// 4760, section 8).
pub fn worked_stories_are_legal()
    ensures heard { IsLegal (worked.worked_peering 0) (worked.heard_lines 0) Established }
    ensures heard_routes { heard (worked.worked_peering 0) (worked.heard_lines 0) ≡ map.insert map.empty worked.ten worked.heard_attrs }
    ensures told { IsLegal (worked.worked_peering 0) (worked.told_lines 0) Established }
    ensures told_routes { told (worked.told_lines 0) ≡ map.insert map.empty worked.ten (worked.attrs_over (65000 ∷ [])) }
    ensures withdrawn { IsLegal (worked.worked_peering 0) (worked.withdrawn_lines 0) Established }
    ensures none_told { (prefix : PrefixValue) → map.get (told (worked.withdrawn_lines 0)) prefix ≡ None }
    ensures beaten { IsLegal (worked.worked_peering 90) worked.beaten_lines OpenConfirm }
    ensures expired { IsLegal (worked.worked_peering 3) worked.expired_lines Closed }
    ensures wide { IsLegal worked.wide_peering worked.wide_lines Established }
    ensures wide_octets { put_bytes worked.wide_peering worked.wide_lines ≡ worked.wide_put_bytes }
    ensures offered { IsLegal worked.offering_peering worked.offering_lines OpenConfirm }
    ensures narrow { is_wide worked.offering_peering worked.offering_lines ≡ false }
    ensures hold { hold (worked.worked_peering 240) (worked.confirmed_lines 240) ≡ 180 }
    ensures unicast { IsLegal worked.unicast_peering worked.unicast_lines Established }
    ensures unicast_octets { put_bytes worked.unicast_peering worked.unicast_lines ≡ worked.unicast_put_bytes }
    ensures unicast_narrow { is_wide worked.unicast_peering worked.unicast_lines ≡ false }
    ensures both { IsLegal worked.both_peering worked.both_lines OpenConfirm }
    ensures both_octets { put_bytes worked.both_peering worked.both_lines ≡ worked.both_put_bytes }
    ensures both_wide { is_wide worked.both_peering worked.both_lines ≡ true }
{}
