//! UPDATEs that a session puts again.

ghost use Rattle.std.specs.Prelude.{◌≡◌, ◌≢◌, ◌↔◌, ◌∷◌, [], List, All, Option, None, Some, Ok, IsTrue, MatchBool, IfOk, IfNone, IfSome, OnOk, option_copied};
ghost use Rattle.std.specs.FinMap as map;
ghost use Rattle.bgp_types.specs.declared.message.Message as message_type;
ghost use Rattle.bgp_types.specs.declared.message.Message.TheVariants as messages;
ghost use Rattle.bgp_types.specs.FirstFault.{message_of};
ghost use Rattle.bgp_types.specs.declared.message.Update as update_type;
ghost use Rattle.bgp_types.specs.Header.{frame_at, kind_in};
ghost use Rattle.bgp_types.specs.OctetLists.{AreOctets};
ghost use Rattle.bgp_types.specs.Spelling.{spell};
ghost use Rattle.bgp_types.specs.Writable.{HasAttrsFor, IsWritable};
ghost use Rattle.bgp_story.specs.Legal.{is_wide};
ghost use Rattle.bgp_story.specs.Readings.{update_in as update_in_lem};
ghost use Rattle.session_value.specs.Cases.{Changes, PutsUpdate};
ghost use Rattle.session_value.specs.Sessions.{peering_of};
ghost use Rattle.capsule_parts.specs.Offered.{IsEitherWay, MayPut, SpellPut};
ghost use Rattle.bgp_story.specs.declared.line.Line as line_type;
ghost use Rattle.capsule_bytes.specs.declared.parts.PartLine as part_type;
ghost use Rattle.capsule_bytes.specs.declared.parts.PartLine.TheVariants as parts;
ghost use Rattle.capsule_parts.specs.Retold.{IsToldSoFar, StaysTold};

use adj_rib::AdjRib;
use bgp_frame::first_frame;
use bgp_session::{OfferStop, Session};
use bgp_types::types::UPDATE;
use bgp_types::{
    Attrs, Expected, Message, NoMemory, Prefix, SessionState, SharedAttrs, Update, message_len,
};
use bgp_wire::{CodecFault, read_message};
use std::alloc::Global;

/// The most octets of a message (RFC 4271, section 4).
const MOST_OCTETS: usize = 4_096;

/// Returns whether octets are a whole message with a sound header.
fn is_whole(octets: &[u8]) -> bool
    ensures { IsTrue result ↔ (frame_at octets.now ≡ Some (octets.now, [])) }
{
    match first_frame(octets) {
        Ok(None) => false,
        Ok(Some(front)) => front.len == octets.len(),
        Err(_fault) => false,
    }
}

/// Returns whether octets, if they are a message, are an UPDATE.
fn is_update(octets: &[u8]) -> bool
    ensures { IsTrue result ↔ (kind_in octets.now ≡ 2) }
{
    octets.len() > 18 && octets[18] == UPDATE
}

/// Reads each octet, so that a proof knows that it is below 256.
fn read_octets(octets: &[u8])
    ensures { AreOctets octets.now }
{
    for i in 0..octets.len() {
        let _octet = octets[i];
    }
}

/// Returns the message that a whole frame is read as, or `None` if it has a fault.
fn message_in(
    alloc: Global,
    octets: &[u8],
    expected: &Expected,
) -> Result<Option<Message>, NoMemory>
    requires { frame_at octets.now ≡ Some (octets.now, []) }
    ensures some { IfOk result (λ answer. IfSome answer (λ message. message_of expected.now octets.now ≡ Ok message)) }
    ensures none { IfOk result (λ answer. IfNone answer ((message : message_type.Message) → message_of expected.now octets.now ≢ Ok message)) }
{
    match read_message(alloc, octets, expected) {
        Ok(message) => Ok(Some(message)),
        Err(CodecFault::Wire(_notice)) => Ok(None),
        Err(CodecFault::NoMemory) => Err(NoMemory),
    }
}

/// Returns the UPDATE that a message is.
fn update_in(message: Message) -> Option<Update>
    ensures { result ≡ update_in_lem (Ok message) }
{
    match message {
        Message::UpdateMsg(update) => Some(update),
        Message::OpenMsg(_open) => None,
        Message::NoticeMsg(_notice) => None,
        Message::KeepaliveMsg => None,
    }
}

/// Returns the UPDATE that octets are read as in an established session, if it can be written in that session.
fn read_update(
    alloc: Global,
    octets: &[u8],
    remote_as: u32,
    offered: bool,
    wide: bool,
) -> Result<Option<Update>, NoMemory>
    ensures writable { IfOk result (λ answer. IfSome answer (λ update. IsWritable (messages.UpdateMsg update) wide)) }
    ensures written { (update : update_type.Update) → IsWritable (messages.UpdateMsg update) wide → octets.now ≡ spell (messages.UpdateMsg update) wide
        → IfOk result (λ answer. answer ≡ Some update) }
{
    if !is_whole(octets) {
        return Ok(None);
    }
    read_octets(octets);
    let expected = Expected {
        state: SessionState::Established,
        remote_as,
        offered,
        wide,
    };
    let Some(message) = message_in(alloc, octets, &expected)? else {
        return Ok(None);
    };
    if message_len(&message, wide) > MOST_OCTETS {
        return Ok(None);
    }
    Ok(update_in(message))
}

/// Returns whether an UPDATE either withdraws or announces.
fn is_either_way(update: &Update) -> bool
    ensures { MatchBool result (IsEitherWay update.now) (¬ IsEitherWay update.now) }
{
    update.withdrawn.is_empty() != update.nlri.is_empty()
}

/// Returns whether a route has other attributes, or there is no route.
fn is_other(route: Option<&SharedAttrs>, attrs: &Attrs) -> bool
    ensures { MatchBool result (option_copied route.entry ≢ Some attrs.now) (option_copied route.entry ≡ Some attrs.now) }
{
    match route {
        Some(route) => **route != *attrs,
        None => true,
    }
}

/// Returns whether each of the prefixes has a route.
fn all_told(told: &AdjRib, prefixes: &[Prefix]) -> bool
    ensures { IsTrue result ↔ All (λ prefix. map.get told.now prefix ≢ None) prefixes.now }
{
    prefixes.iter().all(|prefix| told.get(*prefix).is_some())
}

/// Returns whether none of the prefixes has a route with these attributes.
fn all_other(told: &AdjRib, prefixes: &[Prefix], attrs: &Attrs) -> bool
    ensures { IsTrue result ↔ All (λ prefix. map.get told.now prefix ≢ Some attrs.now) prefixes.now }
{
    prefixes
        .iter()
        .all(|prefix| is_other(told.get(*prefix), attrs))
}

/// Returns whether an UPDATE that either withdraws or announces changes what was told for each of its prefixes.
fn changes(told: &AdjRib, update: &Update) -> bool
    requires way { IsEitherWay update.now }
    requires attrs { HasAttrsFor update.now.attrs update.now.nlri }
    ensures { MatchBool result (Changes told.now update.now) (¬ Changes told.now update.now) }
{
    match &update.attrs {
        Some(attrs) => all_other(told, update.nlri.as_slice(), attrs),
        None => all_told(told, update.withdrawn.as_slice()),
    }
}

/// Returns whether a session may put an UPDATE, which can be written in it. There may be no room for it.
fn may_put(session: &Session, update: &Update) -> bool
    requires { IsWritable (messages.UpdateMsg update.now) (is_wide (peering_of session.now.session.config) session.now.session.story) }
    ensures { MatchBool result (MayPut session.now.session update.now) (¬ MayPut session.now.session update.now) }
{
    if session.state() != SessionState::Established {
        return false;
    }
    if !is_either_way(update) {
        return false;
    }
    changes(session.told(), update)
}

/// Puts the UPDATE that octets are read as. Returns false if the session can't put it, and then nothing changes.
fn put_again(alloc: Global, session: &mut Session, octets: &[u8]) -> Result<bool, NoMemory>
    ensures stays { OnOk result (StaysTold session.old.session session.new.session) }
    ensures puts { (update : update_type.Update) → SpellPut session.old.session octets.now update
        → IfOk result (λ put. IsTrue put × PutsUpdate session.old.session update session.new.session) }
{
    let config = session.config();
    let (remote_as, offered) = (config.remote_as, config.offered);
    let Some(update) = read_update(alloc, octets, remote_as, offered, session.wide())? else {
        return Ok(false);
    };
    if !may_put(session, &update) {
        return Ok(false);
    }
    match session.offer(update) {
        Ok(()) => Ok(true),
        Err(OfferStop::StreamFull { .. }) => Ok(false),
        Err(OfferStop::NoMemory) => Err(NoMemory),
    }
}

/// Tells a message that stands in a story as put. A session puts its OPEN and its answers by itself, so only an UPDATE is
/// put. Returns false if the session can't put it.
pub(crate) fn tell_put(
    alloc: Global,
    session: &mut Session,
    octets: &[u8],
) -> Result<bool, NoMemory>
    ensures stays { OnOk result (StaysTold session.old.session session.new.session) }
    ensures told { (story : List line_type.Line) (rest : List part_type.PartLine) → IsToldSoFar story (parts.Put octets.now ∷ rest) session.old.session
        → IfOk result (λ told. IsTrue told × IsToldSoFar story rest session.new.session) }
{
    if !is_update(octets) {
        return Ok(true);
    }
    put_again(alloc, session, octets)
}
