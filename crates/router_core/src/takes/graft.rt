//! Items of grafts: sessions that move here or come back, the question of their target and its answer, and word that
//! one landed.

ghost use Rattle.std.specs.Prelude.{◌≡◌, ◌<◌, ◌^◌, ◌∷◌, [], None, Some, true, is_some, length, count_by, IfOk, OnOk, MatchBool};
ghost use Rattle.ring_net.specs.Posts.{SameEdges};
ghost use Rattle.graft_steps.specs.declared.item.Item.TheVariants as items;
ghost use Rattle.graft_steps.specs.Refusals.{admit_refusal};
ghost use Rattle.graft_model.specs.declared.event.RouterEvent.TheVariants.{TurnBack};
ghost use Rattle.graft_actors.specs.Items.{IsOnItsWay};
ghost use Rattle.router_tables.specs.Entering.{missing_by};
ghost use Rattle.router_core.specs.Places.{place_at};
ghost use Rattle.router_core.specs.declared.place.Errand.TheVariants.{Owing};
ghost use Rattle.router_core.specs.Parts.{RouterInvariant};
ghost use Rattle.router_core.specs.Reading.{MakesLive, SettlesIn};
ghost use Rattle.router_core.specs.Rounds.{WritesEvent};
ghost use Rattle.router_core.specs.Takes.{RouterTakesIt};

use crate::fields::Fields;
use crate::place::{Errand, Place, hear_answer, is_away, is_vacant};
use crate::takes::reads::read_all;
use bgp_session::{Capsule, Session};
use bgp_types::{From, SessionState};
use graft_actors::{note_dropped, note_router, note_router_sent};
use graft_edge::{NoMemory, PeeringId, RouterId};
use graft_model::RouterEvent;
use graft_steps::{Item, Landed, Outcome, Refusal, admit};
use ring_net::Post;
use router_tables::{due_again, enter, missing_policy};
use session_value::SessionConfig;

/// Returns whether the session in a capsule is of a known peering, is established, and has the initial sequence numbers
/// of the peering.
fn is_on_its_way(router: &Fields, capsule: &Capsule) -> bool
    requires keeps { RouterInvariant router.now }
    requires there { capsule.now.session.config.peering.0 < length router.now.places.places }
    ensures { MatchBool result (IsOnItsWay router.now.known.setup capsule.now.session) (¬ IsOnItsWay router.now.known.setup capsule.now.session) }
{
    let config = capsule.config();
    let Some(firsts) = router.firsts.get(usize::from(config.peering.0)) else {
        return false;
    };
    if capsule.story().state() != SessionState::Established {
        return false;
    }
    if config.send_first.0 != firsts.home.0 {
        return false;
    }
    config.receive_first.0 == firsts.remote.0
}

/// Returns why the router refuses a session, if it does.
fn admission(router: &Fields, config: &SessionConfig) -> Result<Option<Refusal>, NoMemory>
    requires { router.now.places.room ≡ router.now.room }
    ensures { IfOk result (λ refusal. refusal ≡ admit_refusal (count_by is_some router.now.places.places) router.now.room
        (missing_by router.now.policies config.now)) }
{
    let missing = missing_policy(&router.policies, config)?;
    let room = router.room;
    let held = router.places.taken() as u32;
    Ok(admit(held, room, missing).err())
}

/// Sends a session back to the router that it came from.
fn turn_back(
    post: &mut Post<Item<Capsule>>,
    from: usize,
    graft: u32,
    capsule: Capsule,
    refusal: Refusal,
) -> Result<(), NoMemory>
    requires { from < 2 ^ 32 }
    ensures ok { OnOk result (WritesEvent post.old (TurnBack from) ((from, items.Back graft capsule refusal) ∷ []) post.new) }
    ensures edges { SameEdges post.old post.new }
{
    let source = from as u32;
    let back = Item::Back {
        graft,
        capsule,
        refusal,
    };
    note_router_sent(post, RouterEvent::TurnBack { router: source }, from, back)
}

/// Makes a session that landed live at a vacant place. Routers are to be asked, and then its source is to be told. What
/// was told on it and what is best is due. It uses the room that was reserved for it.
fn make_live(
    router: &mut Fields,
    place: usize,
    session: Session,
    landed: Landed,
) -> Result<(), NoMemory>
    requires place { place < length router.old.places.places }
    requires vacant { place_at router.old.places.places place ≡ None }
    requires room { count_by is_some router.old.places.places < router.old.places.room }
    requires sets { place < length router.old.due_out }
    ensures { OnOk result (MakesLive router.old place session (Some (Owing landed)) router.new) }
{
    let due = due_again(router.alloc, &router.rib, &session)?;
    router.due_out.put(place, due);
    let errand = Some(Errand::Owing(landed));
    router.places.put(place, Place::Live { session, errand });
    Ok(())
}

/// Makes a session that had left live at its place again. What was told on it and what is best is due.
fn live_again(router: &mut Fields, place: usize, session: Session) -> Result<(), NoMemory>
    requires there { is_some (place_at router.old.places.places place) ≡ true }
    requires sets { place < length router.old.due_out }
    ensures { OnOk result (MakesLive router.old place session None router.new) }
{
    let all = due_again(router.alloc, &router.rib, &session)?;
    router.due_out.put(place, all);
    if let Some(held) = router.places.get_mut(place) {
        held.set_live(session);
    }
    Ok(())
}

/// Takes in the routes of a session that lands, and makes it live. Routers are to be asked, and then its source is to
/// be told.
fn settle_in(router: &mut Fields, session: Session, landed: Landed) -> Result<(), NoMemory>
    requires place { session.session.config.peering.0 < length router.old.places.places }
    requires vacant { place_at router.old.places.places session.session.config.peering.0 ≡ None }
    requires room { count_by is_some router.old.places.places < router.old.places.room }
    requires sets { session.session.config.peering.0 < length router.old.due_out }
    ensures { OnOk result (SettlesIn router.old session landed router.new) }
{
    let place = usize::from(session.config().peering.0);
    let prefixes = session.heard().prefixes()?;
    enter(
        &mut router.rib,
        router.home_as,
        &router.policies,
        &session,
        prefixes.as_slice(),
    )?;
    make_live(router, place, session, landed)
}

/// Takes a session that moves here: it lands, and reads all that it can, or is sent back. It is dropped if it isn't
/// from a router, its place is taken, it isn't established, or it doesn't have the initial sequence numbers of its
/// peering.
pub(crate) fn take_moved(
    router: &mut Fields,
    from: usize,
    graft: u32,
    capsule: Capsule,
    post: &mut Post<Item<Capsule>>,
) -> Result<(), NoMemory>
    requires { RouterInvariant router.old }
    ensures edges { SameEdges post.old post.new }
    ensures took { OnOk result (RouterTakesIt from (items.Moved graft capsule) router.old post.old router.new post.new) }
{
    let peering = capsule.config().peering;
    let place = usize::from(peering.0);
    if from >= router.routers as usize {
        return note_dropped(post);
    }
    if place >= router.places.len() {
        return note_dropped(post);
    }
    if !is_vacant(&router.places, place) {
        return note_dropped(post);
    }
    if !is_on_its_way(router, &capsule) {
        return note_dropped(post);
    }
    if let Some(refusal) = admission(router, capsule.config())? {
        return turn_back(post, from, graft, capsule, refusal);
    }
    let far = router.routers as usize + place;
    let source = from as u32;
    let point = Item::PointAt { graft };
    note_router_sent(post, RouterEvent::Land { router: source }, far, point)?;
    let landed = Landed::new(graft, peering, RouterId(from as u8), router.number);
    settle_in(router, capsule.land(), landed)?;
    read_all(router, peering, post)
}

/// Takes a session that comes back refused, and reports it. It is dropped if there is no shadow of that graft, it isn't
/// established, or it doesn't have the initial sequence numbers of its peering.
pub(crate) fn take_back(
    router: &mut Fields,
    from: usize,
    graft: u32,
    capsule: Capsule,
    refusal: Refusal,
    post: &mut Post<Item<Capsule>>,
) -> Result<(), NoMemory>
    requires { RouterInvariant router.old }
    ensures edges { SameEdges post.old post.new }
    ensures took { OnOk result (RouterTakesIt from (items.Back graft capsule refusal) router.old post.old router.new post.new) }
{
    let peering = capsule.config().peering;
    let place = usize::from(peering.0);
    if from >= router.routers as usize {
        return note_dropped(post);
    }
    if place >= router.places.len() {
        return note_dropped(post);
    }
    if !is_away(&router.places, place, graft) {
        return note_dropped(post);
    }
    if !is_on_its_way(router, &capsule) {
        return note_dropped(post);
    }
    let operator = router.routers as usize + router.places.len();
    let report = Item::Report {
        graft,
        outcome: Outcome::Refused(refusal),
    };
    let target = from as u32;
    note_router_sent(
        post,
        RouterEvent::Return { router: target },
        operator,
        report,
    )?;
    live_again(router, place, capsule.land())?;
    read_all(router, peering, post)
}

/// Answers a router that asks whether all that it told was heard. Everything that came before the question was heard.
/// The question is dropped if it isn't from a router.
pub(crate) fn take_asked(
    router: &mut Fields,
    from: usize,
    graft: u32,
    peering: PeeringId,
    post: &mut Post<Item<Capsule>>,
) -> Result<(), NoMemory>
    requires { RouterInvariant router.old }
    ensures edges { SameEdges post.old post.new }
    ensures took { OnOk result (RouterTakesIt from (items.Asked graft peering) router.old post.old router.new post.new) }
{
    if from >= router.routers as usize {
        return note_dropped(post);
    }
    let asker = from as u32;
    let answered = Item::Answered { graft, peering };
    note_router_sent(post, RouterEvent::Answer { router: asker }, from, answered)
}

/// Takes the answer of a router that was asked. If the session of the peering waits for it in this graft, the next
/// router may be asked. The answer is dropped if it isn't from a router.
pub(crate) fn take_answered(
    router: &mut Fields,
    from: usize,
    graft: u32,
    peering: PeeringId,
    post: &mut Post<Item<Capsule>>,
) -> Result<(), NoMemory>
    requires { RouterInvariant router.old }
    ensures edges { SameEdges post.old post.new }
    ensures took { OnOk result (RouterTakesIt from (items.Answered graft peering) router.old post.old router.new post.new) }
{
    if from >= router.routers as usize {
        return note_dropped(post);
    }
    let answering = from as u32;
    note_router(post, RouterEvent::Collect { router: answering })?;
    let place = usize::from(peering.0);
    hear_answer(&mut router.places, place, graft, answering);
    Ok(())
}

/// Takes word that a session landed, and removes its shadow and its routes. The word is dropped if there is no shadow
/// of that graft.
pub(crate) fn take_done(
    router: &mut Fields,
    from: usize,
    graft: u32,
    peering: PeeringId,
    post: &mut Post<Item<Capsule>>,
) -> Result<(), NoMemory>
    requires { RouterInvariant router.old }
    ensures edges { SameEdges post.old post.new }
    ensures took { OnOk result (RouterTakesIt from (items.Done graft peering) router.old post.old router.new post.new) }
{
    let place = usize::from(peering.0);
    if from >= router.routers as usize {
        return note_dropped(post);
    }
    if place >= router.places.len() {
        return note_dropped(post);
    }
    if !is_away(&router.places, place, graft) {
        return note_dropped(post);
    }
    let operator = router.routers as usize + router.places.len();
    let report = Item::Report {
        graft,
        outcome: Outcome::Accepted,
    };
    let target = from as u32;
    note_router_sent(
        post,
        RouterEvent::Clear { router: target },
        operator,
        report,
    )?;
    router.rib.drop_from(From::Peering(peering))?;
    router.places.remove(place);
    Ok(())
}
