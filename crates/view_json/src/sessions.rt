//! OPENs and NOTIFICATIONs of sessions, as JSON.

ghost use Rattle.std.specs.Prelude.{◌≡◌, [], ◌∷◌, ◌++◌, map, option_copied, slice_get, IfOk, OnOk};
ghost use Rattle.serde_json.specs.View.{view};
ghost use Rattle.timeline_view.specs.Messages.{outlines_of};
ghost use Rattle.view_json.specs.Timeline.{session_json, peering_json, sessions_json, total_json};

use graft_edge::NoMemory;
use lab_report::{Lab, SessionView};
use lab_tables::PeeringInput;
use report_json::{push_value, put_text};
use serde_json::{Map, Value, put};
use std::alloc::Global;
use timeline_view::{
    Happening, Outline, all_further_opens, all_notices, notices_got, notices_put, opens_got,
    opens_put, withdrawn_in,
};

/// The OPENs and NOTIFICATIONs of a session.
fn session_value(alloc: Global, name: &str, session: &SessionView) -> Result<Value, NoMemory>
    ensures { IfOk result (λ v. view v ≡ session_json name.now session.now) }
{
    let got_notices = Value::from(notices_got(session));
    let put_notices = Value::from(notices_put(session));
    let got_opens = Value::from(opens_got(session));
    let put_opens = Value::from(opens_put(session));
    let mut map = Map::new(alloc);
    put_text(&mut map, alloc, "name", name)?;
    put(&mut map, alloc, "notifications_got", got_notices)?;
    put(&mut map, alloc, "notifications_put", put_notices)?;
    put(&mut map, alloc, "opens_got", got_opens)?;
    put(&mut map, alloc, "opens_put", put_opens)?;
    Ok(Value::Object(map))
}

/// The session of this number.
pub(crate) fn session_at(lab: &Lab, index: usize) -> Option<&SessionView>
    ensures { option_copied result ≡ slice_get lab.now.sessions index }
{
    lab.sessions.get(index)
}

/// Adds a session.
fn push_session(
    list: &mut Vec<Value>,
    alloc: Global,
    name: &str,
    session: &SessionView,
) -> Result<(), NoMemory>
    ensures { OnOk result (map view list.new.items ≡ map view list.old.items ++ session_json name.now session.now ∷ []) }
{
    push_value(list, session_value(alloc, name, session)?)?;
    Ok(())
}

/// Adds the session of a peering, if it has one.
fn push_peering(
    list: &mut Vec<Value>,
    alloc: Global,
    lab: &Lab,
    index: usize,
    peering: &PeeringInput,
) -> Result<(), NoMemory>
    ensures { OnOk result (map view list.new.items ≡ map view list.old.items ++ peering_json lab.now.sessions (index, peering.now)) }
{
    match session_at(lab, index) {
        Some(session) => push_session(list, alloc, peering.name.as_str(), session),
        None => Ok(()),
    }
}

/// All sessions, in the order of the peerings.
pub(crate) fn sessions_value(alloc: Global, lab: &Lab) -> Result<Value, NoMemory>
    ensures { IfOk result (λ v. view v ≡ sessions_json lab.now) }
{
    let peerings = lab.input.peerings.as_slice();
    let mut list = Vec::with_capacity(alloc, peerings.len())?;
    for (index, peering) in peerings.iter().enumerate() {
        push_peering(&mut list, alloc, lab, index, peering)?;
    }
    Ok(Value::Array(list))
}

/// The whole run.
pub(crate) fn total_value(
    alloc: Global,
    lab: &Lab,
    outlines: &[Outline],
    all: &[Happening],
) -> Result<Value, NoMemory>
    requires { outlines.now ≡ outlines_of lab.now }
    ensures { IfOk result (λ v. view v ≡ total_json lab.now all.now) }
{
    let opens = all_further_opens(lab.sessions.as_slice())?;
    let notices = all_notices(lab.sessions.as_slice())?;
    let withdrawn = withdrawn_in(lab, outlines, all, lab.log.as_slice())?;
    let withdrawn = Value::from(withdrawn);
    let mut map = Map::new(alloc);
    put(&mut map, alloc, "further_opens", Value::from(opens))?;
    put(&mut map, alloc, "notifications", Value::from(notices))?;
    put(&mut map, alloc, "withdrawn_from_moved", withdrawn)?;
    Ok(Value::Object(map))
}
