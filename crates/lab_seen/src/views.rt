//! What is seen of a session and of a remote.

ghost use Rattle.std.specs.Prelude.{◌≡◌, IfOk};
ghost use Rattle.far_side.specs.Fars.{part_of_far};
ghost use Rattle.lab_seen.specs.Seen.{session_view, far_view as far_view_lem};

use bgp_session::Session;
use far_side::Far;
use graft_edge::{NoMemory, Octets};
use lab_report::{FarView, SessionView};
use std::alloc::Global;

/// Returns a session's story, and how many routes were heard and told on it.
pub fn view_of(session: Session) -> SessionView
    ensures { result ≡ session_view session.session }
{
    let heard = session.heard().len();
    let told = session.told().len();
    SessionView {
        story: session.into_story(),
        heard,
        told,
    }
}

/// Returns what a remote said and received, and the router that its link points at.
pub fn far_view(alloc: Global, far: &Far) -> Result<FarView, NoMemory>
    ensures { IfOk result (λ view. view ≡ far_view_lem (part_of_far far.now)) }
{
    Ok(FarView {
        said: Octets::from_slice(alloc, far.said())?,
        received: Octets::from_slice(alloc, far.received())?,
        pointer: far.pointer(),
    })
}
