//! The move of a session from one router to another. None of its calls takes memory or can be refused, and each moves
//! one box, whatever the session holds.

ghost use Rattle.std.specs.Prelude.{◌≡◌};
ghost use Rattle.session_value.specs.Sessions.{state};

use crate::session::Session;
use bgp_story::Story;
use bgp_types::SessionState;
use session_value::SessionConfig;
use std::marker::Model;

/// A session that is frozen: it does nothing more at the router that holds it.
#[derive(Drop)]
pub struct FrozenSession {
    session: Session,
}

impl Model for FrozenSession {
    ghost use Rattle.bgp_session.specs.Running.{RunningSession};
    ghost use Rattle.bgp_session.specs.Codes.{coded_running};

    ghost Value = { RunningSession };

    ghost coded = { coded_running };

    ghost view = { λ frozen. frozen.session };
}

/// A session on its way to another router.
#[derive(Drop)]
pub struct Capsule {
    session: Session,
}

impl Model for Capsule {
    ghost use Rattle.bgp_session.specs.Running.{RunningSession};
    ghost use Rattle.bgp_session.specs.Codes.{coded_running};

    ghost Value = { RunningSession };

    ghost coded = { coded_running };

    ghost view = { λ capsule. capsule.session };
}

impl FrozenSession {
    pub(crate) fn of(session: Session) -> FrozenSession
        ensures { result ≡ session }
    {
        FrozenSession { session }
    }

    /// Lets the session leave its router. The session doesn't change.
    pub fn leave(self) -> Capsule
        ensures { result ≡ self }
    {
        let FrozenSession { session } = self;
        Capsule { session }
    }
}

impl Capsule {
    /// Lets the session go on at the router where it landed, or to which it came back. The session doesn't change.
    pub fn land(self) -> Session
        ensures { result ≡ self }
    {
        let Capsule { session } = self;
        session
    }

    /// Returns the state of the session (RFC 4271, section 8.2.2).
    pub fn state(&self) -> SessionState
        ensures { result ≡ state self.now.session }
    {
        self.session.state()
    }

    /// Returns the story of the session.
    pub fn story(&self) -> &Story
        ensures { result.now ≡ record { lines = self.now.session.story; remote_as = self.now.session.config.remote_as } }
    {
        self.session.story()
    }

    /// Returns the configuration with which the session began.
    pub fn config(&self) -> &SessionConfig
        ensures { result.now ≡ self.now.session.config }
    {
        self.session.config()
    }

    /// Returns the session, to look at.
    pub fn session(&self) -> &Session
        ensures { result.now ≡ self.now }
    {
        &self.session
    }
}
