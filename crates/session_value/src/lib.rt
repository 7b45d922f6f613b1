//! A home BGP session as one value: its configuration, its story, its two Adj-RIBs and its endpoint,
//! and the cases in which it changes (RFC 4271, sections 3.2, 6 and 8.2.2; RFC 9293, section 3.4). The
//! running session and the model of the world are both described by it.
#![tactic(auto)]

mod config;
mod laws;

pub use config::SessionConfig;
pub use laws::{
    a_begun_session_is_of_its_story, answers_have_room, own_messages_are_short,
    sessions_stay_of_their_story, sessions_stay_tied, ties_say_what_was_received,
};
