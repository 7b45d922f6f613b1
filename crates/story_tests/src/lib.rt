//! Tables over the public calls of the story of a session, of the choice between routes, and of
//! policies, and the stories of hostile remotes.
#![tactic(auto)]

#[cfg(test)]
mod choices;
#[cfg(test)]
mod groups;
mod hostile;
#[cfg(test)]
mod policies;
#[cfg(test)]
mod stories;

pub use hostile::hostile_remotes_are_answered;
