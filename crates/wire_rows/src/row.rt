//! A row of the input: `STATE WIDTH AS FRAME ANSWER ; WHAT IT SHOWS`.

use anyhow::{Context, Result};
use bgp_types::{Expected, SessionState};
use row_harness::{number, word};
use std::alloc::Global;

/// Whether the home side offered four-octet AS numbers, and whether the session has them.
#[derive(Clone, Copy, Debug, PartialEq, Eq)]
pub enum Width {
    Narrow,
    Offered,
    Wide,
}

/// A session, the octets that it gets, and its expected answer in each of these widths.
#[derive(Debug, Drop)]
pub struct Row<'a> {
    state: SessionState,
    pub widths: &'static [Width],
    remote_as: u32,
    pub octets: Vec<u8>,
    answer: &'a [&'a str],
}

impl<'a> Row<'a> {
    /// Returns what the session expects in a width.
    pub fn expected(&self, width: Width) -> Expected {
        Expected {
            state: self.state,
            remote_as: self.remote_as,
            offered: width != Width::Narrow,
            wide: width == Width::Wide,
        }
    }

    /// Returns whether an answer is the one that the row expects. If the row says only `reads`, any message will do.
    pub fn takes(&self, answer: &str) -> bool {
        let mut words = answer.split(' ');
        if self.answer == ["reads"].as_slice() {
            return words.next() == Some("reads");
        }
        words.eq(self.answer.iter().copied())
    }
}

fn state_of(word: &str) -> Option<SessionState> {
    match word {
        "open-sent" => Some(SessionState::OpenSent),
        "open-confirm" => Some(SessionState::OpenConfirm),
        "established" => Some(SessionState::Established),
        "closed" => Some(SessionState::Closed),
        _ => None,
    }
}

fn widths_of(word: &str) -> Option<&'static [Width]> {
    match word {
        "narrow" => Some(&[Width::Narrow]),
        "offered" => Some(&[Width::Offered]),
        "wide" => Some(&[Width::Wide]),
        "both" => Some(&[Width::Narrow, Width::Wide]),
        _ => None,
    }
}

/// Returns the row of these words.
pub fn row_of<'a>(alloc: Global, words: &'a [&'a str]) -> Result<Row<'a>> {
    Ok(Row {
        state: state_of(word(words, 0)).context("a state")?,
        widths: widths_of(word(words, 1)).context("a width")?,
        remote_as: number(words, 2)?,
        octets: hex::decode(alloc, word(words, 3))?,
        answer: words.get(4..).context("an answer")?,
    })
}
