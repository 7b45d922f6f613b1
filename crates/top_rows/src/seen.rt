//! What is seen of a run beside its report.

use bgp_story::Line;
use bgp_types::Message;
use graft_edge::NoMemory;
use lab_report::Lab;
use std::fmt::Write;

fn kind_of(message: &Message) -> &'static str {
    match message {
        Message::OpenMsg(_) => "OPEN",
        Message::UpdateMsg(_) => "UPDATE",
        Message::NoticeMsg(_) => "NOTIFICATION",
        Message::KeepaliveMsg => "KEEPALIVE",
    }
}

/// Appends a line of a story: the message that was put, or the length and the type of the frame that was got.
fn push_line(text: &mut String, line: &Line) -> Result<(), NoMemory> {
    match line {
        Line::Put(message) => write!(text, " | put {}", kind_of(message))?,
        Line::Got(frame) => {
            let kind = frame.get(18).copied().unwrap_or(0);
            write!(text, " | got {} octets of type {kind}", frame.len())?;
        }
        Line::Tick(round) => write!(text, " | round {round}")?,
    }
    Ok(())
}

/// Returns how many prefixes a line of a story announces to the remote, and how many it withdraws.
fn told_by(line: &Line) -> (usize, usize) {
    match line {
        Line::Put(Message::UpdateMsg(update)) => (update.nlri.len(), update.withdrawn.len()),
        _ => (0, 0),
    }
}

/// Appends how many prefixes were announced to all remotes of a run together, and how many were withdrawn.
pub fn push_told(text: &mut String, lab: &Lab) -> Result<(), NoMemory> {
    let mut announced = 0_usize;
    let mut withdrawn = 0_usize;
    for view in &lab.sessions {
        for line in view.story.lines() {
            let told = told_by(line);
            announced = announced.saturating_add(told.0);
            withdrawn = withdrawn.saturating_add(told.1);
        }
    }
    write!(
        text,
        "\nannounced {announced} prefixes to remotes, withdrew {withdrawn}"
    )?;
    Ok(())
}

/// Appends octets in hexadecimal.
pub fn push_octets(text: &mut String, octets: &[u8]) -> Result<(), NoMemory> {
    for octet in octets {
        write!(text, " {octet:02X}")?;
    }
    Ok(())
}

/// Appends the stories of a run, and what each remote received, in hexadecimal.
pub fn push_seen(text: &mut String, lab: &Lab) -> Result<(), NoMemory> {
    for view in &lab.sessions {
        text.push_str("\nstory")?;
        for line in view.story.lines() {
            push_line(text, line)?;
        }
    }
    for far in &lab.far {
        text.push_str("\nreceived:")?;
        push_octets(text, &far.received)?;
    }
    Ok(())
}
