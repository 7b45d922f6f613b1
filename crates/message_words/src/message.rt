//! A message in words, and octets as a session reads them.

ghost use Rattle.std.specs.Prelude.{◌≡◌, ◌++◌, OnOk, string_bytes};
ghost use Rattle.std.specs.List.{flat_map};
ghost use Rattle.bgp_story.specs.Legal.{IsGot};
ghost use Rattle.message_words.specs.Messages.{cap_words, as4_words, open_words, notification_words, message_words};
ghost use Rattle.message_words.specs.Messages.{kind_name, type_words, in_full, fault_words, faulty_words, read_words};

use crate::notice::{push_hex, push_notice};
use crate::reading::read_got;
use crate::update::push_update;
use bgp_types::types::{NOTIFICATION, OPEN, UPDATE};
use bgp_types::{Address, Cap, Expected, Message, NoMemory, Notice, OpenMsg, header_fault};
use bgp_wire::{CodecFault, as_said};
use std::alloc::Global;
use std::fmt::Write;

/// Adds the codes of capabilities.
fn push_caps(text: &mut String, caps: &[Cap]) -> Result<(), NoMemory>
    ensures { OnOk result (string_bytes text.new ≡ string_bytes text.old ++ flat_map cap_words caps.now) }
{
    for cap in caps {
        let code = cap.code;
        write!(text, " capability {code}")?;
    }
    Ok(())
}

/// Adds the AS that the capability of four-octet AS numbers gives, if there is one.
fn push_as4(text: &mut String, said: Option<u32>) -> Result<(), NoMemory>
    ensures { OnOk result (string_bytes text.new ≡ string_bytes text.old ++ as4_words said) }
{
    if let Some(as_number) = said {
        write!(text, " as4 {as_number}")?;
    }
    Ok(())
}

/// Adds an OPEN.
fn push_open(text: &mut String, first: &OpenMsg) -> Result<(), NoMemory>
    ensures { OnOk result (string_bytes text.new ≡ string_bytes text.old ++ open_words first.now) }
{
    let as_number = first.as_number;
    let hold = first.hold;
    let identifier = Address(first.identifier);
    write!(text, "OPEN as {as_number} hold {hold} id {identifier}")?;
    push_caps(text, &first.caps)?;
    push_as4(text, as_said(&first.caps))
}

/// Adds a NOTIFICATION.
fn push_notification(text: &mut String, alloc: Global, notice: &Notice) -> Result<(), NoMemory>
    ensures { OnOk result (string_bytes text.new ≡ string_bytes text.old ++ notification_words notice.now) }
{
    text.push_str("NOTIFICATION ")?;
    push_notice(text, alloc, notice)
}

/// Adds a message: of an OPEN the AS in two octets, the hold time, the identifier, the codes of its capabilities and the AS in four octets, where it has one;
/// of an UPDATE its prefixes and their path, and in full all other attributes; of a NOTIFICATION its code, subcode and data.
pub fn push_message(
    text: &mut String,
    alloc: Global,
    full: bool,
    message: &Message,
) -> Result<(), NoMemory>
    ensures { OnOk result (string_bytes text.new ≡ string_bytes text.old ++ message_words full message.now) }
{
    match message {
        Message::OpenMsg(first) => push_open(text, first),
        Message::UpdateMsg(update) => push_update(text, alloc, full, update),
        Message::NoticeMsg(notice) => push_notification(text, alloc, notice),
        Message::KeepaliveMsg => {
            text.push_str("KEEPALIVE")?;
            Ok(())
        }
    }
}

fn kind_name(kind: u8) -> &'static str
    ensures { result.now ≡ kind_name kind }
{
    match kind {
        OPEN => "OPEN",
        UPDATE => "UPDATE",
        NOTIFICATION => "NOTIFICATION",
        _ => "KEEPALIVE",
    }
}

/// Returns the type of message that octets begin as.
#[tactic(auto, using(crate::proofs::Frames::got_header))]
pub fn type_name(bytes: &[u8]) -> &'static str
    requires { IsGot bytes.now }
    ensures { result.now ≡ type_words bytes.now }
{
    if header_fault(bytes).is_some() {
        return "header";
    }
    kind_name(bytes[18])
}

/// Adds a fault.
fn push_fault(text: &mut String, alloc: Global, notice: &Notice) -> Result<(), NoMemory>
    ensures { OnOk result (string_bytes text.new ≡ string_bytes text.old ++ fault_words notice.now) }
{
    text.push_str(" with fault ")?;
    push_notice(text, alloc, notice)
}

/// Adds octets if a message is wanted in full.
fn push_in_full(text: &mut String, alloc: Global, full: bool, bytes: &[u8]) -> Result<(), NoMemory>
    ensures { OnOk result (string_bytes text.new ≡ string_bytes text.old ++ in_full full bytes.now) }
{
    if full {
        text.push_str(" octets ")?;
        push_hex(text, alloc, bytes)?;
    }
    Ok(())
}

/// Adds octets in which a fault was found.
fn push_faulty(
    text: &mut String,
    alloc: Global,
    full: bool,
    bytes: &[u8],
    notice: &Notice,
) -> Result<(), NoMemory>
    requires { IsGot bytes.now }
    ensures { OnOk result (string_bytes text.new ≡ string_bytes text.old ++ faulty_words full bytes.now notice.now) }
{
    text.push_str(type_name(bytes))?;
    push_fault(text, alloc, notice)?;
    push_in_full(text, alloc, full, bytes)?;
    Ok(())
}

/// Adds what a session that expects this reads in octets that it got at once: the message; or if it finds a fault, the type of message that they
/// begin as, the fault, and in full the octets.
#[tactic(auto, using(crate::proofs::Frames::faulty_read))]
pub fn push_read(
    text: &mut String,
    alloc: Global,
    full: bool,
    expected: &Expected,
    bytes: &[u8],
) -> Result<(), NoMemory>
    requires { IsGot bytes.now }
    ensures { OnOk result (string_bytes text.new ≡ string_bytes text.old ++ read_words full expected.now bytes.now) }
{
    match read_got(alloc, expected, bytes) {
        Ok(message) => push_message(text, alloc, full, &message),
        Err(CodecFault::Wire(notice)) => push_faulty(text, alloc, full, bytes, &notice),
        Err(CodecFault::NoMemory) => Err(NoMemory),
    }
}
