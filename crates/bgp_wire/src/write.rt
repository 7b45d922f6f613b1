//! Writes a message.

ghost use Rattle.std.specs.Prelude.{◌≡◌, ◌+◌, ◌^◌, ◌<◌, ◌++◌, ◌∷◌, length, All, IfOk, OnOk};
ghost use Rattle.std.specs.List.{flat_map};
ghost use Rattle.bgp_types.specs.Spelling.{length_prefixed, cap_octets, param_octets, spell_open};
ghost use Rattle.bgp_types.specs.Spelling.{spell_some_attrs, spell_update, kind_of, spell_body, framed, spell};
ghost use Rattle.bgp_types.specs.Writable.{IsWritableOpen, IsWritableUpdate, IsWritable};
ghost use Rattle.bgp_wire.specs.Written.{FitsSome, FitsUpdate, FitsBody};

use crate::open::{CAPABILITIES, VERSION};
use crate::prefix::prefixes_out;
use attr_codec::write_attrs;
use bgp_types::types::{KEEPALIVE, NOTIFICATION, OPEN, UPDATE};
use bgp_types::{Attrs, Cap, HEADER, Message, NoMemory, Notice, Octets, OpenMsg, Update};
use std::alloc::Global;

/// Sixteen octets of ones.
const MARKER: [u8; 16] = [0xFF; 16];

/// Appends a field behind a length of two octets.
fn put_counted(out: &mut Octets, field: &[u8]) -> Result<(), NoMemory>
    requires { length field.now < 2 ^ 16 }
    ensures { OnOk result (out.new ≡ out.old ++ length_prefixed field.now) }
{
    out.extend(&(field.len() as u16).to_be_bytes())?;
    out.extend(field)
}

/// Appends a capability in a parameter of its own.
fn put_cap(out: &mut Octets, cap: &Cap) -> Result<(), NoMemory>
    requires { length cap.now.bytes + 2 < 256 }
    ensures { OnOk result (out.new ≡ out.old ++ param_octets (cap_octets cap.now)) }
{
    let size = cap.bytes.len() as u8;
    out.extend(&[CAPABILITIES, size + 2, cap.code, size])?;
    out.extend(&cap.bytes)
}

/// Returns the parameters of an OPEN.
fn params_out(alloc: Global, caps: &[Cap]) -> Result<Octets, NoMemory>
    requires { All (λ cap. length cap.bytes + 2 < 256) caps.now }
    ensures { IfOk result (λ octets. octets ≡ flat_map (λ cap. param_octets (cap_octets cap)) caps.now) }
{
    let mut out = Octets::new(alloc);
    for cap in caps {
        put_cap(&mut out, cap)?;
    }
    Ok(out)
}

/// Returns the body of an OPEN.
fn open_out(alloc: Global, opening: &OpenMsg) -> Result<Octets, NoMemory>
    requires { IsWritableOpen opening.now }
    ensures { IfOk result (λ octets. octets ≡ spell_open opening.now) }
{
    let params = params_out(alloc, &opening.caps)?;
    let mut out = Octets::new(alloc);
    out.push(VERSION)?;
    out.extend(&(opening.as_number as u16).to_be_bytes())?;
    out.extend(&opening.hold.to_be_bytes())?;
    out.extend(&opening.identifier.to_be_bytes())?;
    out.push(params.len() as u8)?;
    out.extend(&params)?;
    Ok(out)
}

/// Returns the field of attributes, which is empty if there are none.
fn attrs_out(alloc: Global, attrs: &Option<Attrs>, wide: bool) -> Result<Octets, NoMemory>
    requires { FitsSome attrs.now wide }
    ensures { IfOk result (λ octets. octets ≡ spell_some_attrs wide attrs.now) }
{
    match attrs {
        Some(attrs) => write_attrs(alloc, attrs, wide),
        None => Ok(Octets::new(alloc)),
    }
}

/// Returns the body of an UPDATE.
fn update_out(alloc: Global, update: &Update, wide: bool) -> Result<Octets, NoMemory>
    requires { FitsUpdate update.now wide }
    ensures { IfOk result (λ octets. octets ≡ spell_update wide update.now) }
{
    let withdrawn = prefixes_out(alloc, &update.withdrawn)?;
    let attrs = attrs_out(alloc, &update.attrs, wide)?;
    let nlri = prefixes_out(alloc, &update.nlri)?;
    let mut out = Octets::new(alloc);
    put_counted(&mut out, &withdrawn)?;
    put_counted(&mut out, &attrs)?;
    out.extend(&nlri)?;
    Ok(out)
}

/// Returns the body of a NOTIFICATION.
fn notice_out(alloc: Global, notice: &Notice) -> Result<Octets, NoMemory>
    ensures { IfOk result (λ octets. octets ≡ notice.now.code ∷ notice.now.subcode ∷ notice.now.info) }
{
    let mut out = Octets::new(alloc);
    out.push(notice.code)?;
    out.push(notice.subcode)?;
    out.extend(&notice.info)?;
    Ok(out)
}

/// Returns the body of a message.
fn body_out(alloc: Global, message: &Message, wide: bool) -> Result<Octets, NoMemory>
    requires { FitsBody message.now wide }
    ensures { IfOk result (λ octets. octets ≡ spell_body message.now wide) }
{
    match message {
        Message::OpenMsg(opening) => open_out(alloc, opening),
        Message::UpdateMsg(update) => update_out(alloc, update, wide),
        Message::NoticeMsg(notice) => notice_out(alloc, notice),
        Message::KeepaliveMsg => Ok(Octets::new(alloc)),
    }
}

/// Returns the type of a message.
fn type_of(message: &Message) -> u8
    ensures { result ≡ kind_of message.now }
{
    match message {
        Message::OpenMsg(_) => OPEN,
        Message::UpdateMsg(_) => UPDATE,
        Message::NoticeMsg(_) => NOTIFICATION,
        Message::KeepaliveMsg => KEEPALIVE,
    }
}

/// Returns a frame of this type with this body.
fn frame_of(alloc: Global, kind: u8, body: &[u8]) -> Result<Octets, NoMemory>
    requires { 19 + length body.now < 2 ^ 16 }
    ensures { IfOk result (λ octets. octets ≡ framed kind body.now) }
{
    let mut out = Octets::new(alloc);
    out.extend(&MARKER)?;
    out.extend(&((HEADER + body.len()) as u16).to_be_bytes())?;
    out.push(kind)?;
    out.extend(body)?;
    Ok(out)
}

/// Writes a message in the given width of AS numbers: its one written form, of `message_len` octets,
/// which reads as the same message. The message has to be writable: each field is one that some frame
/// reads as, no prefix occurs twice, the unknown attributes are in ascending order of type, and the
/// written form has at most 4,096 octets. An OPEN isn't writable either if its parameters have more
/// than 255 octets as they are written: each capability is written in a parameter of its own, so an
/// OPEN that was read from fewer parameters may be too long.
#[tactic(auto, unfolding(bgp_types::specs::Spelling::spell))]
pub fn write_message(alloc: Global, message: &Message, wide: bool) -> Result<Octets, NoMemory>
    requires { IsWritable message.now wide }
    ensures { IfOk result (λ octets. octets ≡ spell message.now wide) }
{
    let body = body_out(alloc, message, wide)?;
    frame_of(alloc, type_of(message), &body)
}
