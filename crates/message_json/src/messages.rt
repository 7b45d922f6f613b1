//! Messages as JSON, and octets as a session reads them.

ghost use Rattle.std.specs.Prelude.{◌≡◌, map, IfOk, OnOk};
ghost use Rattle.hex.specs.Hex.{encode_lower};
ghost use Rattle.serde_json.specs.Data.{string};
ghost use Rattle.serde_json.specs.View.{view};
ghost use Rattle.bgp_story.specs.Legal.{IsGot};
ghost use Rattle.report_json.specs.Tokens.{with_value};
ghost use Rattle.report_json.specs.Values.{count, list_of};
ghost use Rattle.message_json.specs.Messages.{prefixes_json, open_json, some_path_json, update_json, notice_json, message_json, faulty_json, read_json};
ghost use Rattle.message_json.specs.Messages.{notification_json, keepalive_json};

use bgp_types::{Attrs, Cap, Expected, Message, NoMemory, Notice, OpenMsg, Prefix, Update};
use bgp_wire::{CodecFault, as_said};
use message_words::{communication, fault_name, read_got, type_name};
use report_json::{
    JsonText, address_value, count_or_null, path_value, prefix_value, push_value, put_text,
    text_or_null, write_text_or_null,
};
use serde_json::{Map, Value, put};
use std::alloc::Global;

/// Returns prefixes.
pub fn prefixes_value(alloc: Global, prefixes: &[Prefix]) -> Result<Value, NoMemory>
    ensures { IfOk result (λ v. view v ≡ prefixes_json prefixes.now) }
{
    let mut list = Vec::with_capacity(alloc, prefixes.len())?;
    for prefix in prefixes {
        push_value(&mut list, prefix_value(alloc, *prefix)?)?;
    }
    Ok(Value::Array(list))
}

/// The codes of capabilities.
fn codes_value(alloc: Global, caps: &[Cap]) -> Result<Value, NoMemory>
    ensures { IfOk result (λ v. view v ≡ list_of (map (λ c. count c.code) caps.now)) }
{
    let mut list = Vec::with_capacity(alloc, caps.len())?;
    for cap in caps {
        push_value(&mut list, Value::from(cap.code))?;
    }
    Ok(Value::Array(list))
}

/// An OPEN.
fn open_value(alloc: Global, first: &OpenMsg) -> Result<Value, NoMemory>
    ensures { IfOk result (λ v. view v ≡ open_json first.now) }
{
    let id = address_value(alloc, first.identifier)?;
    let capabilities = codes_value(alloc, &first.caps)?;
    let as4 = count_or_null(as_said(&first.caps));
    let mut map = Map::new(alloc);
    put(&mut map, alloc, "as", Value::from(first.as_number))?;
    put(&mut map, alloc, "as4", as4)?;
    put(&mut map, alloc, "capabilities", capabilities)?;
    put(&mut map, alloc, "hold", Value::from(first.hold))?;
    put(&mut map, alloc, "id", id)?;
    put_text(&mut map, alloc, "type", "OPEN")?;
    Ok(Value::Object(map))
}

/// The path of an UPDATE that announces, or null.
fn some_path(alloc: Global, attrs: &Option<Attrs>) -> Result<Value, NoMemory>
    ensures { IfOk result (λ v. view v ≡ some_path_json attrs.now) }
{
    match attrs {
        Some(attrs) => path_value(alloc, &attrs.path),
        None => Ok(Value::Null),
    }
}

/// An UPDATE.
fn update_value(alloc: Global, update: &Update) -> Result<Value, NoMemory>
    ensures { IfOk result (λ v. view v ≡ update_json update.now) }
{
    let withdraw = prefixes_value(alloc, &update.withdrawn)?;
    let announce = prefixes_value(alloc, &update.nlri)?;
    let path = some_path(alloc, &update.attrs)?;
    let mut map = Map::new(alloc);
    put(&mut map, alloc, "announce", announce)?;
    put(&mut map, alloc, "path", path)?;
    put_text(&mut map, alloc, "type", "UPDATE")?;
    put(&mut map, alloc, "withdraw", withdraw)?;
    Ok(Value::Object(map))
}

/// Octets in hexadecimal.
fn octets_value(alloc: Global, octets: &[u8]) -> Result<Value, NoMemory>
    ensures { IfOk result (λ v. view v ≡ string (encode_lower octets.now)) }
{
    Ok(Value::from(hex::encode(alloc, octets)?))
}

/// Adds octets in hexadecimal to a text.
pub(crate) fn write_octets(out: &mut JsonText, alloc: Global, octets: &[u8]) -> Result<(), NoMemory>
    ensures { OnOk result (out.new ≡ with_value (string (encode_lower octets.now)) out.old) }
{
    let text = hex::encode(alloc, octets)?;
    out.text(text.as_str())
}

/// Adds what a NOTIFICATION tells to a text.
pub fn write_notice(out: &mut JsonText, alloc: Global, notice: &Notice) -> Result<(), NoMemory>
    ensures { OnOk result (out.new ≡ with_value (notice_json notice.now) out.old) }
{
    out.begin_object()?;
    out.name("code")?;
    out.number(u64::from(notice.code))?;
    out.name("data")?;
    write_octets(out, alloc, &notice.info)?;
    out.name("name")?;
    write_text_or_null(out, fault_name(notice.code, notice.subcode))?;
    out.name("subcode")?;
    out.number(u64::from(notice.subcode))?;
    out.name("text")?;
    write_text_or_null(out, communication(notice))?;
    out.end_object()
}

/// What a NOTIFICATION tells.
fn notice_value(alloc: Global, notice: &Notice) -> Result<Value, NoMemory>
    ensures { IfOk result (λ v. view v ≡ notice_json notice.now) }
{
    let name = text_or_null(alloc, fault_name(notice.code, notice.subcode))?;
    let data = octets_value(alloc, &notice.info)?;
    let text = text_or_null(alloc, communication(notice))?;
    let mut map = Map::new(alloc);
    put(&mut map, alloc, "code", Value::from(notice.code))?;
    put(&mut map, alloc, "data", data)?;
    put(&mut map, alloc, "name", name)?;
    put(&mut map, alloc, "subcode", Value::from(notice.subcode))?;
    put(&mut map, alloc, "text", text)?;
    Ok(Value::Object(map))
}

fn notification_value(alloc: Global, notice: &Notice) -> Result<Value, NoMemory>
    ensures { IfOk result (λ v. view v ≡ notification_json notice.now) }
{
    let notice = notice_value(alloc, notice)?;
    let mut map = Map::new(alloc);
    put(&mut map, alloc, "notice", notice)?;
    put_text(&mut map, alloc, "type", "NOTIFICATION")?;
    Ok(Value::Object(map))
}

fn keepalive_value(alloc: Global) -> Result<Value, NoMemory>
    ensures { IfOk result (λ v. view v ≡ keepalive_json) }
{
    let mut map = Map::new(alloc);
    put_text(&mut map, alloc, "type", "KEEPALIVE")?;
    Ok(Value::Object(map))
}

/// Returns a message.
pub fn message_value(alloc: Global, message: &Message) -> Result<Value, NoMemory>
    ensures { IfOk result (λ v. view v ≡ message_json message.now) }
{
    match message {
        Message::OpenMsg(first) => open_value(alloc, first),
        Message::UpdateMsg(update) => update_value(alloc, update),
        Message::NoticeMsg(notice) => notification_value(alloc, notice),
        Message::KeepaliveMsg => keepalive_value(alloc),
    }
}

/// Octets in which a fault was found.
fn faulty_value(alloc: Global, bytes: &[u8], notice: &Notice) -> Result<Value, NoMemory>
    requires { IsGot bytes.now }
    ensures { IfOk result (λ v. view v ≡ faulty_json bytes.now notice.now) }
{
    let fault = notice_value(alloc, notice)?;
    let mut map = Map::new(alloc);
    put(&mut map, alloc, "fault", fault)?;
    put_text(&mut map, alloc, "type", type_name(bytes))?;
    Ok(Value::Object(map))
}

/// Returns what a session that expects this reads in octets that it got at once.
pub fn read_value(alloc: Global, expected: &Expected, bytes: &[u8]) -> Result<Value, NoMemory>
    requires { IsGot bytes.now }
    ensures { IfOk result (λ v. view v ≡ read_json expected.now bytes.now) }
{
    match read_got(alloc, expected, bytes) {
        Ok(message) => message_value(alloc, &message),
        Err(CodecFault::Wire(notice)) => faulty_value(alloc, bytes, &notice),
        Err(CodecFault::NoMemory) => Err(NoMemory),
    }
}
