//! BGP messages (RFC 4271, section 4).

use crate::attrs::Attrs;
use crate::prefix::PrefixList;
use graft_edge::{Items, NoMemory, Octets, TryCopy};

/// A capability of an OPEN (RFC 5492).
#[derive(Debug, Drop, PartialEq, Eq)]
pub struct Cap {
    pub code: u8,
    pub bytes: Octets,
}

/// The capabilities of an OPEN, in order.
pub type Caps = Items<Cap>;

/// An OPEN. `as_number` is its field of two octets.
#[derive(Debug, Drop, PartialEq, Eq)]
pub struct OpenMsg {
    pub as_number: u32,
    pub hold: u16,
    pub identifier: u32,
    pub caps: Caps,
}

/// An UPDATE. It has attributes if and only if it announces prefixes.
#[derive(Debug, Drop, PartialEq, Eq)]
pub struct Update {
    pub withdrawn: PrefixList,
    pub attrs: Option<Attrs>,
    pub nlri: PrefixList,
}

/// The error code, subcode and data of a NOTIFICATION.
#[derive(Debug, Drop, PartialEq, Eq)]
pub struct Notice {
    pub code: u8,
    pub subcode: u8,
    pub info: Octets,
}

/// A message. A KEEPALIVE is a header only.
#[derive(Debug, Drop, PartialEq, Eq)]
pub enum Message {
    OpenMsg(OpenMsg),
    UpdateMsg(Update),
    NoticeMsg(Notice),
    KeepaliveMsg,
}

/// The state of a session (RFC 4271, section 8.2.2), from the moment its OPEN is put.
#[derive(Clone, Copy, Debug, PartialEq, Eq, Hash)]
pub enum SessionState {
    OpenSent,
    OpenConfirm,
    Established,
    Closed,
}

impl TryCopy for Cap {
    fn copy(&self) -> Result<Cap, NoMemory> {
        Ok(Cap {
            code: self.code,
            bytes: self.bytes.copy()?,
        })
    }
}

impl TryCopy for OpenMsg {
    fn copy(&self) -> Result<OpenMsg, NoMemory> {
        Ok(OpenMsg {
            as_number: self.as_number,
            hold: self.hold,
            identifier: self.identifier,
            caps: self.caps.copy()?,
        })
    }
}

impl TryCopy for Update {
    fn copy(&self) -> Result<Update, NoMemory> {
        let attrs = match &self.attrs {
            Some(attrs) => Some(attrs.copy()?),
            None => None,
        };
        Ok(Update {
            withdrawn: self.withdrawn.copy()?,
            attrs,
            nlri: self.nlri.copy()?,
        })
    }
}

impl TryCopy for Notice {
    fn copy(&self) -> Result<Notice, NoMemory> {
        Ok(Notice {
            code: self.code,
            subcode: self.subcode,
            info: self.info.copy()?,
        })
    }
}

impl TryCopy for Message {
    fn copy(&self) -> Result<Message, NoMemory> {
        match self {
            Message::OpenMsg(open) => Ok(Message::OpenMsg(open.copy()?)),
            Message::UpdateMsg(update) => Ok(Message::UpdateMsg(update.copy()?)),
            Message::NoticeMsg(notice) => Ok(Message::NoticeMsg(notice.copy()?)),
            Message::KeepaliveMsg => Ok(Message::KeepaliveMsg),
        }
    }
}
