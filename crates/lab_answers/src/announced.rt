//! The routes that the messages of a session's remote announce.

ghost use Rattle.std.specs.Prelude.{◌≡◌, [], Some, Ok, IfOk, OnOk};
ghost use Rattle.std.specs.List.{cons_option, filter_map};
ghost use Rattle.bgp_types.specs.Header.{frame_at};
ghost use Rattle.bgp_types.specs.Many.{many};
ghost use Rattle.bgp_story.specs.Readings.{update_in as update_in_lem};
ghost use Rattle.lab_answers.specs.Imports.{IsFront, meds_of_updates, update_in_frame};
ghost use Rattle.lab_answers.specs.Noted.{NotesMeds};

use crate::imports::Imports;
use crate::meds::Meds;
use bgp_frame::first_frame;
use bgp_types::{Expected, Message, NoMemory, Update};
use bgp_wire::{CodecFault, read_message};
use std::alloc::Global;

/// The length of the message at the front, where a whole one with a sound header stands there.
fn front_len(bytes: &[u8]) -> Option<usize>
    ensures { IsFront result bytes.now }
{
    match first_frame(bytes) {
        Ok(Some(front)) => Some(front.len),
        Ok(None) => None,
        Err(_) => None,
    }
}

/// The UPDATE in a message, if it has one.
fn update_in(message: Message) -> Option<Update>
    ensures { result ≡ update_in_lem (Ok message) }
{
    match message {
        Message::UpdateMsg(update) => Some(update),
        _ => None,
    }
}

/// The UPDATE that a whole frame with a sound header is read as, if it is one without a fault.
fn read_update(alloc: Global, frame: &[u8], expected: &Expected) -> Result<Option<Update>, NoMemory>
    requires { frame_at frame.now ≡ Some (frame.now, []) }
    ensures { IfOk result (λ update. update ≡ update_in_frame expected.now frame.now) }
{
    match read_message(alloc, frame, expected) {
        Ok(message) => Ok(update_in(message)),
        Err(CodecFault::Wire(_)) => Ok(None),
        Err(CodecFault::NoMemory) => Err(NoMemory),
    }
}

impl Imports {
    /// Notes the routes that an UPDATE announces, if there is one.
    fn note_if_update(&self, meds: &mut Meds, update: &Option<Update>) -> Result<(), NoMemory>
        ensures { OnOk result (NotesMeds (meds_of_updates self.now (cons_option update.now [])) meds.old meds.new) }
    {
        match update {
            Some(update) => self.note_update(meds, update),
            None => Ok(()),
        }
    }

    /// Notes the routes that UPDATEs in bytes announce, up to a faulty header.
    pub fn note_said(
        &self,
        alloc: Global,
        meds: &mut Meds,
        said: &[u8],
        expected: &Expected,
    ) -> Result<(), NoMemory>
        ensures { OnOk result (NotesMeds (meds_of_updates self.now (filter_map (update_in_frame expected.now) (many frame_at said.now).0)) meds.old meds.new) }
    {
        let mut left = said;
        while let Some(len) = front_len(left) {
            let (frame, behind) = left.split_at(len);
            let update = read_update(alloc, frame, expected)?;
            self.note_if_update(meds, &update)?;
            left = behind;
        }
        Ok(())
    }
}
