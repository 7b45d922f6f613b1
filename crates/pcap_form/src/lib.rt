//! Files of captured packets: pcap and pcapng are read, and pcap is written.
#![tactic(auto)]

mod blocks;
mod laws;
mod link;
mod order;
mod packet;
mod pcap;
mod read;
mod stop;
mod write;

pub use laws::{a_file_is_read_in_one_way, captures_worked_by_hand, what_is_written_reads_back};
pub use link::LinkType;
pub use order::{ByteOrder, half_at, word_at};
pub use packet::{CapturedPacket, Packet, Packets};
pub use read::read_capture;
pub use stop::CaptureStop;
pub use write::write_capture;
