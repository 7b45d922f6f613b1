//! The edge of the laboratory: bytes from and to the outside, with counts of faults, the gate that
//! each actor passes at the start of its turn, the words of a command, and the small types that every
//! crate uses: lists, a queue of bytes, names, and the numbers of routers and peerings.
#![tactic(auto)]

mod byte_queue;
mod calls;
mod gate;
mod ids;
mod items;
mod memory;
mod name;
mod sink;
mod source;
mod words;

pub use byte_queue::ByteQueue;
pub use calls::Calls;
pub use gate::{FreeGate, Gate};
pub use ids::{PeeringId, RouterId};
pub use items::{Items, Octets};
pub use memory::{NoMemory, TryCopy};
pub use name::Name;
pub use sink::{MemSink, Sink, StdSink, write_all};
pub use source::{Failed, MemSource, ReadStop, Source, StdSource, read_all};
pub use words::Words;
