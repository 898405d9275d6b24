//! Reads one file of a set as a sequence of events: takes the items of the reels, and reports which
//! blocks are the next blocks of the file. Also contains the sinks that receive the parts of the
//! blocks, and the checkpoints to which a reader and a sink can roll back.
#![tactic(auto)]

mod checkpoint;
mod event;
pub mod laws;
mod memory;
pub mod normal;
mod reader;
mod refusing;
mod sink;

pub use checkpoint::{Checkpoint, Known};
pub use event::{Answer, Awaited, CoreFault, Event, Expected, Reason};
pub use memory::MemorySink;
pub use reader::{ReaderCore, goes_on_at, shape_of};
pub use refusing::Refusing;
pub use sink::{PartSink, PartWalk, SinkFault};
