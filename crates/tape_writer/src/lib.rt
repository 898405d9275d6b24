//! Writes file sets on labelled tape volumes: records in, volumes out.
#![tactic(auto)]

mod blank;
mod course;
mod ebcdic;
mod fault;
mod fields;
mod images;
mod inputs;
pub mod laws;
mod memory;
mod out;
mod phase;
mod records;
mod set;
mod store;
pub mod system;
mod tape;

pub use blank::{BLANK, BlankImage, Prefix, blank_image, blank_volume};
pub use course::{Course, Opened};
pub use ebcdic::EbcdicTapes;
pub use fault::{OutFault, SetFault, WriteFault};
pub use images::ImageTapes;
pub use inputs::{
    Chunk, Cut, Input, InputFault, Piece, Records, RefusedSet, SetPlan, WrittenSet, cut_of,
    longest, write_files, write_set,
};
pub use memory::MemoryTapes;
pub use out::TapeOut;
pub use phase::{OpenFile, Phase};
pub use set::{RefusedWriter, SetWriter};
pub use store::ImageStore;
