//! In-memory sessions, and the parts that they need next.
use crate::image::set_id;
use std::alloc::Global;
use tape_core::{CoreFault, MemorySink};
use tape_run::Session;
use tape_set::Want;

/// Returns a session at the start of file `file` of the example set, over an in-memory sink.
pub fn begun(alloc: Global, file: u16) -> Result<Session<MemorySink>, CoreFault> {
    Session::new(alloc, set_id(), file, MemorySink::new(alloc))
}

/// Returns the first part of block `block` of section `sect` of file 1.
pub fn wanted(sect: u16, block: u32) -> Option<Want> {
    Some(Want {
        file: 1,
        sect,
        block,
        part: 0,
    })
}
