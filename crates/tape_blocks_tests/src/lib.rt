//! Tests of blocks: example blocks of the five formats, read, refused and packed; and plain
//! programs that pack whole lists of records and read them back.
#![tactic(auto)]

#[cfg(test)]
mod faults;
#[cfg(test)]
mod packed;
#[cfg(test)]
mod packers;
mod packing;
#[cfg(test)]
mod read;
mod reading;
#[cfg(test)]
mod wide;
#[cfg(test)]
mod worked;

pub use packing::pack_all;
pub use reading::{packed_again, spans_of};
