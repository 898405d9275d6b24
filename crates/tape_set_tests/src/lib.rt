//! Tests of positions, lists, look-ups and readings, with values calculated by hand; and the
//! definitions of a set's contents and readings as plain programs, for testing faster programs.
#![tactic(auto)]

mod contents;
mod delivered;
#[cfg(test)]
mod layouts;
mod list;
#[cfg(test)]
mod lookups;
#[cfg(test)]
mod positions;
#[cfg(test)]
mod programs;
mod reach;

pub use contents::{EntryLayout, entries};
pub use delivered::before;
pub use reach::far;
