//! Records in the blocks of a labelled tape: checks blocks, lends their parts, and packs records.
#![tactic(auto)]

mod check;
mod counted;
pub mod laws;
mod offer;
mod own;
mod packer;
mod padding;
mod parts;
mod put;
mod writing;

pub use check::{BlockCause, BlockFault, check_block};
pub use counted::length_bytes;
pub use offer::{Offer, PackFault};
pub use own::{after, own_offset};
pub use packer::Packer;
pub use padding::content;
pub use parts::{Form, Part, Parts, Shape, Span};
