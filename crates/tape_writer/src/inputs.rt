//! Writes sets from inputs: each input is cut into the records of a file.
mod chunk;
mod cut;
mod files;
mod records;
mod set;

pub use chunk::Chunk;
pub use cut::{Cut, Piece, cut_of, longest};
pub use files::{Input, write_files};
pub use records::{InputFault, Records};
pub(crate) use set::write_set_in_ebcdic;
pub use set::{RefusedSet, SetPlan, WrittenSet, write_set};
