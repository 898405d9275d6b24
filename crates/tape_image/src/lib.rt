//! Reads and writes images of magnetic tapes (SIMH's `.tap` files), one item after another, from
//! any reader and to any writer.
#![tactic(auto)]

mod block;
mod convert;
mod format;
mod item;
pub mod laws;
mod put;
mod reader;
mod resync;
mod writer;

pub use block::{ImageBuffer, fill};
pub use convert::{ConvertFault, convert_to};
pub use format::{ImageFormat, SimhImage};
pub use item::{Ending, ImageCause, ImageFault, ImageWriteFault, Item};
pub use put::write_bytes;
pub use reader::ImageReader;
pub use resync::items_again;
pub use writer::ImageWriter;
