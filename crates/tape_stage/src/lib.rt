//! Checkpoints as text, and parts of a file staged on a disk so that they survive a crash at any
//! moment.
#![tactic(auto)]

mod disk;
pub mod laws;
mod point;
mod stage;

pub use disk::buffered::Buffered;
pub use disk::file::{BufferedFile, FileDisk, buffered_file};
pub use disk::memory::MemoryDisk;
pub use disk::{Disk, DiskFault};
pub use point::text::PointFault;
pub use point::{read_point, read_wide_point, write_point};
pub use stage::open_disk::{Refused, new_slots};
pub use stage::part_reader::PartReader;
pub use stage::salvage::Salvage;
pub use stage::{Stage, StageFault};
