//! Images and inputs that are files. The contracts make no claim about the contents of files.
mod answers;
mod bytes;
mod fault;
mod folder;
mod image_file;
mod image_files;
mod input_file;
mod opening;
mod write_behind;
mod written;

pub use answers::{LockFault, found, locked};
pub use fault::{FileFault, SystemFault};
pub use folder::{folder_of, image_path, is_unable, name_in_folder, sync_folder_of};
pub use image_file::ImageFile;
pub use image_files::{Ended, ImageFiles, VOLUMES};
pub use input_file::InputFile;
pub use opening::make_image;
use std::fs::{File, Files};
use std::rt::Runtime;
pub use written::{FolderPlan, Unwritten, write_in_folder};

/// A system with memory, and with files that can be locked.
pub trait Host: Runtime + AllocGlobal + Files<File = File> {}

impl<R: Runtime + AllocGlobal + Files<File = File>> Host for R {}
