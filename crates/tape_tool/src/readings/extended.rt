//! Images of SIMH's extended format whose first bytes do not show it.

use super::{Reading, file_at};
use crate::convert::count_items;
use crate::fault::ToolFault;
use crate::images::ReadAhead;
use crate::refusal::open;
use crate::screen::Host;
use std::alloc::AllocError;
use tape_image::{ImageCause, ImageFormat, SimhImage};
use tape_run::{Container, container_of};

/// Returns whether the image at `path`, of which `first` is the first reading as a SIMH image, is
/// one of the extended format: that reading ends at an item that only this format has, and read in
/// this format the image has no wrong word.
pub fn is_extended<R: Host>(rt: &R, path: &str, first: &Reading) -> Result<bool, AllocError> {
    if !matches!(
        first.fault.map(|fault| fault.cause),
        Some(ImageCause::Reserved(_))
    ) {
        return Ok(false);
    }
    let (Ok(end), Ok(file)) = (file_at(rt, path, first.end), open(rt, path)) else {
        return Ok(false);
    };
    let mut end = ReadAhead::new(rt.alloc(), end)?;
    if container_of(end.front()) != Container::Extended {
        return Ok(false);
    }
    let bytes = ReadAhead::new(rt.alloc(), file)?;
    let mut image = SimhImage::new(rt.alloc(), bytes, ImageFormat::Extended);
    match count_items(rt.alloc(), &mut image) {
        Ok(_) => Ok(true),
        Err(ToolFault::Image(fault)) if fault.cause == ImageCause::OutOfMemory => Err(AllocError),
        Err(ToolFault::Image(fault)) => Ok(fault.cause == ImageCause::Truncated),
        Err(_) => Ok(false),
    }
}
