//! The listing of an image.

ghost use Rattle.tape_c.specs.Lists.{Lists};

use crate::end::{ALL, End, NO_MEMORY, give, give_nothing};
use std::alloc::Global;
use tape_image::ImageCause;
use tape_run::{ListFault, list_to};

/// Writes the lines that `tape list` prints for an image to `out`.
///
/// Allocates the image reader's buffer and the text.
#[unsafe(no_mangle)]
pub extern "C" fn tape_list(alloc: Global, image: &[u8], out: &mut [u8]) -> End
    ensures { Lists image.now out.old out.new result }
{
    let mut text = Vec::new(alloc);
    let mut device = image;
    match list_to(alloc, &mut device, &mut text) {
        Ok(()) => give(text.as_slice(), out, 0, ALL),
        Err(ListFault::WriteFailed) => give_nothing(NO_MEMORY),
        Err(ListFault::Image(fault)) => {
            let state = u32::from(fault.cause.number());
            match fault.cause {
                ImageCause::Device | ImageCause::OutOfMemory => give_nothing(state),
                _ => give(text.as_slice(), out, fault.place, state),
            }
        }
    }
}
