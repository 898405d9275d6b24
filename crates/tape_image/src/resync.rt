//! Where the items of a damaged SIMH image begin again.

ghost use Rattle.std.specs.Prelude.{◌≡◌, IfOk, IfSome};
ghost use Rattle.tape_image.specs.Resync.{items_again};

mod place;
mod window;

use place::place_again;
use std::alloc::Global;
use std::io;
use std::io::Read;
use window::fill_window;

/// The number of bytes that are looked at: the longest block that a word may announce, those after
/// it in which the next item is looked for, and more.
const WINDOW: usize = 17_301_504;

/// Returns where the items of a damaged SIMH image begin again, as the number of bytes before that
/// place. `device` gives the bytes of the image from the place of image fault 2 or 3 on. Returns
/// `None` if there is no such place nearby, or no such fault.
///
/// Reads and holds up to 17,301,504 bytes of the device, and takes twice that memory at most.
///
/// # Errors
///
/// Returns the error of the device, or `OutOfMemory`.
pub fn items_again<R: Read>(alloc: Global, device: &mut R) -> io::Result<Option<usize>>
    ensures { IfOk result (λ place. IfSome (R.remaining device.old)
        (λ xs. place ≡ items_again xs)) }
{
    let mut held = Vec::new(alloc);
    fill_window(&mut held, device, WINDOW)?;
    let front = held.as_slice();
    Ok(place_again(&front[..front.len().min(WINDOW)]))
}
