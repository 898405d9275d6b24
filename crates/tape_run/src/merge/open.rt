//! Readings of images on devices.

ghost use Rattle.std.specs.Prelude.{◌≡◌, ◌≢◌, IfOk, IfErr, OnOk, map, length};
ghost use Rattle.tape_image.specs.Writer.{writing};
ghost use Rattle.tape_run.specs.MergeCalls.{AreAtFront, IfImages, Merges};
ghost use Rattle.tape_run.specs.MergedImages.{TakeImages, FaultsImages};

use super::candidate::Candidate;
use super::reading::Reading;
use super::{MergeFault, Merged, merge_items};
use std::alloc::{AllocError, Global};
use std::io::{Read, Write};
use tape_image::{ImageBuffer, ImageReader, ImageWriter};

/// Creates a reading of the image on each device. Nothing is read yet.
///
/// # Errors
///
/// `AllocError` if memory for a buffer is refused.
pub fn open_all<'r, R: Read>(
    alloc: Global,
    devices: &'r mut [R],
) -> Result<Vec<Reading<'r, R>>, AllocError>
    ensures { IfOk result (λ readings. AreAtFront (map R.remaining devices.old)
        readings.items) }
{
    let mut readings = Vec::new(alloc);
    let opened = devices.iter_mut();
    for device in opened {
        let buffer = ImageBuffer::new(alloc)?;
        readings.push(Reading::new(ImageReader::over(buffer, device)))?;
    }
    Ok(readings)
}

/// Merges readings of images, which are read side by side, and writes the tape that they make
/// together, and the rows of the log. Afterwards the fields of each reading say which items were
/// read, and how the reading stopped.
///
/// It allocates 200,000 bytes.
///
/// # Errors
///
/// Those of `merge_items`; `OutOfMemory` also if memory for a block is refused, before anything is
/// read.
pub fn merge_to<R: Read, W: Write + Drop, G: Write>(
    alloc: Global,
    readings: &mut [Reading<'_, R>],
    out: &mut ImageWriter<W>,
    log: &mut G,
) -> Result<Merged, MergeFault>
    requires { out.old.standing ≡ writing }
    ensures ok { IfOk result (λ merged. IfImages readings.old (λ images.
        Merges (TakeImages images readings.new) readings.new merged out.old out.new
        (G.contents log.old) (G.contents log.new))) }
    ensures fault { IfErr result (λ fault. IfImages readings.old (λ images.
        FaultsImages images readings.new out.old out.new fault)) }
    // Whatever the images, no reading is lost.
    ensures all { OnOk result (length readings.new ≡ length readings.old) }
    ensures still_all { IfErr result (λ fault. fault ≢ MergeFault.OutOfMemory
        → length readings.new ≡ length readings.old) }
{
    let mut best = Candidate::new(alloc)?;
    let mut other = Candidate::new(alloc)?;
    merge_items(readings, &mut best, &mut other, out, log)
}
