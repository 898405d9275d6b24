//! Converts images of other formats to SIMH images.

ghost use Rattle.std.specs.Prelude.{option_map, IfOk, OnErr};
ghost use Rattle.tape_image.specs.Format.{simh_bytes};
ghost use Rattle.tape_image.specs.Convert.{CopiesAll, CopiesFront};

use crate::format::{ImageFormat, SimhImage};
use crate::put::write_bytes;
use std::alloc::Global;
use std::io::{Read, Write};
use thiserror::Error;

/// The reason why an image was not converted.
#[derive(Clone, Copy, Debug, PartialEq, Eq, Error)]
pub enum ConvertFault {
    /// The image could not be read to its end.
    #[error("the image could not be read")]
    ReadFailed,
    /// The SIMH image could not be written.
    #[error("the SIMH image could not be written")]
    WriteFailed,
}

/// Appends to `out` the SIMH image of the image of format `format` that `device` gives. Allocates
/// only for blocks in several chunks, and does not judge the image: if it is damaged, so is the
/// SIMH image.
///
/// # Errors
///
/// Returns `ReadFailed` if the device or an allocation fails, and `WriteFailed` if `out` fails, is
/// interrupted or takes no bytes. The beginning of the SIMH image was written.
pub fn convert_to<R: Read + Drop, W: Write>(
    alloc: Global,
    device: R,
    format: ImageFormat,
    out: &mut W,
) -> Result<(), ConvertFault>
    ensures ok { IfOk result (λ _. CopiesAll (option_map (simh_bytes format) (R.remaining device))
        (W.contents out.old) (W.contents out.new)) }
    ensures err { OnErr result (CopiesFront (option_map (simh_bytes format) (R.remaining device))
        (W.contents out.old) (W.contents out.new)) }
{
    let mut image = SimhImage::new(alloc, device, format);
    copy(&mut image, out)
}

/// Appends to `out` all bytes that `device` gives, and flushes it.
///
/// # Errors
///
/// Returns `ReadFailed` if the device fails, and `WriteFailed` if `out` fails, is interrupted or
/// takes no bytes. The beginning of the bytes was written.
fn copy<R: Read, W: Write>(device: &mut R, out: &mut W) -> Result<(), ConvertFault>
    ensures ok { IfOk result (λ _. CopiesAll (R.remaining device.old)
        (W.contents out.old) (W.contents out.new)) }
    ensures err { OnErr result (CopiesFront (R.remaining device.old)
        (W.contents out.old) (W.contents out.new)) }
{
    let mut buffer = [0u8; 8192];
    'reads: for _ in 0..u64::MAX {
        let read = match device.read(&mut buffer) {
            Ok(0) => {
                return match out.flush() {
                    Ok(()) => Ok(()),
                    Err(_) => Err(ConvertFault::WriteFailed),
                };
            }
            Ok(read) => read,
            Err(_) => return Err(ConvertFault::ReadFailed),
        };
        match write_bytes(out, &buffer[..read]) {
            Ok(()) => {}
            Err(_) => return Err(ConvertFault::WriteFailed),
        }
    }
    Err(ConvertFault::ReadFailed)
}
