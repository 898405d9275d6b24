//! Writes a set to image files in a directory.
ghost use Rattle.std.specs.Prelude.{◌≡◌, ◌≢◌, [], IfOk};
ghost use Rattle.tape_writer.specs.{Blank.blank_volumes, Blank.volume_id, System.of_set};

use crate::blank::{Prefix, blank_volume};
use crate::fault::{SetFault, WriteFault};
use crate::inputs::{Input, RefusedSet, SetPlan, write_set, write_set_in_ebcdic};
use crate::system::Host;
use crate::system::fault::{FileFault, SystemFault};
use crate::system::image_file::NO_MEMORY;
use crate::system::image_files::{Ended, ImageFiles, VOLUMES};
use std::alloc::{AllocError, Global};
use std::io::Read;
use tape_blocks::{Form, Shape};
use tape_label::{Field, Vol1};

/// The plan of a set in a directory: up to 256 volumes whose identifiers begin with the prefix, all
/// of one capacity, with one shape for all files and one form for their inputs.
#[derive(Clone, Copy)]
pub struct FolderPlan<'a> {
    pub folder: &'a str,
    pub prefix: Prefix,
    /// The maximum size of an image in bytes.
    pub capacity: u32,
    pub shape: Shape,
    pub form: Form,
    /// Whether the labels are in EBCDIC.
    pub ebcdic: bool,
    /// Whether the images are only measured: nothing is created or changed.
    pub dry: bool,
}

/// The reason why a set was not written, and what was begun.
#[derive(Drop)]
pub struct Unwritten {
    /// The reason.
    pub fault: SystemFault,
    /// The number of the volume whose image failed, if the fault is one of an image.
    pub image: Option<u16>,
    /// The numbers of the volumes whose images were created. No other run has written to them.
    pub made: Vec<u16>,
}

/// Writes a set, and returns its volumes. One image is open at a time. An image is created when it
/// is first written to; an existing image must be a blank volume. A dry plan creates and changes
/// nothing: existing images are checked, all inputs are read, and the volumes are those that would
/// be written.
///
/// # Errors
///
/// The errors are those of `write_set`, but with the fault of a file instead of the fault of a
/// device.
pub fn write_in_folder<R: Host, I: Read>(
    rt: &R,
    plan: &FolderPlan<'_>,
    files: &mut [Input<I>],
) -> Result<Vec<Ended>, Unwritten> {
    let Ok(volumes) = volumes_of(rt.alloc(), plan.prefix) else {
        return Err(unbegun(rt.alloc()));
    };
    let Ok(images) = ImageFiles::new(rt, plan.folder, plan.prefix, plan.dry) else {
        return Err(unbegun(rt.alloc()));
    };
    let set = SetPlan {
        set_id: set_id(plan.prefix),
        volumes,
        capacity: plan.capacity,
        shape: plan.shape,
        form: plan.form,
    };
    let written = if plan.ebcdic {
        write_set_in_ebcdic(rt.alloc(), set, files, images)
    } else {
        write_set(rt.alloc(), set, files, images)
    };
    match written {
        Ok(done) => Ok(done.images.ended),
        Err(refused) => Err(told(refused)),
    }
}

/// Returns the volumes that a set may use.
fn volumes_of(alloc: Global, prefix: Prefix) -> Result<Vec<Vol1>, AllocError>
    ensures { IfOk result (λ volumes. volumes.items ≡ blank_volumes prefix.characters 256) }
{
    let mut volumes = Vec::new(alloc);
    for before in 0..VOLUMES {
        volumes.push(blank_volume(prefix, before + 1))?;
    }
    Ok(volumes)
}

/// Returns the set's identifier, which is that of its first volume.
fn set_id(prefix: Prefix) -> Field<6>
    ensures { result ≡ volume_id prefix.characters 1 }
{
    blank_volume(prefix, 1).volume
}

/// The answer if there was no memory to begin.
fn unbegun(alloc: Global) -> Unwritten
    ensures { (result.fault ≡ SystemFault.Write WriteFault.OutOfMemory) × (result.made.items ≡ []) }
{
    Unwritten {
        fault: NO_MEMORY,
        image: None,
        made: Vec::new(alloc),
    }
}

/// Returns the fault of a refusal: instead of the fault of a device, the fault of its file. Also
/// returns what was begun. Writes the buffered bytes of the current volume first.
fn told<R: Host>(refused: RefusedSet<ImageFiles<'_, R>>) -> Unwritten
    ensures { refused.entry.fault ≢ SetFault.Write WriteFault.Device
        → result.fault ≡ of_set refused.entry.fault }
{
    let RefusedSet {
        fault,
        images,
        under_way,
    } = refused;
    let (mut made, mut of_file) = (images.made, None);
    if let Some(image) = under_way {
        let mut image = image.into_device();
        let ended = image.end();
        let (number, is_made) = image.origin();
        of_file = ended.map(|fault| (fault, number));
        if is_made {
            // If memory runs out, this image is not removed.
            let _ = made.push(number);
        }
    }
    let (fault, image) = match (fault, of_file) {
        (SetFault::Write(WriteFault::Device), Some((of_file, number))) => (of_file, Some(number)),
        (SetFault::Write(fault), _) => (SystemFault::Write(fault), None),
        (SetFault::ReadFailed, _) => (SystemFault::File(FileFault::ReadFailed), None),
    };
    Unwritten { fault, image, made }
}
