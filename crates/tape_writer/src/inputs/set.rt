//! Writes a set as images.
ghost use Rattle.std.specs.Prelude.{◌≡◌, ◌≢◌, ◌<◌, ◌≤◌, ◌+◌, [], length, map, None, ◌⊎◌, ◌↔◌, IfOk};
ghost use Rattle.std.specs.Prelude.{IfErr, IfSome, IsTrue, OnOk, false};
ghost use Rattle.std.specs.List.{AllByRecursion};
ghost use Rattle.tape_blocks.specs.Packing.{IsWritable};
ghost use Rattle.tape_set.specs.Tight.{least_capacity};
ghost use Rattle.tape_writer.specs.Fields.{IsText, IsTextVolume, IsTextHead};
ghost use Rattle.tape_writer.specs.Images.{Holds, HasStopped};
ghost use Rattle.tape_writer.specs.ToldFiles.{IfAllKnown, told_files};
ghost use Rattle.tape_writer.specs.LeftOf.{HasNoVolume, IsLeftSet};
ghost use Rattle.tape_writer.specs.WriteSet.{IsSetOfImages, IsSetInEbcdic, cut_of as cut_by};
ghost use Rattle.tape_writer.specs.WriteFaults.{IsSetFault, IsOfInput};

use crate::ebcdic::EbcdicTapes;
use crate::fault::{SetFault, WriteFault};
use crate::fields::is_text_head;
use crate::images::ImageTapes;
use crate::inputs::cut::cut_of;
use crate::inputs::files::{Input, write_files};
use crate::set::SetWriter;
use crate::store::ImageStore;
use std::alloc::Global;
use std::io::Read;
use tape_blocks::{Form, Shape};
use tape_image::ImageWriter;
use tape_label::{Field, Vol1};

/// The plan of a set: its volumes, all of one capacity, the shape of all its files, and the form of
/// their inputs.
#[derive(Drop)]
pub struct SetPlan {
    pub set_id: Field<6>,
    pub volumes: Vec<Vol1>,
    /// The maximum size of an image in bytes.
    pub capacity: u32,
    pub shape: Shape,
    pub form: Form,
}

/// The number of files written, and the store, which received the images of all volumes.
#[derive(Drop)]
pub struct WrittenSet<S> {
    pub files: usize,
    pub images: S,
}

/// The fault because of which a set was not written completely, and the store, which received the
/// images of the volumes that ended. The image of the current volume, if there is one, ends at the
/// fault.
#[derive(Drop)]
pub struct RefusedSet<S: ImageStore + Drop> {
    pub fault: SetFault,
    pub images: S,
    pub under_way: Option<ImageWriter<S::Device>>,
}

/// Writes files as a set, each volume as an image on a device of the store `images`, which must not
/// have received an image yet. Passes each image to the store before the next volume begins. Reads
/// each input to its end, and keeps one record of it in memory.
///
/// # Errors
///
/// Returns `Write` with the fault of the set writer (including `OutOfVolumes` if there is no
/// volume, and `NoFile` if there is no file); with `BadShape` if raw inputs cannot be records of
/// the format, and with `BadField` for any head, before anything is written; with `RecordLength` as
/// soon as a record is longer than the shape allows, after which nothing is read; with `Device`
/// also if the store has no device left. `ReadFailed` if an input fails. There are no other faults,
/// and all except `Device`, `OutOfMemory` and `ReadFailed` have their cause in the plan or the
/// inputs: `OutOfVolumes` is only returned if the next block of the inputs, or the end of a file,
/// does not fit on the last volume.
pub fn write_set<R: Read, S: ImageStore + Drop>(
    alloc: Global,
    plan: SetPlan,
    files: &mut [Input<R>],
    images: S,
) -> Result<WrittenSet<S>, RefusedSet<S>>
    ensures written { S.holds images false [] → IfOk result (λ done.
        IfSome (cut_by plan.form plan.shape) (λ cut.
        IfAllKnown (map (λ f. (f.head, R.remaining f.reader)) files.old) (λ fs.
        IsSetOfImages (S.holds done.images) plan.volumes.items plan.capacity plan.set_id
        (told_files plan.set_id plan.shape cut 1 fs)))) }
    ensures files { IfOk result (λ done. done.files ≡ length files.old) }
    // Each fault is returned only for its cause.
    ensures due { IfErr result (λ refused.
        IsSetFault plan (map (λ f. (f.head, R.remaining f.reader)) files.old) refused.fault) }
    // If no volume is left, the next block of the inputs read so far, or the labels at the end of a
    // file, do not fit.
    ensures stuck { S.holds images false [] → IfErr result (λ refused.
        refused.fault ≡ SetFault.Write WriteFault.OutOfVolumes
        → HasNoVolume (Holds S.holds)
        (λ tapes. (tapes.store ≡ refused.images) × (tapes.image ≡ refused.under_way)) plan
        (map (λ f. (f.head, R.remaining f.reader)) files.old)) }
    // Whatever the fault: either nothing was written; or the images that the store received are
    // complete, and together with the current image they are a prefix of the images for the files
    // so far, and all of these images if an input failed or a record has a wrong length.
    // `OutOfMemory` is only returned when a file begins, or for a record that is longer than those
    // before it.
    ensures front { S.holds images false [] → IfErr result (λ refused.
        ((refused.images ≡ images) × (refused.under_way ≡ None) × (IsOfInput refused.fault → ⊥))
        ⊎ IfSome (cut_by plan.form plan.shape) (λ cut. IsLeftSet (Holds S.holds)
        (λ tapes. (tapes.store ≡ refused.images) × (tapes.image ≡ refused.under_way))
        refused.fault plan cut (map (λ f. (f.head, R.remaining f.reader)) files.old))) }
    // If no file of the shape can be written with the capacity, nothing was written.
    ensures unfit { (IsWritable plan.shape → least_capacity plan.shape ≤ plan.capacity → ⊥)
        → 0 < length files.old
        → IfErr result (λ refused. (refused.images ≡ images) × (refused.under_way ≡ None)) }
    // If the device failed, the store has no device left, or the current image, if there is one,
    // accepts no further items.
    ensures device { IfErr result (λ refused. refused.fault ≡ SetFault.Write WriteFault.Device
        → HasStopped (S.left refused.images) refused.under_way) }
    ensures raw { OnOk result (cut_by plan.form plan.shape ≢ None) }
    // If raw inputs cannot be records of the format, or the set, its volumes or a file has an
    // invalid field, nothing was written.
    ensures nothing { (cut_by plan.form plan.shape ≡ None)
        ⊎ (IsText plan.set_id × AllByRecursion IsTextVolume plan.volumes.items
        × AllByRecursion (λ f. IsTextHead f.head) files.old → ⊥)
        → IfErr result (λ refused. (refused.images ≡ images) × (refused.under_way ≡ None)) }
{
    let SetPlan {
        set_id,
        volumes,
        capacity,
        shape,
        form,
    } = plan;
    let tapes = ImageTapes::new(images);
    let Some(cut) = cut_of(form, &shape) else {
        return Err(left(SetFault::Write(WriteFault::BadShape), tapes));
    };
    let mut writer = match SetWriter::new(alloc, set_id, volumes, capacity, tapes) {
        Ok(writer) => writer,
        Err(refused) => return Err(left(SetFault::Write(refused.fault), refused.out)),
    };
    if !are_text_heads(files) {
        return Err(left(SetFault::Write(WriteFault::BadField), writer.into_out()));
    }
    if let Err(fault) = write_files(alloc, &mut writer, files, shape, cut) {
        return Err(left(fault, writer.into_out()));
    }
    if let Err(fault) = writer.finish() {
        return Err(left(SetFault::Write(fault), writer.into_out()));
    }
    let tapes = writer.into_out();
    let (images, _) = tapes.into_parts();
    Ok(WrittenSet {
        files: files.len(),
        images,
    })
}

/// Writes files as a set, as `write_set` does, with the labels in EBCDIC.
///
/// # Errors
///
/// The errors are those of `write_set`.
pub(crate) fn write_set_in_ebcdic<R: Read, S: ImageStore + Drop>(
    alloc: Global,
    plan: SetPlan,
    files: &mut [Input<R>],
    images: S,
) -> Result<WrittenSet<S>, RefusedSet<S>>
    ensures written { S.holds images false [] → IfOk result (λ done.
        IfSome (cut_by plan.form plan.shape) (λ cut.
        IfAllKnown (map (λ f. (f.head, R.remaining f.reader)) files.old) (λ fs.
        IsSetInEbcdic (S.holds done.images) plan.volumes.items plan.capacity plan.set_id
        (told_files plan.set_id plan.shape cut 1 fs)))) }
    ensures files { IfOk result (λ done. done.files ≡ length files.old) }
{
    let SetPlan {
        set_id,
        volumes,
        capacity,
        shape,
        form,
    } = plan;
    let out = ImageTapes::new(images);
    let tapes = EbcdicTapes::new(out);
    let Some(cut) = cut_of(form, &shape) else {
        let fault = SetFault::Write(WriteFault::BadShape);
        return Err(left(fault, tapes.into_out()));
    };
    let mut set = match SetWriter::new(alloc, set_id, volumes, capacity, tapes) {
        Ok(set) => set,
        Err(refused) => {
            let fault = SetFault::Write(refused.fault);
            return Err(left(fault, refused.out.into_out()));
        }
    };
    let is_text = are_text_heads(files);
    if !is_text {
        let fault = SetFault::Write(WriteFault::BadField);
        return Err(left(fault, set.into_out().into_out()));
    }
    if let Err(fault) = write_files(alloc, &mut set, files, shape, cut) {
        return Err(left(fault, set.into_out().into_out()));
    }
    if let Err(fault) = set.finish() {
        return Err(left(SetFault::Write(fault), set.into_out().into_out()));
    }
    let coded = set.into_out();
    let tapes = coded.into_out();
    let (images, _) = tapes.into_parts();
    Ok(WrittenSet {
        files: files.len(),
        images,
    })
}

/// Returns true if the fields of all heads are a-characters.
fn are_text_heads<R>(files: &[Input<R>]) -> bool
    ensures { IsTrue result ↔ AllByRecursion (λ f. IsTextHead f.head) files.now }
{
    for file in files {
        if !is_text_head(&file.head) {
            return false;
        }
    }
    true
}

/// Returns the fault, and the parts of the tapes that were written up to it.
fn left<S: ImageStore + Drop>(fault: SetFault, tapes: ImageTapes<S>) -> RefusedSet<S>
    ensures fault { result.fault ≡ fault }
    ensures images { result.images ≡ tapes.store }
    ensures under_way { result.under_way ≡ tapes.image }
    ensures stopped { 0 < tapes.failed → HasStopped (S.left result.images) result.under_way }
{
    let (images, under_way) = tapes.into_parts();
    RefusedSet {
        fault,
        images,
        under_way,
    }
}
