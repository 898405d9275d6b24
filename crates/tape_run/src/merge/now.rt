//! `merge` and `compare` over images: they are read in parallel, and the merged image gets its
//! name.

ghost use Rattle.std.specs.Prelude.{◌≡◌, ◌⊎◌, ◌<◌, ◌+◌, map, length, IfOk, OnOk, IfErr, OnErr};
ghost use Rattle.std.specs.Io.KnownBytes.{Appends};
ghost use Rattle.tape_image.specs.declared.item.ImageWriteFault.TheVariants.{TooLong};
ghost use Rattle.tape_image.specs.{Begins.image_limit, Written.AppendsFront};
ghost use Rattle.tape_run.specs.MergeNow.{MountsAll, IsMissing, Misses, IfMounted, LeavesPlace};
ghost use Rattle.tape_run.specs.MergeNow.{ReportsNoImage, ReportsImage, HoldsMerged, ComesTo};
ghost use Rattle.tape_run.specs.MergeLines.{lines_from, line_about};
ghost use Rattle.tape_run.specs.{MergeCalls.IfImages, declared.merge.now.MergeEnd.MergeEnd};
ghost use Rattle.tape_run.specs.MergeNow.{IsTooLong, EndsAs, FitsEnd, end_bytes};
ghost use Rattle.tape_run.specs.declared.merge.line.MergedEnd.TheVariants.{Marked};
ghost use Rattle.tape_run.specs.declared.merge.now.MergeEnd.TheVariants.{Differs};
ghost use Rattle.tape_run.specs.declared.merge.now.MergeStop.TheVariants as stops;

use super::line::{MergedEnd, Miscounted, line_about};
use super::log::log_head;
use super::open::{merge_to, open_all};
use super::reading::Reading;
use super::{MergeFault, Merged};
use crate::check::pass_on;
use crate::extract::Place;
use crate::extract::images::ImageSource;
use crate::fault::WriteFailed;
use crate::text::{flush, pass_line, write_text};
use std::alloc::{AllocError, Global};
use std::io::{Read, Write};
use tape_image::{Ending, ImageWriteFault, ImageWriter};

/// The result of merging.
#[derive(Clone, Copy, PartialEq, Eq)]
pub enum MergeEnd {
    /// The merged image is complete, as far as its readings show.
    Whole,
    /// An item of it is bad, a section has a wrong count, or it is cut.
    Partial,
    /// The readings differ: there is no merged image.
    Differs,
}

/// The reason why there is no merged image, although no two readings were found to differ.
#[derive(Clone, Copy, PartialEq, Eq)]
pub enum MergeStop {
    /// The image with the given number, counted from 0, could not be opened.
    NotOpened(usize),
    /// The merged image would be longer than an image may be. The number is that of its bytes so
    /// far.
    TooLong(u64),
    OutOfMemory,
    /// The merged image or the report could not be written.
    WriteFailed,
    /// The log could not be written.
    LogFailed,
}

impl From<AllocError> for MergeStop {
    ghost from_gives = { λ _ e. e ≡ stops.OutOfMemory };

    fn from(_error: AllocError) -> MergeStop {
        MergeStop::OutOfMemory
    }
}

impl From<WriteFailed> for MergeStop {
    ghost from_gives = { λ _ e. e ≡ stops.WriteFailed };

    fn from(_fault: WriteFailed) -> MergeStop {
        MergeStop::WriteFailed
    }
}

/// Returns why no more of the merged image was written, given its size so far.
fn write_stop(fault: ImageWriteFault, size: u64) -> MergeStop
    ensures { Misses (λ _. ⊥) (λ n. (fault ≡ TooLong) × (n ≡ size)) result }
{
    match fault {
        ImageWriteFault::TooLong => MergeStop::TooLong(size),
        _ => MergeStop::WriteFailed,
    }
}

/// Reads images side by side, all of them opened first, and writes to `out` the tape that they make
/// together, and to `log` a row for each item that fewer than two of them have, or that is bad in
/// one. Then the log is flushed, `place` puts `out` in its place, and the report
/// ends with its line. If the images differ, the log is not flushed, the place is not touched, and
/// the report says what each image has at that item.
///
/// It allocates 100,000 bytes for each image, what mounting takes, and 200,000.
///
/// # Errors
///
/// `NotOpened` before anything is read; `OutOfMemory`; `WriteFailed` if `out`, its place or the
/// report failed; `LogFailed`; `TooLong` with the size up to the item, or the end-of-medium marker,
/// that does not fit. The place was not touched and the report has no line about the merged image,
/// unless placing `out` failed, which changes nothing there, or that line could not be written.
pub fn merge_now<
    R: Read + Drop,
    L: ImageSource<R>,
    W: Write + Drop,
    O: Place<W>,
    G: Write,
    P: Write,
>(
    alloc: Global,
    images: &mut L,
    names: &[&str],
    out: W,
    place: &mut O,
    log: &mut G,
    report: &mut P,
) -> Result<MergeEnd, MergeStop>
    ensures ok { IfOk result (λ end. IfMounted L.size L.gives R.remaining images.old images.new
        (λ known. ComesTo R known (map (λ n. n.now) names.now) (W.contents out)
        (O.stands place.new) (Appends (G.contents log.old) (G.contents log.new))
        (Appends (P.contents report.old) (P.contents report.new)) end)) }
    ensures untouched { IfOk result (λ end. end ≡ Differs → place.new ≡ place.old) }
    ensures cause { IfErr result (Misses (IsMissing L.gives images.old images.new)
        (λ size. IfMounted L.size L.gives R.remaining images.old images.new
        (λ known. IsTooLong R known size))) }
    ensures left { IfErr result (LeavesPlace O.stands place.old place.new
        ((report.new ≡ report.old) ⊎ ReportsNoImage R
        (IfMounted L.size L.gives R.remaining images.old images.new) (map (λ n. n.now) names.now)
        (L.size images.old) (P.contents report.old) (P.contents report.new))
        (ReportsImage R (map (λ n. n.now) names.now) (L.size images.old)
        (P.contents report.old) (P.contents report.new)
        × ((end : MergeEnd) × IfMounted L.size L.gives R.remaining images.old images.new
        (λ known. HoldsMerged R known (map (λ n. n.now) names.now) (W.contents out)
        (O.stands place.new) (Appends (G.contents log.old) (G.contents log.new))
        (AppendsFront (P.contents report.old) (P.contents report.new)) end)))) }
{
    let mut devices = mount_all(alloc, images)?;
    let mut readings = open_all(alloc, devices.as_mut_slice())?;
    merge_readings(
        alloc,
        readings.as_mut_slice(),
        names,
        out,
        place,
        log,
        report,
    )
}

/// Mounts all images.
fn mount_all<R: Read + Drop, L: ImageSource<R>>(
    alloc: Global,
    images: &mut L,
) -> Result<Vec<R>, MergeStop>
    ensures ok { IfOk result (λ devices. MountsAll L.size L.gives images.old images.new
        devices.items) }
    ensures err { IfErr result (Misses (IsMissing L.gives images.old images.new) (λ _. ⊥)) }
{
    let mut devices = Vec::new(alloc);
    for number in 0..images.count() {
        let Some(device) = images.mount(number)? else {
            return Err(MergeStop::NotOpened(number));
        };
        let Ok(()) = devices.push(device) else {
            return Err(MergeStop::OutOfMemory);
        };
    }
    Ok(devices)
}

/// Merges readings that were opened.
fn merge_readings<R: Read, W: Write + Drop, O: Place<W>, G: Write, P: Write>(
    alloc: Global,
    readings: &mut [Reading<'_, R>],
    names: &[&str],
    out: W,
    place: &mut O,
    log: &mut G,
    report: &mut P,
) -> Result<MergeEnd, MergeStop>
    ensures ok { IfOk result (λ end. IfImages readings.old (λ known.
        ComesTo R known (map (λ n. n.now) names.now) (W.contents out) (O.stands place.new)
        (Appends (G.contents log.old) (G.contents log.new))
        (Appends (P.contents report.old) (P.contents report.new)) end)) }
    ensures untouched { IfOk result (λ end. end ≡ Differs → place.new ≡ place.old) }
    ensures cause { IfErr result (Misses (λ _. ⊥) (λ size. IfImages readings.old (λ known.
        IsTooLong R known size))) }
    ensures left { IfErr result (LeavesPlace O.stands place.old place.new
        ((report.new ≡ report.old) ⊎ ReportsNoImage R (IfImages readings.old)
        (map (λ n. n.now) names.now) (length readings.old)
        (P.contents report.old) (P.contents report.new))
        (ReportsImage R (map (λ n. n.now) names.now) (length readings.old)
        (P.contents report.old) (P.contents report.new)
        × ((end : MergeEnd) × IfImages readings.old (λ known.
        HoldsMerged R known (map (λ n. n.now) names.now) (W.contents out) (O.stands place.new)
        (Appends (G.contents log.old) (G.contents log.new))
        (AppendsFront (P.contents report.old) (P.contents report.new)) end)))) }
{
    let mut image = ImageWriter::new(out);
    let head = log_head(alloc, names)?;
    let Ok(()) = write_text(log, head.as_slice()) else {
        return Err(MergeStop::LogFailed);
    };
    match merge_to(alloc, readings, &mut image, log) {
        Ok(merged) => {
            let end = end_of(readings, merged.items);
            report_readings(alloc, readings, names, false, report)?;
            let written = end_image(image, end)?;
            let Ok(()) = flush(log) else {
                return Err(MergeStop::LogFailed);
            };
            place.place(written)?;
            let (items, bad, alone) = (merged.items, merged.bad, merged.alone);
            let rest = Miscounted(merged.miscounted);
            let line = format_args!("MERGED {items} {bad} {alone} {end}{rest}");
            pass_line(report, &line)?;
            Ok(whole_or_partial(&merged, end))
        }
        Err(MergeFault::Differ(item)) => {
            report_readings(alloc, readings, names, false, report)?;
            pass_line(report, &format_args!("DIFFER {item}\n"))?;
            report_readings(alloc, readings, names, true, report)?;
            Ok(MergeEnd::Differs)
        }
        Err(MergeFault::OutOfMemory) => Err(MergeStop::OutOfMemory),
        Err(MergeFault::Write(fault)) => Err(write_stop(fault, image.size())),
        Err(MergeFault::Log) => Err(MergeStop::LogFailed),
    }
}

/// Writes the end-of-medium marker, if the image ends with one, and flushes the device.
fn end_image<W: Write + Drop>(image: ImageWriter<W>, end: MergedEnd) -> Result<W, MergeStop>
    ensures ok { IfOk result (λ device. Appends image.contents (W.contents device)
        (end_bytes end)) }
    ensures err { IfErr result (Misses (λ _. ⊥) (λ size. (end ≡ Marked) × (size ≡ image.size)
        × (image_limit < size + length (end_bytes end)))) }
{
    let mut image = image;
    match end {
        MergedEnd::Marked => match image.finish() {
            Ok(()) => Ok(image.into_device()),
            Err(fault) => Err(write_stop(fault, image.size())),
        },
        MergedEnd::Physical | MergedEnd::Cut => {
            let mut device = image.into_device();
            flush(&mut device)?;
            Ok(device)
        }
    }
}

/// Returns whether the merged image is complete.
fn whole_or_partial(merged: &Merged, end: MergedEnd) -> MergeEnd
    ensures { FitsEnd merged.now.bad merged.now.miscounted end result }
{
    if merged.bad > 0 {
        return MergeEnd::Partial;
    }
    if merged.miscounted > 0 {
        return MergeEnd::Partial;
    }
    match end {
        MergedEnd::Cut => MergeEnd::Partial,
        MergedEnd::Marked | MergedEnd::Physical => MergeEnd::Whole,
    }
}

/// Returns the end of the merged image: an end-of-medium marker if one of the longest readings has
/// one, otherwise the end of its bytes if one of them reached it, otherwise the fault at which all
/// of them stopped.
fn end_of<R: Read>(readings: &[Reading<'_, R>], items: u64) -> MergedEnd
    ensures { EndsAs items readings.now result }
{
    let mut end = MergedEnd::Cut;
    for reading in readings {
        if reading.items == items {
            match reading.image.ending() {
                Some(Ending::Marked) => return MergedEnd::Marked,
                Some(Ending::Physical) => end = MergedEnd::Physical,
                None => {}
            }
        }
    }
    end
}

/// Writes a line about each reading to the report or, if `differ` is true, about its item at the
/// difference, if it has one there.
fn report_readings<R: Read, P: Write>(
    alloc: Global,
    readings: &[Reading<'_, R>],
    names: &[&str],
    differ: bool,
    report: &mut P,
) -> Result<(), MergeStop>
    ensures ok { OnOk result (Appends (P.contents report.old) (P.contents report.new)
        (lines_from (line_about differ (map (λ n. n.now) names.now)) 0 readings.now)) }
    ensures front { OnErr result (AppendsFront (P.contents report.old) (P.contents report.new)
        (lines_from (line_about differ (map (λ n. n.now) names.now)) 0 readings.now)) }
    ensures err { IfErr result (Misses (λ _. ⊥) (λ _. ⊥)) }
{
    for number in 0..readings.len() {
        let line = line_about(alloc, names, differ, number, &readings[number])?;
        pass_on(report, line.as_slice())?;
    }
    Ok(())
}
