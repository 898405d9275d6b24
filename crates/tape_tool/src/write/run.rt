//! The `write` command: writes the files that the arguments name to volumes in a directory.

ghost use Rattle.std.specs.Prelude.{◌≡◌, ◌==◌, IfOk, IfErr, OnOk, OnErr};
ghost use Rattle.std.specs.{List.before_first, List.after_first, Io.KnownBytes.Appends};
ghost use Rattle.tape_image.specs.Written.{AppendsFront};
ghost use Rattle.tape_tool.specs.Report.{report};
ghost use Rattle.tape_tool.specs.Writing.{record_length, IsNoShape, plain_head};

use super::failed::{remove_images, site_of};
use super::words::WriteOrder;
use crate::explain::FaultSite;
use crate::fault::{FileFault, ToolFault};
use crate::help;
use crate::program::{End, end_of};
use crate::refusal::{Refusal, same_file};
use crate::screen::{Host, Progress};
use arrayvec::ArrayVec;
use std::alloc::AllocError;
use std::fs::Metadata;
use std::io::Write;
use std::{fs, io};
use tape_blocks::Shape;
use tape_label::{Field, Format, Head1};
use tape_run::text::{put, put_decimal};
use tape_run::{WriteFailed, write_text};
use tape_writer::system::{
    Ended, FolderPlan, InputFile, VOLUMES, found, image_path, write_in_folder,
};
use tape_writer::{Input, WriteFault};

/// Writes files to volumes, unless that would destroy a file, and reports the volumes. One input
/// and one image are open at a time. On error, `site` says where it occurred.
///
/// Errors are checked in this order: the shape, the identifiers of the files, their inputs, and
/// then those that the writer finds.
pub fn write<'a, R: Progress>(
    rt: &R,
    order: &WriteOrder<'a>,
    site: &mut FaultSite<'a>,
) -> Result<End, Refusal> {
    look_ahead(rt.host(), order, site)?;
    *site = FaultSite::Images(order.folder);
    let plan = FolderPlan {
        folder: order.folder,
        prefix: order.prefix,
        capacity: order.capacity,
        shape: shape_of(order)?,
        form: order.form,
        ebcdic: order.ebcdic,
        dry: order.dry,
    };
    // None of the heads is stored, since there may be thousands.
    for word in order.files.as_slice() {
        *site = FaultSite::Input(*word);
        head_for(word, order.created)?;
    }
    let mut files = find_inputs(rt.host(), order, site)?;
    Ok(end_of(write_files(rt, order, &plan, files.as_mut_slice(), site)))
}

/// Writes the files to volumes, and reports these. Removes created images on error. Nothing would
/// open the directory of a dry plan, so it is looked up.
fn write_files<'r, 'a: 'r, R: Progress>(
    rt: &'r R,
    order: &WriteOrder<'a>,
    plan: &FolderPlan<'a>,
    files: &mut [Input<InputFile<'r, R::System>>],
    site: &mut FaultSite<'a>,
) -> Result<(), ToolFault> {
    if plan.dry {
        *site = FaultSite::Images(plan.folder);
        find_folder(rt.host(), plan.folder)?;
    }
    match write_in_folder(rt.host(), plan, files) {
        Ok(ended) => {
            *site = FaultSite::Lines;
            Ok(say(&mut io::writer(rt), files.len() as u64, ended.as_slice())?)
        }
        Err(unwritten) => {
            remove_images(rt, order, unwritten.made.as_slice());
            let begun = files.iter().filter(|file| file.reader.has_begun()).count();
            *site = site_of(rt.host(), order, &plan.shape, begun, &unwritten);
            Err(ToolFault::from(unwritten.fault))
        }
    }
}

/// Looks up the directory of the images.
///
/// # Errors
///
/// Returns `NotOpened` if it does not exist, is no directory, or cannot be looked up.
fn find_folder<R: Host>(rt: &R, folder: &str) -> Result<(), ToolFault> {
    match found(fs::metadata(rt, folder))? {
        Some(found) if found.is_dir() => Ok(()),
        _ => Err(ToolFault::File(FileFault::NotOpened)),
    }
}

/// Returns the shape of all files. An impossible shape is reported as a fault of the writer.
fn shape_of(order: &WriteOrder<'_>) -> Result<Shape, ToolFault>
    ensures format { IfOk result (λ shape. shape.format ≡ order.now.format) }
    ensures block_len { IfOk result (λ shape. shape.block_len ≡ order.now.block) }
    ensures rec_len { IfOk result (λ shape. shape.rec_len ≡ record_length order.now.format
        order.now.record order.now.block order.now.offset) }
    ensures offset { IfOk result (λ shape. shape.offset ≡ order.now.offset) }
    ensures pad_full { IfOk result (λ shape. shape.pad_full ≡ order.now.pad_full) }
    ensures fault { IfErr result (λ fault. fault ≡ ToolFault.Write WriteFault.BadShape) }
    ensures due { IfErr result (λ _. IsNoShape order.now.format (record_length order.now.format
        order.now.record order.now.block order.now.offset) order.now.pad_full) }
{
    let bad = ToolFault::Write(WriteFault::BadShape);
    if order.pad_full && order.format != Format::Counted {
        return Err(bad);
    }
    let rec_len = record_length(order);
    match order.format {
        Format::Fixed if rec_len == 0 => Err(bad),
        format => Ok(Shape {
            format,
            block_len: order.block,
            rec_len,
            offset: order.offset,
            pad_full: order.pad_full,
        }),
    }
}

/// Returns the record length. If format D has none, it is the greatest that fits into a block.
fn record_length(order: &WriteOrder<'_>) -> u32
    ensures { result ≡ record_length order.now.format order.now.record order.now.block
        order.now.offset }
{
    match (order.format, order.record) {
        (_, Some(length)) => length,
        (Format::Counted, None) => order
            .block
            .saturating_sub(u32::from(order.offset))
            .min(9_999),
        _ => 0,
    }
}

/// Returns the head of the file that argument `word` names, created on the day `created`.
fn head_for(word: &str, created: Field<6>) -> Result<Head1, ToolFault> {
    let file_id = Field::new(split(word).0).map_err(|fault| ToolFault::Label(fault))?;
    Ok(head_of(file_id, created))
}

/// Returns a file's identifier and its path: the text before and after the first equals sign.
pub fn split<'a>(word: &'a str) -> (&'a str, &'a str)
    ensures id { result.0.now ≡ before_first (λ byte. byte == 61) word.now }
    ensures path { result.1.now ≡ after_first (λ byte. byte == 61) word.now }
{
    word.split_once('=').unwrap_or((word, ""))
}

/// Returns the head of a file, without a date of expiry or restrictions. The writer fills in the
/// set's identifier and the numbers.
fn head_of(file_id: Field<17>, created: Field<6>) -> Head1
    ensures { result ≡ plain_head file_id created }
{
    Head1 {
        file_id,
        set_id: Field::of_bytes([b' '; 6]),
        sect: 1,
        sequence: 1,
        generation: Field::of_bytes(*b"0001"),
        gen_version: Field::of_bytes(*b"00"),
        created,
        expires: Field::of_bytes(*b" 00000"),
        access: b' ',
        implementation: Field::of_bytes([b' '; 13]),
    }
}

/// Looks up the inputs, in their order. None of them is read.
fn find_inputs<'r, 'a: 'r, R: Host>(
    rt: &'r R,
    order: &WriteOrder<'a>,
    site: &mut FaultSite<'a>,
) -> Result<Vec<Input<InputFile<'r, R>>>, ToolFault> {
    let mut inputs = Vec::new(rt.alloc());
    for word in order.files.as_slice() {
        *site = FaultSite::Input(*word);
        let (_, path) = split(*word);
        let input = Input {
            head: head_for(*word, order.created)?,
            reader: InputFile::find(rt, path)?,
        };
        if inputs.push(input).is_err() {
            return Err(ToolFault::Write(WriteFault::OutOfMemory));
        }
    }
    Ok(inputs)
}

/// Checks the files that the arguments name. None of them is opened, created or changed.
///
/// # Errors
///
/// Returns `Words` if an input is an image that the set may be written to: the same file, whatever
/// name or link leads to it. Returns `Faulted` with `NotOpened` if a directory has the name of such
/// an image, or looking up one of these files fails; with `Exists` if another file that is not a
/// regular one has such a name, for example a pipe or a device; with `OutOfMemory` if an allocation
/// was refused.
fn look_ahead<'a, R: Host>(
    rt: &R,
    order: &WriteOrder<'a>,
    site: &mut FaultSite<'a>,
) -> Result<(), Refusal> {
    let images = images_of(rt, order, site)?;
    let images = images.as_slice();
    if images.is_empty() {
        return Ok(());
    }
    for word in order.files.as_slice() {
        *site = FaultSite::Input(*word);
        let (_, path) = split(*word);
        if let Some(input) = found(fs::metadata(rt, path))?
            && images.iter().any(|image| same_file(image, &input))
        {
            return Err(Refusal::Words(help::INPUT_IS_IMAGE));
        }
    }
    Ok(())
}

/// Returns the existing images of the set. Refuses anything but a regular file.
fn images_of<'a, R: Host>(
    rt: &R,
    order: &WriteOrder<'a>,
    site: &mut FaultSite<'a>,
) -> Result<Vec<Metadata>, Refusal> {
    let mut images = Vec::new(rt.alloc());
    for number in 1..=VOLUMES {
        *site = FaultSite::Written(order.folder, order.prefix, number);
        let path = image_path(rt.alloc(), order.folder, order.prefix, number)?;
        match found(fs::metadata(rt, path.as_str()))? {
            None => {}
            Some(image) if image.is_file() => images.push(image).map_err(|_| AllocError)?,
            Some(folder) if folder.is_dir() => return Err(Refusal::from(FileFault::NotOpened)),
            Some(_) => return Err(Refusal::from(FileFault::Exists)),
        }
    }
    Ok(images)
}

/// A buffer for one line. The last line is the longest one.
type Line = ArrayVec<u8, 64>;

/// Prints a line for each volume, and one with the numbers of files and volumes.
///
/// # Errors
///
/// Returns `WriteFailed` if a write fails. The text printed so far is then a prefix of the lines.
pub fn say<W: Write>(writer: &mut W, files: u64, ended: &[Ended]) -> Result<(), WriteFailed>
    ensures ok { OnOk result
        (Appends (W.contents writer.old) (W.contents writer.new) (report files ended.now)) }
    ensures front { OnErr result
        (AppendsFront (W.contents writer.old) (W.contents writer.new) (report files ended.now)) }
{
    for volume in ended {
        let mut line = Line::new();
        put(&mut line, b"VOLUME ");
        put(&mut line, volume.volume.bytes());
        put(&mut line, b" ");
        put_decimal(&mut line, volume.size);
        put(&mut line, b"\n");
        write_text(writer, &line)?;
    }
    let mut last = Line::new();
    put(&mut last, b"FILES ");
    put_decimal(&mut last, files);
    put(&mut last, b" VOLUMES ");
    put_decimal(&mut last, ended.len() as u64);
    put(&mut last, b"\n");
    write_text(writer, &last)
}
