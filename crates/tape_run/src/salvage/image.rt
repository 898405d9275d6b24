//! A section recovered from one image.

ghost use Rattle.std.specs.Prelude.{◌≡◌, ◌&&◌, List, IfOk, IfErr, OnErr};
ghost use Rattle.tape_image.specs.{Reader.going, Reader.tape_item, Tape.TapeItem};
ghost use Rattle.tape_run.specs.SalvageImage.{number_in, is_in, is_mark, read_in, RecoversSection};
ghost use Rattle.tape_run.specs.{Checked.IsCheckFault, Noted.same_key, SalvageBlocks.ReportsFront};
ghost use Rattle.tape_run.specs.SalvageImage.{BeginsWith, text_from};

use crate::fault::EngineFault;
use crate::salvage::recovery::Recovery;
use crate::salvage::walk::{Expected, step};
use crate::section::SectionKey;
use std::io::{Read, Write};
use tape_core::Known;
use tape_image::{ImageReader, Item};

/// Returns the number of data items read of section `key`, if the image ends here.
fn read_in(key: &SectionKey, expected: &Expected) -> u32
    ensures { result ≡ read_in key.now expected.now }
{
    match expected {
        Expected::Data(section) | Expected::Trailer(section) => {
            if section.key == *key {
                section.blocks
            } else {
                0
            }
        }
        _ => 0,
    }
}

/// Returns the number of the next item among the data items of section `key`, if it is one of the
/// first `most`.
pub fn number_in(key: &SectionKey, most: u32, expected: &Expected) -> Option<u32>
    ensures { result ≡ number_in key.now most expected.now }
{
    match expected {
        Expected::Data(section) if section.key == *key && section.blocks < most => {
            Some(section.blocks)
        }
        _ => None,
    }
}

/// Recovers the blocks of a section from an unread image: the first `most` blocks of the first
/// section `key` on it. `start` is what is expected at the first item. Returns how many data items
/// of the section were read; nothing after the tape mark that ends them is read. The reading may
/// end earlier: at the end of the medium, at a fault of the image, or if the reader fails.
///
/// # Errors
///
/// `Run(OutOfMemory)`; `WriteFailed` if a record or the report can't be written.
pub fn recover_section<R: Read, W: Write, P: Write>(
    image: &mut ImageReader<'_, R>,
    start: Expected,
    key: &SectionKey,
    most: u32,
    form: &Option<Known>,
    recovery: &mut Recovery<W>,
    report: &mut P,
) -> Result<u32, EngineFault>
    requires going { image.old.status ≡ going }
    requires first { image.old.place ≡ 0 }
    ensures same_device { image.new.device ≡ image.old.device }
    ensures ok { IfOk result (λ read. RecoversSection W.contents image.old.left image.new.left
        start key.now most form.now recovery.old recovery.new (P.contents report.old)
        (P.contents report.new) read) }
    ensures front { OnErr result ((items : List TapeItem) × BeginsWith image.old.left items
        × ReportsFront W.contents recovery.old (P.contents report.old) (P.contents report.new)
        (λ g. text_from key.now most form.now start g items)) }
    ensures fault { IfErr result IsCheckFault }
{
    let mut expected = start;
    'items: loop {
        match image.next() {
            Ok(Some(item)) => {
                let number = number_in(key, most, &expected);
                recovery.take_item(key.sect, form, number, item, report)?;
                if is_end(key, &expected, item) {
                    return Ok(read_in(key, &expected));
                }
                expected = step(expected, item).0;
            }
            Ok(None) => return Ok(read_in(key, &expected)),
            Err(_) => return Ok(read_in(key, &expected)),
        }
    }
}

/// Returns whether the item is the tape mark that ends the data of section `key`.
fn is_end(key: &SectionKey, expected: &Expected, item: Item<'_>) -> bool
    ensures { result ≡ (is_mark (tape_item item.entry) && is_in key.now expected.now) }
{
    match (item, expected) {
        (Item::Mark, Expected::Data(section)) => section.key == *key,
        _ => false,
    }
}
