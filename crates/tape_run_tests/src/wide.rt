//! Tests of sessions in the wider reading, beside strict ones: record formats U and V, an absent
//! HDR2, padded blocks.
use crate::extract::shelf_of;
use crate::image::{EOF_THREE, HDR1, Image, VOL1, payroll, set_id};
use crate::volumes::{EOF_ONE, records as worked_records};
use std::alloc::{AllocError, Global};
use std::process::Abort;
use std::test::Fail;
use tape_blocks::Form;
use tape_core::MemorySink;
use tape_run::{Session, extract_to};

/// HDR2 of formats U and V without lengths, and of format D with blocks of 20 bytes.
const HDR2_U: &str = "HDR2U0000000000                                   00";

const HDR2_V: &str = "HDR2V0000000000                                   00";

const HDR2_D: &str = "HDR2D0002000016                                   00";

/// Fails unless a session over the image, in the wider reading or not, reports the lines `lines`
/// and writes `written` with line ends.
fn gives<H: Abort + AllocGlobal>(
    rt: &H,
    wide: bool,
    image: &Image,
    lines: &str,
    written: &[u8],
) -> Result<(), Fail> {
    let alloc = rt.alloc();
    let mut session = Session::new(alloc, set_id(), 1, MemorySink::new(alloc))?;
    if wide {
        session.widen();
    }
    let mut shelf = shelf_of(alloc, &mut [Some(image.bytes.as_slice())])?;
    let mut report = Vec::new(alloc);
    let mut out = Vec::new(alloc);
    let answer = extract_to(&mut session, &mut shelf, Form::Lines, &mut out, &mut report);
    let told = report.as_slice() == lines.as_bytes() && out.as_slice() == written;
    assert!(rt; told && answer.is_ok(), "{lines}");
    Ok(())
}

/// Returns a volume with these header labels after HDR1, data blocks and trailer label.
fn volume(
    alloc: Global,
    labels: &[&str],
    blocks: &[&[u8]],
    trailer: &str,
) -> Result<Image, AllocError> {
    let mut image = Image::new(alloc);
    image.label(VOL1)?;
    image.label(HDR1)?;
    image.headers(labels)?;
    for block in blocks {
        image.block(block)?;
    }
    image.trailers(&[trailer])?;
    image.end()?;
    Ok(image)
}

#[test]
fn each_block_of_format_u_is_a_record(rt: HostRuntime) -> Result<(), Fail> {
    let blocks: &[&[u8]] = &[b"ONE", b"A SECOND BLOCK", b"3"];
    let image = volume(rt.alloc(), &[HDR2_U], blocks, EOF_THREE)?;
    let lines = "REEL 1 COMPLETE\nCOMPLETE 3\n";
    gives(&rt, true, &image, lines, b"ONE\nA SECOND BLOCK\n3\n")?;
    gives(
        &rt,
        false,
        &image,
        "REEL 1 BAD LABEL 4\nAWAITS 1 1 0\n",
        b"",
    )
}

#[test]
fn without_hdr2_each_block_is_a_record(rt: HostRuntime) -> Result<(), Fail> {
    let blocks: &[&[u8]] = &[b"ONE", b"A SECOND BLOCK", b"3"];
    let lines = "REEL 1 COMPLETE\nCOMPLETE 3\n";
    let headers: &[&[&str]] = &[&[], &["HDR3 of some system"], &["UHL1 of a user"]];
    for labels in headers {
        let image = volume(rt.alloc(), labels, blocks, EOF_THREE)?;
        gives(&rt, true, &image, lines, b"ONE\nA SECOND BLOCK\n3\n")?;
        gives(
            &rt,
            false,
            &image,
            "REEL 1 BAD LABEL 2\nAWAITS 1 1 0\n",
            b"",
        )?;
    }
    Ok(())
}

#[test]
fn an_unreadable_hdr2_is_not_absent(rt: HostRuntime) -> Result<(), Fail> {
    let mut image = Image::new(rt.alloc());
    image.label(VOL1)?;
    image.label(HDR1)?;
    image.bad(&[b' '; 80])?;
    image.mark()?;
    image.block(b"ONE")?;
    image.trailers(&[EOF_ONE])?;
    image.end()?;
    let lines = "REEL 1 BAD ITEM\nAWAITS 1 1 0\n";
    gives(&rt, true, &image, lines, b"")?;
    gives(&rt, false, &image, lines, b"")
}

#[test]
fn records_of_format_v(rt: HostRuntime) -> Result<(), Fail> {
    // The block's length, 19, and two zeros; then the lengths 7 and 8, each with two zeros.
    let block = b"\x00\x13\x00\x00\x00\x07\x00\x00ABC\x00\x08\x00\x00DEFG";
    let image = volume(rt.alloc(), &[HDR2_V], &[block.as_slice()], EOF_ONE)?;
    gives(
        &rt,
        true,
        &image,
        "REEL 1 COMPLETE\nCOMPLETE 2\n",
        b"ABC\nDEFG\n",
    )?;
    gives(
        &rt,
        false,
        &image,
        "REEL 1 BAD LABEL 4\nAWAITS 1 1 0\n",
        b"",
    )
}

#[test]
fn nuls_behind_the_last_record_are_padding(rt: HostRuntime) -> Result<(), Fail> {
    let block = b"0008ABCD\0\0\0\0\0\0\0\0\0\0\0\0";
    let image = volume(rt.alloc(), &[HDR2_D], &[block.as_slice()], EOF_ONE)?;
    gives(
        &rt,
        true,
        &image,
        "REEL 1 COMPLETE\nCOMPLETE 1\n",
        b"ABCD\n",
    )?;
    gives(
        &rt,
        false,
        &image,
        "REEL 1 BAD BLOCK 3 8\nAWAITS 1 1 0\n",
        b"",
    )
}

#[test]
fn other_bytes_behind_the_last_record_are_not(rt: HostRuntime) -> Result<(), Fail> {
    let block = b"0008ABCD\0\0\0\0\0\0 \0\0\0\0\0";
    let image = volume(rt.alloc(), &[HDR2_D], &[block.as_slice()], EOF_ONE)?;
    let lines = "REEL 1 BAD BLOCK 3 8\nAWAITS 1 1 0\n";
    gives(&rt, true, &image, lines, b"")?;
    gives(&rt, false, &image, lines, b"")
}

#[test]
fn a_valid_set_is_read_as_before(rt: HostRuntime) -> Result<(), Fail> {
    let image = payroll(rt.alloc())?;
    let records = worked_records(rt.alloc(), b"\n")?;
    let lines = "REEL 1 COMPLETE\nCOMPLETE 25\n";
    gives(&rt, true, &image, lines, records.as_slice())?;
    gives(&rt, false, &image, lines, records.as_slice())
}
