//! Tests of surveys of files with second labels beside files without any.
use crate::image::{HDR1, HDR2, Image, VOL1};
use crate::survey::survey;
use crate::survey_wide::{EOF_TWO, FOUND, HDR1_TWO, trailed};
use crate::volumes::EOF_ONE;
use std::alloc::{AllocError, Global};
use std::process::Abort;
use std::test::Fail;
use tape_run::find_files;

/// A second trailer label, and a second header label that says the same.
const EOF2: &str = "EOF2D0051200512                                   00";

const HDR2_D: &str = "HDR2D0051200512                                   00";

/// The labels of a section that continues, and of its continuation.
const EOV_ONE: &str = "EOV1PAYROLL          ABC00100010001000100 00000 00000 000001";

const HDR1_LATER: &str = "HDR1PAYROLL          ABC00100020001000100 00000 00000 000000";

const EOF_LATER: &str = "EOF1PAYROLL          ABC00100020001000100 00000 00000 000001";

/// The lines about a reel without second labels, and one that has them at both ends of its file.
const MIXED: &str = "2 images: 2 ok
2 sets, 2 files: 2 complete
All files are complete, and every image was read to its end.

one.tap                   ok           volume RT11A, written by DECRT11A, 1 section
two.tap                   ok           volume ABC001, 1 section
Set RT11A: 1 of 1 files complete
  Volumes: RT11A
   1 SWAP  .SYS                     complete, blocks (no HDR2)
Set ABC001: 1 of 1 files complete
  Volumes: ABC001
   1 PAYROLL                        complete
";

/// The lines if the reel lost its HDR2.
const MIXED_LOST: &str = "Unsupported: 'tape list' shows it, 'tape salvage --form blocks' its blocks
  RT11A file 1 SWAP  .SYS: HDR2 is lost on each image (one.tap)

2 images: 2 ok
2 sets, 2 files: 1 complete, 1 not readable

one.tap                   ok           volume RT11A, written by DECRT11A, 1 section
two.tap                   ok           volume ABC001, 1 section
Set RT11A: 0 of 1 files complete
  Volumes: RT11A
   1 SWAP  .SYS                     not readable, blocks (no HDR2)
Set ABC001: 1 of 1 files complete
  Volumes: ABC001
   1 PAYROLL                        complete
";

/// Returns a reel of RT-11, whose header and trailer groups end with these labels.
fn rt11(alloc: Global, labels: &[&str], trailers: &[&str]) -> Result<Image, AllocError> {
    let mut image = Image::new(alloc);
    image.label("VOL1RT11A ")?;
    image.label("HDR1SWAP  .SYS       RT11A 00010001000100 00000 00000 000000DECRT11A")?;
    image.headers(labels)?;
    image.block(b"x")?;
    image.mark()?;
    image.label("EOF1SWAP  .SYS       RT11A 00010001000100 00000 00000 000001DECRT11A")?;
    image.headers(trailers)?;
    image.end()?;
    Ok(image)
}

/// Fails unless these are the files on the images, in their order: the first section that is
/// missing, and whether the wider reading may be used.
fn files<H: Abort + AllocGlobal>(
    rt: &H,
    images: &[Option<&[u8]>],
    expected: &[(Option<u16>, bool)],
) -> Result<(), Fail> {
    let mut shelf = Vec::from_slice(rt.alloc(), images)?;
    let met = find_files(rt.alloc(), &mut shelf)?;
    assert!(rt; met.files.as_slice().len() == expected.len());
    for (file, (lacks, wide)) in met.files.as_slice().iter().zip(expected) {
        assert!(rt; file.lacks == *lacks && file.wide == *wide);
    }
    Ok(())
}

/// A reel without second labels is complete beside a set that has them. If its trailer group has
/// an EOF2, its own HDR2 is lost, whatever the others have.
#[test]
fn reels_with_second_labels_and_without(rt: HostRuntime) -> Result<(), Fail> {
    let without = rt11(rt.alloc(), &[], &[])?;
    let lost = rt11(rt.alloc(), &[], &[EOF2])?;
    let with = trailed(rt.alloc(), &[VOL1, HDR1, HDR2_D], &[EOF_ONE, EOF2])?;
    let [without, lost, with] = [&without, &lost, &with].map(|image| Some(image.bytes.as_slice()));
    let names = ["one.tap", "two.tap"];
    survey(&rt, &[without, with], &names, true, MIXED)?;
    files(&rt, &[without, with], &[(None, true), (None, true)])?;
    files(&rt, &[with, without], &[(None, true), (None, true)])?;
    survey(&rt, &[lost, with], &names, false, MIXED_LOST)?;
    files(&rt, &[lost, with], &[(Some(1), false), (None, true)])?;
    files(&rt, &[with, lost], &[(None, true), (Some(1), false)])
}

/// A copy that lost all its second labels is not read without them if another copy, or another
/// section of the file, has one.
#[test]
fn other_copies_and_sections_have_second_labels(rt: HostRuntime) -> Result<(), Fail> {
    let alloc = rt.alloc();
    let none = trailed(alloc, &[VOL1, HDR1], &[EOF_ONE])?;
    let header = trailed(alloc, &[VOL1, HDR1, HDR2_D], &[EOF_ONE])?;
    let trailer = trailed(alloc, &[VOL1, HDR1], &[EOF_ONE, EOF2])?;
    let [none, header, trailer] = [&none, &header, &trailer].map(|image| Some(
        image.bytes.as_slice(),
    ));
    files(&rt, &[none], &[(None, true)])?;
    for images in [[none, header], [header, none]] {
        survey(&rt, &images, &["one.tap", "two.tap"], false, FOUND)?;
        files(&rt, &images, &[(None, false)])?;
    }
    for images in [[none, trailer], [trailer, none]] {
        files(&rt, &images, &[(Some(1), false)])?;
    }
    let eov2 = "EOV2D0051200512                                   00";
    let first = trailed(alloc, &[VOL1, HDR1], &[EOV_ONE, eov2])?;
    let second = trailed(alloc, &["VOL1ABC002", HDR1_LATER], &[EOF_LATER])?;
    let [first, second] = [&first, &second].map(|image| Some(image.bytes.as_slice()));
    files(&rt, &[first, second], &[(Some(1), false)])?;
    files(&rt, &[second, first], &[(Some(1), false)])
}

/// Returns a volume with a section of one block, and without second labels. `second` and `behind`
/// say whether an unreadable item follows its HDR1, and its EOF1 in place of the tape mark.
fn unreadable(alloc: Global, second: bool, behind: bool) -> Result<Image, AllocError> {
    let mut image = Image::new(alloc);
    image.label(VOL1)?;
    image.label(HDR1)?;
    if second {
        image.bad(HDR2.as_bytes())?;
    }
    image.mark()?;
    image.label("0080")?;
    image.mark()?;
    image.label(EOF_ONE)?;
    if behind {
        image.bad(b"mark")?;
    } else {
        image.mark()?;
    }
    image.end()?;
    Ok(image)
}

/// An unreadable item after a trailer label may be a second one, unless a copy without HDR2 has
/// only readable items there.
#[test]
fn copies_that_end_without_second_labels(rt: HostRuntime) -> Result<(), Fail> {
    let alloc = rt.alloc();
    let bare = unreadable(alloc, false, false)?;
    let doubted = unreadable(alloc, false, true)?;
    let unread = unreadable(alloc, true, false)?;
    let trailer = trailed(alloc, &[VOL1, HDR1], &[EOF_ONE, EOF2])?;
    let [bare, doubted, unread, trailer] = [&bare, &doubted, &unread, &trailer].map(|image| Some(
        image.bytes.as_slice(),
    ));
    files(&rt, &[doubted], &[(Some(1), false)])?;
    for images in [[bare, doubted], [doubted, bare]] {
        files(&rt, &images, &[(None, true)])?;
    }
    // The unreadable item after HDR1 may be an HDR2.
    for images in [[unread, doubted], [doubted, unread]] {
        files(&rt, &images, &[(Some(1), false)])?;
    }
    for images in [[bare, trailer, doubted], [doubted, trailer, bare]] {
        files(&rt, &images, &[(Some(1), false)])?;
    }
    Ok(())
}

/// Second labels are looked for file by file, also on one volume.
#[test]
fn files_with_second_labels_and_without(rt: HostRuntime) -> Result<(), Fail> {
    let mut image = Image::new(rt.alloc());
    image.label(VOL1)?;
    image.headers(&[HDR1, HDR2])?;
    image.label("0080")?;
    image.trailers(&[
        EOF_ONE,
        "EOF2F0080000080                                   00",
    ])?;
    image.headers(&[HDR1_TWO])?;
    image.block(b"y")?;
    image.trailers(&[EOF_TWO])?;
    image.end()?;
    let images = [Some(image.bytes.as_slice())];
    files(&rt, &images, &[(None, true), (None, true)])
}
