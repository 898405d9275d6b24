//! Tests of surveys of files that only the wider reading reads.
use crate::image::{HDR1, HDR2, Image, VOL1};
use crate::survey::survey;
use crate::volumes::EOF_ONE;
use std::alloc::{AllocError, Global};
use std::test::Fail;

/// The labels of a second file.
pub const HDR1_TWO: &str = "HDR1LEDGER           ABC00100010002000100 00000 00000 000000";

pub const EOF_TWO: &str = "EOF1LEDGER           ABC00100010002000100 00000 00000 000001";

/// A block of one record in format V.
const WORDS: &[u8] = &[0, 9, 0, 0, 0, 5, 0, 0, b'x'];

/// What follows HDR1 in files that are complete, a block, and the words about the format: HDR2 of
/// formats U and V, HDR2 with blank lengths, a further header label without HDR2, and no label.
const SECONDS: &[(&[&str], &[u8], &str)] = &[
    (
        &["HDR2U0000000000                                   00"],
        b"x",
        ", U",
    ),
    (
        &["HDR2V0000000000                                   00"],
        WORDS,
        ", V",
    ),
    (
        &["HDR2V0000000000                       B           00"],
        WORDS,
        ", VB",
    ),
    (
        &["HDR2V0000000000                       S           00"],
        WORDS,
        ", VS",
    ),
    (
        &["HDR2V0000000000                       R           00"],
        WORDS,
        ", VBS",
    ),
    (
        &["HDR2V0000000000                      B            00"],
        WORDS,
        ", V",
    ),
    (
        &["HDR2U0000000000                       B           00"],
        b"x",
        ", U",
    ),
    (&["HDR2U"], b"x", ", U"),
    (&["HDR2D"], b"0005x", ""),
    (&["HDR3"], b"x", ", blocks (no HDR2)"),
    (&["UHL1"], b"x", ", blocks (no HDR2)"),
    (&[], b"x", ", blocks (no HDR2)"),
];

/// The lines before the words about the format.
const COMPLETE: &str = "1 image: 1 ok
1 set, 1 file: 1 complete
All files are complete, and every image was read to its end.

one.tap                   ok           volume ABC001, 1 section
Set ABC001: 1 of 1 files complete
  Volumes: ABC001
   1 PAYROLL                        complete";

const AGREED: &str = "2 images: 2 ok
1 set, 2 files: 2 complete
1 section with several good copies that agree
All files are complete, and every image was read to its end.

one.tap                   ok           volume ABC001, 2 sections
two.tap                   ok           volume ABC001, 1 section
Set ABC001: 2 of 2 files complete
  Volumes: ABC001
   1 PAYROLL                        complete
   2 LEDGER                         complete, blocks (no HDR2)
ABC001 file 2 section 1: good, 2 copies agree
";

const DISPUTED: &str = "In conflict: find out which is right ('tape compare', 'tape list')
  ABC001 file 2 section 1: good copies on one.tap and two.tap differ

2 images: 0 ok, 2 in conflict
1 set, 2 files: 1 complete, 1 in conflict

one.tap                   in conflict  volume ABC001, 2 sections
    section 1 of file 2: good copies differ
two.tap                   in conflict  volume ABC001, 1 section
    section 1 of file 2: good copies differ
Set ABC001: 1 of 2 files complete
  Volumes: ABC001
   1 PAYROLL                        complete
   2 LEDGER                         in conflict, blocks (no HDR2)
";

/// Returns a volume with one section, in which HDR1 is followed by `labels`, with one block.
fn volume(alloc: Global, labels: &[&str], block: &[u8]) -> Result<Image, AllocError> {
    let mut image = Image::new(alloc);
    image.label(VOL1)?;
    image.label(HDR1)?;
    image.headers(labels)?;
    image.block(block)?;
    image.trailers(&[EOF_ONE])?;
    image.end()?;
    Ok(image)
}

/// Returns a volume with the second file, without HDR2, of one block; the first file precedes it if
/// `both` is true.
fn second_file(alloc: Global, both: bool, block: &[u8]) -> Result<Image, AllocError> {
    let mut image = Image::new(alloc);
    image.label(VOL1)?;
    if both {
        image.headers(&[HDR1, HDR2])?;
        image.records(0, 1, true)?;
        image.trailers(&[EOF_ONE])?;
    }
    image.headers(&[HDR1_TWO])?;
    image.block(block)?;
    image.trailers(&[EOF_TWO])?;
    image.end()?;
    Ok(image)
}

/// Files of formats U and V, and files without HDR2, are found complete.
#[test]
fn other_formats(rt: HostRuntime) -> Result<(), Fail> {
    for (labels, block, words) in SECONDS {
        let image = volume(rt.alloc(), labels, block)?;
        let images = [Some(image.bytes.as_slice())];
        let lines = format!(in rt.alloc(); "{COMPLETE}{words}\n")?;
        survey(&rt, &images, &["one.tap"], true, &lines)?;
    }
    Ok(())
}

/// Copies of a section without HDR2 are compared by its blocks alone, whatever precedes it.
#[test]
fn copies_without_second_labels(rt: HostRuntime) -> Result<(), Fail> {
    let first = second_file(rt.alloc(), true, b"y")?;
    let same = second_file(rt.alloc(), false, b"y")?;
    let other = second_file(rt.alloc(), false, b"z")?;
    let [first, same, other] = [&first, &same, &other].map(|image| Some(image.bytes.as_slice()));
    let names = ["one.tap", "two.tap"];
    survey(&rt, &[first, same], &names, true, AGREED)?;
    survey(&rt, &[first, other], &names, false, DISPUTED)
}

/// The lines about a file whose HDR2 is lost: its trailer labels say that there was one.
const LOST: &str = "Unsupported: 'tape list' shows it, 'tape salvage --form blocks' its blocks
  ABC001 file 1 PAYROLL: HDR2 is lost on each image (one.tap)

1 image: 1 ok
1 set, 1 file: 0 complete, 1 not readable

one.tap                   ok           volume ABC001, 1 section
Set ABC001: 0 of 1 files complete
  Volumes: ABC001
   1 PAYROLL                        not readable, blocks (no HDR2)
";

/// The lines if another image has its HDR2.
pub const FOUND: &str = "Suspect: look at it with 'tape list'
  ABC001 file 1 PAYROLL: HDR2 is lost on an image, and was found on another

2 images: 2 ok
1 set, 1 file: 1 complete
1 section with several good copies that agree

one.tap                   ok           volume ABC001, 1 section
two.tap                   ok           volume ABC001, 1 section
Set ABC001: 1 of 1 files complete
  Volumes: ABC001
   1 PAYROLL                        complete
ABC001 file 1 section 1: good, 2 copies agree
";

/// The lines about a section whose trailer label names another file.
const OVERWRITTEN: &str = "In conflict: find out which is right ('tape compare', 'tape list')
  ABC001 file 1 PAYROLL: labels of different files, on one.tap

1 image: 1 ok
1 set, 1 file: 0 complete, 1 in conflict

one.tap                   ok           volume ABC001, 1 section
Set ABC001: 0 of 1 files complete
  Volumes: ABC001
   1 PAYROLL                        in conflict
";

/// Returns a volume with one section with these header labels and trailer labels. Its block is one
/// record of 80 characters in format F, and in format D.
pub fn trailed(alloc: Global, labels: &[&str], trailers: &[&str]) -> Result<Image, AllocError> {
    let mut image = Image::new(alloc);
    image.headers(labels)?;
    image.label("0080")?;
    image.trailers(trailers)?;
    image.end()?;
    Ok(image)
}

/// A file that has lost its HDR2 is not taken for one without.
#[test]
fn a_lost_second_label(rt: HostRuntime) -> Result<(), Fail> {
    let trailers = &[
        EOF_ONE,
        "EOF2D0051200512                                   00",
    ];
    let lost = trailed(rt.alloc(), &[VOL1, HDR1], trailers)?;
    let other = trailed(
        rt.alloc(),
        &[
            VOL1,
            HDR1,
            "HDR2D0051200512                                   00",
        ],
        trailers,
    )?;
    let [lost, other] = [&lost, &other].map(|image| Some(image.bytes.as_slice()));
    survey(&rt, &[lost], &["one.tap"], false, LOST)?;
    let names = ["one.tap", "two.tap"];
    survey(&rt, &[lost, other], &names, false, FOUND)?;
    survey(&rt, &[other, lost], &names, false, FOUND)
}

/// A section whose trailer label is that of another file was written over: by its file identifier,
/// its creation date or its generation.
#[test]
fn a_section_with_the_trailer_label_of_another_file(rt: HostRuntime) -> Result<(), Fail> {
    let others = [
        "EOF1LEDGER           ABC00100010001000100 00000 00000 000001",
        "EOF1PAYROLL          ABC00100010001000100 85113 00000 000001",
        "EOF1PAYROLL          ABC00100010001000200 00000 00000 000001",
    ];
    for other in others {
        let image = trailed(rt.alloc(), &[VOL1, HDR1, HDR2], &[other])?;
        survey(
            &rt,
            &[Some(image.bytes.as_slice())],
            &["one.tap"],
            false,
            OVERWRITTEN,
        )?;
    }
    Ok(())
}

/// The lines about two copies of a section whose second labels differ.
const TWO_FORMS: (&str, &str) = (
    "In conflict: find out which is right ('tape compare', 'tape list')
  ABC001 file 1 PAYROLL: labels of different files, on one.tap and two.tap
",
    "
2 images: 2 ok
1 set, 1 file: 0 complete, 1 in conflict
1 section with several good copies that agree

one.tap                   ok           volume ABC001, 1 section
two.tap                   ok           volume ABC001, 1 section
Set ABC001: 0 of 1 files complete
  Volumes: ABC001
   1 PAYROLL                        in conflict
ABC001 file 1 section 1: good, 2 copies agree
",
);

/// The line about a block that is not in the format of its copy.
const NOT_IN_FORMAT: &str =
    "Unsupported: 'tape list' shows it, 'tape salvage --form blocks' its blocks
  ABC001 file 1 PAYROLL: section 1, block 0 is not as HDR2 states (one.tap)
";

/// Two copies of a section with different second labels are not of one recording, whatever their
/// blocks.
#[test]
fn copies_with_other_second_labels(rt: HostRuntime) -> Result<(), Fail> {
    let first = trailed(rt.alloc(), &[VOL1, HDR1, HDR2], &[EOF_ONE])?;
    for (second, line) in [
        ("HDR2D0080000080                                   00", ""),
        ("HDR2F0040000080                                   00", ""),
        ("HDR2F0080000040                                   00", ""),
        (
            "HDR2F0080000080                                   04",
            NOT_IN_FORMAT,
        ),
    ] {
        let other = trailed(rt.alloc(), &[VOL1, HDR1, second], &[EOF_ONE])?;
        let [first, other] = [&first, &other].map(|image| Some(image.bytes.as_slice()));
        let names = ["one.tap", "two.tap"];
        let lines = format!(in rt.alloc(); "{}{line}{}", TWO_FORMS.0, TWO_FORMS.1)?;
        survey(&rt, &[first, other], &names, false, &lines)?;
    }
    Ok(())
}
