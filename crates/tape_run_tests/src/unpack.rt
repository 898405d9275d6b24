//! Tests of the files on images, and of their names.
use crate::image::{HDR1, Image, payroll};
use crate::sections::{first_of_two, one_section, second_of_two};
use crate::volumes::EOF_ONE;
use std::alloc::{AllocError, Global};
use std::process::Abort;
use std::test::Fail;
use tape_label::Field;
use tape_run::{FileChoice, SetFile, UnpackOutcome, file_line, file_name, find_files, means};

/// Returns the line about a file: its name, or the text in place of the name.
fn line_of(alloc: Global, file: &SetFile) -> Result<Vec<u8>, AllocError> {
    if file.differs {
        return file_line(alloc, file, UnpackOutcome::Conflict, b"", "");
    }
    let name = file_name(&file.set_id, file.file, &file.file_id);
    file_line(alloc, file, UnpackOutcome::Ready, &name, "out/a\n")
}

/// Fails unless the files on `images` have the lines `lines`; `whole` says whether all images were
/// read completely.
pub fn found<H: Abort + AllocGlobal>(
    rt: &H,
    images: &[Option<&[u8]>],
    whole: bool,
    lines: &str,
) -> Result<(), Fail> {
    let mut shelf = Vec::from_slice(rt.alloc(), images)?;
    let met = find_files(rt.alloc(), &mut shelf)?;
    let mut told = Vec::new(rt.alloc());
    for file in met.files.as_slice() {
        let line = line_of(rt.alloc(), file)?;
        told.extend_from_slice(line.as_slice())?;
    }
    assert_eq!(rt; told.as_slice(), lines.as_bytes(), "{lines}");
    assert!(rt; met.whole == whole, "{lines}");
    Ok(())
}

/// Returns the third file of a set, alone on its volume.
fn third(alloc: Global) -> Result<Image, AllocError> {
    one_section(
        alloc,
        "HDR1TH/RD            AB. 0100010003000100 00000 00000 000000",
        "EOF1TH/RD            AB. 0100010003000100 00000 00000 000001",
    )
}

#[test]
fn files_of_shelves(rt: HostRuntime) -> Result<(), Fail> {
    let alloc = rt.alloc();
    let (first, second) = (first_of_two(alloc)?, second_of_two(alloc)?);
    let (whole, third) = (payroll(alloc)?, third(alloc)?);
    let other = one_section(
        alloc,
        "HDR1LEDGER           ABC00100010001000100 00000 00000 000000",
        EOF_ONE,
    )?;
    let shorter = one_section(alloc, HDR1, EOF_ONE)?;
    let images = [&first, &second, &whole, &third, &other, &shorter];
    let [first, second, whole, third, other, shorter] = images.map(|image| Some(
        image.bytes.as_slice(),
    ));
    let payroll = "FILE ABC001 1 READYABC001.1.PAYROLL out/a\\u000A\n";
    let thirds = "FILE AB. 01 3 READYAB%2E_01.3.TH%2FRD out/a\\u000A\n";
    let mixed = "FILE ABC001 1 CONFLICT\n";
    found(&rt, &[], true, "")?;
    found(&rt, &[None], false, "")?;
    found(&rt, &[second, first], true, payroll)?;
    found(&rt, &[whole, None], false, payroll)?;
    found(&rt, &[third], true, thirds)?;
    found(&rt, &[whole, other], true, mixed)?;
    found(&rt, &[whole, shorter], true, mixed)?;
    found(&rt, &[whole, whole], true, payroll)
}

/// Header labels, one on each image: what is between `HDR1` and the expiration date; and the
/// numbers of the two images in conflict, if there are any.
const LABELS: &[(&[&str], Option<(usize, usize)>)] = &[
    // The sections of a file were created on different days.
    (
        &[
            "PAYROLL          ABC00100010001000100 85010",
            "PAYROLL          ABC00100020001000200 85011",
            "PAYROLL          ABC00100010001000100 85010",
        ],
        None,
    ),
    // Two labels of one section have different dates or generations, whatever was found before.
    (
        &[
            "PAYROLL          ABC00100010001000100 85010",
            "PAYROLL          ABC00100010001000100 85017",
        ],
        Some((0, 1)),
    ),
    (
        &[
            "PAYROLL          ABC00100010001000100 85010",
            "PAYROLL          ABC00100020001000100 85011",
            "PAYROLL          ABC00100010001000100 85010",
            "PAYROLL          ABC00100020001000100 85018",
            "PAYROLL          ABC00100010001000100 85017",
        ],
        Some((1, 3)),
    ),
    (
        &[
            "PAYROLL          ABC00100020001000100 85010",
            "PAYROLL          ABC00100010001000100 85010",
            "PAYROLL          ABC00100010001000200 85010",
        ],
        Some((1, 2)),
    ),
    // The identifiers of all sections are compared.
    (
        &[
            "PAYROLL          ABC00100010001000100 85010",
            "PAYROLL          ABC00100030001000100 85010",
            "STOCK            ABC00100020001000100 85010",
        ],
        Some((0, 2)),
    ),
    // The labels of other files and sets are not.
    (
        &[
            "STOCK            ABC00200010001000100 85010",
            "PAYROLL          ABC00100010001000100 85010",
            "STOCK            ABC00100010002000100 85017",
        ],
        None,
    ),
];

#[test]
fn labels_in_conflict(rt: HostRuntime) -> Result<(), Fail> {
    let alloc = rt.alloc();
    for (labels, conflict) in LABELS {
        let mut images = Vec::new(alloc);
        for label in *labels {
            let header = format!(in alloc; "HDR1{label} 00000 000000")?;
            let trailer = format!(in alloc; "EOF1{label} 00000 000001")?;
            images.push(one_section(alloc, header.as_str(), trailer.as_str())?)?;
        }
        let mut shelf = Vec::new(alloc);
        for image in images.as_slice() {
            shelf.push(Some(image.bytes.as_slice()))?;
        }
        let met = find_files(alloc, &mut shelf)?;
        let mut found = None;
        for file in met.files.as_slice() {
            assert!(rt; file.differs == file.conflict.is_some());
            found = found.or(file.conflict);
        }
        assert_eq!(rt; found, *conflict);
    }
    Ok(())
}

/// The two images with complete copies that differ are those of one section.
#[test]
fn copies_in_conflict(rt: HostRuntime) -> Result<(), Fail> {
    let alloc = rt.alloc();
    let (first, second) = (first_of_two(alloc)?, second_of_two(alloc)?);
    let shorter = one_section(alloc, HDR1, EOF_ONE)?;
    let [first, second, shorter] = [&first, &second, &shorter].map(|image| Some(
        image.bytes.as_slice(),
    ));
    let mut shelf = Vec::from_slice(alloc, &[second, first, second, shorter])?;
    let met = find_files(alloc, &mut shelf)?;
    let conflict = met.files.as_slice().first().and_then(|file| file.conflict);
    assert_eq!(rt; conflict, Some((1, 3)));
    // Two copies with the same blocks, of which one ends the file.
    let whole = payroll(alloc)?;
    let whole = Some(whole.bytes.as_slice());
    for images in [[whole, first, second], [first, whole, second]] {
        let mut shelf = Vec::from_slice(alloc, &images)?;
        let met = find_files(alloc, &mut shelf)?;
        let conflict = met.files.as_slice().first().and_then(|file| file.conflict);
        assert_eq!(rt; conflict, Some((0, 1)));
    }
    Ok(())
}

/// Words, the name of file 12, and whether the word means the file.
const MEANT: &[(&str, &[u8; 17], bool)] = &[
    ("12", b"PAYROLL          ", true),
    ("012", b"PAYROLL          ", false),
    ("1", b"PAYROLL          ", false),
    ("1*", b"PAYROLL          ", false),
    ("12", b"99               ", true),
    ("99", b"99               ", true),
    ("PAYROLL", b"PAYROLL          ", true),
    ("payroll", b"PAYROLL          ", false),
    ("PAYROL", b"PAYROLL          ", false),
    ("PAYROLLS", b"PAYROLL          ", false),
    ("", b"PAYROLL          ", false),
    ("", b"                 ", true),
    ("*", b"                 ", true),
    ("*", b"A.B C            ", true),
    ("A*", b"A                ", true),
    ("*A", b"A                ", true),
    ("*.DAT", b"LEDGER.DAT       ", true),
    ("*.DAT", b"LEDGER.DAT.OLD   ", false),
    ("*.DAT*", b"LEDGER.DAT.OLD   ", true),
    ("*DAT", b"DADADAT          ", true),
    ("*AB*AC*", b"ABABAAC          ", true),
    ("*AB*AC*", b"ACABAAB          ", false),
    ("A**C", b"ABC              ", true),
    ("A*B*C", b"ACB              ", false),
    ("*A*A*A*A*A*A*A*A*B", b"AAAAAAAAAAAAAAAAA", false),
    ("*************A", b"AAAAAAAAAAAAAAAAB", false),
    ("A?C", b"A\x00C              ", true),
    ("A\u{fc}", b"A\xfc               ", false),
];

#[test]
fn words_mean_files(rt: HostRuntime) {
    for (word, name, is_meant) in MEANT {
        let file = SetFile {
            set_id: Field::of_bytes(*b"ABC001"),
            file: 12,
            file_id: Field::of_bytes(**name),
            created: Field::of_bytes(*b" 85113"),
            differs: false,
            conflict: None,
            lacks: None,
            wide: true,
        };
        assert!(rt; means(*word, &file) == *is_meant, "{word}");
        for (set_id, is_of_set) in [
            (None, true),
            (Some(*b"ABC001"), true),
            (Some(*b"ABC002"), false),
        ] {
            let choice = FileChoice {
                set_id: set_id.map(Field::of_bytes),
                words: &[*word, "no other"],
            };
            assert!(rt; choice.chooses(&file) == (is_of_set && *is_meant), "{word}");
        }
    }
}
