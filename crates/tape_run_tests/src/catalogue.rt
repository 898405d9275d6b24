//! Tests of catalogues over images that are written out from their format.
use crate::image::{EOF_FIVE, EOF_THREE};
use crate::scripts::{Reel, image_of};
use crate::sections::numbered;
use crate::volumes::EOF_FOUR;
use std::alloc::Global;
use std::test::Fail;
use tape_image::{ImageCause, ImageFault};
use tape_label::Field;
use tape_run::ImageStop::{Marked, Physical};
use tape_run::SectionState::{Bad, Count, Cut, Good};
use tape_run::{
    Catalogue, ImageLine, ImageStop, Lack, RunFault, SectionLine, SectionState, check_set,
};

/// A section that was found: the set, the file, the section, the volume, its number of blocks, and
/// its state.
type Found<'a> = (&'a [u8; 6], u16, u16, &'a [u8; 6], u32, SectionState);

/// A missing section: the set, the file and the section.
type Missing<'a> = (&'a [u8; 6], u16, u16);

/// The identifier of the set, and of its first volume.
const ABC: &[u8; 6] = b"ABC001";

/// The example file in five blocks: with a bad one, truncated after the first, complete, and with
/// another count.
const ONE_BAD: Reel<'_> = Reel::Five(3, EOF_FIVE);

const CUT_SHORT: Reel<'_> = Reel::FiveCut(268 + 408);

const WHOLE: Reel<'_> = Reel::Five(5, EOF_FIVE);

const COUNTED: Reel<'_> = Reel::Five(5, EOF_FOUR);

/// Sections of one block: of file 2 of set XYZ001, and of file 1 of set ABC001, section 3 and
/// section 1.
const STOCK: Reel<'_> = Reel::Section(
    "HDR1STOCK            XYZ00100010002000100 00000 00000 000000",
    "EOF1STOCK            XYZ00100010002000100 00000 00000 000001",
);

const THIRD: Reel<'_> = Reel::Section(
    "HDR1PAYROLL          ABC00100030001000100 00000 00000 000000",
    "EOF1PAYROLL          ABC00100030001000100 00000 00000 000001",
);

const FIRST: Reel<'_> = Reel::Section(
    "HDR1PAYROLL          ABC00100010001000100 00000 00000 000000",
    "EOV1PAYROLL          ABC00100010001000100 00000 00000 000001",
);

/// The end of the example image if it is truncated inside its last data block.
const CUT_OFF: ImageStop = ImageStop::Fault(ImageFault {
    place: 1884,
    cause: ImageCause::Truncated,
});

/// A test case: a name; images, each with its number of items and how it ends; the lines of the
/// catalogue; and the missing sections.
type Row<'a> = (
    &'a str,
    &'a [(Reel<'a>, u32, ImageStop)],
    &'a [Found<'a>],
    &'a [Missing<'a>],
);

const ROWS: &[Row<'_>] = &[
    (
        "two volumes",
        &[
            (Reel::FirstOfTwo, 12, Marked),
            (Reel::SecondOfTwo, 9, Marked),
        ],
        &[(ABC, 1, 1, ABC, 3, Good), (ABC, 1, 2, b"ABC002", 0, Good)],
        &[],
    ),
    (
        "the first volume alone",
        &[(Reel::FirstOfTwo, 12, Marked)],
        &[(ABC, 1, 1, ABC, 3, Good)],
        &[(ABC, 1, 2)],
    ),
    (
        "a bad section stays so",
        &[(ONE_BAD, 14, Marked), (CUT_SHORT, 5, Physical)],
        &[(ABC, 1, 1, ABC, 5, Bad)],
        &[(ABC, 1, 1)],
    ),
    (
        "until it is whole",
        &[
            (ONE_BAD, 14, Marked),
            (CUT_SHORT, 5, Physical),
            (WHOLE, 14, Marked),
        ],
        &[(ABC, 1, 1, ABC, 5, Good)],
        &[],
    ),
    (
        "cut behind the last block",
        &[(Reel::Cut(2292), 7, Physical)],
        &[(ABC, 1, 1, ABC, 3, Cut)],
        &[(ABC, 1, 1)],
    ),
    (
        "cut in a word",
        &[(Reel::Cut(1885), 6, CUT_OFF)],
        &[(ABC, 1, 1, ABC, 2, Cut)],
        &[(ABC, 1, 1)],
    ),
    (
        "a count of four",
        &[(COUNTED, 14, Marked)],
        &[(ABC, 1, 1, ABC, 5, Count)],
        &[(ABC, 1, 1)],
    ),
    (
        "no bytes, and a blank volume",
        &[(Reel::Empty, 0, Physical), (Reel::Blank, 3, Marked)],
        &[],
        &[],
    ),
    // File 1 of set XYZ001 was not found, and neither was section 2 of ABC001.
    (
        "each set lacks its own",
        &[(STOCK, 9, Marked), (THIRD, 9, Marked), (FIRST, 9, Marked)],
        &[
            (b"XYZ001", 2, 1, ABC, 1, Good),
            (ABC, 1, 3, ABC, 1, Good),
            (ABC, 1, 1, ABC, 1, Good),
        ],
        &[(b"XYZ001", 1, 1), (ABC, 1, 2)],
    ),
    (
        "a million and three blocks",
        &[(Reel::Blocks(1_000_003, EOF_THREE), 1_000_011, Marked)],
        &[(ABC, 1, 1, ABC, 1_000_003, Good)],
        &[],
    ),
];

/// Returns whether adding the image is reported as in `line`.
fn adds(
    alloc: Global,
    catalogue: &mut Catalogue,
    reel: Reel<'_>,
    line: ImageLine,
) -> Result<bool, Fail> {
    let image = image_of(alloc, reel)?;
    Ok(catalogue.add(&mut image.bytes.as_slice())? == line)
}

/// Returns whether the lines `found` are the expected ones.
fn are_lines(found: &[SectionLine], lines: &[Found<'_>]) -> bool {
    for (found, (set_id, file, sect, volume, blocks, state)) in found.iter().zip(lines) {
        let line = SectionLine {
            set_id: Field::of_bytes(**set_id),
            file: *file,
            sect: *sect,
            volume: Field::of_bytes(**volume),
            blocks: *blocks,
            state: *state,
        };
        if *found != line {
            return false;
        }
    }
    found.len() == lines.len()
}

/// Returns whether the missing sections `found` are the expected ones.
fn are_lacking(found: &[Lack], lacks: &[Missing<'_>]) -> bool {
    for (found, (set_id, file, sect)) in found.iter().zip(lacks) {
        let lack = Lack {
            set_id: Field::of_bytes(**set_id),
            file: *file,
            sect: *sect,
        };
        if *found != lack {
            return false;
        }
    }
    found.len() == lacks.len()
}

/// Returns whether the catalogue has the lines `lines` and the missing sections `lacks`.
fn reports(
    alloc: Global,
    catalogue: &Catalogue,
    lines: &[Found<'_>],
    lacks: &[Missing<'_>],
) -> Result<bool, RunFault> {
    let report = check_set(alloc, catalogue)?;
    let lacks = are_lacking(report.lacks.as_slice(), lacks);
    Ok(are_lines(report.lines.as_slice(), lines) && lacks)
}

/// Returns whether the images of `row` are reported as `row` says.
fn is_told(alloc: Global, row: &Row<'_>) -> Result<bool, Fail> {
    let (_, images, lines, lacks) = row;
    let mut catalogue = Catalogue::new(alloc);
    let mut told = true;
    for (reel, items, stop) in *images {
        let line = ImageLine {
            items: *items,
            stop: *stop,
        };
        told = adds(alloc, &mut catalogue, *reel, line)? && told;
    }
    Ok(reports(alloc, &catalogue, lines, lacks)? && told)
}

#[test]
fn images_and_sections_are_told(rt: HostRuntime) -> Result<(), Fail> {
    for row in ROWS {
        assert!(rt; is_told(rt.alloc(), row)?, "{}", row.0);
    }
    Ok(())
}

/// Adds all sections that a file can have, each of which continues. Returns the number of sections,
/// and whether only the one after them is missing.
fn of_all_sections(alloc: Global) -> Result<(usize, bool), Fail> {
    let mut catalogue = Catalogue::new(alloc);
    for number in 1..10000u16 {
        let image = numbered(alloc, number)?;
        catalogue.add(&mut image.bytes.as_slice())?;
    }
    let report = check_set(alloc, &catalogue)?;
    let lacks = are_lacking(report.lacks.as_slice(), &[(ABC, 1, 10000)]);
    Ok((report.lines.as_slice().len(), lacks))
}

#[test]
fn the_last_section_number_goes_on(rt: HostRuntime) -> Result<(), Fail> {
    assert!(rt; of_all_sections(rt.alloc())? == (9999, true));
    Ok(())
}
