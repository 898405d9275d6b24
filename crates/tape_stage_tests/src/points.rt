//! Tests of the texts of checkpoints, in both versions.

use crate::fixtures::*;
use std::process::Abort;
use std::test::*;
use tape_core::{Checkpoint, Known};
use tape_label::{Field, Format};
use tape_set::Position;
use tape_stage::{PointFault, read_point, read_wide_point, write_point};

/// A text, a position in it (counted from 1), the characters written at that position, and the
/// fault of the resulting text, unless it is that of a checkpoint.
type Row<'r> = (&'r [u8; 80], usize, &'r str, Option<PointFault>);

const RANGE: Option<PointFault> = Some(PointFault::Range);

const MARK: Option<PointFault> = Some(PointFault::Mark);

const VERSION: Option<PointFault> = Some(PointFault::Version);

/// Returns `text` with `characters` at `position`, counted from 1.
fn with(text: &[u8; 80], position: usize, characters: &str) -> [u8; 80] {
    let mut other = *text;
    let old = other.iter_mut().skip(position.saturating_sub(1));
    for (old, new) in old.zip(characters.as_bytes()) {
        *old = *new;
    }
    other
}

/// Checks that each row has its fault, or none.
fn answers(rt: &impl Abort, name: &str, rows: &[Row<'_>]) {
    for (text, position, characters, fault) in rows {
        let read = read_point(&with(text, *position, characters));
        assert!(rt; read.err() == *fault, "{name}: {characters} at {position}");
    }
}

/// Returns whether `point` has the text `text` in version 2, and is read back from it.
fn is_text(point: &Checkpoint, text: &[u8; 80]) -> bool {
    write_point(point) == *text && read_point(text) == Ok(*point)
}

/// The text of the checkpoint of the complete file, in version 1.
const WHOLE_1: &[u8; 80] =
    b"TPCK1ABC00100010000000000D01F0008000PAYROLL          000000000002125            ";

/// Returns whether the checkpoint is read from both texts.
fn is_read(point: &Checkpoint, one: &[u8; 80], two: &[u8; 80]) -> bool {
    read_point(one) == Ok(*point) && is_text(point, two)
}

#[test]
fn both_versions_of_one_checkpoint(rt: HostRuntime) {
    assert!(rt; is_read(&payroll(), PAYROLL_1, PAYROLL_2));
    assert!(rt; is_read(&start(), START_1, START_2));
    assert!(rt; is_read(&whole(), WHOLE_1, WHOLE_2));
}

#[test]
fn inside_a_block(rt: HostRuntime) {
    let text = b"TPCK2ABC00100010001000000000000001R01D0000000PAYROLL          000000000000007   ";
    let point = Checkpoint {
        file: 1,
        begun: false,
        staged: 7,
        set_id: Field::of_bytes(*b"ABC001"),
        position: awaits(1, 0, 1),
        known: Some(Known {
            format: Format::Counted,
            rec_len: 0,
            offset: 0,
            file_id: Field::of_bytes(*b"PAYROLL          "),
        }),
    };
    assert!(rt; is_text(&point, text));
}

#[test]
fn greatest_numbers_and_any_identifiers(rt: HostRuntime) {
    let text = b"TPCK2\xff\x00 +-\n99999999429496729599999R11S0000099\
        \xff\xff\xff\xff\xff\xff\xff\xff\xff\xff\xff\xff\xff\xff\xff\xff\xff\
        999999999999999   ";
    let point = Checkpoint {
        file: 9999,
        begun: true,
        staged: 999_999_999_999_999,
        set_id: Field::of_bytes(*b"\xff\x00 +-\n"),
        position: awaits(9999, 4_294_967_295, 99_999),
        known: Some(Known {
            format: Format::Spanned,
            rec_len: 0,
            offset: 99,
            file_id: Field::of_bytes([0xff; 17]),
        }),
    };
    assert!(rt; is_text(&point, text));
}

/// Checks that the text is refused because it does not have 80 characters.
fn has_another_length(rt: &impl Abort, text: &[u8]) {
    let length = text.len();
    assert!(rt; read_point(text) == Err(PointFault::Length), "{length}");
}

#[test]
fn any_other_length(rt: HostRuntime) {
    has_another_length(&rt, &PAYROLL_1[..79]);
    has_another_length(&rt, b"");
    let mut longer = [b' '; 81];
    longer[..80].copy_from_slice(PAYROLL_2);
    has_another_length(&rt, &longer);
}

/// Groups of rows, each with a name.
const ROWS: &[(&str, &[Row<'_>])] = &[
    (
        "length, then mark, then version",
        &[
            (PAYROLL_1, 1, "tpck", MARK),
            (PAYROLL_1, 4, "X3", MARK),
            (PAYROLL_1, 5, "0", VERSION),
            (PAYROLL_1, 5, "3", VERSION),
            (PAYROLL_2, 5, " ABC001+", VERSION),
            // The same characters after the digit of the other version are not a valid text.
            (PAYROLL_1, 5, "2", Some(PointFault::Field(20))),
            (PAYROLL_2, 5, "1", Some(PointFault::Field(26))),
        ],
    ),
    (
        "each field of version 1 wrong",
        &[
            (PAYROLL_1, 12, " ", Some(PointFault::Field(12))),
            (PAYROLL_1, 19, "x", Some(PointFault::Field(16))),
            (PAYROLL_1, 20, "+00003", Some(PointFault::Field(20))),
            (PAYROLL_1, 25, ":", Some(PointFault::Field(20))),
            (PAYROLL_1, 26, "r", Some(PointFault::Field(26))),
            (PAYROLL_1, 27, "2", Some(PointFault::Field(27))),
            (PAYROLL_1, 28, " ", Some(PointFault::Field(28))),
            (PAYROLL_1, 29, "V", Some(PointFault::Field(29))),
            (PAYROLL_1, 34, ".", Some(PointFault::Field(30))),
            (PAYROLL_1, 35, "  ", Some(PointFault::Field(35))),
            (PAYROLL_1, 54, " ", Some(PointFault::Field(54))),
            (PAYROLL_1, 68, "/", Some(PointFault::Field(54))),
            (PAYROLL_1, 69, "0", Some(PointFault::Field(69))),
            (PAYROLL_1, 80, "\n", Some(PointFault::Field(69))),
        ],
    ),
    (
        "each field of version 2 wrong",
        &[
            (PAYROLL_2, 15, "-", Some(PointFault::Field(12))),
            (PAYROLL_2, 16, " ", Some(PointFault::Field(16))),
            (PAYROLL_2, 20, "+000000003", Some(PointFault::Field(20))),
            (PAYROLL_2, 29, " ", Some(PointFault::Field(20))),
            (PAYROLL_2, 30, " ", Some(PointFault::Field(30))),
            (PAYROLL_2, 34, "x", Some(PointFault::Field(30))),
            (PAYROLL_2, 35, "0", Some(PointFault::Field(35))),
            (PAYROLL_2, 36, " ", Some(PointFault::Field(36))),
            (PAYROLL_2, 37, "/", Some(PointFault::Field(37))),
            (PAYROLL_2, 38, "f", Some(PointFault::Field(38))),
            (PAYROLL_2, 39, " ", Some(PointFault::Field(39))),
            (PAYROLL_2, 45, ":", Some(PointFault::Field(44))),
            (PAYROLL_2, 63, "+", Some(PointFault::Field(63))),
            (PAYROLL_2, 78, "x", Some(PointFault::Field(78))),
            (PAYROLL_2, 80, "0", Some(PointFault::Field(78))),
        ],
    ),
    (
        "the first wrong field, and fields before the range",
        &[
            (PAYROLL_1, 19, "x+", Some(PointFault::Field(16))),
            (PAYROLL_2, 34, "xx", Some(PointFault::Field(30))),
            (PAYROLL_1, 12, "00000001+", Some(PointFault::Field(20))),
        ],
    ),
    (
        "numbers out of range",
        &[
            (PAYROLL_1, 12, "0000", RANGE),
            (PAYROLL_2, 12, "0000", RANGE),
            (PAYROLL_1, 16, "0000", RANGE),
            (PAYROLL_2, 20, "4294967296", RANGE),
            (PAYROLL_2, 20, "9999999999", RANGE),
        ],
    ),
    (
        "a whole file awaits nothing",
        &[
            (WHOLE_2, 19, "1", RANGE),
            (WHOLE_2, 29, "1", RANGE),
            (WHOLE_2, 34, "1", RANGE),
            // At the end of a file no record is unfinished, not even in format S, and the form is
            // known.
            (WHOLE_2, 36, "11S00000", RANGE),
            (START_2, 16, "0000000000000000000D", RANGE),
        ],
    ),
    (
        "known exactly where the file is not at its start",
        &[
            (PAYROLL_1, 20, "000000", RANGE),
            (PAYROLL_2, 20, "0000000000", RANGE),
            (START_1, 20, "000001", RANGE),
            (START_2, 19, "2", RANGE),
            // A position after one part of the first block is not the start.
            (START_2, 34, "1", RANGE),
        ],
    ),
    (
        "what is said of a file",
        &[
            // A form is not allowed if the form is not known,
            (START_1, 29, "F", RANGE),
            (START_1, 34, "1", RANGE),
            (START_1, 36, "1", RANGE),
            (START_1, 53, "X", RANGE),
            // a format is needed if the form is known,
            (PAYROLL_1, 28, "0", RANGE),
            (PAYROLL_1, 29, " ", RANGE),
            // and a record length is allowed only in format F.
            (PAYROLL_1, 30, "00000", RANGE),
            (PAYROLL_1, 29, "D", RANGE),
            (PAYROLL_1, 29, "S", RANGE),
            (PAYROLL_1, 29, "D00000", None),
            (PAYROLL_1, 29, "S00000", None),
            (PAYROLL_1, 29, "F99999", None),
        ],
    ),
    (
        "records are begun in format S alone",
        &[
            (PAYROLL_1, 27, "1", RANGE),
            (PAYROLL_1, 27, "11D00000", RANGE),
            (PAYROLL_1, 27, "11S00000", None),
            (START_2, 36, "1", RANGE),
        ],
    ),
];

#[test]
fn what_is_read_of_a_text(rt: HostRuntime) {
    for (name, rows) in ROWS {
        answers(&rt, name, rows);
    }
}

/// A text, a position in it, the characters written at that position, the format that the wider
/// reading returns or its fault, and the position of the field that the strict reading refuses.
type InBoth<'r> = (&'r [u8; 80], usize, &'r str, Result<Format, PointFault>, u8);

const FORMATS: &[InBoth<'_>] = &[
    (PAYROLL_1, 29, "U00000", Ok(Format::Undefined), 29),
    (PAYROLL_2, 38, "U00000", Ok(Format::Undefined), 38),
    (PAYROLL_2, 36, "11V00000", Ok(Format::Variable), 38),
    (PAYROLL_2, 36, "11U00000", Err(PointFault::Range), 38),
    (PAYROLL_2, 38, "V00080", Err(PointFault::Range), 38),
    (PAYROLL_2, 38, "V0000x", Err(PointFault::Field(39)), 38),
    (PAYROLL_2, 38, "X00000", Err(PointFault::Field(38)), 38),
];

/// Returns whether both readings answer as the row says.
fn is_format(row: &InBoth<'_>) -> bool {
    let (text, position, characters, wide, strict) = row;
    let text = with(text, *position, characters);
    let same = match (read_wide_point(&text), wide) {
        (Ok(point), Ok(format)) => matches!(point.known, Some(known) if known.format == *format),
        (Err(fault), Err(wanted)) => fault == *wanted,
        _ => false,
    };
    same && read_point(&text) == Err(PointFault::Field(*strict))
}

#[test]
fn formats_in_both_readings(rt: HostRuntime) {
    for row in FORMATS {
        assert!(rt; is_format(row), "{} at {}", row.2, row.1);
    }
}

/// A text, a position in it, the characters written at that position, and the position of the
/// resulting checkpoint (section, block and part), or `None`.
const GOES_ON: &[(&[u8; 80], usize, &str, Option<(u16, u32, u32)>)] = &[
    (PAYROLL_2, 20, "4294967295", Some((1, 4_294_967_295, 0))),
    // In version 1 block numbers have six digits.
    (PAYROLL_1, 20, "999999", Some((1, 999_999, 0))),
    (PAYROLL_2, 20, "000000000000001", Some((1, 0, 1))),
    (WHOLE_2, 1, "", None),
    (WHOLE_2, 38, "S00000", None),
];

/// Returns whether the resulting text has the position `at`.
fn goes_on(
    text: &[u8; 80],
    position: usize,
    characters: &str,
    at: Option<(u16, u32, u32)>,
) -> bool {
    let wanted = match at {
        Some((sect, block, part)) => awaits(sect, block, part),
        None => Position::Finished,
    };
    match read_point(&with(text, position, characters)) {
        Ok(point) => point.position() == wanted,
        Err(_) => false,
    }
}

#[test]
fn where_a_text_goes_on(rt: HostRuntime) {
    for (text, position, characters, at) in GOES_ON {
        assert!(rt;
            goes_on(text, *position, characters, *at),
            "{characters} at {position}"
        );
    }
}

const NUMBERS: &[(PointFault, u8)] = &[
    (PointFault::Length, 1),
    (PointFault::Mark, 2),
    (PointFault::Version, 3),
    (PointFault::Field(78), 4),
    (PointFault::Range, 5),
];

#[test]
fn faults_have_numbers(rt: HostRuntime) {
    for (fault, number) in NUMBERS {
        assert!(rt; fault.number() == *number, "{number}");
    }
}
