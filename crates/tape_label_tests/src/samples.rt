//! The labels of a volume with one file of 25 records of 80 bytes, in three blocks of up to 800
//! bytes, and their values.

ghost use Rattle.tape_label.specs.Head1.{HeadFits};
ghost use Rattle.tape_label.specs.Head2.{Head2Fits};
ghost use Rattle.tape_label.specs.Trail1.{TrailFits};

use tape_label::{Field, Format, Head1, Head2, Trail1, Vol1};

pub(crate) const VOL1: &[u8; 80] =
    b"VOL1ABC001                                                                     4";

pub(crate) const HDR1: &[u8; 80] =
    b"HDR1PAYROLL          ABC00100010001000100 00000 00000 000000                    ";

pub(crate) const HDR2: &[u8; 80] =
    b"HDR2F0080000080                                   00                            ";

pub(crate) const EOF1: &[u8; 80] =
    b"EOF1PAYROLL          ABC00100010001000100 00000 00000 000003                    ";

pub(crate) const EOF2: &[u8; 80] =
    b"EOF2F0080000080                                   00                            ";

pub(crate) const EOV1: &[u8; 80] =
    b"EOV1PAYROLL          ABC00100010001000100 00000 00000 000003                    ";

pub(crate) const EOV2: &[u8; 80] =
    b"EOV2F0080000080                                   00                            ";

pub(crate) fn volume() -> Vol1 {
    Vol1 {
        volume: Field::of_bytes(*b"ABC001"),
        access: b' ',
        implementation: Field::of_bytes([b' '; 13]),
        owner: Field::of_bytes([b' '; 14]),
        version: b'4',
    }
}

pub(crate) fn head() -> Head1
    ensures { HeadFits result }
{
    Head1 {
        file_id: Field::of_bytes(*b"PAYROLL          "),
        set_id: Field::of_bytes(*b"ABC001"),
        sect: 1,
        sequence: 1,
        generation: Field::of_bytes(*b"0001"),
        gen_version: Field::of_bytes(*b"00"),
        created: Field::of_bytes(*b" 00000"),
        expires: Field::of_bytes(*b" 00000"),
        access: b' ',
        implementation: Field::of_bytes([b' '; 13]),
    }
}

pub(crate) fn second() -> Head2
    ensures { Head2Fits result }
{
    Head2 {
        format: Format::Fixed,
        block_len: 800,
        rec_len: 80,
        offset: 0,
    }
}

pub(crate) fn trailer(eof: bool) -> Trail1
    ensures { TrailFits result }
{
    Trail1 {
        eof,
        head: head(),
        blocks: 3,
    }
}
