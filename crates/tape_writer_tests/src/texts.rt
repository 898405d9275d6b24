//! Labels, written out from the positions of their fields.

/// VOL1 of volume ABC001.
pub(crate) const VOL1_FIRST: &[u8; 80] =
    b"VOL1ABC001                                                                     4";

/// VOL1 of volume ABC002.
pub(crate) const VOL1_SECOND: &[u8; 80] =
    b"VOL1ABC002                                                                     4";

/// HDR1 of the first file.
pub(crate) const HDR1: &[u8; 80] =
    b"HDR1PAYROLL          ABC00100010001000100 00000 00000 000000                    ";

/// HDR1 of the second section of the first file.
pub(crate) const HDR1_SECOND_SECTION: &[u8; 80] =
    b"HDR1PAYROLL          ABC00100020001000100 00000 00000 000000                    ";

/// HDR1 of the second file.
pub(crate) const HDR1_SECOND_FILE: &[u8; 80] =
    b"HDR1PAYROLL          ABC00100010002000100 00000 00000 000000                    ";

/// HDR2 of both files.
pub(crate) const HDR2: &[u8; 80] =
    b"HDR2F0080000080                                   00                            ";

/// EOV1 of the first section, after three blocks.
pub(crate) const EOV1: &[u8; 80] =
    b"EOV1PAYROLL          ABC00100010001000100 00000 00000 000003                    ";

/// EOV2.
pub(crate) const EOV2: &[u8; 80] =
    b"EOV2F0080000080                                   00                            ";

/// EOF1 of the first file, after three blocks.
pub(crate) const EOF1: &[u8; 80] =
    b"EOF1PAYROLL          ABC00100010001000100 00000 00000 000003                    ";

/// EOF1 of the first file if it has no blocks.
pub(crate) const EOF1_EMPTY: &[u8; 80] =
    b"EOF1PAYROLL          ABC00100010001000100 00000 00000 000000                    ";

/// EOF1 of the second section if it has no blocks.
pub(crate) const EOF1_SECOND_SECTION: &[u8; 80] =
    b"EOF1PAYROLL          ABC00100020001000100 00000 00000 000000                    ";

/// EOF1 of the second file, after one block.
pub(crate) const EOF1_SECOND_FILE: &[u8; 80] =
    b"EOF1PAYROLL          ABC00100010002000100 00000 00000 000001                    ";

/// EOF2.
pub(crate) const EOF2: &[u8; 80] =
    b"EOF2F0080000080                                   00                            ";
