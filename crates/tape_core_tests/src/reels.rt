//! Labels, written out by hand, and changes to them.

pub(crate) const VOL1: &[u8; 80] =
    b"VOL1ABC001                                                                     4";

pub(crate) const UVL1: &[u8; 80] =
    b"UVL1 whatever the user wrote                                                    ";

pub(crate) const HDR1: &[u8; 80] =
    b"HDR1PAYROLL          ABC00100010001000100 00000 00000 000000                    ";

pub(crate) const EOF1: &[u8; 80] =
    b"EOF1PAYROLL          ABC00100010001000100 00000 00000 000000                    ";

pub(crate) const EOV1: &[u8; 80] =
    b"EOV1PAYROLL          ABC00100010001000100 00000 00000 000000                    ";

/// HDR2 of format F, with record length 4.
pub(crate) const HDR2: &[u8; 80] =
    b"HDR2F0080000004                                   00                            ";

pub(crate) const EOF2: &[u8; 80] =
    b"EOF2F0080000004                                   00                            ";

/// HDR2 of format D.
pub(crate) const HDR2_D: &[u8; 80] =
    b"HDR2D0001800014                                   00                            ";

/// HDR2 of format S.
pub(crate) const HDR2_S: &[u8; 80] =
    b"HDR2S0001800000                                   00                            ";

pub(crate) const HDR3: &[u8; 80] =
    b"HDR3 of some system                                                             ";

/// Returns the label with section number `sect`.
pub(crate) fn in_section(label: &[u8; 80], sect: &[u8; 4]) -> [u8; 80] {
    let mut label = *label;
    label[27..31].copy_from_slice(sect);
    label
}

/// Returns the label with section number `sect` and sequence number `sequence`.
pub(crate) fn numbered(label: &[u8; 80], sect: &[u8; 4], sequence: &[u8; 4]) -> [u8; 80] {
    let mut label = in_section(label, sect);
    label[31..35].copy_from_slice(sequence);
    label
}

/// Returns the trailer label with the block count `count`.
pub(crate) fn counted(label: &[u8; 80], count: &[u8; 6]) -> [u8; 80] {
    let mut label = *label;
    label[54..60].copy_from_slice(count);
    label
}
