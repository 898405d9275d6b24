//! The reel for these examples: a volume `ABC001` with a file of five records of four characters.
//! Two readings of it are written out from the standard.

/// A reading with an error in the first block of the file.
pub(super) const FIRST_BAD: &[u8] = b"\
    P\0\0\0VOL1ABC001                                                                     4P\0\0\0\
    P\0\0\0HDR1BIRDS            ABC00100010001000100 00000 00000 000000                    P\0\0\0\
    P\0\0\0HDR2F0000800004                                   00                            P\0\0\0\
    \0\0\0\0\x08\0\0\x80KITEKIWI\x08\0\0\x80\
    \x08\0\0\0KNOTCROW\x08\0\0\0\
    \x04\0\0\0SWAN\x04\0\0\0\0\0\0\0\
    P\0\0\0EOF1BIRDS            ABC00100010001000100 00000 00000 000003                    P\0\0\0\
    P\0\0\0EOF2F0000800004                                   00                            P\0\0\0\
    \0\0\0\0\0\0\0\0\xFF\xFF\xFF\xFF";

/// A reading with an error in the second block of the file.
pub(super) const SECOND_BAD: &[u8] = b"\
    P\0\0\0VOL1ABC001                                                                     4P\0\0\0\
    P\0\0\0HDR1BIRDS            ABC00100010001000100 00000 00000 000000                    P\0\0\0\
    P\0\0\0HDR2F0000800004                                   00                            P\0\0\0\
    \0\0\0\0\x08\0\0\0KITEKIWI\x08\0\0\0\
    \x08\0\0\x80KNOTCROW\x08\0\0\x80\
    \x04\0\0\0SWAN\x04\0\0\0\0\0\0\0\
    P\0\0\0EOF1BIRDS            ABC00100010001000100 00000 00000 000003                    P\0\0\0\
    P\0\0\0EOF2F0000800004                                   00                            P\0\0\0\
    \0\0\0\0\0\0\0\0\xFF\xFF\xFF\xFF";
