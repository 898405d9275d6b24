//! Tests of images in normal form: images written out by hand, and the bytes that replace theirs.

use crate::normal_form::label;
use std::alloc::{AllocError, Global};
use std::io;
use std::io::{Error, ErrorKind, Read};
use std::process::Abort;
use tape_core::normal::{NormalImage, Rules};

/// The volume label of a tape that has none.
const NO_VOLUME: &[u8; 80] =
    b"VOL1                                                                           4";

/// Appends a block of 80 bytes.
fn push_eighty(image: &mut Vec<u8>, text: &[u8; 80]) -> Result<(), AllocError> {
    image.extend_from_slice(&[80, 0, 0, 0])?;
    image.extend_from_slice(text)?;
    image.extend_from_slice(&[80, 0, 0, 0])
}

/// Appends the label of a letter in a block of 83 bytes, with a pad byte.
fn push_padded(image: &mut Vec<u8>, letter: u8) -> Result<(), AllocError> {
    image.extend_from_slice(&[83, 0, 0, 0])?;
    image.extend_from_slice(&label(letter).unwrap_or([0; 80]))?;
    image.extend_from_slice(&[0, 0, 0, 7, 83, 0, 0, 0])
}

/// Appends what a letter represents: a label as in the tests of the normal form, `w` the volume
/// label of a tape that has none, `B`, `A` and `C` the labels `V`, `H` and `E` in blocks of 83 bytes,
/// `D` a block of 4 bytes, `O` one of 3 bytes with a pad byte, `d` one that is a volume label in
/// EBCDIC, `L` one of 512 bytes, `c` the first 8 bytes of that block, `b` an unreadable block, `m` a
/// mark, `g` a gap, `.` an end-of-medium marker, `0` the byte 0.
fn push(image: &mut Vec<u8>, letter: u8) -> Result<(), AllocError> {
    match (letter, label(letter)) {
        (b'm', _) => image.extend_from_slice(&[0, 0, 0, 0]),
        (b'g', _) => image.extend_from_slice(&[0xFE, 0xFF, 0xFF, 0xFF]),
        (b'.', _) => image.extend_from_slice(&[0xFF, 0xFF, 0xFF, 0xFF]),
        (b'0', _) => image.extend_from_slice(&[0]),
        (b'D', _) => image.extend_from_slice(&[4, 0, 0, 0, b'D', b'A', b'T', b'A', 4, 0, 0, 0]),
        (b'O', _) => image.extend_from_slice(&[3, 0, 0, 0, b'O', b'D', b'D', 7, 3, 0, 0, 0]),
        (b'b', _) => image.extend_from_slice(&[2, 0, 0, 0x80, 9, 9, 2, 0, 0, 0x80]),
        (b'c', _) => image.extend_from_slice(&[0, 2, 0, 0, b'B', b'B', b'B', b'B']),
        (b'L', _) => {
            image.extend_from_slice(&[0, 2, 0, 0])?;
            image.extend_from_slice(&[b'B'; 512])?;
            image.extend_from_slice(&[0, 2, 0, 0])
        }
        (b'w', _) => push_eighty(image, NO_VOLUME),
        (b'B', _) => push_padded(image, b'V'),
        (b'A', _) => push_padded(image, b'H'),
        (b'C', _) => push_padded(image, b'E'),
        (b'd', _) => push_eighty(image, &label(b'v').unwrap_or([0; 80])),
        (_, Some(text)) => push_eighty(image, &text),
        _ => Ok(()),
    }
}

/// Returns the image that letters represent.
fn image_of(alloc: Global, letters: &str) -> Result<Vec<u8>, AllocError> {
    let mut image = Vec::new(alloc);
    for letter in letters.as_bytes() {
        push(&mut image, *letter)?;
    }
    Ok(image)
}

/// A reader that returns one byte in every second call, and fails in the others.
#[derive(Drop)]
struct Halting<'a> {
    bytes: &'a [u8],
    fails: bool,
}

impl Read for Halting<'_> {
    fn read(&mut self, buf: &mut [u8]) -> io::Result<usize> {
        self.fails = !self.fails;
        if self.fails {
            return Err(Error::from(ErrorKind::TimedOut));
        }
        match (self.bytes, buf) {
            ([first, others @ ..], [slot, ..]) => {
                *slot = *first;
                self.bytes = others;
                Ok(1)
            }
            _ => Ok(0),
        }
    }
}

/// Returns all bytes of the reader, and reads on after each error.
fn all_of<R: Read>(alloc: Global, reader: &mut R) -> Result<Vec<u8>, AllocError> {
    let mut bytes = Vec::new(alloc);
    for _ in 0..10_000 {
        let mut buffer = [0; 7];
        match reader.read(&mut buffer) {
            Ok(0) => return Ok(bytes),
            Ok(count) => bytes.extend_from_slice(&buffer[..count])?,
            Err(_) => {}
        }
    }
    Ok(bytes)
}

/// The images, and what they become.
const IMAGES: [(&str, &str); 23] = [
    ("VHSmDOgbdmEmm.", "VHSmDOgbdmEmm."),
    ("gVgHSgmgDmEmm", "gVgHSgmgDmEmm"),
    ("vhsmDdmemm.", "VHSmDdmEmm."),
    ("mVHSmDmEmm.", "VHSmDmEmm."),
    ("VLHSmDmEmm.", "VHSmDmEmm."),
    ("HSmDmEmm.", "wHSmDmEmm."),
    ("hsmDmemm.", "wHSmDmEmm."),
    ("VHPmDmEmm.", "VHSmDmEmm."),
    ("vhpmDmemm.", "VHSmDmEmm."),
    ("VHXmDmEmm.", "VHXmDmEmm."),
    ("VHmDmEmm.", "VHmDmEmm."),
    ("VHSmDmEmmDbm.", "VHSmDmEmm."),
    ("vhsmDmbemhsm.", "VHSmDmbEmHSm."),
    ("bvhsm.", "bvhsm."),
    ("vsmDmemhsmDmemm.", "VmDmEmHSmDmEmm."),
    ("vmhsmDmemm.", "VmHSmDmEmm."),
    ("VHc", "VHc"),
    ("VLc", "V0"),
    ("BAmDAmCmm.", "VHmDAmEmm."),
    ("gBgAgmOmCmmA.", "gVgHgmOmEmmA."),
    ("BAmDmCmmDD.", "VHmDmEmm."),
    ("BmDmCmAmDmCmm.", "VmDmEmHmDmEmm."),
    ("BmAmDmCmm.", "VmHmDmEmm."),
];

#[test]
fn images_and_their_normal_forms(rt: HostRuntime) -> Result<(), AllocError> {
    for (letters, wanted) in IMAGES {
        let image = image_of(rt.alloc(), letters)?;
        let wanted = image_of(rt.alloc(), wanted)?;
        let got = all_of(rt.alloc(), &mut NormalImage::new(image.as_slice()))?;
        assert_eq!(rt; got.as_slice(), wanted.as_slice(), "{letters}");
        // Nothing is lost by errors, and no byte is read twice.
        let halting = Halting {
            bytes: image.as_slice(),
            fails: false,
        };
        let got = all_of(rt.alloc(), &mut NormalImage::new(halting))?;
        assert_eq!(rt; got.as_slice(), wanted.as_slice(), "{letters}");
    }
    Ok(())
}

/// Returns the rules that were applied to an image.
fn rules_of(alloc: Global, letters: &str) -> Result<Rules, AllocError> {
    let image = image_of(alloc, letters)?;
    let mut normal = NormalImage::new(image.as_slice());
    all_of(alloc, &mut normal)?;
    Ok(normal.rules())
}

#[test]
fn rules_are_known(rt: HostRuntime) -> Result<(), AllocError> {
    let rules = rules_of(rt.alloc(), "VHSmDOgbdmEmm.")?;
    assert_eq!(rt; rules, Rules::NONE);
    let rules = rules_of(rt.alloc(), "mhmDmemmDD.")?;
    let wanted = Rules {
        ebcdic: true,
        padded: false,
        no_volume_label: true,
        no_second_label: true,
        blank_numbers: false,
        no_file_numbers: false,
        no_block_count: false,
        before: 1,
        after: 2,
    };
    assert_eq!(rt; rules, wanted);
    let filled = Rules {
        blank_numbers: true,
        ..Rules::NONE
    };
    assert_eq!(rt; rules_of(rt.alloc(), "VHPmDmEmm.")?, filled);
    assert_eq!(rt; rules_of(rt.alloc(), "VHUmDmEmm.")?, filled);
    assert_eq!(rt; rules_of(rt.alloc(), "VHXmDmEmm.")?, Rules::NONE);
    let both = Rules {
        ebcdic: true,
        ..filled
    };
    assert_eq!(rt; rules_of(rt.alloc(), "vhpmDmemm.")?, both);
    assert!(rt; !rules_of(rt.alloc(), "vhsmDmemm.")?.blank_numbers);
    let numbered = Rules {
        no_file_numbers: true,
        ..Rules::NONE
    };
    assert_eq!(rt; rules_of(rt.alloc(), "VNSmDmFmm.")?, numbered);
    assert_eq!(rt; rules_of(rt.alloc(), "VHSmDmFmm.")?, Rules::NONE);
    let uncounted = Rules {
        no_block_count: true,
        ..Rules::NONE
    };
    assert_eq!(rt; rules_of(rt.alloc(), "VHSmDmKmm.")?, uncounted);
    assert_eq!(rt; rules_of(rt.alloc(), "VHSmDbmKmm.")?, Rules::NONE);
    assert_eq!(rt; rules_of(rt.alloc(), "VHSmDmJmm.")?, uncounted);
    assert_eq!(rt; rules_of(rt.alloc(), "VHSmmJmm.")?, Rules::NONE);
    let padded = Rules {
        padded: true,
        no_second_label: true,
        ..Rules::NONE
    };
    assert_eq!(rt; rules_of(rt.alloc(), "BAmDmCmm.")?, padded);
    let no_header = Rules {
        ebcdic: true,
        before: 1,
        ..Rules::NONE
    };
    assert_eq!(rt; rules_of(rt.alloc(), "vsmDmemm.")?, no_header);
    let unnamed = Rules {
        no_volume_label: true,
        ..numbered
    };
    assert_eq!(rt; rules_of(rt.alloc(), "NSmDmFmm.")?, unnamed);
    Ok(())
}

/// Images, how many of their sections are not counted, and the numbers of the file and the section
/// of the last of these.
const UNCOUNTED: [(&str, u8, (u16, u16)); 12] = [
    ("VHSmDmEmm.", 0, (0, 0)),
    ("VHSmDmKmm.", 1, (1, 1)),
    ("vhsmDmkmm.", 1, (1, 1)),
    ("gVgHgSgmgDgmgKgmm.", 1, (1, 1)),
    ("VHSmmKmm.", 1, (1, 1)),
    ("VHSmDmJmm.", 1, (1, 1)),
    // This label counts its blocks: there are none.
    ("VHSmmJmm.", 0, (0, 0)),
    ("VHSmDmRmm.", 0, (0, 0)),
    ("VHSmDbmKmm.", 0, (0, 0)),
    ("VHSmDmKTmHSmDmEmm.", 1, (1, 1)),
    // The section is that of its header label.
    ("VWSmDmKmm.", 1, (7, 1)),
    ("VQSmDmKmm.", 1, (1, 1)),
];

#[test]
fn sections_that_are_not_counted_are_known(rt: HostRuntime) -> Result<(), AllocError> {
    for (letters, wanted, numbers) in UNCOUNTED {
        let image = image_of(rt.alloc(), letters)?;
        let mut normal = NormalImage::new(image.as_slice());
        let (mut count, mut last) = (0u8, (0, 0));
        for _ in 0..1_000 {
            let Ok(1) = normal.read(&mut [0]) else {
                break;
            };
            if let Some(head) = normal.take_uncounted() {
                count = count.saturating_add(1);
                last = (head.sequence, head.sect);
            }
        }
        assert_eq!(rt; (count, last), (wanted, numbers), "{letters}");
    }
    Ok(())
}
