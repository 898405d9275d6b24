//! Tests of `salvage` on images without HDR1, on images whose second reading fails or differs, and
//! on copies that differ.
ghost use Rattle.std.specs.Prelude.{⊤};

use crate::devices::Narrow;
use crate::image::{Image, set_id};
use crate::now::Name;
use crate::readers::Failing;
use crate::volumes::cut;
use std::alloc::{AllocError, Global};
use std::test::Fail;
use tape_blocks::Form;
use tape_run::{Content, ImageSource, SalvageTask, salvage_to};

/// A source of one image. Its reader returns `first` the first time and `again` from then on, and
/// then fails.
#[derive(Drop)]
pub struct Twice<'a> {
    pub first: &'a [u8],
    pub again: &'a [u8],
    pub is_read: bool,
}

impl<'a> ImageSource<Failing<'a>> for Twice<'a> {
    ghost size = { λ _. 1 };

    ghost gives = { λ _ _ _ _. ⊤ };

    fn count(&self) -> usize {
        1
    }

    fn mount(&mut self, _number: usize) -> Result<Option<Failing<'a>>, AllocError> {
        let bytes = if self.is_read { self.again } else { self.first };
        self.is_read = true;
        Ok(Some(Failing(bytes)))
    }
}

/// A source of two images.
#[derive(Drop)]
pub struct Both<'a> {
    pub first: &'a [u8],
    pub second: &'a [u8],
}

impl<'a> ImageSource<Failing<'a>> for Both<'a> {
    ghost size = { λ _. 2 };

    ghost gives = { λ _ _ _ _. ⊤ };

    fn count(&self) -> usize {
        2
    }

    fn mount(&mut self, number: usize) -> Result<Option<Failing<'a>>, AllocError> {
        let bytes = if number == 0 { self.first } else { self.second };
        Ok(Some(Failing(bytes)))
    }
}

/// The number of bytes of the example image that are read again before its reader fails; whether
/// nothing is missing, the report, and the number of bytes written. The three blocks of the image
/// begin at 268, 1076 and 1884, and end at 2292.
const ROWS: &[(usize, bool, &str, usize)] = &[
    (0, false, "SECTION 1 1 3\nGAP 1 0 - 0\nSALVAGED 0\n", 0),
    (268, false, "SECTION 1 1 3\nGAP 1 0 - 0\nSALVAGED 0\n", 0),
    (
        1076,
        false,
        "SECTION 1 1 3\nGAP 1 1 - 10\nSALVAGED 10\n",
        810,
    ),
    (
        2291,
        false,
        "SECTION 1 1 3\nGAP 1 2 - 20\nSALVAGED 20\n",
        1620,
    ),
    (2292, true, "SECTION 1 1 3\nCOMPLETE 25\n", 2025),
    (2484, true, "SECTION 1 1 3\nCOMPLETE 25\n", 2025),
];

/// The bytes of the example image that are changed; whether nothing is missing, the report, and the
/// number of bytes written. HDR1 is at 88, HDR2 at 176, EOF1 at 2296, EOF2 at 2384. A block whose
/// length words end with 0x80 cannot be read.
const CHANGED: &[(&[(usize, u8)], bool, &str, usize)] = &[
    // Without HDR1 the section is found by its EOF1.
    (
        &[(91, 128), (175, 128)],
        true,
        "SECTION 1 1 3\nCOMPLETE 25\n",
        2025,
    ),
    // Without HDR1 and HDR2, the form is that of EOF2.
    (
        &[(91, 128), (175, 128), (179, 128), (263, 128)],
        true,
        "SECTION 1 1 3\nCOMPLETE 25\n",
        2025,
    ),
    // Block 0, the first item after the mark, cannot be read either.
    (
        &[(91, 128), (175, 128), (271, 128), (1075, 128)],
        false,
        "SECTION 1 1 3\nGAP 1 0 0 0\nSALVAGED 15\n",
        1215,
    ),
    // Block 1 cannot be read either.
    (
        &[(91, 128), (175, 128), (1079, 128), (1883, 128)],
        false,
        "SECTION 1 1 3\nGAP 1 1 1 10\nSALVAGED 15\n",
        1215,
    ),
    // No label that contains the form can be read.
    (
        &[
            (91, 128),
            (175, 128),
            (179, 128),
            (263, 128),
            (2387, 128),
            (2471, 128),
        ],
        false,
        "NO FORM 1 0\nSALVAGED 0\n",
        0,
    ),
    // EOF1 cannot be read either.
    (
        &[(91, 128), (175, 128), (2299, 128), (2383, 128)],
        false,
        "GAP 1 - - 0\nSALVAGED 0\n",
        0,
    ),
    // EOF1 counts four blocks, not three. With HDR1 that is reported.
    (
        &[(2359, b'4')],
        false,
        "SECTION 1 1 3\nCOUNT 1 4 3\nSALVAGED 25\n",
        2025,
    ),
    // Without HDR1, the items are not accepted if EOF1 counts four blocks.
    (
        &[(91, 128), (175, 128), (2359, b'4')],
        false,
        "GAP 1 - - 0\nSALVAGED 0\n",
        0,
    ),
];

/// Returns the example image with the bytes of `changes` changed.
pub fn changed(alloc: Global, changes: &[(usize, u8)]) -> Result<Image, AllocError> {
    let mut image = cut(alloc, 2484)?;
    for (place, value) in changes {
        if let Some(byte) = image.bytes.as_mut_slice().get_mut(*place) {
            *byte = *value;
        }
    }
    Ok(image)
}

/// Returns whether `salvage`, reading `first` and then `again`, has the result `complete`, the
/// report `lines` and an output of `length` bytes.
fn comes_to(
    alloc: Global,
    first: &[u8],
    again: &[u8],
    complete: bool,
    lines: &str,
    length: usize,
) -> Result<bool, Fail> {
    let mut shelf = Twice {
        first,
        again,
        is_read: false,
    };
    salvages(alloc, &mut shelf, complete, lines, length)
}

/// Returns whether `salvage` of these images has this result.
pub fn salvages<'a, L: ImageSource<Failing<'a>>>(
    alloc: Global,
    shelf: &mut L,
    complete: bool,
    lines: &str,
    length: usize,
) -> Result<bool, Fail> {
    let task = SalvageTask {
        set_id: set_id(),
        file: 1,
        content: Content::Records,
        form: Form::Lines,
    };
    let mut name = Name {
        is_free: true,
        there: None,
    };
    let mut report = Vec::new(alloc);
    let out = Narrow::new(alloc, 10000, true);
    let answer = salvage_to(alloc, &task, shelf, out, &mut name, &mut report);
    let written = name.there.map(|out| out.taken.len());
    Ok(answer == Ok(complete) && report.as_slice() == lines.as_bytes() && written == Some(length))
}

/// A block that cannot be read again is a gap, whatever the first reading found.
#[test]
fn readers_that_fail_again(rt: HostRuntime) -> Result<(), Fail> {
    let first = cut(rt.alloc(), 2484)?;
    for (number, (again, complete, lines, length)) in ROWS.iter().enumerate() {
        let second = cut(rt.alloc(), *again)?;
        let (first, second) = (first.bytes.as_slice(), second.bytes.as_slice());
        let is_so = comes_to(rt.alloc(), first, second, *complete, lines, *length)?;
        assert!(rt; is_so, "row {number}");
    }
    Ok(())
}

/// A section whose HDR1 was not read is found by the label after its data, if it counts them.
#[test]
fn sections_without_hdr1(rt: HostRuntime) -> Result<(), Fail> {
    for (number, (changes, complete, lines, length)) in CHANGED.iter().enumerate() {
        let image = changed(rt.alloc(), changes)?;
        let bytes = image.bytes.as_slice();
        let is_so = comes_to(rt.alloc(), bytes, bytes, *complete, lines, *length)?;
        assert!(rt; is_so, "row {number}");
    }
    Ok(())
}

/// Without a trailer label, a block that can be read only the first time is a gap of its own.
#[test]
fn blocks_unreadable_again(rt: HostRuntime) -> Result<(), Fail> {
    let first = cut(rt.alloc(), 2292)?;
    let mut second = cut(rt.alloc(), 2292)?;
    for place in [1887, 2291] {
        if let Some(byte) = second.bytes.as_mut_slice().get_mut(place) {
            *byte = 128;
        }
    }
    let lines = "IMAGE 1 FAULT 5 2292\nSECTION 1 1 3\nGAP 1 2 2 20\nGAP 1 3 - 20\nSALVAGED 20\n";
    let (first, second) = (first.bytes.as_slice(), second.bytes.as_slice());
    assert!(rt; comes_to(rt.alloc(), first, second, false, lines, 1620)?);
    Ok(())
}

/// Complete copies that differ are reported, and the file is not called complete.
#[test]
fn copies_that_differ(rt: HostRuntime) -> Result<(), Fail> {
    let first = cut(rt.alloc(), 2484)?;
    let second = changed(rt.alloc(), &[(300, b'#')])?;
    let (first, second) = (first.bytes.as_slice(), second.bytes.as_slice());
    let mut same = Both {
        first,
        second: first,
    };
    let lines = "SECTION 1 1 3\nCOMPLETE 25\n";
    assert!(rt; salvages(rt.alloc(), &mut same, true, lines, 2025)?);
    let mut other = Both { first, second };
    let lines = "CONFLICT 1 1 2\nSECTION 1 1 3\nSALVAGED 25\n";
    assert!(rt; salvages(rt.alloc(), &mut other, false, lines, 2025)?);
    Ok(())
}
