//! Tests of `salvage` on copies of a section that complete each other, and on copies that do not.
ghost use Rattle.std.specs.Prelude.{⊤, length};

use crate::devices::Narrow;
use crate::image::{Image, set_id};
use crate::now::Name;
use crate::readers::Failing;
use crate::salvaged::changed;
use std::alloc::{AllocError, Global};
use std::test::Fail;
use tape_blocks::Form;
use tape_run::{Content, ImageSource, SalvageTask, salvage_joined};

/// A source of images that can be opened any number of times.
#[derive(Drop)]
struct Shelf<'a> {
    images: &'a [Image],
}

impl<'a> ImageSource<Failing<'a>> for Shelf<'a> {
    ghost size = { λ shelf. length shelf.images.now };

    ghost gives = { λ _ _ _ _. ⊤ };

    fn count(&self) -> usize {
        self.images.len()
    }

    fn mount(&mut self, number: usize) -> Result<Option<Failing<'a>>, AllocError> {
        let image = self.images.get(number);
        Ok(image.map(|image| Failing(image.bytes.as_slice())))
    }
}

/// The last bytes of the two length words of each block of the example image. The blocks begin at
/// 268, 1076 and 1884. A block whose length words end with 0x80 cannot be read.
const BLOCKS: [(usize, usize); 3] = [(271, 1075), (1079, 1883), (1887, 2291)];

/// An image: how many of its bytes there are, which blocks cannot be read, and further changes.
type Damaged = (usize, &'static [usize], &'static [(usize, u8)]);

/// A character of block 0 is another one.
const OTHER: &[(usize, u8)] = &[(300, b'#')];

/// The trailer label counts four blocks.
const COUNT: &[(usize, u8)] = &[(2359, b'4')];

/// HDR2 cannot be read.
const NO_HDR2: &[(usize, u8)] = &[(179, 128), (263, 128)];

/// EOF1 cannot be read.
const NO_EOF1: &[(usize, u8)] = &[(2299, 128), (2383, 128)];

/// Images of one volume; whether nothing is missing, the report, and the number of bytes written.
const ROWS: &[(&[Damaged], bool, &str, usize)] = &[
    // Two complete each other.
    (
        &[(2484, &[1], &[]), (2484, &[0, 2], &[])],
        true,
        "FILLED 1 2 1 1\nSECTION 1 1 3\nCOMPLETE 25\n",
        2025,
    ),
    // So do three. The first with most blocks is completed.
    (
        &[
            (2484, &[0, 1], &[]),
            (2484, &[0, 2], &[]),
            (2484, &[1, 2], &[]),
        ],
        true,
        "FILLED 1 3 0 0\nFILLED 1 2 1 1\nSECTION 1 1 3\nCOMPLETE 25\n",
        2025,
    ),
    // Adjacent blocks from one image are one run.
    (
        &[(2484, &[0, 1], &[]), (1884, &[], &[])],
        true,
        "FILLED 1 2 0 1\nIMAGE 2 FAULT 5 1884\nSECTION 1 1 3\nCOMPLETE 25\n",
        2025,
    ),
    // None has block 1, and the second image has all that the first one has.
    (
        &[(2484, &[1, 2], &[]), (2484, &[1], &[])],
        false,
        "SECTION 1 2 3\nGAP 1 1 1 10\nSALVAGED 15\n",
        1215,
    ),
    // Both have block 0, but another one.
    (
        &[(2484, &[1], &[]), (2484, &[2], OTHER)],
        false,
        "CONFLICT 1 1 2\nSECTION 1 1 3\nGAP 1 1 1 10\nSALVAGED 15\n",
        1215,
    ),
    // A complete copy needs no other one.
    (
        &[(2484, &[1], OTHER), (2484, &[], &[])],
        true,
        "SECTION 1 2 3\nCOMPLETE 25\n",
        2025,
    ),
    // A copy without its end completes another one: block 1 is the second item of its data.
    (
        &[(2484, &[1], &[]), (1884, &[], &[])],
        true,
        "FILLED 1 2 1 1\nIMAGE 2 FAULT 5 1884\nSECTION 1 1 3\nCOMPLETE 25\n",
        2025,
    ),
    // A copy that it completes is preferred to the copy itself, which has as many blocks.
    (
        &[(2484, &[1], &[]), (2292, &[], &[])],
        true,
        "FILLED 1 2 1 1\nIMAGE 2 FAULT 5 2292\nSECTION 1 1 3\nCOMPLETE 25\n",
        2025,
    ),
    // Block 0, which it lacks, is a block, since the other image has it.
    (
        &[(2484, &[1], &[]), (1884, &[0], &[])],
        true,
        "FILLED 1 2 1 1\nIMAGE 2 FAULT 5 1884\nSECTION 1 1 3\nCOMPLETE 25\n",
        2025,
    ),
    // If no image has block 0, the number of its second item is not certain.
    (
        &[(2484, &[0, 1], &[]), (1884, &[0], &[])],
        false,
        "IMAGE 2 FAULT 5 1884\nSECTION 1 1 3\nGAP 1 0 1 0\nSALVAGED 5\n",
        405,
    ),
    // Without any trailer label: up to the first block that no image has.
    (
        &[(2292, &[0], &[]), (1884, &[1], &[])],
        false,
        "FILLED 1 2 0 0\nIMAGE 1 FAULT 5 2292\nIMAGE 2 FAULT 5 1884\nSECTION 1 1 3\n\
            GAP 1 3 - 25\nSALVAGED 25\n",
        2025,
    ),
    // The trailer label of one counts four blocks: it completes none.
    (
        &[(2484, &[0, 1], &[]), (2484, &[2], COUNT)],
        false,
        "SECTION 1 2 3\nGAP 1 2 2 20\nCOUNT 1 4 3\nSALVAGED 20\n",
        1620,
    ),
    // Both have all blocks, and the one that closes is read, wherever it is named.
    (
        &[(2484, &[], NO_HDR2), (2484, &[], NO_EOF1)],
        true,
        "SECTION 1 1 3\nCOMPLETE 25\n",
        2025,
    ),
    (
        &[(2484, &[], NO_EOF1), (2484, &[], NO_HDR2)],
        true,
        "SECTION 1 2 3\nCOMPLETE 25\n",
        2025,
    ),
    // The one that closes has as many blocks as the other one only when that completes it.
    (
        &[(2484, &[1], NO_HDR2), (2484, &[], NO_EOF1)],
        true,
        "FILLED 1 2 1 1\nSECTION 1 1 3\nCOMPLETE 25\n",
        2025,
    ),
    (
        &[(2484, &[], NO_EOF1), (2484, &[1], NO_HDR2)],
        true,
        "FILLED 1 1 1 1\nSECTION 1 2 3\nCOMPLETE 25\n",
        2025,
    ),
];

/// Returns images of the example volume with these changes.
fn damaged(alloc: Global, images: &[Damaged]) -> Result<Vec<Image>, AllocError> {
    let mut made = Vec::new(alloc);
    for (length, unreadable, changes) in images {
        let mut image = changed(alloc, changes)?;
        for number in *unreadable {
            let Some((first, last)) = BLOCKS.get(*number) else {
                continue;
            };
            for place in [*first, *last] {
                if let Some(byte) = image.bytes.as_mut_slice().get_mut(place) {
                    *byte = 128;
                }
            }
        }
        image.bytes.truncate(*length);
        made.push(image)?;
    }
    Ok(made)
}

/// Returns whether `salvage` of these images, of which copies may complete each other, has the
/// result `complete`, the report `lines` and an output of `length` bytes.
pub fn joins(
    alloc: Global,
    images: &[Image],
    complete: bool,
    lines: &str,
    length: usize,
) -> Result<bool, Fail> {
    let task = SalvageTask {
        set_id: set_id(),
        file: 1,
        content: Content::Records,
        form: Form::Lines,
    };
    let mut shelf = Shelf { images };
    let mut name = Name {
        is_free: true,
        there: None,
    };
    let mut report = Vec::new(alloc);
    let out = Narrow::new(alloc, 10000, true);
    let answer = salvage_joined(alloc, &task, &mut shelf, out, &mut name, &mut report);
    let written = name.there.map(|out| out.taken.len());
    Ok(answer == Ok(complete) && report.as_slice() == lines.as_bytes() && written == Some(length))
}

/// A block that one copy does not have is taken from another, if its number is certain and no
/// blocks differ.
#[test]
fn copies_complete_each_other(rt: HostRuntime) -> Result<(), Fail> {
    for (number, (images, complete, lines, length)) in ROWS.iter().enumerate() {
        let images = damaged(rt.alloc(), images)?;
        let is_so = joins(rt.alloc(), images.as_slice(), *complete, lines, *length)?;
        assert!(rt; is_so, "row {number}");
    }
    Ok(())
}
