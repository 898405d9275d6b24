//! What differs between two images of one tape, and whether one of them may have lost an item.

use crate::forms::AnyImages;
use crate::screen::Progress;
use crate::show::fields::{SIZE, code_of, push_differences};
use sha2::{Digest, Sha256};
use std::alloc::{AllocError, Global};
use std::io::Read;
use tape_image::{ImageBuffer, ImageReader, Item};
use tape_run::ImageSource;

/// What is remembered of an item: of a block its SHA-256. `End` is what follows the last item.
#[derive(Clone, Copy, PartialEq, Eq)]
enum Kept {
    Block([u8; 32]),
    Bad,
    Mark,
    End,
}

impl Kept {
    fn of(item: Option<Item<'_>>) -> Kept {
        match item {
            Some(Item::Block(bytes)) => {
                let mut sum = Sha256::new();
                sum.update(bytes);
                Kept::Block(sum.finalize())
            }
            Some(Item::Bad) => Kept::Bad,
            Some(Item::Mark) => Kept::Mark,
            None => Kept::End,
        }
    }

    /// Returns whether two items may be readings of one: an unreadable item may be any other, and
    /// an image that ends may have ended too early.
    fn agrees(self, other: Kept) -> bool {
        match (self, other) {
            (Kept::End | Kept::Bad, _) | (_, Kept::End | Kept::Bad) => true,
            _ => self == other,
        }
    }
}

/// Returns the next item of an image. An error ends the image.
fn next_of<'i, R: Read>(image: &'i mut ImageReader<'_, R>) -> Option<Item<'i>> {
    match image.next() {
        Ok(item) => item,
        Err(_) => None,
    }
}

/// Returns in what the two images named `names` differ first, and whether they agree after that.
/// Reads both again. Returns `None` if their items agree, or if there are more or fewer images.
pub fn difference_text<R: Progress>(rt: &R, names: &[&str]) -> Result<Option<String>, AllocError> {
    if names.len() != 2 {
        return Ok(None);
    }
    let images = &mut AnyImages::new(rt, names);
    let Some(mut one) = images.mount(0)? else {
        return Ok(None);
    };
    let Some(mut other) = images.mount(1)? else {
        return Ok(None);
    };
    let alloc = rt.alloc();
    let one = &mut ImageReader::over(ImageBuffer::new(alloc)?, &mut one);
    let other = &mut ImageReader::over(ImageBuffer::new(alloc)?, &mut other);
    first_difference(alloc, one, other)
}

/// Returns the same for two unread images.
fn first_difference<R: Read>(
    alloc: Global,
    one: &mut ImageReader<'_, R>,
    other: &mut ImageReader<'_, R>,
) -> Result<Option<String>, AllocError> {
    for number in 1..u64::MAX {
        let (first, second) = (next_of(one), next_of(other));
        let kept = (Kept::of(first), Kept::of(second));
        if !kept.0.agrees(kept.1) {
            let item = item_text(alloc, number, first, second)?;
            let rest = rest_text(one, other, kept);
            let shown = format!(in alloc;
                "{item}\n  {rest}\n  'tape show IMAGE {number}' shows this item."
            )?;
            return Ok(Some(shown));
        }
        if kept.0 == Kept::End || kept.1 == Kept::End {
            break;
        }
    }
    Ok(None)
}

/// Returns a block as a label, if it has its length.
fn label_of(block: &[u8]) -> Option<&[u8; SIZE]> {
    block.try_into().ok()
}

/// Returns in what item number `number` differs.
fn item_text(
    alloc: Global,
    number: u64,
    first: Option<Item<'_>>,
    second: Option<Item<'_>>,
) -> Result<String, AllocError> {
    let (Some(Item::Block(one)), Some(Item::Block(other))) = (first, second) else {
        return format!(in alloc; "Item {number} is of another kind in each image.");
    };
    if let Some(label) = label_of(one)
        && let Some(other) = label_of(other)
        && let Some(code) = code_of(label)
        && label[..4] == other[..4]
    {
        let mut text = format!(in alloc; "Item {number}, a label, differs in")?;
        push_differences(alloc, &mut text, code, label, other)?;
        return Ok(text);
    }
    let mut differing = one
        .iter()
        .zip(other)
        .enumerate()
        .filter(|(_, (x, y))| x != y);
    match differing.next() {
        Some((at, (x, y))) if one.len() == other.len() => {
            let (at, count) = (at.saturating_add(1), differing.count().saturating_add(1));
            let length = one.len();
            format!(in alloc;
                "Bytes of item {number} that differ: {count} of {length}. The first is byte {at},
  in hexadecimal {x:02X} and {y:02X}."
            )
        }
        _ => format!(in alloc;
            "The blocks of item {number} have {} and {} bytes.",
            one.len(),
            other.len()
        ),
    }
}

/// Returns whether the images agree after items that differ, of which `kept` is remembered.
fn rest_text<R: Read>(
    one: &mut ImageReader<'_, R>,
    other: &mut ImageReader<'_, R>,
    kept: (Kept, Kept),
) -> &'static str {
    let mut before = kept;
    let (mut common, mut same, mut lost, mut added) = (false, true, true, true);
    for _ in 0..u64::MAX {
        let (first, second) = (Kept::of(next_of(one)), Kept::of(next_of(other)));
        common = common || (first != Kept::End && second != Kept::End);
        same = same && first.agrees(second);
        lost = lost && first.agrees(before.1);
        added = added && before.0.agrees(second);
        if first == Kept::End && second == Kept::End {
            break;
        }
        before = (first, second);
    }
    if !common {
        "No later item is on both images."
    } else if same && lost {
        "All later items that both images have agree, also if the second image lost this
  item, or the first one has it twice."
    } else if same && added {
        "All later items that both images have agree, also if the first image lost an
  item here, or the second one has this item twice."
    } else if same {
        "All later items that both images have agree."
    } else if lost {
        "From here on the second image agrees with the first one item later: it may have
  lost this item, or the first image has an item twice."
    } else if added {
        "From here on the first image agrees with the second one item later: it may have
  lost an item, or the second image has this item twice."
    } else {
        "Later items differ too, even if one of the images lost an item here."
    }
}
