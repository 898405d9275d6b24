//! Tests of the definitions as plain programs: the contents of a volume, the parts before a
//! position, and the effect of a reading on a position.

use crate::contents::{EntryLayout, entries};
use crate::delivered::before;
use crate::layouts::two_files;
use crate::reach::far;
use std::alloc::{AllocError, Global};
use std::process::Abort;
use std::test::Fail;
use tape_set::{Layout, Position, Sequence};

// A tape mark is `*`, and a data block begins with `=`.
const VOLUME_1: &str = "VOL1|UVL1|HDR1|HDR2|*|=0002AB|=0006CDEF|*|EOF1|*|*|";

const VOLUME_2: &str =
    "VOL1|UVL1|HDR1|HDR2|*|=0002AB|=0006CDEF|*|EOF1|*|HDR1|HDR2|*|=0002AB|=0006CDEF|*|EOF1|*|*|";

#[test]
fn volumes_have_their_entries(rt: HostRuntime) -> Result<(), Fail> {
    let layout = two_files(rt.alloc())?;
    for (volume, want) in [(1, VOLUME_1), (2, VOLUME_2), (0, ""), (3, "")] {
        let told = outline(rt.alloc(), &layout, volume)?;
        assert_eq!(rt; told.as_str(), want, "volume {volume}");
    }
    Ok(())
}

// Returns the contents of volume `volume`, as one text.
fn outline(alloc: Global, layout: &Layout, volume: usize) -> Result<String, AllocError> {
    let mut text = String::new(alloc);
    for entry in &entries(alloc, layout, volume)? {
        match entry {
            EntryLayout::Label(bytes) => put(&mut text, "", bytes)?,
            EntryLayout::DataBlock(bytes) => put(&mut text, "=", bytes)?,
            EntryLayout::Mark => text.push_str("*|")?,
        }
    }
    Ok(text)
}

fn put(text: &mut String, kind: &str, bytes: &Sequence<u8>) -> Result<(), AllocError> {
    text.push_str(kind)?;
    for byte in bytes.as_slice() {
        text.push(char::from(*byte))?;
    }
    text.push_str("|")
}

// Returns a position in the first section of a file, which most tests use.
fn at(block: u32, part: u32) -> Position {
    Position::Awaits {
        sect: 1,
        block,
        part,
    }
}

#[test]
fn parts_lie_before_positions(rt: HostRuntime) -> Result<(), Fail> {
    let layout = two_files(rt.alloc())?;
    for (block, part, want) in [
        (0, 0, ""),
        (1, 0, "AB|"),
        (1, 1, "AB|CD|"),
        (1, 2, "AB|CD|EF|"),
        (1, 3, "AB|CD|EF|"),
        (2, 0, "AB|CD|EF|"),
    ] {
        lie_before(&rt, rt.alloc(), &layout, 1, at(block, part), want)?;
    }
    let second = Position::awaiting(2, 0).at_part(1);
    lie_before(&rt, rt.alloc(), &layout, 1, second, "AB|CD|EF|AB|")?;
    Ok(())
}

#[test]
fn all_parts_lie_before_the_end(rt: HostRuntime) -> Result<(), Fail> {
    let layout = two_files(rt.alloc())?;
    for (file, want) in [
        (1, "AB|CD|EF|AB|CD|EF|"),
        (2, "AB|CD|EF|"),
        (3, ""),
        (0, ""),
    ] {
        lie_before(&rt, rt.alloc(), &layout, file, Position::Finished, want)?;
    }
    Ok(())
}

// Checks that the parts in `want`, each followed by a bar, are before `position`.
fn lie_before(
    rt: &impl Abort,
    alloc: Global,
    layout: &Layout,
    file: u16,
    position: Position,
    want: &str,
) -> Result<(), AllocError> {
    let mut text = String::new(alloc);
    for part in &before(alloc, layout, file, &position)? {
        put(&mut text, "", &part.bytes)?;
    }
    assert_eq!(rt; text.as_str(), want, "file {file} before {position:?}");
    Ok(())
}

/// Volume 1 contains VOL1, UVL1, HDR1, HDR2, a mark, two blocks, a mark, EOF1 and two marks. In
/// these texts `+` is a readable item, `-` a bad one.
#[test]
fn readings_take_positions_on(rt: HostRuntime) -> Result<(), Fail> {
    let layout = two_files(rt.alloc())?;
    for (file, from, volume, met, want) in [
        (1, (0, 0), 1, "++++++++", (2, 0)),
        (1, (0, 0), 1, "+++++++-+", (2, 0)),
        (1, (0, 0), 1, "++++++-++", (1, 0)),
        (1, (0, 1), 1, "+++++-+++", (0, 1)),
        (1, (1, 1), 1, "+++++-+", (2, 0)),
        (1, (1, 1), 1, "++++++-", (1, 1)),
        (1, (0, 0), 1, "++++-++++", (0, 0)),
        (1, (0, 0), 1, "", (0, 0)),
        (1, (0, 0), 2, "++++++++++++++++++", (0, 0)),
        (2, (0, 0), 1, "+++++++++++", (0, 0)),
        (2, (0, 0), 2, "+++++--++++++++", (2, 0)),
        (2, (0, 0), 2, "+++++++-+++++++++", (0, 0)),
        (3, (0, 0), 1, "+++++++++++", (0, 0)),
    ] {
        let reached = far_over(rt.alloc(), &layout, file, at(from.0, from.1), volume, met)?;
        let want = at(want.0, want.1);
        assert_eq!(rt; reached, Some(want), "file {file} from {from:?} over {met}");
    }
    Ok(())
}

#[test]
fn readings_finish_files(rt: HostRuntime) -> Result<(), Fail> {
    let layout = two_files(rt.alloc())?;
    for (file, from, volume, met) in [
        (1, Position::start(), 1, "+++++++++"),
        (2, Position::start(), 2, "+++++++++++++++++"),
        (1, Position::Finished, 1, "+++++++++"),
    ] {
        let reached = far_over(rt.alloc(), &layout, file, from, volume, met)?;
        assert_eq!(rt; reached, Some(Position::Finished), "file {file} over {met}");
    }
    Ok(())
}

// Returns the position to which the reading moves `position`.
fn far_over(
    alloc: Global,
    layout: &Layout,
    file: u16,
    position: Position,
    volume: usize,
    met: &str,
) -> Result<Option<Position>, AllocError> {
    let mut good = Vec::new(alloc);
    for byte in met.as_bytes() {
        good.push(*byte == b'+')?;
    }
    far(alloc, layout, file, position, volume, good.as_slice())
}
