//! The end of a volume, as far as its tape marks show it.

use super::LABEL;
use tape_image::Item;

/// What the last items of a reading were.
#[derive(Clone, Copy, PartialEq, Eq)]
pub enum Last {
    /// None was a block.
    Nothing,
    /// A header label.
    Header,
    /// The mark after header labels. If another one follows, the section has no blocks.
    Opened,
    /// Another block.
    Block,
    /// A mark after it, or the second one after header labels.
    Mark,
    /// Two marks ended the volume, whatever follows them.
    End,
}

/// The beginnings of header labels in ASCII and EBCDIC.
const HEADERS: [&[u8; 3]; 4] = [b"HDR", b"UHL", b"\xC8\xC4\xD9", b"\xE4\xC8\xD3"];

impl Last {
    /// Returns what they are after a further item.
    pub fn then(self, item: Item<'_>) -> Last {
        match (self, item) {
            (Last::End, _) => Last::End,
            (_, Item::Block(block)) if is_header(block) => Last::Header,
            (_, Item::Block(_) | Item::Bad) => Last::Block,
            (Last::Nothing, Item::Mark) => Last::Nothing,
            (Last::Header, Item::Mark) => Last::Opened,
            (Last::Opened | Last::Block, Item::Mark) => Last::Mark,
            (Last::Mark, Item::Mark) => Last::End,
        }
    }
}

/// Returns whether a block begins as a header label does.
fn is_header(block: &[u8]) -> bool {
    block.len() >= LABEL && HEADERS.iter().any(|label| block.starts_with(*label))
}
