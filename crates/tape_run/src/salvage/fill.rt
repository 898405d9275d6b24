//! Runs of blocks that are unreadable on one image and readable on another.

use std::alloc::{AllocError, Global};

/// Bytes of an image.
#[derive(Clone, Copy)]
pub struct Stretch {
    /// The image's number, counted from 0.
    pub image: usize,
    /// The byte offset at which they begin.
    pub from: u64,
    /// The byte offset of what follows them.
    pub to: u64,
}

/// A run of blocks of a section that an image does not have, and that are taken from another one.
#[derive(Clone, Copy)]
pub struct Fill {
    /// The section's number.
    pub sect: u16,
    /// The number of its first block.
    pub first: u32,
    /// The number of its last block.
    pub last: u32,
    /// The blocks on the image that does not have them.
    pub gap: Stretch,
    /// The blocks on the image that has them.
    pub source: Stretch,
}

impl Fill {
    /// Returns the run with one more block, or `None` if `next` does not continue it.
    fn with(&self, next: &Fill) -> Option<Fill> {
        if next.sect != self.sect
            || next.source.image != self.source.image
            || next.first != self.last.saturating_add(1)
        {
            return None;
        }
        Some(Fill {
            last: next.last,
            gap: Stretch {
                to: next.gap.to,
                ..self.gap
            },
            source: Stretch {
                to: next.source.to,
                ..self.source
            },
            ..*self
        })
    }
}

/// Adds a run to those before it: to the last one, if it continues that.
pub fn add_fill(fills: &mut Vec<Fill>, next: Fill) -> Result<(), AllocError> {
    if let Some(last) = fills.last_mut() {
        if let Some(longer) = last.with(&next) {
            *last = longer;
            return Ok(());
        }
    }
    fills.push(next)?;
    Ok(())
}

/// Appends the lines about runs of blocks that are taken from other images.
pub fn push_fills(alloc: Global, fills: &[Fill], lines: &mut Vec<u8>) -> Result<(), AllocError> {
    for fill in fills {
        let (sect, first, last) = (fill.sect, fill.first, fill.last);
        let image = fill.source.image.saturating_add(1);
        let line = format!(in alloc; "FILLED {sect} {image} {first} {last}\n")?;
        lines.extend_from_slice(line.as_bytes())?;
    }
    Ok(())
}
