//! A text that grows.

use crate::quoting::name_text;
use std::alloc::{AllocError, Global};

/// A text about images that grows. It remembers whether memory was refused, so that this is asked
/// only once.
#[derive(Drop)]
pub(super) struct Page<'a> {
    alloc: Global,
    text: Vec<u8>,
    refused: bool,
    /// The names of the images.
    names: &'a [&'a str],
    /// The heading of the next entry, if it is to be printed before it.
    heading: &'static str,
    /// Whether an empty line precedes what is appended next.
    gap: bool,
}

impl<'a> Page<'a> {
    /// Returns an empty text about images of these names.
    pub(super) fn new(alloc: Global, names: &'a [&'a str]) -> Page<'a> {
        Page {
            alloc,
            text: Vec::new(alloc),
            refused: false,
            names,
            heading: "",
            gap: false,
        }
    }

    /// Returns the allocator of the text.
    pub(super) fn alloc(&self) -> Global {
        self.alloc
    }

    /// Appends bytes.
    pub(super) fn put(&mut self, bytes: &[u8]) {
        let gap = if self.gap { "\n" } else { "" };
        self.gap = false;
        let text = &mut self.text;
        if text.extend_from_slice(gap.as_bytes()).is_err()
            || text.extend_from_slice(bytes).is_err()
        {
            self.refused = true;
        }
    }

    /// Appends a text, unless there was no memory to make it.
    pub(super) fn add(&mut self, text: Result<String, AllocError>) {
        match text {
            Ok(text) => self.put(text.as_bytes()),
            Err(_) => self.refused = true,
        }
    }

    /// Appends the name of image number `image` as it is printed. Returns the number of its bytes.
    pub(super) fn add_name(&mut self, image: usize) -> usize {
        let Some(name) = self.names.get(image) else {
            return 0;
        };
        match name_text(self.alloc, name) {
            Ok(name) => {
                self.put(name.as_slice());
                name.len()
            }
            Err(_) => {
                self.refused = true;
                0
            }
        }
    }

    /// Separates what precedes, if anything does, from what follows, if anything will.
    pub(super) fn begin_part(&mut self) {
        self.gap = !self.text.is_empty();
    }

    /// Begins a list, whose heading is printed only with its first entry.
    pub(super) fn begin_list(&mut self, heading: &'static str) {
        self.heading = heading;
    }

    /// Begins an entry of the list.
    pub(super) fn begin_entry(&mut self) {
        self.put(self.heading.as_bytes());
        self.heading = "";
        self.put(b"  ");
    }

    /// Returns the text.
    ///
    /// # Errors
    ///
    /// Returns `AllocError` if memory was refused for any part of it.
    pub(super) fn finish(self) -> Result<Vec<u8>, AllocError> {
        if self.refused {
            return Err(AllocError);
        }
        Ok(self.text)
    }
}
