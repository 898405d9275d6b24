//! The state of an image, in a word.

ghost use Rattle.std.specs.Prelude.{◌<◌};

use crate::container::Container;
use crate::section::ImageStop;
use crate::survey::facts::{is_named, is_no_image};
use crate::survey::glance::First;
use crate::survey::view::{ImageSurvey, is_end, is_ended};

/// The state of an image.
#[derive(Clone, Copy, PartialEq, Eq)]
pub(super) enum ImageState {
    /// A volume without damage.
    Ok,
    /// A volume without sections.
    Blank,
    /// It has a good copy of a section whose good copies differ.
    Conflict,
    Damaged,
    Unsupported,
    /// The image has no items.
    Empty,
    /// No part of it can be read as an image.
    NotTape,
    NotOpened,
}

/// The words for the states of images, in their order.
pub(super) const IMAGE_WORDS: [&str; 8] = [
    "ok",
    "blank",
    "in conflict",
    "damaged",
    "unsupported",
    "empty",
    "not a tape",
    "not opened",
];

impl ImageState {
    /// Returns the place of the state among all.
    pub(super) fn place(self) -> usize
        ensures { result < 8 }
    {
        match self {
            ImageState::Ok => 0,
            ImageState::Blank => 1,
            ImageState::Conflict => 2,
            ImageState::Damaged => 3,
            ImageState::Unsupported => 4,
            ImageState::Empty => 5,
            ImageState::NotTape => 6,
            ImageState::NotOpened => 7,
        }
    }
}

/// Returns the state of a volume.
fn volume_state(sight: &ImageSurvey) -> ImageState {
    if sight.is_sound() {
        return if sight.glance.files == 0 {
            ImageState::Blank
        } else {
            ImageState::Ok
        };
    }
    let ends = is_ended(sight.glance.course) && is_end(sight.stop);
    if ends && sight.damaged.as_slice().is_empty() {
        ImageState::Unsupported
    } else {
        ImageState::Damaged
    }
}

/// Returns the state of an image by its first item.
fn state_by(sight: &ImageSurvey) -> ImageState {
    match sight.glance.first {
        First::Nothing => match &sight.stop {
            ImageStop::Fault(fault) if is_no_image(fault) => ImageState::NotTape,
            ImageStop::Fault(_) => ImageState::Damaged,
            ImageStop::Marked | ImageStop::Physical => ImageState::Empty,
        },
        First::Volume(_) => volume_state(sight),
        First::Bad => ImageState::Damaged,
        First::Ebcdic | First::Block(_) | First::Mark => ImageState::Unsupported,
    }
}

/// Returns the state of an image of a kind that `tape` does not read.
fn named_state(kind: Container) -> ImageState {
    match kind {
        Container::TextCopy => ImageState::Damaged,
        Container::Gzip
        | Container::Compress
        | Container::Bzip2
        | Container::Xz
        | Container::Zstd
        | Container::Zip
        | Container::SevenZip
        | Container::Tar
        | Container::Iso
        | Container::Commodore
        | Container::Spectrum => ImageState::NotTape,
        _ => ImageState::Unsupported,
    }
}

/// Returns the state of an image; `is_disputed` says whether complete copies of a section on it
/// differ. The kind of an image decides if it cannot be read to its end.
pub(super) fn state_of(sight: &Option<ImageSurvey>, is_disputed: bool) -> ImageState {
    let Some(sight) = sight else {
        return ImageState::NotOpened;
    };
    if is_disputed {
        return ImageState::Conflict;
    }
    if is_named(sight.kind) && !is_end(sight.stop) {
        named_state(sight.kind)
    } else {
        state_by(sight)
    }
}
