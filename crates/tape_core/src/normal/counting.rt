//! The sections whose trailer labels do not count their blocks.

ghost use Rattle.std.specs.Prelude.{◌≡◌, codes};
ghost use Rattle.std.specs.Str.{bytes_eq};
ghost use Rattle.tape_label.specs.Positions.{positions};
ghost use Rattle.tape_core.specs.NormalForm.{Mended.filled_number, Image.normal_remaining};

use crate::normal::code::label_in;
use crate::normal::image::NormalImage;
use crate::normal::machine::{Change, Replacement, TapePlace};
use crate::normal::mend::fill;
use std::io::Read;
use tape_label::{Head1, read_head1, read_trail1};

/// Returns whether a first trailer label counts no blocks: its block count is blank, NUL or zero.
fn counts_nothing(label: &[u8; 80]) -> bool
    ensures { result ≡ bytes_eq (filled_number (positions label.now 55 60)) (codes "000000") }
{
    let mut count = [0u8; 6];
    count.copy_from_slice(&label[54..60]);
    fill(&mut count);
    count == *b"000000"
}

/// What the labels say about the section that is being read.
#[derive(Clone, Copy)]
pub(crate) struct Counting {
    /// Its first header label, if that can be read.
    begun: Option<Head1>,
    /// The labels of the section that ended last, if its blocks are not counted and it was not
    /// asked for.
    uncounted: Option<Head1>,
}

impl Counting {
    /// Nothing was read.
    pub(crate) const START: Counting = Counting {
        begun: None,
        uncounted: None,
    };

    /// Notes the item at `place`, of which `held` are the bytes, if it is a first header or trailer
    /// label.
    pub(crate) fn note(&mut self, place: TapePlace, next: TapePlace, change: &Change, held: &[u8]) {
        let Some(label) = held.get(4..84) else {
            return;
        };
        match (place, next) {
            (_, TapePlace::Second(_, _)) => {
                self.begun = match &change.instead {
                    Replacement::Label(better) => read_head1(better).ok(),
                    _ => read_head1(label).ok(),
                };
            }
            (TapePlace::Trailer(code, _), TapePlace::Trailers(_, seen)) if seen.has_no_count => {
                if label_in(code, label).is_some_and(|text| counts_nothing(&text)) {
                    self.uncounted = self.begun.or(match &change.instead {
                        Replacement::Label(better) => read_trail1(better).ok().map(|t| t.head),
                        _ => None,
                    });
                }
            }
            _ => {}
        }
    }
}

impl<R: Read> NormalImage<R> {
    /// Returns the labels of the section that ended last, if its blocks are not counted: its
    /// trailer label has no block count, and got the number of the blocks that were read. They are
    /// returned once. A single read never passes two trailer labels.
    pub fn take_uncounted(&mut self) -> Option<Head1>
        ensures { normal_remaining R.remaining self.new ≡ normal_remaining R.remaining self.old }
    {
        self.counting.uncounted.take()
    }
}
