//! The lines of `check`.
ghost use Rattle.std.specs.Prelude.{◌≡◌, ◌≤◌, length, Some};
ghost use Rattle.tape_run.specs.CheckLine.{stop_text, image_line, state_text};

use crate::section::{ImageLine, ImageStop, SectionState};
use std::fmt::{self, Display};

/// The line about image `number`, counted from 1: what was found on it, or that it was not opened.
#[derive(Clone, Copy)]
pub(crate) struct ImageRow {
    pub number: usize,
    pub met: Option<ImageLine>,
}

impl Display for ImageRow {
    ghost output = { λ row. Some (image_line row.number row.met) };

    fn fmt<W: fmt::Write>(&self, f: &mut fmt::Formatter<W>) -> fmt::Result {
        let number = self.number;
        match self.met {
            Some(met) => {
                let (items, stop) = (met.items, met.stop);
                write!(f, "IMAGE {number} {items} {stop}\n")
            }
            None => write!(f, "IMAGE {number} 0 NOT OPENED\n"),
        }
    }
}

/// How an image ended: with a fault, the number of its cause, and its offset.
impl Display for ImageStop {
    ghost output = { λ stop. Some (stop_text stop) };

    fn fmt<W: fmt::Write>(&self, f: &mut fmt::Formatter<W>) -> fmt::Result {
        match *self {
            ImageStop::Marked => write!(f, "MARKED"),
            ImageStop::Physical => write!(f, "PHYSICAL"),
            ImageStop::Fault(fault) => {
                let (number, place) = (fault.cause.number(), fault.place);
                write!(f, "FAULT {number} {place}")
            }
        }
    }
}

/// Returns the state of a section.
pub(crate) fn state_text(state: SectionState) -> &'static str
    ensures text { result.now ≡ state_text state }
    ensures short { length result.now ≤ 5 }
{
    match state {
        SectionState::Good => "GOOD",
        SectionState::Bad => "BAD",
        SectionState::Count => "COUNT",
        SectionState::Cut => "CUT",
    }
}
