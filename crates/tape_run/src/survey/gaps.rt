//! File numbers that were not found, between those that were.
ghost use Rattle.std.specs.Prelude.{◌≡◌, ◌≤◌, ◌<◌, ◌-◌, Some};
ghost use Rattle.tape_run.specs.SurveyGaps.{is_found, gap_first, numbers_text};

use super::files::FileKey;
use super::view::Findings;
use std::fmt::{self, Display};
use tape_label::Field;

/// Returns whether a header label of file `file` of the set was found.
pub(crate) fn is_found(findings: &Findings, set_id: Field<6>, file: u16) -> bool
    ensures { result ≡ is_found findings.now set_id file }
{
    findings
        .files
        .notes
        .get(&FileKey { set_id, file })
        .is_some()
}

/// Returns the number after that of the last file found before `file`, or 1.
pub(crate) fn gap_first(findings: &Findings, set_id: Field<6>, file: u16) -> u16
    requires { 0 < file }
    ensures value { result ≡ gap_first findings.now set_id (file - 1) }
    ensures few { result ≤ file }
{
    let mut first = file;
    'back: while first > 1 {
        if is_found(findings, set_id, first - 1) {
            return first;
        }
        first -= 1;
    }
    first
}

/// The numbers from the first one up to, but not including, the second one.
#[derive(Clone, Copy)]
pub(crate) struct Numbers(pub(crate) u16, pub(crate) u16);

impl Display for Numbers {
    ghost output = { λ numbers. Some (numbers_text numbers.0 numbers.1) };

    fn fmt<W: fmt::Write>(&self, f: &mut fmt::Formatter<W>) -> fmt::Result {
        let (first, last) = (self.0, self.1.saturating_sub(1));
        if first < last {
            write!(f, "{first}-{last}")
        } else {
            write!(f, "{first}")
        }
    }
}
