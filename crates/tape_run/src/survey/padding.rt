//! What follows the last records of blocks, and is or may be padding.
ghost use Rattle.std.specs.Prelude.{◌≡◌, ◌-◌, false, length, slice_get};
ghost use Rattle.tape_blocks.specs.Block.{first_other};
ghost use Rattle.tape_run.specs.SurveyPadding.{last_padding, padding_after, padding_in};
ghost use Rattle.tape_run.specs.SurveyPadding.{ends_in_circumflexes, left_out, padding_if};

use super::fits::Fit;
use crate::section::Entry;
use tape_label::{Format, Head2};

/// The padding of a file, as far as the standard does not allow it, or it may be records.
#[derive(Clone, Copy, Debug, PartialEq, Eq)]
pub enum Padding {
    /// NULs after the last record of a block, which are left out.
    Nuls,
    /// Spaces after the last record of a block, which are left out.
    Spaces,
    /// The last record of the file, in format F, has only circumflexes. It is read as a record, as
    /// the standard requires, but it may be padding, and so may those before it.
    Circumflexes,
}

/// Returns the index of the first byte that is not a circumflex, or `None` if all are.
fn first_other(bytes: &[u8]) -> Option<usize>
    ensures { result ≡ first_other bytes.now }
{
    bytes.iter().position(|byte| *byte != b'^')
}

/// Returns whether the last record of a block in format F, and all after it, are circumflexes.
fn ends_in_circumflexes(form: &Head2, block: &[u8]) -> bool
    ensures { result ≡ ends_in_circumflexes form.now block.now }
{
    let (offset, rec_len) = (usize::from(form.offset), form.rec_len as usize);
    if !matches!(form.format, Format::Fixed) || rec_len == 0 || block.len() < offset + rec_len {
        return false;
    }
    let start = block.len() - (block.len() - offset) % rec_len - rec_len;
    first_other(&block[start..]).is_none()
}

/// Returns the padding that was left out of a block: NULs if its last byte is one.
fn left_out(block: &[u8]) -> Padding
    ensures { result ≡ left_out block.now }
{
    match block.get(block.len().saturating_sub(1)).copied() {
        Some(0) => Padding::Nuls,
        _ => Padding::Spaces,
    }
}

/// Returns the padding of a block, if it has any; `padded` says whether some was left out.
fn last_padding(padded: bool, form: &Head2, block: &[u8]) -> Option<Padding>
    ensures { result ≡ last_padding padded form.now block.now }
{
    if padded {
        Some(left_out(block))
    } else if ends_in_circumflexes(form, block) {
        Some(Padding::Circumflexes)
    } else {
        None
    }
}

/// Returns the padding of a section after one more block: what was left out of a block is kept,
/// and a record of circumflexes counts only as the last one.
pub(super) fn padding_after(
    before: Option<Padding>,
    padded: bool,
    form: &Head2,
    block: &[u8],
) -> Option<Padding>
    ensures { result ≡ padding_after before padded form.now block.now }
{
    match before {
        Some(Padding::Nuls) | Some(Padding::Spaces) => before,
        _ => last_padding(padded, form, block),
    }
}

/// Returns the padding of a complete section: a record of circumflexes counts only at the end of a
/// file whose blocks are in its format.
pub(super) fn padding_in(fit: &Fit, entry: &Entry) -> Option<Padding>
    ensures { result ≡ padding_in fit.now entry.now }
{
    match fit.padding {
        Some(Padding::Circumflexes) if !entry.eof || fit.misfit.is_some() => None,
        padding => padding,
    }
}

/// Returns the padding that is left out of the blocks of a section.
pub(super) fn padding_left_out(fit: &Fit) -> Option<Padding>
    ensures { result ≡ padding_if false fit.now.padding }
{
    match fit.padding {
        Some(Padding::Circumflexes) => None,
        padding => padding,
    }
}

impl Padding {
    ghost use Rattle.tape_run.specs.SurveyPadding.{padding_text};

    /// Returns its name in rows and records.
    pub fn name(&self) -> &'static str
        ensures { result.now ≡ padding_text self.now }
    {
        match self {
            Padding::Nuls => "NUL",
            Padding::Spaces => "SPACE",
            Padding::Circumflexes => "CIRCUMFLEX",
        }
    }
}
