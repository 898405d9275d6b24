//! The lines of `merge` and `compare`.

ghost use Rattle.std.specs.Prelude.{◌≡◌, ◌<◌, map, IfOk, Some, string_bytes};
ghost use Rattle.tape_image.specs.Reader.{ending_of};
ghost use Rattle.tape_run.specs.MergeLines.{with_name, line_about, stop_of, merged_end};
ghost use Rattle.tape_run.specs.MergeLines.{miscounted_text, kind_text, kind_of, name_at};

use super::reading::{Reading, Verdict};
use crate::catalogue::stop_at;
use crate::quoting::name_text;
use crate::section::ImageStop;
use std::alloc::{AllocError, Global};
use std::fmt::{self, Display};
use std::io::Read;

/// The end of the merged image.
#[derive(Clone, Copy, PartialEq, Eq)]
pub(crate) enum MergedEnd {
    /// By an end-of-medium marker.
    Marked,
    /// With the end of its bytes.
    Physical,
    /// At a fault: each of the longest readings stopped there.
    Cut,
}

impl Display for MergedEnd {
    ghost output = { λ end. Some (merged_end end) };

    fn fmt<W: fmt::Write>(&self, f: &mut fmt::Formatter<W>) -> fmt::Result {
        match *self {
            MergedEnd::Marked => write!(f, "MARKED"),
            MergedEnd::Physical => write!(f, "PHYSICAL"),
            MergedEnd::Cut => write!(f, "CUT"),
        }
    }
}

/// The end of the line about the merged image: the number of sections with a wrong count, unless it
/// is 0.
#[derive(Clone, Copy)]
pub(crate) struct Miscounted(pub u64);

impl Display for Miscounted {
    ghost output = { λ text. Some (miscounted_text text.0) };

    fn fmt<W: fmt::Write>(&self, f: &mut fmt::Formatter<W>) -> fmt::Result {
        match self.0 {
            0 => write!(f, "\n"),
            sections => write!(f, " COUNT {sections}\n"),
        }
    }
}

/// An item, without its bytes.
#[derive(Clone, Copy)]
pub(crate) enum ItemKind {
    /// A block of this length.
    Block(u64),
    Mark,
    Bad,
}

/// An item, as `list` prints it without labels.
impl Display for ItemKind {
    ghost output = { λ kind. Some (kind_text kind) };

    fn fmt<W: fmt::Write>(&self, f: &mut fmt::Formatter<W>) -> fmt::Result {
        match *self {
            ItemKind::Block(length) => write!(f, "BLOCK {length}"),
            ItemKind::Mark => write!(f, "MARK"),
            ItemKind::Bad => write!(f, "BAD"),
        }
    }
}

/// Returns a line that ends with a name.
fn with_name(alloc: Global, text: String, name: &str) -> Result<Vec<u8>, AllocError>
    ensures { IfOk result (λ line. line.items ≡ with_name (string_bytes text) name.now) }
{
    let mut line = text.into_bytes();
    line.push(b' ')?;
    let name = name_text(alloc, name)?;
    line.extend_from_slice(name.as_slice())?;
    line.push(b'\n')?;
    Ok(line)
}

/// Returns a line about the reading with this number, counted from 0: its items, how many of them
/// are bad, and how it stopped. If `differ` is true, the line is about the last item that the
/// reading was asked for, with a letter for each of the items that differ; it is empty if the
/// reading has no item there.
pub(crate) fn line_about<R: Read>(
    alloc: Global,
    names: &[&str],
    differ: bool,
    number: usize,
    reading: &Reading<'_, R>,
) -> Result<Vec<u8>, AllocError>
    requires { number < 18446744073709551615 }
    ensures { IfOk result (λ line. line.items
        ≡ line_about differ (map (λ n. n.now) names.now) number reading.now) }
{
    let (image, items, bad) = (number + 1, reading.items, reading.bad);
    let (kind, from) = (kind_of(reading.length), reading.from);
    let text = match (differ, reading.verdict, stop_of(reading)) {
        (false, _, Some(stop)) => format!(in alloc; "IMAGE {image} {items} {bad} {stop}")?,
        (false, _, None) => format!(in alloc; "IMAGE {image} {items} {bad} -")?,
        (true, Verdict::First, _) => format!(in alloc; "HAS {image} A {kind} {from}")?,
        (true, Verdict::Second, _) => format!(in alloc; "HAS {image} B {kind} {from}")?,
        (true, Verdict::Third, _) => format!(in alloc; "HAS {image} C {kind} {from}")?,
        (true, Verdict::Bad, _) => format!(in alloc; "HAS {image} - BAD {from}")?,
        (true, Verdict::Ended | Verdict::Failed(_), _) => return Ok(Vec::new(alloc)),
    };
    with_name(alloc, text, name_at(names, number))
}

/// Returns how a reading stopped, if it has.
fn stop_of<R: Read>(reading: &Reading<'_, R>) -> Option<ImageStop>
    ensures { result ≡ stop_of (ending_of reading.now.image.status) reading.now.verdict }
{
    match (reading.image.ending(), reading.verdict) {
        (Some(ending), _) => Some(stop_at(ending)),
        (None, Verdict::Failed(fault)) => Some(ImageStop::Fault(fault)),
        (None, _) => None,
    }
}

/// Returns an item that could be read, given its length: no block is empty.
fn kind_of(length: u64) -> ItemKind
    ensures { result ≡ kind_of length }
{
    match length {
        0 => ItemKind::Mark,
        _ => ItemKind::Block(length),
    }
}

/// Returns the name of image `number`, counted from 0.
pub(crate) fn name_at<'n>(names: &[&'n str], number: usize) -> &'n str
    ensures { result.now ≡ name_at (map (λ n. n.now) names.now) number }
{
    match names.get(number) {
        Some(name) => *name,
        None => "",
    }
}
