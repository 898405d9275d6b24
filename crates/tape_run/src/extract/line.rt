//! The lines that `extract` reports.

ghost use Rattle.std.specs.Prelude.{◌≡◌, ◌≤◌, ◌++◌, Some};
ghost use Rattle.arrayvec.specs.ArrayString.{array_string_len};
ghost use Rattle.tape_run.specs.ReelLine.{answer_text, end_text, reel_line, part_text, last_line};

use crate::reel_reader::ReelAnswer;
use crate::text::push_decimal;
use arrayvec::ArrayString;
use std::fmt;
use tape_core::{Answer, Reason};
use tape_image::ImageFault;
use tape_set::Want;

/// The line about an image: its number, and the answer of its reading, or that it was not opened.
#[derive(Clone, Copy)]
pub struct ReelLine {
    pub number: u64,
    pub outcome: Option<ReelAnswer>,
}

impl fmt::Display for ReelLine {
    ghost output = { λ line. Some (reel_line line.number line.outcome) };

    fn fmt<W: fmt::Write>(&self, f: &mut fmt::Formatter<W>) -> fmt::Result {
        let number = self.number;
        match self.outcome {
            Some(told) => {
                let answer = AnswerText(told.answer);
                let end = EndText(told.fault);
                write!(f, "REEL {number} {answer}{end}\n")
            }
            None => write!(f, "REEL {number} NOT OPENED\n"),
        }
    }
}

/// The text of the answer that ended a reading.
#[derive(Clone, Copy)]
struct AnswerText(Answer);

impl fmt::Display for AnswerText {
    ghost output = { λ text. Some (answer_text text.0) };

    fn fmt<W: fmt::Write>(&self, f: &mut fmt::Formatter<W>) -> fmt::Result {
        match self.0 {
            Answer::Passed => write!(f, "PASSED"),
            Answer::Deliver => write!(f, "DELIVER"),
            Answer::SectionDone => write!(f, "SECTION DONE"),
            Answer::Complete => write!(f, "COMPLETE"),
            Answer::Useless(reason) => match reason {
                Reason::NotLabelled => write!(f, "NOT LABELLED"),
                Reason::OtherSet => write!(f, "OTHER SET"),
                Reason::NotOnReel => write!(f, "NOT ON REEL"),
                Reason::LaterSection => write!(f, "LATER SECTION"),
                Reason::EarlierSection => write!(f, "EARLIER SECTION"),
                Reason::BadItem => write!(f, "BAD ITEM"),
                Reason::ReelEnded => write!(f, "REEL ENDED"),
                Reason::BadBlock(fault) => {
                    let number = fault.number();
                    let place = fault.place;
                    write!(f, "BAD BLOCK {number} {place}")
                }
                Reason::BlockCount { label, seen } => write!(f, "BLOCK COUNT {label} {seen}"),
                Reason::SpanLeft => write!(f, "SPAN LEFT"),
                Reason::SectionDiffers => write!(f, "SECTION DIFFERS"),
                Reason::BadLabel(fault) => write!(f, "BAD LABEL {}", fault.number()),
                Reason::Broken => write!(f, "BROKEN"),
            },
        }
    }
}

/// The fault of the image that ended a reading, if any.
#[derive(Clone, Copy)]
struct EndText(Option<ImageFault>);

impl fmt::Display for EndText {
    ghost output = { λ text. Some (end_text text.0) };

    fn fmt<W: fmt::Write>(&self, f: &mut fmt::Formatter<W>) -> fmt::Result {
        match self.0 {
            Some(fault) => {
                let number = fault.cause.number();
                let place = fault.place;
                write!(f, " IMAGE {number} {place}")
            }
            None => Ok(()),
        }
    }
}

/// The length of the longest last line.
pub type ReportLine = ArrayString<256>;

/// Returns the last line: the file's number and the section and block that are missing, with the
/// number of delivered parts of the block if it is not 0; or that the file is complete, with the
/// number of its records.
pub fn last_line(want: Option<Want>, records: u64) -> ReportLine
    ensures { result.bytes ≡ last_line want records }
{
    let mut line = ReportLine::new();
    match want {
        Some(want) => {
            line.push_str("AWAITS ");
            push_decimal(&mut line, u64::from(want.file));
            line.push_str(" ");
            push_decimal(&mut line, u64::from(want.sect));
            line.push_str(" ");
            push_decimal(&mut line, u64::from(want.block));
            put_part(&mut line, want.part);
        }
        None => {
            line.push_str("COMPLETE ");
            push_decimal(&mut line, records);
        }
    }
    line.push_str("\n");
    line
}

/// Appends the number of delivered parts of a block, if any.
fn put_part(line: &mut ReportLine, part: u32)
    requires room { array_string_len line.old ≤ 129 }
    ensures text { line.new.bytes ≡ line.old.bytes ++ part_text part }
    ensures len { array_string_len line.new ≤ 170 }
{
    if part > 0 {
        line.push_str(" ");
        push_decimal(line, u64::from(part));
    }
}
