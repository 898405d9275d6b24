//! The report of `unpack`: its lines, and how many files they were about.

use super::run::Run;
use crate::fault::{FaultLine, ToolFault};
use crate::program::End;
use crate::readings::{place_in, printed_name};
use crate::screen::Progress;
use crate::staged::row_text;
use crate::uncounted::uncounted_of;
use crate::words::form_word;
use arrayvec::ArrayVec;
use std::alloc::AllocError;
use std::io::Write;
use std::{io, mem};
use tape_run::{
    FileKey, Notice, SetFile, UnpackOutcome, is_of_set, is_read, means, notice_line, report_file,
    total_line, write_text,
};

/// How the unpacking of a file ends or, as an error, the fault that ends the run.
pub type Ended = Result<End, ToolFault>;

impl<R: Progress, P: Write> Run<'_, R, P> {
    /// Reports the set and the words of the choice for which no file was found, and counts them.
    /// Returns whether there are none.
    pub fn report_absent(&mut self) -> Result<bool, ToolFault> {
        let (choice, met) = (self.choice, self.met);
        let files = met.files.as_slice();
        if let Some(set) = self.order.set
            && !files.iter().any(|file| is_of_set(choice.set_id, file))
        {
            self.tally.count(UnpackOutcome::NotFound, 1);
            self.notify(Notice::NoSet, set)?;
            return Ok(false);
        }
        let mut all = true;
        for word in choice.words {
            if !files.iter().any(|file| is_of_set(choice.set_id, file) && means(*word, file)) {
                self.tally.count(UnpackOutcome::NotFound, 1);
                self.notify(Notice::NoFile, *word)?;
                all = false;
            }
        }
        Ok(all)
    }

    /// Reports the images that were not read completely, and the counts.
    pub fn report_images(&mut self) -> Result<(), ToolFault> {
        let (names, met) = (self.names, self.met);
        for (name, image) in names.iter().zip(met.images.as_slice()) {
            // Of a damaged image the first reading is reported.
            if !is_read(image) && place_in(*name).1 == 0 {
                self.notify(Notice::Unread, *name)?;
            }
        }
        Ok(write_text(&mut self.out, &total_line(&self.tally))?)
    }

    /// Reports the images on which a section of a chosen file begins that follows the one which
    /// ends the file. Returns whether there are none.
    pub fn report_after_end(&mut self) -> Result<bool, ToolFault> {
        let (choice, names, met) = (self.choice, self.names, self.met);
        let mut all = true;
        for file in met.files.as_slice() {
            let number = met.after_end(file).filter(|_| choice.chooses(file));
            if let Some(name) = number.and_then(|number| names.get(number)) {
                self.notify(Notice::AfterEnd, *name)?;
                all = false;
            }
        }
        Ok(all)
    }

    /// Prints a line about a name.
    fn notify(&mut self, notice: Notice, name: &str) -> Result<(), ToolFault> {
        let name = printed_name(self.rt.alloc(), name)?;
        let line = notice_line(self.rt.alloc(), notice, name.as_str())?;
        Ok(write_text(&mut self.out, line.as_slice())?)
    }

    /// Prints the outcome of a file with any details, and counts it.
    pub fn tell(
        &mut self,
        file: &SetFile,
        outcome: UnpackOutcome,
        details: &[u8],
        path: &str,
    ) -> Result<(), ToolFault> {
        let (alloc, out, tally) = (self.rt.alloc(), &mut self.out, &mut self.tally);
        Ok(report_file(alloc, out, tally, file, outcome, details, path)?)
    }

    /// Returns what follows the word of an outcome in its line: what follows the first word of
    /// `last`, and then the form of a file that has one that was chosen.
    pub fn details(&self, outcome: UnpackOutcome, last: &[u8]) -> Result<Vec<u8>, AllocError> {
        let mut details = Vec::from_slice(self.rt.alloc(), after_word(last))?;
        let has_form = match outcome {
            UnpackOutcome::Complete | UnpackOutcome::Ready | UnpackOutcome::Salvaged => true,
            _ => false,
        };
        if has_form && self.order.form.is_none() && self.form.is_some() {
            details.push(b' ')?;
            details.extend_from_slice(form_word(self.form().form).as_bytes())?;
        }
        Ok(details)
    }

    /// Prints the sections of a file whose blocks are not counted, and the rows of those that came
    /// from its stage alone.
    pub fn tell_uncounted(&mut self, file: &SetFile) -> Result<(), ToolFault> {
        let (rt, alloc) = (self.rt, self.rt.alloc());
        for number in &uncounted_of(rt, file.set_id, file.file)? {
            let details = format!(in alloc; " {number}")?;
            self.tell(file, UnpackOutcome::Uncounted, details.as_bytes(), "")?;
        }
        let key = FileKey {
            set_id: file.set_id,
            file: file.file,
        };
        for row in &rt.uncounted().staged.of(alloc, key)? {
            let details = row_text(alloc, *row)?;
            self.tell(file, UnpackOutcome::Staged, details.as_bytes(), "")?;
        }
        Ok(())
    }

    /// Prints the images that had other data of a file than those read before them. Returns
    /// whether there are none.
    pub fn tell_differing(&mut self, file: &SetFile) -> Result<bool, ToolFault> {
        let names = self.names;
        let differing = mem::replace(&mut self.differing, Vec::new(self.rt.alloc()));
        for number in differing.as_slice() {
            if let Some(name) = names.get(*number) {
                let name = printed_name(self.rt.alloc(), *name)?;
                self.tell(file, UnpackOutcome::Differs, b"", name.as_str())?;
            }
        }
        Ok(differing.is_empty())
    }

    /// Reports that a file failed, and with which fault.
    pub fn tell_failed(&mut self, file: &SetFile, path: &str, fault: ToolFault) -> Ended {
        let line = format!(in self.rt.alloc(); "{}", FaultLine(fault))?;
        // The fault's line without the program's name and the line feed.
        let text = line.as_str();
        let reason = text.strip_prefix("tape:").unwrap_or(text).trim_end();
        self.tell(file, UnpackOutcome::Failed, reason.as_bytes(), path)?;
        Ok(End::Faulted(fault))
    }
}

/// Returns what follows the first word of a line.
fn after_word(line: &[u8]) -> &[u8] {
    match line.iter().position(|byte| *byte == b' ') {
        Some(end) => &line[end..],
        None => b"",
    }
}

/// A writer that remembers the last line, as far as its buffer has room.
#[derive(Drop)]
pub struct LastLine {
    text: ArrayVec<u8, 256>,
    ended: bool,
}

impl LastLine {
    /// Creates a writer to which nothing was written.
    pub fn new() -> LastLine {
        LastLine {
            text: ArrayVec::new(),
            ended: false,
        }
    }

    /// Returns the line, without its line feed.
    pub fn text(&self) -> &[u8] {
        &self.text
    }
}

impl Write for LastLine {
    fn write(&mut self, buf: &[u8]) -> io::Result<usize> {
        for byte in buf {
            if self.ended {
                self.text.clear();
            }
            self.ended = *byte == b'\n';
            if !self.ended {
                let _ = self.text.try_push(*byte);
            }
        }
        Ok(buf.len())
    }

    fn flush(&mut self) -> io::Result<()> {
        Ok(())
    }
}
