//! What `MANIFEST.jsonl` says of images and of the forms of files, for `unpack --verify`.

use super::manifest::{path_in, read_text};
use super::record::RECORD;
use super::recorded::read_sum;
use super::run::Run;
use crate::fault::{FileFault, OUT_OF_MEMORY, ToolFault};
use crate::readings::place_in;
use crate::record_form::RecordForm;
use crate::screen::{Host, Progress};
use indexmap::IndexMap;
use json::{Error, Scratch, Value};
use std::alloc::{AllocError, Global};
use std::fs;
use std::io::Write;
use tape_blocks::Form;
use tape_run::{name_text, write_text};
use tape_writer::system::found;

/// An image from which blocks were taken.
#[derive(Drop)]
struct Source {
    name: String,
    /// Its size and its checksum, if they were read.
    read: Option<(u64, [u8; 32])>,
}

/// The images and the forms of files in a record.
#[derive(Drop)]
pub struct Recorded {
    sources: Vec<Source>,
    /// The form of each file by its name, where it was recovered last.
    forms: IndexMap<Vec<u8>, RecordForm>,
}

/// Why a line of a record is not understood.
#[derive(Drop)]
enum LineFault {
    NoMemory,
    NoLine,
}

impl From<AllocError> for LineFault {
    fn from(_error: AllocError) -> LineFault {
        LineFault::NoMemory
    }
}

impl Recorded {
    /// Creates what is known without a record.
    pub fn new(alloc: Global) -> Recorded {
        Recorded {
            sources: Vec::new(alloc),
            forms: IndexMap::new(alloc),
        }
    }

    /// Reads the record of the directory `folder`, if there is one.
    ///
    /// # Errors
    ///
    /// Returns `ReadFailed` if it cannot be read, or is not one.
    pub fn read<R: Host>(rt: &R, folder: &str) -> Result<Recorded, ToolFault> {
        let mut recorded = Recorded::new(rt.alloc());
        let path = path_in(rt.alloc(), folder, RECORD)?;
        let failed = ToolFault::File(FileFault::ReadFailed);
        match found(fs::metadata(rt, path.as_str()))? {
            Some(there) if there.is_file() => {}
            Some(_) => return Err(failed),
            None => return Ok(recorded),
        }
        let text = read_text(rt, path.as_str())?;
        let Ok(text) = str::from_utf8(text.as_slice()) else {
            return Err(failed);
        };
        for line in text.split('\n') {
            if line.is_empty() {
                continue;
            }
            match recorded.take_line(rt.alloc(), line) {
                Ok(()) => {}
                Err(LineFault::NoMemory) => return Err(OUT_OF_MEMORY),
                Err(LineFault::NoLine) => return Err(failed),
            }
        }
        Ok(recorded)
    }

    /// Takes what a line says.
    fn take_line(&mut self, alloc: Global, line: &str) -> Result<(), LineFault> {
        let mut scratch = Scratch::new(alloc);
        let value = match Value::parse(alloc, line, &mut scratch) {
            Ok(value) => value,
            Err(Error::OutOfMemory) => return Err(LineFault::NoMemory),
            Err(_) => return Err(LineFault::NoLine),
        };
        match text_in(&value, "row") {
            Some("IMAGE") => {
                let name = text_in(&value, "image").ok_or(LineFault::NoLine)?;
                let name = String::from_str(alloc, name)?;
                let read = read_in(&value);
                if self.sources.push(Source { name, read }).is_err() {
                    return Err(LineFault::NoMemory);
                }
            }
            Some("FILE") => {
                let name = text_in(&value, "name").ok_or(LineFault::NoLine)?;
                let name = Vec::from_slice(alloc, name.as_bytes())?;
                let form = match text_in(&value, "form") {
                    Some("lines") => Form::Lines,
                    Some("raw") => Form::Raw,
                    Some("counted") => Form::Counted,
                    _ => return Err(LineFault::NoLine),
                };
                let is_text = text_in(&value, "text").is_some();
                let form = RecordForm { form, is_text };
                self.forms.insert(name, form).map_err(|_| AllocError)?;
            }
            Some(_) => {}
            None => return Err(LineFault::NoLine),
        }
        Ok(())
    }

    /// Returns the form of the file with this name in the directory, if it is recorded.
    pub fn form_of(&self, name: &str) -> Option<RecordForm> {
        self.forms.get(name.as_bytes()).copied()
    }
}

/// Returns the text of a member, if it is one.
fn text_in<'v>(value: &'v Value<'_>, key: &str) -> Option<&'v str> {
    value.get(key)?.as_str()
}

/// Returns the size and the checksum in the line of an image, if it has both.
fn read_in(value: &Value<'_>) -> Option<(u64, [u8; 32])> {
    let size = value.get("size")?.as_u64()?;
    let mut sum = [0; 32];
    match hex::decode_to_slice(text_in(value, "sha256")?.as_bytes(), &mut sum) {
        Ok(()) => Some((size, sum)),
        Err(_) => None,
    }
}

impl<R: Progress, P: Write> Run<'_, R, P> {
    /// Prints a line for each image in the record that is not among those that are named, by its
    /// size and checksum. Returns whether there is none.
    pub fn compare_sources(&mut self) -> Result<bool, ToolFault> {
        let (rt, names, recorded) = (self.rt, self.names, self.recorded);
        let mut reads = Vec::new(rt.alloc());
        if !recorded.sources.is_empty() {
            for name in names {
                if reads.push(read_sum(rt.host(), *name)).is_err() {
                    return Err(OUT_OF_MEMORY);
                }
            }
        }
        let mut all = true;
        for source in recorded.sources.as_slice() {
            if source.read.is_some() && reads.contains(&source.read) {
                continue;
            }
            let path = source.name.as_str();
            let number = names.iter().position(|name| place_in(*name).0 == path);
            let found = number.map(|number| reads.get(number).copied().flatten());
            let word = match (source.read, found) {
                (None, _) | (_, Some(None)) => "IMAGE NOT READ ",
                (_, Some(Some(_))) => "IMAGE DIFFERS ",
                (_, None) => "IMAGE MISSING ",
            };
            write_text(&mut self.out, word.as_bytes())?;
            let name = name_text(rt.alloc(), source.name.as_str())?;
            write_text(&mut self.out, name.as_slice())?;
            write_text(&mut self.out, b"\n")?;
            all = false;
        }
        Ok(all)
    }
}
