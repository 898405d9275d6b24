//! The lines of `MANIFEST.jsonl`, the record of how files were recovered into a directory.
ghost use Rattle.std.specs.Prelude.{◌≡◌, ◌++◌, [], IfOk, IfSome, OnOk};

use super::manifest::{path_in, place_text, read_text};
use super::offsets::{Starts, block_offset, starts_in};
use crate::build_note::Note;
use crate::fault::{FileFault, ToolFault};
use crate::refusal::FileId;
use crate::screen::{Host, Progress};
use indexmap::IndexMap;
use std::alloc::{AllocError, Global};
use std::fs;
use tape_run::SectionKey;
use tape_writer::system::found;

/// The name of the record.
pub const RECORD: &str = "MANIFEST.jsonl";

/// The beginning of each line.
const ROW: &[u8] = b"{\"row\":\"";

/// The beginning of the line of a file, up to its name.
const FILE: &[u8] = b"{\"row\":\"FILE\",\"name\":\"";

/// The lines of a record.
#[derive(Drop)]
pub struct RecordLines {
    text: Vec<u8>,
    /// The keys of the lines that were read: see `key_of`.
    keys: IndexMap<Vec<u8>, bool>,
}

impl RecordLines {
    /// Creates an empty record.
    pub fn new(alloc: Global) -> RecordLines
        ensures { result.text.items ≡ [] }
    {
        RecordLines {
            text: Vec::new(alloc),
            keys: IndexMap::new(alloc),
        }
    }

    /// Returns the record with this text, or `None` if no record has it.
    pub fn of(alloc: Global, text: Vec<u8>) -> Result<Option<RecordLines>, AllocError>
        ensures { IfOk result (λ found.
            IfSome found (λ lines. lines.text.items ≡ text.items)) }
    {
        let mut keys = IndexMap::new(alloc);
        let is_record = add_keys(alloc, &mut keys, text.as_slice())?;
        Ok(if is_record {
            Some(RecordLines { text, keys })
        } else {
            None
        })
    }

    /// Adds a line.
    pub fn add(&mut self, line: &[u8]) -> Result<(), AllocError>
        ensures { OnOk result (self.new.text.items ≡ self.old.text.items ++ line.now) }
    {
        self.text.extend_from_slice(line)?;
        Ok(())
    }
}

/// Adds the keys of the lines of a text, and returns whether it is that of a record.
fn add_keys(
    alloc: Global,
    keys: &mut IndexMap<Vec<u8>, bool>,
    text: &[u8],
) -> Result<bool, AllocError> {
    if text.last().is_some_and(|byte| *byte != b'\n') || str::from_utf8(text).is_err() {
        return Ok(false);
    }
    for line in text.split(|byte| *byte == b'\n') {
        if line.is_empty() {
            continue;
        }
        if !line.starts_with(ROW) || !line.ends_with(b"}") {
            return Ok(false);
        }
        let key = Vec::from_slice(alloc, key_of(line))?;
        keys.insert(key, true).map_err(|_| AllocError)?;
    }
    Ok(true)
}

/// Returns the key of a line: for that of a file its beginning, up to the end of the name, and
/// otherwise the line.
fn key_of(line: &[u8]) -> &[u8] {
    let Some(rest) = line.strip_prefix(FILE) else {
        return line;
    };
    let name = rest.iter().position(|byte| *byte == b'"').unwrap_or(0);
    line.get(..FILE.len().saturating_add(name)).unwrap_or(line)
}

/// The record of a directory, which a run of `unpack` extends, or of one output.
#[derive(Drop)]
pub struct Record {
    path: String,
    /// The file that had the record before the run.
    before: Option<FileId>,
    /// The number of bytes that it had.
    len: usize,
    lines: RecordLines,
    /// How the program was built.
    pub note: Note,
    /// The images from which blocks came, by their numbers, counted from 0, and where the data of
    /// their sections begin.
    used: IndexMap<usize, Starts>,
}

impl Record {
    /// Creates the record of an output, at `path`, where there is no file.
    pub fn new<R: Host>(rt: &R, path: String) -> Record {
        Record {
            path,
            before: None,
            len: 0,
            lines: RecordLines::new(rt.alloc()),
            note: Note::read(rt),
            used: IndexMap::new(rt.alloc()),
        }
    }

    /// Reads the record of the directory `folder`, if there is one.
    ///
    /// # Errors
    ///
    /// Returns `Exists` if another file has its name, or one that is not such a record; otherwise
    /// the fault of reading it.
    pub fn open<R: Host>(rt: &R, folder: &str) -> Result<Record, ToolFault> {
        let mut record = Record::new(rt, path_in(rt.alloc(), folder, RECORD)?);
        record.read(rt)?;
        Ok(record)
    }

    /// Reads the lines of the record, which is empty, if its file exists.
    fn read<R: Host>(&mut self, rt: &R) -> Result<(), ToolFault> {
        let Some(there) = found(fs::symlink_metadata(rt, self.path.as_str()))? else {
            return Ok(());
        };
        // Neither a link nor a pipe is opened.
        if !there.is_file() {
            return Err(ToolFault::File(FileFault::Exists));
        }
        let text = read_text(rt, self.path.as_str())?;
        self.before = Some(FileId::of(&there));
        self.len = text.len();
        match RecordLines::of(rt.alloc(), text)? {
            Some(lines) => self.lines = lines,
            None => return Err(ToolFault::File(FileFault::Exists)),
        }
        Ok(())
    }

    /// Returns whether it had a file of this name before the run, as `unpack` names files.
    pub fn has_file(&self, alloc: Global, name: &str) -> Result<bool, AllocError> {
        let mut key = Vec::from_slice(alloc, FILE)?;
        key.extend_from_slice(name.as_bytes())?;
        Ok(self.lines.keys.contains_key(key.as_slice()))
    }

    /// Returns whether it had this line before the run. It is not the line of a file.
    pub fn has(&self, line: &[u8]) -> bool {
        let key = line.strip_suffix(b"\n").unwrap_or(line);
        self.lines.keys.contains_key(key)
    }

    /// Adds a line.
    pub fn add(&mut self, line: &[u8]) -> Result<(), AllocError> {
        self.lines.add(line)
    }

    /// Remembers that blocks came from image `number`, at `path`, and returns the byte offset there
    /// of this block of a section, if it is found.
    pub fn note_use<R: Host>(
        &mut self,
        rt: &R,
        number: usize,
        path: &str,
        (key, block): (SectionKey, u32),
    ) -> Result<Option<u64>, AllocError> {
        if !self.used.contains_key(&number) {
            let starts = starts_in(rt, path)?;
            self.used.insert(number, starts).map_err(|_| AllocError)?;
        }
        let starts = self.used.get(&number);
        match starts.and_then(|starts| starts.get(&key)).copied() {
            Some(Some(start)) if block == 0 => Ok(start.first),
            Some(Some(start)) => block_offset(rt, path, start.data, block),
            _ => Ok(None),
        }
    }

    /// Returns whether blocks came from image `number`.
    pub fn is_used(&self, number: usize) -> bool {
        self.used.contains_key(&number)
    }

    /// Writes the record, if the run added a line. It replaces the record that was read, if that is
    /// unchanged.
    ///
    /// # Errors
    ///
    /// Returns `Exists` if it is not; otherwise the fault of creating or writing a file.
    pub fn write<R: Progress>(&self, rt: &R) -> Result<(), ToolFault> {
        let text = self.lines.text.as_slice();
        if text.len() == self.len {
            return Ok(());
        }
        place_text(rt, self.path.as_str(), self.before, text)
    }
}
