//! What is missing when a command ends with exit status 3, and where to look for it.
use super::container::name_unread;
use super::differing::difference_text;
use super::{FaultSite, NEVER};
use crate::command_line::Order;
use crate::images::Images;
use crate::names::names_of;
use crate::normal::NormalImages;
use crate::refusal::are_files;
use crate::screen::Progress;
use crate::shown::Shown;
use crate::unpack::UnpackOrder;
use crate::words::set_id_of;
use std::alloc::{AllocError, Global};
use tape_label::Field;
use tape_run::{FoundFiles, SectionKey, SetFile, find_files, means, volume_of};
use tape_set::Want;

/// The maximum number of sets, or of files, that an explanation lists.
const MOST: usize = 8;

/// Explains on standard error what is missing after this command. `awaited` is the part of the file
/// that `extract` expects next.
pub fn explain_missing<R: Progress>(rt: &R, order: &Order<'_>, awaited: Option<Want>) {
    let _ = match text_by_images(rt, order, awaited) {
        Some(text) => rt.eprint(format_args!("  {text}\n")),
        None => rt.eprint(format_args!("  {}\n", general_text(order))),
    };
}

/// Returns the explanation by what the images of the command contain, which are read again. Those of
/// kinds that are not read are named first. Returns `None` if a command has no images, if they
/// cannot be read twice, or if they do not show what is missing.
fn text_by_images<R: Progress>(rt: &R, order: &Order<'_>, awaited: Option<Want>) -> Option<String> {
    let named = match order {
        Order::Extract(order) => &order.images,
        Order::Salvage(order) => &order.images,
        Order::Unpack(order) => &order.images,
        Order::Merge(order) => &order.images,
        _ => return None,
    };
    if let Some(list) = named.list {
        list.file?;
    }
    let mut list = String::new(rt.alloc());
    let mut site = FaultSite::Unknown;
    let names = names_of(rt.host(), named, &mut list, &mut site).ok()?;
    text_by_names(rt, order, awaited, names.as_slice())
}

/// Does the same for images named `names`.
fn text_by_names<R: Progress>(
    rt: &R,
    order: &Order<'_>,
    awaited: Option<Want>,
    names: &[&str],
) -> Option<String> {
    if let Order::Merge(_) = order {
        return match are_files(rt.host(), names) {
            true => difference_text(rt, names).ok()?,
            false => None,
        };
    }
    let as_they_are = matches!(order, Order::Extract(order) if !order.task.again);
    name_unread(rt, names, as_they_are);
    if !are_files(rt.host(), names) {
        return None;
    }
    let again = matches!(order, Order::Extract(order) if order.task.again);
    let met = &match order {
        Order::Extract(_) if as_they_are => find_files(rt.alloc(), &mut Images::new(rt, names)),
        _ => find_files(rt.alloc(), &mut NormalImages::again(rt, names)),
    }
    .ok()?;
    let shelf = Shelf {
        alloc: rt.alloc(),
        names,
        met,
        awaited: awaited.map(|want| want.sect),
        again,
    };
    shelf.text(order)
}

/// The images of a command, by their names, what is on them, and how they were read.
#[derive(Clone, Copy)]
struct Shelf<'n> {
    alloc: Global,
    names: &'n [&'n str],
    met: &'n FoundFiles,
    /// The section that `extract` expects next, or `None` for another command.
    awaited: Option<u16>,
    /// Whether `extract` read the images until a pass recovered nothing.
    again: bool,
}

impl Shelf<'_> {
    /// Returns what is missing after the command, or `None` if the images do not show it.
    fn text(&self, order: &Order<'_>) -> Option<String> {
        match order {
            Order::Extract(order) => self.file_text(order.task.set_id, order.task.file).ok()?,
            Order::Salvage(order) => self.file_text(order.task.set_id, order.task.file).ok()?,
            Order::Unpack(order) => self.choice_text(order),
            _ => None,
        }
    }

    /// Returns what is missing of a file, by its labels and sections. Returns `None` if these do
    /// not show it.
    fn file_text(&self, set_id: Field<6>, file: u16) -> Result<Option<String>, AllocError> {
        let files = self.met.files.as_slice();
        let found = files
            .iter()
            .find(|found| found.set_id == set_id && found.file == file);
        let text = match found {
            None if !files.iter().any(|found| found.set_id == set_id) => {
                self.no_set_text(set_id)?
            }
            None => self.no_file_text(set_id)?,
            Some(found) if found.differs => {
                String::from_str(
                    self.alloc,
                    "Labels of different files have this number, or complete copies of a section
  of the file differ: 'tape survey' says which.
  Keep the images of each set in a directory of its own.",
                )?
            }
            Some(found) => return self.section_text(found),
        };
        Ok(Some(text))
    }

    /// Returns the text if no file of the set was found.
    fn no_set_text(&self, set_id: Field<6>) -> Result<String, AllocError> {
        let (set, sets) = (shown(self.alloc, &set_id)?, self.list_of(None)?);
        if sets.is_empty() {
            let is_strict = self.awaited.is_some() && !self.again;
            let text = match is_strict {
                true => "No file of any set was found on these images as they are. With --again,
  tape also reads labels in EBCDIC or with padding, and other formats.",
                false => "No file of any set was found on these images.
  'tape survey' says what they are.",
            };
            return String::from_str(self.alloc, text);
        }
        format!(in self.alloc;
            "No label of set {set} was found on these images.
  Sets found: {sets}.
  Give one of them as SET, or add the images of set {set}."
        )
    }

    /// Returns the text if no label of the file was found.
    fn no_file_text(&self, set_id: Field<6>) -> Result<String, AllocError> {
        let (set, numbers) = (shown(self.alloc, &set_id)?, self.list_of(Some(set_id))?);
        format!(in self.alloc;
            "No label of this file was found. Files of set {set} on these images:
  {numbers}.
  'tape survey' prints their names."
        )
    }

    /// Returns the text about the section that `extract` expects next or, for `salvage`, about the
    /// first one that is complete on no image. Returns `None` if it is unknown whether an image has
    /// that section completely, or why it was not recovered.
    fn section_text(&self, found: &SetFile) -> Result<Option<String>, AllocError> {
        let SetFile { set_id, file, .. } = *found;
        let Some(sect) = self.awaited.or(found.lacks) else {
            return Ok(None);
        };
        let key = SectionKey { set_id, file, sect };
        let Some(on) = self.image_of(key)? else {
            return Ok(Some(self.no_section_text(key)?));
        };
        let text = match found.lacks {
            Some(lacks) if lacks < sect => return Ok(None),
            Some(lacks) if lacks == sect => format!(in self.alloc;
                "Section {sect} of file {file} is complete and readable on no image. It begins on
  {on}.
  Look for another copy of that reel, or for another image of it. If it has
  no block count (0), first 'tape merge' all its copies."
            )?,
            _ if self.again => return Ok(None),
            Some(_) => format!(in self.alloc;
                "Section {sect} of file {file} is complete on some image. With --again, tape
  reads the images until they yield nothing more; their order does not matter."
            )?,
            None => String::from_str(
                self.alloc,
                "Each section of the file is complete on some image. With --again, tape reads
  the images until they yield nothing more, and their order does not matter.",
            )?,
        };
        Ok(Some(text))
    }

    /// Returns the text if a section of the file is on no image.
    fn no_section_text(&self, key: SectionKey) -> Result<String, AllocError> {
        let SectionKey { set_id, file, sect } = key;
        let before = sect.saturating_sub(1);
        let earlier = SectionKey {
            set_id,
            file,
            sect: before,
        };
        match self.image_of(earlier)? {
            Some(on) => format!(in self.alloc;
                "Section {sect} of file {file} is on no image. It follows section {before} on
  {on}.
  Look for the reel that comes after that one."
            ),
            None => format!(in self.alloc;
                "Section {sect} of file {file} is on no image: look for the reel with its
  beginning. 'tape survey' shows which volumes were found."
            ),
        }
    }

    /// Returns the volume and the name of an image on which a section begins, if there is one.
    fn image_of(&self, key: SectionKey) -> Result<Option<String>, AllocError> {
        let Some(at) = self.met.locations.get(&key) else {
            return Ok(None);
        };
        let (Some(name), Some(image)) = (self.names.get(*at), self.met.images.as_slice().get(*at))
        else {
            return Ok(None);
        };
        let name = Shown(*name);
        let Some(volume) = volume_of(image) else {
            return Ok(Some(format!(in self.alloc; "{name}")?));
        };
        let volume = shown(self.alloc, &volume)?;
        Ok(Some(format!(in self.alloc; "volume {volume}, image {name}")?))
    }

    /// Returns what was chosen to be unpacked and not found. Returns `None` if something else is
    /// missing.
    fn choice_text(&self, order: &UnpackOrder<'_>) -> Option<String> {
        let set_id = order.set.and_then(set_id_of)?;
        let files_of_set = || self
            .met
            .files
            .as_slice()
            .iter()
            .filter(|file| file.set_id == set_id);
        if files_of_set().next().is_none() {
            return self.no_set_text(set_id).ok();
        }
        for word in order.files.as_slice() {
            if !files_of_set().any(|file| means(*word, file)) {
                return self.no_file_text(set_id).ok();
            }
        }
        None
    }

    /// Returns the first sets that were found, each once, or the numbers of the first files of set
    /// `of`. A list of more than the maximum number of names ends with an ellipsis.
    fn list_of(&self, of: Option<Field<6>>) -> Result<String, AllocError> {
        let (mut text, mut count) = (String::new(self.alloc), 0);
        let mut before: Option<Field<6>> = None;
        for file in self.met.files.as_slice() {
            let (is_listed, name) = match of {
                Some(set_id) => (
                    file.set_id == set_id,
                    format!(in self.alloc; "{}", file.file)?,
                ),
                None => (
                    before != Some(file.set_id),
                    shown(self.alloc, &file.set_id)?,
                ),
            };
            before = Some(file.set_id);
            if is_listed && count <= MOST {
                text.push_str(if count > 0 { ", " } else { "" })?;
                text.push_str(if count < MOST { name.as_str() } else { ".." })?;
                count += 1;
            }
        }
        Ok(text)
    }
}

/// Returns an identifier without the spaces at its end.
fn shown(alloc: Global, field: &Field<6>) -> Result<String, AllocError> {
    let mut text = String::new(alloc);
    for byte in field.bytes() {
        let is_printed = (b' '..=b'~').contains(byte);
        text.push(if is_printed { char::from(*byte) } else { '?' })?;
    }
    text.as_str().trim_end().to_string(alloc)
}

const NOT_MERGED: &str =
    "The images differ (after DIFFER, 'tape show IMAGE N' shows the item), or the
  image that they form has unreadable items, wrong block counts (COUNT) or no
  end (CUT): the lines say which.";

const RESYNCED: &str =
    "The bytes between the places are lost, and perhaps blocks and tape marks with
  them. Each image is a reading of its own: name them together, and with other
  copies, for 'tape survey', 'tape unpack' or 'tape salvage'.";

/// Returns the explanation that is true whatever the images contain.
fn general_text(order: &Order<'_>) -> &'static str {
    match order {
        Order::Check(_, None, _) =>
            "Each line LACKS names a set, a file and its first section that is complete on
  no image: look for another copy of that section. Without such a line, no
  section was found at all. 'tape survey' shows what the images are.",
        Order::Check(_, Some(_), _) =>
            "A section is missing, damaged or unreadable, copies differ, HDR2 is lost, or
  an image was not read to its end: the lines of files and images say which.",
        Order::Extract(order) if order.task.again =>
            "Look for another copy of the section in the last line (AWAITS). If 'survey'
  says that it is complete, its labels or records could not be used: see the
  answers above. 'tape salvage' (--form blocks) recovers what can be read.",
        Order::Extract(_) =>
            "The last line says which file, section and block are expected next (AWAITS).
  Look for the reel with that section, or for another copy of it.
  'tape survey' shows which sections the images contain.",
        Order::Unpack(_) =>
            "The lines say what is missing. After AWAITS and NOT COMPARED, run it again
  with all images, old and new; after DIFFERENT unpack into another directory.
  For the other lines see 'tape survey', for CONFLICT also 'tape salvage'.",
        Order::Salvage(_) =>
            "The lines say what is missing, could not be read, or differs. Another copy of
  these reels may have it. After NO FORM or REFUSED use --form blocks.",
        Order::Stage(_) =>
            "The stage has only a part of the file, or is damaged. After AWAITS, 'tape
  extract --stage' continues from it; after TRUNCATED AT, start a new stage.",
        Order::Merge(_) => NOT_MERGED,
        Order::Convert(_) => RESYNCED,
        // They do not end so.
        Order::List(_) | Order::Show(_) | Order::Init(_) | Order::Write(_) => NEVER,
    }
}
