//! The names of a run's images, in its arguments and in a list.

ghost use Rattle.std.specs.Prelude.{◌≡◌, ◌++◌, map};
ghost use Rattle.std.specs.Prelude.{IfOk};
ghost use Rattle.tape_tool.specs.Names.{end_byte, names_in};

use crate::explain::FaultSite;
use crate::fault::FileFault;
use crate::help;
use crate::refusal::{Refusal, open};
use crate::screen::Host;
use crate::shown::Shown;
use std::alloc::{AllocError, Global};
use std::fmt;
use std::io::{ErrorKind, Read};

/// The source of the names of a run's images.
#[derive(Drop)]
pub struct Named<'a> {
    /// The names in the arguments.
    pub words: Vec<&'a str>,
    /// The list of further names, if there is one.
    pub list: Option<List<'a>>,
}

/// A list of names.
#[derive(Clone, Copy)]
pub struct List<'a> {
    /// The list's file, unless the list is standard input.
    pub file: Option<&'a str>,
    /// Whether each name ends with a NUL instead of a line feed.
    pub null: bool,
}

/// The name of an image.
#[derive(Clone, Copy, PartialEq, Eq)]
pub enum ImageName<'a> {
    /// An argument.
    Word(&'a str),
    /// The name with this number in a list, counted from 1.
    Listed(usize),
}

impl fmt::Display for ImageName<'_> {
    fn fmt<W: fmt::Write>(&self, f: &mut fmt::Formatter<W>) -> fmt::Result {
        match self {
            ImageName::Word(name) => write!(f, "{}", Shown(*name)),
            ImageName::Listed(number) => write!(f, "name {number} in the list"),
        }
    }
}

impl<'a> Named<'a> {
    /// Returns the name of image `number`, counted from 0.
    pub fn image(&self, number: usize) -> ImageName<'a> {
        let words = self.words.as_slice();
        match words.get(number) {
            Some(name) => ImageName::Word(*name),
            None => ImageName::Listed(number.saturating_sub(words.len()).saturating_add(1)),
        }
    }
}

/// Returns the names of all images: those in the arguments, followed by those in the list, whose
/// text is stored in `text`. Opens nothing but the list. On error, `site` is the list.
///
/// # Errors
///
/// Returns `Faulted` with `NotOpened` or `ReadFailed` if the list could not be read to its end, or
/// with `OutOfMemory`; `NoText` if it is not UTF-8; `Words` if a line contains a NUL, or if no
/// image is named.
pub fn names_of<'t, 'a: 't, R: Host>(
    rt: &R,
    named: &Named<'a>,
    text: &'t mut String,
    site: &mut FaultSite<'a>,
) -> Result<Vec<&'t str>, Refusal> {
    let mut null = false;
    if let Some(list) = named.list {
        *site = FaultSite::List(list.file);
        *text = read_list(rt, list)?;
        null = list.null;
    }
    let names = all_names(rt.alloc(), named.words.as_slice(), text.as_str(), null)?;
    if names.is_empty() {
        return Err(Refusal::Words(match named.list {
            None => "name at least one image, or a list of names with --files-from",
            Some(_) => "the list contains no image names",
        }));
    }
    Ok(names)
}

/// Returns the text of a list.
fn read_list<R: Host>(rt: &R, list: List<'_>) -> Result<String, Refusal> {
    let mut bytes = Vec::new(rt.alloc());
    let read = match list.file {
        Some(path) => open(rt, path)?.read_to_end(&mut bytes),
        None => rt.reader().read_to_end(&mut bytes),
    };
    match read {
        Ok(_) => {}
        Err(error) if error.kind() == ErrorKind::OutOfMemory => {
            return Err(Refusal::from(AllocError));
        }
        Err(_) => return Err(Refusal::from(FileFault::ReadFailed)),
    }
    let text = match String::from_utf8(bytes) {
        Ok(text) => text,
        Err(error) => {
            let before = error
                .as_bytes()
                .iter()
                .take(error.utf8_error().valid_up_to());
            let end = end_of(list.null);
            let ended = before.filter(|byte| char::from(**byte) == end).count();
            return Err(Refusal::NoText(list.null, ended.saturating_add(1)));
        }
    };
    let lines = text.as_str();
    if list.null {
        Ok(text)
    } else if lines.contains('\0') {
        // No file name contains a NUL.
        Err(Refusal::Words("the names in the list end with NUL: add --null"))
    } else if lines.starts_with('\u{FEFF}') || lines.contains("\r\n") || lines.ends_with('\r') {
        Err(Refusal::Words(help::ODD_LINES))
    } else {
        Ok(text)
    }
}

/// Returns the names in the arguments `words`, followed by those in `text`, the contents of a list.
pub fn all_names<'a>(
    alloc: Global,
    words: &[&'a str],
    text: &'a str,
    null: bool,
) -> Result<Vec<&'a str>, AllocError>
    ensures { IfOk result (λ names. map (λ n. n.now) names.items
        ≡ map (λ w. w.now) words.now ++ names_in null text.now) }
{
    let mut names = Vec::from_slice(alloc, words)?;
    for piece in text.split(end_of(null)) {
        if !piece.is_empty() {
            names.push(piece)?;
        }
    }
    Ok(names)
}

/// Returns the character that ends each name in a list.
fn end_of(null: bool) -> char
    ensures { result ≡ end_byte null }
{
    if null { '\0' } else { '\n' }
}
