//! `unpack`: recovers every file of every set on images into a directory.
mod chosen;
mod completion;
mod existing;
mod image_row;
mod labels;
mod manifest;
mod offsets;
mod record;
mod recorded;
mod recovery;
pub mod report;
mod rows;
mod run;
mod salvaged;
mod section_lines;
mod sources;
mod stages;
mod summed;
mod sums;

use crate::command_spec::{CommandSpec, Kind, Word};
use crate::help;
use crate::names::Named;
use crate::refusal::Refusal;
use crate::relabel::{JOIN, RENUMBER, Relabels, relabels_of};
use crate::words::{TEXT, folder_of, form_of, named, set_id_of};
use clap::ArgMatches;
pub use record::Record;
pub use recorded::{RecordedName, in_words, written_at};
pub use recovery::renumber;
pub use rows::printable;
pub use run::unpack;
pub use section_lines::SectionLines;
use std::alloc::Global;
pub use summed::{Listed, Summed, SummedDraft};
use tape_blocks::Form;

/// The request to `unpack`: the images, and the directory for their files.
#[derive(Drop)]
pub struct UnpackOrder<'a> {
    /// The directory for the files.
    pub folder: &'a str,
    /// The images, in the order in which they are named.
    pub images: Named<'a>,
    /// The form in which records are written, or `None` if each file gets the one for its records.
    pub form: Option<Form>,
    /// Whether the characters of records are translated from EBCDIC.
    pub is_text: bool,
    /// Only files of this set.
    pub set: Option<&'a str>,
    /// Only files that one of these numbers and names means, if there are any.
    pub files: Vec<&'a str>,
    /// Whether nothing is recovered, and what would be is printed.
    pub list: bool,
    /// Whether the readable records of incomplete files are written, too.
    pub salvage: bool,
    /// Whether files keep the time at which they were written.
    pub now: bool,
    /// Whether the checksums of the files are listed.
    pub manifest: bool,
    /// Whether nothing is recovered, and the files are checked against their list, and against the
    /// images if some are named.
    pub verify: bool,
    /// What is requested of labels.
    pub relabels: Relabels,
}

const FORMS_OF_FILES: &[&str] = &["lines", "raw", "counted", "auto"];

pub const UNPACK: &CommandSpec = &CommandSpec {
    name: "unpack",
    about: help::ABOUT_UNPACK,
    after_help: help::AFTER_UNPACK,
    words: &[
        Word("DIR", Kind::Text, help::FOLDER_OF_FILES),
        Word("IMAGE", Kind::Images, help::SHELF),
        Word(
            "form",
            Kind::NameOption("FORM", FORMS_OF_FILES, &["lines"]),
            help::FORM_OF_FILES,
        ),
        TEXT,
        Word("set", Kind::TextOption("SET"), help::SET_TO_UNPACK),
        Word("file", Kind::TextOptions("N|NAME"), help::FILES_TO_UNPACK),
        Word("list", Kind::Flag, help::LIST_ONLY),
        Word("salvage", Kind::Flag, help::SALVAGE_FILES),
        JOIN,
        RENUMBER,
        Word("now", Kind::Flag, help::NOW),
        Word("manifest", Kind::Flag, help::MANIFEST),
        Word("verify", Kind::Flag, help::VERIFY),
    ],
};

pub fn unpack_order<'a>(
    alloc: Global,
    matches: &ArgMatches<'a>,
) -> Result<UnpackOrder<'a>, Refusal> {
    let folder = folder_of(matches)?;
    let set = matches.get_str("set");
    if let Some(name) = set
        && set_id_of(name).is_none()
    {
        return Err(Refusal::Value("set", help::WRONG_SET));
    }
    let order = UnpackOrder {
        folder,
        images: named(alloc, matches, help::TOO_MANY_TO_UNPACK)?,
        form: form_of_files(matches),
        is_text: matches.get_flag("text"),
        set,
        files: Vec::from_slice(alloc, matches.get_strs("file").unwrap_or(&[]))?,
        list: matches.get_flag("list"),
        salvage: matches.get_flag("salvage"),
        now: matches.get_flag("now"),
        manifest: matches.get_flag("manifest"),
        verify: matches.get_flag("verify"),
        relabels: relabels_of(alloc, matches)?,
    };
    if order.verify && !verifies(&order) {
        return Err(Refusal::Words(help::VERIFY_ALONE));
    }
    Ok(order)
}

/// Returns the form that was requested for all files, if one was.
fn form_of_files(matches: &ArgMatches<'_>) -> Option<Form> {
    match matches.get_str("form") {
        Some("auto") => None,
        _ => Some(form_of(matches)),
    }
}

/// Returns whether the options of a request to verify do not exclude each other.
fn verifies(order: &UnpackOrder<'_>) -> bool {
    let has_choice = order.set.is_some() || !order.files.is_empty();
    let has_flag = order.list || order.salvage || order.now || order.manifest;
    !has_flag && (has_images(order) || !has_choice)
}

/// Returns whether images are named, or a list of them.
fn has_images(order: &UnpackOrder<'_>) -> bool {
    !order.images.words.is_empty() || order.images.list.is_some()
}
